//! The store: of what form it is, and a batch in one transaction.
ghost use Rattle.std.specs.Prelude.{◌≡◌, ◌≢◌, ◌≤◌, ◌⊎◌, false, pos, Ok, IsTrue, IsOkAnd, IfSome, IfOk, IfErr, OnOk, OnErr};
ghost use Rattle.sqlite.specs.View.{doubt};
ghost use Rattle.sqlite.specs.Order.{column};
ghost use Rattle.sqlite.specs.declared.types.Value.TheVariants.{Int};
ghost use Rattle.sqlite.specs.State.{HasCleanDisk, ExecutesInside};
ghost use Rattle.sqlite.specs.Held.{state};
ghost use Rattle.keeper.specs.Rows.{Lists};
ghost use Rattle.row_table.specs.Open.{StaysOpen};
ghost use Rattle.row_table.specs.Tables.{no_schema};
ghost use Rattle.row_table.specs.Texts.{number_text, StaysInside, Leaves};
ghost use Rattle.row_table.specs.Unread.{IsUnread};
ghost use Rattle.keeper_sqlite.specs.Forms.{number_of};
ghost use Rattle.keeper_sqlite.specs.Own.{IsOwned, IsOwnStore, AreAll, Stands, told_rows};
ghost use Rattle.keeper_sqlite.specs.Statements.{text_of, values_of, HasNoTables, IsOfForm, IsRaised, IsRenewed, AreDone, IsCommitted};
ghost use Rattle.keeper_sqlite.specs.Statements.{IsLoaded};

use crate::reading;
use keeper::keeper::{Item, Row};
use row_table::{known, statements};
use sqlite::{Alter, Connection, Error, ErrorCode, Transaction};
use std::alloc::Global;

/// Of what form a store is that has tables. Both have the same tables.
#[derive(Clone, Copy, Debug, PartialEq, Eq)]
pub(crate) enum Form {
    Old,
    New,
}

/// The form of a store with this number. A store of any other number wasn't made by this program.
fn form_of(number: i64) -> Result<Form, Error>
    ensures known { IfOk result (λ form. number ≡ number_of form) }
    ensures unknown { IfErr result (λ e. (e ≡ Error.SqliteFailure ErrorCode.NotADatabase) × (number ≢ pos 1) × (number ≢ pos 2)) }
{
    match number {
        1 => Ok(Form::Old),
        2 => Ok(Form::New),
        _ => Err(Error::SqliteFailure(ErrorCode::NotADatabase)),
    }
}

/// The form that the number in a row is of.
fn form_in(row: &sqlite::Row) -> Result<Form, Error>
    ensures { IfOk result (λ form. column row.now 0 ≡ Int (number_of form)) }
{
    form_of(row.get(0)?)
}

/// Whether the store has no tables.
fn is_empty<S: Alter>(conn: &Connection<S>) -> bool
    ensures empty { IsTrue result → HasNoTables (state S.Store conn.now).now.schema }
    ensures only { HasNoTables (state S.Store conn.now).now.schema → IsTrue result }
{
    let schema = conn.schema();
    schema.tables.is_empty() && schema.views.is_empty()
}

/// Whether the store has nothing at all, and no transaction is under way.
pub(crate) fn is_fresh<S: Alter>(conn: &Connection<S>) -> bool
    ensures fresh { IsTrue result → (conn.now.in_transaction ≡ false) × (conn.now.schema ≡ no_schema) }
    ensures only { conn.now.in_transaction ≡ false → conn.now.schema ≡ no_schema → IsTrue result }
{
    let schema = conn.schema();
    let has_no_names = schema.tables.is_empty()
        & schema.indexes.is_empty()
        & schema.views.is_empty();
    conn.is_autocommit() & has_no_names
}

/// What was found of a store: whether it has nothing at all, or the tables and rows of this program alone, and no transaction is
/// under way; and its rows, where they were read and there was memory for them.
#[derive(Drop)]
pub(crate) struct Found {
    pub(crate) is_own: bool,
    pub(crate) read: Option<Vec<Row>>,
}

/// Reads the store. An error says that it couldn't be read, which tells nothing of it.
pub(crate) fn find<S: Alter>(alloc: Global, conn: &mut Connection<S>) -> Result<Found, Error>
    ensures clean { doubt (state S.Store conn.old).is_clean ≤ doubt (state S.Store conn.new).is_clean }
    ensures stays { StaysOpen (state S.Store conn.old) (state S.Store conn.new) }
    ensures open { HasCleanDisk (state S.Store conn.new) → IsTrue (state S.Store conn.old).is_open
        → IfOk result (λ found. IsTrue (state S.Store conn.new).is_open) }
    ensures stands { HasCleanDisk (state S.Store conn.new) → Stands S.Store conn.old conn.new }
    ensures own { IfOk result (λ found. IsTrue found.is_own → IsOwned S.Store conn.new) }
    ensures only { HasCleanDisk (state S.Store conn.new) → conn.old.in_transaction ≡ false → IsOwnStore (state S.Store conn.old).now
        → IfOk result (λ found. IsTrue found.is_own) }
    ensures fresh { conn.old.in_transaction ≡ false → conn.old.schema ≡ no_schema → IsOkAnd result (λ found. IsTrue found.is_own) }
    ensures unread { HasCleanDisk (state S.Store conn.new) → IfErr result (IsUnread (state S.Store conn.old) (state S.Store conn.new)) }
    ensures read { IfOk result (λ found. IfSome found.read (λ all. AreAll S.Store conn.new all.items)) }
{
    if is_fresh(conn) {
        return Ok(Found {
            is_own: true,
            read: None,
        });
    }
    let rows = known::own_rows(conn)?;
    Ok(Found {
        is_own: rows.is_some(),
        read: reading::any_in_order(alloc, rows),
    })
}

/// Marks a store of this form as of the newest.
fn raise<S: Alter>(tx: &mut Transaction<'_, S>, form: Form) -> Result<(), Error>
    ensures same_reference { tx.new.conn.ghost_name ≡ tx.old.conn.ghost_name }
    ensures clean { doubt (state S.Store tx.old.conn.now).is_clean ≤ doubt (state S.Store tx.new.conn.now).is_clean }
    ensures stays { StaysOpen (state S.Store tx.old.conn.now) (state S.Store tx.new.conn.now) }
    ensures kept { HasCleanDisk (state S.Store tx.new.conn.now)
        → StaysInside (state S.Store tx.old.conn.now) (state S.Store tx.new.conn.now) result }
    ensures raised { HasCleanDisk (state S.Store tx.new.conn.now) → OnOk result (IsRaised S.Store form tx.old.conn.now tx.new.conn.now) }
{
    match form {
        Form::Old => statements::raise_number(tx),
        Form::New => Ok(()),
    }
}

/// Makes a store of the newest form, from one of either form or from an empty one.
fn renew<S: Alter>(tx: &mut Transaction<'_, S>, is_empty: bool) -> Result<(), Error>
    ensures same_reference { tx.new.conn.ghost_name ≡ tx.old.conn.ghost_name }
    ensures clean { doubt (state S.Store tx.old.conn.now).is_clean ≤ doubt (state S.Store tx.new.conn.now).is_clean }
    ensures stays { StaysOpen (state S.Store tx.old.conn.now) (state S.Store tx.new.conn.now) }
    ensures kept { HasCleanDisk (state S.Store tx.new.conn.now)
        → StaysInside (state S.Store tx.old.conn.now) (state S.Store tx.new.conn.now) result }
    ensures renewed { HasCleanDisk (state S.Store tx.new.conn.now)
        → OnOk result (IsRenewed S.Store is_empty tx.old.conn.now tx.new.conn.now) }
{
    if is_empty {
        return statements::make_tables(tx);
    }
    let row = statements::find_number(tx)?;
    raise(tx, form_in(&row)?)
}

fn do_item<S: Alter>(tx: &mut Transaction<'_, S>, item: &Item) -> Result<usize, Error>
    ensures same_reference { tx.new.conn.ghost_name ≡ tx.old.conn.ghost_name }
    ensures clean { doubt (state S.Store tx.old.conn.now).is_clean ≤ doubt (state S.Store tx.new.conn.now).is_clean }
    ensures stays { StaysOpen (state S.Store tx.old.conn.now) (state S.Store tx.new.conn.now) }
    ensures done { HasCleanDisk (state S.Store tx.new.conn.now) → IsTrue (state S.Store tx.old.conn.now).in_transaction
        → ExecutesInside 0 (text_of item.now) (values_of item.now) (state S.Store tx.old.conn.now) (state S.Store tx.new.conn.now) result }
{
    match item {
        Item::Put(row) => statements::put_row(tx, row.kind, row.key.as_str(), row.text.as_str()),
        Item::Delete { kind, key } => statements::delete_row(tx, *kind, key.as_str()),
    }
}

/// Does all items, in order.
fn do_items<S: Alter>(tx: &mut Transaction<'_, S>, items: &[Item]) -> Result<(), Error>
    ensures same_reference { tx.new.conn.ghost_name ≡ tx.old.conn.ghost_name }
    ensures clean { doubt (state S.Store tx.old.conn.now).is_clean ≤ doubt (state S.Store tx.new.conn.now).is_clean }
    ensures stays { StaysOpen (state S.Store tx.old.conn.now) (state S.Store tx.new.conn.now) }
    ensures kept { HasCleanDisk (state S.Store tx.new.conn.now)
        → StaysInside (state S.Store tx.old.conn.now) (state S.Store tx.new.conn.now) result }
    ensures done { HasCleanDisk (state S.Store tx.new.conn.now) → IsTrue (state S.Store tx.old.conn.now).in_transaction
        → OnOk result (AreDone S.Store items.now tx.old.conn.now tx.new.conn.now) }
{
    for item in items {
        do_item(tx, item)?;
    }
    Ok(())
}

/// Does all items in order in one transaction, or none. Fails while the connection is in a transaction already.
pub(crate) fn commit_items<S: Alter>(conn: &mut Connection<S>, items: &[Item]) -> Result<(), Error>
    ensures done { HasCleanDisk (state S.Store conn.new) → OnOk result (IsCommitted S.Store items.now conn.old conn.new) }
    ensures clean { doubt (state S.Store conn.old).is_clean ≤ doubt (state S.Store conn.new).is_clean }
    ensures stays { StaysOpen (state S.Store conn.old) (state S.Store conn.new) }
    ensures was_open { HasCleanDisk (state S.Store conn.new) → IsTrue (state S.Store conn.new).is_open
        → IsTrue (state S.Store conn.old).is_open }
    ensures ended { conn.old.in_transaction ≡ false → conn.new.in_transaction ≡ false }
    ensures open { HasCleanDisk (state S.Store conn.new) → OnOk result (IsTrue (state S.Store conn.new).is_open) }
    ensures undone { HasCleanDisk (state S.Store conn.new) → IsTrue (state S.Store conn.new).is_open
        → OnErr result (((state S.Store conn.new).now ≡ (state S.Store conn.old).now)
        × ((state S.Store conn.new).committed ≡ (state S.Store conn.old).committed)) }
{
    if !conn.is_autocommit() {
        return Err(Error::SqliteFailure(ErrorCode::TransactionState));
    }
    let is_empty = is_empty(conn);
    let mut tx = conn.transaction();
    renew(&mut tx, is_empty)?;
    do_items(&mut tx, items)?;
    tx.commit()
}

/// The form of the store, by the number that it holds.
fn find_form<S: Alter>(conn: &mut Connection<S>) -> Result<Form, Error>
    ensures clean { doubt (state S.Store conn.old).is_clean ≤ doubt (state S.Store conn.new).is_clean }
    ensures stays { StaysOpen (state S.Store conn.old) (state S.Store conn.new) }
    ensures mode { conn.old.in_transaction ≡ false → conn.new.in_transaction ≡ false }
    ensures left { HasCleanDisk (state S.Store conn.new) → Leaves number_text (state S.Store conn.old) (state S.Store conn.new) }
    ensures form { HasCleanDisk (state S.Store conn.new) → IfOk result (λ form. IsOfForm S.Store form conn.old conn.new) }
{
    let row = conn.query_row("SELECT value FROM meta WHERE name = 'schema'", &[])?;
    form_in(&row)
}

/// The rows that the store gives, in the order of kind and key. One without tables has none.
fn load_rows<S: Alter>(alloc: Global, conn: &mut Connection<S>) -> Result<Vec<Row>, Error>
    ensures clean { doubt (state S.Store conn.old).is_clean ≤ doubt (state S.Store conn.new).is_clean }
    ensures stays { StaysOpen (state S.Store conn.old) (state S.Store conn.new) }
    ensures ended { conn.old.in_transaction ≡ false → conn.new.in_transaction ≡ false }
    ensures loaded { HasCleanDisk (state S.Store conn.new) → IfOk result (λ all. IsLoaded S.Store conn.old conn.new all.items) }
    ensures open { HasCleanDisk (state S.Store conn.new) → IsTrue (state S.Store conn.old).is_open
        → OnOk result (IsTrue (state S.Store conn.new).is_open) }
    ensures stands { HasCleanDisk (state S.Store conn.new) → IsOwned S.Store conn.old → Stands S.Store conn.old conn.new }
    ensures listed { HasCleanDisk (state S.Store conn.new) → IsTrue (state S.Store conn.new).is_open → IsOwned S.Store conn.old
        → IfOk result (λ all. Lists (told_rows S.Store conn.old) all.items) }
{
    // Tells the proof that outside a transaction the last commit is what is seen.
    let _settled = conn.is_autocommit();
    if is_empty(conn) {
        return Ok(Vec::new(alloc));
    }
    let _form = find_form(conn)?;
    reading::rows_of(alloc, statements::select_rows(conn)?)
}

/// The rows that were read already, over a store that still has a form that is known.
fn rows_again<S: Alter>(conn: &mut Connection<S>, read: Vec<Row>) -> Result<Vec<Row>, Error>
    requires { AreAll S.Store conn.old read.items }
    ensures clean { doubt (state S.Store conn.old).is_clean ≤ doubt (state S.Store conn.new).is_clean }
    ensures stays { StaysOpen (state S.Store conn.old) (state S.Store conn.new) }
    ensures ended { conn.old.in_transaction ≡ false → conn.new.in_transaction ≡ false }
    ensures loaded { HasCleanDisk (state S.Store conn.new) → IfOk result (λ all. IsLoaded S.Store conn.old conn.new all.items) }
    ensures open { HasCleanDisk (state S.Store conn.new) → IsTrue (state S.Store conn.old).is_open
        → OnOk result (IsTrue (state S.Store conn.new).is_open) }
    ensures stands { HasCleanDisk (state S.Store conn.new) → IsOwned S.Store conn.old → Stands S.Store conn.old conn.new }
    ensures listed { HasCleanDisk (state S.Store conn.new) → IsTrue (state S.Store conn.new).is_open → IsOwned S.Store conn.old
        → IfOk result (λ all. Lists (told_rows S.Store conn.old) all.items) }
{
    // Tells the proof that outside a transaction the last commit is what is seen.
    let _settled = conn.is_autocommit();
    let _form = find_form(conn)?;
    Ok(read)
}

/// All rows, in the order of kind and key: those that were read already, where they were, and else those that the store gives.
pub(crate) fn all_rows<S: Alter>(
    alloc: Global,
    conn: &mut Connection<S>,
    read: Option<Vec<Row>>,
) -> Result<Vec<Row>, Error>
    requires { IfSome read (λ all. AreAll S.Store conn.old all.items) }
    ensures clean { doubt (state S.Store conn.old).is_clean ≤ doubt (state S.Store conn.new).is_clean }
    ensures stays { StaysOpen (state S.Store conn.old) (state S.Store conn.new) }
    ensures ended { conn.old.in_transaction ≡ false → conn.new.in_transaction ≡ false }
    ensures loaded { HasCleanDisk (state S.Store conn.new) → IfOk result (λ all. IsLoaded S.Store conn.old conn.new all.items) }
    ensures open { HasCleanDisk (state S.Store conn.new) → IsTrue (state S.Store conn.old).is_open
        → OnOk result (IsTrue (state S.Store conn.new).is_open) }
    ensures stands { HasCleanDisk (state S.Store conn.new) → IsOwned S.Store conn.old → Stands S.Store conn.old conn.new }
    ensures listed { HasCleanDisk (state S.Store conn.new) → IsTrue (state S.Store conn.new).is_open → IsOwned S.Store conn.old
        → IfOk result (λ all. Lists (told_rows S.Store conn.old) all.items) }
{
    match read {
        Some(read) => rows_again(conn, read),
        None => load_rows(alloc, conn),
    }
}
