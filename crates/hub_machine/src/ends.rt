//! The rows of the end of a lease.
ghost use Rattle.std.specs.Prelude.{◌≡◌, ◌++◌, ◌∷◌, [], map, IfOk, OnOk};
ghost use Rattle.std.specs.Option.{option_copied};
ghost use Rattle.hub_machine.specs.Apply as spec;
ghost use Rattle.hub_rows.specs.declared.changes.RowChange.TheVariants.{Remove};
ghost use Rattle.hub_rows.specs.declared.rows.RowKey.TheVariants as RowKeys;

use hub_kit::names::ServerKey;
use hub_kit::text::Text;
use hub_lives::Leased;
use hub_rows::changes::RowChange;
use hub_rows::records::{ServerRow, Token};
use hub_rows::rows::{Row, RowKey};
use hub_tables::tables::Tables;
use scope_filters::holder::Owner;
use std::alloc::{AllocError, Global};

/// The OAuth client of a server.
pub fn client_of(alloc: Global, key: &ServerKey) -> Result<Text, AllocError>
    ensures { IfOk result (λ client. client ≡ spec.client_of key.now) }
{
    let mut client = Text::from_str(alloc, "server:")?;
    client.push_str(key.user.as_str())?;
    client.push_str("/")?;
    client.push_str(key.server.as_str())?;
    Ok(client)
}

/// Whether the server got the token at its start: it was issued for it, without a client.
fn is_start_token(key: &ServerKey, token: Option<&Token>) -> bool
    ensures { result ≡ spec.is_start_token key.now (option_copied token.entry) }
{
    match token {
        Some(token) => token.issued_for == Some(*key) && token.client.is_none(),
        None => false,
    }
}

/// Adds the removals of the tokens that the server got at its start.
fn push_tokens(
    alloc: Global,
    rows: &mut Vec<RowChange>,
    tables: &Tables,
    key: &ServerKey,
) -> Result<(), AllocError>
    ensures { OnOk result (rows.new.items ≡ rows.old.items ++ map (λ id. Remove (RowKeys.Token id))
        (spec.start_tokens tables.now key.now)) }
{
    let ids = tables.tokens_of(alloc, &Owner::User(key.user))?;
    for id in &ids {
        if is_start_token(key, tables.token(*id)) {
            rows.push(RowChange::Remove(RowKey::Token(*id)))?;
        }
    }
    Ok(())
}

/// The server's row at rest, if it has one.
fn push_rested(rows: &mut Vec<RowChange>, row: Option<&ServerRow>) -> Result<(), AllocError>
    ensures { OnOk result (rows.new.items ≡ rows.old.items ++ spec.rested (option_copied row.entry)) }
{
    if let Some(row) = row {
        rows.push(RowChange::Put(Row::ServerRow(ServerRow {
            started: None,
            ..*row
        })))?;
    }
    Ok(())
}

/// The rows of the end of a lease.
pub(crate) fn end_rows(
    alloc: Global,
    tables: &Tables,
    lease: &Leased,
) -> Result<Vec<RowChange>, AllocError>
    ensures { IfOk result (λ rows. rows.items ≡ spec.end_rows tables.now lease.now) }
{
    let mut rows = Vec::new(alloc);
    push_rested(&mut rows, tables.server(&lease.server))?;
    push_tokens(alloc, &mut rows, tables, &lease.server)?;
    rows.push(RowChange::Remove(RowKey::Lease(lease.target.copy(alloc)?)))?;
    let client = client_of(alloc, &lease.server)?;
    rows.push(RowChange::Remove(RowKey::OAuthClient(client)))?;
    Ok(rows)
}
