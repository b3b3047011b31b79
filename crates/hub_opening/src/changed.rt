//! Tables that are changed, and what their keeper is to be told of it.
ghost use Rattle.std.specs.Prelude.{◌≡◌, ◌++◌, ◌∷◌, [], true, IfOk, OnOk, MatchBool};
ghost use Rattle.hub_rows.specs.declared.changes.RowChange.TheVariants.{Put};
ghost use Rattle.hub_tables.specs.Changes.{with_row, row_done, way_back as way_back_of, FitsKey};
ghost use Rattle.hub_tables.specs.Lookups.{next_of};
ghost use Rattle.keeper.specs.Rows.{Rows, after_items};
ghost use Rattle.record_texts.specs.Items as texts;
ghost use Rattle.hub_machine.specs.KeptRows.{Keeps};
ghost use Rattle.hub_opening.specs.Changing as spec;

use hub_kit::text::Text;
use hub_rows::changes::RowChange;
use hub_rows::rows::Row;
use hub_tables::tables::Tables;
use keeper::keeper::{Batch, Item};
use record_texts::item::item_of;
use std::alloc::{AllocError, Global};
use table_changes::{change, way_back};

/// Tables, and the items that bring a keeper which had their rows at first to those that they have now.
#[derive(Drop)]
pub(crate) struct Changed {
    pub(crate) tables: Tables,
    pub(crate) batch: Batch,
}

impl Changed {
    /// The next number of a kind of numbers.
    pub(crate) fn next_of(&self, name: &Text) -> u64
        ensures { result ≡ next_of self.now.tables name.now }
    {
        match self.tables.next_of(name) {
            Some(row) => row.next,
            None => 1,
        }
    }

    /// Puts a row. Of one that is there as it is a keeper is told nothing.
    pub(crate) fn put(&mut self, alloc: Global, row: Row) -> Result<(), AllocError>
        requires { FitsKey self.old.tables row }
        ensures tables { OnOk result (self.new.tables ≡ with_row row self.old.tables) }
        ensures leads { OnOk result (spec.Leads self.old self.new) }
    {
        let put = RowChange::Put(row);
        tell(alloc, &self.tables, &mut self.batch, &put)?;
        change(&mut self.tables, put)
    }
}

/// Adds the item of a put, unless the row that is there has its text.
fn tell(
    alloc: Global,
    tables: &Tables,
    batch: &mut Batch,
    put: &RowChange,
) -> Result<(), AllocError>
    ensures { OnOk result ((row : Row) → put.now ≡ Put row → (has : Rows) → Keeps (after_items batch.old has) tables.now
        → Keeps (after_items batch.new has) (with_row row tables.now)) }
{
    let item = item_of(alloc, put)?;
    let kept = kept_item(alloc, tables, put)?;
    if is_same_item(&kept, &item) {
        return Ok(());
    }
    batch.push(item)?;
    Ok(())
}

/// The item that would put what stands under the change's key, or remove it where nothing stands there.
fn kept_item(alloc: Global, tables: &Tables, put: &RowChange) -> Result<Item, AllocError>
    ensures { IfOk result (λ item. item ≡ texts.item_of (way_back_of tables.now put.now)) }
{
    let back = way_back(tables, alloc, put)?;
    item_of(alloc, &back)
}

/// Whether two items put one row.
fn is_same_item(a: &Item, b: &Item) -> bool
    ensures { result ≡ true → a.now ≡ b.now }
{
    match (a, b) {
        (Item::Put(a), Item::Put(b)) => a.kind == b.kind && a.key == b.key && a.text == b.text,
        _ => false,
    }
}
