//! Texts under kinds and keys in a tree, and what a batch does to them: all of it, or nothing.
//! A place may stand without a text: it is no row. Places are made first, which alone takes memory, and then all texts are
//! written, which can't fail any more; places that are left without a text are swept away.
ghost use Rattle.std.specs.Prelude.{◌≡◌, ◌++◌, true, map, IfOk, OnOk, OnErr};
ghost use Rattle.keeper.specs.Rows.{AreSame, Lists, after_items};
ghost use Rattle.keeper.specs.Rows as listed;
ghost use Rattle.keeper.specs.declared.keeper.Item.TheVariants as Item;
ghost use Rattle.keeper.specs.RowOrder.{key_cmp};
ghost use Rattle.keyed_rows.specs.Rows.{map_of};
ghost use Rattle.std.specs.FinMap as fin;
ghost use Rattle.keeper.specs.Held.{held, after_steps, HaveRoom, KeepsPlaces, row_at};
ghost use Rattle.keeper.specs.Held as spec;

use crate::keeper::{Item, Row};
use crate::row_key::RowKey;
use hub_kit::text::Text;
use std::alloc::{AllocError, Global};
use std::collections::{BTreeMap, VecDeque};

/// What an item does: after it this text stands at the place, or none.
#[derive(Drop)]
pub(crate) struct Step {
    pub(crate) at: RowKey,
    pub(crate) text: Option<Text>,
}

pub(crate) type HeldRows = BTreeMap<RowKey, Option<Text>>;

fn step_of(alloc: Global, item: &Item) -> Result<Step, AllocError>
    ensures { IfOk result (λ step. step ≡ spec.step_of item.now) }
{
    match item {
        Item::Put(row) => Ok(Step {
            at: RowKey::copy_of(alloc, row.kind, &row.key)?,
            text: Some(row.text.copy(alloc)?),
        }),
        Item::Delete { kind, key } => Ok(Step {
            at: RowKey::copy_of(alloc, *kind, key)?,
            text: None,
        }),
    }
}

fn steps_of(alloc: Global, items: &[Item]) -> Result<VecDeque<Step>, AllocError>
    ensures { IfOk result (λ steps. steps.items ≡ map spec.step_of items.now) }
{
    let mut steps = VecDeque::new(alloc);
    for item in items {
        steps.push_back(step_of(alloc, item)?)?;
    }
    Ok(steps)
}

fn places_of(alloc: Global, items: &[Item]) -> Result<Vec<RowKey>, AllocError>
    ensures { IfOk result (λ places. places.items ≡ map (λ item. (spec.step_of item).at) items.now) }
{
    let mut places = Vec::new(alloc);
    for item in items {
        let step = step_of(alloc, item)?;
        places.push(step.at)?;
    }
    Ok(places)
}

/// Makes a place without a text, unless there is one already.
fn make_place(alloc: Global, rows: &mut HeldRows, place: &RowKey) -> Result<(), AllocError>
    ensures same { AreSame (held (map_of key_cmp rows.new)) (held (map_of key_cmp rows.old)) }
    ensures there { OnOk result (fin.contains_key (map_of key_cmp rows.new) place.now ≡ true) }
    ensures kept { KeepsPlaces (map_of key_cmp rows.old) (map_of key_cmp rows.new) }
{
    if keyed_rows::row_at(rows, place).is_some() {
        return Ok(());
    }
    keyed_rows::insert_row(rows, place.copy(alloc)?, None)
}

/// Makes all places.
fn make_room(alloc: Global, rows: &mut HeldRows, places: &[RowKey]) -> Result<(), AllocError>
    ensures same { AreSame (held (map_of key_cmp rows.new)) (held (map_of key_cmp rows.old)) }
    ensures room { OnOk result (HaveRoom (map_of key_cmp rows.new) places.now) }
{
    for place in places {
        make_place(alloc, rows, place)?;
    }
    Ok(())
}

/// Writes a text, or none, at a place that is there.
fn write_text(rows: &mut HeldRows, step: Step)
    requires { fin.contains_key (map_of key_cmp rows.old) step.at ≡ true }
    ensures { map_of key_cmp rows.new ≡ fin.insert (map_of key_cmp rows.old) step.at step.text }
{
    match keyed_rows::insert_row(rows, step.at, step.text) {
        Ok(()) => {}
        Err(_) => unreachable!(),
    }
}

/// Writes all texts, in order.
fn write_texts(rows: &mut HeldRows, steps: VecDeque<Step>)
    requires { HaveRoom (map_of key_cmp rows.old) (map (λ step. step.at) steps.items) }
    ensures { AreSame (held (map_of key_cmp rows.new)) (after_steps steps.items (held (map_of key_cmp rows.old))) }
{
    let mut left = steps;
    while let Some(step) = left.pop_front() {
        write_text(rows, step);
    }
}

/// Whether the place is there and has no text.
fn is_bare(rows: &HeldRows, place: &RowKey) -> bool
    ensures { result ≡ spec.is_bare (fin.get (map_of key_cmp rows.now) place.now) }
{
    match keyed_rows::row_at(rows, place) {
        Some(text) => text.is_none(),
        None => false,
    }
}

/// Takes a place away that has no text.
fn sweep_place(rows: &mut HeldRows, place: &RowKey)
    ensures { AreSame (held (map_of key_cmp rows.new)) (held (map_of key_cmp rows.old)) }
{
    if is_bare(rows, place) {
        keyed_rows::remove_row(rows, place);
    }
}

/// Takes those of the places away that have no text.
fn sweep(rows: &mut HeldRows, places: &[RowKey])
    ensures { AreSame (held (map_of key_cmp rows.new)) (held (map_of key_cmp rows.old)) }
{
    for place in places {
        sweep_place(rows, place);
    }
}

/// Does all items in order, or none.
pub(crate) fn do_items(alloc: Global, rows: &mut HeldRows, items: &[Item]) -> Result<(), AllocError>
    ensures ok { OnOk result (AreSame (held (map_of key_cmp rows.new)) (after_items items.now (held (map_of key_cmp rows.old)))) }
    ensures err { OnErr result (AreSame (held (map_of key_cmp rows.new)) (held (map_of key_cmp rows.old))) }
{
    let steps = steps_of(alloc, items)?;
    let places = places_of(alloc, items)?;
    match make_room(alloc, rows, &places) {
        Ok(()) => {
            write_texts(rows, steps);
            sweep(rows, &places);
            Ok(())
        }
        Err(error) => {
            sweep(rows, &places);
            Err(error)
        }
    }
}

/// Adds the row of a place, if it has a text.
fn add_row(
    alloc: Global,
    all: &mut Vec<Row>,
    at: &RowKey,
    text: &Option<Text>,
) -> Result<(), AllocError>
    ensures { OnOk result (all.new.items ≡ all.old.items ++ row_at at.now text.now) }
{
    match text {
        Some(text) => all.push(Row {
            kind: at.kind,
            key: at.key.copy(alloc)?,
            text: text.copy(alloc)?,
        })?,
        None => {}
    }
    Ok(())
}

/// All rows, in the order of kind and key.
pub(crate) fn all_rows(alloc: Global, rows: &HeldRows) -> Result<Vec<Row>, AllocError>
    ensures { IfOk result (λ all. Lists (held (map_of key_cmp rows.now)) all.items) }
{
    let mut all = Vec::new(alloc);
    for (at, text) in rows {
        add_row(alloc, &mut all, at, text)?;
    }
    Ok(all)
}

fn puts_of(alloc: Global, rows: Vec<Row>) -> Result<Vec<Item>, AllocError>
    ensures { IfOk result (λ items. items.items ≡ map Item.Put rows.items) }
{
    let mut items = Vec::new(alloc);
    for row in rows {
        items.push(Item::Put(row))?;
    }
    Ok(items)
}

/// The rows of a list, of which a later one replaces an earlier one of its kind and key.
pub(crate) fn rows_of(alloc: Global, rows: Vec<Row>) -> Result<HeldRows, AllocError>
    ensures { IfOk result (λ made. AreSame (held (map_of key_cmp made)) (listed.rows_of rows.items)) }
{
    let mut made = BTreeMap::new(alloc);
    let items = puts_of(alloc, rows)?;
    do_items(alloc, &mut made, &items)?;
    Ok(made)
}
