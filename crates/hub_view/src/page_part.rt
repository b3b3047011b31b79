//! The part of a list that stands in a page, by the names of what is kept.
ghost use Rattle.std.specs.Prelude.{◌≡◌, length, IfOk};
ghost use Rattle.std.specs.List.{filter};
ghost use Rattle.std.specs.BTreeMap as tree;
ghost use Rattle.std.specs.BTreeMap.{IsOrdered};
ghost use Rattle.std.specs.FinMap as map;
ghost use Rattle.keyed_rows.specs.Rows.{map_of};
ghost use Rattle.scope_meet.specs.Admitted.{is_admitted};
ghost use Rattle.hub_view.specs.Pages.{in_page, kept};

use crate::pages::{Page, limit_of};
use hub_kit::key::Key;
use scope_meet::admitted::Admitted;
use std::alloc::{AllocError, Global};
use std::collections::BTreeMap;

/// The names of a list that stand in a page, and how many the list has.
#[derive(Drop)]
pub struct PagePart<K> {
    pub names: Vec<K>,
    pub total: usize,
}

/// The kept names among the admitted that stand in a page, and how many there are. Where every name is admitted it walks no further
/// than to the end of the page, and else over the admitted names alone.
pub fn part_of<K: Key + Copy, V>(
    alloc: Global,
    rows: &BTreeMap<K, V>,
    admitted: &Admitted<K>,
    page: Page,
) -> Result<PagePart<K>, AllocError>
    ensures names { IfOk result (λ part. part.names.items ≡ in_page page
        (kept (is_admitted K.Ord.cmp admitted.now) (map_of K.Ord.cmp rows.now))) }
    ensures total { IfOk result (λ part. part.total ≡ length (kept (is_admitted K.Ord.cmp admitted.now) (map_of K.Ord.cmp rows.now))) }
{
    match admitted {
        Admitted::Every => Ok(PagePart {
            names: rows_in_page(alloc, rows, page)?,
            total: keyed_rows::count(rows),
        }),
        Admitted::These(names) => {
            let kept = kept_among(alloc, rows, names.as_slice())?;
            Ok(PagePart {
                names: names_in_page(alloc, kept.as_slice(), page)?,
                total: kept.len(),
            })
        }
    }
}

/// The names of the rows that stand in a page.
fn rows_in_page<K: Key + Copy, V>(
    alloc: Global,
    rows: &BTreeMap<K, V>,
    page: Page,
) -> Result<Vec<K>, AllocError>
    ensures names { IfOk result (λ names. names.items ≡ in_page page (tree.keys rows.now)) }
    ensures ordered { IsOrdered K.Ord.cmp rows.now }
{
    let limit = limit_of(page) as usize;
    rows.keys()
        .copied()
        .skip(page.offset as usize)
        .take(limit)
        .collect(alloc)
}

/// The names that stand in a page.
pub fn names_in_page<K: Copy>(alloc: Global, names: &[K], page: Page) -> Result<Vec<K>, AllocError>
    ensures { IfOk result (λ part. part.items ≡ in_page page names.now) }
{
    let limit = limit_of(page) as usize;
    names
        .iter()
        .copied()
        .skip(page.offset as usize)
        .take(limit)
        .collect(alloc)
}

/// The names that are kept.
fn kept_among<K: Key + Copy, V>(
    alloc: Global,
    rows: &BTreeMap<K, V>,
    names: &[K],
) -> Result<Vec<K>, AllocError>
    ensures { IfOk result (λ kept. kept.items ≡ filter (map.contains_key (map_of K.Ord.cmp rows.now)) names.now) }
{
    let mut kept = Vec::new(alloc);
    for name in names {
        if keyed_rows::row_at(rows, name).is_some() {
            kept.push(*name)?;
        }
    }
    Ok(kept)
}
