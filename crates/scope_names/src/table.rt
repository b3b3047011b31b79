//! The table of scopes of one hub: the actions of the fixed table and the declared custom ones.
ghost use Rattle.std.specs.Prelude.{◌≡◌, ℕ, List, [], length, nat_lt, IsTrue, ◌↔◌, MatchOption, IfOk};
ghost use Rattle.std.specs.Bool.{IsFalse};
ghost use Rattle.std.specs.List.{list_any, slice_get};
ghost use Rattle.std.specs.Option.{IsSomeAnd, unwrap_or};
ghost use Rattle.std.specs.BTreeMap.{get};
ghost use Rattle.scope_names.specs.declared.action.Action.{Action};
ghost use Rattle.scope_names.specs.ActionOrder.{action_cmp};
ghost use Rattle.scope_names.specs.Coverage.{Covers, IsCoverage};
ghost use Rattle.scope_names.specs.Refusals.{is_declared, is_full, Repeats, IsUnknown, HasUnknown, IsOnCycle, IsNever, IsFirst};
ghost use Rattle.scope_names.specs.Refusals.{IsFirstOrNone, IsAnswer};

use crate::action::Action;
use crate::coverage;
use crate::custom::{CustomName, CustomRow};
use hub_kit::list::List;
use std::alloc::{AllocError, AllocFailed, Global};
use std::collections::BTreeMap;
use std::marker::Model;

/// Why rows make no table.
#[derive(Clone, Copy, Debug)]
pub enum TableError {
    /// More than 256 rows, or more than 64 subscopes in a row.
    Full,
    /// The first row whose name stood before.
    Repeated(usize),
    /// The first subscope that is no row's name.
    Unknown { row: usize, index: usize },
    /// The first row that is reached from itself by one or more steps.
    Cycle(usize),
    Memory,
}

impl From<AllocError> for TableError {
    ghost use Rattle.std.specs.Prelude.{◌≡◌};
    ghost use Rattle.scope_names.specs.declared.table.TableError.TheVariants.{Memory};

    ghost from_gives = { λ _ e. e ≡ Memory };

    fn from(_: AllocError) -> TableError {
        TableError::Memory
    }
}

/// The declared custom scopes, which contracts see as the list of their rows, with what each action covers.
pub struct ScopeTable {
    rows: List<CustomRow>,
    covered: BTreeMap<Action, List<Action>>,
}

impl Drop for ScopeTable {
    fn drop(self) {
        let ScopeTable {
            rows: _,
            covered: _,
        } = self;
    }
}

impl Model for ScopeTable {
    ghost use Rattle.std.specs.Prelude.{List, []};
    ghost use Rattle.std.specs.Option.{unwrap_or};
    ghost use Rattle.std.specs.BTreeMap.{get};
    ghost use Rattle.scope_names.specs.declared.action.Action.{Action};
    ghost use Rattle.scope_names.specs.declared.custom.CustomRow.{CustomRow};
    ghost use Rattle.scope_names.specs.ActionOrder.{action_cmp};
    ghost use Rattle.scope_names.specs.Coverage.{IsCoverage};

    ghost Value = { List CustomRow };

    ghost view = { λ t. t.rows };

    ghost invariant = { λ t. (a : Action) → IsCoverage t.rows a (unwrap_or (get action_cmp t.covered a) []) };
}

impl ScopeTable {
    /// Makes a table of the rows, or says why they make none.
    pub fn new(alloc: Global, rows: &[CustomRow]) -> Result<ScopeTable, TableError>
        ensures { IsAnswer rows.now result }
    {
        if is_full(rows) {
            return Err(TableError::Full);
        }
        if let Some(i) = first_repeated(rows) {
            return Err(TableError::Repeated(i));
        }
        if let Some((row, index)) = first_unknown(rows) {
            return Err(TableError::Unknown { row, index });
        }
        if let Some(i) = first_on_cycle(alloc, rows)? {
            return Err(TableError::Cycle(i));
        }
        let covered = coverage::cover_all(alloc, rows)?;
        let rows = copy_rows(alloc, rows)?;
        Ok(ScopeTable { rows, covered })
    }

    /// All that the action covers, in order. Takes no memory.
    pub fn covered(&self, a: Action) -> &[Action]
        ensures { IsCoverage self.now a result.now }
    {
        match self.covered.get(&a) {
            Some(actions) => actions.as_slice(),
            None => &[],
        }
    }

    /// Whether the first action covers the second. Takes no memory.
    pub fn covers(&self, a: Action, b: Action) -> bool
        ensures { IsTrue result ↔ Covers self.now a b }
    {
        coverage::is_among(&b, self.covered(a))
    }

    /// Whether the custom scope is declared. Takes no memory.
    pub fn declares(&self, name: CustomName) -> bool
        ensures { result ≡ is_declared name self.now }
    {
        is_declared(&name, self.rows.as_slice())
    }
}

fn is_declared(name: &CustomName, rows: &[CustomRow]) -> bool
    ensures { result ≡ is_declared name.now rows.now }
{
    rows.iter().any(|row| row.name == *name)
}

fn is_full(rows: &[CustomRow]) -> bool
    ensures { result ≡ is_full rows.now }
{
    rows.len() > 256 || has_long_row(rows)
}

fn has_long_row(rows: &[CustomRow]) -> bool
    ensures { result ≡ list_any (λ row. nat_lt 64 (length row.subscopes)) rows.now }
{
    rows.iter().any(|row| row.subscopes.len() > 64)
}

/// The first row whose name stood before.
fn first_repeated(rows: &[CustomRow]) -> Option<usize>
    ensures { IsFirstOrNone (Repeats rows.now) result }
{
    for (i, row) in rows.iter().enumerate() {
        if is_declared(&row.name, &rows[..i]) {
            return Some(i);
        }
    }
    None
}

/// The first subscope that is no row's name: its row and its place there.
fn first_unknown(rows: &[CustomRow]) -> Option<(usize, usize)>
    ensures { MatchOption result (IsNever (HasUnknown rows.now))
        (λ p. IsFirst (HasUnknown rows.now) p.0 × IsFirst (IsUnknown rows.now p.0) p.1) }
{
    for (i, row) in rows.iter().enumerate() {
        if let Some(k) = first_unknown_of(row.subscopes.as_slice(), rows) {
            return Some((i, k));
        }
    }
    None
}

fn first_unknown_of(names: &[CustomName], rows: &[CustomRow]) -> Option<usize>
    ensures { IsFirstOrNone (λ k. IsSomeAnd (slice_get names.now k) (λ name. IsFalse (is_declared name rows.now))) result }
{
    for (k, name) in names.iter().enumerate() {
        if !is_declared(name, rows) {
            return Some(k);
        }
    }
    None
}

/// The first row that is reached from itself.
fn first_on_cycle(alloc: Global, rows: &[CustomRow]) -> Result<Option<usize>, AllocError>
    ensures { IfOk result (λ first. IsFirstOrNone (IsOnCycle rows.now) first) }
{
    for (i, row) in rows.iter().enumerate() {
        if coverage::returns(alloc, rows, &Action::Custom(row.name))? {
            return Ok(Some(i));
        }
    }
    Ok(None)
}

fn copy_rows(alloc: Global, rows: &[CustomRow]) -> Result<List<CustomRow>, AllocError>
    ensures { IfOk result (λ copy. copy ≡ rows.now) }
{
    let mut copies = Vec::new(alloc);
    for row in rows {
        let names = Vec::from_slice(alloc, row.subscopes.as_slice())?;
        let copy = CustomRow {
            name: row.name,
            subscopes: List::from_vec(names),
        };
        copies.push(copy)?;
    }
    Ok(List::from_vec(copies))
}
