//! Grants: for each action a set of filters.
ghost use Rattle.std.specs.Prelude.{◌≡◌, ◌<◌, ◌^◌, length, OnOk, OnErr};
ghost use Rattle.std.specs.Option.{option_copied};
ghost use Rattle.std.specs.FinMap as map;
ghost use Rattle.std.specs.BTreeMap as tree;
ghost use Rattle.std.specs.Iterator.{at_most};
ghost use Rattle.std.specs.Map.Iter.{ShowsInOrder, TakesFirst, deref, deref_pair};
ghost use Rattle.keyed_rows.specs.Rows.{map_of};
ghost use Rattle.scope_filters.specs.FilterSets.{set_of, IsInOrder};
ghost use Rattle.scope_filters.specs.Admits.{any_admits};
ghost use Rattle.scope_names.specs.ActionOrder.{action_cmp};
ghost use Rattle.scope_filters.specs.Grants.{with_filter, AdmitsMore};

use crate::filter::Filter;
use crate::members::Members;
use crate::object::Object;
use scope_names::action::Action;
use std::alloc::{AllocError, Global};
use std::cmp::Ordering;
use std::collections::BTreeMap;
use std::collections::btree_map::{Iter, Keys};
use std::marker::Model;

/// A set of filters, fewer than 2^64. Its least filter lies in the set itself and the others in a tree, since most sets of a grant have
/// one filter alone, and a tree of one takes room for eleven.
pub struct Filters {
    first: Option<Filter>,
    others: BTreeMap<Filter, ()>,
}

impl Drop for Filters {
    fn drop(self) {
        let Filters {
            first: _,
            others: _,
        } = self;
    }
}

impl Model for Filters {
    ghost use Rattle.std.specs.FinSet.{FinSet};
    ghost use Rattle.std.specs.FinMap.{code};
    ghost use Rattle.std.specs.Coded.{codes};
    ghost use Rattle.std.specs.BTreeMap.{keys};
    ghost use Rattle.scope_filters.specs.FilterOrder.{filter_cmp};
    ghost use Rattle.scope_filters.specs.FilterSets.{set_of, IsInOrder};

    ghost Value = { FinSet filter_cmp };

    ghost coded = { Prim.hlevel (codes, code) };

    ghost view = { λ a. set_of a.first a.others };

    ghost invariant = { λ a. IsInOrder a.first (keys a.others) };
}

impl Filters {
    /// No filters, which takes no memory.
    pub fn new(alloc: Global) -> Filters
        ensures { result ≡ map.empty }
    {
        Filters {
            first: None,
            others: BTreeMap::new(alloc),
        }
    }

    /// Adds a filter.
    pub fn insert(&mut self, filter: Filter) -> Result<(), AllocError>
        ensures ok { OnOk result (self.new ≡ map.insert self.old filter tt) }
        ensures err { OnErr result (self.new ≡ self.old) }
    {
        insert_filter(&mut self.first, &mut self.others, filter)
    }

    /// The number of the filters.
    pub fn len(&self) -> usize
        ensures { result ≡ map.len self.now }
    {
        number_of(&self.first, &self.others)
    }

    /// The filters, in their order.
    pub fn iter(&self) -> FilterIter<'_>
        ensures items { result ≡ map.keys self.now }
        ensures runs { ShowsInOrder (deref {X = Filter}) }
    {
        FilterIter {
            first: self.first.as_ref(),
            others: self.others.keys(),
        }
    }

    /// Whether one of the filters admits the action on the object. Takes no memory.
    pub fn admits<M: Members>(&self, action: Action, object: &Object, members: &M) -> bool
        ensures { result ≡ any_admits action (M.context members.now) (map.keys self.now) object.now }
    {
        self.iter().any(|f| f.admits(action, object, members))
    }
}

/// The filters of a set, in their order, which contracts see as the list of those that are left.
#[derive(Drop)]
pub struct FilterIter<'a> {
    first: Option<&'a Filter>,
    others: Keys<'a, Filter, ()>,
}

impl<'a> Model for FilterIter<'a> {
    ghost use Rattle.std.specs.Prelude.{List};
    ghost use Rattle.std.specs.Option.{option_copied};
    ghost use Rattle.scope_filters.specs.declared.filter.Filter.{Filter};
    ghost use Rattle.scope_filters.specs.FilterSets.{in_front};

    ghost Value = { List Filter };

    ghost view = { λ a. in_front (option_copied a.first) a.others };
}

impl<'a> Iterator for FilterIter<'a> {
    type Item = &'a Filter;

    ghost next_gives = { TakesFirst deref };

    ghost remaining = { λ s. at_most (length s) };

    fn next(&mut self) -> Option<&'a Filter> {
        match self.first.take() {
            Some(filter) => Some(filter),
            None => self.others.next(),
        }
    }
}

/// Adds a filter to those that are there. Without memory they are as they were.
fn insert_filter(
    first: &mut Option<Filter>,
    others: &mut BTreeMap<Filter, ()>,
    filter: Filter,
) -> Result<(), AllocError>
    requires { IsInOrder first.old (tree.keys others.old) }
    ensures ok { OnOk result (set_of first.new others.new ≡ map.insert (set_of first.old others.old) filter tt) }
    ensures err { OnErr result (set_of first.new others.new ≡ set_of first.old others.old) }
    ensures order { IsInOrder first.new (tree.keys others.new) }
{
    let Some(least) = *first else {
        *first = Some(filter);
        return Ok(());
    };
    match filter.cmp(&least) {
        Ordering::Equal => Ok(()),
        Ordering::Greater => keyed_rows::insert_row(others, filter, ()),
        Ordering::Less => {
            keyed_rows::insert_row(others, least, ())?;
            *first = Some(filter);
            Ok(())
        }
    }
}

fn number_of(first: &Option<Filter>, others: &BTreeMap<Filter, ()>) -> usize
    requires { IsInOrder first.now (tree.keys others.now) }
    ensures { result ≡ map.len (set_of first.now others.now) }
{
    match first {
        Some(_) => others.len() + 1,
        None => 0,
    }
}

/// What may be done: an action on each object that a filter under the action admits.
pub struct Grant {
    rows: BTreeMap<Action, Filters>,
    alloc: Global,
}

impl Drop for Grant {
    fn drop(self) {
        let Grant { rows: _, alloc: _ } = self;
    }
}

impl Model for Grant {
    ghost use Rattle.std.specs.FinMap.{code};
    ghost use Rattle.std.specs.Coded.{codes};
    ghost use Rattle.keyed_rows.specs.Rows.{map_of};
    ghost use Rattle.scope_names.specs.ActionOrder.{action_cmp};
    ghost use Rattle.scope_filters.specs.Grants.{Rights};

    ghost Value = { Rights };

    ghost coded = { Prim.hlevel (codes, code) };

    ghost view = { λ a. map_of action_cmp a.rows };
}

impl Grant {
    /// A grant of nothing, which takes no memory. It keeps the allocator for what is added.
    pub fn new(alloc: Global) -> Grant
        ensures { result ≡ map.empty }
    {
        Grant {
            rows: BTreeMap::new(alloc),
            alloc,
        }
    }

    /// Another grant of nothing, which keeps the allocator of this one.
    pub fn fresh(&self) -> Grant
        ensures { result ≡ map.empty }
    {
        Grant::new(self.alloc)
    }

    /// Adds a filter under an action.
    pub fn add(&mut self, action: Action, filter: Filter) -> Result<(), AllocError>
        ensures ok { OnOk result (self.new ≡ with_filter self.old action filter) }
        ensures err { OnErr result (self.new ≡ self.old) }
        ensures admits { OnOk result (AdmitsMore self.old action filter self.new) }
    {
        add_filter(self.alloc, &mut self.rows, action, filter)
    }

    /// The filters under an action.
    pub fn at(&self, action: &Action) -> Option<&Filters>
        ensures { option_copied result ≡ map.get self.now action.now }
    {
        keyed_rows::row_at(&self.rows, action)
    }

    /// Each action with its filters, in the order of the actions.
    pub fn iter(&self) -> Iter<'_, Action, Filters>
        ensures items { result ≡ map.entries self.now }
        ensures runs { ShowsInOrder (deref_pair {K = Action} {X = Filters}) }
    {
        self.rows.iter()
    }
}

fn add_filter(
    alloc: Global,
    rows: &mut BTreeMap<Action, Filters>,
    action: Action,
    filter: Filter,
) -> Result<(), AllocError>
    ensures ok { OnOk result (map_of action_cmp rows.new ≡ with_filter (map_of action_cmp rows.old) action filter) }
    ensures err { OnErr result (map_of action_cmp rows.new ≡ map_of action_cmp rows.old) }
{
    match rows.get_mut(&action) {
        Some(filters) => return filters.insert(filter),
        None => (),
    }
    let mut filters = Filters::new(alloc);
    filters.insert(filter)?;
    keyed_rows::insert_row(rows, action, filters)
}
