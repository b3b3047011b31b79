//! Whether a grant holds all of another. Nothing here takes memory.
ghost use Rattle.std.specs.Prelude.{◌≡◌, ℕ, ◌<◌, ◌^◌, IsTrue, if◌then◌else◌, List, length, MatchOption};
ghost use Rattle.std.specs.Bool.{IsFalse};
ghost use Rattle.std.specs.FinMap as map;
ghost use Rattle.std.specs.List.{list_any};
ghost use Rattle.std.specs.Ordering.{is_le, is_lt};
ghost use Rattle.scope_filters.specs.declared.filter.Filter.{Filter};
ghost use Rattle.scope_filters.specs.Grants.{filters_at};
ghost use Rattle.scope_expand.specs.Passes.{is_owner_of, HasNoOwnerOf};
ghost use Rattle.scope_meet.specs.Meets.{within};
ghost use Rattle.scope_meet.specs.Named.{IsFilter};
ghost use Rattle.scope_meet.specs.Containment.{same_filter, IsOutside, IsInside};
ghost use Rattle.scope_meet.specs.FilterTexts as spec;

use crate::asks::names_are_names;
use crate::text_order::text_cmp;
use crate::within::is_within;
use scope_filters::filter::Filter;
use scope_filters::grant::{Filters, Grant};
use scope_filters::members::Members;
use scope_names::action::Action;

/// Whether a grant holds all of another.
#[derive(Clone, Copy)]
pub enum Inside {
    Yes,
    /// The first row that isn't held whole, by the texts of the action and then of the filter.
    NotHeld { action: Action, filter: Filter },
}

/// Whether the second grant admits all that the first does. The first has no `OwnerOf`, as no grant that `expand` made.
pub fn contained<M: Members>(a: &Grant, b: &Grant, members: &M) -> Inside
    requires { HasNoOwnerOf a.now }
    ensures { IsInside (M.context members.now) a.now b.now result }
{
    for (action, filters) in a.iter() {
        match least_outside(action, filters, b, members) {
            None => (),
            Some(filter) => {
                has_object_outside(action, &filter, b, members);
                return Inside::NotHeld {
                    action: *action,
                    filter,
                };
            }
        }
    }
    Inside::Yes
}

/// The first by its text of the filters that are within none of the grant's filters under the action.
fn least_outside<M: Members>(
    action: &Action,
    filters: &Filters,
    b: &Grant,
    members: &M,
) -> Option<Filter>
    ensures { let is_one = (λ (f : Filter). list_any (same_filter f) (map.keys filters.now)) in
        let held = (λ (f : Filter). list_any (within action.now (M.context members.now) f) (filters_at b.now action.now)) in
        MatchOption result ((f : Filter) → IsTrue (is_one f) → IsTrue (held f))
        (λ first. IsTrue (is_one first) × IsFalse (held first)
        × ((f : Filter) → IsTrue (is_one f) → IsFalse (held f) → IsTrue (is_le (spec.text_cmp first f)))) }
{
    let mut least = None;
    for filter in filters.iter() {
        if !is_held(action, filter, b, members) {
            least = Some(lesser(&least, filter));
        }
    }
    least
}

/// The first by its text of a filter and of another one, if there is one.
fn lesser(other: &Option<Filter>, filter: &Filter) -> Filter
    ensures { MatchOption other.now (result ≡ filter.now) (λ g. result ≡ (if is_lt (spec.text_cmp filter.now g) then filter.now else g)) }
{
    match other {
        None => *filter,
        Some(other) => {
            if text_cmp(filter, other).is_lt() {
                *filter
            } else {
                *other
            }
        }
    }
}

/// Whether the filter is within one of the grant's filters under the action.
fn is_held<M: Members>(action: &Action, filter: &Filter, b: &Grant, members: &M) -> bool
    ensures { result ≡ list_any (within action.now (M.context members.now) filter.now) (filters_at b.now action.now) }
{
    match b.at(action) {
        Some(others) => is_within_any(action, filter, others, members),
        None => false,
    }
}

fn is_within_any<M: Members>(
    action: &Action,
    filter: &Filter,
    others: &Filters,
    members: &M,
) -> bool
    ensures { result ≡ list_any (within action.now (M.context members.now) filter.now) (map.keys others.now) }
{
    others
        .iter()
        .any(|other| is_within(action, filter, other, members))
}

/// A filter that is within none of a grant's filters admits an object that none of them admits: they are too few to name each
/// server of a user. Does nothing.
fn has_object_outside<M: Members>(action: &Action, filter: &Filter, b: &Grant, members: &M)
    requires none { IsFalse (list_any (within action.now (M.context members.now) filter.now) (filters_at b.now action.now)) }
    requires plain { IsFalse (is_owner_of filter.now) }
    ensures { IsOutside (M.context members.now) b.now action.now filter.now }
{
    names_are_names(filter);
    number_at(b, action);
}

/// How many filters the grant has under the action.
fn number_at(b: &Grant, action: &Action) -> usize
    ensures { result ≡ length (filters_at b.now action.now) }
{
    match b.at(action) {
        Some(others) => others.len(),
        None => 0,
    }
}
