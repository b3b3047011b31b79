//! The meet of two grants.
ghost use Rattle.std.specs.Prelude.{◌≡◌, Bool, ◌&&◌, ◌||◌, not, if◌then◌else◌, Some, None, MatchOption, OnOk, IfOk};
ghost use Rattle.std.specs.Bool.{IsFalse};
ghost use Rattle.std.specs.List.{filter, list_any};
ghost use Rattle.std.specs.FinMap as map;
ghost use Rattle.scope_names.specs.declared.action.Action.{Action};
ghost use Rattle.scope_names.specs.ActionOrder.{same_action};
ghost use Rattle.scope_filters.specs.declared.filter.Filter.{Filter};
ghost use Rattle.scope_filters.specs.declared.object.Object.{Object};
ghost use Rattle.hub_kit.specs.declared.names.ServerKey.{ServerKey};
ghost use Rattle.scope_filters.specs.declared.filter.Filter.TheVariants as Fi;
ghost use Rattle.scope_filters.specs.Admits.{reads_names, admits, any_admits};
ghost use Rattle.scope_filters.specs.Contexts.{same};
ghost use Rattle.scope_filters.specs.Grants.{grant_admits};
ghost use Rattle.scope_expand.specs.Passes.{passes};
ghost use Rattle.scope_meet.specs.declared.meets.Parts.{Parts};
ghost use Rattle.scope_meet.specs.Meets.{AreGroupMeets, IsMetUnder};
ghost use Rattle.scope_meet.specs.Meets as spec;

use crate::groups::GroupMeets;
use crate::within::{is_within, reads_names};
use scope_filters::filter::Filter;
use scope_filters::grant::{Filters, Grant};
use scope_filters::members::Members;
use scope_names::action::Action;
use std::alloc::{AllocError, Global};

/// A grant that admits an action on an object exactly where both grants do, among the members that the groups have now.
/// Where both have groups, it looks at the members of the groups that one of them alone has.
pub fn meet<M: Members>(
    alloc: Global,
    a: &Grant,
    b: &Grant,
    members: &M,
) -> Result<Grant, AllocError>
    ensures { IfOk result (λ both. (action : Action) (x : Object) → grant_admits (M.context members.now) both action x
        ≡ (grant_admits (M.context members.now) a.now action x && grant_admits (M.context members.now) b.now action x)) }
{
    let mut both = Grant::new(alloc);
    let mut groups = GroupMeets::none(alloc);
    for (action, filters) in a.iter() {
        add_meets(alloc, &mut both, &mut groups, action, filters, b, members)?;
    }
    Ok(both)
}

/// Adds what filters under an action have in common with a grant.
fn add_meets<M: Members>(
    alloc: Global,
    both: &mut Grant,
    groups: &mut GroupMeets,
    action: &Action,
    filters: &Filters,
    b: &Grant,
    members: &M,
) -> Result<(), AllocError>
    requires { AreGroupMeets (M.context members.now) groups.old.ours.items groups.old.theirs.items groups.old.met.items }
    ensures kept { AreGroupMeets (M.context members.now) groups.new.ours.items groups.new.theirs.items groups.new.met.items }
    ensures met { OnOk result (IsMetUnder (M.context members.now) action.now (map.keys filters.now) b.now both.old both.new) }
{
    match b.at(action) {
        None => Ok(()),
        Some(others) => add_met(alloc, both, groups, action, filters, others, members),
    }
}

/// Adds what filters under an action have in common with others.
fn add_met<M: Members>(
    alloc: Global,
    both: &mut Grant,
    groups: &mut GroupMeets,
    action: &Action,
    filters: &Filters,
    others: &Filters,
    members: &M,
) -> Result<(), AllocError>
    requires { AreGroupMeets (M.context members.now) groups.old.ours.items groups.old.theirs.items groups.old.met.items }
    ensures kept { AreGroupMeets (M.context members.now) groups.new.ours.items groups.new.theirs.items groups.new.met.items }
    ensures met { OnOk result ((a : Action) (x : Object) → grant_admits (M.context members.now) both.new a x
        ≡ (grant_admits (M.context members.now) both.old a x
        || (same_action a action.now && (any_admits action.now (M.context members.now) (map.keys filters.now) x
        && any_admits action.now (M.context members.now) (map.keys others.now) x)))) }
{
    let ours = split(alloc, filters)?;
    let theirs = split(alloc, others)?;
    let met = pairs_met(alloc, action, &ours, &theirs, members)?;
    add_under(both, action, &met)?;
    groups.find(alloc, ours.groups, theirs.groups, members)?;
    add_under(both, action, &groups.met)?;
    Ok(())
}

/// Adds filters under an action.
fn add_under(both: &mut Grant, action: &Action, filters: &[Filter]) -> Result<(), AllocError>
    ensures { OnOk result ((p : Filter → Bool) (a : Action)
        → passes p both.new a ≡ (passes p both.old a || (same_action a action.now && list_any p filters.now))) }
{
    for filter in filters {
        both.add(*action, *filter)?;
    }
    Ok(())
}

/// Filters, the groups apart from the others.
#[derive(Drop)]
struct Parts {
    groups: Vec<Filter>,
    others: Vec<Filter>,
}

fn split(alloc: Global, filters: &Filters) -> Result<Parts, AllocError>
    ensures groups { IfOk result (λ parts. parts.groups.items ≡ filter spec.is_group (map.keys filters.now)) }
    ensures others { IfOk result (λ parts. parts.others.items ≡ filter (λ f. not (spec.is_group f)) (map.keys filters.now)) }
{
    let mut groups = Vec::new(alloc);
    let mut others = Vec::new(alloc);
    for filter in filters.iter() {
        if is_group(filter) {
            groups.push(*filter)?;
        } else {
            others.push(*filter)?;
        }
    }
    Ok(Parts { groups, others })
}

fn is_group(filter: &Filter) -> bool
    ensures { result ≡ spec.is_group filter.now }
{
    matches!(filter, Filter::Group(_))
}

/// Filters that admit exactly what two filters of both sides admit that aren't both groups.
fn pairs_met<M: Members>(
    alloc: Global,
    action: &Action,
    ours: &Parts,
    theirs: &Parts,
    members: &M,
) -> Result<Vec<Filter>, AllocError>
    requires ours { IsFalse (list_any spec.is_group ours.now.others.items) }
    requires theirs { IsFalse (list_any spec.is_group theirs.now.others.items) }
    ensures { IfOk result (λ met. let any = any_admits action.now (M.context members.now) in (x : Object) → any met.items x
        ≡ (((any ours.now.others.items x && any theirs.now.others.items x)
        || (any ours.now.groups.items x && any theirs.now.others.items x))
        || (any ours.now.others.items x && any theirs.now.groups.items x))) }
{
    let mut met = Vec::new(alloc);
    push_each(&mut met, action, &ours.others, &theirs.others, members)?;
    push_each(&mut met, action, &ours.groups, &theirs.others, members)?;
    push_each(&mut met, action, &ours.others, &theirs.groups, members)?;
    Ok(met)
}

/// Appends filters that admit exactly what a filter of the one list and a filter of the other admit.
fn push_each<M: Members>(
    met: &mut Vec<Filter>,
    action: &Action,
    filters: &[Filter],
    others: &[Filter],
    members: &M,
) -> Result<(), AllocError>
    requires { IsFalse (list_any spec.is_group filters.now && list_any spec.is_group others.now) }
    ensures { OnOk result (let any = any_admits action.now (M.context members.now) in (x : Object) → any met.new.items x
        ≡ (any met.old.items x || (any filters.now x && any others.now x))) }
{
    for f in filters {
        push_meets(met, action, f, others, members)?;
    }
    Ok(())
}

fn push_meets<M: Members>(
    met: &mut Vec<Filter>,
    action: &Action,
    f: &Filter,
    others: &[Filter],
    members: &M,
) -> Result<(), AllocError>
    requires { IsFalse (spec.is_group f.now && list_any spec.is_group others.now) }
    ensures { OnOk result (let any = any_admits action.now (M.context members.now) in (x : Object) → any met.new.items x
        ≡ (any met.old.items x || (admits action.now (M.context members.now) f.now x && any others.now x))) }
{
    for g in others {
        push_meet(met, action, f, g, members)?;
    }
    Ok(())
}

fn push_meet<M: Members>(
    met: &mut Vec<Filter>,
    action: &Action,
    f: &Filter,
    g: &Filter,
    members: &M,
) -> Result<(), AllocError>
    requires { IsFalse (spec.is_group f.now && spec.is_group g.now) }
    ensures { OnOk result (let one = admits action.now (M.context members.now) in (x : Object)
        → any_admits action.now (M.context members.now) met.new.items x
        ≡ (any_admits action.now (M.context members.now) met.old.items x || (one f.now x && one g.now x))) }
{
    match meet_of(action, f, g, members) {
        Some(both) => {
            met.push(both)?;
            Ok(())
        }
        None => Ok(()),
    }
}

/// The filter that admits exactly what two filters both admit, of which one at most is a group.
fn meet_of<M: Members>(action: &Action, f: &Filter, g: &Filter, members: &M) -> Option<Filter>
    requires { IsFalse (spec.is_group f.now && spec.is_group g.now) }
    ensures { let one = admits action.now (M.context members.now)
        in MatchOption result ((x : Object) → IsFalse (one f.now x && one g.now x))
        (λ both. (x : Object) → one both x ≡ (one f.now x && one g.now x)) }
{
    if is_within(action, f, g, members) {
        return Some(*f);
    }
    if is_within(action, g, f, members) {
        return Some(*g);
    }
    owner_of_both(action, f, g)
}

/// What two servers have in common where neither is within the other: the right to read the name of their user.
fn owner_of_both(action: &Action, f: &Filter, g: &Filter) -> Option<Filter>
    ensures servers { (k l : ServerKey) → f.now ≡ Fi.Server k → g.now ≡ Fi.Server l
        → result ≡ (if reads_names action.now && same k.user l.user then Some (Fi.OwnerOf k.user) else None) }
    ensures others { ((k l : ServerKey) → f.now ≡ Fi.Server k → g.now ≡ Fi.Server l → ⊥) → result ≡ None }
{
    match f {
        Filter::Server(k) => match g {
            Filter::Server(l) => if reads_names(action) && k.user == l.user {
                Some(Filter::OwnerOf(k.user))
            } else {
                None
            },
            _ => None,
        },
        _ => None,
    }
}
