//! What the groups of two grants have in common.
ghost use Rattle.std.specs.Prelude.{◌≡◌, Bool, List, ℕ, [], ◌++◌, ◌⊎◌, not, map, IsTrue, OnOk, IfOk};
ghost use Rattle.std.specs.List.{filter, flat_map, list_any};
ghost use Rattle.std.specs.List.Sorted.{IsSorted};
ghost use Rattle.std.specs.Ordering.{is_eq};
ghost use Rattle.hub_kit.specs.KeyOrder.{name_cmp};
ghost use Rattle.scope_filters.specs.declared.filter.Filter.TheVariants as Fi;
ghost use Rattle.scope_meet.specs.Meets.{group_names, AreGroupMeets};
ghost use Rattle.scope_meet.specs.Meets as spec;

use hub_kit::names::{GroupName, UserName};
use scope_filters::filter::Filter;
use scope_filters::members::Members;
use std::alloc::{AllocError, Global};

/// What two lists of groups have in common. It is kept from one action to the next, whose groups mostly are the same.
pub struct GroupMeets {
    pub ours: Vec<Filter>,
    pub theirs: Vec<Filter>,
    pub met: Vec<Filter>,
}

impl Drop for GroupMeets {
    fn drop(self) {
        let GroupMeets {
            ours: _,
            theirs: _,
            met: _,
        } = self;
    }
}

impl GroupMeets {
    /// What no groups have in common: nothing. Takes no memory.
    pub fn none(alloc: Global) -> GroupMeets
        ensures ours { result.ours.items ≡ [] }
        ensures theirs { result.theirs.items ≡ [] }
        ensures met { result.met.items ≡ [] }
    {
        GroupMeets {
            ours: Vec::new(alloc),
            theirs: Vec::new(alloc),
            met: Vec::new(alloc),
        }
    }

    /// Finds what the groups of two lists have in common, unless it is what is kept already.
    pub fn find<M: Members>(
        &mut self,
        alloc: Global,
        ours: Vec<Filter>,
        theirs: Vec<Filter>,
        members: &M,
    ) -> Result<(), AllocError>
        requires { AreGroupMeets (M.context members.now) self.old.ours.items self.old.theirs.items self.old.met.items }
        ensures kept { AreGroupMeets (M.context members.now) self.new.ours.items self.new.theirs.items self.new.met.items }
        ensures found { OnOk result (AreGroupMeets (M.context members.now) ours.items theirs.items self.new.met.items) }
    {
        if is_same(&self.ours, &ours) && is_same(&self.theirs, &theirs) {
            return Ok(());
        }
        let met = groups_met(alloc, &ours, &theirs, members)?;
        *self = GroupMeets { ours, theirs, met };
        Ok(())
    }
}

fn is_same(a: &[Filter], b: &[Filter]) -> bool
    ensures { IsTrue result → a.now ≡ b.now }
{
    a.cmp(b).is_eq()
}

/// Filters that admit exactly what a group of the one list and a group of the other do: the groups that both lists have, and
/// the users who are in a group that the one alone has and in a group that the other alone has. It grows with the members of
/// those groups, and not with the pairs of them.
fn groups_met<M: Members>(
    alloc: Global,
    ours: &[Filter],
    theirs: &[Filter],
    members: &M,
) -> Result<Vec<Filter>, AllocError>
    ensures { IfOk result (λ met. AreGroupMeets (M.context members.now) ours.now theirs.now met.items) }
{
    let ours = sorted_names(alloc, ours)?;
    let theirs = sorted_names(alloc, theirs)?;
    let mut met = shared(alloc, &ours, &theirs)?;
    let our_own = apart(alloc, &ours, &theirs)?;
    let their_own = apart(alloc, &theirs, &ours)?;
    if is_one_empty(&our_own, &their_own) {
        return Ok(met);
    }
    let users = sorted_members(alloc, &their_own, members)?;
    push_common(&mut met, &our_own, &users, members)?;
    Ok(met)
}

/// The names of the groups among filters, in order.
fn sorted_names(alloc: Global, filters: &[Filter]) -> Result<Vec<GroupName>, AllocError>
    ensures sorted { IfOk result (λ names. IsSorted name_cmp names.items) }
    ensures same { IfOk result (λ names. (p : List ℕ → Bool) → list_any p names.items ≡ list_any p (flat_map group_names filters.now)) }
{
    let mut names = names_of(alloc, filters)?;
    names.sort_unstable();
    Ok(names)
}

fn names_of(alloc: Global, filters: &[Filter]) -> Result<Vec<GroupName>, AllocError>
    ensures { IfOk result (λ names. names.items ≡ flat_map group_names filters.now) }
{
    let mut names = Vec::new(alloc);
    for filter in filters {
        push_name(&mut names, filter)?;
    }
    Ok(names)
}

fn push_name(names: &mut Vec<GroupName>, filter: &Filter) -> Result<(), AllocError>
    ensures { OnOk result (names.new.items ≡ names.old.items ++ group_names filter.now) }
{
    match filter {
        Filter::Group(group) => {
            names.push(*group)?;
            Ok(())
        }
        _ => Ok(()),
    }
}

/// The groups that both lists have, as filters.
fn shared(
    alloc: Global,
    ours: &[GroupName],
    theirs: &[GroupName],
) -> Result<Vec<Filter>, AllocError>
    requires { IsSorted name_cmp theirs.now }
    ensures { IfOk result (λ met. met.items ≡ map Fi.Group (filter (spec.is_among theirs.now) ours.now)) }
{
    let mut met = Vec::new(alloc);
    for group in ours {
        if has_group(theirs, group) {
            met.push(Filter::Group(*group))?;
        }
    }
    Ok(met)
}

/// The groups that the first list alone has.
fn apart(
    alloc: Global,
    ours: &[GroupName],
    theirs: &[GroupName],
) -> Result<Vec<GroupName>, AllocError>
    requires { IsSorted name_cmp theirs.now }
    ensures { IfOk result (λ own. own.items ≡ filter (λ g. not (spec.is_among theirs.now g)) ours.now) }
{
    let mut own = Vec::new(alloc);
    for group in ours {
        if !has_group(theirs, group) {
            own.push(*group)?;
        }
    }
    Ok(own)
}

fn is_one_empty(a: &[GroupName], b: &[GroupName]) -> bool
    ensures { IsTrue result → (a.now ≡ []) ⊎ (b.now ≡ []) }
{
    if is_empty(a) {
        return true;
    }
    is_empty(b)
}

fn is_empty(groups: &[GroupName]) -> bool
    ensures { IsTrue result → groups.now ≡ [] }
{
    groups.is_empty()
}

/// The members of groups, in order, each as often as groups have them.
fn sorted_members<M: Members>(
    alloc: Global,
    groups: &[GroupName],
    members: &M,
) -> Result<Vec<UserName>, AllocError>
    ensures sorted { IfOk result (λ users. IsSorted name_cmp users.items) }
    ensures same { IfOk result (λ users. (p : List ℕ → Bool)
        → list_any p users.items ≡ list_any p (flat_map (M.context members.now) groups.now)) }
{
    let mut users = members_of(alloc, groups, members)?;
    users.sort_unstable();
    Ok(users)
}

fn members_of<M: Members>(
    alloc: Global,
    groups: &[GroupName],
    members: &M,
) -> Result<Vec<UserName>, AllocError>
    ensures { IfOk result (λ users. users.items ≡ flat_map (M.context members.now) groups.now) }
{
    let mut users = Vec::new(alloc);
    for group in groups {
        users.extend_from_slice(members.members(group))?;
    }
    Ok(users)
}

/// Appends the members of groups who are among users, as filters.
fn push_common<M: Members>(
    met: &mut Vec<Filter>,
    groups: &[GroupName],
    users: &[UserName],
    members: &M,
) -> Result<(), AllocError>
    requires { IsSorted name_cmp users.now }
    ensures { OnOk result (met.new.items ≡ met.old.items
        ++ flat_map (λ g. map Fi.User (filter (spec.is_among users.now) (M.context members.now g))) groups.now) }
{
    for group in groups {
        push_users(met, members.members(group), users)?;
    }
    Ok(())
}

fn push_users(
    met: &mut Vec<Filter>,
    members: &[UserName],
    users: &[UserName],
) -> Result<(), AllocError>
    requires { IsSorted name_cmp users.now }
    ensures { OnOk result (met.new.items ≡ met.old.items ++ map Fi.User (filter (spec.is_among users.now) members.now)) }
{
    for user in members {
        if has_user(users, user) {
            met.push(Filter::User(*user))?;
        }
    }
    Ok(())
}

fn has_group(groups: &[GroupName], group: &GroupName) -> bool
    requires { IsSorted name_cmp groups.now }
    ensures { result ≡ spec.is_among groups.now group.now }
{
    is_among(group, groups)
}

fn has_user(users: &[UserName], user: &UserName) -> bool
    requires { IsSorted name_cmp users.now }
    ensures { result ≡ spec.is_among users.now user.now }
{
    is_among(user, users)
}

/// Whether one of the items is equal to the sought one. They are in order, so it takes a search by halves.
fn is_among<T: Ord>(sought: &T, items: &[T]) -> bool
    requires { IsSorted T.cmp items.now }
    ensures { result ≡ list_any (λ item. is_eq (T.cmp item sought.now)) items.now }
{
    items.binary_search(sought).is_ok()
}
