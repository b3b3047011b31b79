//! What is reached from an action by steps of the table and of the declared custom scopes.
ghost use Rattle.std.specs.Prelude.{◌≡◌, List, [], ◌∷◌, ◌++◌, map, IfOk, OnOk, Some, IsTrue, ◌↔◌};
ghost use Rattle.std.specs.List.{flat_map};
ghost use Rattle.std.specs.List.Sorted.{IsStrictlySortedBy};
ghost use Rattle.std.specs.Option.{unwrap_or};
ghost use Rattle.std.specs.BTreeMap.{get};
ghost use Rattle.scope_names.specs.declared.action.Action.{Action};
ghost use Rattle.scope_names.specs.declared.action.Action.TheVariants.{Custom};
ghost use Rattle.scope_names.specs.Actions.{row_of};
ghost use Rattle.scope_names.specs.ActionOrder.{action_cmp};
ghost use Rattle.scope_names.specs.Coverage.{is_among, known, declared_by, subscopes, IsReach, IsReachedFrom, IsCoverage};

use crate::action::{Action, listed};
use crate::custom::{CustomName, CustomRow};
use hub_kit::list::List;
use std::alloc::{AllocError, Global};
use std::collections::{BTreeMap, BTreeSet};

/// The coverage of each action of the table and of each declared one.
pub(crate) fn cover_all(
    alloc: Global,
    rows: &[CustomRow],
) -> Result<BTreeMap<Action, List<Action>>, AllocError>
    ensures { IfOk result (λ m. (a : Action) → IsCoverage rows.now a (unwrap_or (get action_cmp m a) [])) }
{
    let mut covered = BTreeMap::new(alloc);
    let actions = known(alloc, rows)?;
    for action in &actions {
        covered.insert(*action, reach_one(alloc, rows, action)?)?;
    }
    Ok(covered)
}

/// All that is reached from the action, in order.
fn reach_one(alloc: Global, rows: &[CustomRow], action: &Action) -> Result<List<Action>, AllocError>
    ensures { IfOk result (λ actions. IsReach rows.now (action.now ∷ []) actions) }
{
    let from = vec![in alloc; *action]?;
    let reached = reach(alloc, rows, from)?;
    Ok(List::from_vec(reached))
}

/// Whether the action is reached from itself by one or more steps.
pub(crate) fn returns(
    alloc: Global,
    rows: &[CustomRow],
    action: &Action,
) -> Result<bool, AllocError>
    ensures { IfOk result (λ b. IsTrue b ↔ IsReachedFrom rows.now (subscopes rows.now action.now) action.now) }
{
    let mut from = Vec::new(alloc);
    push_subscopes(rows, action, &mut from)?;
    let reached = reach(alloc, rows, from)?;
    Ok(is_among(action, reached.as_slice()))
}

/// Whether the action is one of them.
pub(crate) fn is_among(action: &Action, actions: &[Action]) -> bool
    ensures { result ≡ is_among action.now actions.now }
{
    actions.iter().any(|other| *action == *other)
}

/// The actions of the table and the declared ones.
fn known(alloc: Global, rows: &[CustomRow]) -> Result<Vec<Action>, AllocError>
    ensures { IfOk result (λ v. v.items ≡ known rows.now) }
{
    let mut actions = Vec::from_slice(alloc, &listed())?;
    for row in rows {
        actions.push(Action::Custom(row.name))?;
    }
    Ok(actions)
}

/// All that is reached from the actions, in order.
fn reach(alloc: Global, rows: &[CustomRow], from: Vec<Action>) -> Result<Vec<Action>, AllocError>
    ensures { IfOk result (λ v. IsReach rows.now from.items v.items) }
{
    let mut reached = BTreeSet::new(alloc);
    let mut pending = from;
    while let Some(action) = pending.pop() {
        if !reached.contains(&action) {
            push_subscopes(rows, &action, &mut pending)?;
            reached.insert(action)?;
        }
    }
    let actions = in_order(alloc, &reached)?;
    Ok(actions)
}

fn in_order(alloc: Global, reached: &BTreeSet<Action>) -> Result<Vec<Action>, AllocError>
    ensures items { IfOk result (λ v. v.items ≡ reached.now.keys) }
    ensures ascends { IsStrictlySortedBy action_cmp reached.now.keys }
{
    reached.iter().copied().collect(alloc)
}

/// Adds the direct subscopes of the action.
fn push_subscopes(
    rows: &[CustomRow],
    action: &Action,
    pending: &mut Vec<Action>,
) -> Result<(), AllocError>
    ensures { OnOk result (pending.new.items ≡ pending.old.items ++ subscopes rows.now action.now) }
{
    push_listed(action, pending)?;
    for row in rows {
        if Action::Custom(row.name) == *action {
            push_names(row.subscopes.as_slice(), pending)?;
        }
    }
    Ok(())
}

fn push_names(names: &[CustomName], pending: &mut Vec<Action>) -> Result<(), AllocError>
    ensures { OnOk result (pending.new.items ≡ pending.old.items ++ map Custom names.now) }
{
    for name in names {
        pending.push(Action::Custom(*name))?;
    }
    Ok(())
}

/// Adds the direct subscopes that the table has.
fn push_listed(action: &Action, pending: &mut Vec<Action>) -> Result<(), AllocError>
    ensures { OnOk result (pending.new.items ≡ pending.old.items ++ (row_of action.now).subscopes) }
{
    match action {
        Action::AdminGroups => pending.extend_from_slice(&[
            Action::DeleteGroups,
            Action::Groups,
            Action::ReadRolesGroups,
        ]),
        Action::AdminServers => pending.extend_from_slice(&[
            Action::AdminServerState,
            Action::Servers,
        ]),
        Action::AdminServices => pending.extend_from_slice(&[
            Action::ListServices,
            Action::ReadRolesServices,
            Action::ReadServices,
        ]),
        Action::AdminUsers => pending.extend_from_slice(&[
            Action::AdminAuthState,
            Action::DeleteUsers,
            Action::ReadRolesUsers,
            Action::Users,
        ]),
        Action::Groups => pending.extend_from_slice(&[Action::ListGroups, Action::ReadGroups]),
        Action::GroupsShares => pending.extend_from_slice(&[Action::ReadGroupsShares]),
        Action::ListGroups | Action::ReadGroups => {
            pending.extend_from_slice(&[Action::ReadGroupsName])
        }
        Action::ListServices | Action::ReadServices => {
            pending.extend_from_slice(&[Action::ReadServicesName])
        }
        Action::ListUsers | Action::ReadServers => {
            pending.extend_from_slice(&[Action::ReadUsersName])
        }
        Action::ReadRoles => pending.extend_from_slice(&[
            Action::ReadRolesGroups,
            Action::ReadRolesServices,
            Action::ReadRolesUsers,
        ]),
        Action::ReadUsers => pending.extend_from_slice(&[
            Action::ReadUsersActivity,
            Action::ReadUsersGroups,
            Action::ReadUsersName,
        ]),
        Action::Servers => pending.extend_from_slice(&[Action::DeleteServers, Action::ReadServers]),
        Action::Shares => pending.extend_from_slice(&[
            Action::AccessServers,
            Action::GroupsShares,
            Action::ReadShares,
            Action::UsersShares,
        ]),
        Action::Tokens => pending.extend_from_slice(&[Action::ReadTokens]),
        Action::Users => pending.extend_from_slice(&[
            Action::ListUsers,
            Action::ReadUsers,
            Action::UsersActivity,
        ]),
        Action::UsersActivity => pending.extend_from_slice(&[Action::ReadUsersActivity]),
        Action::UsersShares => pending.extend_from_slice(&[Action::ReadUsersShares]),
        _ => Ok(()),
    }
}
