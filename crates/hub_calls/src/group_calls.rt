//! The calls on groups.
ghost use Rattle.std.specs.Prelude.{◌≡◌, IfOk};
ghost use Rattle.std.specs.FinMap as map;
ghost use Rattle.std.specs.Option.{option_copied};
ghost use Rattle.hub_view.specs.Body.{body_tokens};
ghost use Rattle.admin_rules.specs.Rules as rules;
ghost use Rattle.hub_machine.specs.Replies.{good};
ghost use Rattle.hub_machine.specs.Answers.{answer_view};
ghost use Rattle.hub_calls.specs.Calling.{after_rows, by_rules};
ghost use Rattle.hub_calls.specs.Facts.{group_at};
ghost use Rattle.hub_calls.specs.Puts.{PutsGroup, group_put, with_put_group};
ghost use Rattle.hub_calls.specs.Rights.{may_of};
ghost use Rattle.hub_calls.specs.GroupCalls as spec;

use crate::bodies::{group_at, group_body};
use crate::lists::list_of;
use crate::ruled::{answered, carried, refused};
use admin_rules::groups;
use admin_rules::refusals::RuleRefusal;
use hub_kit::names::{GroupName, UserName};
use hub_machine::answer::{Answer, gives};
use hub_machine::machine::Machine;
use hub_rows::changes::RowChange;
use hub_rows::records::Group;
use hub_rows::rows::Row;
use hub_view::{Body, Page};
use scope_filters::grant::Grant;
use scope_names::action::Action;
use std::alloc::{AllocError, Global};

/// The group that the first row puts, if it does.
fn group_put(rows: &[RowChange]) -> Option<&Group>
    ensures { option_copied result ≡ group_put rows.now }
{
    match rows {
        [RowChange::Put(Row::Group(group)), ..] => Some(group),
        _ => None,
    }
}

/// `GET /groups`: those that the caller may list.
pub fn get_groups(
    alloc: Global,
    hub: &Machine,
    rights: &Grant,
    page: Page,
) -> Result<Answer, AllocError>
    ensures { IfOk result (λ answer. answer_view answer ≡ spec.get_groups hub.now (may_of hub.now rights.now) page) }
{
    let tables = hub.tables();
    tables.own_keys();
    let rows = tables.groups_by_name();
    list_of(
        alloc,
        hub,
        rights,
        Action::ListGroups,
        rows,
        page,
        "/groups",
    )
}

/// `GET /groups/{group}`
pub fn get_group(
    alloc: Global,
    hub: &Machine,
    rights: &Grant,
    group: &GroupName,
) -> Result<Answer, AllocError>
    ensures { IfOk result (λ answer. answer_view answer ≡ spec.get_group hub.now (may_of hub.now rights.now) group.now) }
{
    Ok(gives(200, group_at(alloc, hub, rights, group)?))
}

/// The body of a group that is put, or else of the kept one.
fn put_or_kept_group(
    alloc: Global,
    hub: &Machine,
    rights: &Grant,
    group: &GroupName,
    put: Option<&Group>,
) -> Result<Body, AllocError>
    ensures { IfOk result (λ body. body_tokens body ≡ with_put_group (may_of hub.now rights.now) hub.now group.now
        (option_copied put.entry)) }
{
    match put {
        Some(row) => group_body(alloc, hub, rights, row),
        None => group_at(alloc, hub, rights, group),
    }
}

/// The group as the rows leave it, as the rights before them show it. The rows put that group or nothing.
fn group_after(
    alloc: Global,
    hub: &Machine,
    rights: &Grant,
    group: &GroupName,
    rows: &[RowChange],
) -> Result<Body, AllocError>
    requires { PutsGroup group.now rows.now }
    ensures { IfOk result (λ body. body_tokens body ≡ group_at (may_of hub.now rights.now) (after_rows rows.now hub.now) group.now) }
{
    put_or_kept_group(alloc, hub, rights, group, group_put(rows))
}

/// The answer of a rule whose rows put that group or nothing: it shows the group as they leave it.
fn answer_of_group(
    alloc: Global,
    hub: &Machine,
    rights: &Grant,
    group: &GroupName,
    status: u16,
    rows: Result<Vec<RowChange>, RuleRefusal>,
) -> Result<Answer, AllocError>
    requires { IfOk rows (λ rows. PutsGroup group.now rows.items) }
    ensures { IfOk result (λ a. (answer : rules.Answer) → rules.Says answer rows
        → answer_view a ≡ by_rules hub.now answer (λ after. good status (group_at (may_of hub.now rights.now) after group.now))) }
{
    match rows {
        Ok(rows) => {
            let body = group_after(alloc, hub, rights, group, rows.as_slice());
            answered(rows, status, body)
        }
        Err(refusal) => refused(alloc, refusal),
    }
}

/// `POST /groups/{group}`
pub fn post_group(
    alloc: Global,
    hub: &Machine,
    rights: &Grant,
    group: &GroupName,
    users: &[UserName],
) -> Result<Answer, AllocError>
    ensures { IfOk result (λ answer. answer_view answer ≡ spec.post_group hub.now (may_of hub.now rights.now) group.now users.now) }
{
    let rows = groups::add_group(alloc, hub.tables(), group, users);
    answer_of_group(alloc, hub, rights, group, 201, rows)
}

/// `DELETE /groups/{group}`
pub fn delete_group(alloc: Global, hub: &Machine, group: &GroupName) -> Result<Answer, AllocError>
    ensures { IfOk result (λ answer. answer_view answer ≡ spec.delete_group hub.now group.now) }
{
    carried(alloc, groups::delete_group(alloc, hub.tables(), group))
}

/// `POST /groups/{group}/users`
pub fn join_group(
    alloc: Global,
    hub: &Machine,
    rights: &Grant,
    group: &GroupName,
    users: &[UserName],
) -> Result<Answer, AllocError>
    ensures { IfOk result (λ answer. answer_view answer ≡ spec.join_group hub.now (may_of hub.now rights.now) group.now users.now) }
{
    let tables = hub.tables();
    tables.own_keys();
    let rows = groups::join_group(alloc, tables, group, users);
    answer_of_group(alloc, hub, rights, group, 200, rows)
}

/// `DELETE /groups/{group}/users`
pub fn leave_group(
    alloc: Global,
    hub: &Machine,
    rights: &Grant,
    group: &GroupName,
    users: &[UserName],
) -> Result<Answer, AllocError>
    ensures { IfOk result (λ answer. answer_view answer ≡ spec.leave_group hub.now (may_of hub.now rights.now) group.now users.now) }
{
    let tables = hub.tables();
    tables.own_keys();
    let rows = groups::leave_group(alloc, tables, group, users);
    answer_of_group(alloc, hub, rights, group, 200, rows)
}
