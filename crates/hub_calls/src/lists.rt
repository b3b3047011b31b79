//! Lists in pages: the bodies of those that stand in a page.
ghost use Rattle.std.specs.Prelude.{◌≡◌, map as over, IfOk};
ghost use Rattle.keyed_rows.specs.Rows.{map_of};
ghost use Rattle.hub_view.specs.Body.{body_tokens, bodies};
ghost use Rattle.hub_view.specs.Fields.{Rights};
ghost use Rattle.hub_view.specs.Json.{Json};
ghost use Rattle.hub_view.specs.Pages.{kept, paged_list};
ghost use Rattle.hub_machine.specs.Answers.{answer_view};
ghost use Rattle.hub_machine.specs.Replies as spec;
ghost use Rattle.hub_machine.specs.State.{Hub};
ghost use Rattle.hub_calls.specs.Facts.{user_at, group_at, service_body};
ghost use Rattle.hub_calls.specs.Rights.{may_of};

use crate::bodies::{group_at, service_body, user_at};
use hub_kit::names::{GroupName, ServiceName, UserName};
use hub_machine::answer::{Answer, listed};
use hub_machine::machine::Machine;
use hub_view::{Body, Page, part_of};
use scope_filters::grant::Grant;
use scope_meet::admitted::{Named, those_admitted};
use scope_names::action::Action;
use std::alloc::{AllocError, Global};
use std::collections::BTreeMap;

/// Names whose objects the rights show.
pub(crate) trait Shown: Named {
    ghost shown: { Rights → Hub → Self → Json };

    fn body(&self, alloc: Global, hub: &Machine, rights: &Grant) -> Result<Body, AllocError>
        ensures { IfOk result (λ body. body_tokens body ≡ shown (may_of hub.now rights.now) hub.now self.now) };
}

impl Shown for UserName {
    ghost shown = { user_at };

    fn body(&self, alloc: Global, hub: &Machine, rights: &Grant) -> Result<Body, AllocError> {
        user_at(alloc, hub, rights, self)
    }
}

impl Shown for GroupName {
    ghost shown = { group_at };

    fn body(&self, alloc: Global, hub: &Machine, rights: &Grant) -> Result<Body, AllocError> {
        group_at(alloc, hub, rights, self)
    }
}

impl Shown for ServiceName {
    ghost shown = { service_body };

    fn body(&self, alloc: Global, hub: &Machine, rights: &Grant) -> Result<Body, AllocError> {
        service_body(alloc, hub, rights, self)
    }
}

/// The page of those objects of a kind on which the rights allow the action, as the rights show them.
pub(crate) fn list_of<K: Shown, V>(
    alloc: Global,
    hub: &Machine,
    rights: &Grant,
    action: Action,
    rows: &BTreeMap<K, V>,
    page: Page,
    path: &str,
) -> Result<Answer, AllocError>
    ensures { IfOk result (λ answer. answer_view answer ≡ spec.gives (spec.good 200 (paged_list path.now page
        (over (K.shown (may_of hub.now rights.now) hub.now)
        (kept (λ name. may_of hub.now rights.now action (K.object_of name)) (map_of K.Ord.cmp rows.now)))))) }
{
    let admitted = those_admitted(alloc, rights, action, hub.tables())?;
    let part = part_of(alloc, rows, &admitted, page)?;
    let bodies = bodies_of(alloc, hub, rights, part.names.as_slice())?;
    listed(alloc, page, part.total, bodies, path)
}

/// The bodies of some names.
fn bodies_of<K: Shown>(
    alloc: Global,
    hub: &Machine,
    rights: &Grant,
    names: &[K],
) -> Result<Vec<Body>, AllocError>
    ensures { IfOk result (λ made. bodies made.items ≡ over (K.shown (may_of hub.now rights.now) hub.now) names.now) }
{
    let mut bodies = Vec::new(alloc);
    for name in names {
        bodies.push(name.body(alloc, hub, rights)?)?;
    }
    Ok(bodies)
}
