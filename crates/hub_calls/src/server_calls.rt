//! The calls on servers.
ghost use Rattle.std.specs.Prelude.{◌≡◌, IfOk};
ghost use Rattle.hub_machine.specs.Answers.{answer_view};
ghost use Rattle.hub_calls.specs.ServerCalls as spec;

use crate::ruled::carried;
use admin_rules::servers;
use hub_kit::moment::Moment;
use hub_kit::names::{ServerName, UserName};
use hub_machine::answer::Answer;
use hub_machine::machine::Machine;
use std::alloc::{AllocError, Global};

/// `POST /users/{user}/activity`
pub fn post_activity(
    alloc: Global,
    hub: &Machine,
    now: Moment,
    user: &UserName,
    last_activity: Option<Moment>,
    told: &[(ServerName, Option<Moment>)],
) -> Result<Answer, AllocError>
    ensures { IfOk result (λ answer. answer_view answer ≡ spec.post_activity hub.now now user.now last_activity told.now) }
{
    let rows = servers::note_activity(alloc, hub.tables(), user, now, last_activity, told);
    carried(alloc, rows)
}
