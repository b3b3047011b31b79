//! The calls on a proxy's routes, of which the state says no more than who may make them.
ghost use Rattle.std.specs.Prelude.{◌≡◌};
ghost use Rattle.hub_calls.specs.ProxyCalls as spec;
ghost use Rattle.hub_machine.specs.Answers.{answer_view};

use hub_machine::answer::{Answer, gives};
use hub_view::Body;

/// `GET /proxy` and `POST /proxy`: leave to ask the proxy.
pub fn leave() -> Answer
    ensures { answer_view result ≡ spec.leave }
{
    gives(200, Body::Nothing)
}
