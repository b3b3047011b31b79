//! What becomes of messages.
ghost use Rattle.std.specs.Prelude.{◌≡◌};
ghost use Rattle.late_routes.specs.Plans.{plan_at, due_of, is_due};

use hub_devices::calls::Routing;

/// What becomes of a call's message: it arrives and its answer is told; or a failure is told, and it never arrives, it has arrived, or it
/// arrives just before the k-th later call. Of 0 it arrives at `deliver` alone.
#[derive(Clone, Copy, PartialEq, Eq)]
pub enum LatePlan {
    Done,
    Lost,
    Applied,
    Late(u32),
}

/// A message on its way, and the number of the call before which it arrives, if there is one.
pub struct Outstanding {
    pub call: Routing,
    pub due: Option<u128>,
}

impl Drop for Outstanding {
    fn drop(self) {
        let Outstanding { call: _, due: _ } = self;
    }
}

/// The plan of the call with this number: calls without one are done.
pub(crate) fn plan_at(plans: &[LatePlan], number: u64) -> LatePlan
    ensures { result ≡ plan_at plans.now number }
{
    match plans.get(number as usize) {
        Some(plan) => *plan,
        None => LatePlan::Done,
    }
}

/// The call before which a message arrives that is late by so many.
pub(crate) fn due_of(number: u64, calls: u32) -> Option<u128>
    ensures { result ≡ due_of number calls }
{
    if calls == 0 {
        None
    } else {
        Some(number as u128 + calls as u128)
    }
}

/// Whether a message arrives before the call with this number.
pub(crate) fn is_due(message: &Outstanding, number: u64) -> bool
    ensures { result ≡ is_due number message.now }
{
    match message.due {
        Some(due) => due <= number as u128,
        None => false,
    }
}
