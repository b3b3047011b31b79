//! The calls of a device in memory with what they told.
ghost use Rattle.std.specs.Prelude.{◌≡◌, ◌≤◌, [], ◌∷◌, Some, true, false, is_ok, is_err, IsErr, IfOk, OnOk, OnErr, IsSome, if◌then◌else◌};
ghost use Rattle.std.specs.Prelude as prelude;
ghost use Rattle.hub_devices.specs.Calls.{Grows};
ghost use Rattle.hub_devices.specs.FailingCalls.{is_failing, after_call, new_script};
ghost use Rattle.hub_devices.specs.Faults.{Rises};

use crate::failing_calls::FailingCalls;
use crate::source::Failed;
use hub_kit::list::List;
use std::alloc::{AllocError, Global};

/// The calls with what they told, and which of them are to fail. Where there is no memory for a call, none is told from
/// then on.
pub struct CallLog<C, T> {
    pub script: FailingCalls,
    pub calls: Option<List<(C, T)>>,
}

impl<C: Drop, T: Drop> Drop for CallLog<C, T> {
    fn drop(self) {
        let CallLog {
            script: _,
            calls: _,
        } = self;
    }
}

#[tactic(auto, using(crate::proofs::CallLemmas::Grows_lost))]
impl<C: Drop, T: Drop> CallLog<C, T> {
    /// No calls yet. Takes no memory.
    pub fn new(alloc: Global, failing: Vec<u64>) -> CallLog<C, T>
        ensures script { result.script ≡ new_script failing.items }
        ensures calls { result.calls ≡ Some [] }
    {
        CallLog {
            script: FailingCalls::new(failing),
            calls: Some(List::new(alloc)),
        }
    }

    /// Keeps a call with what it told. Tells whether it is kept, or none was told before.
    pub fn keep(&mut self, call: Result<C, AllocError>, told: T) -> bool
        ensures grows { IfOk call (λ c. Grows self.old.calls ((c, told) ∷ []) self.new.calls) }
        ensures lost { OnErr call (self.new.calls ≡ prelude.None) }
        ensures kept { result ≡ true → IsSome self.old.calls → IsSome self.new.calls }
        ensures none { result ≡ false → self.new.calls ≡ prelude.None }
        ensures script { self.new.script ≡ self.old.script }
    {
        let Some(calls) = &mut self.calls else {
            return true;
        };
        if let Ok(call) = call {
            if calls.push((call, told)).is_ok() {
                return true;
            }
        }
        self.calls = None;
        false
    }

    /// A call that tells this, or that it failed: where its number says so, and where there is no memory for it.
    pub fn tell(&mut self, call: Result<C, AllocError>, told: T, failed: T) -> Result<(), Failed>
        ensures grows { IfOk call (λ c. Grows self.old.calls ((c, if is_ok result then told else failed) ∷ []) self.new.calls) }
        ensures lost { OnErr call (self.new.calls ≡ prelude.None) }
        ensures kept { OnOk result (IsSome self.old.calls → IsSome self.new.calls) }
        ensures fails { is_failing self.old.script ≡ true → IsErr result }
        ensures script { self.new.script ≡ after_call self.old.script (is_err result) }
        ensures counted { self.old.script.faults ≤ self.new.script.faults }
        ensures cause { OnErr result (Rises self.old.script.faults self.new.script.faults) }
    {
        if self.script.next() {
            self.keep(call, failed);
            return Err(Failed);
        }
        if !self.keep(call, told) {
            self.script.fail();
            return Err(Failed);
        }
        Ok(())
    }

    /// A call that fails, since there is no memory for it.
    pub fn refuse(&mut self, call: Result<C, AllocError>, failed: T)
        ensures grows { IfOk call (λ c. Grows self.old.calls ((c, failed) ∷ []) self.new.calls) }
        ensures lost { OnErr call (self.new.calls ≡ prelude.None) }
        ensures script { self.new.script ≡ after_call self.old.script true }
        ensures counted { self.old.script.faults ≤ self.new.script.faults }
        ensures cause { Rises self.old.script.faults self.new.script.faults }
    {
        if !self.script.next() {
            self.script.fail();
        }
        self.keep(call, failed);
    }
}
