//! Programs of services in memory.
ghost use Rattle.std.specs.Prelude.{◌≡◌, ◌≤◌, [], ◌∷◌, Some, None, true, false, is_err, IsErr, IsSome, IfOk, OnOk, OnErr};
ghost use Rattle.std.specs.Option.{option_map};
ghost use Rattle.hub_devices.specs.Calls.{Grows, told_unit, told_bool};
ghost use Rattle.hub_devices.specs.FailingCalls.{is_failing, after_call, new_script};
ghost use Rattle.hub_devices.specs.Faults.{Rises};
ghost use Rattle.services_run.specs.Polls as spec;
ghost use Rattle.services_run.specs.declared.calls.ServiceCall.{ServiceCall};
ghost use Rattle.services_run.specs.declared.calls.ServiceCall.TheVariants as Call;

use crate::calls::ServiceCall;
use crate::running::Running;
use hub_devices::call_log::CallLog;
use hub_devices::calls::Told;
use hub_devices::source::Failed;
use hub_kit::names::ServiceName;
use hub_kit::target::Target;
use hub_kit::text::Text;
use std::alloc::{AllocError, Global};

/// Answers its polls from a list, and false past it, and keeps all calls with what they told. It fails at the calls that `failing` numbers,
/// the first call being 0, and where it finds no memory for a call. A call that finds no memory to be kept is not told, and no other is
/// from then on. A poll that failed has taken its answer from the list.
pub struct MemRunning {
    alloc: Global,
    polls: Vec<bool>,
    at: usize,
    log: CallLog<ServiceCall, Told>,
}

impl Drop for MemRunning {
    fn drop(self) {
        let MemRunning {
            alloc: _,
            polls: _,
            at: _,
            log: _,
        } = self;
    }
}

impl MemRunning {
    /// Nothing was called.
    pub fn new(alloc: Global, polls: Vec<bool>, failing: Vec<u64>) -> MemRunning
        ensures calls { ⟦<MemRunning as Running>⟧.calls result ≡ Some [] }
        ensures polls { (result.polls ≡ polls) × (result.at ≡ 0) }
        ensures script { result.log.script ≡ new_script failing.items }
    {
        MemRunning {
            alloc,
            polls,
            at: 0,
            log: CallLog::new(alloc, failing),
        }
    }

    /// The calls with what they told, unless one of them found no memory to be kept.
    pub fn calls(&self) -> Option<&[(ServiceCall, Told)]>
        ensures { ⟦<MemRunning as Running>⟧.calls self.now ≡ option_map (λ calls. calls.now) result }
    {
        match &self.log.calls {
            Some(calls) => Some(calls.as_slice()),
            None => None,
        }
    }

    /// The next answer of a poll.
    fn next_poll(&mut self) -> bool
        ensures is { result ≡ spec.answer_at self.old.polls.items self.old.at }
        ensures log { self.new.log ≡ self.old.log }
        ensures polls { self.new.polls ≡ self.old.polls }
        ensures at { self.new.at ≡ spec.next_place self.old.polls.items self.old.at }
    {
        match self.polls.get(self.at) {
            Some(runs) => {
                let runs = *runs;
                self.at += 1;
                runs
            }
            None => false,
        }
    }
}

fn start_call(
    alloc: Global,
    g: u64,
    name: &ServiceName,
    target: &Target,
    secret: &Text,
) -> Result<ServiceCall, AllocError>
    ensures { IfOk result (λ call. call ≡ Call.Start g name.now target.now secret.now) }
{
    Ok(ServiceCall::Start(g, *name, target.copy(alloc)?, secret.copy(alloc)?))
}

fn stop_call(alloc: Global, g: u64, target: &Target) -> Result<ServiceCall, AllocError>
    ensures { IfOk result (λ call. call ≡ Call.Stop g target.now) }
{
    Ok(ServiceCall::Stop(g, target.copy(alloc)?))
}

fn poll_call(alloc: Global, g: u64, target: &Target) -> Result<ServiceCall, AllocError>
    ensures { IfOk result (λ call. call ≡ Call.Poll g target.now) }
{
    Ok(ServiceCall::Poll(g, target.copy(alloc)?))
}

impl Running for MemRunning {
    ghost calls = { λ s. s.log.calls };

    ghost faults = { λ s. s.log.script.faults };

    fn start(
        &mut self,
        g: u64,
        name: &ServiceName,
        target: &Target,
        secret: &Text,
    ) -> Result<(), Failed>
        ensures calls { Grows self.old.log.calls ((Call.Start g name.now target.now secret.now, told_unit result) ∷ [])
            self.new.log.calls }
        ensures counted { self.old.log.script.faults ≤ self.new.log.script.faults }
        ensures cause { OnErr result (Rises self.old.log.script.faults self.new.log.script.faults) }
        ensures kept { OnOk result (IsSome self.old.log.calls → IsSome self.new.log.calls) }
        ensures fails { is_failing self.old.log.script ≡ true → IsErr result }
        ensures script { self.new.log.script ≡ after_call self.old.log.script (is_err result) }
        ensures polls { (self.new.polls ≡ self.old.polls) × (self.new.at ≡ self.old.at) }
    {
        let call = start_call(self.alloc, g, name, target, secret);
        self.log.tell(call, Told::Done, Told::Failed)
    }

    fn stop(&mut self, g: u64, target: &Target) -> Result<(), Failed>
        ensures calls { Grows self.old.log.calls ((Call.Stop g target.now, told_unit result) ∷ []) self.new.log.calls }
        ensures counted { self.old.log.script.faults ≤ self.new.log.script.faults }
        ensures cause { OnErr result (Rises self.old.log.script.faults self.new.log.script.faults) }
        ensures kept { OnOk result (IsSome self.old.log.calls → IsSome self.new.log.calls) }
        ensures fails { is_failing self.old.log.script ≡ true → IsErr result }
        ensures script { self.new.log.script ≡ after_call self.old.log.script (is_err result) }
        ensures polls { (self.new.polls ≡ self.old.polls) × (self.new.at ≡ self.old.at) }
    {
        let call = stop_call(self.alloc, g, target);
        self.log.tell(call, Told::Done, Told::Failed)
    }

    /// Tells the next answer of the list.
    fn poll(&mut self, g: u64, target: &Target) -> Result<bool, Failed>
        ensures calls { Grows self.old.log.calls ((Call.Poll g target.now, told_bool result) ∷ []) self.new.log.calls }
        ensures counted { self.old.log.script.faults ≤ self.new.log.script.faults }
        ensures cause { OnErr result (Rises self.old.log.script.faults self.new.log.script.faults) }
        ensures is { IfOk result (λ told. told ≡ spec.answer_at self.old.polls.items self.old.at) }
        ensures kept { OnOk result (IsSome self.old.log.calls → IsSome self.new.log.calls) }
        ensures fails { is_failing self.old.log.script ≡ true → IsErr result }
        ensures script { self.new.log.script ≡ after_call self.old.log.script (is_err result) }
        ensures polls { (self.new.polls ≡ self.old.polls) × (self.new.at ≡ spec.next_place self.old.polls.items self.old.at) }
    {
        let call = poll_call(self.alloc, g, target);
        let runs = self.next_poll();
        match self.log.tell(call, Told::Runs(runs), Told::Failed) {
            Ok(()) => Ok(runs),
            Err(failed) => Err(failed),
        }
    }
}
