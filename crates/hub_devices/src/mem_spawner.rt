//! A spawner in memory.
ghost use Rattle.std.specs.Prelude.{◌≡◌, ℕ, ◌≤◌, ◌==◌, List, [], ◌∷◌, ◌++◌, not, filter, Some, true, false, is_err, IsErr, IsSome, IfOk};
ghost use Rattle.std.specs.Prelude.{OnOk, OnErr};
ghost use Rattle.std.specs.Option.{option_map};
ghost use Rattle.hub_devices.specs.Calls.{Grows, told_unit, told_bool};
ghost use Rattle.hub_devices.specs.FailingCalls.{is_failing, after_call, new_script};
ghost use Rattle.hub_devices.specs.Faults.{Rises};
ghost use Rattle.hub_devices.specs.Running.{Sets, IsTold, runs};
ghost use Rattle.hub_devices.specs.declared.calls.Spawning.{Spawning};
ghost use Rattle.hub_devices.specs.declared.calls.Spawning.TheVariants as Spawn;
ghost use Rattle.hub_devices.specs.declared.calls.Told.{Told};

use crate::call_log::CallLog;
use crate::calls::{Spawning, Told};
use crate::source::Failed;
use crate::spawner::Spawner;
use hub_kit::names::ServerKey;
use hub_kit::target::Target;
use hub_kit::text::Text;
use std::alloc::{AllocError, Global};

/// Keeps which generations run, and all calls with what they told. It fails at the calls that `failing` numbers, the first
/// call being 0, and where it finds no memory for a call. A call that finds no memory to be kept is not told, and no other
/// is from then on.
pub struct MemSpawner {
    alloc: Global,
    running: Vec<u64>,
    log: CallLog<Spawning, Told>,
}

impl Drop for MemSpawner {
    fn drop(self) {
        let MemSpawner {
            alloc: _,
            running: _,
            log: _,
        } = self;
    }
}

impl MemSpawner {
    /// Nothing runs.
    pub fn new(alloc: Global, failing: Vec<u64>) -> MemSpawner
        ensures running { ⟦<MemSpawner as Spawner>⟧.may_run result ≡ Some [] }
        ensures calls { ⟦<MemSpawner as Spawner>⟧.calls result ≡ Some [] }
        ensures script { result.log.script ≡ new_script failing.items }
    {
        MemSpawner::beginning(alloc, Vec::new(alloc), failing)
    }

    /// These generations run.
    pub fn beginning(alloc: Global, running: Vec<u64>, failing: Vec<u64>) -> MemSpawner
        ensures running { ⟦<MemSpawner as Spawner>⟧.may_run result ≡ Some running.items }
        ensures calls { ⟦<MemSpawner as Spawner>⟧.calls result ≡ Some [] }
        ensures script { result.log.script ≡ new_script failing.items }
    {
        MemSpawner {
            alloc,
            running,
            log: CallLog::new(alloc, failing),
        }
    }

    /// The calls with what they told, unless one of them found no memory to be kept.
    pub fn calls(&self) -> Option<&[(Spawning, Told)]>
        ensures { ⟦<MemSpawner as Spawner>⟧.calls self.now ≡ option_map (λ calls. calls.now) result }
    {
        match &self.log.calls {
            Some(calls) => Some(calls.as_slice()),
            None => None,
        }
    }
}

/// Puts a generation in. Tells whether there is memory for it.
fn put_in(running: &mut Vec<u64>, g: u64) -> bool
    ensures ok { result ≡ true → running.new.items ≡ running.old.items ++ g ∷ [] }
    ensures err { result ≡ false → running.new.items ≡ running.old.items }
{
    running.push(g).is_ok()
}

/// Takes a generation out.
fn take_out(running: &mut Vec<u64>, g: u64)
    ensures { running.new.items ≡ filter (λ n. not (n == g)) running.old.items }
{
    running.retain(|n| *n != g);
}

fn start_call(
    alloc: Global,
    g: u64,
    key: &ServerKey,
    target: &Target,
    secret: &Text,
) -> Result<Spawning, AllocError>
    ensures { IfOk result (λ call. call ≡ Spawn.Start g key.now target.now secret.now) }
{
    Ok(Spawning::Start(g, *key, target.copy(alloc)?, secret.copy(alloc)?))
}

fn stop_call(alloc: Global, g: u64, target: &Target) -> Result<Spawning, AllocError>
    ensures { IfOk result (λ call. call ≡ Spawn.Stop g target.now) }
{
    Ok(Spawning::Stop(g, target.copy(alloc)?))
}

fn poll_call(alloc: Global, g: u64, target: &Target) -> Result<Spawning, AllocError>
    ensures { IfOk result (λ call. call ≡ Spawn.Poll g target.now) }
{
    Ok(Spawning::Poll(g, target.copy(alloc)?))
}

#[tactic(auto, using(crate::proofs::RunningLemmas::Sets_on, crate::proofs::RunningLemmas::Sets_off, crate::proofs::RunningLemmas::Sets_undone))]
impl Spawner for MemSpawner {
    ghost calls = { λ s. s.log.calls };

    ghost may_run = { λ s. Some s.running.items };

    ghost faults = { λ s. s.log.script.faults };

    fn start(
        &mut self,
        g: u64,
        key: &ServerKey,
        target: &Target,
        secret: &Text,
    ) -> Result<(), Failed>
        ensures calls { Grows self.old.log.calls ((Spawn.Start g key.now target.now secret.now, told_unit result) ∷ []) self.new.log.calls }
        ensures started { OnOk result (Sets (Some self.old.running.items) g true (Some self.new.running.items)) }
        ensures failed { OnErr result (Sets (Some self.old.running.items) g false (Some self.new.running.items)) }
        ensures counted { self.old.log.script.faults ≤ self.new.log.script.faults }
        ensures cause { OnErr result (Rises self.old.log.script.faults self.new.log.script.faults) }
        ensures kept { OnOk result (IsSome self.old.log.calls → IsSome self.new.log.calls) }
        ensures fails { is_failing self.old.log.script ≡ true → IsErr result }
        ensures script { self.new.log.script ≡ after_call self.old.log.script (is_err result) }
    {
        let call = start_call(self.alloc, g, key, target, secret);
        if !put_in(&mut self.running, g) {
            self.log.refuse(call, Told::Failed);
            take_out(&mut self.running, g);
            return Err(Failed);
        }
        match self.log.tell(call, Told::Done, Told::Failed) {
            Ok(()) => Ok(()),
            Err(failed) => {
                take_out(&mut self.running, g);
                Err(failed)
            }
        }
    }

    fn stop(&mut self, g: u64, target: &Target) -> Result<(), Failed>
        ensures calls { Grows self.old.log.calls ((Spawn.Stop g target.now, told_unit result) ∷ []) self.new.log.calls }
        ensures stopped { OnOk result (Sets (Some self.old.running.items) g false (Some self.new.running.items)) }
        ensures failed { OnErr result (Some self.new.running.items ≡ Some self.old.running.items) }
        ensures counted { self.old.log.script.faults ≤ self.new.log.script.faults }
        ensures cause { OnErr result (Rises self.old.log.script.faults self.new.log.script.faults) }
        ensures kept { OnOk result (IsSome self.old.log.calls → IsSome self.new.log.calls) }
        ensures fails { is_failing self.old.log.script ≡ true → IsErr result }
        ensures script { self.new.log.script ≡ after_call self.old.log.script (is_err result) }
    {
        let call = stop_call(self.alloc, g, target);
        match self.log.tell(call, Told::Done, Told::Failed) {
            Ok(()) => {
                take_out(&mut self.running, g);
                Ok(())
            }
            Err(failed) => Err(failed),
        }
    }

    /// Tells whether the generation was among those that ran at the beginning or was started since, and neither stopped
    /// nor failed to start after that.
    fn poll(&mut self, g: u64, target: &Target) -> Result<bool, Failed>
        ensures calls { Grows self.old.log.calls ((Spawn.Poll g target.now, told_bool result) ∷ []) self.new.log.calls }
        ensures told { IfOk result (IsTold (Some self.old.running.items) g) }
        ensures unchanged { Some self.new.running.items ≡ Some self.old.running.items }
        ensures counted { self.old.log.script.faults ≤ self.new.log.script.faults }
        ensures cause { OnErr result (Rises self.old.log.script.faults self.new.log.script.faults) }
        ensures is { IfOk result (λ told. told ≡ runs self.old.running.items g) }
        ensures kept { OnOk result (IsSome self.old.log.calls → IsSome self.new.log.calls) }
        ensures fails { is_failing self.old.log.script ≡ true → IsErr result }
        ensures script { self.new.log.script ≡ after_call self.old.log.script (is_err result) }
    {
        let call = poll_call(self.alloc, g, target);
        let runs = self.running.contains(&g);
        match self.log.tell(call, Told::Runs(runs), Told::Failed) {
            Ok(()) => Ok(runs),
            Err(failed) => Err(failed),
        }
    }
}
