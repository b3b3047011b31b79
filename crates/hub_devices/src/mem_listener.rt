//! A listener in memory.
ghost use Rattle.std.specs.Prelude.{◌≡◌, ◌≤◌, ◌+◌, ◌||◌, ◌<◌, ◌^◌, ◌==◌, vec_len, ◌∷◌, Some, length, reverse, is_err, IfOk, OnOk, OnErr};
ghost use Rattle.std.specs.Option.{option_map};
ghost use Rattle.hub_devices.specs.FailingCalls.{is_failing, after_call, new_script};
ghost use Rattle.hub_devices.specs.Faults.{Rises};

use crate::failing_calls::FailingCalls;
use crate::listener::Listener;
use crate::sink::Sink;
use crate::source::{Failed, Source};

/// Gives its connections in order. It fails at the calls that `failing` numbers, the first call being 0, which give none,
/// and past its connections.
pub struct MemListener<I, O> {
    /// The connections that are left, the last of them first.
    doors: Vec<(I, O)>,
    given: u64,
    script: FailingCalls,
    ghost fits: { given + vec_len doors < 2 ^ 64 },
}

impl<I: Drop, O: Drop> Drop for MemListener<I, O> {
    fn drop(self) {
        let MemListener {
            doors: _,
            given: _,
            script: _,
        } = self;
    }
}

impl<I: Source + Drop, O: Sink + Drop> MemListener<I, O> {
    pub fn new(doors: Vec<(I, O)>, failing: Vec<u64>) -> MemListener<I, O>
        ensures doors { reverse result.doors.items ≡ doors.items }
        ensures given { result.given ≡ 0 }
        ensures script { result.script ≡ new_script failing.items }
    {
        let mut doors = doors;
        doors.reverse();
        MemListener {
            doors,
            given: 0,
            script: FailingCalls::new(failing),
        }
    }
}

impl<I: Source + Drop, O: Sink + Drop> Listener for MemListener<I, O> {
    type In = I;

    type Out = O;

    ghost are_sides = { λ _ _. Unit };

    ghost given = { λ l. Some l.given };

    ghost faults = { λ l. l.script.faults };

    fn accept(&mut self) -> Result<(I, O), Failed>
        ensures sides { IfOk result (λ _. Unit {0}) }
        ensures given { OnOk result (Some self.new.given ≡ option_map (λ n. n + 1) (Some self.old.given)) }
        ensures kept { OnErr result (Some self.new.given ≡ Some self.old.given) }
        ensures counted { self.old.script.faults ≤ self.new.script.faults }
        ensures cause { OnErr result (Rises self.old.script.faults self.new.script.faults) }
        ensures next { IfOk result (λ door. reverse self.old.doors.items ≡ door ∷ reverse self.new.doors.items) }
        ensures left { OnErr result (self.new.doors.items ≡ self.old.doors.items) }
        ensures fails { is_err result ≡ (is_failing self.old.script || (length self.old.doors.items == 0)) }
        ensures script { self.new.script ≡ after_call self.old.script (is_err result) }
    {
        if self.script.next() {
            return Err(Failed);
        }
        match self.doors.pop() {
            Some(door) => {
                self.given += 1;
                Ok(door)
            }
            None => {
                self.script.fail();
                Err(Failed)
            }
        }
    }
}
