//! A random source in memory.
ghost use Rattle.std.specs.Prelude.{◌≡◌, ℕ, ◌≤◌, ◌||◌, ◌==◌, length, Some, vec_len, is_err, OnErr, IfOk, [], ◌∷◌};
ghost use Rattle.hub_devices.specs.FailingCalls.{Script, is_failing, after_call, new_script};
ghost use Rattle.hub_devices.specs.Faults.{Rises};
ghost use Rattle.hub_devices.specs.Streams.{Takes, left_from};

use crate::failing_calls::FailingCalls;
use crate::random::Random;
use crate::source::Failed;

/// Gives its draws in order. It fails at the calls that `failing` numbers, the first call being 0, which take none, and
/// past its draws.
pub struct ListRandom {
    draws: Vec<[u8; 16]>,
    at: usize,
    script: FailingCalls,
    ghost in_range: { at ≤ vec_len draws },
}

impl Drop for ListRandom {
    fn drop(self) {
        let ListRandom {
            draws: _,
            at: _,
            script: _,
        } = self;
    }
}

impl ListRandom {
    pub fn new(draws: Vec<[u8; 16]>, failing: Vec<u64>) -> ListRandom
        ensures left { ⟦<ListRandom as Random>⟧.left result ≡ Some draws.items }
        ensures script { result.script ≡ new_script failing.items }
    {
        ListRandom {
            draws,
            at: 0,
            script: FailingCalls::new(failing),
        }
    }
}

impl Random for ListRandom {
    ghost left = { λ r. left_from r.at r.draws.items };

    ghost faults = { λ r. r.script.faults };

    fn draw(&mut self) -> Result<[u8; 16], Failed>
        ensures takes { IfOk result (λ bytes. Takes (left_from self.old.at self.old.draws.items) (bytes ∷ [])
            (left_from self.new.at self.new.draws.items)) }
        ensures kept { OnErr result (left_from self.new.at self.new.draws.items ≡ left_from self.old.at self.old.draws.items) }
        ensures counted { self.old.script.faults ≤ self.new.script.faults }
        ensures cause { OnErr result (Rises self.old.script.faults self.new.script.faults) }
        ensures fails { is_err result ≡ (is_failing self.old.script || (self.old.at == length self.old.draws.items)) }
        ensures script { self.new.script ≡ after_call self.old.script (is_err result) }
    {
        if self.script.next() {
            return Err(Failed);
        }
        if self.at == self.draws.len() {
            self.script.fail();
            return Err(Failed);
        }
        let bytes = self.draws[self.at];
        self.at += 1;
        Ok(bytes)
    }
}
