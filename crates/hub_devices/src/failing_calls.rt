//! Which calls of a device in memory are to fail.
ghost use Rattle.std.specs.Prelude.{◌≡◌, ◌≤◌, true};
ghost use Rattle.hub_devices.specs.FailingCalls.{Script, one_more, is_failing, after_call, new_script};
ghost use Rattle.hub_devices.specs.Faults.{Rises};

use std::marker::Model;

/// The numbers of the calls that are to fail, with a count of the calls and one of the faults. Numbers are counted from
/// 0: the first call has the number 0. Both counts stand still at the greatest `u64`.
pub struct FailingCalls {
    numbers: Vec<u64>,
    made: u64,
    faults: u64,
}

impl Drop for FailingCalls {
    fn drop(self) {
        let FailingCalls {
            numbers: _,
            made: _,
            faults: _,
        } = self;
    }
}

impl Model for FailingCalls {
    ghost use Rattle.hub_devices.specs.FailingCalls.{Script};

    ghost Value = { Script };

    ghost view = { λ c. record { failing = c.numbers.items; made = c.made; faults = c.faults } };
}

impl FailingCalls {
    pub fn new(numbers: Vec<u64>) -> FailingCalls
        ensures { result ≡ new_script numbers.items }
    {
        FailingCalls {
            numbers,
            made: 0,
            faults: 0,
        }
    }

    /// Counts a call, and tells whether it is to fail, which is counted too.
    pub fn next(&mut self) -> bool
        ensures failing { result ≡ is_failing self.old }
        ensures counted { self.new ≡ after_call self.old result }
        ensures kept { self.old.faults ≤ self.new.faults }
        ensures cause { result ≡ true → Rises self.old.faults self.new.faults }
    {
        let fails = self.numbers.contains(&self.made);
        self.made = self.made.saturating_add(1);
        if fails {
            self.fail();
        }
        fails
    }

    /// Counts that the last call failed, which wasn't to.
    pub fn fail(&mut self)
        ensures counted { self.new ≡ record self.old { faults = one_more self.old.faults } }
        ensures kept { self.old.faults ≤ self.new.faults }
        ensures cause { Rises self.old.faults self.new.faults }
    {
        self.faults = self.faults.saturating_add(1);
    }
}
