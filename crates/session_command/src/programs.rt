//! The programs of a session, which starts none.
ghost use Rattle.std.specs.Prelude.{◌≡◌, ◌≤◌, None};
ghost use Rattle.hub_devices.specs.Faults.{Rises};

use hub_devices::source::Failed;
use hub_devices::spawner::Spawner;
use hub_kit::names::ServerKey;
use hub_kit::target::Target;
use hub_kit::text::Text;
use std::alloc::Global;

/// Starts programs in memory alone. What an earlier hub started may run for all that a session knows: each look at such a program and
/// each stop of it fails, so that its server is parked with its lease kept, for the next hub that serves.
#[derive(Drop)]
pub(crate) struct SessionPrograms {
    /// The first generation that was started here. Generations rise, so all later ones were too.
    first: Option<u64>,
    running: Vec<u64>,
    faults: u64,
}

impl SessionPrograms {
    /// Nothing was started yet.
    pub(crate) fn new(alloc: Global) -> SessionPrograms {
        SessionPrograms {
            first: None,
            running: Vec::new(alloc),
            faults: 0,
        }
    }

    /// Whether a generation was started here.
    fn is_own(&self, g: u64) -> bool {
        match self.first {
            Some(first) => first <= g,
            None => false,
        }
    }

    /// Counts a call that failed.
    fn fail(&mut self) -> Failed
        ensures counted { self.old.faults ≤ self.new.faults }
        ensures rises { Rises self.old.faults self.new.faults }
    {
        self.faults = self.faults.saturating_add(1);
        Failed
    }
}

impl Spawner for SessionPrograms {
    ghost calls = { λ _. None };

    ghost may_run = { λ _. None };

    ghost faults = { λ s. s.faults };

    fn start(&mut self, g: u64, _: &ServerKey, _: &Target, _: &Text) -> Result<(), Failed> {
        if self.running.push(g).is_err() {
            return Err(self.fail());
        }
        if self.first.is_none() {
            self.first = Some(g);
        }
        Ok(())
    }

    fn stop(&mut self, g: u64, _: &Target) -> Result<(), Failed> {
        if !self.is_own(g) {
            return Err(self.fail());
        }
        self.running.retain(|n| *n != g);
        Ok(())
    }

    fn poll(&mut self, g: u64, _: &Target) -> Result<bool, Failed> {
        if !self.is_own(g) {
            return Err(self.fail());
        }
        Ok(self.running.contains(&g))
    }
}
