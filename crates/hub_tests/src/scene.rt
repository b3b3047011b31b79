//! How far the peers of a test are. They wait for one another by it.
use std::sync::{Mutex, Wait};
use std::thread::yield_now;

/// How often a peer looks before it goes on by itself.
const TURNS: u32 = 10_000_000;

#[derive(Drop)]
struct Reached {
    stage: u64,
    is_wrong: bool,
}

/// The stage that the peers have reached, and whether one of them found something wrong.
#[derive(Drop)]
pub struct Scene {
    reached: Mutex<Reached>,
}

impl Scene {
    /// Nothing has been reached.
    pub fn new() -> Scene {
        Scene {
            reached: Mutex::new(Reached {
                stage: 0,
                is_wrong: false,
            }),
        }
    }

    /// This stage is reached.
    pub fn reach<W: Wait>(&self, rt: &W, stage: u64) {
        let mut reached = self.reached.lock(rt);
        reached.stage = reached.stage.max(stage);
    }

    /// Something is wrong.
    pub fn fail<W: Wait>(&self, rt: &W) {
        self.reached.lock(rt).is_wrong = true;
    }

    fn has_reached<W: Wait>(&self, rt: &W, stage: u64) -> bool {
        self.reached.lock(rt).stage >= stage
    }

    /// Waits until this stage is reached, which it must be within a number of turns.
    pub fn wait<W: Wait>(&self, rt: &W, stage: u64) {
        for _ in 0..TURNS {
            if self.has_reached(rt, stage) {
                return;
            }
            yield_now();
        }
        self.fail(rt);
    }

    /// Whether nothing is wrong, and this is the last stage that was reached.
    pub fn ends_at<W: Wait>(&self, rt: &W, stage: u64) -> bool {
        let reached = self.reached.lock(rt);
        !reached.is_wrong & (reached.stage == stage)
    }
}
