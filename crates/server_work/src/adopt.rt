//! Adoptions: chains that begin with a poll.
ghost use Rattle.std.specs.Prelude.{◌≡◌, ◌≤◌, ◌<◌, ◌-◌, ◌^◌, ◌+◌, List, All, Option};
ghost use Rattle.server_work.specs.declared.tale.Tale.{Tale};
ghost use Rattle.server_work.specs.Gains.{Gain, Gains, sum_of};
ghost use Rattle.server_work.specs.Adoptions.{Adoptions, ready_one, stopped_one, parked_one, readies, stops, parks};

use crate::book::LifeBook;
use crate::chain::drive;
use crate::tale::Tale;
use crate::work::Work;
use desk::{Desk, Pass};
use hub_devices::route_link::RouteLink;
use hub_devices::spawner::Spawner;
use server_life::Todo;
use std::sync::Wait;

/// How many chains ended with the server ready, stopped and parked. A broken one counts in none.
#[derive(Clone, Copy)]
pub struct Adopted {
    pub ready: u64,
    pub stopped: u64,
    pub parked: u64,
}

impl Adopted {
    /// One chain more.
    fn with(self, told: Option<Tale>) -> Adopted
        requires few { self.ready + self.stopped + self.parked < 2 ^ 64 - 1 }
        ensures ready { result.ready ≡ self.ready + ready_one told }
        ensures stopped { result.stopped ≡ self.stopped + stopped_one told }
        ensures parked { result.parked ≡ self.parked + parked_one told }
        ensures one { result.ready + result.stopped + result.parked ≤ self.ready + self.stopped + self.parked + 1 }
    {
        match told {
            None => self,
            Some(tale) => {
                if tale.ready {
                    Adopted {
                        ready: self.ready + 1,
                        ..self
                    }
                } else if tale.stopped {
                    Adopted {
                        stopped: self.stopped + 1,
                        ..self
                    }
                } else {
                    Adopted {
                        parked: self.parked + 1,
                        ..self
                    }
                }
            }
        }
    }
}

/// Adopts each of these servers, in this order.
pub fn adopt<B: LifeBook, S: Spawner, P: RouteLink, R: Wait>(
    rt: &R,
    desk: &Desk<B>,
    pass: &mut Pass<B>,
    spawner: &mut S,
    routes: &mut P,
    works: &[Work],
) -> Adopted
    requires of { pass.old.of ≡ desk.now }
    requires small { All (λ w. w.generation < 2 ^ 63) works.now }
    ensures adopted { (ends : List (Option Tale)) × (gains : List (Gain B.Entry)) × Adoptions B.reached B.notes
        (record { pass = pass.old; spawner = S.calls spawner.old; routes = P.calls routes.old }) works.now ends gains
        (record { pass = pass.new; spawner = S.calls spawner.new; routes = P.calls routes.new })
        × Gains (record { pass = pass.old; spawner = S.calls spawner.old; routes = P.calls routes.old }) (sum_of gains)
        (record { pass = pass.new; spawner = S.calls spawner.new; routes = P.calls routes.new })
        × (result.ready ≡ readies ends) × (result.stopped ≡ stops ends) × (result.parked ≡ parks ends) }
    ensures spawner_counted { S.faults spawner.old ≤ S.faults spawner.new }
    ensures routes_counted { P.faults routes.old ≤ P.faults routes.new }
{
    let mut adopted = Adopted {
        ready: 0,
        stopped: 0,
        parked: 0,
    };
    for work in works {
        let told = drive(rt, desk, pass, spawner, routes, work, Todo::Poll);
        adopted = adopted.with(told);
    }
    adopted
}
