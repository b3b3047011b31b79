//! A listener round another one.
ghost use Rattle.std.specs.Prelude.{◌≡◌, ◌≤◌, ℕ, Option};
ghost use Rattle.services_run.specs.Book.{Book};
ghost use Rattle.service_doors.specs.Tending.{ServicesTold, Halts, OneRound, Tends, services_told};

use crate::kit::ServiceKit;
use hub_devices::clock::Clock;
use hub_devices::listener::Listener;
use hub_devices::source::Failed;
use services_run::paths::Paths;
use services_run::running::Running;
use services_run::services::Services;
use std::marker::{Brand, PhantomData};

/// Which use of a listener it is: the references that it was lent, the services then, and what was told of all.
pub trait Season {
    ghost doors: { ℕ };

    ghost kit: { ℕ };

    ghost book: { Book };

    ghost told: { ServicesTold };

    ghost given: { Option ℕ };

    ghost faults: { ℕ };
}

// The caller of a brand picks what it stands for.
impl Season for Brand {
    ghost use Rattle.std.specs.Prelude.{None, []};

    ghost doors = { 0 };

    ghost kit = { 0 };

    ghost book = { record { places = []; last = 0 } };

    ghost told = { record { runs = None; routes = None; clock = None; run_faults = 0; route_faults = 0 } };

    ghost given = { None };

    ghost faults = { 0 };
}

/// The listener and the devices that a call was lent. Passed on by value they stay the same references.
#[derive(Drop)]
pub struct Front<'a, D, R, P, C> {
    pub doors: &'a mut D,
    pub kit: &'a mut ServiceKit<R, P, C>,
}

impl<'a, D, R, P, C> Front<'a, D, R, P, C> {
    pub fn new(doors: &'a mut D, kit: &'a mut ServiceKit<R, P, C>) -> Front<'a, D, R, P, C>
        ensures same_doors { result.doors.ghost_name ≡ doors.entry.ghost_name }
        ensures same_kit { result.kit.ghost_name ≡ kit.entry.ghost_name }
        ensures doors { result.doors.now ≡ doors.old }
        ensures kit { result.kit.now ≡ kit.old }
    {
        Front { doors, kit }
    }
}

/// A listener that tends services after each connection that another one gives.
#[derive(Drop)]
pub struct TendedDoors<'a, D: Listener, R: Running, P: Paths, C: Clock, N: Season> {
    doors: &'a mut D,
    kit: &'a mut ServiceKit<R, P, C>,
    services: Services,
    of: PhantomData<N>,
    pub ghost same_doors: { doors.ghost_name ≡ N.doors },
    pub ghost same_kit: { kit.ghost_name ≡ N.kit },
    pub ghost counted: { N.faults ≤ D.faults doors.now },
    pub ghost tended: { ∥ Tends N.book N.told N.given services (services_told R.calls P.calls C.to_come R.faults P.faults kit.now)
        (D.given doors.now) ∥₁ },
}

#[tactic(auto, using(crate::proofs::Rounds::first_round, crate::proofs::Rounds::next_round, crate::proofs::Rounds::same_rounds))]
impl<'a, D: Listener, R: Running, P: Paths, C: Clock, N: Season> TendedDoors<'a, D, R, P, C, N> {
    /// Tends the services once.
    pub fn new(front: Front<'a, D, R, P, C>, services: Services) -> TendedDoors<'a, D, R, P, C, N>
        requires doors { front.doors.ghost_name ≡ N.doors }
        requires kit { front.kit.ghost_name ≡ N.kit }
        requires book { services ≡ N.book }
        requires told { services_told R.calls P.calls C.to_come R.faults P.faults front.kit.now ≡ N.told }
        requires given { D.given front.doors.now ≡ N.given }
        requires faults { D.faults front.doors.now ≡ N.faults }
        ensures given { D.given result.doors.now ≡ N.given }
        ensures faults { D.faults result.doors.now ≡ N.faults }
    {
        let Front { doors, kit } = front;
        let mut services = services;
        tend(&mut services, kit);
        TendedDoors {
            doors,
            kit,
            services,
            of: PhantomData,
        }
    }

    /// The listener, the devices and the services.
    pub fn end(self) -> (Front<'a, D, R, P, C>, Services)
        ensures same_doors { result.0.doors.ghost_name ≡ N.doors }
        ensures same_kit { result.0.kit.ghost_name ≡ N.kit }
        ensures doors { result.0.doors.now ≡ self.entry.doors.now }
        ensures tended { ∥ Tends N.book N.told N.given result.1
            (services_told R.calls P.calls C.to_come R.faults P.faults result.0.kit.now) (D.given result.0.doors.now) ∥₁ }
    {
        let TendedDoors {
            doors,
            kit,
            services,
            of: _,
        } = self;
        (Front { doors, kit }, services)
    }
}

#[tactic(auto, using(crate::proofs::Rounds::next_round, crate::proofs::Rounds::same_rounds))]
impl<'a, D: Listener, R: Running, P: Paths, C: Clock, N: Season> Listener
    for TendedDoors<'a, D, R, P, C, N> {
    type In = D::In;

    type Out = D::Out;

    ghost are_sides = { D.are_sides };

    ghost given = { λ t. D.given t.doors.now };

    ghost faults = { λ t. D.faults t.doors.now };

    fn accept(&mut self) -> Result<(D::In, D::Out), Failed> {
        let TendedDoors {
            doors,
            kit,
            services,
            of: _,
        } = self;
        let connection = doors.accept()?;
        tend(services, kit);
        Ok(connection)
    }
}

/// A round at the clock's next moment.
fn tend<R: Running, P: Paths, C: Clock>(services: &mut Services, kit: &mut ServiceKit<R, P, C>)
    ensures { OneRound services.old (services_told R.calls P.calls C.to_come R.faults P.faults kit.old)
        services.new (services_told R.calls P.calls C.to_come R.faults P.faults kit.new) }
{
    let now = kit.clock.now();
    services.tend(now, &mut kit.running, &mut kit.paths);
}

/// Stops the services at the end. Tells how many may run still.
pub fn halt<R: Running, P: Paths, C: Clock>(
    services: &mut Services,
    kit: &mut ServiceKit<R, P, C>,
) -> u32
    ensures halts { Halts services.old (services_told R.calls P.calls C.to_come R.faults P.faults kit.old)
        services.new (services_told R.calls P.calls C.to_come R.faults P.faults kit.new) result }
{
    services.stop_all(&mut kit.running, &mut kit.paths)
}
