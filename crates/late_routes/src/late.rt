//! A route link in memory whose messages may be lost or late.
ghost use Rattle.std.specs.Prelude.{◌≡◌, ◌≤◌, ◌<◌, ◌+◌, ◌^◌, ℕ, List, [], ◌∷◌, ◌++◌, map, length, Some, None, true, false, is_ok, is_err};
ghost use Rattle.std.specs.Prelude.{IsErr, IsSome, IfOk, IfErr, OnOk, OnErr};
ghost use Rattle.hub_devices.specs.Calls.{Grows, told_unit, told_error, is_fault};
ghost use Rattle.hub_devices.specs.FailingCalls.{new_script, one_more};
ghost use Rattle.hub_devices.specs.Faults.{Rises};
ghost use Rattle.hub_devices.specs.declared.calls.Routing.{Routing};
ghost use Rattle.hub_devices.specs.declared.calls.Routing.TheVariants as Route;
ghost use Rattle.hub_devices.specs.declared.calls.Told.{Told};
ghost use Rattle.hub_devices.specs.declared.calls.Told.TheVariants.{Listed};
ghost use Rattle.hub_devices.specs.declared.link_error.LinkError.TheVariants as Link;
ghost use Rattle.route_table.specs.Table.{Table, routes_in};
ghost use Rattle.std.specs.FinMap.{empty};
ghost use Rattle.late_routes.specs.Arrivals.{Arrived, Goes, Sends, listed_of, any};
ghost use Rattle.late_routes.specs.Plans.{plan_at, due_of};

use crate::arrival::{arrive, arrive_at, arrive_due, is_done};
use crate::plan::{LatePlan, Outstanding, due_of, plan_at};
use hub_devices::call_log::CallLog;
use hub_devices::calls::{ListedRoute, Routing, Told};
use hub_devices::link_error::LinkError;
use hub_devices::route_link::RouteLink;
use hub_devices::source::Failed;
use hub_kit::list::List;
use hub_kit::moment::Moment;
use hub_kit::target::Target;
use hub_kit::text::Text;
use route_table::route::Route as TableRoute;
use route_table::routes::Routes;
use std::alloc::{AllocError, Global};

/// A table of routes, and the messages on their way to it. The first calls of `add` and `delete` go by their plans, and later ones are
/// done. A call that finds no memory is told as failed, and no call is told from then on.
pub struct LateRoutes {
    alloc: Global,
    table: Routes,
    plans: Vec<LatePlan>,
    outstanding: Vec<Outstanding>,
    made: u64,
    log: CallLog<Routing, Told>,
    ghost few: { length outstanding.items ≤ length plans.items },
    ghost planned: { length plans.items < 2 ^ 32 },
    ghost sent: { length outstanding.items ≤ made },
}

impl Drop for LateRoutes {
    fn drop(self) {
        let LateRoutes {
            alloc: _,
            table: _,
            plans: _,
            outstanding: _,
            made: _,
            log: _,
        } = self;
    }
}

impl LateRoutes {
    /// A table without routes, for so many paths.
    pub fn new(alloc: Global, limit: u32, plans: Vec<LatePlan>) -> LateRoutes
        requires { length plans.items < 2 ^ 32 }
        ensures rows { result.table.rows ≡ empty }
        ensures limit { result.table.limit ≡ limit }
        ensures plans { result.plans.items ≡ plans.items }
        ensures outstanding { result.outstanding.items ≡ [] }
        ensures calls { ⟦<LateRoutes as RouteLink>⟧.calls result ≡ Some [] }
        ensures made { result.made ≡ 0 }
        ensures script { result.log.script ≡ new_script [] }
    {
        LateRoutes {
            alloc,
            table: Routes::new(alloc, limit),
            plans,
            outstanding: Vec::new(alloc),
            made: 0,
            log: CallLog::new(alloc, Vec::new(alloc)),
        }
    }

    /// All messages that are on their way arrive, in the order in which they were sent; it tells how many. Where memory is wanting, the
    /// message that wanted it and those after it are still on their way.
    pub fn deliver(&mut self, now: Moment) -> Result<u32, AllocError>
        ensures arrived { Arrived any now self.old.table self.old.outstanding.items self.new.table self.new.outstanding.items }
        ensures ok { IfOk result (λ count. (count ≡ length self.old.outstanding.items) × (self.new.outstanding.items ≡ [])) }
        ensures plans { self.new.plans.items ≡ self.old.plans.items }
        ensures made { self.new.made ≡ self.old.made }
        ensures log { self.new.log ≡ self.old.log }
    {
        let mut count = 0;
        'messages: while !self.outstanding.is_empty() {
            arrive_at(self.alloc, &mut self.table, &mut self.outstanding, 0, now)?;
            count += 1;
        }
        Ok(count)
    }

    /// The table, as the messages that arrived have left it.
    pub fn table(&self) -> &Routes
        ensures { result.now ≡ self.now.table }
    {
        &self.table
    }

    /// The call with this number goes as its plan says: whether it is told as done.
    fn follow(&mut self, number: u64, call: Routing) -> Result<bool, AllocError>
        requires counted { self.old.made ≡ one_more number }
        requires few { length self.old.outstanding.items ≤ number }
        ensures goes { IfOk result (λ done. Goes (plan_at self.old.plans.items number) number call
            self.old.table self.old.outstanding.items self.new.table self.new.outstanding.items done) }
        ensures plans { self.new.plans.items ≡ self.old.plans.items }
        ensures made { self.new.made ≡ self.old.made }
        ensures log { self.new.log ≡ self.old.log }
    {
        match plan_at(self.plans.as_slice(), number) {
            LatePlan::Done => {
                let answer = arrive(self.alloc, &mut self.table, &call, Moment::zero())?;
                Ok(is_done(&call, &answer))
            }
            LatePlan::Lost => Ok(false),
            LatePlan::Applied => {
                let _answer = arrive(self.alloc, &mut self.table, &call, Moment::zero())?;
                Ok(false)
            }
            LatePlan::Late(calls) => {
                let due = due_of(number, calls);
                self.outstanding.push(Outstanding { call, due })?;
                Ok(false)
            }
        }
    }

    /// A call goes, after the messages that are due.
    fn send(&mut self, call: Routing) -> Result<bool, AllocError>
        ensures sent { IfOk result (λ done. Sends self.old.plans.items self.old.made call
            self.old.table self.old.outstanding.items self.new.table self.new.outstanding.items done) }
        ensures plans { self.new.plans.items ≡ self.old.plans.items }
        ensures made { self.new.made ≡ one_more self.old.made }
        ensures log { self.new.log ≡ self.old.log }
    {
        let number = self.made;
        self.made = number.saturating_add(1);
        arrive_due(self.alloc, &mut self.table, &mut self.outstanding, number)?;
        self.follow(number, call)
    }

    /// The same of a call for which there was memory.
    fn try_send(&mut self, call: Result<Routing, AllocError>) -> Result<bool, AllocError>
        ensures sent { IfOk result (λ done. IfOk call (λ c. Sends self.old.plans.items self.old.made c
            self.old.table self.old.outstanding.items self.new.table self.new.outstanding.items done)) }
        ensures none { OnErr call (IsErr result) }
        ensures plans { self.new.plans.items ≡ self.old.plans.items }
        ensures made { self.new.made ≡ one_more self.old.made }
        ensures log { self.new.log ≡ self.old.log }
    {
        match call {
            Ok(call) => self.send(call),
            Err(error) => {
                self.made = self.made.saturating_add(1);
                Err(error)
            }
        }
    }

    /// What is told of a call: it is told as done where it went so.
    fn tell(
        &mut self,
        logged: Result<Routing, AllocError>,
        done: Result<bool, AllocError>,
    ) -> Result<(), Failed>
        ensures grows { IfOk logged (λ c. Grows self.old.log.calls ((c, told_unit result) ∷ []) self.new.log.calls) }
        ensures lost { OnErr logged (self.new.log.calls ≡ None) }
        ensures wanting { OnErr done (self.new.log.calls ≡ None) }
        ensures told { IfOk done (λ went. IsSome self.new.log.calls → is_ok result ≡ went) }
        ensures kept { self.new.table ≡ self.old.table }
        ensures messages { self.new.outstanding.items ≡ self.old.outstanding.items }
        ensures plans { self.new.plans.items ≡ self.old.plans.items }
        ensures made { self.new.made ≡ self.old.made }
        ensures counted { self.old.log.script.faults ≤ self.new.log.script.faults }
        ensures cause { OnErr result (Rises self.old.log.script.faults self.new.log.script.faults) }
    {
        let logged = match &done {
            Ok(_) => logged,
            Err(_) => Err(AllocError),
        };
        match done {
            Ok(true) => match self.log.tell(logged, Told::Done, Told::Failed) {
                Ok(()) => Ok(()),
                Err(failed) => {
                    self.log.calls = None;
                    Err(failed)
                }
            },
            _ => {
                self.log.refuse(logged, Told::Failed);
                Err(Failed)
            }
        }
    }
}

fn add_call(
    alloc: Global,
    path: &Text,
    target: &Target,
    serial: Option<u64>,
) -> Result<Routing, AllocError>
    ensures { IfOk result (λ call. call ≡ Route.Add path.now target.now serial) }
{
    Ok(Routing::Add(path.copy(alloc)?, target.copy(alloc)?, serial))
}

fn delete_call(alloc: Global, path: &Text, serial: u64) -> Result<Routing, AllocError>
    ensures { IfOk result (λ call. call ≡ Route.Delete path.now serial) }
{
    Ok(Routing::Delete(path.copy(alloc)?, serial))
}

/// The routes of a table as they are listed, twice: to be given and to be kept.
fn list_twice(
    alloc: Global,
    table: &Routes,
) -> Result<(Vec<ListedRoute>, Vec<ListedRoute>), AllocError>
    ensures listed { IfOk result (λ lists. lists.0.items ≡ map listed_of (routes_in table.now.rows)) }
    ensures same { IfOk result (λ lists. lists.1.items ≡ lists.0.items) }
{
    let routes = table.list(None)?;
    let listed = copies(alloc, routes.as_slice())?;
    let others = copies(alloc, routes.as_slice())?;
    Ok((listed, others))
}

fn copies(alloc: Global, routes: &[TableRoute]) -> Result<Vec<ListedRoute>, AllocError>
    ensures { IfOk result (λ copies. copies.items ≡ map listed_of routes.now) }
{
    let mut copies = Vec::new(alloc);
    'routes: for route in routes {
        copies.push(ListedRoute {
            path: route.path.copy(alloc)?,
            target: route.entry.target.as_text().copy(alloc)?,
            serial: route.entry.serial,
        })?;
    }
    Ok(copies)
}

impl RouteLink for LateRoutes {
    ghost calls = { λ l. l.log.calls };

    ghost faults = { λ l. l.log.script.faults };

    fn add(&mut self, path: &Text, target: &Target, serial: Option<u64>) -> Result<(), Failed>
        ensures calls { Grows self.old.log.calls ((Route.Add path.now target.now serial, told_unit result) ∷ []) self.new.log.calls }
        ensures counted { self.old.log.script.faults ≤ self.new.log.script.faults }
        ensures cause { OnErr result (Rises self.old.log.script.faults self.new.log.script.faults) }
        ensures sent { IsSome self.new.log.calls → Sends self.old.plans.items self.old.made (Route.Add path.now target.now serial)
            self.old.table self.old.outstanding.items self.new.table self.new.outstanding.items (is_ok result) }
        ensures plans { self.new.plans.items ≡ self.old.plans.items }
        ensures made { self.new.made ≡ one_more self.old.made }
    {
        let call = add_call(self.alloc, path, target, serial);
        let logged = add_call(self.alloc, path, target, serial);
        let done = self.try_send(call);
        self.tell(logged, done)
    }

    fn delete(&mut self, path: &Text, serial: u64) -> Result<(), Failed>
        ensures calls { Grows self.old.log.calls ((Route.Delete path.now serial, told_unit result) ∷ []) self.new.log.calls }
        ensures counted { self.old.log.script.faults ≤ self.new.log.script.faults }
        ensures cause { OnErr result (Rises self.old.log.script.faults self.new.log.script.faults) }
        ensures sent { IsSome self.new.log.calls → Sends self.old.plans.items self.old.made (Route.Delete path.now serial)
            self.old.table self.old.outstanding.items self.new.table self.new.outstanding.items (is_ok result) }
        ensures plans { self.new.plans.items ≡ self.old.plans.items }
        ensures made { self.new.made ≡ one_more self.old.made }
    {
        let call = delete_call(self.alloc, path, serial);
        let logged = delete_call(self.alloc, path, serial);
        let done = self.try_send(call);
        self.tell(logged, done)
    }

    /// Lists the routes of the table, in its order. No message arrives, and no plan is used up.
    fn list(&mut self) -> Result<Vec<ListedRoute>, LinkError>
        ensures calls { IfOk result (λ routes. Grows self.old.log.calls ((Route.List, Listed routes.items) ∷ []) self.new.log.calls) }
        ensures failed { IfErr result (λ e. Grows self.old.log.calls ((Route.List, told_error e) ∷ []) self.new.log.calls) }
        ensures counted { self.old.log.script.faults ≤ self.new.log.script.faults }
        ensures cause { IfErr result (λ e. e ≡ Link.Failed → Rises self.old.log.script.faults self.new.log.script.faults) }
        ensures listed { IfOk result (λ routes. routes.items ≡ map listed_of (routes_in self.old.table.rows)) }
        ensures few { IfErr result (λ e. e ≡ Link.Memory) }
        ensures unchanged { self.new.table ≡ self.old.table }
        ensures messages { self.new.outstanding.items ≡ self.old.outstanding.items }
        ensures plans { self.new.plans.items ≡ self.old.plans.items }
        ensures made { self.new.made ≡ self.old.made }
    {
        let Ok((routes, copies)) = list_twice(self.alloc, &self.table) else {
            self.log.keep(Ok(Routing::List), Told::NoMemory);
            return Err(LinkError::Memory);
        };
        if self
            .log
            .keep(Ok(Routing::List), Told::Listed(List::from_vec(copies)))
        {
            Ok(routes)
        } else {
            Err(LinkError::Memory)
        }
    }
}
