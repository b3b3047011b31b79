//! Routes and refusals.
ghost use Rattle.std.specs.Prelude.{◌≡◌, IfOk};
ghost use Rattle.route_table.specs.Table.{is_idle_since};

use crate::extra::Extra;
use hub_kit::moment::Moment;
use hub_kit::target::Target;
use hub_kit::text::Text;
use std::alloc::{AllocError, Global};

/// What is kept of a route.
pub struct RouteEntry {
    pub target: Target,
    pub serial: Option<u64>,
    pub extra: Extra,
}

impl Drop for RouteEntry {
    fn drop(self) {
        let RouteEntry {
            target: _,
            serial: _,
            extra: _,
        } = self;
    }
}

impl RouteEntry {
    /// Another entry of the same parts.
    pub fn copy(&self, alloc: Global) -> Result<RouteEntry, AllocError>
        ensures { IfOk result (λ entry. entry ≡ self.now) }
    {
        Ok(RouteEntry {
            target: self.target.copy(alloc)?,
            serial: self.serial,
            extra: self.extra.copy(alloc)?,
        })
    }
}

/// A route of the table.
pub struct Route {
    pub path: Text,
    pub entry: RouteEntry,
    pub last_activity: Moment,
}

impl Drop for Route {
    fn drop(self) {
        let Route {
            path: _,
            entry: _,
            last_activity: _,
        } = self;
    }
}

impl Route {
    /// Another route of the same parts.
    pub fn copy(&self, alloc: Global) -> Result<Route, AllocError>
        ensures { IfOk result (λ route. route ≡ self.now) }
    {
        Ok(Route {
            path: self.path.copy(alloc)?,
            entry: self.entry.copy(alloc)?,
            last_activity: self.last_activity,
        })
    }

    /// Whether it was last used before a moment, if one is asked for.
    pub(crate) fn is_idle_since(&self, since: &Option<Moment>) -> bool
        ensures { result ≡ is_idle_since since.now self.now }
    {
        match since {
            Some(since) => self.last_activity.seconds() < since.seconds(),
            None => true,
        }
    }
}

/// Why a call of the table is refused.
#[derive(Clone, Copy, Debug, PartialEq, Eq, Drop)]
pub enum RouteRefusal {
    NotFound,
    Stale { given: u64, seen: u64 },
    BadPath(usize),
    BadTarget,
    Full(u32),
    Memory,
}
