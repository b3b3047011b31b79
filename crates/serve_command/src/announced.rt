//! The listener of the hub. It says where it listens when its first caller is awaited: the file and the rows were accepted by then.
ghost use Rattle.std.specs.Prelude.{◌≡◌, None, IfOk};

use crate::telling::{announce, announcement};
use hub_devices::listener::Listener;
use hub_devices::source::Failed;
use hub_edge::connection::{SocketSink, SocketSource};
use hub_edge::listener::SocketListener;
use hub_serving::plan::Plan;
use std::alloc::AllocError;

/// A listener with the line that is said once it is served.
pub(crate) struct Announced {
    rt: HostRuntime,
    listener: SocketListener,
    line: Option<String>,
}

impl Drop for Announced {
    fn drop(self) {
        let Announced {
            rt: _,
            listener: _,
            line: _,
        } = self;
    }
}

impl Announced {
    pub(crate) fn new(
        rt: HostRuntime,
        plan: &Plan,
        listener: SocketListener,
    ) -> Result<Announced, AllocError> {
        let line = announcement(rt.alloc(), plan, &listener)?;
        Ok(Announced {
            rt,
            listener,
            line: Some(line),
        })
    }
}

impl Listener for Announced {
    type In = SocketSource;

    type Out = SocketSink;

    ghost are_sides = { λ _ _. Unit };

    ghost given = { λ _. None };

    ghost faults = { λ a. ⟦<SocketListener as Listener>⟧.faults a.listener };

    fn accept(&mut self) -> Result<(SocketSource, SocketSink), Failed> {
        if let Some(line) = self.line.take() {
            announce(&self.rt, line.as_str());
            drop(line);
        }
        self.listener.accept()
    }
}
