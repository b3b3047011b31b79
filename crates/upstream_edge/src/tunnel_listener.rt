//! A listener whose connections may become tunnels.
ghost use Rattle.std.specs.Prelude.{◌≡◌, ◌≤◌, Some, IfOk};
ghost use Rattle.hub_devices.specs.FailingCalls.{one_more};

use crate::sides::{CallerSource, TunnelSink};
use carries::Addressed;
use hub_devices::listener::Listener;
use hub_devices::source::Failed;
use hub_edge::listener::SocketListener;
use hub_kit::text::Text;
use std::io;

/// A listener of connections whose sending side can be shut. Each is for one request. It gives no more than a number can count.
pub struct TunnelListener {
    listener: SocketListener,
    address: Text,
    /// How many connections it has given, and so the number of the next one.
    given: u64,
    faults: u64,
}

impl Drop for TunnelListener {
    fn drop(self) {
        let TunnelListener {
            listener: _,
            address: _,
            given: _,
            faults: _,
        } = self;
    }
}

impl TunnelListener {
    /// Listens at `HOST:PORT`.
    pub fn bind(rt: HostRuntime, address: &Text) -> io::Result<TunnelListener>
        ensures faults { IfOk result (λ listener. ⟦<TunnelListener as Listener>⟧.faults listener ≡ 0) }
        ensures given { IfOk result (λ listener. ⟦<TunnelListener as Listener>⟧.given listener ≡ Some 0) }
        ensures address { IfOk result (λ listener. ⟦<TunnelListener as Addressed>⟧.address listener ≡ address.now) }
    {
        let address = address.copy(rt.alloc())?;
        Ok(TunnelListener {
            listener: SocketListener::bind(rt, address.as_str())?,
            address,
            given: 0,
            faults: 0,
        })
    }

    /// Counts a fault. The count stands still at the greatest `u64`.
    fn fail(&mut self) -> Failed
        ensures counted { self.new.faults ≡ one_more self.old.faults }
        ensures kept { self.old.faults ≤ self.new.faults }
        ensures given { self.new.given ≡ self.old.given }
    {
        self.faults = self.faults.saturating_add(1);
        Failed
    }
}

impl Addressed for TunnelListener {
    ghost address = { λ l. l.address };
}

impl Listener for TunnelListener {
    type In = CallerSource;

    type Out = TunnelSink;

    ghost are_sides = { λ input output. input.number ≡ output.number };

    ghost given = { λ l. Some l.given };

    ghost faults = { λ l. l.faults };

    fn accept(&mut self) -> Result<(CallerSource, TunnelSink), Failed> {
        let number = self.given;
        if number == u64::MAX {
            return Err(self.fail());
        }
        match self.listener.accept() {
            Ok((input, output)) => {
                self.given = number + 1;
                let input = CallerSource::new(input, number);
                Ok((input, TunnelSink::of_caller(output, number)))
            }
            Err(_) => Err(self.fail()),
        }
    }
}
