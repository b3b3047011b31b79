//! The buffers that requests pass through, one after the other.
ghost use Rattle.std.specs.Prelude.{◌≡◌, [], Some};

use crate::window::{Window, fill_window};
use http_wire::buffer::WireBuffer;
use hub_devices::source::{Failed, Source};
use std::alloc::Global;

/// A source that has ended.
#[derive(Drop)]
pub struct Ended;

impl Source for Ended {
    ghost left = { λ _. Some [] };

    ghost faults = { λ _. 0 };

    fn read(&mut self, _into: &mut [u8]) -> Result<usize, Failed> {
        Ok(0)
    }
}

/// The buffers of one connection at a time. A worker makes them once, so that a request takes no room of its own.
pub struct Rooms {
    /// What was read of the client and belongs to nothing yet.
    pub kept: WireBuffer,
    /// The request's body on its way.
    pub window: Window,
    /// The reply on its way.
    pub back: Window,
}

impl Drop for Rooms {
    fn drop(self) {
        let Rooms {
            kept: _,
            window: _,
            back: _,
        } = self;
    }
}

impl Rooms {
    /// They hold nothing.
    pub fn new(alloc: Global) -> Rooms
        ensures { result ≡ record { kept = []; window = []; back = [] } }
    {
        Rooms {
            kept: WireBuffer::new(alloc),
            window: Window::new(),
            back: Window::new(),
        }
    }

    /// Drops all that a request before has left. The memory stays.
    pub fn clear(&mut self)
        ensures { self.new ≡ record { kept = []; window = []; back = [] } }
    {
        self.back.clear();
        drain(&mut self.kept, &mut self.window);
    }
}

/// Takes what is kept through the window, and drops it.
fn drain(kept: &mut WireBuffer, window: &mut Window)
    ensures kept { kept.new ≡ [] }
    ensures window { window.new ≡ [] }
{
    'pieces: loop {
        window.clear();
        match fill_window(&mut Ended, kept, window) {
            Ok(0) => return,
            Ok(_) => {}
            // a source that has ended never fails
            Err(_) => return,
        }
    }
}
