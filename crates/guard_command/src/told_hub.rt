//! A hub behind a socket, which tells its target.
ghost use Rattle.std.specs.Prelude.{◌≡◌, IfOk};

use carries::Addressed;
use hub_devices::link_error::LinkError;
use hub_kit::bytes::Bytes;
use hub_kit::target::Target;
use hub_link::link::HubLink;
use link_edge::hub::SocketHub;
use link_edge::limits::REPLY_SECONDS;
use std::alloc::AllocError;
use std::time::Duration;

/// The link to the hub at a target.
pub(crate) struct ToldHub {
    link: SocketHub,
    target: Target,
}

impl Drop for ToldHub {
    fn drop(self) {
        let ToldHub { link: _, target: _ } = self;
    }
}

impl ToldHub {
    /// Asks nothing yet.
    pub(crate) fn new(rt: HostRuntime, target: &Target) -> Result<ToldHub, AllocError>
        ensures { IfOk result (λ hub. ⟦<ToldHub as Addressed>⟧.address hub ≡ target.now) }
    {
        let limit = Duration::from_secs(REPLY_SECONDS);
        let target = target.copy(rt.alloc())?;
        Ok(ToldHub {
            link: SocketHub::new(rt, target.copy(rt.alloc())?, limit),
            target,
        })
    }
}

impl Addressed for ToldHub {
    ghost address = { λ h. h.target };
}

impl HubLink for ToldHub {
    ghost asked = { λ h. ⟦<SocketHub as HubLink>⟧.asked h.link };

    ghost faults = { λ h. ⟦<SocketHub as HubLink>⟧.faults h.link };

    ghost does = { λ before request given after. ⟦<SocketHub as HubLink>⟧.does before.link request given after.link };

    fn ask(&mut self, request: &Bytes) -> Result<Bytes, LinkError> {
        self.link.ask(request)
    }
}
