//! A hub that is asked.
ghost use Rattle.std.specs.Prelude.{◌≡◌, ◌≤◌, ℕ, List, [], ◌∷◌, Option, Result, IfErr};
ghost use Rattle.hub_devices.specs.Calls.{Grows};
ghost use Rattle.hub_devices.specs.Faults.{Rises};
ghost use Rattle.hub_devices.specs.declared.link_error.LinkError.{LinkError};
ghost use Rattle.hub_devices.specs.declared.link_error.LinkError.TheVariants as Link;
ghost use Rattle.hub_link.specs.Links.{reply_of};

use hub_devices::link_error::LinkError;
use hub_kit::bytes::Bytes;

/// Asks a hub: one request, one reply. Nothing is supposed of the bytes that come back.
pub trait HubLink {
    /// The requests, each with the reply to it if one was given, where it tells them.
    ghost asked: { Self → Option (List (List ℕ × Option (List ℕ))) };

    /// How often it has failed.
    ghost faults: { Self → ℕ };

    /// What one ask does: the link before it, the request, what was given, and the link after it.
    ghost does: { Self → List ℕ → Result (List ℕ) LinkError → Self → Type 0 };

    fn ask(&mut self, request: &Bytes) -> Result<Bytes, LinkError>
        ensures asked { Grows (asked self.old) ((request.now, reply_of result) ∷ []) (asked self.new) }
        ensures does { does self.old request.now result self.new }
        ensures counted { faults self.old ≤ faults self.new }
        ensures cause { IfErr result (λ e. e ≡ Link.Failed → Rises (faults self.old) (faults self.new)) };
}
