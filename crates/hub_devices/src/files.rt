//! Where files are read.
ghost use Rattle.std.specs.Prelude.{◌≡◌, ℕ, ◌≤◌, List, Option, IfOk, IfErr};
ghost use Rattle.hub_devices.specs.Faults.{Rises};
ghost use Rattle.hub_devices.specs.NamedFiles.{Reads};
ghost use Rattle.hub_devices.specs.declared.link_error.LinkError.TheVariants as Link;

use crate::link_error::LinkError;
use hub_kit::bytes::Bytes;
use hub_kit::text::Text;

/// Where files are read.
pub trait Files {
    /// The files, each with its name and its bytes, where it tells them.
    ghost files: { Self → Option (List (List ℕ × List ℕ)) };

    /// How often it has failed.
    ghost faults: { Self → ℕ };

    /// The bytes of a named file, or the first `most` + 1 of a longer one.
    fn text(&mut self, name: &Text, most: usize) -> Result<Bytes, LinkError>
        ensures reads { IfOk result (Reads (files self.old) name.now most) }
        ensures kept { files self.new ≡ files self.old }
        ensures counted { faults self.old ≤ faults self.new }
        ensures cause { IfErr result (λ e. e ≡ Link.Failed → Rises (faults self.old) (faults self.new)) };
}
