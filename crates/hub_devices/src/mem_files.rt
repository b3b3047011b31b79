//! Files in memory.
ghost use Rattle.std.specs.Prelude.{◌≡◌, ◌≤◌, ◌+◌, ◌||◌, not, take, Some, true, IfOk, IfErr, is_some};
ghost use Rattle.std.specs.Option.{option_copied};
ghost use Rattle.hub_devices.specs.Calls.{is_fault};
ghost use Rattle.hub_devices.specs.FailingCalls.{is_failing, after_call, new_script};
ghost use Rattle.hub_devices.specs.Faults.{Rises};
ghost use Rattle.hub_devices.specs.NamedFiles.{Reads, file_of};
ghost use Rattle.hub_devices.specs.declared.link_error.LinkError.TheVariants as Link;

use crate::failing_calls::FailingCalls;
use crate::files::Files;
use crate::link_error::LinkError;
use hub_kit::bytes::Bytes;
use hub_kit::text::Text;
use std::alloc::Global;

/// Gives the bytes of its files, of equal names the first. It fails at the calls that `failing` numbers, the first call
/// being 0, and on a name that it doesn't have.
pub struct MemFiles {
    alloc: Global,
    files: Vec<(Text, Bytes)>,
    script: FailingCalls,
}

impl Drop for MemFiles {
    fn drop(self) {
        let MemFiles {
            alloc: _,
            files: _,
            script: _,
        } = self;
    }
}

impl MemFiles {
    pub fn new(alloc: Global, files: Vec<(Text, Bytes)>, failing: Vec<u64>) -> MemFiles
        ensures files { ⟦<MemFiles as Files>⟧.files result ≡ Some files.items }
        ensures script { result.script ≡ new_script failing.items }
    {
        MemFiles {
            alloc,
            files,
            script: FailingCalls::new(failing),
        }
    }
}

/// The bytes of the file of a name.
fn find_file<'a>(files: &'a [(Text, Bytes)], name: &Text) -> Option<&'a [u8]>
    ensures { option_copied result ≡ file_of files.now name.now }
{
    for (other, bytes) in files {
        if other == name {
            return Some(bytes.as_slice());
        }
    }
    None
}

/// The bytes, or the first `most` + 1 of more.
fn cut_to(bytes: &[u8], most: usize) -> &[u8]
    ensures { result.now ≡ take (most + 1) bytes.now }
{
    if bytes.len() > most {
        &bytes[..most + 1]
    } else {
        bytes
    }
}

impl Files for MemFiles {
    ghost files = { λ f. Some f.files.items };

    ghost faults = { λ f. f.script.faults };

    fn text(&mut self, name: &Text, most: usize) -> Result<Bytes, LinkError>
        ensures reads { IfOk result (Reads (Some self.old.files.items) name.now most) }
        ensures kept { Some self.new.files.items ≡ Some self.old.files.items }
        ensures counted { self.old.script.faults ≤ self.new.script.faults }
        ensures cause { IfErr result (λ e. e ≡ Link.Failed → Rises self.old.script.faults self.new.script.faults) }
        ensures fails { is_fault result ≡ (is_failing self.old.script || not (is_some (file_of self.old.files.items name.now))) }
        ensures script { self.new.script ≡ after_call self.old.script (is_fault result) }
    {
        if self.script.next() {
            return Err(LinkError::Failed);
        }
        let Some(bytes) = find_file(self.files.as_slice(), name) else {
            self.script.fail();
            return Err(LinkError::Failed);
        };
        match Bytes::from_slice(self.alloc, cut_to(bytes, most)) {
            Ok(bytes) => Ok(bytes),
            Err(_) => Err(LinkError::Memory),
        }
    }
}
