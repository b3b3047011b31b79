//! The system's files.
ghost use Rattle.std.specs.Prelude.{◌≡◌, ℕ, None};

use hub_devices::files::Files;
use hub_devices::link_error::LinkError;
use hub_kit::bytes::Bytes;
use hub_kit::text::Text;
use std::fs::{File, Metadata};
use std::io::{ErrorKind, Read};
use std::os::unix::fs::MetadataExt;
use std::{fs, io};

/// Reads files of the system by their paths.
#[derive(Clone, Copy)]
pub struct SystemFiles {
    rt: HostRuntime,
    faults: u64,
    cause: Option<ErrorKind>,
}

impl SystemFiles {
    /// No file was read yet.
    pub fn new(rt: HostRuntime) -> SystemFiles
        ensures { ⟦<SystemFiles as Files>⟧.faults result ≡ 0 }
    {
        SystemFiles {
            rt,
            faults: 0,
            cause: None,
        }
    }

    /// Why the last file that failed wasn't read.
    pub fn cause(&self) -> Option<ErrorKind> {
        self.cause
    }
}

/// The bits of a mode that let the group and others read.
const READ_BY_OTHERS: u32 = 0o044;

/// Says on standard error that others may read a file, since what is read here has secrets, or is one.
fn warn(rt: &HostRuntime, path: &str, found: &Metadata) {
    if found.mode() & READ_BY_OTHERS != 0 {
        let _ = eprintln!(rt;
            "hub: others than its owner may read {path} and its secrets: chmod 600 {path}"
        );
    }
}

/// The bytes of a regular file, or the first `most` + 1 of a longer one. A pipe or a device is refused before it is opened,
/// since that may wait for ever.
fn read_file(rt: &HostRuntime, path: &str, most: usize) -> io::Result<Vec<u8>> {
    let found = fs::metadata(rt, path)?;
    if !found.is_file() {
        return Err(io::Error::from(ErrorKind::InvalidInput));
    }
    warn(rt, path, &found);
    let file = File::open(rt, path)?;
    let mut bytes = Vec::new(rt.alloc());
    file.take((most as u64).saturating_add(1))
        .read_to_end(&mut bytes)?;
    Ok(bytes)
}

impl Files for SystemFiles {
    ghost files = { λ _. None };

    ghost faults = { λ f. f.faults };

    fn text(&mut self, name: &Text, most: usize) -> Result<Bytes, LinkError> {
        match read_file(&self.rt, name.as_str(), most) {
            Ok(bytes) => Ok(Bytes::from_vec(bytes)),
            Err(error) => {
                if error.kind() == ErrorKind::OutOfMemory {
                    return Err(LinkError::Memory);
                }
                self.faults = self.faults.saturating_add(1);
                self.cause = Some(error.kind());
                Err(LinkError::Failed)
            }
        }
    }
}
