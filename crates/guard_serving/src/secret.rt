//! The secret by which browsers sign in.
ghost use Rattle.std.specs.Prelude.{◌≡◌, ◌≤◌, IfOk, IfErr};
ghost use Rattle.guard_serving.specs.Runs.{HasSecret, HasNoSecret};

use hub_devices::files::Files;
use hub_kit::text::Text;
use secret_files::{SecretError, read_secret_file};
use std::alloc::Global;

/// The secret in the file of this name, if one is named.
pub(crate) fn secret_of<F: Files>(
    alloc: Global,
    files: &mut F,
    name: &Option<Text>,
) -> Result<Option<Text>, SecretError>
    ensures ok { IfOk result (HasSecret (F.files files.old) name.now) }
    ensures err { IfErr result (HasNoSecret (F.files files.old) name.now (F.faults files.old) (F.faults files.new)) }
    ensures kept { F.files files.new ≡ F.files files.old }
    ensures counted { F.faults files.old ≤ F.faults files.new }
{
    match name {
        Some(name) => match read_secret_file(alloc, files, name) {
            Ok(secret) => Ok(Some(secret)),
            Err(error) => Err(error),
        },
        None => Ok(None),
    }
}
