//! How a command ended.
ghost use Rattle.std.specs.Prelude.{◌≡◌};
ghost use Rattle.hub_main.specs.Ends as spec;

use crate::cause::Cause;
use http_wire::error::SessionFault;
use hub_run::Served;

/// How the connection of a session ended, or why there was none.
pub type End = Result<Result<Served, SessionFault>, Cause>;

/// The exit status of a connection: 0 where it was served to its end, 10 where the input ended inside a request, and 5 and 6 for a
/// fault of the input and of the output.
fn served_status(served: &Result<Served, SessionFault>) -> u8
    ensures { result ≡ spec.served_status served.now }
{
    match served {
        Ok(Served::Ended(_)) | Ok(Served::Closed(_)) => 0,
        Ok(Served::Cut(_)) => 10,
        Err(SessionFault::ReadFault(_)) => 5,
        Err(SessionFault::WriteFault(_)) => 6,
    }
}

/// The exit status.
pub(crate) fn status_of(end: &End) -> u8
    ensures { result ≡ spec.status_of end.now }
{
    match end {
        Ok(served) => served_status(served),
        Err(cause) => cause.status(),
    }
}
