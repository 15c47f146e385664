//! The status that the end of a command over a host gives.

ghost use Rattle.std.specs.Prelude.{◌≡◌};
ghost use Rattle.mj_hosting.specs.Statuses.{serve_status};

use crate::plays::ServeEnd;
use mj_runs::Status;

/// The status that the end of the commands `serve` and `tables` gives.
pub fn status_of_serve(end: ServeEnd) -> Status
    ensures { result ≡ serve_status end }
{
    match end {
        ServeEnd::Over => Status::Done,
        ServeEnd::HostLost => Status::HostFault,
        ServeEnd::NotOpened => Status::HostFault,
        ServeEnd::WriteFault => Status::WriteFault,
        ServeEnd::NoMemory => Status::NoMemory,
    }
}
