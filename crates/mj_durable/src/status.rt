//! The status that the end of the command `host` gives.

ghost use Rattle.std.specs.Prelude.{◌≡◌};
ghost use Rattle.mj_durable.specs.Statuses.{host_status};

use crate::hosting::HostEnd;
use mj_runs::Status;

/// The status that the end of the command `host` gives.
pub fn status_of_host(end: HostEnd) -> Status
    ensures { result ≡ host_status end }
{
    match end {
        HostEnd::Over => Status::Done,
        HostEnd::HostLost => Status::HostFault,
        HostEnd::NotOpened => Status::HostFault,
        HostEnd::WriteFault => Status::WriteFault,
        HostEnd::DiskFault => Status::DiskFault,
        HostEnd::OtherGame => Status::OtherGame,
        HostEnd::BadJournal(place) => Status::BadJournal(place),
        HostEnd::NoMemory => Status::NoMemory,
    }
}
