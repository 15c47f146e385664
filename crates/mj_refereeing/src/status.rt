//! The statuses that the ends of the commands over arrivals give.

ghost use Rattle.std.specs.Prelude.{◌≡◌};
ghost use Rattle.mj_refereeing.specs.Statuses.{referee_status, keep_status};

use crate::intake::End;
use crate::keep::KeepEnd;
use crate::referee::RefereeEnd;
use mj_runs::Status;

/// The status that the end of the referee gives, and of the command `safe`.
pub fn status_of_referee(end: RefereeEnd) -> Status
    ensures { result ≡ referee_status end }
{
    match end {
        RefereeEnd::Told(End::Whole) => Status::Done,
        RefereeEnd::Told(End::Bad(line)) => Status::BadArrival(line),
        RefereeEnd::WriteFault => Status::WriteFault,
        RefereeEnd::ReadFault => Status::ReadFault,
        RefereeEnd::TooLong => Status::TooLong,
        RefereeEnd::NoMemory => Status::NoMemory,
    }
}

/// The status that the end of the command `keep` gives.
pub fn status_of_keep(end: KeepEnd) -> Status
    ensures { result ≡ keep_status end }
{
    match end {
        KeepEnd::Told(End::Whole) => Status::Done,
        KeepEnd::Told(End::Bad(line)) => Status::BadArrival(line),
        KeepEnd::WriteFault => Status::WriteFault,
        KeepEnd::DiskFault => Status::DiskFault,
        KeepEnd::OtherGame => Status::OtherGame,
        KeepEnd::BadJournal(place) => Status::BadJournal(place),
        KeepEnd::ReadFault => Status::ReadFault,
        KeepEnd::TooLong => Status::TooLong,
        KeepEnd::NoMemory => Status::NoMemory,
    }
}
