//! The status that the end of a command over a record gives.

ghost use Rattle.std.specs.Prelude.{◌≡◌};
ghost use Rattle.mj_checking.specs.Statuses.{replay_status};

use crate::replay::ReplayEnd;
use mj_runs::Status;

/// The status that the end of a command gives that reads a record.
pub fn status_of_replay(end: ReplayEnd) -> Status
    ensures { result ≡ replay_status end }
{
    match end {
        ReplayEnd::Written => Status::Done,
        ReplayEnd::Bad(line, cause) => Status::BadRecord(line, cause),
        ReplayEnd::WriteFault => Status::WriteFault,
        ReplayEnd::ReadFault => Status::ReadFault,
        ReplayEnd::TooLong => Status::TooLong,
        ReplayEnd::NoMemory => Status::NoMemory,
    }
}
