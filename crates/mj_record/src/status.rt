//! The status that the end of the command `record` gives.

ghost use Rattle.std.specs.Prelude.{◌≡◌};
ghost use Rattle.mj_record.specs.Statuses.{record_status};

use crate::journal::RecordEnd;
use mj_runs::Status;

/// The status that the end of the command `record` gives.
pub fn status_of_record(end: RecordEnd) -> Status
    ensures { result ≡ record_status end }
{
    match end {
        RecordEnd::Written => Status::Done,
        RecordEnd::Bad(place) => Status::BadJournal(place),
        RecordEnd::WriteFault => Status::WriteFault,
        RecordEnd::ReadFault => Status::ReadFault,
        RecordEnd::TooLong => Status::TooLong,
        RecordEnd::NoMemory => Status::NoMemory,
    }
}
