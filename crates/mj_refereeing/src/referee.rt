//! The commands `referee` and `safe`: the input read whole, and what is asked of its game for a seat written.

ghost use Rattle.std.specs.Prelude.{◌≤◌, length};
ghost use Rattle.mj_runs.specs.Inputs.{longest};
ghost use Rattle.mj_refereeing.specs.Referee.{Referees};
ghost use Rattle.mj_refereeing.specs.Questions.{said_by};
ghost use Rattle.mj_refereeing.specs.Inner.Refereeing.{RefereesInput};
ghost use Rattle.mj_refereeing.specs.Statuses.{referee_status};
ghost use Rattle.mj_runs.specs.Faults.{CountsReadFaults, CountsWriteFaults};

use crate::intake::{End, Question, take_in};
use mj_links::{ReadAll, Sink, Source, WriteAll, read_all, write_all};
use mj_runs::{LONGEST, with_room};
use std::alloc::Global;

/// How the commands `referee` and `safe` end.
#[derive(Clone, Copy)]
pub enum RefereeEnd {
    /// The input was read and ends so, and what is asked of its game is written.
    Told(End),
    /// A write failed. A part of what was asked is written.
    WriteFault,
    /// A read failed. Nothing is written.
    ReadFault,
    /// The input has more than 67,108,864 bytes. Nothing is written.
    TooLong,
    /// Memory was wanting. Nothing is written.
    NoMemory,
}

/// Reads the whole input and writes what is asked of its game for a seat, 0 to 3.
pub fn referee_of<S: Source, K: Sink>(
    alloc: Global,
    question: Question,
    seat: u8,
    source: &mut S,
    sink: &mut K,
) -> RefereeEnd
    requires { seat ≤ 3 }
    ensures run { Referees (said_by question) result seat (S.left source.old) (S.left source.new) (K.written sink.old)
        (K.written sink.new) }
    ensures reads { CountsReadFaults (referee_status result) (S.read_faults source.old)
        (S.read_faults source.new) }
    ensures writes { CountsWriteFaults (referee_status result) (K.write_faults sink.old)
        (K.write_faults sink.new) }
{
    let mut input = with_room(alloc);
    match read_all(source, LONGEST, &mut input) {
        ReadAll::Whole => referee(alloc, question, seat, input.as_slice(), sink),
        ReadAll::Fault => RefereeEnd::ReadFault,
        ReadAll::TooLong => RefereeEnd::TooLong,
        ReadAll::NoMemory => RefereeEnd::NoMemory,
    }
}

// Writes what is asked of the game of an input for a seat.
fn referee<K: Sink>(
    alloc: Global,
    question: Question,
    seat: u8,
    input: &[u8],
    sink: &mut K,
) -> RefereeEnd
    requires fits { length input.now ≤ longest }
    requires seat { seat ≤ 3 }
    ensures tells { RefereesInput (said_by question) result seat input.now (K.written sink.old) (K.written sink.new) }
    ensures writes { CountsWriteFaults (referee_status result) (K.write_faults sink.old)
        (K.write_faults sink.new) }
{
    let Ok(told) = take_in(alloc, question, seat, input) else {
        return RefereeEnd::NoMemory;
    };
    match write_all(sink, told.bytes.as_slice()) {
        WriteAll::Whole => RefereeEnd::Told(told.end),
        WriteAll::Failed => RefereeEnd::WriteFault,
    }
}
