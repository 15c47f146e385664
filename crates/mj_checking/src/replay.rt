//! The command `replay`: the input read whole, and what its record comes to written.

ghost use Rattle.mj_replay.specs.Checks.{summary_said};
ghost use Rattle.mj_checking.specs.Replay.{Replays, TakesInput, IsSummed};
ghost use Rattle.mj_checking.specs.Inner.Replaying.{WritesSummary};
ghost use Rattle.mj_checking.specs.Statuses.{replay_status};
ghost use Rattle.mj_runs.specs.Faults.{CountsReadFaults, CountsWriteFaults};

use mj_links::{ReadAll, Sink, Source, WriteAll, read_all, write_all};
use mj_replay::{Cause, Checked, Summary, check};
use mj_runs::{LONGEST, result_lines, with_room};
use std::alloc::Global;

/// How a command ends that reads a record: `replay` and `observe`.
#[derive(Clone, Copy)]
pub enum ReplayEnd {
    /// The input is a record, and what the command says of it is written.
    Written,
    /// The input is no record: the line, counted from 1, is the first that breaks its form, by this cause. Nothing is written.
    Bad(u32, Cause),
    /// A write failed. A part of what was to be is written.
    WriteFault,
    /// A read failed. Nothing is written.
    ReadFault,
    /// The input has more than 67,108,864 bytes. Nothing is written.
    TooLong,
    /// Memory was wanting. Nothing is written.
    NoMemory,
}

/// Reads the whole input and writes what its record comes to.
#[tactic(auto, using(crate::proofs::ReplayLaws::replayed))]
pub fn replay_of<S: Source, K: Sink>(alloc: Global, source: &mut S, sink: &mut K) -> ReplayEnd
    ensures run { Replays result (S.left source.old) (S.left source.new) (K.written sink.old)
        (K.written sink.new) }
    ensures reads { CountsReadFaults (replay_status result) (S.read_faults source.old)
        (S.read_faults source.new) }
    ensures writes { CountsWriteFaults (replay_status result) (K.write_faults sink.old)
        (K.write_faults sink.new) }
{
    let mut input = with_room(alloc);
    match read_all(source, LONGEST, &mut input) {
        ReadAll::Whole => replay(alloc, input.as_slice(), sink),
        ReadAll::Fault => ReplayEnd::ReadFault,
        ReadAll::TooLong => ReplayEnd::TooLong,
        ReadAll::NoMemory => ReplayEnd::NoMemory,
    }
}

// Writes what the record of an input comes to.
#[tactic(auto, using(crate::proofs::ReplayLaws::summed))]
fn replay<K: Sink>(alloc: Global, input: &[u8], sink: &mut K) -> ReplayEnd
    ensures tells { TakesInput IsSummed result input.now (K.written sink.old)
        (K.written sink.new) }
    ensures writes { CountsWriteFaults (replay_status result) (K.write_faults sink.old)
        (K.write_faults sink.new) }
{
    match check(alloc, input) {
        Checked::Good(summary) => write_summary(alloc, &summary, sink),
        Checked::Bad(line, cause) => ReplayEnd::Bad(line, cause),
        Checked::NoMemory => ReplayEnd::NoMemory,
    }
}

// Writes the lines of a summary.
fn write_summary<K: Sink>(alloc: Global, summary: &Summary, sink: &mut K) -> ReplayEnd
    ensures tells { WritesSummary result (summary_said summary.now) (K.written sink.old)
        (K.written sink.new) }
    ensures writes { CountsWriteFaults (replay_status result) (K.write_faults sink.old)
        (K.write_faults sink.new) }
{
    let Ok(text) = result_lines(alloc, summary.deeds, summary.points, summary.deposits) else {
        return ReplayEnd::NoMemory;
    };
    match write_all(sink, text.as_slice()) {
        WriteAll::Whole => ReplayEnd::Written,
        WriteAll::Failed => ReplayEnd::WriteFault,
    }
}
