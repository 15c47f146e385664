//! The command `hand`: the lines of a hand written to a sink.

ghost use Rattle.std.specs.Prelude.{map};
ghost use Rattle.std.specs.String.{string_bytes};
ghost use Rattle.mj_front.specs.Hand.{WritesHand};
ghost use Rattle.mj_front.specs.Statuses.{hand_status};
ghost use Rattle.mj_runs.specs.Faults.{CountsWriteFaults};

use mj_hand::hand_lines;
use mj_links::{Sink, WriteAll, write_all};
use std::alloc::Global;

/// How the command `hand` ends.
#[derive(Clone, Copy)]
pub(crate) enum HandLinesEnd {
    /// The lines of the hand are written.
    Written,
    /// The words name no hand. Nothing is written.
    NoHand,
    /// A write failed. A part of the lines is written.
    WriteFault,
    /// Memory was wanting. Nothing is written.
    NoMemory,
}

/// Writes the lines of the hand that the words name.
pub(crate) fn write_hand<K: Sink>(alloc: Global, words: &[String], sink: &mut K) -> HandLinesEnd
    ensures tells { WritesHand result (map string_bytes words.now) (K.written sink.old)
        (K.written sink.new) }
    ensures writes { CountsWriteFaults (hand_status result) (K.write_faults sink.old)
        (K.write_faults sink.new) }
{
    match hand_lines(alloc, words) {
        Ok(Some(text)) => match write_all(sink, text.as_slice()) {
            WriteAll::Whole => HandLinesEnd::Written,
            WriteAll::Failed => HandLinesEnd::WriteFault,
        },
        Ok(None) => HandLinesEnd::NoHand,
        Err(_) => HandLinesEnd::NoMemory,
    }
}
