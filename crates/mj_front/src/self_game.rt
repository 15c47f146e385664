//! The command `selfplay`: the summary of a self-played game written to a sink.

ghost use Rattle.std.specs.Prelude.{IfOk};
ghost use Rattle.mj_front.specs.SelfPlay.{IsSelfText, WritesSelfPlay};
ghost use Rattle.mj_front.specs.Statuses.{self_play_status};
ghost use Rattle.mj_runs.specs.Faults.{CountsWriteFaults};

use mj_links::{Sink, WriteAll, write_all};
use mj_selfplay::{self_play, summary_lines};
use std::alloc::{AllocError, Global};

/// How the command `selfplay` ends.
#[derive(Clone, Copy)]
pub(crate) enum SelfPlayEnd {
    /// The lines of the summary are written.
    Written,
    /// A write failed. A part of the lines is written.
    WriteFault,
    /// Memory was wanting. Nothing is written.
    NoMemory,
}

/// Plays the game of a number and writes what it comes to.
pub(crate) fn write_self_play<K: Sink>(alloc: Global, number: u64, sink: &mut K) -> SelfPlayEnd
    ensures tells { WritesSelfPlay result number (K.written sink.old) (K.written sink.new) }
    ensures writes { CountsWriteFaults (self_play_status result) (K.write_faults sink.old)
        (K.write_faults sink.new) }
{
    match text_of_game(alloc, number) {
        Ok(text) => match write_all(sink, text.as_slice()) {
            WriteAll::Whole => SelfPlayEnd::Written,
            WriteAll::Failed => SelfPlayEnd::WriteFault,
        },
        Err(_) => SelfPlayEnd::NoMemory,
    }
}

// The lines of the summary of the game of a number.
fn text_of_game(alloc: Global, number: u64) -> Result<Vec<u8>, AllocError>
    ensures { IfOk result (λ text. IsSelfText number text.items) }
{
    let summary = self_play(alloc, number)?;
    summary_lines(alloc, &summary)
}
