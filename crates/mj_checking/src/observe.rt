//! The command `observe`: the input read whole, and the public view of its record written.

ghost use Rattle.std.specs.Prelude.{◌≡◌, ◌≤◌, length, IfOk};
ghost use Rattle.mj_observe.specs.Views.{public_view};
ghost use Rattle.mj_checking.specs.Replay.{TakesInput};
ghost use Rattle.mj_checking.specs.Observe.{Observes, IsObserved};
ghost use Rattle.mj_checking.specs.Inner.Observing.{WritesView};
ghost use Rattle.mj_checking.specs.Statuses.{replay_status};
ghost use Rattle.mj_runs.specs.Faults.{CountsReadFaults, CountsWriteFaults};

use crate::replay::ReplayEnd;
use mj_links::{ReadAll, Sink, Source, WriteAll, read_all, write_all};
use mj_observe::Observer;
use mj_replay::{Deeds, Played, read_played};
use mj_runs::{LONGEST, with_room};
use std::alloc::{AllocError, Global};

/// Reads the whole input and writes the public view of its record.
#[tactic(auto, using(crate::proofs::ObserveLaws::viewed))]
pub fn observe_of<S: Source, K: Sink>(alloc: Global, source: &mut S, sink: &mut K) -> ReplayEnd
    ensures run { Observes result (S.left source.old) (S.left source.new) (K.written sink.old)
        (K.written sink.new) }
    ensures reads { CountsReadFaults (replay_status result) (S.read_faults source.old)
        (S.read_faults source.new) }
    ensures writes { CountsWriteFaults (replay_status result) (K.write_faults sink.old)
        (K.write_faults sink.new) }
{
    let mut input = with_room(alloc);
    match read_all(source, LONGEST, &mut input) {
        ReadAll::Whole => observe(alloc, input.as_slice(), sink),
        ReadAll::Fault => ReplayEnd::ReadFault,
        ReadAll::TooLong => ReplayEnd::TooLong,
        ReadAll::NoMemory => ReplayEnd::NoMemory,
    }
}

// Writes the public view of the record of an input.
#[tactic(auto, using(crate::proofs::ObserveLaws::observed, crate::proofs::ObserveLaws::few))]
fn observe<K: Sink>(alloc: Global, input: &[u8], sink: &mut K) -> ReplayEnd
    ensures tells { TakesInput IsObserved result input.now (K.written sink.old)
        (K.written sink.new) }
    ensures writes { CountsWriteFaults (replay_status result) (K.write_faults sink.old)
        (K.write_faults sink.new) }
{
    match read_played(alloc, input) {
        Played::Good(deeds) => write_view(alloc, &deeds, sink),
        Played::Bad(line, cause) => ReplayEnd::Bad(line, cause),
        Played::NoMemory => ReplayEnd::NoMemory,
    }
}

// Writes the public view of deeds.
fn write_view<K: Sink>(alloc: Global, deeds: &Deeds, sink: &mut K) -> ReplayEnd
    requires few { length deeds.now ≤ u32.MAX }
    ensures tells { WritesView result deeds.now (K.written sink.old) (K.written sink.new) }
    ensures writes { CountsWriteFaults (replay_status result) (K.write_faults sink.old)
        (K.write_faults sink.new) }
{
    let Ok(text) = view_of(alloc, deeds) else {
        return ReplayEnd::NoMemory;
    };
    match write_all(sink, text.as_slice()) {
        WriteAll::Whole => ReplayEnd::Written,
        WriteAll::Failed => ReplayEnd::WriteFault,
    }
}

// The public view of deeds.
fn view_of(alloc: Global, deeds: &Deeds) -> Result<Vec<u8>, AllocError>
    requires { length deeds.now ≤ u32.MAX }
    ensures { IfOk result (λ text. text.items ≡ public_view deeds.now) }
{
    let mut observer = Observer::new(alloc)?;
    let mut text = Vec::new(alloc);
    let mut number = 0;
    while let Some(deed) = deeds.get(number) {
        observer.push(deed, &mut text)?;
        number += 1;
    }
    Ok(text)
}
