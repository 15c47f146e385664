//! The command `record`: the journal of a game read whole, and the record of what was played so far written.

ghost use Rattle.std.specs.Prelude.{◌≡◌, ◌≤◌, ◌<◌, ◌^◌, [], true, bytes_eq, length};
ghost use Rattle.mj_core.specs.Calls.{record_of};
ghost use Rattle.mj_journal.specs.Founding.{EndsAs, HasFirst};
ghost use Rattle.mj_journal.specs.Openings.{Other};
ghost use Rattle.mj_journal.specs.Playing.{opens};
ghost use Rattle.mj_record.specs.Record.{Records, TakesJournal};
ghost use Rattle.mj_record.specs.Inner.Recording.{WritesOpened, WritesRecord};
ghost use Rattle.mj_record.specs.Statuses.{record_status};
ghost use Rattle.mj_refereeing.specs.Bases.{IsBase};
ghost use Rattle.mj_refereeing.specs.Keep.{play_of};
ghost use Rattle.mj_runs.specs.Faults.{CountsReadFaults, CountsWriteFaults};
ghost use Rattle.mj_runs.specs.Inputs.{longest};

use crate::first::first_payload;
use mj_core::Core;
use mj_journal::{MemDisk, NotOpened, open_entries};
use mj_links::{ReadAll, Sink, Source, WriteAll, read_all, write_all};
use mj_refereeing::{Base, Founded, read_base};
use mj_runs::{LONGEST, with_room};
use std::alloc::Global;

/// How the command `record` ends.
#[derive(Clone, Copy)]
pub enum RecordEnd {
    /// The journal keeps a game, and its record is written.
    Written,
    /// The journal is bad at this byte: the open gate there is the first whose record isn't whole, or doesn't tell what adds an
    /// entry; or the first record, at byte 0, isn't a header and walls. Nothing is written.
    Bad(u64),
    /// A write failed. A part of the record is written.
    WriteFault,
    /// A read failed. Nothing is written.
    ReadFault,
    /// The journal has more than 67,108,864 bytes. Nothing is written.
    TooLong,
    /// Memory was wanting. Nothing is written.
    NoMemory,
}

/// Reads a whole journal, and writes the record of its game so far. The journal may be one that is still being written, where its
/// bytes are read in order: a gate opens once its record stands behind it.
#[tactic(auto, using(crate::proofs::RecordLaws::taken_all))]
pub fn record_of<S: Source, K: Sink>(alloc: Global, source: &mut S, sink: &mut K) -> RecordEnd
    ensures run { Records result (S.left source.old) (S.left source.new) (K.written sink.old)
        (K.written sink.new) }
    ensures reads { CountsReadFaults (record_status result) (S.read_faults source.old)
        (S.read_faults source.new) }
    ensures writes { CountsWriteFaults (record_status result) (K.write_faults sink.old)
        (K.write_faults sink.new) }
{
    let mut input = with_room(alloc);
    match read_all(source, LONGEST, &mut input) {
        ReadAll::Whole => record_journal(alloc, input.as_slice(), sink),
        ReadAll::Fault => RecordEnd::ReadFault,
        ReadAll::TooLong => RecordEnd::TooLong,
        ReadAll::NoMemory => RecordEnd::NoMemory,
    }
}

// Writes the record of the game of a journal.
#[tactic(auto, using(crate::proofs::RecordLaws::none_founded, crate::proofs::RecordLaws::nothing_founded, crate::proofs::RecordLaws::more_founded))]
fn record_journal<K: Sink>(alloc: Global, journal: &[u8], sink: &mut K) -> RecordEnd
    requires { length journal.now ≤ longest }
    ensures takes { TakesJournal result journal.now (K.written sink.old) (K.written sink.new) }
    ensures writes { CountsWriteFaults (record_status result) (K.write_faults sink.old)
        (K.write_faults sink.new) }
{
    let Some(tag) = first_payload(journal) else {
        return RecordEnd::Bad(0);
    };
    match read_base(alloc, tag) {
        Ok(Founded::Game(base)) => {
            if base.tag != tag {
                return RecordEnd::Bad(0);
            }
            record_game(alloc, base, tag, journal, sink)
        }
        Ok(Founded::Nothing(_)) => RecordEnd::Bad(0),
        Err(_) => RecordEnd::NoMemory,
    }
}

// Writes the record of the game on a base that the first record of its journal is.
fn record_game<K: Sink>(
    alloc: Global,
    base: Base<'_>,
    tag: &[u8],
    journal: &[u8],
    sink: &mut K,
) -> RecordEnd
    requires base { IsBase base tag.now }
    requires alone { bytes_eq base.tag.now tag.now ≡ true }
    requires first { HasFirst tag.now journal.now }
    ensures takes { TakesJournal result journal.now (K.written sink.old) (K.written sink.new) }
    ensures writes { CountsWriteFaults (record_status result) (K.write_faults sink.old)
        (K.write_faults sink.new) }
{
    match Core::new(alloc, base.walls, base.rules) {
        Ok(mut core) => record_core(alloc, &mut core, base.tag, journal, sink),
        Err(_) => RecordEnd::NoMemory,
    }
}

// Writes the record of a game, which has no entries yet, with those that a journal of its own keeps.
fn record_core<K: Sink>(
    alloc: Global,
    core: &mut Core,
    tag: &[u8],
    journal: &[u8],
    sink: &mut K,
) -> RecordEnd
    requires none { core.old.entries ≡ [] }
    requires short { length tag.now < 2 ^ 32 }
    requires own { opens (play_of core.old.setting) tag.now journal.now ≡ Other → ⊥ }
    ensures writes_opened { WritesOpened result core.old.setting
        (opens (play_of core.old.setting) tag.now journal.now) (K.written sink.old) (K.written sink.new) }
    ensures writes { CountsWriteFaults (record_status result) (K.write_faults sink.old)
        (K.write_faults sink.new) }
{
    match enter_all(alloc, core, tag, journal) {
        Ok(_) => write_record(alloc, core, sink),
        Err(NotOpened::BadJournal(place)) => RecordEnd::Bad(place),
        Err(NotOpened::OtherGame) => unreachable!(),
        Err(NotOpened::DiskFault) => RecordEnd::NoMemory,
        Err(NotOpened::NoMemory) => RecordEnd::NoMemory,
    }
}

// Gives a game, which has no entries yet, those that a journal keeps.
fn enter_all(alloc: Global, core: &mut Core, tag: &[u8], journal: &[u8]) -> Result<u64, NotOpened>
    requires none { core.old.entries ≡ [] }
    requires short { length tag.now < 2 ^ 32 }
    ensures setting { core.new.setting ≡ core.old.setting }
    ensures opened { EndsAs result (opens (play_of core.old.setting) tag.now journal.now)
        core.new.entries }
{
    match MemDisk::new(journal, Vec::new(alloc)) {
        Ok(mut disk) => open_entries(alloc, core, tag, &mut disk),
        Err(_) => Err(NotOpened::NoMemory),
    }
}

// Writes the record of a game.
fn write_record<K: Sink>(alloc: Global, core: &Core, sink: &mut K) -> RecordEnd
    ensures writes_record { WritesRecord result (record_of core.now) (K.written sink.old)
        (K.written sink.new) }
    ensures writes { CountsWriteFaults (record_status result) (K.write_faults sink.old)
        (K.write_faults sink.new) }
{
    let mut text = Vec::new(alloc);
    if core.record(alloc, &mut text).is_err() {
        return RecordEnd::NoMemory;
    }
    match write_all(sink, text.as_slice()) {
        WriteAll::Whole => RecordEnd::Written,
        WriteAll::Failed => RecordEnd::WriteFault,
    }
}
