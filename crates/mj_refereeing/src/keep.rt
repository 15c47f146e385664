//! The command `keep`: the referee of a seat over a game whose entries stand in a journal.

ghost use Rattle.std.specs.Prelude.{◌≡◌, ◌≤◌, ◌+◌, ℕ, List, Some, length};
ghost use Rattle.mj_bytes.specs.Parts.{whole_lines, unfinished};
ghost use Rattle.mj_history.specs.Legal.{Game};
ghost use Rattle.mj_journal.specs.Journals.{IsAtRest};
ghost use Rattle.mj_journal.specs.Keeping.{game_of, end_of};
ghost use Rattle.mj_refereeing.specs.declared.watched.Watched.{Watched};
ghost use Rattle.mj_refereeing.specs.Bases.{IsFit, IsBase};
ghost use Rattle.mj_refereeing.specs.Inner.Keeping.{IsPlayed, GoesOn, KeepsOn, WritesScript};
ghost use Rattle.mj_runs.specs.Inputs.{longest};
ghost use Rattle.mj_refereeing.specs.Keep.{Base as Founding, KeepsAll, KeepsInput};
ghost use Rattle.mj_refereeing.specs.Statuses.{keep_status};
ghost use Rattle.mj_runs.specs.Faults.{CountsReadFaults, CountsWriteFaults, CountsDiskFaults};

use crate::base::{Base, Founded, read_base};
use crate::intake::End;
use crate::keeping::{AllNoted, keep_lines};
use crate::watched::Watched;
use mj_core::SeatGame;
use mj_journal::{Disk, Kept, NotOpened};
use mj_links::{ReadAll, Sink, Source, WriteAll, read_all, write_all};
use mj_runs::{LONGEST, with_room};
use std::alloc::Global;

/// How the command `keep` ends.
#[derive(Clone, Copy)]
pub enum KeepEnd {
    /// The input was read and ends so. Its entries stand in the journal, and what the game tells the seat is written.
    Told(End),
    /// A write failed. The entries stand in the journal, and a part of what was to be told is written.
    WriteFault,
    /// The disk failed. Nothing is written, and what was in the journal is.
    DiskFault,
    /// The journal is another game's. Nothing is written.
    OtherGame,
    /// The journal is bad at this byte. Nothing is written.
    BadJournal(u64),
    /// A read failed. Nothing is written.
    ReadFault,
    /// The input has more than 67,108,864 bytes. Nothing is written.
    TooLong,
    /// Memory was wanting. Nothing is written.
    NoMemory,
}

/// Reads the whole input, keeps its game, and writes what the game tells a seat.
pub fn keep_of<S: Source, K: Sink, D: Disk>(
    alloc: Global,
    seat: u8,
    source: &mut S,
    sink: &mut K,
    disk: &mut D,
) -> KeepEnd
    ensures run { KeepsAll D.told D.may_leave D.moment D.secured_since result seat (S.left source.old) (S.left source.new)
        (K.written sink.old) (K.written sink.new) disk.old disk.new }
    ensures reads { CountsReadFaults (keep_status result) (S.read_faults source.old)
        (S.read_faults source.new) }
    ensures writes { CountsWriteFaults (keep_status result) (K.write_faults sink.old)
        (K.write_faults sink.new) }
    ensures disk { CountsDiskFaults (keep_status result) (D.disk_faults disk.old)
        (D.disk_faults disk.new) }
{
    let mut input = with_room(alloc);
    match read_all(source, LONGEST, &mut input) {
        ReadAll::Whole => keep_input(alloc, seat, input.as_slice(), sink, disk),
        ReadAll::Fault => KeepEnd::ReadFault,
        ReadAll::TooLong => KeepEnd::TooLong,
        ReadAll::NoMemory => KeepEnd::NoMemory,
    }
}

// Keeps the game of an input.
fn keep_input<K: Sink, D: Disk>(
    alloc: Global,
    seat: u8,
    input: &[u8],
    sink: &mut K,
    disk: &mut D,
) -> KeepEnd
    requires { length input.now ≤ longest }
    ensures does { KeepsInput D.told D.may_leave D.moment D.secured_since result seat input.now (K.written sink.old)
        (K.written sink.new) disk.old disk.new }
    ensures writes { CountsWriteFaults (keep_status result) (K.write_faults sink.old)
        (K.write_faults sink.new) }
    ensures disk { CountsDiskFaults (keep_status result) (D.disk_faults disk.old)
        (D.disk_faults disk.new) }
{
    match read_base(alloc, input) {
        Ok(Founded::Game(base)) => keep_game(alloc, seat, base, sink, disk),
        Ok(Founded::Nothing(end)) => KeepEnd::Told(end),
        Err(_) => KeepEnd::NoMemory,
    }
}

// Keeps the game on a base.
fn keep_game<K: Sink, D: Disk>(
    alloc: Global,
    seat: u8,
    base: Base<'_>,
    sink: &mut K,
    disk: &mut D,
) -> KeepEnd
    requires fit { IsFit base }
    requires some { 1 ≤ length base.walls.items }
    ensures does { (input : List ℕ) → IsBase base.entry input
        → KeepsInput D.told D.may_leave D.moment D.secured_since result seat input (K.written sink.old) (K.written sink.new)
        disk.old disk.new }
    ensures writes { CountsWriteFaults (keep_status result) (K.write_faults sink.old)
        (K.write_faults sink.new) }
    ensures disk { CountsDiskFaults (keep_status result) (D.disk_faults disk.old)
        (D.disk_faults disk.new) }
{
    let Ok(core) = SeatGame::new(alloc, base.walls, base.rules, seat) else {
        return KeepEnd::NoMemory;
    };
    match Kept::open(alloc, Watched::new(alloc, core), base.tag, disk) {
        Ok(kept) => keep_on(alloc, kept, base.rest, base.number, sink, disk),
        Err(NotOpened::DiskFault) => KeepEnd::DiskFault,
        Err(NotOpened::OtherGame) => KeepEnd::OtherGame,
        Err(NotOpened::BadJournal(place)) => KeepEnd::BadJournal(place),
        Err(NotOpened::NoMemory) => KeepEnd::NoMemory,
    }
}

// Hears what stands after the tag, and writes what the game then tells the seat.
fn keep_on<K: Sink, D: Disk>(
    alloc: Global,
    mut kept: Kept<Watched>,
    rest: &[u8],
    number: u32,
    sink: &mut K,
    disk: &mut D,
) -> KeepEnd
    requires rest { IsPlayed (game_of kept)
        (IsAtRest (D.told disk.old) (D.may_leave disk.old) (end_of kept)) }
    requires fits { number + length rest.now ≤ u32.MAX }
    ensures does { (base : Founding) (seat : ℕ) (input : List ℕ) (game : Game)
        → base.number ≡ number → base.lines ≡ whole_lines rest.now
        → unfinished input ≡ unfinished rest.now → base.setting ≡ game.setting
        → GoesOn D.told D.may_leave base.tag seat kept disk.old game
        → KeepsOn D.told D.may_leave D.moment D.secured_since result base seat game.entries input (K.written sink.old)
        (K.written sink.new) disk.old disk.new }
    ensures writes { CountsWriteFaults (keep_status result) (K.write_faults sink.old)
        (K.write_faults sink.new) }
    ensures disk { CountsDiskFaults (keep_status result) (D.disk_faults disk.old)
        (D.disk_faults disk.new) }
{
    match keep_lines(alloc, &mut kept, disk, rest, number) {
        AllNoted::Whole(end) => {
            let told = write_script(alloc, &kept, end, sink);
            drop(kept);
            told
        }
        AllNoted::DiskFault => {
            drop(kept);
            KeepEnd::DiskFault
        }
        AllNoted::NoMemory => {
            drop(kept);
            KeepEnd::NoMemory
        }
    }
}

// Writes what a game tells its seat.
fn write_script<K: Sink>(alloc: Global, kept: &Kept<Watched>, end: End, sink: &mut K) -> KeepEnd
    requires { IsPlayed (game_of kept.now) (Unit {0}) }
    ensures writes_script { (w : Watched) → game_of kept.now ≡ Some w
        → WritesScript result end w.core.seat w.core.game (K.written sink.old) (K.written sink.new) }
    ensures writes { CountsWriteFaults (keep_status result) (K.write_faults sink.old)
        (K.write_faults sink.new) }
{
    let Some(game) = kept.game() else {
        unreachable!();
    };
    let Ok(bytes) = game.script(alloc) else {
        return KeepEnd::NoMemory;
    };
    match write_all(sink, bytes.as_slice()) {
        WriteAll::Whole => KeepEnd::Told(end),
        WriteAll::Failed => KeepEnd::WriteFault,
    }
}
