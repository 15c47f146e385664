//! Runs of the command `host` over players and disks in memory.

ghost use Rattle.std.specs.Prelude.{◌≤◌};

use crate::board::Board;
use crate::guest_host::GuestHost;
use crate::guests::Guests;
use crate::paced::PacedClock;
use crate::script::SEED;
use mj_durable::{HostEnd, Hosted, host_games};
use mj_hosting::Rooms;
use mj_journal::MemDisk;
use mj_links::{MemSink, MemSource};
use mj_record::{RecordEnd, record_of};
use mj_replay::{Checked, check};
use mj_words::Serving;
use std::alloc::{AllocError, Global};
use std::sync::Wait;
use std::thread::Threads;
use std::time;

/// A new journal.
pub const NOTHING: &[u8] = b"";

/// Four players who play the script.
pub const SCRIPTED: Guests = Guests {
    players: 4,
    answers: u32::MAX,
    scripted: true,
    pauses: 20_000,
    fails: false,
    step: 0,
    shut: false,
};

/// Four players who leave after an answer each, without whom the time of each window runs out.
pub const LEAVING: Guests = Guests {
    players: 4,
    answers: 1,
    scripted: false,
    pauses: 20,
    fails: false,
    step: 1000,
    shut: false,
};

/// Four players who leave after an answer each, and a host that has failed by then.
pub const BRIEF: Guests = Guests {
    players: 4,
    answers: 1,
    scripted: false,
    pauses: 20,
    fails: true,
    step: 0,
    shut: false,
};

/// Nobody comes, and the port can't be opened.
pub const NOBODY: Guests = Guests {
    players: 0,
    answers: 0,
    scripted: false,
    pauses: 0,
    fails: true,
    step: 0,
    shut: true,
};

/// How a run ended, what it wrote, its disk, and what it told.
#[derive(Drop)]
pub struct Ran {
    pub end: HostEnd,
    pub record: Vec<u8>,
    pub disk: MemDisk,
    pub board: Board,
}

/// What games are served with.
pub fn serving(limit: u64) -> Serving
    requires { (1 ≤ limit) × (limit ≤ 3600000) }
{
    Serving {
        seed: SEED,
        limit,
        port: 11600,
        draws: false,
        red: false,
    }
}

/// A disk with these bytes whose call of this number fails, or none for 0.
pub fn disk_of(alloc: Global, image: &[u8], fails: u64) -> Result<MemDisk, AllocError> {
    MemDisk::new(image, [fails].to_vec(alloc)?)
}

/// Hosts a game on a disk; what the run came to is on the heap, so that the functions that ask of it own a pointer alone.
pub fn host_one<R: Threads + Wait + time::Clock + Sync>(
    rt: &R,
    alloc: Global,
    guests: Guests,
    disk: MemDisk,
) -> Result<Box<Ran>, AllocError> {
    let board = Board::new(alloc, guests.players)?;
    let (end, record, disk) = host_over(rt, alloc, serving(1000), &board, guests, disk)?;
    let ran = Ran {
        end,
        record,
        disk,
        board,
    };
    Ok(Box::new(alloc, ran)?)
}

/// Hosts a game on a disk, and tells its players on a board; how it ended, what it wrote, and the disk.
pub fn host_over<R: Threads + Wait + time::Clock + Sync>(
    rt: &R,
    alloc: Global,
    serving: Serving,
    board: &Board,
    guests: Guests,
    disk: MemDisk,
) -> Result<(HostEnd, Vec<u8>, MemDisk), AllocError> {
    let hosted = Hosted {
        rooms: Rooms::One,
        serving,
    };
    let mut host = GuestHost::new(rt, alloc, board, guests);
    let mut sink = MemSink::new(Vec::new(alloc));
    let mut clock = PacedClock::new(rt, guests.step);
    let mut disks = vec![in alloc; disk]?;
    let end = host_games(
        rt, alloc, &hosted, &mut sink, &mut host, &mut clock, &mut disks, board,
    );
    let record = sink.written().to_vec(alloc)?;
    match disks.pop() {
        Some(disk) => Ok((end, record, disk)),
        None => Err(AllocError),
    }
}

/// Whether a run ended well, wrote a record, and left the journal of it.
pub fn is_whole(alloc: Global, ran: &Ran) -> bool {
    let ended = matches!(ran.end, HostEnd::Over | HostEnd::HostLost);
    ended
        && is_record(alloc, ran.record.as_slice())
        && is_kept_whole(alloc, ran.disk.bytes(), ran.record.as_slice())
}

/// Whether four players were told in a run all that they were told before.
pub fn tells_again(now: &Board, before: &Board) -> bool {
    let mut right = true;
    for player in 0..4 {
        right = right && now.goes_on(player, before);
    }
    right
}

/// Whether a text is a record.
pub fn is_record(alloc: Global, text: &[u8]) -> bool {
    match check(alloc, text) {
        Checked::Good(_) => true,
        Checked::Bad(_, _) => false,
        Checked::NoMemory => false,
    }
}

/// Whether the record of a journal is a beginning of this one; that of a journal without a game is empty.
pub fn is_kept(alloc: Global, journal: &[u8], record: &[u8]) -> bool {
    match kept_in(alloc, journal) {
        Some(kept) => record.starts_with(kept.as_slice()),
        None => false,
    }
}

/// Whether the record of a journal is this one.
pub fn is_kept_whole(alloc: Global, journal: &[u8], record: &[u8]) -> bool {
    match kept_in(alloc, journal) {
        Some(kept) => record == kept.as_slice(),
        None => false,
    }
}

// The record of a journal; none where the journal is bad.
fn kept_in(alloc: Global, journal: &[u8]) -> Option<Vec<u8>> {
    let bytes = Vec::from_slice(alloc, journal).ok()?;
    let mut source = MemSource::new(bytes, Vec::new(alloc));
    let mut sink = MemSink::new(Vec::new(alloc));
    match record_of(alloc, &mut source, &mut sink) {
        RecordEnd::Written => sink.written().to_vec(alloc).ok(),
        RecordEnd::Bad(0) => Some(Vec::new(alloc)),
        _ => None,
    }
}
