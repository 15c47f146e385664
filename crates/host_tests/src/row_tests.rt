//! Journals from which no hosted game goes on, and what else ends a run.

use crate::board::Board;
use crate::guest_host::GuestHost;
use crate::guests::Guests;
use crate::images::front_of;
use crate::paced::PacedClock;
use crate::running::{
    BRIEF, NOBODY, disk_of, host_one, host_over, is_kept, is_kept_whole, is_record, serving,
};
use mj_durable::{HostEnd, Hosted, host_games, hosted_of, is_for_host};
use mj_hosting::Rooms;
use mj_journal::MemDisk;
use mj_links::MemSink;
use std::alloc::{AllocError, Global};
use std::sync::Wait;
use std::test::Fail;
use std::thread::Threads;
use std::time;

/// The players of two tables, who leave after an answer each.
const EIGHT: Guests = Guests {
    players: 8,
    answers: 1,
    scripted: false,
    pauses: 20,
    fails: true,
    step: 0,
    shut: false,
};

// How a run is to end.
#[derive(Clone, Copy)]
enum Wanted {
    NotOpened,
    DiskFault,
    OtherGame,
    BadJournal,
}

// A record behind the tag of a journal, the call of the disk that fails, and how the run ends. Handlers are numbered 0 to 7, and the
// ticker is 8; a second server finds the file locked, which is a fault of the first call.
const ROWS: [(&[u8], u64, Wanted); 6] = [
    (b"", 0, Wanted::NotOpened),
    (
        b"\x01\0\0\0\x208 sit {\"type\":\"join\",\"name\":\"a\"}",
        0,
        Wanted::NotOpened,
    ),
    (
        b"\x01\0\0\0\x209 sit {\"type\":\"join\",\"name\":\"a\"}",
        0,
        Wanted::OtherGame,
    ),
    (b"\x01\0\0\0\x077 sit x", 0, Wanted::BadJournal),
    (b"", 1, Wanted::DiskFault),
    (b"", 2, Wanted::DiskFault),
];

// Whether a run ended so, where a bad record stands at this place.
fn ends_so(end: HostEnd, wanted: Wanted, bad: u64) -> bool {
    match wanted {
        Wanted::NotOpened => matches!(end, HostEnd::NotOpened),
        Wanted::DiskFault => matches!(end, HostEnd::DiskFault),
        Wanted::OtherGame => matches!(end, HostEnd::OtherGame),
        Wanted::BadJournal => matches!(end, HostEnd::BadJournal(place) if place == bad),
    }
}

// Whether a run over a tag and a record ends so, and leaves all as it was.
fn is_left<R: Threads + Wait + time::Clock + Sync>(
    rt: &R,
    alloc: Global,
    tag: &[u8],
    record: &[u8],
    fails: u64,
    wanted: Wanted,
) -> Result<bool, AllocError> {
    let image = front_of(alloc, tag, 1, record)?;
    let ran = host_one(rt, alloc, NOBODY, disk_of(alloc, image.as_slice(), fails)?)?;
    let bad = tag.len().saturating_sub(1) as u64;
    Ok(
        ends_so(ran.end, wanted, bad)
            && ran.record.is_empty()
            && ran.disk.bytes() == image.as_slice(),
    )
}

// Whether a game with another limit takes the journal to be another game's, and a journal that was cut is bad at its first byte.
fn are_refused<R: Threads + Wait + time::Clock + Sync>(
    rt: &R,
    alloc: Global,
    tag: &[u8],
) -> Result<bool, AllocError> {
    let board = Board::new(alloc, 0)?;
    let disk = disk_of(alloc, tag, 0)?;
    let (other, _, _) = host_over(rt, alloc, serving(2000), &board, NOBODY, disk)?;
    let cut = host_one(rt, alloc, NOBODY, disk_of(alloc, b"\x01\0", 0)?)?;
    Ok(ends_so(other, Wanted::OtherGame, 0) && ends_so(cut.end, Wanted::BadJournal, 0))
}

// A journal without entries.
fn tag_of<R: Threads + Wait + time::Clock + Sync>(
    rt: &R,
    alloc: Global,
) -> Result<Vec<u8>, AllocError> {
    let ran = host_one(rt, alloc, NOBODY, disk_of(alloc, b"", 0)?)?;
    ran.disk.bytes().to_vec(alloc)
}

#[test]
fn journals_that_are_not_opened_stay_as_they_are(rt: HostRuntime) -> Result<(), Fail> {
    let alloc = rt.alloc();
    let tag = tag_of(&rt, alloc)?;
    for (record, fails, wanted) in ROWS {
        assert!(rt; is_left(&rt, alloc, tag.as_slice(), record, fails, wanted)?);
    }
    assert!(rt; are_refused(&rt, alloc, tag.as_slice())?);
    Ok(())
}

// Whether a log is told of four seats that are taken and left, and in a run from there of four that are taken back and left again.
fn seats_are_logged<R: Threads + Wait + time::Clock + Sync>(
    rt: &R,
    alloc: Global,
) -> Result<bool, AllocError> {
    let new = host_one(rt, alloc, BRIEF, disk_of(alloc, b"", 0)?)?;
    let again = host_one(rt, alloc, BRIEF, disk_of(alloc, new.disk.bytes(), 0)?)?;
    Ok(new.board.has_seen(4, 0, 4) && again.board.has_seen(0, 4, 4))
}

#[test]
fn a_log_is_told_of_seats(rt: HostRuntime) -> Result<(), Fail> {
    assert!(rt; seats_are_logged(&rt, rt.alloc())?);
    Ok(())
}

// Hosts two games on disks, tells nobody what the players are told, and gives back how it ended, what it wrote, and the disks.
fn host_two<R: Threads + Wait + time::Clock + Sync>(
    rt: &R,
    alloc: Global,
    first: MemDisk,
    second: MemDisk,
) -> Result<(HostEnd, Vec<u8>, Vec<MemDisk>), AllocError> {
    let hosted = Hosted {
        rooms: Rooms::Many(2),
        serving: serving(1000),
    };
    let board = Board::new(alloc, 8)?;
    let mut host = GuestHost::new(rt, alloc, &board, EIGHT);
    let mut sink = MemSink::new(Vec::new(alloc));
    let mut clock = PacedClock::new(rt, 0);
    let mut disks = vec![in alloc; first, second]?;
    let end = host_games(
        rt, alloc, &hosted, &mut sink, &mut host, &mut clock, &mut disks, &board,
    );
    let written = sink.written().to_vec(alloc)?;
    Ok((end, written, disks))
}

// The two records that are written, each behind the line of its table.
fn records_of(written: &[u8]) -> Option<(&[u8], &[u8])> {
    let rest = written.strip_prefix(b"table 0\n")?;
    let place = rest
        .windows(8)
        .position(|bytes| bytes == b"table 1\n".as_slice())?;
    let second = rest.get(place..)?;
    Some((rest.get(..place)?, second.strip_prefix(b"table 1\n")?))
}

// Whether the records of two games are written, each of which the journal in its place keeps, as it was stopped before.
fn are_kept(alloc: Global, written: &[u8], journals: &[MemDisk], before: &[MemDisk]) -> bool {
    match (records_of(written), journals, before) {
        (Some((first, second)), [one, two], [was, before]) => {
            is_record(alloc, first)
                && is_record(alloc, second)
                && is_kept_whole(alloc, one.bytes(), first)
                && is_kept_whole(alloc, two.bytes(), second)
                && is_kept(alloc, was.bytes(), first)
                && is_kept(alloc, before.bytes(), second)
        }
        _ => false,
    }
}

// Whether a fault of the second table's disk, at this call, stops both games, and both go on from their journals.
fn both_go_on<R: Threads + Wait + time::Clock + Sync>(
    rt: &R,
    alloc: Global,
    call: u64,
) -> Result<bool, AllocError> {
    let second = disk_of(alloc, b"", call)?;
    let (end, written, disks) = host_two(rt, alloc, disk_of(alloc, b"", 0)?, second)?;
    let [one, two] = disks.as_slice() else {
        return Ok(false);
    };
    let stopped = matches!(end, HostEnd::DiskFault) && written.is_empty();
    let first = disk_of(alloc, one.bytes(), 0)?;
    let second = disk_of(alloc, two.bytes(), 0)?;
    let (end, written, journals) = host_two(rt, alloc, first, second)?;
    Ok(
        stopped
            && matches!(end, HostEnd::HostLost)
            && are_kept(
                alloc,
                written.as_slice(),
                journals.as_slice(),
                disks.as_slice(),
            ),
    )
}

#[test]
fn a_fault_of_one_disk_stops_two_games_and_loses_neither(rt: HostRuntime) -> Result<(), Fail> {
    for call in [3, 16] {
        assert!(rt; both_go_on(&rt, rt.alloc(), call)?);
    }
    Ok(())
}

const SEED: &str = "0707070707070707070707070707070707070707070707070707070707070707";

// Words after the command, and how many tables they ask for; none where they are refused.
const WORDS: [(&[&str], u8); 6] = [
    (&["--seed", SEED], 1),
    (&["--seed", SEED, "--rooms", "1"], 1),
    (&["--seed", SEED, "--rooms", "8", "--red"], 8),
    (&["--seed", SEED, "--rooms", "9"], 0),
    (&["--rooms", "2"], 0),
    (&[], 0),
];

fn asks_for(alloc: Global, more: &[&str], rooms: u8) -> Result<bool, AllocError> {
    let mut words = Vec::new(alloc);
    words.push(String::from_str(alloc, "host")?)?;
    for text in more {
        words.push(String::from_str(alloc, *text)?)?;
    }
    let asked = match hosted_of(alloc, words.as_slice())? {
        Some(hosted) => hosted.rooms.count(),
        None => 0,
    };
    Ok(is_for_host(words.as_slice()) && asked == rooms)
}

#[test]
fn host_takes_the_words_of_serve_or_tables(rt: HostRuntime) -> Result<(), Fail> {
    for (more, rooms) in WORDS {
        assert!(rt; asks_for(rt.alloc(), more, rooms)?);
    }
    Ok(())
}
