//! Records of games that journals keep.

use crate::front_tests::words_of;
use crate::keep_tests::{GAME, JOINS, PASSES, Ran, WALL, disk_of, told_by};
use mj_front::Status;
use mj_journal::MemDisk;
use mj_links::{MemSink, MemSource};
use mj_record::{is_for_record, run_record};
use mj_replay::{Checked, check};
use std::alloc::{AllocError, Global};

// The start of the game of four joins, as its record tells it.
const START: &[u8] = b"{\"type\":\"start_game\",\"id\":0,\"names\":[\"a\",\"b\",\"c\",\"d\"]}\n";

// Journals that keep no game: none, a first record that is cut off, and one that is a header without walls.
const NO_GAMES: [&[u8]; 3] = [
    b"",
    b"\x01\0",
    b"\x01\0\0\0\x1egame limit=1000 draws=0 red=0\n\0",
];

// Runs the command of a line on a journal.
fn run_on(alloc: Global, line: &str, journal: &[u8]) -> Result<Ran, AllocError> {
    let words = words_of(alloc, line)?;
    let bytes = Vec::from_slice(alloc, journal)?;
    let mut source = MemSource::new(bytes, Vec::new(alloc));
    let mut sink = MemSink::new(Vec::new(alloc));
    let status = run_record(alloc, words.as_slice(), &mut source, &mut sink);
    let bytes = sink.written().to_vec(alloc)?;
    Ok(Ran { status, bytes })
}

fn recorded(alloc: Global, line: &str, journal: &[u8]) -> Ran {
    match run_on(alloc, line, journal) {
        Ok(ran) => ran,
        Err(_) => Ran {
            status: Status::NoMemory,
            bytes: Vec::new(alloc),
        },
    }
}

// Whether the record of the joined players' game is told of its journal.
fn tells_the_start(alloc: Global, journal: &[u8]) -> bool {
    let record = recorded(alloc, "record", journal);
    match record.bytes.as_slice().strip_prefix(GAME) {
        Some(rest) => record.status == Status::Done && rest.strip_prefix(WALL) == Some(START),
        None => false,
    }
}

// Whether the first bytes of a journal keep a game whose record is a beginning of this one, or are cut off.
fn is_front(alloc: Global, journal: &[u8], many: usize, whole: &[u8]) -> bool {
    let front = journal.get(..many).unwrap_or(journal);
    let ran = recorded(alloc, "record", front);
    match ran.status {
        Status::Done => whole.starts_with(ran.bytes.as_slice()),
        Status::BadJournal(_) => ran.bytes.is_empty(),
        _ => false,
    }
}

// Whether the record of a journal is one, and each front of the journal, as it is read while it grows, tells a beginning of it.
fn tells_fronts(alloc: Global, journal: &[u8]) -> bool {
    let whole = recorded(alloc, "record", journal);
    let mut right = match check(alloc, whole.bytes.as_slice()) {
        Checked::Good(_) => whole.status == Status::Done,
        Checked::Bad(_, _) => false,
        Checked::NoMemory => false,
    };
    for many in 0..journal.len() {
        right = right && is_front(alloc, journal, many, whole.bytes.as_slice());
    }
    right
}

fn is_no_game(alloc: Global, journal: &[u8]) -> bool {
    let ran = recorded(alloc, "record", journal);
    ran.status == Status::BadJournal(0) && ran.bytes.is_empty()
}

// Whether words beside the command's are refused, and nothing is written.
fn is_refused(alloc: Global, journal: &[u8]) -> bool {
    let ran = recorded(alloc, "record 0", journal);
    ran.status == Status::Words && ran.bytes.is_empty()
}

fn is_known(alloc: Global, line: &str, known: bool) -> bool {
    match words_of(alloc, line) {
        Ok(words) => is_for_record(words.as_slice()) == known,
        Err(_) => false,
    }
}

// Whether the joins and then the passes are kept on a disk, each with the record so far.
fn tells_so_far(alloc: Global, disk: &mut MemDisk) -> bool {
    let joined = told_by(alloc, "keep 0", &[GAME, WALL, JOINS], disk);
    joined.status == Status::Done && tells_the_start(alloc, disk.bytes()) && passes(alloc, disk)
}

fn passes(alloc: Global, disk: &mut MemDisk) -> bool {
    let passed = told_by(alloc, "keep 0", &[GAME, WALL, PASSES], disk);
    passed.status == Status::Done
        && tells_fronts(alloc, disk.bytes())
        && is_refused(alloc, disk.bytes())
}

fn tells_its_record(alloc: Global, disk: Result<MemDisk, AllocError>) -> bool {
    match disk {
        Ok(mut disk) => tells_so_far(alloc, &mut disk),
        Err(_) => false,
    }
}

fn are_no_games(alloc: Global) -> bool {
    let mut all = true;
    for journal in NO_GAMES {
        all = all && is_no_game(alloc, journal);
    }
    all
}

#[test]
fn a_journal_tells_the_record_of_its_game_so_far(rt: HostRuntime) {
    assert!(rt; tells_its_record(rt.alloc(), disk_of(rt.alloc(), b"")));
    assert!(rt; are_no_games(rt.alloc()));
    assert!(rt; is_known(rt.alloc(), "record", true));
    assert!(rt; is_known(rt.alloc(), "record 0", true));
    assert!(rt; is_known(rt.alloc(), "replay", false));
    assert!(rt; is_known(rt.alloc(), "", false));
}
