use crate::front_tests::words_of;
use mj_front::{Status, is_for_waiting, run_alone};
use mj_journal::{CallMade, DiskCall, MemDisk};
use mj_links::{MemSink, MemSource};
use std::alloc::{AllocError, Global};

pub(crate) const GAME: &[u8] = b"game limit=1000 draws=0 red=0\n";

const OTHER_GAME: &[u8] = b"game limit=2000 draws=0 red=0\n";

// A wall in tile order.
pub(crate) const WALL: &[u8] =
    b"wall 1m 1m 1m 1m 2m 2m 2m 2m 3m 3m 3m 3m 4m 4m 4m 4m 5m 5m 5m 5m 6m 6m 6m 6m 7m 7m 7m 7m 8m 8m 8m 8m 9m 9m 9m 9m 1p 1p 1p 1p 2p 2p 2p 2p 3p 3p 3p 3p 4p 4p 4p 4p 5p 5p 5p 5p 6p 6p 6p 6p 7p 7p 7p 7p 8p 8p 8p 8p 9p 9p 9p 9p 1s 1s 1s 1s 2s 2s 2s 2s 3s 3s 3s 3s 4s 4s 4s 4s 5s 5s 5s 5s 6s 6s 6s 6s 7s 7s 7s 7s 8s 8s 8s 8s 9s 9s 9s 9s E E E E S S S S W W W W N N N N P P P P F F F F C C C C\n";

pub(crate) const JOINS: &[u8] =
    b"sit {\"type\":\"join\",\"name\":\"a\",\"room\":\"default\"}\nsit {\"type\":\"join\",\"name\":\"b\",\"room\":\"default\"}\nsit {\"type\":\"join\",\"name\":\"c\",\"room\":\"default\"}\nsit {\"type\":\"join\",\"name\":\"d\",\"room\":\"default\"}\n";

pub(crate) const PASSES: &[u8] =
    b"say 0 {\"type\":\"none\"}\nsay 1 {\"type\":\"none\"}\nsay 2 {\"type\":\"none\"}\nsay 3 {\"type\":\"none\"}\n";

const NOTHING: &[u8] = b"";

// How many calls on the disk each entry makes: two writes, each with a sync behind it.
const CALLS_OF_ENTRY: usize = 4;

// The entries of the joins and of the passes.
const ENTRIES: usize = 8;

// Three joins, and a fourth with a key.
const FOUR_JOINS: &[u8] =
    b"sit {\"type\":\"join\",\"name\":\"a\"}\nsit {\"type\":\"join\",\"name\":\"b\"}\nsit {\"type\":\"join\",\"name\":\"c\"}\nsit {\"type\":\"join\",\"name\":\"k\",\"key\":\"k\"}\n";

// A refused join, a line, a leave, a window that is not open, one that runs out, and a return.
const EACH_ARRIVAL: &[u8] =
    b"sit {}\nsay 0 {\"type\":\"none\"}\ngone 3\nexpire 7 0 1000\nexpire 0 5 1005\nsit {\"type\":\"join\",\"name\":\"k\",\"key\":\"k\"}\n";

// The gate and the length of the first record, which holds the header and the wall, 415 bytes.
const TAG: &[u8] = b"\x01\0\0\x01\x9fgame limit=1000 draws=0 red=0\nwall 1m";

// The records of those of them that are entries: a gate, the length, and behind the author the arrival's line; and then the closed gate.
const RECORDS: &[u8] =
    b"\x01\0\0\0\x171 say 0 {\"type\":\"none\"}\x01\0\0\0\x081 gone 3\x01\0\0\0\x110 expire 0 5 1005\x01\0\0\0\x2a1 sit {\"type\":\"join\",\"name\":\"k\",\"key\":\"k\"}\0";

// How a run ends, and what it writes.
#[derive(Drop)]
pub(crate) struct Ran {
    pub(crate) status: Status,
    pub(crate) bytes: Vec<u8>,
}

fn source_of(alloc: Global, input: &[&[u8]]) -> Result<MemSource, AllocError> {
    let mut bytes = Vec::new(alloc);
    for part in input {
        bytes.extend_from_slice(part)?;
    }
    Ok(MemSource::new(bytes, Vec::new(alloc)))
}

/// Runs the command of a line on an input of these parts.
pub(crate) fn told_by(alloc: Global, line: &str, input: &[&[u8]], disk: &mut MemDisk) -> Ran {
    match run_of(alloc, line, input, disk) {
        Ok(ran) => ran,
        Err(_) => Ran {
            status: Status::NoMemory,
            bytes: Vec::new(alloc),
        },
    }
}

fn run_of(
    alloc: Global,
    line: &str,
    input: &[&[u8]],
    disk: &mut MemDisk,
) -> Result<Ran, AllocError> {
    let words = words_of(alloc, line)?;
    let source = source_of(alloc, input)?;
    run_on(alloc, words.as_slice(), source, disk)
}

fn run_on(
    alloc: Global,
    words: &[String],
    mut source: MemSource,
    disk: &mut MemDisk,
) -> Result<Ran, AllocError> {
    let mut sink = MemSink::new(Vec::new(alloc));
    let status = if is_for_waiting(words) {
        Status::Words
    } else {
        run_alone(alloc, words, &mut source, &mut sink, disk)
    };
    let bytes = sink.written().to_vec(alloc)?;
    Ok(Ran { status, bytes })
}

// How such a run ends that keeps a game.
fn keeps(alloc: Global, input: &[&[u8]], disk: &mut MemDisk) -> Status {
    told_by(alloc, "keep 0", input, disk).status
}

/// A disk on which these bytes stand.
pub(crate) fn disk_of(alloc: Global, image: &[u8]) -> Result<MemDisk, AllocError> {
    MemDisk::new(image, Vec::new(alloc))
}

// Where the record at a place ends, where an open gate stands there and the record is whole.
fn end_of_record(image: &[u8], place: usize) -> Option<usize> {
    match image.get(place..)? {
        [1, a, b, c, d, ..] => {
            let length = u32::from_be_bytes([*a, *b, *c, *d]) as usize;
            let end = place.checked_add(5)?.checked_add(length)?;
            image.get(end)?;
            Some(end)
        }
        _ => None,
    }
}

// How many records stand on a disk, up to the first gate that isn't open.
fn records(image: &[u8]) -> usize {
    let mut place = 0;
    for count in 0..image.len() {
        match end_of_record(image, place) {
            Some(end) => place = end,
            None => return count,
        }
    }
    image.len()
}

// How many entries a disk opens to; None where it doesn't open.
fn entries_of(alloc: Global, image: &[u8]) -> Option<usize> {
    match disk_of(alloc, image) {
        Ok(mut disk) => entries_on(alloc, &mut disk),
        Err(_) => None,
    }
}

fn entries_on(alloc: Global, disk: &mut MemDisk) -> Option<usize> {
    match keeps(alloc, &[GAME, WALL], disk) {
        Status::Done => records(disk.bytes()).checked_sub(1),
        _ => None,
    }
}

// Runs over one journal, one after the other: what is read, how it ends, and on what input the referee tells the same.
const OVER_ONE_JOURNAL: [(&[&[u8]], Status, &[&[u8]]); 4] = [
    (&[GAME, WALL, JOINS], Status::Done, &[GAME, WALL, JOINS]),
    (
        &[GAME, WALL, PASSES],
        Status::Done,
        &[GAME, WALL, JOINS, PASSES],
    ),
    (&[OTHER_GAME, WALL, PASSES], Status::OtherGame, &[]),
    (&[GAME, WALL], Status::Done, &[GAME, WALL, JOINS, PASSES]),
];

// Whether a run ends so, and tells what the referee tells on that input.
fn is_run_so(
    alloc: Global,
    disk: &mut MemDisk,
    input: &[&[u8]],
    status: Status,
    alike: &[&[u8]],
) -> bool {
    let kept = told_by(alloc, "keep 0", input, disk);
    let told = told_by(alloc, "referee 0", alike, disk);
    kept.status == status && kept.bytes.as_slice() == told.bytes.as_slice()
}

// Whether runs over one journal end and tell so, and leave so many records.
fn goes_on(alloc: Global, disk: Result<MemDisk, AllocError>) -> bool {
    let Ok(mut disk) = disk else {
        return false;
    };
    let mut right = true;
    for (input, status, alike) in OVER_ONE_JOURNAL {
        right = right && is_run_so(alloc, &mut disk, input, status, alike);
    }
    right && records(disk.bytes()) == ENTRIES + 1
}

// Inputs that touch no disk, and how the run ends.
const UNTOUCHED: [(&[&[u8]], Status); 4] = [
    (&[], Status::Done),
    (&[GAME], Status::Done),
    (&[GAME, JOINS], Status::BadArrival(2)),
    (&[WALL, JOINS], Status::BadArrival(1)),
];

fn is_untouched(alloc: Global, disk: &mut MemDisk, input: &[&[u8]], status: Status) -> bool {
    let end = told_by(alloc, "keep 0", input, disk);
    end.status == status && end.bytes.is_empty() && disk.calls().is_empty()
}

fn are_untouched(alloc: Global) -> bool {
    let mut all = true;
    for (input, status) in &UNTOUCHED {
        all = all
            && match disk_of(alloc, b"\x01") {
                Ok(mut disk) => is_untouched(alloc, &mut disk, input, *status),
                Err(_) => false,
            };
    }
    all
}

// What stands on a disk and what is read, how the run ends, whether it writes something, and how many entries the disk then
// opens to.
const SPOILT: [(&[u8], &[&[u8]], Status, bool, Option<usize>); 2] = [
    (
        NOTHING,
        &[GAME, WALL, JOINS, WALL, PASSES],
        Status::BadArrival(7),
        true,
        Some(4),
    ),
    (
        b"\x01\0",
        &[GAME, WALL, JOINS],
        Status::BadJournal(0),
        false,
        None,
    ),
];

fn ends_so(
    alloc: Global,
    disk: &mut MemDisk,
    input: &[&[u8]],
    status: Status,
    tells: bool,
    entries: Option<usize>,
) -> bool {
    let end = told_by(alloc, "keep 0", input, disk);
    end.status == status
        && end.bytes.is_empty() != tells
        && entries_of(alloc, disk.bytes()) == entries
}

fn all_end_so(alloc: Global) -> bool {
    let mut all = true;
    for (image, input, status, tells, entries) in &SPOILT {
        all = all
            && match disk_of(alloc, image) {
                Ok(mut disk) => ends_so(alloc, &mut disk, input, *status, *tells, *entries),
                Err(_) => false,
            };
    }
    all
}

#[test]
fn a_kept_game_goes_on_where_its_journal_ends(rt: HostRuntime) {
    assert!(rt; goes_on(rt.alloc(), disk_of(rt.alloc(), NOTHING)));
    assert!(rt; are_untouched(rt.alloc()) && all_end_so(rt.alloc()));
}

// What a crash in a write leaves: of the piece as many bytes as these, from its front or from its end, and junk for the
// others.
#[derive(Drop)]
struct Tear<'a> {
    before: &'a [u8],
    place: usize,
    piece: &'a [u8],
    kept: usize,
    from_end: bool,
}

impl Tear<'_> {
    fn byte(&self, at: usize) -> u8 {
        let old = self.before.get(at).copied().unwrap_or(1);
        match at.checked_sub(self.place) {
            Some(within) => match self.piece.get(within) {
                Some(new) if (within < self.kept) != self.from_end => *new,
                Some(_) => 1,
                None => old,
            },
            None => old,
        }
    }

    fn image(&self, alloc: Global) -> Result<Vec<u8>, AllocError> {
        let size = self
            .before
            .len()
            .max(self.place.saturating_add(self.piece.len()));
        let mut image = Vec::new(alloc);
        for at in 0..size {
            image.push(self.byte(at))?;
        }
        Ok(image)
    }
}

// Whether a disk opens to so many entries, or to one more.
fn opens_near(alloc: Global, image: &[u8], entries: usize) -> bool {
    match entries_of(alloc, image) {
        Some(opened) => opened == entries || opened.checked_sub(1) == Some(entries),
        None => false,
    }
}

fn tear_opens(alloc: Global, tear: &Tear<'_>, entries: usize) -> bool {
    match tear.image(alloc) {
        Ok(image) => opens_near(alloc, image.as_slice(), entries),
        Err(_) => false,
    }
}

// Whether each image that a crash in a write of this piece may leave opens so. Of a long piece some tears are tried.
fn each_tear_opens(
    alloc: Global,
    before: &[u8],
    place: usize,
    piece: &[u8],
    entries: usize,
) -> bool {
    let mut hold = true;
    for kept in 0..=piece.len() {
        let is_tried = kept <= 6 || kept % 16 == 0 || kept == piece.len();
        for from_end in [false, true] {
            let tear = Tear {
                before,
                place,
                piece,
                kept,
                from_end,
            };
            hold = hold && (!is_tried || tear_opens(alloc, &tear, entries));
        }
    }
    hold
}

// The calls of a run on a disk with these bytes, over a journal with so many entries, after so many calls of its opening.
#[derive(Drop)]
struct Course<'a> {
    start: &'a [u8],
    had: usize,
    opening: usize,
    calls: &'a [CallMade],
}

impl Course<'_> {
    // How many entries were acknowledged before a call on the disk.
    fn acknowledged(&self, calls_before: usize) -> usize {
        let entered = calls_before.saturating_sub(self.opening) / CALLS_OF_ENTRY;
        self.had.saturating_add(entered)
    }

    // Whether each image that a crash may leave in one of the writes from this call on opens to what is acknowledged before it.
    fn each_write_holds(&self, alloc: Global, from: usize) -> bool {
        let mut bytes = Vec::new(alloc);
        let mut hold = bytes.extend_from_slice(self.start).is_ok();
        for (before, call) in self.calls.iter().enumerate() {
            hold = hold && self.write_holds(alloc, &mut bytes, call, before, before >= from);
        }
        hold
    }

    // Whether that is so of one call with so many before it, where it is tried. What it writes comes onto the bytes.
    fn write_holds(
        &self,
        alloc: Global,
        bytes: &mut Vec<u8>,
        call: &CallMade,
        before: usize,
        tried: bool,
    ) -> bool {
        let DiskCall::Write { place, piece } = &call.what else {
            return true;
        };
        let (place, entries) = (*place as usize, self.acknowledged(before));
        let holds = !tried || each_tear_opens(alloc, bytes.as_slice(), place, piece, entries);
        holds && (call.failed || write_whole(alloc, bytes, place, piece))
    }
}

// Writes a whole piece onto bytes.
fn write_whole(alloc: Global, bytes: &mut Vec<u8>, place: usize, piece: &[u8]) -> bool {
    let whole = Tear {
        before: bytes.as_slice(),
        place,
        piece,
        kept: piece.len(),
        from_end: false,
    };
    match whole.image(alloc) {
        Ok(image) => {
            *bytes = image;
            true
        }
        Err(_) => false,
    }
}

// How many of the calls are writes.
fn writes(calls: &[CallMade]) -> usize {
    calls
        .iter()
        .filter(|call| matches!(&call.what, DiskCall::Write { .. }))
        .count()
}

// How many calls of a run are those of its opening, where it makes so many entries.
fn calls_of_opening(calls: &[CallMade], entries: usize) -> usize {
    calls
        .len()
        .saturating_sub(entries.saturating_mul(CALLS_OF_ENTRY))
}

// Whether a run over a journal of so many entries makes so many more by so many writes, a stop at each of which loses nothing, and
// none does where a call of its fails.
fn loses_none(
    alloc: Global,
    start: &[u8],
    disk: &mut MemDisk,
    had: usize,
    made: usize,
    written: usize,
    arrivals: &[u8],
) -> bool {
    let status = keeps(alloc, &[GAME, WALL, arrivals], disk);
    let opening = calls_of_opening(disk.calls(), made);
    let course = Course {
        start,
        had,
        opening,
        calls: disk.calls(),
    };
    let mut hold = status == Status::Done
        && writes(disk.calls()) == written
        && course.each_write_holds(alloc, 0)
        && entries_of(alloc, disk.bytes()) == Some(had.saturating_add(made));
    for number in 1..=disk.calls().len() {
        hold = hold && loses_nothing(alloc, start, had, opening, number, arrivals);
    }
    hold
}

// Whether a run on these bytes whose call of this number fails ends by that, writes nothing, and loses nothing, whatever a crash
// then leaves of the last write.
fn loses_nothing(
    alloc: Global,
    start: &[u8],
    had: usize,
    opening: usize,
    number: usize,
    arrivals: &[u8],
) -> bool {
    match failing_disk(alloc, start, number) {
        Ok(mut disk) => fault_loses_nothing(
            alloc, start, &mut disk, had, opening, number, arrivals,
        ),
        Err(_) => false,
    }
}

// A disk with these bytes whose call of this number fails.
fn failing_disk(alloc: Global, start: &[u8], number: usize) -> Result<MemDisk, AllocError> {
    MemDisk::new(start, [number as u64].to_vec(alloc)?)
}

fn fault_loses_nothing(
    alloc: Global,
    start: &[u8],
    disk: &mut MemDisk,
    had: usize,
    opening: usize,
    number: usize,
    arrivals: &[u8],
) -> bool {
    let end = told_by(alloc, "keep 0", &[GAME, WALL, arrivals], disk);
    let course = Course {
        start,
        had,
        opening,
        calls: disk.calls(),
    };
    let before = number.saturating_sub(1);
    end.status == Status::DiskFault
        && end.bytes.is_empty()
        && disk.calls().len() == number
        && opens_near(alloc, disk.bytes(), course.acknowledged(before))
        && course.each_write_holds(alloc, before.saturating_sub(1))
}

// What a run leaves on a disk with these bytes.
fn left_by(alloc: Global, start: &[u8], arrivals: &[u8]) -> Result<MemDisk, AllocError> {
    let mut disk = disk_of(alloc, start)?;
    let _status = keeps(alloc, &[GAME, WALL, arrivals], &mut disk);
    Ok(disk)
}

// Whether a run on a disk with these bytes makes four entries more by so many writes, and so loses none.
fn loses_none_of(alloc: Global, start: &[u8], had: usize, written: usize, arrivals: &[u8]) -> bool {
    match disk_of(alloc, start) {
        Ok(mut disk) => loses_none(alloc, start, &mut disk, had, 4, written, arrivals),
        Err(_) => false,
    }
}

// Whether a run on what a first one left loses none.
fn second_loses_none(alloc: Global, first: Result<MemDisk, AllocError>) -> bool {
    match first {
        Ok(first) => loses_none_of(alloc, first.bytes(), 4, 8, PASSES),
        Err(_) => false,
    }
}

#[test]
fn a_stop_or_a_fault_at_each_call_of_two_runs_loses_nothing(rt: HostRuntime) {
    let alloc = rt.alloc();
    // Beside those of its entries the first run writes the first gate and the tag.
    assert!(rt; loses_none_of(alloc, NOTHING, 0, 11, JOINS));
    assert!(rt; second_loses_none(alloc, left_by(alloc, NOTHING, JOINS)));
}

fn has_records(alloc: Global, disk: Result<MemDisk, AllocError>) -> bool {
    let Ok(mut disk) = disk else {
        return false;
    };
    keeps(alloc, &[GAME, WALL, FOUR_JOINS, EACH_ARRIVAL], &mut disk) == Status::Done
        && disk.bytes().ends_with(RECORDS)
        && disk.bytes().starts_with(TAG)
        && entries_of(alloc, disk.bytes()) == Some(ENTRIES)
}

#[test]
fn each_entry_is_a_record_of_these_bytes(rt: HostRuntime) {
    assert!(rt; has_records(rt.alloc(), disk_of(rt.alloc(), NOTHING)));
}
