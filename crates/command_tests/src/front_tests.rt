use crate::slow::{SlowSink, SlowSource};
use mj_front::{Cause, Status, exit_code, is_for_waiting, run_alone, status_text};
use mj_journal::MemDisk;
use mj_links::{MemSink, MemSource, Sink, Source};
use std::alloc::{AllocError, Global};

const READY: &str = "hand 1m 2m 3m 4p 5p 6p 7s 8s 9s E E S S";

const LINES_OF_READY: &[u8] =
    b"shanten 0\ntarget 1m 2m 3m 4p 5p 6p 7s 8s 9s E E E S S\nwaits E S\n";

const LINES_OF_SEVEN: &[u8] =
    b"hands 9\nwins 9\ndraws 0\ndeeds 1016\npoints 25600 47500 25900 21000\ndeposits 0\n";

// A wall in tile order and one seat.
const ONE_SEAT: &[u8] =
    b"game limit=1000 draws=0 red=0\nwall 1m 1m 1m 1m 2m 2m 2m 2m 3m 3m 3m 3m 4m 4m 4m 4m 5m 5m 5m 5m 6m 6m 6m 6m 7m 7m 7m 7m 8m 8m 8m 8m 9m 9m 9m 9m 1p 1p 1p 1p 2p 2p 2p 2p 3p 3p 3p 3p 4p 4p 4p 4p 5p 5p 5p 5p 6p 6p 6p 6p 7p 7p 7p 7p 8p 8p 8p 8p 9p 9p 9p 9p 1s 1s 1s 1s 2s 2s 2s 2s 3s 3s 3s 3s 4s 4s 4s 4s 5s 5s 5s 5s 6s 6s 6s 6s 7s 7s 7s 7s 8s 8s 8s 8s 9s 9s 9s 9s E E E E S S S S W W W W N N N N P P P P F F F F C C C C\nsit {\"type\":\"join\",\"name\":\"a\"}\n";

const HELLO: &[u8] = b"{\"type\":\"hello\",\"protocol\":\"mjsonp\",\"protocol_version\":3}\n";

/// The words of a line.
pub(crate) fn words_of(alloc: Global, line: &str) -> Result<Vec<String>, AllocError> {
    let mut words = Vec::new(alloc);
    push_words(alloc, &mut words, line)?;
    Ok(words)
}

fn push_words(alloc: Global, words: &mut Vec<String>, line: &str) -> Result<(), AllocError> {
    for word in line.split_whitespace() {
        words.push(String::from_str(alloc, word)?)?;
    }
    Ok(())
}

// How a run on some words ends.
fn end<S: Source, K: Sink>(
    alloc: Global,
    words: &[String],
    source: &mut S,
    sink: &mut K,
) -> Status {
    if is_for_waiting(words) {
        return Status::Words;
    }
    match MemDisk::new(b"", Vec::new(alloc)) {
        Ok(mut disk) => run_alone(alloc, words, source, sink, &mut disk),
        Err(_) => Status::NoMemory,
    }
}

// How a run on the words of a line ends.
fn came<S: Source, K: Sink>(alloc: Global, line: &str, source: &mut S, sink: &mut K) -> Status {
    match words_of(alloc, line) {
        Ok(words) => end(alloc, words.as_slice(), source, sink),
        Err(_) => Status::NoMemory,
    }
}

// A source one of whose reads fails.
fn source_of(alloc: Global, bytes: &[u8], fails: u64) -> Result<MemSource, AllocError> {
    let reads = [fails].to_vec(alloc)?;
    Ok(MemSource::new(bytes.to_vec(alloc)?, reads))
}

// A sink that takes one byte a write, one of which fails.
fn slow_sink(alloc: Global, fails: u64) -> Result<SlowSink, AllocError> {
    Ok(SlowSink(MemSink::new([fails].to_vec(alloc)?)))
}

// How the input is read, with the number of the read that fails.
#[derive(Clone, Copy)]
enum Reads {
    Whole(u64),
    AByteEach(u64),
}

// The words of a run, how the input is read, the number of the byte whose write fails, how the run ends, and what is then
// written.
#[derive(Clone, Copy)]
struct Run(&'static str, Reads, u64, Status, &'static [u8]);

fn ends_so(alloc: Global, run: &Run) -> bool {
    match run.1 {
        Reads::Whole(fails) => match source_of(alloc, ONE_SEAT, fails) {
            Ok(source) => writes(alloc, run, source),
            Err(_) => false,
        },
        Reads::AByteEach(fails) => match source_of(alloc, ONE_SEAT, fails) {
            Ok(source) => writes(alloc, run, SlowSource(source)),
            Err(_) => false,
        },
    }
}

fn writes<S: Source + Drop>(alloc: Global, run: &Run, source: S) -> bool {
    match slow_sink(alloc, run.2) {
        Ok(sink) => writes_into(alloc, run, source, sink),
        Err(_) => false,
    }
}

fn writes_into<S: Source + Drop>(
    alloc: Global,
    run: &Run,
    mut source: S,
    mut sink: SlowSink,
) -> bool {
    came(alloc, run.0, &mut source, &mut sink) == run.3 && sink.0.written() == run.4
}

const NOTHING: &[u8] = b"";

const RUNS: [Run; 15] = [
    Run("referee 0", Reads::Whole(0), 0, Status::Done, HELLO),
    Run("referee 0", Reads::AByteEach(0), 0, Status::Done, HELLO),
    Run("referee 0", Reads::Whole(1), 0, Status::ReadFault, NOTHING),
    Run("referee 0", Reads::Whole(2), 0, Status::ReadFault, NOTHING),
    Run("referee 0", Reads::Whole(3), 0, Status::Done, HELLO),
    Run("replay", Reads::Whole(1), 0, Status::ReadFault, NOTHING),
    Run(
        "replay",
        Reads::Whole(3),
        0,
        Status::BadRecord(3, Cause::Line),
        NOTHING,
    ),
    Run(READY, Reads::Whole(1), 0, Status::Done, LINES_OF_READY),
    Run(
        "selfplay 7",
        Reads::Whole(1),
        0,
        Status::Done,
        LINES_OF_SEVEN,
    ),
    Run("referee 0", Reads::Whole(0), 1, Status::WriteFault, NOTHING),
    Run("referee 0", Reads::Whole(0), 2, Status::WriteFault, b"{"),
    Run(READY, Reads::Whole(0), 0, Status::Done, LINES_OF_READY),
    Run(READY, Reads::Whole(0), 1, Status::WriteFault, NOTHING),
    Run(
        READY,
        Reads::Whole(0),
        11,
        Status::WriteFault,
        b"shanten 0\n",
    ),
    Run(
        "selfplay 7",
        Reads::Whole(0),
        8,
        Status::WriteFault,
        b"hands 9",
    ),
];

// The words of the first run that ends otherwise; empty where there is none.
fn unlike(alloc: Global) -> &'static str {
    for run in &RUNS {
        if !ends_so(alloc, run) {
            return run.0;
        }
    }
    ""
}

#[test]
fn a_fault_of_a_read_tells_nothing_and_one_of_a_write_leaves_a_prefix(rt: HostRuntime) {
    let words = unlike(rt.alloc());
    assert!(rt; words.is_empty(), "{words}");
}

// Arrivals that end in a line.
const CUT: &[u8] = b"game limit=1000 draws=0 red=0\nwall";

// Runs on one source and one sink, one after the other, and how each ends.
const ON_ONE_SOURCE: [(&str, Status); 5] = [
    (READY, Status::Done),
    ("hand 1m", Status::Words),
    ("", Status::Words),
    ("referee 0", Status::BadArrival(2)),
    ("referee 0", Status::Done),
];

const SELFPLAY: [(&str, Status); 6] = [
    ("selfplay 7", Status::Done),
    ("selfplay", Status::Words),
    ("selfplay 7 7", Status::Words),
    ("selfplay 07", Status::Words),
    ("selfplay -7", Status::Words),
    ("selfplay 18446744073709551616", Status::Words),
];

// Whether runs on one source end so, and this is then written.
fn end_so(alloc: Global, source: &mut MemSource, runs: &[(&str, Status)], text: &[u8]) -> bool {
    let mut sink = MemSink::new(Vec::new(alloc));
    let mut right = true;
    for (line, status) in runs {
        right = right && came(alloc, *line, source, &mut sink) == *status;
    }
    right && sink.written() == text
}

// Whether they do on a source of these bytes, one of whose reads fails.
fn end_so_on(
    alloc: Global,
    bytes: &[u8],
    fails: u64,
    runs: &[(&str, Status)],
    text: &[u8],
) -> bool {
    match source_of(alloc, bytes, fails) {
        Ok(mut source) => end_so(alloc, &mut source, runs, text),
        Err(_) => false,
    }
}

#[test]
fn commands_that_read_nothing_leave_the_source_as_it_was(rt: HostRuntime) {
    let alloc = rt.alloc();
    assert!(rt; end_so_on(alloc, CUT, 0, &ON_ONE_SOURCE, LINES_OF_READY));
    assert!(rt; end_so_on(alloc, ONE_SEAT, 1, &SELFPLAY, LINES_OF_SEVEN));
}

// A status, its code and its text.
const STATUSES: [(Status, u8, &str); 11] = [
    (Status::Done, 0, ""),
    (Status::ReadFault, 3, "read fault\n"),
    (Status::WriteFault, 4, "write fault\n"),
    (Status::NoMemory, 5, "no memory\n"),
    (
        Status::BadArrival(u32::MAX),
        6,
        "bad arrival at line 4294967295\n",
    ),
    (
        Status::BadRecord(u32::MAX, Cause::Next),
        7,
        "bad record at line 4294967295: 4\n",
    ),
    (Status::TooLong, 9, "input too long\n"),
    (Status::DiskFault, 11, "disk fault\n"),
    (Status::OtherGame, 12, "journal of another game\n"),
    (
        Status::BadJournal(u64::MAX),
        13,
        "bad journal at byte 18446744073709551615\n",
    ),
    (
        Status::Words,
        2,
        "usage: riichi_table referee SEAT | serve --seed HEX [--limit MS] [--port N] [--draws] [--red] | replay | hand WORDS | selfplay N | observe | keep SEAT | safe SEAT | tables --seed HEX --rooms N [--limit MS] [--port N] [--draws] [--red]\n",
    ),
];

fn has_text(alloc: Global, status: &Status, text: &str) -> bool {
    match status_text(alloc, status) {
        Ok(found) => found.as_slice() == text.as_bytes(),
        Err(_) => false,
    }
}

fn are_told(alloc: Global) -> bool {
    let mut all = true;
    for (status, code, text) in &STATUSES {
        all = all && exit_code(status) == *code && has_text(alloc, status, text);
    }
    all
}

#[test]
fn each_status_has_its_code_and_its_text(rt: HostRuntime) {
    assert!(rt; are_told(rt.alloc()));
}
