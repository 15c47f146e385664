//! Runs of the commands `serve` and `tables` over hosts in memory, and what they come to.

use crate::meeting::{Meeting, MeetingHost, Sign};
use crate::waiting::WaitingHost;
use mj_front::{Status, exit_code, is_for_waiting, run, run_alone, status_text};
use mj_journal::MemDisk;
use mj_links::{Clock, Host, MemClock, MemHost, MemLink, MemSink, MemSource};
use std::alloc::{AllocError, Global};
use std::sync::Wait;
use std::thread::Threads;
use std::time;
use test_guests::{Crowd, HELLO, host_of};

// How the line of a deed ends where a seat may only pass.
const MAY_PASS: &str = ",\"possible_actions\":[{\"type\":\"none\"}]}\n";

/// The words of the command `serve`.
pub const SERVE: [&str; 5] = [
    "serve",
    "--seed",
    "0707070707070707070707070707070707070707070707070707070707070707",
    "--limit",
    "1000",
];

/// The words of the command `tables`, without the number of the rooms.
pub const TABLES: [&str; 6] = [
    "tables",
    "--seed",
    "0707070707070707070707070707070707070707070707070707070707070707",
    "--limit",
    "1000",
    "--rooms",
];

/// What a run over a host comes to.
#[derive(Clone, Copy)]
pub enum Wanted {
    /// A game of four whose links came back, each told of its own seat, and its record.
    Game,
    /// A game in each of two rooms, and the two records.
    TwoGames,
    /// A fault of the host, and a record of so many lines that begins so.
    Left(usize, &'static str),
    /// A fault of the host, and two records of which the second begins and ends so.
    LeftTwo(&'static str, &'static str),
    /// The words are refused, the host isn't opened, and nothing is written.
    Refused,
}

// Texts, and more of them, as the words of a command.
fn words_and(alloc: Global, texts: &[&str], more: &[&str]) -> Result<Vec<String>, AllocError> {
    let mut words = Vec::new(alloc);
    push_words(alloc, &mut words, texts)?;
    push_words(alloc, &mut words, more)?;
    Ok(words)
}

fn push_words(alloc: Global, words: &mut Vec<String>, texts: &[&str]) -> Result<(), AllocError> {
    for text in texts {
        words.push(String::from_str(alloc, *text)?)?;
    }
    Ok(())
}

/// How the run on these words and more over a host ends; as without memory where the words are wanting.
pub fn run_on<H: Host, K: Clock, R: Threads + Wait + Sync>(
    rt: &R,
    alloc: Global,
    texts: &[&str],
    more: &[&str],
    host: &mut H,
    clock: &mut K,
    sink: &mut MemSink,
) -> Status {
    match words_and(alloc, texts, more) {
        Ok(words) => run_words(rt, alloc, words.as_slice(), host, clock, sink),
        Err(_) => Status::NoMemory,
    }
}

fn run_words<H: Host, K: Clock, R: Threads + Wait + Sync>(
    rt: &R,
    alloc: Global,
    words: &[String],
    host: &mut H,
    clock: &mut K,
    sink: &mut MemSink,
) -> Status {
    match MemDisk::new(b"", Vec::new(alloc)) {
        Ok(mut disk) => {
            let mut source = MemSource::new(Vec::new(alloc), Vec::new(alloc));
            run(rt, alloc, words, &mut source, sink, host, clock, &mut disk)
        }
        Err(_) => Status::NoMemory,
    }
}

/// Whether a run on these words and more, over a host to which this crowd comes, comes to this.
pub fn comes_to<R: Threads + Wait + time::Clock + Sync>(
    rt: &R,
    alloc: Global,
    texts: &[&str],
    more: &[&str],
    crowd: Crowd<'_>,
    wanted: Wanted,
) -> bool {
    match host_of(alloc, crowd) {
        Ok(host) => comes_to_over(rt, alloc, texts, more, host, wanted),
        Err(_) => false,
    }
}

fn comes_to_over<R: Threads + Wait + time::Clock + Sync>(
    rt: &R,
    alloc: Global,
    texts: &[&str],
    more: &[&str],
    host: MemHost,
    wanted: Wanted,
) -> bool {
    let mut host = WaitingHost::new(rt, host);
    let mut sink = MemSink::new(Vec::new(alloc));
    let mut clock = MemClock::new(0, 1000);
    let status = run_on(rt, alloc, texts, more, &mut host, &mut clock, &mut sink);
    is_so(alloc, &status, host.host(), sink.written(), wanted)
}

fn is_so(alloc: Global, status: &Status, host: &MemHost, written: &[u8], wanted: Wanted) -> bool {
    match wanted {
        Wanted::Game => {
            *status == Status::Done
                && host.ports() == [11600].as_slice()
                && is_told_to_four(host.returned())
                && is_whole(alloc, written)
        }
        Wanted::TwoGames => {
            *status == Status::Done
                && is_told_to_eight(host.returned())
                && are_whole(alloc, written)
        }
        Wanted::Left(lines, front) => {
            is_host_fault(alloc, status) && has_lines(alloc, written, lines, front)
        }
        Wanted::LeftTwo(front, end) => {
            exit_code(status) == 8 && is_second(alloc, written, front, end)
        }
        Wanted::Refused => {
            *status == Status::Words
                && exit_code(status) == 2
                && host.ports().is_empty()
                && written.is_empty()
        }
    }
}

// Whether a run ended by a fault of its host.
fn is_host_fault(alloc: Global, status: &Status) -> bool {
    match status_text(alloc, status) {
        Ok(text) => exit_code(status) == 8 && text.as_slice() == b"host fault\n".as_slice(),
        Err(_) => false,
    }
}

// Whether a record is good.
fn is_good(alloc: Global, record: &[u8]) -> bool {
    match words_and(alloc, &["replay"], &[]) {
        Ok(words) => is_replayed(alloc, words.as_slice(), record),
        Err(_) => false,
    }
}

fn is_replayed(alloc: Global, words: &[String], record: &[u8]) -> bool {
    match record.to_vec(alloc) {
        Ok(bytes) => ends_well(alloc, words, &mut MemSource::new(bytes, Vec::new(alloc))),
        Err(_) => false,
    }
}

fn ends_well(alloc: Global, words: &[String], source: &mut MemSource) -> bool {
    match MemDisk::new(b"", Vec::new(alloc)) {
        Ok(mut disk) => {
            let mut sink = MemSink::new(Vec::new(alloc));
            !is_for_waiting(words)
                && run_alone(alloc, words, source, &mut sink, &mut disk) == Status::Done
        }
        Err(_) => false,
    }
}

// Whether the last line of a record is that of the game's end.
fn is_ended(record: &[u8]) -> bool {
    match record.strip_suffix(b"\n") {
        Some(lines) => match lines.rsplit(|byte| *byte == b'\n').next() {
            Some(last) => last.starts_with(b"{\"type\":\"end_game\","),
            None => false,
        },
        None => false,
    }
}

// Whether a record is good, and that of a whole game.
fn is_whole(alloc: Global, record: &[u8]) -> bool {
    is_good(alloc, record) && is_ended(record)
}

fn has_lines(alloc: Global, written: &[u8], lines: usize, front: &str) -> bool {
    let found = written.iter().filter(|byte| **byte == b'\n').count();
    found == lines
        && written.starts_with(front.as_bytes())
        && (lines == 0 || is_good(alloc, written))
}

// The two records that are written, each behind the line of its table.
fn records_of(written: &[u8]) -> Option<(&[u8], &[u8])> {
    let rest = written.strip_prefix(b"table 0\n")?;
    let place = rest
        .windows(8)
        .position(|bytes| bytes == b"table 1\n".as_slice())?;
    let second = rest.get(place..)?;
    Some((rest.get(..place)?, second.strip_prefix(b"table 1\n")?))
}

// Whether good records of two whole games are written, which differ.
fn are_whole(alloc: Global, written: &[u8]) -> bool {
    match records_of(written) {
        Some((first, second)) => {
            first != second && is_whole(alloc, first) && is_whole(alloc, second)
        }
        None => false,
    }
}

// Whether what is written has two good records, the second of which begins and ends so.
fn is_second(alloc: Global, written: &[u8], front: &str, end: &str) -> bool {
    match records_of(written) {
        Some((first, second)) => {
            second.starts_with(front.as_bytes())
                && second.ends_with(end.as_bytes())
                && is_good(alloc, first)
                && is_good(alloc, second)
        }
        None => false,
    }
}

// What the first deed tells after the seat, where a link holds the hello line and that of this deed alone, which may only be
// passed.
fn names_told(link: &MemLink, place: u64) -> Option<&[u8]> {
    let start = link.written().strip_prefix(HELLO.as_bytes())?;
    let seat = start.strip_prefix(b"{\"type\":\"start_game\",\"id\":")?;
    let [digit, names @ ..] = seat else {
        return None;
    };
    let newline = names.iter().position(|byte| *byte == b'\n')?;
    if u64::from(*digit) == place.saturating_add(48)
        && newline.saturating_add(1) == names.len()
        && names.ends_with(MAY_PASS.as_bytes())
    {
        Some(names)
    } else {
        None
    }
}

// Whether four links came back, each with the hello line and the first deed of its own seat, with the same names.
fn is_told_to_four(returned: &[(MemLink, u64)]) -> bool {
    let [(first, place), ..] = returned else {
        return false;
    };
    let Some(names) = names_told(first, *place) else {
        return false;
    };
    let mut all = returned.len() == 4;
    for (link, place) in returned {
        all = all && names_told(link, *place) == Some(names);
    }
    all
}

// What the first deed told the two links of a seat, where there are two.
fn pair_told(returned: &[(MemLink, u64)], seat: u64) -> Option<(&[u8], &[u8])> {
    let mut first = None;
    let mut second = None;
    for (link, place) in returned {
        if *place == seat {
            if second.is_some() {
                return None;
            }
            second = first;
            first = Some(names_told(link, *place)?);
        }
    }
    Some((first?, second?))
}

// Whether eight links came back, four of each game, each with the hello line and the first deed of its own seat, with the same
// names in each game.
fn is_told_to_eight(returned: &[(MemLink, u64)]) -> bool {
    let Some((one, other)) = pair_told(returned, 0) else {
        return false;
    };
    let mut all = returned.len() == 8;
    for seat in 1..4 {
        let told = pair_told(returned, seat);
        all = all && (told == Some((one, other)) || told == Some((other, one)));
    }
    all
}

/// A run over links that wait for one another: its words and more, how many links are served, how long the line of a join is,
/// and how many other links are told that there is no such room.
#[derive(Clone, Copy)]
pub struct Met(
    pub &'static [&'static str],
    pub &'static [&'static str],
    pub u32,
    pub usize,
    pub u32,
);

/// Whether a crowd whose links wait for one another is served so.
pub fn meets<R: Threads + Wait + time::Clock + Sync>(
    rt: &R,
    alloc: Global,
    crowd: Crowd<'_>,
    met: Met,
) -> bool {
    match host_of(alloc, crowd) {
        Ok(links) => meets_over(rt, alloc, links, met),
        Err(_) => false,
    }
}

fn meets_over<R: Threads + Wait + time::Clock + Sync>(
    rt: &R,
    alloc: Global,
    links: MemHost,
    met: Met,
) -> bool {
    let meeting = Meeting::new(met.2, met.3);
    let mut host = MeetingHost::new(rt, &meeting, Sign::AllStarted, links);
    is_met(rt, alloc, &mut host, met)
        && meeting.refused() == met.4
        && host.returned() == met.2 as usize
}

fn is_met<H: Host, R: Threads + Wait + Sync>(
    rt: &R,
    alloc: Global,
    host: &mut H,
    met: Met,
) -> bool {
    let mut sink = MemSink::new(Vec::new(alloc));
    let mut clock = MemClock::new(0, 1000);
    let status = run_on(rt, alloc, met.0, met.1, host, &mut clock, &mut sink);
    status == Status::Done
        && match met.2 {
            4 => is_whole(alloc, sink.written()),
            _ => are_whole(alloc, sink.written()),
        }
}
