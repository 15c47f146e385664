//! Lines that come off a wire, and pieces that go onto it.

use crate::slow::SlowLink;
use mj_links::{LineRead, Link, MemLink, Sent, Wire};
use std::alloc::{AllocError, Global};

// A link from which these bytes are read, one of whose reads fails.
fn link(alloc: Global, bytes: &[u8], fails: u64) -> Result<MemLink, AllocError> {
    let reads = [fails].to_vec(alloc)?;
    Ok(MemLink::new(bytes.to_vec(alloc)?, reads, Vec::new(alloc)))
}

// Reads lines until one does not come, and puts what the line then is after a text, with a bar after each line that came.
fn read_lines<L: Link>(
    wire: &mut Wire<L>,
    line: &mut Vec<u8>,
    text: &mut Vec<u8>,
) -> Result<LineRead, AllocError> {
    for _ in 0..9u32 {
        let read = wire.read_line(line);
        text.extend_from_slice(line.as_slice())?;
        if read != LineRead::Line {
            return Ok(read);
        }
        text.push(b'|')?;
    }
    Ok(LineRead::Line)
}

// Whether the lines of a wire are these, first up to such an end and then to the end of the input.
fn reads<L: Link + Drop>(alloc: Global, link: L, end: LineRead, wanted: &[u8]) -> bool {
    let mut wire = Wire::new(link);
    let (mut line, mut last) = (Vec::new(alloc), Vec::new(alloc));
    let mut text = Vec::new(alloc);
    let first = read_lines(&mut wire, &mut line, &mut text);
    let second = read_lines(&mut wire, &mut last, &mut text);
    first == Ok(end) && second == Ok(LineRead::Ended) && text.as_slice() == wanted
}

// Bytes, the number of the read that fails, how the lines first end, and they.
const LINES: [(&[u8], u64, LineRead, &[u8]); 4] = [
    (b"chi\n\nron\r\n", 0, LineRead::Ended, b"chi||ron\r|ron\r"),
    (b"chi\npo", 0, LineRead::Ended, b"chi|chi"),
    (b"chi\npon\n", 1, LineRead::Fault, b"chi|pon|pon"),
    (b"chi\npon\n", 2, LineRead::Fault, b"chi|pon|pon"),
];

// Where a byte comes a read.
const BY_BYTES: [(&[u8], u64, LineRead, &[u8]); 3] = [
    (b"chi\n\nron\r\n", 0, LineRead::Ended, b"chi||ron\r|ron\r"),
    (b"chi\npo", 0, LineRead::Ended, b"chi|chi"),
    (b"chi\npon\n", 7, LineRead::Fault, b"chi|chipon|pon"),
];

fn is_read(alloc: Global, row: &(&[u8], u64, LineRead, &[u8])) -> bool {
    match link(alloc, row.0, row.1) {
        Ok(link) => reads(alloc, link, row.2, row.3),
        Err(_) => false,
    }
}

fn is_read_slowly(alloc: Global, row: &(&[u8], u64, LineRead, &[u8])) -> bool {
    match link(alloc, row.0, row.1) {
        Ok(link) => reads(alloc, SlowLink(link), row.2, row.3),
        Err(_) => false,
    }
}

fn are_read(alloc: Global) -> bool {
    let mut all = true;
    for row in &LINES {
        all = all && is_read(alloc, row);
    }
    for row in &BY_BYTES {
        all = all && is_read_slowly(alloc, row);
    }
    all
}

#[test]
fn a_line_is_the_bytes_before_the_next_newline(rt: HostRuntime) {
    assert!(rt; are_read(rt.alloc()));
}

// A link from which so many bytes are read, and then some more.
fn long(alloc: Global, count: usize, last: &[u8]) -> Result<MemLink, AllocError> {
    let mut bytes = Vec::new(alloc);
    bytes.resize(count, b'1')?;
    bytes.extend_from_slice(last)?;
    Ok(MemLink::new(bytes, Vec::new(alloc), Vec::new(alloc)))
}

// How the first reading of a link ends, how the next one does, and how long the line then is.
fn first_two(alloc: Global, link: MemLink) -> (LineRead, LineRead, usize) {
    let mut wire = Wire::new(link);
    let mut line = Vec::new(alloc);
    let first = wire.read_line(&mut line);
    let second = wire.read_line(&mut line);
    (first, second, line.len())
}

const LONG: [(usize, &[u8], (LineRead, LineRead, usize)); 4] = [
    (4095, b"\n", (LineRead::Line, LineRead::Ended, 4095)),
    (4095, b"", (LineRead::Ended, LineRead::Ended, 0)),
    (4096, b"\n", (LineRead::TooLong, LineRead::TooLong, 0)),
    (4096, b"", (LineRead::TooLong, LineRead::TooLong, 0)),
];

fn end_so(alloc: Global, count: usize, last: &[u8], ends: (LineRead, LineRead, usize)) -> bool {
    match long(alloc, count, last) {
        Ok(link) => first_two(alloc, link) == ends,
        Err(_) => false,
    }
}

fn all_end_so(alloc: Global) -> bool {
    let mut all = true;
    for (count, last, ends) in &LONG {
        all = all && end_so(alloc, *count, last, *ends);
    }
    all
}

#[test]
fn a_line_has_fewer_than_4096_bytes(rt: HostRuntime) {
    assert!(rt; all_end_so(rt.alloc()));
}

// A link one of whose writes fails.
fn mute(alloc: Global, fails: u64) -> Result<MemLink, AllocError> {
    let writes = [fails].to_vec(alloc)?;
    Ok(MemLink::new(Vec::new(alloc), Vec::new(alloc), writes))
}

// How the sending of two pieces ends, and the link.
fn send_two<L: Link>(link: L) -> (Sent, Sent, L) {
    let mut wire = Wire::new(link);
    let first = wire.send(b"chi");
    let second = wire.send(b"ron");
    (first, second, wire.into_link())
}

fn sends(link: MemLink, first: Sent, second: Sent, text: &[u8]) -> bool {
    let sent = send_two(link);
    sent.0 == first && sent.1 == second && sent.2.written() == text
}

fn sends_slowly(link: SlowLink, first: Sent, second: Sent, text: &[u8]) -> bool {
    let sent = send_two(link);
    sent.0 == first && sent.1 == second && sent.2.0.written() == text
}

// The number of the write that fails, how two pieces are sent, and what is written.
const SENT: [(u64, Sent, Sent, &[u8]); 3] = [
    (0, Sent::Whole, Sent::Whole, b"chiron"),
    (1, Sent::Failed, Sent::Whole, b"ron"),
    (2, Sent::Whole, Sent::Failed, b"chi"),
];

// Where a byte is taken a write: a piece goes on where the last write ended.
const SENT_BY_BYTES: [(u64, Sent, Sent, &[u8]); 3] = [
    (0, Sent::Whole, Sent::Whole, b"chiron"),
    (3, Sent::Failed, Sent::Whole, b"chron"),
    (6, Sent::Whole, Sent::Failed, b"chiro"),
];

fn is_sent(alloc: Global, row: &(u64, Sent, Sent, &[u8])) -> bool {
    match mute(alloc, row.0) {
        Ok(link) => sends(link, row.1, row.2, row.3),
        Err(_) => false,
    }
}

fn is_sent_slowly(alloc: Global, row: &(u64, Sent, Sent, &[u8])) -> bool {
    match mute(alloc, row.0) {
        Ok(link) => sends_slowly(SlowLink(link), row.1, row.2, row.3),
        Err(_) => false,
    }
}

fn are_sent(alloc: Global) -> bool {
    let mut all = true;
    for row in &SENT {
        all = all && is_sent(alloc, row);
    }
    for row in &SENT_BY_BYTES {
        all = all && is_sent_slowly(alloc, row);
    }
    all
}

#[test]
fn a_piece_is_sent_whole_or_up_to_a_fault(rt: HostRuntime) {
    assert!(rt; are_sent(rt.alloc()));
}
