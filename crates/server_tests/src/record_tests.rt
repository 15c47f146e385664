//! Records that are checked once a line of theirs is spoilt.

use mj_bytes::split_line;
use mj_replay::{Cause, Checked, check};
use std::alloc::{AllocError, Global};

// What is done to a line of a record.
#[derive(Clone, Copy)]
enum Spoilt {
    // It is left out.
    Deleted,
    // It stands twice.
    Doubled,
    // It stands after the next one.
    Swapped,
}

const WAYS: [Spoilt; 3] = [Spoilt::Deleted, Spoilt::Doubled, Spoilt::Swapped];

// The lines of a text before a place, counted from 0, the one at the place, and those after it.
fn cut(text: &[u8], place: usize) -> Option<(&[u8], &[u8], &[u8])> {
    let mut rest = text;
    for _ in 0..place {
        rest = split_line(rest)?.1;
    }
    let behind = split_line(rest)?.1;
    let (before, rest) = text.split_at(text.len().saturating_sub(rest.len()));
    let (line, behind) = rest.split_at(rest.len().saturating_sub(behind.len()));
    Some((before, line, behind))
}

// Four pieces of a text, one after the other.
#[derive(Clone, Copy)]
struct FourPieces<'a> {
    first: &'a [u8],
    second: &'a [u8],
    third: &'a [u8],
    last: &'a [u8],
}

// The pieces of a text whose line at a place is spoilt; none where there is no such line, or no next one to stand before it.
fn spoilt_pieces(text: &[u8], place: usize, how: Spoilt) -> Option<FourPieces<'_>> {
    let (before, line, behind) = cut(text, place)?;
    match how {
        Spoilt::Deleted => Some(pieces(before, b"", b"", behind)),
        Spoilt::Doubled => Some(pieces(before, line, line, behind)),
        Spoilt::Swapped => {
            let (_, next, others) = cut(behind, 0)?;
            Some(pieces(before, next, line, others))
        }
    }
}

fn pieces<'a>(
    first: &'a [u8],
    second: &'a [u8],
    third: &'a [u8],
    last: &'a [u8],
) -> FourPieces<'a> {
    FourPieces {
        first,
        second,
        third,
        last,
    }
}

fn push_pieces(text: &mut Vec<u8>, pieces: FourPieces<'_>) -> Result<(), AllocError> {
    text.extend_from_slice(pieces.first)?;
    text.extend_from_slice(pieces.second)?;
    text.extend_from_slice(pieces.third)?;
    text.extend_from_slice(pieces.last)
}

// The first line, counted from 1, that breaks the form of a record of so many lines once the one at a place, counted from
// 0, is spoilt; none where a record stays: without its last line, and with its one wall twice.
fn first_broken(place: u32, lines: u32, how: Spoilt) -> Option<(u32, Cause)> {
    let number = place.saturating_add(1);
    match (how, place) {
        (Spoilt::Deleted | Spoilt::Swapped, 0) => Some((1, Cause::Header)),
        (Spoilt::Deleted | Spoilt::Swapped, 1) => Some((2, Cause::Wall)),
        (Spoilt::Deleted, _) if number == lines => None,
        (Spoilt::Deleted | Spoilt::Swapped, _) => Some((number, Cause::Next)),
        (Spoilt::Doubled, 0) => Some((2, Cause::Wall)),
        (Spoilt::Doubled, 1) => None,
        (Spoilt::Doubled, _) => Some((number.saturating_add(1), Cause::Next)),
    }
}

// Whether a text is told to be a record, or none for the first line that breaks its form.
fn is_checked(alloc: Global, text: &[u8], broken: Option<(u32, Cause)>) -> bool {
    match check(alloc, text) {
        Checked::Good(_) => broken.is_none(),
        Checked::Bad(line, cause) => broken == Some((line, cause)),
        Checked::NoMemory => false,
    }
}

fn is_spoilt_so(alloc: Global, pieces: FourPieces<'_>, broken: Option<(u32, Cause)>) -> bool {
    let mut text = Vec::new(alloc);
    push_pieces(&mut text, pieces).is_ok() && is_checked(alloc, text.as_slice(), broken)
}

// Whether a record of so many lines is refused where the line at a place is spoilt in each way.
fn is_refused(alloc: Global, text: &[u8], place: u32, lines: u32) -> bool {
    let mut right = true;
    for how in WAYS {
        if let Some(pieces) = spoilt_pieces(text, place as usize, how) {
            right = right && is_spoilt_so(alloc, pieces, first_broken(place, lines, how));
        }
    }
    right
}

/// How many lines a text has.
pub fn number_of_lines(text: &[u8]) -> u32 {
    let mut lines = 0u32;
    for byte in text {
        if *byte == b'\n' {
            lines = lines.saturating_add(1);
        }
    }
    lines
}

/// Whether a record of so many lines is one, and is none once any of its lines is spoilt.
pub fn all_refused(alloc: Global, text: &[u8], lines: u32) -> bool {
    let mut right = is_checked(alloc, text, None);
    for place in 0..lines {
        right = right && is_refused(alloc, text, place, lines);
    }
    right
}
