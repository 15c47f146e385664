//! A case: a first line that says in plain words what it shows, and then parts, each under a head that begins with two dashes
//! and a space. Under `-- input` stand the arrivals of a game, under `-- input without its last newline` arrivals that break
//! off. Any other head is the words of a command, after which `=> ` and the exit code and text of the status follow where
//! the run doesn't end well; under it stands what the run on the newest input writes.

use crate::compare::push_difference;
use crate::outcome::{Outcome, outcome_of};
use bstr::ByteSlice;
use std::alloc::{AllocError, Global};

const MARK: &[u8] = b"\n-- ";

const INPUT: &[u8] = b"input";

const CUT_INPUT: &[u8] = b"input without its last newline";

// The lines under a head: a text and the newline at its end, which may be missing.
#[derive(Clone, Copy)]
struct Lines<'a> {
    text: &'a [u8],
    end: &'a [u8],
}

/// Runs a case, and writes that it holds or where it first differs.
pub fn push_verdict(alloc: Global, case: &[u8], into: &mut Vec<u8>) -> Result<(), AllocError> {
    let case = case.strip_suffix(b"\n").unwrap_or(case);
    let mut input = Lines {
        text: b"",
        end: b"",
    };
    let mut runs = 0u64;
    for part in case.split_str(MARK).skip(1) {
        let (head, lines) = head_and_lines(part);
        if head == INPUT {
            input = lines;
        } else if head == CUT_INPUT {
            input = Lines {
                text: lines.text,
                end: b"",
            };
        } else if push_fault(alloc, head, lines, input, into)? {
            return Ok(());
        } else {
            runs = runs.saturating_add(1);
        }
    }
    into.extend_from_slice(if runs > 0 { b"ok" } else { b"no run" })
}

// The head of a part and the lines under it.
fn head_and_lines(part: &[u8]) -> (&[u8], Lines<'_>) {
    match part.split_once_str(b"\n") {
        Some((head, text)) => (head, Lines { text, end: b"\n" }),
        None => (
            part,
            Lines {
                text: b"",
                end: b"",
            },
        ),
    }
}

// The bytes of lines.
fn bytes_of(alloc: Global, lines: Lines<'_>) -> Result<Vec<u8>, AllocError> {
    let mut bytes = Vec::from_slice(alloc, lines.text)?;
    bytes.extend_from_slice(lines.end)?;
    Ok(bytes)
}

// Whether a run gives something else than stands under its head, which is then written.
fn push_fault(
    alloc: Global,
    head: &[u8],
    lines: Lines<'_>,
    input: Lines<'_>,
    into: &mut Vec<u8>,
) -> Result<bool, AllocError> {
    let (words, ending) = head.split_once_str(b"=> ").unwrap_or((head, b"0"));
    let words = words.trim();
    let wanted = bytes_of(alloc, lines)?;
    let came = outcome_of(alloc, words, bytes_of(alloc, input)?)?;
    push_either(words, &came, wanted.as_slice(), ending, into)
}

// Whether a run comes to other bytes or ends otherwise, which is then written.
fn push_either(
    words: &[u8],
    came: &Outcome,
    wanted: &[u8],
    ending: &[u8],
    into: &mut Vec<u8>,
) -> Result<bool, AllocError> {
    if push_difference(words, came.bytes.as_slice(), wanted, into)? {
        return Ok(true);
    }
    push_difference(words, came.ending.as_slice(), ending, into)
}
