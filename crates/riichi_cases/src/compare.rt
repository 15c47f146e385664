//! Where two texts first differ.

use mj_bytes::{push_all, push_number};
use std::alloc::AllocError;

/// Whether what came is another text than what is wanted; the first line that differs is then written.
pub fn push_difference(
    words: &[u8],
    came: &[u8],
    wanted: &[u8],
    into: &mut Vec<u8>,
) -> Result<bool, AllocError> {
    let Some((number, line, other)) = first_difference(came, wanted) else {
        return Ok(false);
    };
    push_all(into, words)?;
    push_all(into, b": line ")?;
    push_number(into, number)?;
    push_all(into, b" is ")?;
    push_all(into, line)?;
    push_all(into, b" and not ")?;
    push_all(into, other)?;
    Ok(true)
}

// The first line that differs: its number, counted from 1, and how it stands in either text.
fn first_difference<'a>(came: &'a [u8], wanted: &'a [u8]) -> Option<(u64, &'a [u8], &'a [u8])> {
    let mut others = wanted.split(|byte| *byte == b'\n');
    let mut number = 0u64;
    for line in came.split(|byte| *byte == b'\n') {
        number = number.saturating_add(1);
        let other = others.next().unwrap_or(b"(the end)");
        if line != other {
            return Some((number, line, other));
        }
    }
    match others.next() {
        Some(other) => Some((number.saturating_add(1), b"(the end)", other)),
        None => None,
    }
}
