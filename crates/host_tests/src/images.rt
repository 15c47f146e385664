//! What a stop may leave on a disk.

use mj_journal::{CallMade, DiskCall, MemDisk};
use std::alloc::{AllocError, Global};

/// The image that a stop leaves of a disk that had these bytes at first: of a write that no sync has secured nothing stands (0),
/// or all of it (1), or its first half and ones for the rest (2), or other bytes in place of all (3).
pub fn left_by(
    alloc: Global,
    start: &[u8],
    disk: &MemDisk,
    tear: u32,
) -> Result<Vec<u8>, AllocError> {
    let mut image = start.to_vec(alloc)?;
    let mut pending = None;
    for call in disk.calls() {
        if let DiskCall::Write { place, piece } = &call.what {
            pending = Some((*place as usize, piece.as_slice()));
        }
        if is_synced(call) {
            if let Some((place, piece)) = pending {
                put(&mut image, place, piece, 1)?;
            }
            pending = None;
        }
    }
    if let Some((place, piece)) = pending {
        put(&mut image, place, piece, tear)?;
    }
    Ok(image)
}

fn is_synced(call: &CallMade) -> bool {
    matches!(&call.what, DiskCall::Sync) && !call.failed
}

// Puts at a place what is left of a piece that is torn so.
fn put(image: &mut Vec<u8>, place: usize, piece: &[u8], tear: u32) -> Result<(), AllocError> {
    if tear == 0 {
        return Ok(());
    }
    for (at, byte) in piece.iter().enumerate() {
        let left = left_of(*byte, at < piece.len() / 2, tear);
        let at = place.saturating_add(at);
        if at < image.len() {
            image[at] = left;
        } else {
            image.push(left)?;
        }
    }
    Ok(())
}

// What is left of a byte, of the first half or not.
fn left_of(byte: u8, first: bool, tear: u32) -> u8 {
    match tear {
        1 => byte,
        2 => { if first { byte } else { 1 } }
        _ => 254,
    }
}

// Where the record at a place ends, where an open gate stands there and the record is whole.
fn end_of_record(journal: &[u8], place: usize) -> Option<usize> {
    match journal.get(place..)? {
        [1, a, b, c, d, ..] => {
            let length = u32::from_be_bytes([*a, *b, *c, *d]) as usize;
            let end = place.checked_add(5)?.checked_add(length)?;
            journal.get(end)?;
            Some(end)
        }
        _ => None,
    }
}

/// How many records a journal has.
pub fn records(journal: &[u8]) -> usize {
    let mut place = 0;
    for count in 0..journal.len() {
        match end_of_record(journal, place) {
            Some(end) => place = end,
            None => return count,
        }
    }
    journal.len()
}

/// The first records of a journal, so many, as a journal of their own, and behind them bytes before the closed gate.
pub fn front_of(
    alloc: Global,
    journal: &[u8],
    count: usize,
    more: &[u8],
) -> Result<Vec<u8>, AllocError> {
    let mut place = 0;
    for _ in 0..count {
        if let Some(end) = end_of_record(journal, place) {
            place = end;
        }
    }
    let mut front = journal.get(..place).unwrap_or(journal).to_vec(alloc)?;
    front.extend_from_slice(more)?;
    front.push(0)?;
    Ok(front)
}
