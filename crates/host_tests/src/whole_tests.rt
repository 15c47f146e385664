//! A whole game that is stopped at each call of its disk, and goes on to the same end from each image that the stop may leave.

use crate::board::Board;
use crate::images::left_by;
use crate::running::{NOTHING, Ran, SCRIPTED, disk_of, host_one, is_whole, tells_again};
use crate::script::CALLS;
use mj_durable::HostEnd;
use mj_journal::DiskCall;
use std::alloc::{AllocError, Global};
use std::sync::Wait;
use std::test::Fail;
use std::thread::Threads;
use std::time;

// Hosts the game of the script on a disk.
fn play<R: Threads + Wait + time::Clock + Sync>(
    rt: &R,
    alloc: Global,
    image: &[u8],
    fails: u64,
) -> Result<Box<Ran>, AllocError> {
    host_one(rt, alloc, SCRIPTED, disk_of(alloc, image, fails)?)
}

fn calls(ran: &Ran) -> u64 {
    ran.disk.calls().len() as u64
}

// What a record has after its walls and the start of the game.
fn hands(record: &[u8]) -> &[u8] {
    match record.splitn(3, |byte| *byte == b'{').last() {
        Some(hands) => hands,
        None => record,
    }
}

// Whether a run ended as one that wasn't stopped, whose players may have other seats.
fn ends_as(ran: &Ran, whole: &Ran) -> bool {
    matches!(ran.end, HostEnd::Over)
        && ran.board.is_right()
        && ran.record.len() == whole.record.len()
        && ran.record.ends_with(hands(whole.record.as_slice()))
}

// Whether the disk's fault stops a run at this call, and nothing is written then, there or here.
fn is_stopped(ran: &Ran, call: u64) -> bool {
    matches!(ran.end, HostEnd::DiskFault)
        && ran.board.is_right()
        && ran.record.is_empty()
        && calls(ran) == call
}

// Whether a game goes on from an image to the same end, and tells all again that was told before.
fn goes_on<R: Threads + Wait + time::Clock + Sync>(
    rt: &R,
    alloc: Global,
    whole: &Ran,
    told: &Board,
    image: &[u8],
) -> Result<bool, AllocError> {
    let ran = play(rt, alloc, image, 0)?;
    Ok(ends_as(&ran, whole) && tells_again(&ran.board, told))
}

// Whether the game is stopped at this call, and goes on from what that leaves: a write in two of four ways, as `left_by` has
// them, and the sync behind it in the others.
fn outlives<R: Threads + Wait + time::Clock + Sync>(
    rt: &R,
    alloc: Global,
    whole: &Ran,
    call: u64,
) -> Result<bool, AllocError> {
    let ran = play(rt, alloc, NOTHING, call)?;
    let mut right = is_stopped(&ran, call);
    let way = (call % 2) as u32;
    for tear in [way, way + 2] {
        let image = left_by(alloc, NOTHING, &ran.disk, tear)?;
        right = right && goes_on(rt, alloc, whole, &ran.board, image.as_slice())?;
    }
    Ok(right)
}

// Whether a game that is over gives its record again, and its journal isn't written to.
fn stays<R: Threads + Wait + time::Clock + Sync>(
    rt: &R,
    alloc: Global,
    whole: &Ran,
) -> Result<bool, AllocError> {
    let again = play(rt, alloc, whole.disk.bytes(), 0)?;
    let mut written = false;
    for call in again.disk.calls() {
        written = written || matches!(&call.what, DiskCall::Write { place: _, piece: _ });
    }
    Ok(ends_as(&again, whole) && again.record == whole.record && !written)
}

// Whether the game has so many calls of its disk, and outlives a stop at each of these.
fn outlives_all<R: Threads + Wait + time::Clock + Sync>(
    rt: &R,
    alloc: Global,
    first: u64,
    last: u64,
) -> Result<bool, AllocError> {
    let whole = play(rt, alloc, NOTHING, 0)?;
    let mut right = is_whole(alloc, &whole) && calls(&whole) == CALLS && stays(rt, alloc, &whole)?;
    for call in first..=last {
        right = right && outlives(rt, alloc, &whole, call)?;
    }
    Ok(right)
}

#[test]
fn a_whole_game_outlives_stops_in_its_first_quarter(rt: HostRuntime) -> Result<(), Fail> {
    assert!(rt; outlives_all(&rt, rt.alloc(), 1, CALLS / 4)?);
    Ok(())
}

#[test]
fn a_whole_game_outlives_stops_in_its_second_quarter(rt: HostRuntime) -> Result<(), Fail> {
    assert!(rt; outlives_all(&rt, rt.alloc(), CALLS / 4 + 1, CALLS / 2)?);
    Ok(())
}

#[test]
fn a_whole_game_outlives_stops_in_its_third_quarter(rt: HostRuntime) -> Result<(), Fail> {
    assert!(rt; outlives_all(&rt, rt.alloc(), CALLS / 2 + 1, CALLS / 4 * 3)?);
    Ok(())
}

#[test]
fn a_whole_game_outlives_stops_in_its_last_quarter(rt: HostRuntime) -> Result<(), Fail> {
    assert!(rt; outlives_all(&rt, rt.alloc(), CALLS / 4 * 3 + 1, CALLS)?);
    Ok(())
}
