//! A hosted game that is stopped at one call of its disk after the other, and goes on each time from what the stop has left.

use crate::guests::Guests;
use crate::images::{front_of, left_by, records};
use crate::running::{
    BRIEF, LEAVING, NOTHING, Ran, disk_of, host_one, is_kept, is_whole, tells_again,
};
use mj_durable::HostEnd;
use std::alloc::{AllocError, Global};
use std::sync::Wait;
use std::test::Fail;
use std::thread::Threads;
use std::time;

/// A game that was stopped again and again: what a stop has left of its disk, and its runs.
#[derive(Drop)]
struct Course {
    image: Vec<u8>,
    runs: Vec<Box<Ran>>,
}

impl Course {
    // Whether a run from there whose disk fails at this call, counted from where the journal's records are read, is stopped by
    // that, or has ended before. It goes on from what a stop leaves of the disk then, torn in one of four ways.
    fn is_stopped<R: Threads + Wait + time::Clock + Sync>(
        &mut self,
        rt: &R,
        alloc: Global,
        guests: Guests,
        call: u32,
    ) -> Result<bool, AllocError> {
        // a record takes two reads
        let reads = (records(self.image.as_slice()) as u64).saturating_mul(2);
        let fails = reads.saturating_add(u64::from(call));
        let disk = disk_of(alloc, self.image.as_slice(), fails)?;
        let ran = host_one(rt, alloc, guests, disk)?;
        let stopped = matches!(ran.end, HostEnd::DiskFault) && ran.record.is_empty();
        let right = if (ran.disk.calls().len() as u64) < fails {
            is_whole(alloc, &ran)
        } else {
            stopped
        };
        self.image = left_by(alloc, self.image.as_slice(), &ran.disk, call % 4)?;
        self.runs.push(ran)?;
        Ok(right)
    }

    // Whether a run from there ends well, tells all again, and its record begins with that of the journal.
    fn goes_on<R: Threads + Wait + time::Clock + Sync>(
        &self,
        rt: &R,
        alloc: Global,
        guests: Guests,
    ) -> Result<bool, AllocError> {
        let image = self.image.as_slice();
        let ran = host_one(rt, alloc, guests, disk_of(alloc, image, 0)?)?;
        let mut right = is_whole(alloc, &ran) && is_kept(alloc, image, ran.record.as_slice());
        for before in &self.runs {
            right = right && tells_again(&ran.board, &before.board);
        }
        Ok(right)
    }
}

// Whether a game is stopped at each of these calls, one run after the other, and goes on then: for a while, and to its end.
fn outlives<R: Threads + Wait + time::Clock + Sync>(
    rt: &R,
    alloc: Global,
    mut course: Course,
    calls: u32,
) -> Result<bool, AllocError> {
    let mut right = true;
    for call in 1..=calls {
        right = right && course.is_stopped(rt, alloc, BRIEF, call)?;
    }
    Ok(right && course.goes_on(rt, alloc, BRIEF)? && course.goes_on(rt, alloc, LEAVING)?)
}

// A game in which four are seated.
fn seated<R: Threads + Wait + time::Clock + Sync>(
    rt: &R,
    alloc: Global,
) -> Result<Course, AllocError> {
    let ran = host_one(rt, alloc, BRIEF, disk_of(alloc, NOTHING, 0)?)?;
    Ok(Course {
        image: front_of(alloc, ran.disk.bytes(), 5, NOTHING)?,
        runs: Vec::new(alloc),
    })
}

// First those who were seated leave, then they come back; at last the time of each window runs out.
#[test]
fn a_begun_game_outlives_a_stop_at_each_call(rt: HostRuntime) -> Result<(), Fail> {
    let course = seated(&rt, rt.alloc())?;
    assert!(rt; outlives(&rt, rt.alloc(), course, 24)?);
    Ok(())
}
