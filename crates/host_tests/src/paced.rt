//! A clock in memory that takes its time.

ghost use Rattle.std.specs.Prelude.{None};

use mj_links::Clock;
use std::time::Duration;
use std::{thread, time};

/// A clock that goes on by the same step from one reading to the next. Where it stands still a reading takes a millisecond, so
/// that who watches a window by it takes few turns. It tells nothing for proofs.
#[derive(Drop)]
pub struct PacedClock<'a, R> {
    rt: &'a R,
    step: u64,
    time: u64,
}

impl<'a, R> PacedClock<'a, R> {
    /// A clock that was not read yet.
    pub fn new(rt: &'a R, step: u64) -> PacedClock<'a, R> {
        PacedClock { rt, step, time: 0 }
    }
}

impl<'a, R: time::Clock + Sync> Clock for PacedClock<'a, R> {
    ghost readings = { λ _. None };

    fn now(&mut self) -> u64 {
        if self.step == 0 {
            thread::sleep(self.rt, Duration::from_millis(1));
        }
        self.time = self.time.wrapping_add(self.step);
        self.time
    }
}
