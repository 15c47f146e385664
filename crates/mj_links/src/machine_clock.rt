//! The machine's clock.

ghost use Rattle.std.specs.Prelude.{None};

use crate::clock::Clock;
use crate::pause::pause;
use std::time;

/// The machine's clock that never goes back, in milliseconds from some start. It pauses 20 ms before
/// each reading, and repeats its last one, at first 0, where the machine's clock can't be read. It tells
/// nothing for proofs.
#[derive(Drop)]
pub struct MachineClock<R> {
    rt: R,
    last: u64,
}

impl<R: time::Clock + Send> MachineClock<R> {
    /// A clock that was not read yet.
    pub fn new(rt: R) -> MachineClock<R> {
        MachineClock { rt, last: 0 }
    }
}

impl<R: time::Clock + Send> Clock for MachineClock<R> {
    ghost readings = { λ _. None };

    fn now(&mut self) -> u64 {
        pause(&self.rt);
        self.last = reading(&self.rt).unwrap_or(self.last);
        self.last
    }
}

/// What the machine's clock shows, in milliseconds from some start, where it can be read.
pub(crate) fn reading<R: time::Clock>(rt: &R) -> Option<u64> {
    match rt.monotonic() {
        Ok(time) => Some(u64::try_from(time.as_millis()).unwrap_or(u64::MAX)),
        Err(_) => None,
    }
}
