//! The pause of the objects that ask the system again and again.

use std::thread;
use std::time::{Clock, Duration};

const PAUSE_MS: u64 = 20;

/// Waits 20 ms.
pub(crate) fn pause<R: Clock>(rt: &R) {
    thread::sleep(rt, Duration::from_millis(PAUSE_MS));
}
