//! What tells the time.

ghost use Rattle.std.specs.Prelude.{◌≡◌, ℕ, [], ◌∷◌, ◌+◌, ◌*◌, ◌%◌, ◌^◌, List, Option, Some};
ghost use Rattle.std.specs.Io.KnownBytes.{Appends};

use crate::faults::FaultCount;

/// A clock, in milliseconds. For proofs it tells its `readings`, oldest first, where they are known.
pub trait Clock: Send {
    ghost readings: { Self → Option (List ℕ) };

    /// The time now. It never fails.
    fn now(&mut self) -> u64
        ensures { Appends (readings self.old) (readings self.new) (result ∷ []) };
}

/// A clock in memory. Its reading k, from 0, is `first` and k times `step`, modulo 2^64.
#[derive(Drop)]
pub struct MemClock {
    first: u64,
    step: u64,
    next: u64,
    made: FaultCount,
    ghost counted: { next ≡ (first + made.count * step) % 2 ^ 64 },
}

impl MemClock {
    ghost use Rattle.mj_links.specs.Clocks.{clock_readings, clock_first, clock_step};

    /// A clock that was not read yet.
    pub fn new(first: u64, step: u64) -> MemClock
        ensures readings { clock_readings result ≡ [] }
        ensures first { clock_first result ≡ first }
        ensures step { clock_step result ≡ step }
    {
        MemClock {
            first,
            step,
            next: first,
            made: FaultCount::new(),
        }
    }
}

impl Clock for MemClock {
    ghost use Rattle.mj_links.specs.Clocks.{clock_readings, clock_first, clock_step, clock_reading, clock_made};

    ghost readings = { λ c. Some (clock_readings c) };

    #[tactic(auto, using(crate::proofs::ClockLaws::reading_on))]
    fn now(&mut self) -> u64
        ensures told { Appends (Some (clock_readings self.old)) (Some (clock_readings self.new))
            (result ∷ []) }
        ensures exact { result ≡ clock_reading (clock_first self.old) (clock_step self.old)
            (clock_made self.old) }
        ensures counted { clock_made self.new ≡ clock_made self.old + 1 }
        ensures first { clock_first self.new ≡ clock_first self.old }
        ensures step { clock_step self.new ≡ clock_step self.old }
    {
        let now = self.next;
        self.made = self.made.more();
        self.next = self.next.wrapping_add(self.step);
        now
    }
}
