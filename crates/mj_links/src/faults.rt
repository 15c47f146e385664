//! How many faults an object met, counted for proofs alone.

ghost use Rattle.std.specs.Prelude.{◌≡◌, ℕ, ◌+◌};
ghost use Rattle.std.specs.Borrow.{ftrue};

use std::marker::{Model, PhantomData};

/// A count of faults. It takes no memory, does nothing when the program runs, and so can't overflow.
#[derive(Drop)]
pub struct FaultCount {
    marker: PhantomData<u8>,
    pub ghost count: { ℕ },
}

impl Model for FaultCount {
    ghost also_owns = { λ _. ftrue };
}

// It owns nothing.
unsafe impl Send for FaultCount {}

// It has nothing to share.
unsafe impl Sync for FaultCount {}

impl FaultCount {
    /// No fault yet.
    pub fn new() -> FaultCount
        ensures { result.count ≡ 0 }
    {
        FaultCount {
            marker: PhantomData,
        }
    }

    /// One fault more.
    pub fn more(&self) -> FaultCount
        ensures { result.count ≡ self.now.count + 1 }
    {
        FaultCount {
            marker: PhantomData,
        }
    }
}
