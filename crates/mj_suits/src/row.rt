//! Rows of lanes: what is left of fifteen tiles for each number of sets and pairs.

ghost use Rattle.std.specs.Prelude.{◌≡◌, ◌-◌, ◌+◌, ◌<◌, ◌++◌, ℕ, max, length, replicate, slice_index};
ghost use Rattle.mj_suits.specs.Rows.{Holds, lane, taken, start_lane, set_places};

use std::simd::prelude::*;

/// Lane 8p + s is for s sets, 0 to 7, and p pairs, 0 or 1.
#[derive(Clone, Copy)]
pub struct Row {
    lanes: u8x16,
}

impl Row {
    /// The row before any number is walked: fifteen with nothing to make, and 0, which is none, with anything.
    #[inline(always)]
    pub fn start() -> Row
        ensures { Holds result.lanes start_lane }
    {
        Row {
            lanes: u8x16::from_array([15, 0, 0, 0, 0, 0, 0, 0, 0, 0, 0, 0, 0, 0, 0, 0]),
        }
    }

    /// The row that has one value in each lane.
    #[inline(always)]
    pub fn all(value: u8) -> Row
        ensures { Holds result.lanes (λ s p. value) }
    {
        Row {
            lanes: u8x16::splat(value),
        }
    }

    /// Each lane less the other's, and 0 where that has more.
    #[inline(always)]
    pub fn less(self, other: Row) -> Row
        ensures { Holds result.lanes (λ s p. lane self.lanes s p - lane other.lanes s p) }
    {
        Row {
            lanes: lanes_less(self.lanes, other.lanes),
        }
    }

    /// The greater of each lane and the other's.
    #[inline(always)]
    pub fn greater(self, other: Row) -> Row
        ensures { Holds result.lanes (λ s p. max (lane self.lanes s p) (lane other.lanes s p)) }
    {
        Row {
            lanes: greater_lanes(self.lanes, other.lanes),
        }
    }

    /// Each lane moved to one pair more.
    #[inline(always)]
    pub fn more_pair(self) -> Row
        ensures { Holds result.lanes (taken 0 1 (lane self.lanes)) }
    {
        Row {
            lanes: lanes_by_pair(self.lanes),
        }
    }

    /// Each lane moved to one set more.
    #[inline(always)]
    #[tactic(auto, using(crate::proofs::Lanes::holds_by_set))]
    pub fn more_set(self) -> Row
        ensures { Holds result.lanes (taken 1 0 (lane self.lanes)) }
    {
        Row {
            lanes: lanes_by_set(self.lanes),
        }
    }

    /// The lane for so many sets, at most 7, and pairs, at most 1.
    #[inline(always)]
    pub fn at(self, sets: u8, pairs: u8) -> u8
        requires sets { sets < 8 }
        requires pairs { pairs < 2 }
        ensures { result ≡ lane self.lanes sets pairs }
    {
        self.lanes.to_array()[(8 * pairs + sets) as usize]
    }
}

// Each lane less the other's, and 0 where that has more.
#[inline(always)]
fn lanes_less(a: u8x16, b: u8x16) -> u8x16
    ensures { (i : ℕ) → i < 16 → slice_index result i ≡ slice_index a i - slice_index b i }
{
    a.saturating_sub(b)
}

// The greater of each lane and the other's.
#[inline(always)]
fn greater_lanes(a: u8x16, b: u8x16) -> u8x16
    ensures { (i : ℕ) → i < 16 → slice_index result i ≡ max (slice_index a i) (slice_index b i) }
{
    a.simd_max(b)
}

// Eight lanes of none, and then the first eight lanes.
#[inline(always)]
fn lanes_by_pair(a: u8x16) -> u8x16
    ensures { (i : ℕ) → i < 16 → slice_index result i ≡ slice_index (replicate 16 0 ++ a) (8 + i) }
{
    u8x16::splat(0).shuffle(
        a,
        [8, 9, 10, 11, 12, 13, 14, 15, 16, 17, 18, 19, 20, 21, 22, 23],
    )
}

// In each half a lane of none, and then its first seven lanes.
#[inline(always)]
fn lanes_by_set(a: u8x16) -> u8x16
    ensures long { length a ≡ 16 }
    ensures lanes { (i : ℕ) → i < 16 → slice_index result i
        ≡ slice_index (a ++ replicate 16 0) (slice_index set_places i) }
{
    a.shuffle(
        u8x16::splat(0),
        [16, 0, 1, 2, 3, 4, 5, 6, 16, 8, 9, 10, 11, 12, 13, 14],
    )
}
