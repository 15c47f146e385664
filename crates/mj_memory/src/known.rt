//! Rows of suits that were walked.

ghost use Rattle.std.specs.Prelude.{◌≡◌, ◌<◌, ◌≤◌, true, false, slice_index, EachIndex};
ghost use Rattle.mj_readings.specs.Tests.{complete, one_more};
ghost use Rattle.mj_suits.specs.Tables.{IsLeast};
ghost use Rattle.mj_shanten.specs.Room.{IsWithinRoom};
ghost use Rattle.mj_shanten.specs.Shanten.{IsGoal};
ghost use Rattle.mj_memory.specs.Ways.{OfSuit, LeavesBest};

use crate::far::Far;
use mj_suits::{Row, with_suit};
use mj_tiles::{Counts, Kind};
use std::alloc::{AllocError, Global};
use std::marker::Model;

// One row for each value of ten bits.
const ROWS: usize = 1_024;

/// The rows of suits that were walked last, and for each seat a hand that was far from complete.
#[derive(Drop)]
pub struct Memory {
    rows: Vec<KnownRow>,
    far: Vec<Far>,
}

// A suit, and what it leaves.
#[derive(Clone, Copy)]
struct KnownRow {
    counts: [u8; 9],
    room: [u8; 9],
    runs: bool,
    lanes: Row,
}

impl Model for KnownRow {
    ghost use Rattle.mj_memory.specs.Ways.{Known, OfSuit, LeavesBest};

    ghost Value = { Known };

    ghost view = { λ known. record {
      suit = record { counts = known.counts; room = known.room; runs = known.runs };
      lanes = known.lanes.lanes;
    } };

    ghost invariant = { λ known. LeavesBest (OfSuit known.counts known.room known.runs)
        known.lanes.lanes };

    ghost inverse = { λ known. record {
      counts = known.suit.counts;
      room = known.suit.room;
      runs = known.suit.runs;
      lanes = record { lanes = known.lanes };
    } };
}

impl Memory {
    /// Nothing is known but the suit without a tile. The only error is want of memory.
    pub fn new(alloc: Global) -> Result<Memory, AllocError> {
        let mut rows = Vec::with_capacity(alloc, ROWS)?;
        let mut far = Vec::with_capacity(alloc, 4)?;
        let empty = walked(&[0; 9], &[4; 9], true);
        for _ in 0..ROWS {
            rows.push(empty)?;
        }
        for _ in 0..4 {
            far.push(Far::none())?;
        }
        Ok(Memory { rows, far })
    }

    /// Keeps a hand of a seat, 0 to 3, that misses so many tiles of the nearest complete hand, two or more.
    pub fn keep_far(&mut self, seat: u8, counts: &Counts, room: &Counts, melds: u8, missing: u8)
        requires within { IsWithinRoom counts.now room.now }
        requires least { IsLeast counts.now (IsGoal room.now melds) missing }
        requires far { 1 < missing }
    {
        if let Some(far) = self.far.get_mut(usize::from(seat)) {
            *far = Far::of(counts, room, melds, missing);
        }
    }

    /// Whether it is known of a seat's hand, with so many melds, that a tile of the kind doesn't complete it.
    pub fn is_far(&self, seat: u8, held: &Counts, melds: u8, kind: Kind) -> bool
        ensures { result ≡ true → complete (one_more held.now kind) melds ≡ false }
    {
        match self.far.get(usize::from(seat)) {
            Some(far) => far.excludes(held, melds, kind),
            None => false,
        }
    }

    // What a suit leaves: where its row isn't known it is walked, and then known.
    pub(crate) fn row(&mut self, counts: &[u8; 9], room: &[u8; 9], runs: bool) -> Row
        requires { EachIndex room.now (λ n. slice_index room.now n ≤ 4) }
        ensures { LeavesBest (OfSuit counts.now room.now runs) result.lanes }
    {
        match self.rows.get_mut(place_of(counts, runs)) {
            Some(known) => known.row(counts, room, runs),
            None => walked(counts, room, runs).lanes,
        }
    }
}

impl KnownRow {
    // What the suit leaves, walked where this is another.
    fn row(&mut self, counts: &[u8; 9], room: &[u8; 9], runs: bool) -> Row
        requires { EachIndex room.now (λ n. slice_index room.now n ≤ 4) }
        ensures { LeavesBest (OfSuit counts.now room.now runs) result.lanes }
    {
        if self.is_of(counts, room, runs) {
            return self.lanes;
        }
        let known = walked(counts, room, runs);
        *self = known;
        known.lanes
    }

    // Whether this is the suit.
    fn is_of(&self, counts: &[u8; 9], room: &[u8; 9], runs: bool) -> bool
        ensures { result ≡ true → self.now.suit ≡ record { counts = counts.now; room = room.now; runs = runs } }
    {
        self.runs == runs && are_same(&self.counts, counts) && are_same(&self.room, room)
    }
}

// The place of a suit's row: rows of more suits than one share it.
#[inline(always)]
fn place_of(counts: &[u8; 9], runs: bool) -> usize {
    let [a, b, c, d, e, f, g, h, last] = *counts;
    let front = u64::from_le_bytes([a, b, c, d, e, f, g, h]);
    let mixed = front ^ (u64::from(last) << 5) ^ (u64::from(runs) << 13);
    (mixed.wrapping_mul(0x9e37_79b9_7f4a_7c15) >> 54) as usize
}

// The numbers are the same.
#[inline(always)]
fn are_same(some: &[u8; 9], others: &[u8; 9]) -> bool
    ensures { result ≡ true → some.now ≡ others.now }
{
    let mut same = true;
    for n in 0..9 {
        same = same & (some[n] == others[n]);
    }
    same
}

// The row of a suit.
fn walked(counts: &[u8; 9], room: &[u8; 9], runs: bool) -> KnownRow
    requires { EachIndex room.now (λ n. slice_index room.now n ≤ 4) }
    ensures { result.suit ≡ record { counts = counts.now; room = room.now; runs = runs } }
{
    KnownRow {
        counts: *counts,
        room: *room,
        runs,
        lanes: with_suit(Row::start(), counts, room, runs),
    }
}
