//! Hands that no tile completes.

ghost use Rattle.std.specs.Prelude.{◌≡◌, ◌<◌, ◌≤◌, ℕ, true, false, slice_index};
ghost use Rattle.mj_readings.specs.Tests.{complete, one_more};
ghost use Rattle.mj_suits.specs.Tables.{IsLeast};
ghost use Rattle.mj_shanten.specs.Room.{IsWithinRoom};
ghost use Rattle.mj_shanten.specs.Shanten.{IsGoal};

use mj_tiles::{Counts, KINDS, Kind};
use std::marker::Model;

/// A hand, the room for its tiles and the number of its melds, of which each complete hand misses two tiles at least.
#[derive(Clone, Copy)]
pub(crate) struct Far {
    counts: Counts,
    room: Counts,
    melds: u8,
}

impl Model for Far {
    ghost use Rattle.mj_memory.specs.Far.{FarHand, IsFar};

    ghost Value = { FarHand };

    ghost view = { λ far. record { counts = far.counts; room = far.room; melds = far.melds } };

    ghost invariant = { λ far. IsFar far.counts far.room far.melds };

    ghost inverse = { λ far. record { counts = far.counts; room = far.room; melds = far.melds } };
}

impl Far {
    // No tile at all.
    pub(crate) fn none() -> Far {
        let none = Counts::from_numbers([0; KINDS]);
        Far {
            counts: none,
            room: none,
            melds: 0,
        }
    }

    // A hand that misses so many tiles of the nearest complete hand, two or more.
    pub(crate) fn of(counts: &Counts, room: &Counts, melds: u8, missing: u8) -> Far
        requires within { IsWithinRoom counts.now room.now }
        requires least { IsLeast counts.now (IsGoal room.now melds) missing }
        requires far { 1 < missing }
    {
        Far {
            counts: *counts,
            room: *room,
            melds,
        }
    }

    // Whether it is known that a tile of the kind doesn't complete a hand, since its tiles are among those of this one.
    pub(crate) fn excludes(&self, held: &Counts, melds: u8, kind: Kind) -> bool
        ensures { result ≡ true → complete (one_more held.now kind) melds ≡ false }
    {
        if melds != self.melds {
            return false;
        }
        let (numbers, room) = (held.numbers(), self.room.numbers());
        let place = kind.number() as usize;
        if numbers[place] >= room[place] {
            return false;
        }
        are_among(numbers, self.counts.numbers())
    }
}

// Each number is at most the other.
#[inline(always)]
fn are_among(some: &[u8; KINDS], others: &[u8; KINDS]) -> bool
    ensures { result ≡ true → (k : ℕ) → k < 34 → slice_index some.now k ≤ slice_index others.now k }
{
    let mut among = true;
    for k in 0..KINDS {
        among = among & (some[k] <= others[k]);
    }
    among
}
