//! The nearest targets of one suit, for all numbers of sets at once.

ghost use Rattle.std.specs.Prelude.{◌≡◌, ◌≤◌, ℕ, Bool, List, Option, None, Some, MatchOption, slice_index, EachIndex};
ghost use Rattle.mj_suits.specs.Left.{pairs};
ghost use Rattle.mj_suits.specs.Targets.{missing, IsTarget, IsNearest};
ghost use Rattle.mj_suits.specs.Tables.{Suit, IsLeast};

use crate::row::Row;
use crate::suit_walk::choose;
use crate::walk::with_suit;
use std::marker::Model;

/// What one suit misses for each number of sets, with a pair and without: its tiles, the room for them, whether it has
/// runs, and a row of lanes.
#[derive(Drop)]
pub struct SuitTable {
    counts: [u8; 9],
    room: [u8; 9],
    runs: bool,
    start: Row,
    row: Row,
}

impl Model for SuitTable {
    ghost use Rattle.mj_suits.specs.Tables.{Suit, IsTable};

    ghost Value = { Suit };

    ghost view = { λ table. record {
      counts = table.counts;
      room = table.room;
      runs = table.runs;
    } };

    ghost invariant = { λ table. IsTable table.counts table.room table.runs table.start.lanes
        table.row.lanes };
}

impl SuitTable {
    /// The table of a suit. `counts` are the tiles held and `room` says how many of each number there may be: each count
    /// is at most its room, and each room at most 4. Honours make no runs: `runs` is false for them.
    pub fn new(counts: [u8; 9], room: [u8; 9], runs: bool) -> SuitTable
        requires held { EachIndex counts (λ n. slice_index counts n ≤ slice_index room n) }
        requires room { EachIndex room (λ n. slice_index room n ≤ 4) }
        ensures { result ≡ record { counts = counts; room = room; runs = runs } }
    {
        let start = Row::start();
        let row = with_suit(start, &counts, &room, runs);
        SuitTable {
            counts,
            room,
            runs,
            start,
            row,
        }
    }

    /// The least number of tiles that the suit misses to have `melds` sets and, where `pair` is true, a pair. `melds` is
    /// at most 4. None exactly where no target fits the room.
    pub fn number(&self, melds: u8, pair: bool) -> Option<u8>
        requires { melds ≤ 4 }
        ensures { MatchOption result
            ((target : List ℕ) → IsTarget self.now.room self.now.runs melds pair target → ⊥)
            (λ number. IsLeast self.now.counts (IsTarget self.now.room self.now.runs melds pair)
            number) }
    {
        let left = self.row.at(melds, pairs_of(pair));
        if left == 0 {
            return None;
        }
        Some(15 - left)
    }

    /// The number that `number` answers, with the target that misses so few: of several the one whose counts are
    /// lexicographically greatest.
    pub fn best(&self, melds: u8, pair: bool) -> Option<(u8, [u8; 9])>
        requires { melds ≤ 4 }
        ensures { MatchOption result
            ((target : List ℕ) → IsTarget self.now.room self.now.runs melds pair target → ⊥)
            (λ answer. IsNearest self.now.counts (IsTarget self.now.room self.now.runs melds pair)
            answer.0 answer.1) }
    {
        let pairs = pairs_of(pair);
        match choose(
            self.start,
            self.row,
            &self.counts,
            &self.room,
            self.runs,
            melds,
            pairs,
        ) {
            Some(choice) => {
                let target = choice.target;
                Some((15 - self.row.at(melds, pairs), target))
            }
            None => None,
        }
    }
}

/// The least number of tiles that a suit misses to have `melds` sets and, where `pair` is true, a pair, and the target
/// that misses so few: of several the one whose counts are lexicographically greatest.
///
/// `counts` are the tiles held and `room` says how many of each number there may be: each count is at most its room,
/// and each room at most 4. `melds` is at most 4. Honours make no runs: `runs` is false for them. None exactly where
/// no target fits the room.
pub fn nearest(
    counts: [u8; 9],
    room: [u8; 9],
    runs: bool,
    melds: u8,
    pair: bool,
) -> Option<(u8, [u8; 9])>
    requires held { EachIndex counts (λ n. slice_index counts n ≤ slice_index room n) }
    requires room { EachIndex room (λ n. slice_index room n ≤ 4) }
    requires melds { melds ≤ 4 }
    ensures { MatchOption result
        ((target : List ℕ) → IsTarget room runs melds pair target → ⊥)
        (λ answer. IsNearest counts (IsTarget room runs melds pair) answer.0 answer.1) }
{
    SuitTable::new(counts, room, runs).best(melds, pair)
}

// How many pairs there are.
fn pairs_of(pair: bool) -> u8
    ensures { result ≡ pairs pair }
{
    if pair { 1 } else { 0 }
}
