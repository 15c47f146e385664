//! A suit that is walked once for both: what it leaves for each number of sets and pairs, and a target that leaves so much.

ghost use Rattle.std.specs.Prelude.{◌≡◌, ◌≤◌, ◌<◌, true, false, MatchOption, slice_index, EachIndex};
ghost use Rattle.mj_suits.specs.Rows.{Holds, IsFew, lane, walked};
ghost use Rattle.mj_suits.specs.Inner.Choosing.{AreNumbers};
ghost use Rattle.mj_suits.specs.Left.{LeavesMost, IsChosen};

use crate::choosing::{Aim, Choice, Level, choose_all};
use crate::row::Row;
use crate::walk::{Rows, honours_before, rows_before, rows_of, rows_past};
use std::marker::Model;

/// A walked suit: its numbers, each with the rows after it, and its row, before what is left after the suit.
#[derive(Drop)]
pub struct SuitWalk {
    aim: Aim,
    numbers: Numbers,
}

// The numbers of a suit, each with the rows after it, and the row before them all.
#[derive(Clone, Copy)]
struct Numbers {
    levels: [Level; 9],
    row: Row,
}

impl Model for SuitWalk {
    ghost use Rattle.mj_suits.specs.Inner.Choosing.{helds, rooms};
    ghost use Rattle.mj_suits.specs.SuitWalks.{Walk, IsWalk};

    ghost Value = { Walk };

    ghost view = { λ walk. record {
      suit = record {
        counts = helds walk.numbers.levels;
        room = rooms walk.numbers.levels;
        runs = walk.aim.runs;
      };
      after = walk.aim.after.lanes;
      row = walk.numbers.row.lanes;
    } };

    ghost invariant = { λ walk. IsWalk walk.aim walk.numbers.levels walk.numbers.row.lanes };
}

impl SuitWalk {
    /// The walk of a suit before what is left after it. `counts` are the tiles held, and `room` says how many of each number
    /// there may be, at most 4. Honours make no runs: `runs` is false for them.
    pub fn new(after: Row, counts: &[u8; 9], room: &[u8; 9], runs: bool) -> SuitWalk
        requires room { EachIndex room.now (λ n. slice_index room.now n ≤ 4) }
        requires few { IsFew after.lanes }
        ensures suit { result.suit ≡ record { counts = counts.now; room = room.now; runs = runs } }
        ensures after { result.after ≡ after.lanes }
        ensures row { LeavesMost counts.now room.now runs after.lanes result.row }
    {
        let aim = Aim { runs, after };
        let numbers = numbers_of(&aim, counts, room);
        SuitWalk { aim, numbers }
    }

    /// What is left of fifteen tiles for each number of sets and pairs where this suit's are among them.
    pub fn row(&self) -> Row
        ensures { result.lanes ≡ self.now.row }
    {
        self.numbers.row
    }

    /// The target of the suit that leaves the most of what is left after it for so many sets and pairs with it, and of
    /// several the lexicographically greatest; none where no target leaves anything. `sets` is at most 7 and `pairs` at most 1.
    pub fn choose(&self, sets: u8, pairs: u8) -> Option<Choice>
        requires sets { sets < 8 }
        requires pairs { pairs < 2 }
        ensures { MatchOption result
            (lane self.now.row sets pairs ≡ 0)
            (λ choice. (0 < lane self.now.row sets pairs)
            × IsChosen self.now.suit.counts self.now.suit.room self.now.suit.runs self.now.after sets
            pairs (lane self.now.row sets pairs) choice.target choice.sets choice.pairs) }
    {
        let left = self.numbers.row.at(sets, pairs);
        if left == 0 {
            return None;
        }
        if sets + pairs == 0 {
            return Some(Choice {
                target: [0; 9],
                sets: 0,
                pairs: 0,
            });
        }
        Some(choose_all(&self.aim, &self.numbers.levels, sets, pairs, left))
    }
}

/// The target of the suit that leaves the most of what is left after it for so many sets and pairs with it, and of
/// several the lexicographically greatest; none where no target leaves anything.
///
/// `row` is what `with_suit` makes of `after` with this suit. `room` says how many of each number there may be, at most
/// 4. `sets` is at most 7 and `pairs` at most 1.
pub fn choose(
    after: Row,
    row: Row,
    counts: &[u8; 9],
    room: &[u8; 9],
    runs: bool,
    sets: u8,
    pairs: u8,
) -> Option<Choice>
    requires room { EachIndex room.now (λ n. slice_index room.now n ≤ 4) }
    requires few { IsFew after.lanes }
    requires row { LeavesMost counts.now room.now runs after.lanes row.lanes }
    requires sets { sets < 8 }
    requires pairs { pairs < 2 }
    ensures { MatchOption result
        (lane row.lanes sets pairs ≡ 0)
        (λ choice. (0 < lane row.lanes sets pairs)
        × IsChosen counts.now room.now runs after.lanes sets pairs
        (lane row.lanes sets pairs) choice.target choice.sets choice.pairs) }
{
    if row.at(sets, pairs) == 0 {
        return None;
    }
    SuitWalk::new(after, counts, room, runs).choose(sets, pairs)
}

// The numbers of a suit.
#[inline(always)]
fn numbers_of(aim: &Aim, counts: &[u8; 9], room: &[u8; 9]) -> Numbers
    requires room { EachIndex room.now (λ n. slice_index room.now n ≤ 4) }
    ensures levels { AreNumbers aim.now result.levels room.now counts.now }
    ensures row { Holds result.row.lanes (walked aim.now.runs (lane aim.now.after.lanes) room.now
        counts.now 0 0) }
{
    if aim.runs {
        return with_runs(aim, counts, room);
    }
    of_honours(aim, counts, room)
}

// The numbers of a suit with runs.
#[inline(always)]
fn with_runs(aim: &Aim, counts: &[u8; 9], room: &[u8; 9]) -> Numbers
    requires runs { aim.now.runs ≡ true }
    requires room { EachIndex room.now (λ n. slice_index room.now n ≤ 4) }
    ensures levels { AreNumbers aim.now result.levels room.now counts.now }
    ensures row { Holds result.row.lanes (walked true (lane aim.now.after.lanes) room.now counts.now 0 0) }
{
    let past = rows_past(aim.after);
    let ninth = rows_before(&past, counts[8], room[8]);
    let eighth = rows_before(&ninth, counts[7], room[7]);
    let seventh = rows_before(&eighth, counts[6], room[6]);
    let sixth = rows_before(&seventh, counts[5], room[5]);
    let fifth = rows_before(&sixth, counts[4], room[4]);
    let fourth = rows_before(&fifth, counts[3], room[3]);
    let third = rows_before(&fourth, counts[2], room[2]);
    let second = rows_before(&third, counts[1], room[1]);
    let row = rows_before(&second, counts[0], room[0]).at(0, 0);
    let levels = [
        level_of(counts[0], room[0], second),
        level_of(counts[1], room[1], third),
        level_of(counts[2], room[2], fourth),
        level_of(counts[3], room[3], fifth),
        level_of(counts[4], room[4], sixth),
        level_of(counts[5], room[5], seventh),
        level_of(counts[6], room[6], eighth),
        level_of(counts[7], room[7], ninth),
        level_of(counts[8], room[8], past),
    ];
    Numbers { levels, row }
}

// The kinds of honours.
#[inline(always)]
fn of_honours(aim: &Aim, counts: &[u8; 9], room: &[u8; 9]) -> Numbers
    requires runs { aim.now.runs ≡ false }
    requires room { EachIndex room.now (λ n. slice_index room.now n ≤ 4) }
    ensures levels { AreNumbers aim.now result.levels room.now counts.now }
    ensures row { Holds result.row.lanes (walked false (lane aim.now.after.lanes) room.now counts.now 0 0) }
{
    let ninth = honours_before(aim.after, counts[8], room[8]);
    let eighth = honours_before(ninth, counts[7], room[7]);
    let seventh = honours_before(eighth, counts[6], room[6]);
    let sixth = honours_before(seventh, counts[5], room[5]);
    let fifth = honours_before(sixth, counts[4], room[4]);
    let fourth = honours_before(fifth, counts[3], room[3]);
    let third = honours_before(fourth, counts[2], room[2]);
    let second = honours_before(third, counts[1], room[1]);
    let row = honours_before(second, counts[0], room[0]);
    let levels = [
        level_of(counts[0], room[0], rows_of(second)),
        level_of(counts[1], room[1], rows_of(third)),
        level_of(counts[2], room[2], rows_of(fourth)),
        level_of(counts[3], room[3], rows_of(fifth)),
        level_of(counts[4], room[4], rows_of(sixth)),
        level_of(counts[5], room[5], rows_of(seventh)),
        level_of(counts[6], room[6], rows_of(eighth)),
        level_of(counts[7], room[7], rows_of(ninth)),
        level_of(counts[8], room[8], rows_of(aim.after)),
    ];
    Numbers { levels, row }
}

// A number: how many tiles of it are held, for how many there is room, and the rows after it.
#[inline(always)]
fn level_of(held: u8, room: u8, rows: Rows) -> Level
    ensures { result ≡ record { held = held; room = room; rows = rows } }
{
    Level { held, room, rows }
}
