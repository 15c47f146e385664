//! The target of a suit that leaves the most of fifteen tiles, and of several the lexicographically greatest: from the
//! lowest number on the most tiles with which as much is left, by the rows of the walk.

ghost use Rattle.std.specs.Prelude.{◌≡◌, ◌≤◌, ◌<◌, ◌+◌, ◌*◌, ◌-◌, ◌/◌, ◌%◌, true, false, ℕ, List, [], ◌∷◌, Option, None, Some, MatchOption, MatchBool, take};
ghost use Rattle.mj_suits.specs.Inner.Choosing.{By, ByBegin, IsPlan, IsGreatest, GreaterOf, IsBegin, MayBegin, LeavesAsMany, IsMost};
ghost use Rattle.mj_suits.specs.Inner.Choosing.{IsWay, InWays, NoWay, AreWays, AreMostWays, tiles_of, tiles_at, first_plan, next_of};

use crate::row::Row;
use crate::walk::Rows;
use std::cmp::Ordering;

/// A target of one suit, and how many sets and pairs it leaves to be made after it.
#[derive(Clone, Copy)]
pub struct Choice {
    /// The counts of the target.
    pub target: [u8; 9],
    /// How many sets are left.
    pub sets: u8,
    /// How many pairs are left.
    pub pairs: u8,
}

// Whether the suit has runs, and what is left after it.
#[derive(Clone, Copy)]
pub(crate) struct Aim {
    pub(crate) runs: bool,
    pub(crate) after: Row,
}

// One number: how many tiles of it are held, for how many there is room, and the rows after it.
#[derive(Clone, Copy)]
pub(crate) struct Level {
    pub(crate) held: u8,
    pub(crate) room: u8,
    pub(crate) rows: Rows,
}

// A number, how many runs began one number and two numbers before it, how many sets and pairs are still to be made, and
// how many of fifteen tiles they leave.
#[derive(Clone, Copy)]
struct Plan {
    number: usize,
    before: u8,
    earlier: u8,
    sets: u8,
    pairs: u8,
    left: u8,
}

// How many runs, triplets and pairs begin at a number.
#[derive(Clone, Copy)]
struct Begin {
    runs: u8,
    triplets: u8,
    pairs: u8,
}

// The one way in which so many tiles begin at a number, or the two.
#[derive(Clone, Copy)]
struct Ways {
    first: Begin,
    second: Option<Begin>,
}

/// The target of a suit that leaves the most, and of several the lexicographically greatest, by its numbers and their rows:
/// so many sets and pairs are to be made from it on, and so many of fifteen tiles are left.
pub(crate) fn choose_all(aim: &Aim, levels: &[Level], sets: u8, pairs: u8, left: u8) -> Choice
    requires { IsPlan aim.now levels.now (first_plan sets pairs left) }
    ensures { IsGreatest (By aim.now levels.now (first_plan sets pairs left)) [] result }
{
    let plan = Plan {
        number: 0,
        before: 0,
        earlier: 0,
        sets,
        pairs,
        left,
    };
    choose_from(aim, levels, &plan, &[0; 9])
}

// Chooses the tiles of the numbers from the plan's on, after those of the target below it.
#[cycle(choosing)]
fn choose_from(aim: &Aim, levels: &[Level], plan: &Plan, target: &[u8; 9]) -> Choice
    requires { IsPlan aim.now levels.now plan.now }
    ensures { IsGreatest (By aim.now levels.now plan.now) (take plan.now.number target.now) result }
{
    let mut next = *plan;
    let mut chosen = *target;
    let mut left = levels;
    while let [level, others @ ..] = left {
        let ways = most_ways(aim, level, others, &next);
        if let Some(second) = ways.second {
            return choose_both(aim, level, others, &next, &chosen, ways.first, second);
        }
        chosen[next.number] = tiles_at(&next, ways.first);
        next = next_plan(level, &next, ways.first);
        left = others;
    }
    Choice {
        target: chosen,
        sets: next.sets,
        pairs: next.pairs,
    }
}

// Chooses the tiles of the numbers from the plan's on, where either of these begins at it: the greater of both choices.
#[cycle(choosing)]
fn choose_both(
    aim: &Aim,
    level: &Level,
    others: &[Level],
    plan: &Plan,
    target: &[u8; 9],
    first: Begin,
    second: Begin,
) -> Choice
    requires plan { IsPlan aim.now (level.now ∷ others.now) plan.now }
    requires first { IsWay aim.now level.now plan.now first }
    requires second { IsWay aim.now level.now plan.now second }
    ensures { IsGreatest (InWays aim.now level.now others.now plan.now first (Some second))
        (take plan.now.number target.now) result }
{
    greater_of(
        choose_next(aim, level, others, plan, target, first),
        choose_next(aim, level, others, plan, target, second),
    )
}

// Chooses the tiles of the numbers from the plan's on, where these runs, triplets and pairs begin at it.
#[cycle(choosing)]
fn choose_next(
    aim: &Aim,
    level: &Level,
    others: &[Level],
    plan: &Plan,
    target: &[u8; 9],
    begin: Begin,
) -> Choice
    requires plan { IsPlan aim.now (level.now ∷ others.now) plan.now }
    requires way { IsWay aim.now level.now plan.now begin }
    ensures { IsGreatest (ByBegin aim.now level.now others.now plan.now begin)
        (take plan.now.number target.now) result }
{
    let mut chosen = *target;
    chosen[plan.number] = tiles_at(plan, begin);
    choose_from(aim, others, &next_plan(level, plan, begin), &chosen)
}

// The plan for the numbers after where these begin at the plan's number.
#[inline(always)]
fn next_plan(level: &Level, plan: &Plan, begin: Begin) -> Plan
    requires few { IsBegin begin }
    requires number { plan.now.number < 9 }
    requires before { plan.now.before < 3 }
    requires earlier { plan.now.earlier < 3 }
    requires sets { begin.runs + begin.triplets ≤ plan.now.sets }
    requires pairs { begin.pairs ≤ plan.now.pairs }
    requires left { plan.now.left ≤ 15 }
    ensures { result ≡ next_of level.now plan.now begin }
{
    let tiles = tiles_at(plan, begin);
    Plan {
        number: plan.number + 1,
        before: begin.runs,
        earlier: plan.before,
        sets: plan.sets - (begin.runs + begin.triplets),
        pairs: plan.pairs - begin.pairs,
        left: plan.left + tiles.saturating_sub(level.held),
    }
}

// What begins at the plan's number where the most tiles do of those that leave as many.
#[inline(always)]
fn most_ways(aim: &Aim, level: &Level, others: &[Level], plan: &Plan) -> Ways
    requires { IsPlan aim.now (level.now ∷ others.now) plan.now }
    ensures { AreMostWays aim.now level.now others.now plan.now result }
{
    let most = most_tiles(level, plan);
    if let Some(ways) = ways_within(aim, level, others, plan, most, 4) {
        return ways;
    }
    if let Some(ways) = ways_within(aim, level, others, plan, most, 3) {
        return ways;
    }
    if let Some(ways) = ways_within(aim, level, others, plan, most, 2) {
        return ways;
    }
    if let Some(ways) = ways_within(aim, level, others, plan, most, 1) {
        return ways;
    }
    if let Some(ways) = ways_within(aim, level, others, plan, most, 0) {
        return ways;
    }
    unreachable!()
}

// At most so many tiles begin at the plan's number: with more of them fewer than none of fifteen would be left, or more sets
// and pairs would be made than are still to be.
#[inline(always)]
fn most_tiles(level: &Level, plan: &Plan) -> u8
    requires left { plan.now.left ≤ 15 }
    requires before { plan.now.before < 3 }
    requires earlier { plan.now.earlier < 3 }
    requires sets { plan.now.sets < 8 }
    requires pairs { plan.now.pairs < 2 }
    ensures { IsMost level.now plan.now result }
{
    let most = level.held.saturating_add(15 - plan.left);
    let wanted = 3 * plan.sets + 2 * plan.pairs;
    most.saturating_sub(plan.before + plan.earlier)
        .min(wanted)
        .min(4)
}

// What begins with so many tiles, of which there are at most `most`; none where none of these targets leaves as many.
#[inline(always)]
fn ways_within(
    aim: &Aim,
    level: &Level,
    others: &[Level],
    plan: &Plan,
    most: u8,
    tiles: u8,
) -> Option<Ways>
    requires few { tiles ≤ 4 }
    requires most { IsMost level.now plan.now most }
    requires plan { IsPlan aim.now (level.now ∷ others.now) plan.now }
    ensures { MatchOption result
        (NoWay aim.now level.now others.now plan.now tiles)
        (AreWays aim.now level.now others.now plan.now tiles) }
{
    if tiles > most {
        return None;
    }
    ways_of(aim, level, others, plan, tiles)
}

// What begins with so many tiles, four at most; none where none of these targets leaves as many.
#[inline(always)]
fn ways_of(aim: &Aim, level: &Level, others: &[Level], plan: &Plan, tiles: u8) -> Option<Ways>
    requires few { tiles ≤ 4 }
    requires plan { IsPlan aim.now (level.now ∷ others.now) plan.now }
    ensures { MatchOption result
        (NoWay aim.now level.now others.now plan.now tiles)
        (AreWays aim.now level.now others.now plan.now tiles) }
{
    let sets_alone = Begin {
        runs: tiles % 3,
        triplets: tiles / 3,
        pairs: 0,
    };
    if tiles < 2 {
        return way_of(aim, level, plan, sets_alone);
    }
    let with_pair = Begin {
        runs: tiles - 2,
        triplets: 0,
        pairs: 1,
    };
    if !leaves_as_many(aim, level, plan, with_pair) {
        return way_of(aim, level, plan, sets_alone);
    }
    if !leaves_as_many(aim, level, plan, sets_alone) {
        return Some(Ways {
            first: with_pair,
            second: None,
        });
    }
    Some(Ways {
        first: sets_alone,
        second: Some(with_pair),
    })
}

// This one way, where it leaves as many.
#[inline(always)]
fn way_of(aim: &Aim, level: &Level, plan: &Plan, begin: Begin) -> Option<Ways>
    requires few { IsBegin begin }
    requires before { plan.now.before < 3 }
    requires earlier { plan.now.earlier < 3 }
    requires sets { plan.now.sets < 8 }
    requires pairs { plan.now.pairs < 2 }
    requires left { plan.now.left ≤ 15 }
    ensures { MatchOption result
        (LeavesAsMany aim.now level.now plan.now begin → ⊥)
        (λ ways. (ways ≡ record { first = begin; second = None })
        × LeavesAsMany aim.now level.now plan.now begin) }
{
    if !leaves_as_many(aim, level, plan, begin) {
        return None;
    }
    Some(Ways {
        first: begin,
        second: None,
    })
}

// Whether these may begin at the plan's number, and the rows after it leave as many as the plan says.
#[inline(always)]
fn leaves_as_many(aim: &Aim, level: &Level, plan: &Plan, begin: Begin) -> bool
    requires few { IsBegin begin }
    requires before { plan.now.before < 3 }
    requires earlier { plan.now.earlier < 3 }
    requires sets { plan.now.sets < 8 }
    requires pairs { plan.now.pairs < 2 }
    requires left { plan.now.left ≤ 15 }
    ensures { MatchBool result
        (LeavesAsMany aim.now level.now plan.now begin)
        (LeavesAsMany aim.now level.now plan.now begin → ⊥) }
{
    if !may_begin(aim, level, plan, begin) {
        return false;
    }
    let tiles = tiles_at(plan, begin);
    let sets = plan.sets - (begin.runs + begin.triplets);
    let pairs = plan.pairs - begin.pairs;
    let left = level.rows.at(begin.runs, plan.before).at(sets, pairs);
    if left != plan.left + tiles.saturating_sub(level.held) {
        return false;
    }
    true
}

// How many tiles stand at the plan's number where these begin there.
#[inline(always)]
fn tiles_at(plan: &Plan, begin: Begin) -> u8
    requires few { IsBegin begin }
    requires before { plan.now.before < 3 }
    requires earlier { plan.now.earlier < 3 }
    ensures { result ≡ tiles_at plan.now begin }
{
    plan.before + plan.earlier + tiles_of(begin)
}

// How many tiles begin.
#[inline(always)]
fn tiles_of(begin: Begin) -> u8
    requires { IsBegin begin }
    ensures { result ≡ tiles_of begin }
{
    begin.runs + 3 * begin.triplets + 2 * begin.pairs
}

// Whether the suit has such runs, so many sets and pairs are still to be made, and there is room for the tiles.
#[inline(always)]
fn may_begin(aim: &Aim, level: &Level, plan: &Plan, begin: Begin) -> bool
    requires few { IsBegin begin }
    requires before { plan.now.before < 3 }
    requires earlier { plan.now.earlier < 3 }
    ensures { MatchBool result
        (MayBegin aim.now level.now plan.now begin)
        (MayBegin aim.now level.now plan.now begin → ⊥) }
{
    if begin.runs > 0 && !aim.runs {
        return false;
    }
    begin.runs + begin.triplets <= plan.sets
        && begin.pairs <= plan.pairs
        && tiles_at(plan, begin) <= level.room
}

// The choice whose target is lexicographically greater.
fn greater_of(one: Choice, other: Choice) -> Choice
    ensures { GreaterOf one other result }
{
    match one.target.cmp(&other.target) {
        Ordering::Less => other,
        Ordering::Equal => one,
        Ordering::Greater => one,
    }
}
