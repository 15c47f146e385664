ghost use Rattle.std.specs.Prelude.{◌≡◌, ℕ, ◌≤◌, ◌<◌, ◌+◌, ◌-◌, ◌++◌, ◌==◌, ◌&&◌, length, replicate, false};
ghost use Rattle.mj_readings.specs.declared.winning_way.WinningWay.{WinningWay};
ghost use Rattle.mj_readings.specs.Sets.{place_of};
ghost use Rattle.mj_readings.specs.Readings.{names_winning, set_has, has_no_equal_before};
ghost use Rattle.mj_readings.specs.Inner.Ways.{sets_at, end_of};
ghost use Rattle.mj_readings.specs.Inner.Spots.{ways_from, branch_ways, pair_ways};
ghost use Rattle.mj_readings.specs.Inner.WinningWays.{Picks, win_places, winning_ways};

use crate::complete::can_begin;
use crate::reading::{Set, SetForm};
use crate::sets::Sets;
use mj_tiles::Kind;

/// Sets of concealed tiles in order and a pair, with the place of the winning tile: the set 0 to 3, or the pair, 4.
#[derive(Clone, Copy, Debug)]
pub(crate) struct WinningWay {
    pub(crate) sets: Sets,
    pub(crate) pair: Kind,
    pub(crate) win: u8,
}

/// Where a walk over the kinds stands: at which kind, how many runs began two kinds and one kind before, how many sets
/// are left to make, and the pair, where it is made.
#[derive(Clone, Copy, Debug)]
pub(crate) struct Spot {
    pub(crate) kind: u8,
    pub(crate) first: u8,
    pub(crate) second: u8,
    pub(crate) left: u8,
    pub(crate) pair: Option<Kind>,
}

/// The place of the winning tile that stands at this place of their list; after its end, how far after.
fn win_at(sets: &[Set], pair: Kind, winning: Kind, index: usize) -> Result<u8, usize>
    requires { length sets.now ≤ 4 }
    ensures { Picks (win_places sets.now pair winning) index result }
{
    let mut index = index;
    for win in 0..5 {
        if has_winning(sets, pair, winning, win) {
            if index == 0 {
                return Ok(win);
            }
            index -= 1;
        }
    }
    Err(index)
}

/// Whether the winning tile is in the pair, 4, or in the set at this place and in none equal before it.
#[tactic(auto, unfolding(crate::specs::Readings::names_winning))]
pub(crate) fn has_winning(sets: &[Set], pair: Kind, winning: Kind, win: u8) -> bool
    requires { length sets.now ≤ 4 }
    ensures { result ≡ names_winning sets.now pair winning win }
{
    if win == 4 {
        return pair == winning;
    }
    match sets.get(win as usize) {
        None => false,
        Some(set) => has_kind(set, winning) && stands_first(sets, win as usize, set),
    }
}

/// Whether the set has a tile of the kind.
fn has_kind(set: &Set, kind: Kind) -> bool
    ensures { result ≡ set_has kind set.now }
{
    let low = set.low.number();
    match set.form {
        SetForm::Run => low == kind.number()
            || low + 1 == kind.number()
            || low + 2 == kind.number(),
        _ => low == kind.number(),
    }
}

/// Whether none of the sets before this place equals this one.
fn stands_first(sets: &[Set], place: usize, set: &Set) -> bool
    requires { place ≤ length sets.now }
    ensures { result ≡ has_no_equal_before sets.now place set.now }
{
    let here = order_of(set);
    sets[..place].iter().all(|other| order_of(other) != here)
}

/// The place of a set in the order of sets.
fn order_of(set: &Set) -> u8
    ensures { result ≡ place_of set.now }
{
    let low = set.low.number();
    match set.form {
        SetForm::Run => 2 * low,
        _ => 2 * low + 1,
    }
}

/// Walks the kinds from a spot on, and gives the winning_way at this place of their list, the sets that are made already
/// before it; after the end of the list, how far after.
#[cycle(winning_way_at)]
#[tactic(auto, unfolding(crate::specs::Inner::Ways::ways))]
pub(crate) fn winning_way_at(
    numbers: &[u8],
    spot: &Spot,
    sets: &Sets,
    winning: Kind,
    index: usize,
) -> Result<WinningWay, usize>
    requires kinds { spot.now.kind + length numbers.now ≡ 34 }
    requires under_way { (spot.now.first ≤ 4) × (spot.now.second ≤ 4) }
    requires room { length sets.now + spot.now.left ≤ 4 }
    ensures { Picks (winning_ways sets.now winning (ways_from numbers.now spot.now)) index result }
{
    let [count, others @ ..] = numbers else {
        return end_at(spot, sets, winning, index);
    };
    if *count < spot.first + spot.second {
        return Err(index);
    }
    let free = *count - (spot.first + spot.second);
    if free < 2 {
        return branch_at(others, spot, free, 0, spot.pair, sets, winning, index);
    }
    let behind_runs = match branch_at(others, spot, free, 0, spot.pair, sets, winning, index) {
        Ok(winning_way) => return Ok(winning_way),
        Err(rest) => rest,
    };
    if free < 3 {
        return pair_at(others, spot, free, sets, winning, behind_runs);
    }
    let behind_triplet = match branch_at(
        others,
        spot,
        free - 3,
        1,
        spot.pair,
        sets,
        winning,
        behind_runs,
    ) {
        Ok(winning_way) => return Ok(winning_way),
        Err(rest) => rest,
    };
    pair_at(others, spot, free, sets, winning, behind_triplet)
}

/// The winning_ways with the pair of the spot's kind and runs that begin there.
#[cycle(winning_way_at)]
fn pair_at(
    others: &[u8],
    spot: &Spot,
    free: u8,
    sets: &Sets,
    winning: Kind,
    index: usize,
) -> Result<WinningWay, usize>
    requires kinds { spot.now.kind + length others.now + 1 ≡ 34 }
    requires under_way { spot.now.second ≤ 4 }
    requires room { length sets.now + spot.now.left ≤ 4 }
    ensures { Picks (winning_ways sets.now winning (pair_ways others.now spot.now free)) index
        result }
{
    if free < 2 {
        return Err(index);
    }
    if spot.pair.is_some() {
        return Err(index);
    }
    branch_at(
        others,
        spot,
        free - 2,
        0,
        Kind::of(spot.kind),
        sets,
        winning,
        index,
    )
}

/// The winning_ways with so many runs and triplets that begin at the spot's kind, and this pair from there on.
#[cycle(winning_way_at)]
fn branch_at(
    others: &[u8],
    spot: &Spot,
    runs: u8,
    triplets: u8,
    pair: Option<Kind>,
    sets: &Sets,
    winning: Kind,
    index: usize,
) -> Result<WinningWay, usize>
    requires kinds { spot.now.kind + length others.now + 1 ≡ 34 }
    requires under_way { spot.now.second ≤ 4 }
    requires triplet { triplets ≤ 1 }
    requires room { length sets.now + spot.now.left ≤ 4 }
    ensures { Picks (winning_ways sets.now winning
        (branch_ways others.now spot.now runs triplets pair)) index result }
{
    if !can_begin(spot.kind, runs, triplets, spot.left) {
        return Err(index);
    }
    let Some(kind) = Kind::of(spot.kind) else {
        return Err(index);
    };
    let next = Spot {
        kind: spot.kind + 1,
        first: spot.second,
        second: runs,
        left: spot.left - (runs + triplets),
        pair,
    };
    if runs + triplets == 0 {
        return winning_way_at(others, &next, sets, winning, index);
    }
    winning_way_at(
        others,
        &next,
        &sets_with(sets, kind, runs, triplets),
        winning,
        index,
    )
}

/// The winning_ways after the last kind: those of the sets made, where none is left to make and the pair is made.
fn end_at(spot: &Spot, sets: &Sets, winning: Kind, index: usize) -> Result<WinningWay, usize>
    requires { length sets.now ≤ 4 }
    ensures { Picks (winning_ways sets.now winning (end_of spot.now.left spot.now.pair)) index
        result }
{
    let Some(pair) = spot.pair else {
        return Err(index);
    };
    if spot.left > 0 {
        return Err(index);
    }
    match win_at(sets.as_slice(), pair, winning, index) {
        Ok(win) => Ok(WinningWay {
            sets: *sets,
            pair,
            win,
        }),
        Err(rest) => Err(rest),
    }
}

/// The sets, and after them so many runs and then triplets that begin at a kind.
pub(crate) fn sets_with(sets: &Sets, kind: Kind, runs: u8, triplets: u8) -> Sets
    requires { length sets.now + (runs + triplets) ≤ 4 }
    ensures { result ≡ sets.now ++ sets_at kind runs triplets }
{
    let with_runs = sets_of_form(sets, SetForm::Run, kind, runs);
    sets_of_form(&with_runs, SetForm::Triplet, kind, triplets)
}

/// The sets, and after them so many equal ones of concealed tiles.
fn sets_of_form(sets: &Sets, form: SetForm, low: Kind, number: u8) -> Sets
    requires { length sets.now + number ≤ 4 }
    ensures { result ≡ sets.now ++ replicate number
        (record { form = form; low = low; shown = false }) }
{
    let set = Set {
        form,
        low,
        shown: false,
    };
    if number == 0 {
        return *sets;
    }
    sets_of_form(&sets.with(&set), form, low, number - 1)
}
