//! The readings of a hand, gathered in one walk over its kinds.

ghost use Rattle.std.specs.Prelude.{◌≡◌, ℕ, ◌≤◌, ◌<◌, ◌+◌, ◌++◌, ◌∷◌, [], if◌then◌else◌, length, map, OnOk};
ghost use Rattle.mj_readings.specs.Readings.{names_winning};
ghost use Rattle.mj_readings.specs.Inner.Ways.{end_of};
ghost use Rattle.mj_readings.specs.Inner.Spots.{ways_from, branch_ways, triplet_ways, pair_ways};
ghost use Rattle.mj_readings.specs.Inner.WinningWays.{win_places};
ghost use Rattle.mj_readings.specs.Inner.ReadingLists.{with_win, readings_past};

use crate::complete::can_begin;
use crate::listing::as_reading;
use crate::reading::Reading;
use crate::sets::Sets;
use crate::winning_way::{Spot, WinningWay, has_winning, sets_with};
use mj_tiles::{Kind, Meld};
use std::alloc::AllocError;

/// Walks the kinds from a spot on, and adds the readings of their ways, the sets that are made already before those of
/// each.
#[cycle(gather)]
#[tactic(auto, unfolding(crate::specs::Inner::Ways::ways))]
pub(crate) fn gather(
    numbers: &[u8],
    spot: &Spot,
    sets: &Sets,
    melds: &[Meld],
    winning: Kind,
    found: &mut Vec<Reading>,
) -> Result<(), AllocError>
    requires kinds { spot.now.kind + length numbers.now ≡ 34 }
    requires under_way { (spot.now.first ≤ 4) × (spot.now.second ≤ 4) }
    requires room { length sets.now + spot.now.left + length melds.now ≤ 4 }
    ensures { OnOk result (found.new.items ≡ found.old.items
        ++ readings_past melds.now winning sets.now (ways_from numbers.now spot.now)) }
{
    let [count, others @ ..] = numbers else {
        return gather_end(spot, sets, melds, winning, found);
    };
    if *count < spot.first + spot.second {
        return Ok(());
    }
    let free = *count - (spot.first + spot.second);
    if free == 0 {
        return gather(others, &spot_after(spot), sets, melds, winning, found);
    }
    gather_branch(
        others, spot, free, 0, spot.pair, sets, melds, winning, found,
    )?;
    gather_triplet(others, spot, free, sets, melds, winning, found)?;
    gather_pair(others, spot, free, sets, melds, winning, found)
}

/// The spot after a kind of which no tile is free.
fn spot_after(spot: &Spot) -> Spot
    requires { spot.now.kind < 34 }
    ensures { result ≡ record {
      kind = spot.now.kind + 1;
      first = spot.now.second;
      second = 0;
      left = spot.now.left;
      pair = spot.now.pair;
    } }
{
    Spot {
        kind: spot.kind + 1,
        first: spot.second,
        second: 0,
        left: spot.left,
        pair: spot.pair,
    }
}

/// Adds the readings of the ways with a triplet of the spot's kind and runs that begin there.
#[cycle(gather)]
fn gather_triplet(
    others: &[u8],
    spot: &Spot,
    free: u8,
    sets: &Sets,
    melds: &[Meld],
    winning: Kind,
    found: &mut Vec<Reading>,
) -> Result<(), AllocError>
    requires kinds { spot.now.kind + length others.now + 1 ≡ 34 }
    requires under_way { spot.now.second ≤ 4 }
    requires room { length sets.now + spot.now.left + length melds.now ≤ 4 }
    ensures { OnOk result (found.new.items ≡ found.old.items
        ++ readings_past melds.now winning sets.now (triplet_ways others.now spot.now free)) }
{
    if free < 3 {
        return Ok(());
    }
    gather_branch(
        others,
        spot,
        free - 3,
        1,
        spot.pair,
        sets,
        melds,
        winning,
        found,
    )
}

/// Adds the readings of the ways with the pair of the spot's kind and runs that begin there.
#[cycle(gather)]
fn gather_pair(
    others: &[u8],
    spot: &Spot,
    free: u8,
    sets: &Sets,
    melds: &[Meld],
    winning: Kind,
    found: &mut Vec<Reading>,
) -> Result<(), AllocError>
    requires kinds { spot.now.kind + length others.now + 1 ≡ 34 }
    requires under_way { spot.now.second ≤ 4 }
    requires room { length sets.now + spot.now.left + length melds.now ≤ 4 }
    ensures { OnOk result (found.new.items ≡ found.old.items
        ++ readings_past melds.now winning sets.now (pair_ways others.now spot.now free)) }
{
    if free < 2 {
        return Ok(());
    }
    if spot.pair.is_some() {
        return Ok(());
    }
    let pair = Kind::of(spot.kind);
    gather_branch(others, spot, free - 2, 0, pair, sets, melds, winning, found)
}

/// Adds the readings of the ways with so many runs and triplets that begin at the spot's kind, and this pair from there on.
#[cycle(gather)]
fn gather_branch(
    others: &[u8],
    spot: &Spot,
    runs: u8,
    triplets: u8,
    pair: Option<Kind>,
    sets: &Sets,
    melds: &[Meld],
    winning: Kind,
    found: &mut Vec<Reading>,
) -> Result<(), AllocError>
    requires kinds { spot.now.kind + length others.now + 1 ≡ 34 }
    requires under_way { spot.now.second ≤ 4 }
    requires triplet { triplets ≤ 1 }
    requires room { length sets.now + spot.now.left + length melds.now ≤ 4 }
    ensures { OnOk result (found.new.items ≡ found.old.items
        ++ readings_past melds.now winning sets.now
        (branch_ways others.now spot.now runs triplets pair)) }
{
    if !can_begin(spot.kind, runs, triplets, spot.left) {
        return Ok(());
    }
    let next = Spot {
        kind: spot.kind + 1,
        first: spot.second,
        second: runs,
        left: spot.left - (runs + triplets),
        pair,
    };
    if runs + triplets == 0 {
        return gather(others, &next, sets, melds, winning, found);
    }
    let made = sets_with(sets, Kind::at(spot.kind), runs, triplets);
    gather(others, &next, &made, melds, winning, found)
}

/// The readings after the last kind: those of the sets made, where none is left to make and the pair is made.
fn gather_end(
    spot: &Spot,
    sets: &Sets,
    melds: &[Meld],
    winning: Kind,
    found: &mut Vec<Reading>,
) -> Result<(), AllocError>
    requires { length sets.now + spot.now.left + length melds.now ≤ 4 }
    ensures { OnOk result (found.new.items ≡ found.old.items
        ++ readings_past melds.now winning sets.now (end_of spot.now.left spot.now.pair)) }
{
    let Some(pair) = spot.pair else {
        return Ok(());
    };
    if spot.left > 0 {
        return Ok(());
    }
    gather_wins(sets, pair, melds, winning, found)
}

/// The readings of these sets and this pair, one for each place of the winning tile.
fn gather_wins(
    sets: &Sets,
    pair: Kind,
    melds: &[Meld],
    winning: Kind,
    found: &mut Vec<Reading>,
) -> Result<(), AllocError>
    requires { length sets.now + length melds.now ≤ 4 }
    ensures { OnOk result (found.new.items ≡ found.old.items
        ++ map (with_win melds.now winning sets.now pair) (win_places sets.now pair winning)) }
{
    for win in 0..5 {
        gather_win(sets, pair, win, melds, winning, found)?;
    }
    Ok(())
}

/// The reading where the winning tile is at this place; none where it isn't.
fn gather_win(
    sets: &Sets,
    pair: Kind,
    win: u8,
    melds: &[Meld],
    winning: Kind,
    found: &mut Vec<Reading>,
) -> Result<(), AllocError>
    requires { length sets.now + length melds.now ≤ 4 }
    ensures { OnOk result (found.new.items ≡ found.old.items
        ++ (if names_winning sets.now pair winning win
        then with_win melds.now winning sets.now pair win ∷ []
        else [])) }
{
    if !has_winning(sets.as_slice(), pair, winning, win) {
        return Ok(());
    }
    let winning_way = WinningWay {
        sets: *sets,
        pair,
        win,
    };
    found.push(as_reading(&winning_way, melds, winning))?;
    Ok(())
}
