ghost use Rattle.std.specs.Prelude.{◌≡◌, ℕ, ◌≤◌, ◌<◌, ◌^◌, ◌+◌, ◌++◌, ◌==◌, [], None, if◌then◌else◌, length, map, slice_get, slice_index, IfOk, OnOk};
ghost use Rattle.mj_tiles.specs.Counts.{IsCounts};
ghost use Rattle.mj_readings.specs.Sets.{set_of_meld};
ghost use Rattle.mj_readings.specs.Readings.{AreReadings};
ghost use Rattle.mj_readings.specs.Inner.ReadingLists.{standard_of, standard_readings, pair_kinds, pairs_readings, orphans_readings};
ghost use Rattle.mj_readings.specs.AllReadings.{readings_of};
ghost use Rattle.mj_readings.specs.Inner.WinningWays.{Picks};

use crate::complete::{are_seven_pairs, double_of};
use crate::gathering::gather;
use crate::reading::{Reading, Set, SetForm};
use crate::sets::Sets;
use crate::winning_way::{Spot, WinningWay, winning_way_at};
use mj_tiles::{Counts, Form, Kind, Kinds, Meld};
use std::alloc::{AllocError, Global};

/// All readings of a hand: of its concealed tiles, the winning tile among them, its melds, and the kind of the winning
/// tile; each once. `Err` is running out of memory.
pub fn readings(
    alloc: Global,
    counts: &Counts,
    melds: &[Meld],
    win: Kind,
) -> Result<Vec<Reading>, AllocError>
    ensures all { IfOk result (λ v. AreReadings counts.now melds.now win v.items) }
    ensures listed { IfOk result (λ v. v.items ≡ readings_of counts.now melds.now win) }
{
    let mut found = Vec::new(alloc);
    gather_standard(counts, melds, win, &mut found)?;
    gather_special(counts, melds, &mut found)?;
    Ok(found)
}

/// The reading at this place of the list that `readings` gives, from 0; none past its end. The list is shorter than 2^64. It takes
/// no memory.
pub fn reading_at(counts: &Counts, melds: &[Meld], win: Kind, index: usize) -> Option<Reading>
    ensures at { result ≡ slice_get (readings_of counts.now melds.now win) index }
    ensures law { AreReadings counts.now melds.now win (readings_of counts.now melds.now win) }
    ensures few { length (readings_of counts.now melds.now win) < 2 ^ 64 }
{
    match standard_at(counts, melds, win, index) {
        Ok(reading) => Some(reading),
        Err(rest) if melds.is_empty() => special_at(counts, rest),
        Err(_) => None,
    }
}

/// Adds the standard readings.
fn gather_standard(
    counts: &Counts,
    melds: &[Meld],
    win: Kind,
    found: &mut Vec<Reading>,
) -> Result<(), AllocError>
    ensures value { OnOk result (found.new.items ≡ found.old.items
        ++ standard_readings counts.now melds.now win) }
    ensures counted { IsCounts counts.now }
{
    let numbers = counts.numbers();
    if melds.len() > 4 {
        return Ok(());
    }
    let spot = first_spot(4 - melds.len() as u8);
    gather(numbers, &spot, &Sets::none(), melds, win, found)
}

/// The spot before the first kind, where so many sets are to be made.
fn first_spot(left: u8) -> Spot
    ensures { result ≡ record { kind = 0; first = 0; second = 0; left = left; pair = None } }
{
    Spot {
        kind: 0,
        first: 0,
        second: 0,
        left,
        pair: None,
    }
}

/// Adds the readings as seven pairs and thirteen orphans, where there are no melds.
fn gather_special(
    counts: &Counts,
    melds: &[Meld],
    found: &mut Vec<Reading>,
) -> Result<(), AllocError>
    ensures { OnOk result (found.new.items ≡ found.old.items
        ++ (if length melds.now == 0
        then pairs_readings counts.now ++ orphans_readings counts.now
        else [])) }
{
    if !melds.is_empty() {
        return Ok(());
    }
    gather_pairs(counts, found)?;
    gather_orphans(counts, found)
}

#[tactic(auto, unfolding(crate::specs::Inner::ReadingLists::pairs_readings))]
fn gather_pairs(counts: &Counts, found: &mut Vec<Reading>) -> Result<(), AllocError>
    ensures { OnOk result (found.new.items ≡ found.old.items ++ pairs_readings counts.now) }
{
    if !are_seven_pairs(counts.numbers()) {
        return Ok(());
    }
    found.push(Reading::Pairs {
        kinds: kinds_of_pairs(counts),
    })?;
    Ok(())
}

#[tactic(auto, unfolding(crate::specs::Inner::ReadingLists::orphans_readings))]
fn gather_orphans(counts: &Counts, found: &mut Vec<Reading>) -> Result<(), AllocError>
    ensures { OnOk result (found.new.items ≡ found.old.items ++ orphans_readings counts.now) }
{
    let Some(double) = double_of(counts.numbers()) else {
        return Ok(());
    };
    found.push(Reading::Orphans { double })?;
    Ok(())
}

/// The standard reading at this place of their list; after its end, how far after.
fn standard_at(counts: &Counts, melds: &[Meld], win: Kind, index: usize) -> Result<Reading, usize>
    ensures listed { Picks (standard_readings counts.now melds.now win) index result }
    ensures counted { IsCounts counts.now }
{
    let numbers = counts.numbers();
    if melds.len() > 4 {
        return Err(index);
    }
    let spot = Spot {
        kind: 0,
        first: 0,
        second: 0,
        left: 4 - melds.len() as u8,
        pair: None,
    };
    match winning_way_at(numbers, &spot, &Sets::none(), win, index) {
        Ok(winning_way) => Ok(as_reading(&winning_way, melds, win)),
        Err(rest) => Err(rest),
    }
}

/// The reading that these sets, the melds after them, and the pair are.
pub(crate) fn as_reading(winning_way: &WinningWay, melds: &[Meld], winning: Kind) -> Reading
    requires { length winning_way.now.sets + length melds.now ≤ 4 }
    ensures { result ≡ standard_of melds.now winning winning_way.now }
{
    let mut sets = winning_way.sets;
    for meld in melds {
        sets = sets.with(&set_of(meld));
    }
    Reading::Standard {
        a: sets.get(0),
        b: sets.get(1),
        c: sets.get(2),
        d: sets.get(3),
        pair: winning_way.pair,
        win: winning_way.win,
        winning,
    }
}

/// The set that a meld is.
fn set_of(meld: &Meld) -> Set
    ensures { result ≡ set_of_meld meld.now }
{
    let form = match meld.form {
        Form::Chi => SetForm::Run,
        Form::Pon => SetForm::Triplet,
        _ => SetForm::Kan,
    };
    Set {
        form,
        low: meld.a.kind(),
        shown: meld.form != Form::ClosedKan,
    }
}

/// The reading as seven pairs or thirteen orphans at this place of their list.
fn special_at(counts: &Counts, index: usize) -> Option<Reading>
    ensures { result ≡ slice_get (pairs_readings counts.now ++ orphans_readings counts.now) index }
{
    match pairs_at(counts, index) {
        Ok(reading) => Some(reading),
        Err(rest) => orphans_at(counts, rest),
    }
}

#[tactic(auto, unfolding(crate::specs::Inner::ReadingLists::pairs_readings))]
fn pairs_at(counts: &Counts, index: usize) -> Result<Reading, usize>
    ensures { Picks (pairs_readings counts.now) index result }
{
    if !are_seven_pairs(counts.numbers()) {
        return Err(index);
    }
    if index > 0 {
        return Err(index - 1);
    }
    Ok(Reading::Pairs {
        kinds: kinds_of_pairs(counts),
    })
}

/// The kinds of which there are two tiles.
fn kinds_of_pairs(counts: &Counts) -> Kinds
    ensures { result ≡ pair_kinds counts.now }
{
    let mut kinds = Kinds::none();
    for (number, count) in counts.numbers().iter().enumerate() {
        if *count == 2 {
            kinds = kinds.with(Kind::at(number as u8));
        }
    }
    kinds
}

#[tactic(auto, unfolding(crate::specs::Inner::ReadingLists::orphans_readings))]
fn orphans_at(counts: &Counts, index: usize) -> Option<Reading>
    ensures { result ≡ slice_get (orphans_readings counts.now) index }
{
    let double = double_of(counts.numbers())?;
    if index > 0 {
        return None;
    }
    Some(Reading::Orphans { double })
}
