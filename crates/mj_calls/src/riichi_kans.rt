ghost use Rattle.std.specs.Prelude.{◌≡◌, ◌≤◌, ◌<◌, flat_map, length, slice_index};
ghost use Rattle.std.specs.List.{list_all, list_any};
ghost use Rattle.mj_tiles.specs.Counts.{all_kinds, room_beside};
ghost use Rattle.mj_tiles.specs.Kinds.{kinds_that};
ghost use Rattle.mj_tiles.specs.Melds.{tiles_of_meld};
ghost use Rattle.mj_waits.specs.Waits.{is_wait};
ghost use Rattle.mj_readings.specs.Tests.{one_more};
ghost use Rattle.mj_readings.specs.AllReadings.{readings_of};
ghost use Rattle.mj_calls.specs.RiichiKans.{is_riichi_kan, keeps_wait, reads_as_triplet, fewer, has_own_triplet, is_own_triplet};

use mj_readings::{Reading, Set, SetForm, reading_at};
use mj_tiles::{Counts, KINDS, Kind, Kinds, Meld};
use mj_waits::waits;

/// Whether a seat in riichi may make a concealed kan of a kind, out of its concealed tiles before its draw, the room
/// that its melds leave of four tiles of each kind, its melds, and the kind that it drew: it is the drawn kind, of
/// which three were held before the draw, the waits stay the same, and in every reading of every hand that was waited
/// for these three are a triplet.
#[tactic(auto, unfolding(crate::specs::RiichiKans::is_riichi_kan))]
pub fn riichi_kan(before: &Counts, room: &Counts, melds: &[Meld], drawn: Kind, kind: Kind) -> bool
    requires few { length melds.now ≤ 4 }
    requires room { room.now ≡ room_beside (flat_map tiles_of_meld melds.now) }
    ensures { result ≡ is_riichi_kan before.now room.now melds.now drawn kind }
{
    if kind != drawn || before.get(kind) < 3 {
        return false;
    }
    let waited = waits(before, room, melds.len() as u8);
    keeps_waits(waited, before, room, melds.len() as u8, kind)
        && read_as_triplets(waited, before, room, melds, kind)
}

// The kan leaves the waits what they were.
fn keeps_waits(waited: Kinds, before: &Counts, room: &Counts, melds: u8, kind: Kind) -> bool
    requires few { melds ≤ 4 }
    requires waits { waited ≡ kinds_that (is_wait before.now room.now melds) }
    ensures { result ≡ list_all (keeps_wait before.now room.now melds kind) all_kinds }
{
    waits(&fewer(before, kind, 3), &fewer(room, kind, 4), melds + 1) == waited
}

// The numbers with so many tiles fewer of a kind, or none of it where there are not so many.
fn fewer(numbers: &Counts, kind: Kind, count: u8) -> Counts
    ensures { result ≡ fewer numbers.now kind count }
{
    let mut left = *numbers.numbers();
    let place = usize::from(kind.number());
    left[place] = left[place].saturating_sub(count);
    Counts::from_numbers(left)
}

// In every reading of every hand that was waited for three tiles of the kind are a triplet.
fn read_as_triplets(
    waited: Kinds,
    before: &Counts,
    room: &Counts,
    melds: &[Meld],
    kind: Kind,
) -> bool
    requires { waited ≡ kinds_that (is_wait before.now room.now (length melds.now)) }
    ensures { result ≡ list_all (reads_as_triplet before.now room.now melds.now kind) all_kinds }
{
    for number in 0..KINDS as u8 {
        let wait = Kind::at(number);
        if !reads_as_triplet(waited, before, room, melds, wait, kind) {
            return false;
        }
    }
    true
}

// Where a kind was waited for, three tiles of another are a triplet in every reading of the hand that it completes.
fn reads_as_triplet(
    waited: Kinds,
    before: &Counts,
    room: &Counts,
    melds: &[Meld],
    wait: Kind,
    kind: Kind,
) -> bool
    requires kind { wait < 34 }
    requires waits { waited ≡ kinds_that (is_wait before.now room.now (length melds.now)) }
    ensures { result ≡ reads_as_triplet before.now room.now melds.now kind wait }
{
    if !waited.has(wait) || before.get(wait) >= room.get(wait) {
        return true;
    }
    is_read_as_triplet(&with(before, wait), melds, wait, kind)
}

// The counts with one tile more of a kind, of which there are fewer than four.
fn with(counts: &Counts, kind: Kind) -> Counts
    requires { slice_index counts.now kind < 4 }
    ensures { result ≡ one_more counts.now kind }
{
    let mut numbers = *counts.numbers();
    numbers[usize::from(kind.number())] += 1;
    Counts::from_numbers(numbers)
}

// In every reading of a hand, won on a kind, three tiles of another kind are a triplet.
fn is_read_as_triplet(counts: &Counts, melds: &[Meld], winning: Kind, kind: Kind) -> bool
    ensures { result ≡ list_all (has_own_triplet kind) (readings_of counts.now melds.now winning) }
{
    let mut index = 0;
    while let Some(reading) = reading_at(counts, melds, winning, index) {
        if !has_own_triplet(&reading, kind) {
            return false;
        }
        index += 1;
    }
    true
}

// Three tiles of the kind are a triplet in the reading.
fn has_own_triplet(reading: &Reading, kind: Kind) -> bool
    ensures { result ≡ has_own_triplet kind reading.now }
{
    match reading {
        Reading::Standard { a, b, c, d, .. } => {
            is_own_triplet(a, kind)
                || is_own_triplet(b, kind)
                || is_own_triplet(c, kind)
                || is_own_triplet(d, kind)
        }
        _ => false,
    }
}

// The set is a triplet of the kind, of concealed tiles.
fn is_own_triplet(set: &Set, kind: Kind) -> bool
    ensures { result ≡ is_own_triplet kind set.now }
{
    match set.form {
        SetForm::Triplet => set.low == kind && !set.shown,
        _ => false,
    }
}
