//! The tiles of a hand by suits, and what seven pairs and thirteen orphans miss.

ghost use Rattle.std.specs.Prelude.{◌≡◌, ◌<◌, ◌≤◌, ◌*◌, ℕ, Some, length, take, drop, slice_index};
ghost use Rattle.mj_tiles.specs.Counts.{NoFifth};
ghost use Rattle.mj_suits.specs.Targets.{missing};
ghost use Rattle.mj_suits.specs.Tables.{IsLeast};
ghost use Rattle.mj_shanten.specs.Suits.{Padded, with_two};
ghost use Rattle.mj_shanten.specs.Exchanges.{one_less};
ghost use Rattle.mj_shanten.specs.Inner.Special.{IsPairs, IsSpecial, IsLeastWith, so_often};

use mj_tiles::{Counts, KINDS, Kind};

// Each terminal and honour once.
const EACH_ORPHAN: [u8; KINDS] = [
    1, 0, 0, 0, 0, 0, 0, 0, 1, 1, 0, 0, 0, 0, 0, 0, 0, 1, 1, 0, 0, 0, 0, 0, 0, 0, 1, 1, 1, 1, 1, 1,
    1, 1,
];

/// The nine numbers of a suit, characters, circles, bamboo and honours by 0 to 3; of the honours' the last two are no kind.
pub(crate) fn nine_of(counts: &Counts, suit: u8) -> [u8; 9]
    requires { suit < 4 }
    ensures nine { result ≡ take 9 (drop (9 * suit) (with_two counts.now)) }
    ensures size { length counts.now ≡ 34 }
    ensures few { NoFifth counts.now }
{
    if suit < 3 {
        nine_from(counts.numbers(), 9 * usize::from(suit))
    } else {
        seven_honours(counts.numbers())
    }
}

// Nine numbers from a place on.
#[inline(always)]
fn nine_from(numbers: &[u8; KINDS], from: usize) -> [u8; 9]
    requires { from ≤ 18 }
    ensures { result ≡ take 9 (drop from (with_two numbers.now)) }
{
    let mut nine = [0; 9];
    for n in 0..9 {
        nine[n] = numbers[from + n];
    }
    nine
}

// The seven kinds of honours, and two numbers more.
#[inline(always)]
fn seven_honours(numbers: &[u8; KINDS]) -> [u8; 9]
    ensures { result ≡ take 9 (drop 27 (with_two numbers.now)) }
{
    let mut nine = [0; 9];
    for n in 0..7 {
        nine[n] = numbers[27 + n];
    }
    nine
}

/// The counts with one tile less of a kind that is held.
pub(crate) fn without(counts: &Counts, kind: Kind) -> Counts
    ensures { result ≡ one_less counts.now kind }
{
    let mut numbers = *counts.numbers();
    let place = kind.number() as usize;
    numbers[place] = numbers[place].saturating_sub(1);
    Counts::from_numbers(numbers)
}

/// The fewest tiles that a hand without melds misses, where those of sets and a pair miss so many at least; none where
/// thirteen orphans may be nearer.
pub(crate) fn with_pairs(counts: &Counts, sets: u8) -> Option<u8>
    requires { sets ≤ 15 }
    ensures { (number : ℕ) → result ≡ Some number → IsLeastWith (with_two counts.now) (IsSpecial 0) sets number }
{
    let nearest = sets.min(missing_of_pairs(counts));
    if u16::from(nearest) <= missing_of(counts.numbers(), &EACH_ORPHAN) {
        return Some(nearest);
    }
    None
}

// How many tiles the nearest seven pairs miss: one for each pair beyond the kinds that are held twice, and one for each
// beyond those that are held.
fn missing_of_pairs(counts: &Counts) -> u8
    ensures { IsLeast (with_two counts.now) (Padded IsPairs) result }
{
    let twice = 7u8.saturating_sub(kinds_held(counts.numbers(), 2));
    let once = 7u8.saturating_sub(kinds_held(counts.numbers(), 1));
    twice + once
}

// How many kinds are held so often or more.
fn kinds_held(numbers: &[u8; KINDS], times: u8) -> u8
    ensures { result ≡ so_often times numbers.now }
{
    let mut many = 0;
    for kind in 0..KINDS {
        many += (numbers[kind] >= times) as u8;
    }
    many
}

// How many of the target's tiles are not held.
fn missing_of(numbers: &[u8; KINDS], target: &[u8; KINDS]) -> u16
    ensures { result ≡ missing target.now numbers.now }
{
    let mut number = 0;
    for n in 0..KINDS {
        number += u16::from(target[n].saturating_sub(numbers[n]));
    }
    number
}
