ghost use Rattle.std.specs.Prelude.{◌≡◌, ◌≤◌, ◌+◌, ◌==◌, nat_le, count_by, true};
ghost use Rattle.std.specs.List.{list_all};
ghost use Rattle.mj_readings.specs.Sets.{tiles_of_set};
ghost use Rattle.mj_yaku.specs.Hands.{tiles_of, in_standard, numbers};
ghost use Rattle.mj_yaku.specs.Limits.{kokushi, chuuren, in_gates, has_gates as gates};

use crate::whole_hand::is_of_one_suit;
use mj_readings::{Case, Reading, Set, SetForm};
use mj_tiles::Meld;

/// Kokushi: thirteen orphans, a closed hand.
#[tactic(auto, unfolding(crate::specs::Limits::kokushi))]
pub(crate) fn has_kokushi(reading: &Reading, case: &Case) -> bool
    ensures { result ≡ kokushi reading.now case.now }
{
    match reading {
        Reading::Orphans { .. } => case.closed,
        Reading::Standard { .. } | Reading::Pairs { .. } => false,
    }
}

/// Chuuren, the nine gates: a closed hand of four sets and a pair without melds, of one suit with at least three ones
/// and nines and one of each other number.
#[tactic(auto, unfolding(crate::specs::Limits::chuuren))]
pub(crate) fn has_chuuren(reading: &Reading, melds: &[Meld], case: &Case) -> bool
    ensures { result ≡ chuuren reading.now melds.now case.now }
{
    match reading {
        Reading::Standard { .. } => {
            case.closed
                && melds.is_empty()
                && is_of_one_suit(reading)
                && (has_gates(reading, 0) || has_gates(reading, 9) || has_gates(reading, 18))
        }
        Reading::Pairs { .. } | Reading::Orphans { .. } => false,
    }
}

// The distances of the numbers of a suit from the one.
const NUMBERS: [u8; 9] = [0, 1, 2, 3, 4, 5, 6, 7, 8];

// Whether the hand has three ones and nines and one of each other number of the suit.
fn has_gates(reading: &Reading, suit: u8) -> bool
    requires low { suit ≤ 18 }
    requires standard { in_standard (λ sets pair. true) reading.now ≡ true }
    ensures { result ≡ gates reading.now suit }
{
    NUMBERS
        .iter()
        .all(|number| has_gate(reading, suit, *number))
}

// Whether the hand has as many of the number as the nine gates ask for.
fn has_gate(reading: &Reading, suit: u8, number: u8) -> bool
    requires low { suit ≤ 18 }
    requires within { number ≤ 8 }
    requires standard { in_standard (λ sets pair. true) reading.now ≡ true }
    ensures { result ≡ nat_le (in_gates number)
        (count_by (λ tile. tile == suit + number) (tiles_of reading.now)) }
{
    let wanted = if number == 0 || number == 8 { 3 } else { 1 };
    wanted <= count_tiles(reading, suit + number)
}

// How many tiles of the kind with this number the hand has, where it has four sets and a pair.
#[tactic(auto, unfolding(crate::specs::Hands::tiles_of))]
fn count_tiles(reading: &Reading, number: u8) -> u8
    ensures { in_standard (λ sets pair. true) reading.now ≡ true → result
        ≡ count_by (λ tile. tile == number) (tiles_of reading.now) }
{
    match reading {
        Reading::Standard {
            a,
            b,
            c,
            d,
            pair,
            ..
        } => {
            let paired = if pair.number() == number { 2 } else { 0 };
            count_in_set(a, number)
                + count_in_set(b, number)
                + count_in_set(c, number)
                + count_in_set(d, number)
                + paired
        }
        Reading::Pairs { .. } | Reading::Orphans { .. } => 0,
    }
}

// How many tiles of the kind with this number the set has.
fn count_in_set(set: &Set, number: u8) -> u8
    ensures value { result ≡ count_by (λ tile. tile == number) (tiles_of_set set.now) }
    ensures most { result ≤ 4 }
{
    let low = set.low.number();
    match set.form {
        SetForm::Run => {
            if low <= number && number <= low + 2 {
                1
            } else {
                0
            }
        }
        SetForm::Triplet => { if low == number { 3 } else { 0 } }
        SetForm::Kan => { if low == number { 4 } else { 0 } }
    }
}
