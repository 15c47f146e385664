ghost use Rattle.std.specs.Prelude.{◌≡◌, ◌==◌, ◌&&◌, ◌||◌, ◌+◌, ◌≤◌, nat_le, not, count_by};
ghost use Rattle.std.specs.List.{list_all, list_any};
ghost use Rattle.mj_fu.specs.Forms.{is_run as run};
ghost use Rattle.mj_yaku.specs.Hands.{has_triple as triple_of_sets, has_run as run_of_sets, suits, numbers};
ghost use Rattle.mj_yaku.specs.Inner.Classes.{in_class};
ghost use Rattle.mj_yaku.specs.Numbers.{
  number_of_runs,
  has_equal_runs as equal_runs,
  are_equal_runs as all_equal_runs,
  ryanpeikou,
  iipeikou,
  sanshoku_doukou,
  sanshoku_doujun,
  ittsu,
  in_each_set,
  chanta,
  junchan,
};

use crate::tiles::{Class, any_of_set, has_run, has_triple, is_in};
use crate::whole_hand::has_no_honour;
use mj_fu::is_run;
use mj_readings::{Case, Reading, Set};
use mj_tiles::Kind;

/// Ryanpeikou: two pairs of equal runs in a closed hand.
#[tactic(auto, unfolding(crate::specs::Numbers::ryanpeikou))]
pub(crate) fn has_ryanpeikou(reading: &Reading, case: &Case) -> bool
    ensures { result ≡ ryanpeikou reading.now case.now }
{
    match reading {
        Reading::Standard { a, b, c, d, .. } => { case.closed && are_equal_runs(&[*a, *b, *c, *d]) }
        Reading::Pairs { .. } | Reading::Orphans { .. } => false,
    }
}

/// Iipeikou: two equal runs in a closed hand, where it isn't ryanpeikou.
#[tactic(auto, unfolding(crate::specs::Numbers::iipeikou))]
pub(crate) fn has_iipeikou(reading: &Reading, case: &Case) -> bool
    ensures { result ≡ iipeikou reading.now case.now }
{
    match reading {
        Reading::Standard { a, b, c, d, .. } => {
            case.closed && has_one_pair_of_runs(&[*a, *b, *c, *d])
        }
        Reading::Pairs { .. } | Reading::Orphans { .. } => false,
    }
}

// Whether two of the sets are equal runs, and the four aren't two pairs of equal runs.
fn has_one_pair_of_runs(sets: &[Set]) -> bool
    ensures { result ≡ (equal_runs sets.now && not (all_equal_runs sets.now)) }
{
    has_equal_runs(sets) && !are_equal_runs(sets)
}

// How many of the sets are runs with this low tile.
fn count_runs(low: Kind, sets: &[Set]) -> usize
    ensures { result ≡ number_of_runs low sets.now }
{
    sets.iter()
        .filter(|set| is_run(set) && set.low == low)
        .count()
}

// Whether two of the sets are equal runs.
fn has_equal_runs(sets: &[Set]) -> bool
    ensures { result ≡ equal_runs sets.now }
{
    sets.iter()
        .any(|set| is_run(set) && count_runs(set.low, sets) >= 2)
}

// Whether each of the sets is a run that stands twice or four times.
fn are_equal_runs(sets: &[Set]) -> bool
    ensures { result ≡ all_equal_runs sets.now }
{
    sets.iter()
        .all(|set| is_run(set) && stands_in_pairs(set.low, sets))
}

// Whether the run with this low tile stands twice or four times.
fn stands_in_pairs(low: Kind, sets: &[Set]) -> bool
    ensures { result ≡ (number_of_runs low sets.now == 2 || number_of_runs low sets.now == 4) }
{
    let number = count_runs(low, sets);
    number == 2 || number == 4
}

// The distances of the numbers of a suit from the one.
const NUMBERS: [u8; 9] = [0, 1, 2, 3, 4, 5, 6, 7, 8];

/// Sanshoku doukou: triplets or kans of one number in the three suits.
#[tactic(auto, unfolding(crate::specs::Numbers::sanshoku_doukou))]
pub(crate) fn has_sanshoku_doukou(reading: &Reading) -> bool
    ensures { result ≡ sanshoku_doukou reading.now }
{
    match reading {
        Reading::Standard { a, b, c, d, .. } => { has_triples_in_suits(&[*a, *b, *c, *d]) }
        Reading::Pairs { .. } | Reading::Orphans { .. } => false,
    }
}

// Whether one of the numbers has a triplet or kan in each suit.
fn has_triples_in_suits(sets: &[Set]) -> bool
    ensures { result ≡ list_any (λ number. list_all
        (λ suit. triple_of_sets (suit + number) sets.now) suits) numbers }
{
    NUMBERS
        .iter()
        .any(|number| is_triple_in_suits(*number, sets))
}

// Whether the number has a triplet or kan in each suit.
fn is_triple_in_suits(number: u8, sets: &[Set]) -> bool
    requires { number ≤ 8 }
    ensures { result ≡ list_all (λ suit. triple_of_sets (suit + number) sets.now) suits }
{
    has_triple(sets, number) && has_triple(sets, 9 + number) && has_triple(sets, 18 + number)
}

/// Sanshoku doujun: runs with one low number in the three suits.
#[tactic(auto, unfolding(crate::specs::Numbers::sanshoku_doujun))]
pub(crate) fn has_sanshoku_doujun(reading: &Reading) -> bool
    ensures { result ≡ sanshoku_doujun reading.now }
{
    match reading {
        Reading::Standard { a, b, c, d, .. } => { has_runs_in_suits(&[*a, *b, *c, *d]) }
        Reading::Pairs { .. } | Reading::Orphans { .. } => false,
    }
}

// Whether one of the numbers is the low number of a run in each suit.
fn has_runs_in_suits(sets: &[Set]) -> bool
    ensures { result ≡ list_any (λ number. list_all
        (λ suit. run_of_sets (suit + number) sets.now) suits) numbers }
{
    NUMBERS.iter().any(|number| is_run_in_suits(*number, sets))
}

// Whether the number is the low number of a run in each suit.
fn is_run_in_suits(number: u8, sets: &[Set]) -> bool
    requires { number ≤ 8 }
    ensures { result ≡ list_all (λ suit. run_of_sets (suit + number) sets.now) suits }
{
    has_run(sets, number) && has_run(sets, 9 + number) && has_run(sets, 18 + number)
}

/// Ittsu: the runs 123, 456 and 789 of one suit.
#[tactic(auto, unfolding(crate::specs::Numbers::ittsu))]
pub(crate) fn has_ittsu(reading: &Reading) -> bool
    ensures { result ≡ ittsu reading.now }
{
    match reading {
        Reading::Standard { a, b, c, d, .. } => {
            let sets = [*a, *b, *c, *d];
            has_straight(0, &sets) || has_straight(9, &sets) || has_straight(18, &sets)
        }
        Reading::Pairs { .. } | Reading::Orphans { .. } => false,
    }
}

// Whether the sets have the runs 123, 456 and 789 of the suit with this lowest kind.
fn has_straight(suit: u8, sets: &[Set]) -> bool
    requires { suit ≤ 18 }
    ensures { result ≡ (run_of_sets suit sets.now && run_of_sets (suit + 3) sets.now
        && run_of_sets (suit + 6) sets.now) }
{
    has_run(sets, suit) && has_run(sets, suit + 3) && has_run(sets, suit + 6)
}

/// Chanta: a terminal or honour in each set and the pair, some run, some honour.
#[tactic(auto, unfolding(crate::specs::Numbers::chanta))]
pub(crate) fn has_chanta(reading: &Reading) -> bool
    ensures { result ≡ chanta reading.now }
{
    stands_in_each_set(Class::Outside, reading) && !has_no_honour(reading)
}

/// Junchan: a terminal in each set and the pair, some run, no honour.
#[tactic(auto, unfolding(crate::specs::Numbers::junchan))]
pub(crate) fn has_junchan(reading: &Reading) -> bool
    ensures { result ≡ junchan reading.now }
{
    stands_in_each_set(Class::Terminal, reading) && has_no_honour(reading)
}

// Whether each set and the pair has a tile of the class, and some set is a run.
fn stands_in_each_set(class: Class, reading: &Reading) -> bool
    ensures { result ≡ in_each_set (in_class class) reading.now }
{
    match reading {
        Reading::Standard {
            a,
            b,
            c,
            d,
            pair,
            ..
        } => {
            any_of_set(a, class)
                && any_of_set(b, class)
                && any_of_set(c, class)
                && any_of_set(d, class)
                && is_in(class, pair.number())
                && (is_run(a) || is_run(b) || is_run(c) || is_run(d))
        }
        Reading::Pairs { .. } | Reading::Orphans { .. } => false,
    }
}
