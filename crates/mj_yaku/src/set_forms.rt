ghost use Rattle.std.specs.Prelude.{◌≡◌, ◌≤◌, ◌==◌, ◌||◌, count_by};
ghost use Rattle.std.specs.List.{list_all, list_any};
ghost use Rattle.mj_fu.specs.Forms.{is_run as run};
ghost use Rattle.mj_yaku.specs.Hands.{has_triple as triple_of_sets};
ghost use Rattle.mj_yaku.specs.SetForms.{
  triple_of,
  chiitoitsu,
  toitoi,
  one_concealed,
  concealed_triples,
  sanankou,
  suuankou,
  is_kan_form,
  has_kans,
  sankantsu,
  suukantsu,
  dragons,
  winds,
  triples_of_all,
  triples_and_pair_of,
  shousangen,
  daisangen,
  shousuushi,
  daisuushi,
};

use crate::tiles::has_triple;
use mj_fu::{is_concealed_at, is_run};
use mj_readings::{Case, Reading, Set, SetForm};
use mj_tiles::Kind;

/// A triplet or kan of the kind with this number, in a hand of four sets and a pair.
#[tactic(auto, unfolding(crate::specs::SetForms::triple_of))]
pub(crate) fn has_triple_of(number: u8, reading: &Reading) -> bool
    ensures { result ≡ triple_of number reading.now }
{
    match reading {
        Reading::Standard { a, b, c, d, .. } => has_triple(&[*a, *b, *c, *d], number),
        Reading::Pairs { .. } | Reading::Orphans { .. } => false,
    }
}

/// Chiitoitsu: seven pairs, a closed hand.
#[tactic(auto, unfolding(crate::specs::SetForms::chiitoitsu))]
pub(crate) fn has_chiitoitsu(reading: &Reading, case: &Case) -> bool
    ensures { result ≡ chiitoitsu reading.now case.now }
{
    match reading {
        Reading::Pairs { .. } => case.closed,
        Reading::Standard { .. } | Reading::Orphans { .. } => false,
    }
}

/// Toitoi: four sets and no run.
#[tactic(auto, unfolding(crate::specs::SetForms::toitoi))]
pub(crate) fn has_toitoi(reading: &Reading) -> bool
    ensures { result ≡ toitoi reading.now }
{
    match reading {
        Reading::Standard { a, b, c, d, .. } => {
            !is_run(a) && !is_run(b) && !is_run(c) && !is_run(d)
        }
        Reading::Pairs { .. } | Reading::Orphans { .. } => false,
    }
}

/// Sanankou: exactly three concealed triplets or kans.
#[tactic(auto, unfolding(crate::specs::SetForms::sanankou))]
pub(crate) fn has_sanankou(reading: &Reading, case: &Case) -> bool
    ensures { result ≡ sanankou reading.now case.now }
{
    count_concealed(reading, case) == 3
}

/// Suuankou: four concealed triplets or kans, a closed hand.
#[tactic(auto, unfolding(crate::specs::SetForms::suuankou))]
pub(crate) fn has_suuankou(reading: &Reading, case: &Case) -> bool
    ensures { result ≡ suuankou reading.now case.now }
{
    case.closed && count_concealed(reading, case) == 4
}

// How many concealed triplets and kans the hand has.
#[tactic(auto, unfolding(crate::specs::SetForms::concealed_triples))]
fn count_concealed(reading: &Reading, case: &Case) -> u8
    ensures { result ≡ concealed_triples reading.now case.now }
{
    match reading {
        Reading::Standard {
            a,
            b,
            c,
            d,
            win,
            ..
        } => {
            count_if_concealed(0, *win, case, a)
                + count_if_concealed(1, *win, case, b)
                + count_if_concealed(2, *win, case, c)
                + count_if_concealed(3, *win, case, d)
        }
        Reading::Pairs { .. } | Reading::Orphans { .. } => 0,
    }
}

// One for a concealed triplet or kan at the place, and none for another set.
fn count_if_concealed(place: u8, win: u8, case: &Case, set: &Set) -> u8
    ensures value { result ≡ one_concealed place win case.now set.now }
    ensures most { result ≤ 1 }
{
    if !is_run(set) && is_concealed_at(place, win, case, set) {
        1
    } else {
        0
    }
}

/// Sankantsu: exactly three kans.
#[tactic(auto, unfolding(crate::specs::SetForms::sankantsu))]
pub(crate) fn has_sankantsu(reading: &Reading) -> bool
    ensures { result ≡ sankantsu reading.now }
{
    has_so_many_kans(3, reading)
}

/// Suukantsu: four kans.
#[tactic(auto, unfolding(crate::specs::SetForms::suukantsu))]
pub(crate) fn has_suukantsu(reading: &Reading) -> bool
    ensures { result ≡ suukantsu reading.now }
{
    has_so_many_kans(4, reading)
}

// Whether the hand has four sets and a pair with so many kans.
fn has_so_many_kans(number: usize, reading: &Reading) -> bool
    ensures { result ≡ has_kans number reading.now }
{
    match reading {
        Reading::Standard { a, b, c, d, .. } => count_kans(&[*a, *b, *c, *d]) == number,
        Reading::Pairs { .. } | Reading::Orphans { .. } => false,
    }
}

// How many of the sets are kans.
fn count_kans(sets: &[Set]) -> usize
    ensures { result ≡ count_by (λ set. is_kan_form set.form) sets.now }
{
    sets.iter().filter(|set| is_kan(set)).count()
}

// Whether the set is a kan.
fn is_kan(set: &Set) -> bool
    ensures { result ≡ is_kan_form set.now.form }
{
    match set.form {
        SetForm::Kan => true,
        SetForm::Run | SetForm::Triplet => false,
    }
}

// The numbers of the dragons and of the winds.
const DRAGONS: [u8; 3] = [31, 32, 33];

const WINDS: [u8; 4] = [27, 28, 29, 30];

/// Shousangen: triplets or kans of two dragons, and the third as the pair.
#[tactic(auto, unfolding(crate::specs::SetForms::shousangen))]
pub(crate) fn has_shousangen(reading: &Reading) -> bool
    ensures { result ≡ shousangen reading.now }
{
    has_triples_and_pair(&DRAGONS, reading)
}

/// Daisangen: triplets or kans of the three dragons.
#[tactic(auto, unfolding(crate::specs::SetForms::daisangen))]
pub(crate) fn has_daisangen(reading: &Reading) -> bool
    ensures { result ≡ daisangen reading.now }
{
    has_all_triples(&DRAGONS, reading)
}

/// Shousuushi: triplets or kans of three winds, and the fourth as the pair.
#[tactic(auto, unfolding(crate::specs::SetForms::shousuushi))]
pub(crate) fn has_shousuushi(reading: &Reading) -> bool
    ensures { result ≡ shousuushi reading.now }
{
    has_triples_and_pair(&WINDS, reading)
}

/// Daisuushi: triplets or kans of the four winds.
#[tactic(auto, unfolding(crate::specs::SetForms::daisuushi))]
pub(crate) fn has_daisuushi(reading: &Reading) -> bool
    ensures { result ≡ daisuushi reading.now }
{
    has_all_triples(&WINDS, reading)
}

// Whether the hand has a triplet or kan of each of these kinds.
fn has_all_triples(numbers: &[u8], reading: &Reading) -> bool
    ensures { result ≡ triples_of_all numbers.now reading.now }
{
    match reading {
        Reading::Standard { a, b, c, d, .. } => are_triples(numbers, &[*a, *b, *c, *d]),
        Reading::Pairs { .. } | Reading::Orphans { .. } => false,
    }
}

// Whether the sets have a triplet or kan of each of these kinds.
fn are_triples(numbers: &[u8], sets: &[Set]) -> bool
    ensures { result ≡ list_all (λ kind. triple_of_sets kind sets.now) numbers.now }
{
    numbers.iter().all(|number| has_triple(sets, *number))
}

// Whether the hand has one of these kinds as its pair, and a triplet or kan of each other.
fn has_triples_and_pair(numbers: &[u8], reading: &Reading) -> bool
    ensures { result ≡ triples_and_pair_of numbers.now reading.now }
{
    match reading {
        Reading::Standard {
            a,
            b,
            c,
            d,
            pair,
            ..
        } => { is_one_of(numbers, *pair) && are_triples_or_pair(numbers, &[*a, *b, *c, *d], *pair) }
        Reading::Pairs { .. } | Reading::Orphans { .. } => false,
    }
}

// Whether the kind is one of these.
fn is_one_of(numbers: &[u8], pair: Kind) -> bool
    ensures { result ≡ list_any (λ kind. pair == kind) numbers.now }
{
    numbers.iter().any(|number| pair.number() == *number)
}

// Whether each of these kinds is that of the pair or of a triplet or kan.
fn are_triples_or_pair(numbers: &[u8], sets: &[Set], pair: Kind) -> bool
    ensures { result ≡ list_all (λ kind. pair == kind || triple_of_sets kind sets.now) numbers.now }
{
    numbers.iter().all(|number| pair.number() == *number || has_triple(sets, *number))
}
