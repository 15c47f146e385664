ghost use Rattle.std.specs.Prelude.{◌≡◌, ◌≤◌, ◌<◌, ◌&&◌, false, slice_get};
ghost use Rattle.std.specs.Option.{option_map_or};
ghost use Rattle.mj_fu.specs.Forms.{is_concealed_at as concealed_at, is_run as run};
ghost use Rattle.mj_fu.specs.Fu.{
  fu_of,
  is_orphans,
  set_fu as fu_of_set,
  set_fu_at as fu_of_set_at,
  pair_fu as fu_of_pair,
  wait_fu as fu_of_wait,
  win_fu as fu_of_win,
  is_one_sided as one_sided,
  to_tens as tens,
  sum_of_parts as parts,
  rounded as rounded_fu,
};

use crate::forms::{is_concealed_at, is_dragon, is_pinfu, is_run};
use mj_readings::{Case, Reading, Set, SetForm};
use mj_tiles::Kind;

/// The fu of a reading of a complete hand, 0 to 170.
///
/// Seven pairs have 25, thirteen orphans none, and a pinfu that was drawn 20. Any other hand has 20, and more for a
/// closed hand won by ron (10) or a drawn win (2), for each triplet and kan, for a pair of a dragon, the seat wind or
/// the round wind, and for a wait for one kind alone. The sum is rounded up to tens; an open hand won by ron with
/// nothing but the 20 has 30.
#[tactic(auto, unfolding(crate::specs::Fu::fu_of, crate::specs::Fu::sum_of_parts))]
pub fn fu(reading: &Reading, case: &Case) -> u8
    ensures value { result ≡ fu_of reading.now case.now }
    ensures least { is_orphans reading.now ≡ false → 20 ≤ result }
    ensures most { result ≤ 170 }
{
    match reading {
        Reading::Pairs { .. } => 25,
        Reading::Orphans { .. } => 0,
        Reading::Standard {
            a,
            b,
            c,
            d,
            pair,
            win,
            winning,
        } => {
            if case.by_draw && is_pinfu(reading, case) {
                return 20;
            }
            let sets = set_fu_at(0, *win, case, a)
                + set_fu_at(1, *win, case, b)
                + set_fu_at(2, *win, case, c)
                + set_fu_at(3, *win, case, d);
            let wait = wait_fu(&[*a, *b, *c, *d], *win, *winning);
            rounded(20 + win_fu(case) + sets + pair_fu(*pair, case) + wait, case)
        }
    }
}

// The fu of the set at the place.
fn set_fu_at(place: u8, win: u8, case: &Case, set: &Set) -> u8
    ensures value { result ≡ fu_of_set_at place win case.now set.now }
    ensures most { result ≤ 32 }
{
    set_fu(is_concealed_at(place, win, case, set), set)
}

// The fu of a set: 2 for a triplet, 8 for a kan, twice for a concealed one, and twice for terminals and honours.
#[tactic(auto, unfolding(crate::specs::Fu::set_fu))]
fn set_fu(concealed: bool, set: &Set) -> u8
    ensures value { result ≡ fu_of_set concealed set.now }
    ensures most { result ≤ 32 }
{
    let form = match set.form {
        SetForm::Run => 0,
        SetForm::Triplet => 2,
        SetForm::Kan => 8,
    };
    let hidden = if concealed { 2 } else { 1 };
    let outside = if set.low.is_terminal_or_honour() {
        2
    } else {
        1
    };
    form * hidden * outside
}

// The fu of the pair.
#[tactic(auto, unfolding(crate::specs::Fu::pair_fu))]
fn pair_fu(pair: Kind, case: &Case) -> u8
    ensures value { result ≡ fu_of_pair pair case.now }
    ensures most { result ≤ 6 }
{
    let dragon = if is_dragon(pair) { 2 } else { 0 };
    let seat = if pair == case.seat_wind { 2 } else { 0 };
    let round = if pair == case.round_wind { 2 } else { 0 };
    dragon + seat + round
}

// The fu of the wait.
#[tactic(auto, unfolding(crate::specs::Fu::wait_fu))]
fn wait_fu(sets: &[Set], win: u8, winning: Kind) -> u8
    ensures value { result ≡ fu_of_wait sets.now win winning }
    ensures most { result ≤ 2 }
{
    if win == 4 || is_one_sided_set(sets, win, winning) {
        2
    } else {
        0
    }
}

// Whether the winning tile completed a run of which it was the middle or at the edge of the suit.
fn is_one_sided_set(sets: &[Set], win: u8, winning: Kind) -> bool
    ensures { result ≡ option_map_or
        (λ set. run set && one_sided set.low winning) (slice_get sets.now win) false }
{
    match sets.get(usize::from(win)) {
        Some(set) => is_run(set) && is_one_sided(set.low.number(), winning.number()),
        None => false,
    }
}

// Whether the winning tile is the middle of the run, the 3 of 123 or the 7 of 789.
fn is_one_sided(low: u8, winning: u8) -> bool
    requires { low < 34 }
    ensures { result ≡ one_sided low winning }
{
    winning == low + 1 || (winning == low + 2 && low % 9 == 0) || (winning == low && low % 9 == 6)
}

// The fu of the way in which the hand was won.
#[tactic(auto, unfolding(crate::specs::Fu::win_fu))]
fn win_fu(case: &Case) -> u8
    ensures value { result ≡ fu_of_win case.now }
    ensures most { result ≤ 10 }
{
    if case.by_draw {
        return 2;
    }
    if case.closed { 10 } else { 0 }
}

// The sum rounded up to tens; an open hand won by ron with a sum of 20 has 30.
#[tactic(auto, unfolding(crate::specs::Fu::rounded, crate::specs::Fu::to_tens))]
fn rounded(sum: u8, case: &Case) -> u8
    requires least { 20 ≤ sum }
    requires most { sum ≤ 170 }
    ensures value { result ≡ rounded_fu sum case.now }
    ensures least { 20 ≤ result }
    ensures most { result ≤ 170 }
{
    if sum == 20 && !case.closed && !case.by_draw {
        return 30;
    }
    sum.div_ceil(10) * 10
}
