ghost use Rattle.std.specs.Prelude.{◌≡◌, ◌<◌, slice_get, false};
ghost use Rattle.std.specs.List.{list_all};
ghost use Rattle.std.specs.Option.{option_map_or};
ghost use Rattle.mj_fu.specs.Forms.{
  is_dragon as dragon,
  is_run as run,
  is_concealed_at as concealed_at,
  is_pinfu as pinfu,
  is_two_sided as two_sided,
  is_pinfu_of,
  has_value as value_of_pair,
};

use mj_readings::{Case, Reading, Set, SetForm};
use mj_tiles::{Kind, WHITE};

/// Whether the kind is one of the dragons, `P`, `F` and `C`.
pub fn is_dragon(kind: Kind) -> bool
    ensures { result ≡ dragon kind }
{
    kind.number() >= WHITE
}

/// Whether the set is a run, and no triplet or kan.
pub fn is_run(set: &Set) -> bool
    ensures { result ≡ run set.now }
{
    match set.form {
        SetForm::Run => true,
        SetForm::Triplet | SetForm::Kan => false,
    }
}

/// Whether the set at place `place` of a hand of four sets is concealed: it isn't shown, and it isn't a triplet that
/// the winning tile of a ron completed. `win` is the place of the winning tile, 4 for the pair.
pub fn is_concealed_at(place: u8, win: u8, case: &Case, set: &Set) -> bool
    ensures { result ≡ concealed_at place win case.now set.now }
{
    if set.shown {
        return false;
    }
    match set.form {
        SetForm::Triplet => place != win || case.by_draw,
        SetForm::Run | SetForm::Kan => true,
    }
}

/// Whether the reading is a pinfu: a closed hand of four runs and a pair that is no dragon, seat wind or round wind,
/// won with a tile at the end of a run that could have been completed at its other end too.
#[tactic(auto, unfolding(crate::specs::Forms::is_pinfu))]
pub fn is_pinfu(reading: &Reading, case: &Case) -> bool
    ensures { result ≡ pinfu reading.now case.now }
{
    match reading {
        Reading::Standard {
            a,
            b,
            c,
            d,
            pair,
            win,
            winning,
        } => case.closed && has_pinfu_form(&[*a, *b, *c, *d], *pair, *win, *winning, case),
        Reading::Pairs { .. } | Reading::Orphans { .. } => false,
    }
}

// Four runs, a pair without value, and a wait on both sides.
fn has_pinfu_form(sets: &[Set], pair: Kind, win: u8, winning: Kind, case: &Case) -> bool
    ensures { result ≡ is_pinfu_of sets.now pair win winning case.now }
{
    if !all_runs(sets) || has_value(case, pair) {
        return false;
    }
    waits_on_both_sides(sets, win, winning)
}

// Whether all sets are runs.
fn all_runs(sets: &[Set]) -> bool
    ensures { result ≡ list_all run sets.now }
{
    sets.iter().all(|set| is_run(set))
}

// Whether a pair of the kind has value.
fn has_value(case: &Case, pair: Kind) -> bool
    ensures { result ≡ value_of_pair case.now pair }
{
    is_dragon(pair) || pair == case.seat_wind || pair == case.round_wind
}

// Whether the set that the winning tile completed, where it isn't the pair, could have been completed at its other
// end too.
fn waits_on_both_sides(sets: &[Set], win: u8, winning: Kind) -> bool
    ensures { result ≡ option_map_or
        (λ set. two_sided set.low winning) (slice_get sets.now win) false }
{
    match sets.get(usize::from(win)) {
        Some(set) => is_two_sided(set.low.number(), winning.number()),
        None => false,
    }
}

// Whether the winning tile is an end of the run, and the run isn't the one at the edge of the suit that waits there
// alone.
fn is_two_sided(low: u8, winning: u8) -> bool
    requires { low < 34 }
    ensures { result ≡ two_sided low winning }
{
    (winning == low && low % 9 != 6) || (winning == low + 2 && low % 9 != 0)
}
