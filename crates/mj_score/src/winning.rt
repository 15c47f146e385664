ghost use Rattle.std.specs.Prelude.{◌≡◌, ◌≤◌, ◌==◌, true, false, All, IfOk};
ghost use Rattle.mj_fu.specs.Fu.{is_orphans};
ghost use Rattle.mj_yaku.specs.Hands.{are_concealed};
ghost use Rattle.mj_yaku.specs.SomeYaku.{gives_yaku};
ghost use Rattle.mj_score.specs.Scores.{score_of};
ghost use Rattle.mj_score.specs.Worth.{IsWorth, worth_of};
ghost use Rattle.mj_score.specs.Inner.BestAmong.{better_of, with_reading, best_among};

use crate::order::is_better;
use crate::score::{Extra, Score, score_reading};
use mj_readings::{Case, Reading, readings};
use mj_tiles::{Counts, Kind, Meld};
use mj_yaku::yaku;
use std::alloc::{AllocError, Global};

/// The worth of a hand: of its concealed tiles, the winning tile among them, its melds, and the kind of the winning
/// tile. It is the greatest score of the readings that have a yaku, by base points, then han, then fu, then the
/// lexicographically least list of rows; none exactly where no reading has a yaku. `Err` is running out of memory.
///
/// Conditions: `closed` of the case is true exactly where all melds are concealed kans, and there are at most 90 dora of
/// either kind and 18 red fives: more than eighteen tiles with five indicators can have.
#[tactic(auto, unfolding(crate::specs::Worth::worth_of))]
pub fn worth(
    alloc: Global,
    counts: &Counts,
    melds: &[Meld],
    win: Kind,
    case: &Case,
    extra: Extra,
) -> Result<Option<Score>, AllocError>
    requires closed { case.now.closed ≡ are_concealed melds.now }
    requires dora { extra.dora ≤ 90 }
    requires under { extra.under ≤ 90 }
    requires red { extra.red ≤ 18 }
    ensures value { IfOk result (λ worth. worth
        ≡ worth_of counts.now melds.now win case.now extra) }
    ensures law { IfOk result (λ worth. IsWorth counts.now melds.now win case.now extra worth) }
{
    let found = readings(alloc, counts, melds, win)?;
    Ok(best_of(found.as_slice(), melds, case, extra))
}

// The best score of the readings that have a yaku.
#[tactic(auto, unfolding(crate::specs::Inner::BestAmong::best_among))]
fn best_of(readings: &[Reading], melds: &[Meld], case: &Case, extra: Extra) -> Option<Score>
    requires closed { case.now.closed ≡ are_concealed melds.now }
    requires orphans { All (λ reading. is_orphans reading ≡ true → case.now.closed ≡ true)
        readings.now }
    requires dora { extra.dora ≤ 90 }
    requires under { extra.under ≤ 90 }
    requires red { extra.red ≤ 18 }
    ensures { result ≡ best_among melds.now case.now extra readings.now }
{
    let mut best = None;
    for reading in readings {
        best = best_with(best, reading, melds, case, extra);
    }
    best
}

// The best score once this reading is looked at too.
fn best_with(
    best: Option<Score>,
    reading: &Reading,
    melds: &[Meld],
    case: &Case,
    extra: Extra,
) -> Option<Score>
    requires closed { case.now.closed ≡ are_concealed melds.now }
    requires orphans { is_orphans reading.now ≡ true → case.now.closed ≡ true }
    requires dora { extra.dora ≤ 90 }
    requires under { extra.under ≤ 90 }
    requires red { extra.red ≤ 18 }
    ensures { result ≡ with_reading melds.now case.now extra best reading.now }
{
    let rows = yaku(reading, melds, case);
    if rows.is_empty() {
        return best;
    }
    let new = score_reading(rows, reading, case, extra);
    better(best, new)
}

// The better one of a best score, where there is one, and a new one.
fn better(best: Option<Score>, new: Score) -> Option<Score>
    ensures { result ≡ better_of best new }
{
    match best {
        None => Some(new),
        Some(old) => {
            if is_better(&new, &old) {
                return Some(new);
            }
            Some(old)
        }
    }
}
