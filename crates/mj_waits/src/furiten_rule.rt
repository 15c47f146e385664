ghost use Rattle.std.specs.Prelude.{◌≡◌, ℕ, ◌&&◌, ◌||◌, false, List};
ghost use Rattle.std.specs.List.{list_any};
ghost use Rattle.mj_tiles.specs.Counts.{NoFifth, all_kinds};
ghost use Rattle.mj_tiles.specs.Kinds.{has_kind, kinds_that};
ghost use Rattle.mj_readings.specs.Completing.{is_completing};
ghost use Rattle.mj_waits.specs.Furiten.{is_missed, is_furiten};
ghost use Rattle.mj_waits.specs.Waits.{is_wait};

use mj_readings::is_completed_by;
use mj_tiles::{Counts, KINDS, Kind, Kinds};

/// What decides whether a seat is furiten: its waits, the kinds of its own discards in the hand, those that other
/// seats discarded or added to a kan since its own last discard, and those since its own riichi.
#[derive(Clone, Copy, Debug)]
pub struct Facts {
    pub waits: Kinds,
    pub own: Kinds,
    pub passed: Kinds,
    pub passed_in_riichi: Kinds,
}

/// Whether the seat may not win on a discard: one of its waits is among its own discards, or was let pass since its
/// last discard or since its riichi.
pub fn furiten(facts: &Facts) -> bool
    ensures { result ≡ is_furiten facts.now }
{
    for number in 0..KINDS as u8 {
        let kind = Kind::at(number);
        if is_missed_kind(facts, kind) {
            return true;
        }
    }
    false
}

/// Whether some kind that a seat missed completes its hand of concealed tiles with these counts and so many melds: one of its own
/// discards in the hand, or one that it let pass since its last discard or since its riichi. Where none does the seat isn't furiten,
/// whatever its waits are, and they needn't be found.
pub fn misses_some(
    counts: &Counts,
    melds: u8,
    own: Kinds,
    passed: Kinds,
    passed_in_riichi: Kinds,
) -> bool
    ensures value { result ≡ list_any
        (λ kind. (has_kind own kind || has_kind passed kind || has_kind passed_in_riichi kind)
        && is_completing counts.now melds kind)
        all_kinds }
    ensures law { result ≡ false → (room : List ℕ) → NoFifth room → is_furiten (record {
      waits = kinds_that (is_wait counts.now room melds);
      own = own;
      passed = passed;
      passed_in_riichi = passed_in_riichi;
    }) ≡ false }
{
    if is_completed_by(counts, melds, own) {
        return true;
    }
    if misses_passed(counts, melds, passed) {
        return true;
    }
    misses_passed(counts, melds, passed_in_riichi)
}

/// Whether one of the kinds that a seat let pass completes its hand. Mostly it let none pass, and then nothing is asked of the hand.
fn misses_passed(counts: &Counts, melds: u8, passed: Kinds) -> bool
    ensures { result ≡ list_any (λ kind. has_kind passed kind && is_completing counts.now melds kind)
        all_kinds }
{
    if passed.is_empty() {
        return false;
    }
    is_completed_by(counts, melds, passed)
}

/// Whether the kind is a wait that the seat missed.
fn is_missed_kind(facts: &Facts, kind: Kind) -> bool
    ensures { result ≡ is_missed facts.now kind }
{
    facts.waits.has(kind)
        && (facts.own.has(kind) || facts.passed.has(kind) || facts.passed_in_riichi.has(kind))
}
