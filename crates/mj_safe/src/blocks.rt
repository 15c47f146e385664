ghost use Rattle.std.specs.Prelude.{◌≡◌, ◌≤◌, ◌<◌, ◌+◌, ◌==◌, ◌&&◌, nat_lt, length, slice_index, IsTrue};
ghost use Rattle.std.specs.List.{list_any};
ghost use Rattle.mj_tiles.specs.Counts.{all_kinds};
ghost use Rattle.mj_deeds.specs.Hand.{hand};
ghost use Rattle.mj_deeds.specs.Facts.{seat_melds};
ghost use Rattle.mj_safety.specs.Safe.{is_blocked, is_run_of};
ghost use Rattle.mj_safe.specs.Inner.Blocks.{four_beside, is_orphan_beside, is_run_blocked, orphans_blocked, runs_blocked};

use mj_table::Table;
use mj_tiles::{Counts, EAST, KINDS, Kind};

// Whether no hand of the other seat can be completed by a kind, as far as a seat sees: all four tiles of it are seen, so no triplet
// and no pair, and neither a run nor thirteen orphans.
pub(crate) fn is_blocked(table: &Table, seat: u8, against: u8, kind: Kind) -> bool
    requires seat { seat ≤ 3 }
    requires against { against ≤ 3 }
    ensures { result ≡ is_blocked (hand table.now.deeds) seat against kind }
{
    let seen = table.seen(seat);
    if seen.numbers()[usize::from(kind.number())] != 4 {
        return false;
    }
    if !are_runs_blocked(&seen, kind) {
        return false;
    }
    let melded = has_meld(table, against);
    are_orphans_blocked(&seen, melded, kind)
}

// Whether a seat has a meld.
#[tactic(auto, using(crate::proofs::Blocking::some_meld))]
fn has_meld(table: &Table, seat: u8) -> bool
    requires { seat ≤ 3 }
    ensures { result ≡ nat_lt 0 (length (seat_melds (hand table.now.deeds) seat)) }
{
    !table.melds(seat).as_slice().is_empty()
}

// Whether each run that has the kind wants another kind of which all four tiles are seen.
fn are_runs_blocked(seen: &Counts, kind: Kind) -> bool
    ensures { result ≡ runs_blocked seen.now kind }
{
    for low in 0..KINDS as u8 {
        if !is_run_blocked(seen, kind, low) {
            return false;
        }
    }
    true
}

// Whether the run that begins at a kind has not the other, or wants one beside it of which all four tiles are seen.
fn is_run_blocked(seen: &Counts, kind: Kind, low: u8) -> bool
    requires { low < 34 }
    ensures { result ≡ is_run_blocked seen.now kind low }
{
    if !is_run_of(kind, low) {
        return true;
    }
    is_four_beside(seen, kind, low)
        || is_four_beside(seen, kind, low + 1)
        || is_four_beside(seen, kind, low + 2)
}

// Whether a run begins at a kind and has the other.
#[tactic(auto, using(crate::proofs::Blocking::run_low), unfolding(mj_readings::specs::Sets::begins_run))]
fn is_run_of(kind: Kind, low: u8) -> bool
    requires { low < 34 }
    ensures value { result ≡ is_run_of kind low }
    ensures within { IsTrue result → low < 27 }
{
    let number = kind.number();
    low < EAST && low % 9 < 7 && (low == number || low + 1 == number || low + 2 == number)
}

// Whether a kind is another one than the given, and all four tiles of it are seen.
fn is_four_beside(seen: &Counts, kind: Kind, other: u8) -> bool
    requires { other < 34 }
    ensures { result ≡ four_beside seen.now kind other }
{
    other != kind.number() && seen.get(Kind::at(other)) == 4
}

// Whether the kind is no terminal and no honour, or there is a meld, or of another terminal or honour all four tiles are seen.
fn are_orphans_blocked(seen: &Counts, melded: bool, kind: Kind) -> bool
    ensures { result ≡ orphans_blocked seen.now melded kind }
{
    !kind.is_terminal_or_honour() || melded || is_some_orphan_missing(seen, kind)
}

// Whether of some terminal or honour but the kind all four tiles are seen.
fn is_some_orphan_missing(seen: &Counts, kind: Kind) -> bool
    ensures { result ≡ list_any (is_orphan_beside seen.now kind) all_kinds }
{
    for other in 0..KINDS as u8 {
        if is_orphan_beside(seen, kind, other) {
            return true;
        }
    }
    false
}

// Whether a kind is a terminal or an honour, and another one than the given, of which all four tiles are seen.
fn is_orphan_beside(seen: &Counts, kind: Kind, other: u8) -> bool
    requires { other < 34 }
    ensures { result ≡ is_orphan_beside seen.now kind other }
{
    Kind::at(other).is_terminal_or_honour() && is_four_beside(seen, kind, other)
}
