//! The nearest thirteen orphans.

ghost use Rattle.std.specs.Prelude.{◌≡◌, ◌+◌, ◌<◌, ℕ, MatchBool, map};
ghost use Rattle.mj_tiles.specs.Counts.{all_kinds};
ghost use Rattle.mj_tiles.specs.Terminals.{is_terminal_or_honour};
ghost use Rattle.mj_readings.specs.Complete.{orphan_number};
ghost use Rattle.mj_suits.specs.Improves.{Improves};
ghost use Rattle.mj_suits.specs.Tables.{IsLeast};
ghost use Rattle.mj_shanten.specs.Suits.{Padded, with_two};
ghost use Rattle.mj_shanten.specs.Inner.Special.{IsHeldTwice, IsOrphans, IsOrphansWith};

use crate::nearest_hand::{EACH_ORPHAN, is_nearer};
use crate::suits::{keep_nearer, missing_tiles};
use mj_tiles::{EAST, KINDS};

/// Takes into the best hand the thirteen orphans that are nearest. None is where the best hand misses fewer tiles than
/// there are terminals and honours that are not held.
pub(crate) fn take_orphans(held: &[u8; 36], best: &mut Option<(u16, [u8; 36])>)
    ensures { Improves held.now (Padded IsOrphans) best.old best.new }
{
    if is_nearer(best, missing_tiles(held, &EACH_ORPHAN)) {
        return;
    }
    for double in 0..KINDS as u8 {
        take_double(held, double, best);
    }
}

/// How many tiles the nearest thirteen orphans miss: the terminals and honours that are not held, and one more where none
/// of them is held twice.
pub(crate) fn missing_of_orphans(held: &[u8; 36]) -> u16
    ensures { IsLeast held.now (Padded IsOrphans) result }
{
    let singles = missing_tiles(held, &EACH_ORPHAN);
    if holds_double(held) {
        singles
    } else {
        singles + 1
    }
}

// Whether a terminal or an honour is held twice.
fn holds_double(held: &[u8; 36]) -> bool
    ensures { MatchBool result
        ((kind : ℕ) × IsHeldTwice held.now kind)
        ((kind : ℕ) → IsHeldTwice held.now kind → ⊥) }
{
    for kind in 0..KINDS as u8 {
        if is_held_twice(held, kind) {
            return true;
        }
    }
    false
}

// Whether the kind is one of them and is held twice.
fn is_held_twice(held: &[u8; 36], kind: u8) -> bool
    requires { kind < 34 }
    ensures { MatchBool result (IsHeldTwice held.now kind) (IsHeldTwice held.now kind → ⊥) }
{
    held[kind as usize] >= 2 && is_terminal_or_honour(kind)
}

// Takes into the best hand the thirteen orphans with this kind twice.
fn take_double(held: &[u8; 36], double: u8, best: &mut Option<(u16, [u8; 36])>)
    requires { double < 34 }
    ensures { Improves held.now (IsOrphansWith double) best.old best.new }
{
    if !is_terminal_or_honour(double) {
        return;
    }
    keep_nearer(held, &with_double(double), best);
}

// Each terminal and honour once, and this one twice.
fn with_double(double: u8) -> [u8; 36]
    ensures { result ≡ with_two (map (orphan_number double) all_kinds) }
{
    let mut target = [0; 36];
    for kind in 0..KINDS as u8 {
        target[kind as usize] = number_in_orphans(double, kind);
    }
    target
}

// How often the kind stands in thirteen orphans with the other one twice.
fn number_in_orphans(double: u8, kind: u8) -> u8
    ensures { result ≡ orphan_number double kind }
{
    if !is_terminal_or_honour(kind) {
        return 0;
    }
    if kind == double {
        return 2;
    }
    1
}

// Whether the kind is a one or a nine of a suit, a wind or a dragon.
#[tactic(auto, unfolding(mj_tiles::specs::Terminals::is_terminal_or_honour))]
fn is_terminal_or_honour(kind: u8) -> bool
    ensures { result ≡ is_terminal_or_honour kind }
{
    kind >= EAST || kind % 9 == 0 || kind % 9 == 8
}
