//! The nearest seven pairs.

ghost use Rattle.std.specs.Prelude.{◌≡◌, ◌+◌, ◌≤◌, nat_le, nat_lt, take, count_by, slice_index};
ghost use Rattle.mj_suits.specs.Improves.{Improves};
ghost use Rattle.mj_suits.specs.Tables.{IsLeast};
ghost use Rattle.mj_shanten.specs.Suits.{Padded, with_two};
ghost use Rattle.mj_shanten.specs.Inner.Special.{IsPairs, so_often, better, nearest_pairs};

use crate::suits::keep_nearer;
use mj_tiles::KINDS;

/// Takes into the best hand the seven pairs that are nearest. A kind that is held twice or more goes before one that is
/// held once, and that before one that is not held; of kinds held alike the lowest goes first.
pub(crate) fn take_pairs(held: &[u8; 36], best: &mut Option<(u16, [u8; 36])>)
    ensures { Improves held.now (Padded IsPairs) best.old best.new }
{
    let target = pairs_of(held);
    keep_nearer(held, &target, best);
}

/// How many tiles the nearest seven pairs miss: one for each pair beyond the kinds that are held twice, and one for each
/// beyond those that are held.
pub(crate) fn missing_of_pairs(held: &[u8; 36]) -> u8
    ensures { IsLeast held.now (Padded IsPairs) result }
{
    let twice = 7usize.saturating_sub(kinds_held(held, 2)) as u8;
    let once = 7usize.saturating_sub(kinds_held(held, 1)) as u8;
    twice + once
}

// The nearest seven pairs.
fn pairs_of(held: &[u8; 36]) -> [u8; 36]
    ensures { result ≡ with_two (nearest_pairs (take 34 held.now) 7) }
{
    let mut target = [0; 36];
    let mut left: usize = 7;
    let mut twice = kinds_held(held, 2);
    let mut once = kinds_held(held, 1);
    for kind in 0..KINDS {
        let number = held[kind];
        twice -= (number >= 2) as usize;
        once -= (number >= 1) as usize;
        let taken = is_taken(number, twice, once, left);
        target[kind] = 2 * (taken as u8);
        left -= taken as usize;
    }
    target
}

// Whether more pairs are still to come than later kinds go before one that is held so often.
fn is_taken(number: u8, twice: usize, once: usize, left: usize) -> bool
    ensures { result ≡ nat_lt (better number twice once) left }
{
    if number >= 2 {
        return left > 0;
    }
    if number == 1 {
        return left > twice;
    }
    left > once
}

// How many kinds are held so often or more.
pub(crate) fn kinds_held(held: &[u8; 36], times: u8) -> usize
    ensures { result ≡ so_often times (take 34 held.now) }
{
    let mut many = 0;
    for kind in 0..KINDS {
        many += (held[kind] >= times) as u8;
    }
    usize::from(many)
}
