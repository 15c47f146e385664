ghost use Rattle.std.specs.Prelude.{◌≡◌, ◌≤◌, ◌<◌, ◌-◌, ◌==◌, ℕ, if◌then◌else◌, length, slice_index};
ghost use Rattle.mj_table.specs.Inner.Seeing.{hidden, seen_of};

use mj_deeds::Four;
use mj_tiles::{Counts, FACES, KINDS};

// How often each kind stands among the tiles that a seat sees, where so many tiles of each kind were brought in, four at most, and
// the seats hold so many of each face: those that were brought in, less what the others hold.
pub(crate) fn kinds_seen(brought: &[u8; KINDS], held: &Four<[u8; FACES]>, seat: u8) -> Counts
    requires { (kind : ℕ) → kind < 34 → slice_index brought.now kind ≤ 4 }
    ensures size { length result ≡ 34 }
    ensures numbers { (kind : ℕ) → slice_index result kind ≡ seen_of brought.now held.now seat kind }
{
    let mut numbers = *brought;
    hide(&mut numbers, &held.first, seat == 0);
    hide(&mut numbers, &held.second, seat == 1);
    hide(&mut numbers, &held.third, seat == 2);
    hide(&mut numbers, &held.fourth, seat == 3);
    Counts::from_numbers(numbers)
}

// Takes away the tiles of a seat, of which there are so many of each face, unless they are the own ones: of each kind those of its
// plain face, and the red fives, which are the last three faces, of their kinds.
fn hide(numbers: &mut [u8; KINDS], held: &[u8; FACES], own: bool)
    ensures { (kind : ℕ) → slice_index numbers.new kind
        ≡ slice_index numbers.old kind - hidden held.now own kind }
{
    if own {
        return;
    }
    for kind in 0..KINDS {
        numbers[kind] = numbers[kind].saturating_sub(held[kind]);
    }
    take_off(numbers, 4, held[34]);
    take_off(numbers, 13, held[35]);
    take_off(numbers, 22, held[36]);
}

// Takes so many tiles of a kind away.
#[tactic(auto, using(crate::proofs::Sights::one_off))]
fn take_off(numbers: &mut [u8; KINDS], kind: usize, count: u8)
    requires { kind < 34 }
    ensures { (other : ℕ) → slice_index numbers.new other
        ≡ slice_index numbers.old other - (if kind == other then count else 0) }
{
    numbers[kind] = numbers[kind].saturating_sub(count);
}
