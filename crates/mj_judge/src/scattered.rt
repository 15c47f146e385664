//! Hands that no exchange of one tile completes, since too many of their kinds stand alone.

ghost use Rattle.std.specs.Prelude.{◌≡◌, ◌≤◌, ◌<◌, ◌+◌, ◌-◌, ℕ, List, IfSome, false, true, length, slice_index};
ghost use Rattle.mj_tiles.specs.Terminals.{is_terminal_or_honour};
ghost use Rattle.mj_readings.specs.Tests.{complete, one_more};
ghost use Rattle.mj_judge.specs.Inner.Alone.{IsAlone, IsInner, AreThree, AreTwo};

use mj_tiles::{Counts, EAST, KINDS, Kind};

// Three kinds of a hand stand alone, and two kinds from two to eight are held: then no exchange of one tile completes it.
pub(crate) fn is_scattered(counts: &Counts) -> bool
    ensures { result ≡ true → (given : List ℕ) (kind : ℕ) → kind < 34
        → counts.now ≡ one_more given kind → (other : ℕ) → other < 34 → (melds : ℕ)
        → complete (one_more given other) melds ≡ false }
{
    let numbers = counts.numbers();
    are_three_alone(numbers) && are_two_inner(numbers)
}

// Three kinds stand alone.
fn are_three_alone(numbers: &[u8]) -> bool
    requires { length numbers.now ≡ 34 }
    ensures { result ≡ true → AreThree numbers.now }
{
    let Some(first) = alone_from(numbers, 0) else {
        return false;
    };
    let Some(second) = alone_from(numbers, first + 1) else {
        return false;
    };
    alone_from(numbers, second + 1).is_some()
}

// The first kind from this one on that stands alone.
fn alone_from(numbers: &[u8], from: usize) -> Option<usize>
    requires { length numbers.now ≡ 34 }
    ensures later { IfSome result (λ place. from ≤ place) }
    ensures alone { IfSome result (λ place. IsAlone numbers.now place) }
{
    for place in from..KINDS {
        if is_alone(numbers, place) {
            return Some(place);
        }
    }
    None
}

// The kind stands once, and no tile does within two of it, where it is no honour.
fn is_alone(numbers: &[u8], place: usize) -> bool
    requires size { length numbers.now ≡ 34 }
    requires inside { place < 34 }
    ensures { result ≡ true → IsAlone numbers.now place }
{
    if numbers[place] != 1 {
        return false;
    }
    place >= usize::from(EAST) || has_no_neighbour(numbers, place)
}

// No tile stands within two of a kind that is no honour.
fn has_no_neighbour(numbers: &[u8], place: usize) -> bool
    requires size { length numbers.now ≡ 34 }
    requires inside { place < 27 }
    ensures next { result ≡ true → slice_index numbers.now (place + 1) ≡ 0 }
    ensures after_next { result ≡ true → slice_index numbers.now (place + 2) ≡ 0 }
    ensures before { result ≡ true → 0 < place → slice_index numbers.now (place - 1) ≡ 0 }
    ensures two_before { result ≡ true → 1 < place → slice_index numbers.now (place - 2) ≡ 0 }
{
    if numbers[place + 1] > 0 || numbers[place + 2] > 0 {
        return false;
    }
    if place > 0 && numbers[place - 1] > 0 {
        return false;
    }
    place < 2 || numbers[place - 2] == 0
}

// Two kinds from two to eight are held.
fn are_two_inner(numbers: &[u8]) -> bool
    requires { length numbers.now ≡ 34 }
    ensures { result ≡ true → AreTwo numbers.now }
{
    let Some(first) = inner_from(numbers, 0) else {
        return false;
    };
    inner_from(numbers, first + 1).is_some()
}

// The first kind from two to eight, from this one on, that is held.
fn inner_from(numbers: &[u8], from: usize) -> Option<usize>
    requires { length numbers.now ≡ 34 }
    ensures later { IfSome result (λ place. from ≤ place) }
    ensures inner { IfSome result (λ place. IsInner numbers.now place) }
{
    for place in from..usize::from(EAST) {
        if numbers[place] > 0 && !is_outer(place) {
            return Some(place);
        }
    }
    None
}

// The kind is a terminal or an honour.
fn is_outer(place: usize) -> bool
    requires { place < 34 }
    ensures { result ≡ is_terminal_or_honour place }
{
    Kind::at(place as u8).is_terminal_or_honour()
}
