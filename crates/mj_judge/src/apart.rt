//! Discards that are of no use to a seat.

ghost use Rattle.std.specs.Prelude.{◌≡◌, ◌≤◌, ◌<◌, ◌∷◌, [], ℕ, None, false, true, length, slice_index};
ghost use Rattle.mj_deeds.specs.declared.answer.Answer.TheVariants as answers;
ghost use Rattle.mj_readings.specs.Tests.{complete, one_more};
ghost use Rattle.mj_readings.specs.Inner.OneMore.{has_company};
ghost use Rattle.mj_rules.specs.Possible.{possible};
ghost use Rattle.mj_judge.specs.Inner.Alone.{LacksOrphan};

use mj_deeds::Deed;
use mj_table::Table;
use mj_tiles::{Counts, EAST, Kind};

// The newest deed is a discard that the seat can neither call nor win on, since its tile makes nothing with those held.
pub(crate) fn is_of_no_use(table: &Table, seat: u8) -> bool
    requires { seat ≤ 3 }
    ensures { result ≡ true → answers.Pass None ∷ [] ≡ possible table.now.rules table.now.deeds seat }
{
    match table.newest() {
        Some(Deed::Discard { tile, .. }) => is_apart(&table.holds(seat), tile.kind()),
        _ => false,
    }
}

// One tile more of the kind is in no set and no pair of the hand, and another orphan is not held: so it completes nothing.
fn is_apart(counts: &Counts, kind: Kind) -> bool
    ensures alone { result ≡ true → has_company counts.now kind ≡ false }
    ensures apart { result ≡ true → (melds : ℕ) → complete (one_more counts.now kind) melds ≡ false }
{
    let numbers = counts.numbers();
    if has_company(numbers, kind) {
        return false;
    }
    lacks_orphan(numbers, kind)
}

// The kind is held, or two kinds are that make a run with it.
#[tactic(auto, unfolding(mj_readings::specs::Inner::OneMore::has_company))]
fn has_company(numbers: &[u8], kind: Kind) -> bool
    requires { length numbers.now ≡ 34 }
    ensures { result ≡ has_company numbers.now kind }
{
    let place = usize::from(kind.number());
    if numbers[place] > 0 {
        return true;
    }
    if place >= usize::from(EAST) {
        return false;
    }
    let above = numbers[place + 1] > 0;
    let below = place > 0 && numbers[place - 1] > 0;
    above && below
        || above && numbers[place + 2] > 0
        || below && place > 1 && numbers[place - 2] > 0
}

// East or south is not held, whichever isn't the kind.
fn lacks_orphan(numbers: &[u8], kind: Kind) -> bool
    requires { length numbers.now ≡ 34 }
    ensures { result ≡ true → LacksOrphan numbers.now kind }
{
    if lacks(numbers, kind, EAST) {
        return true;
    }
    lacks(numbers, kind, EAST + 1)
}

// This kind is another one, and is not held.
fn lacks(numbers: &[u8], kind: Kind, other: u8) -> bool
    requires size { length numbers.now ≡ 34 }
    requires inside { other < 34 }
    ensures differs { result ≡ true → kind ≡ other → ⊥ }
    ensures none { result ≡ true → slice_index numbers.now other ≡ 0 }
{
    if kind.number() == other {
        return false;
    }
    numbers[usize::from(other)] == 0
}
