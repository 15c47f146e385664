//! What two rows leave together, each of one suit or of several.

ghost use Rattle.std.specs.Prelude.{◌≡◌, ◌-◌, ◌<◌, ℕ};
ghost use Rattle.mj_suits.specs.Rows.{Holds, lane};
ghost use Rattle.mj_memory.specs.Joined.{joined, beside_moved};

use mj_suits::Row;

/// What is left with the tiles of both, where the first makes at most four sets.
#[inline(always)]
pub(crate) fn joined(row: Row, other: Row) -> Row
    ensures { Holds result.lanes (joined (lane row.lanes) (lane other.lanes)) }
{
    let one = other.more_set();
    let two = one.more_set();
    let three = two.more_set();
    let four = three.more_set();
    let first = beside(row, other, 0);
    let second = beside(row, one, 1);
    let third = beside(row, two, 2);
    let fourth = beside(row, three, 3);
    let fifth = beside(row, four, 4);
    let few = first.greater(second);
    let many = third.greater(fourth);
    let most = few.greater(many);
    most.greater(fifth)
}

// What is left beside so many sets of the first, with no pair of it and with one, where the other is moved by those sets.
#[inline(always)]
fn beside(first: Row, moved: Row, sets: u8) -> Row
    requires { sets < 8 }
    ensures { Holds result.lanes (beside_moved (lane first.lanes) (lane moved.lanes) sets) }
{
    let alone = less_by(moved, 15u8.saturating_sub(first.at(sets, 0)));
    let paired = less_by(moved.more_pair(), 15u8.saturating_sub(first.at(sets, 1)));
    alone.greater(paired)
}

// Each lane less a number, and 0 where that is more.
#[inline(always)]
fn less_by(row: Row, number: u8) -> Row
    ensures { Holds result.lanes (λ s p. lane row.lanes s p - number) }
{
    row.less(Row::all(number))
}
