ghost use Rattle.std.specs.Prelude.{ℕ, ◌≡◌, ◌≤◌, ◌+◌, ◌&&◌, ◌+ℤ◌, pos, true, if◌then◌else◌};
ghost use Rattle.std.specs.List.{slice_index_or};
ghost use Rattle.mj_deeds.specs.Points.{change_by, changed, is_deposit, is_win};
ghost use Rattle.mj_deeds.specs.Fits.{is_same, is_small, are_points, are_points_of, has_points};

use crate::deed::Deed;

// The greatest number of points that a deed can say, above zero and below.
const MOST: i64 = 100_000_000;

/// Whether a deed says the points that stand after it, of those before it, and none greater than a game can have.
pub fn has_points(before: [i32; 4], deed: &Deed) -> bool
    ensures { result ≡ has_points before deed.now }
{
    match deed {
        Deed::ReachAccepted { points, .. } => are_points(before, deed, *points),
        Deed::Win { points, .. } => are_points(before, deed, *points),
        Deed::DrawnHand { points, .. } => are_points(before, deed, *points),
        Deed::EndGame { points, .. } => are_points(before, deed, *points),
        _ => true,
    }
}

fn are_points(before: [i32; 4], deed: &Deed, said: [i32; 4]) -> bool
    ensures { result ≡ are_points before deed.now said }
{
    are_points_of(before, deed, said, 0)
        && are_points_of(before, deed, said, 1)
        && are_points_of(before, deed, said, 2)
        && are_points_of(before, deed, said, 3)
}

fn are_points_of(before: [i32; 4], deed: &Deed, said: [i32; 4], seat: u8) -> bool
    requires { seat ≤ 3 }
    ensures { result ≡ are_points_of before deed.now said seat }
{
    is_due(
        i64::from(at(said, seat)),
        due(at(before, seat), change_by(deed, seat)),
    )
}

// Whether points are those that are due, and no greater than a game can have.
fn is_due(points: i64, due: i64) -> bool
    ensures { result ≡ (is_same points due && is_small points) }
{
    is_same(points, due) && is_small(points)
}

// The points that are due after a change.
fn due(before: i32, change: i32) -> i64
    ensures { result ≡ before +ℤ change }
{
    i64::from(before) + i64::from(change)
}

fn is_same(x: i64, y: i64) -> bool
    ensures { result ≡ is_same x y }
{
    x <= y && y <= x
}

fn is_small(x: i64) -> bool
    ensures { result ≡ is_small x }
{
    -MOST <= x && x <= MOST
}

/// The points of the four seats after a deed, of those before it: the deed says them, where it changes any. Condition: it
/// says the right ones, as each deed does that fits.
pub fn points_after(before: [i32; 4], deed: &Deed) -> [i32; 4]
    requires { has_points before deed.now ≡ true }
    ensures { result ≡ changed before deed.now }
{
    [
        points_of_seat(before, deed, 0),
        points_of_seat(before, deed, 1),
        points_of_seat(before, deed, 2),
        points_of_seat(before, deed, 3),
    ]
}

fn points_of_seat(before: [i32; 4], deed: &Deed, seat: u8) -> i32
    requires seat { seat ≤ 3 }
    requires said { has_points before deed.now ≡ true }
    ensures { result ≡ slice_index_or before seat (pos 0) +ℤ change_by seat deed.now }
{
    at(points_said(before, deed), seat)
}

// The points that a deed says, or those before it where it says none.
fn points_said(before: [i32; 4], deed: &Deed) -> [i32; 4]
    requires { has_points before deed.now ≡ true }
    ensures { (seat : ℕ) → seat ≤ 3 → slice_index_or result seat (pos 0)
        ≡ slice_index_or before seat (pos 0) +ℤ change_by seat deed.now }
{
    match deed {
        Deed::ReachAccepted { points, .. } => *points,
        Deed::Win { points, .. } => *points,
        Deed::DrawnHand { points, .. } => *points,
        _ => before,
    }
}

/// How many deposits lie on the table after a deed, of those before it: a win takes all, and an accepted reach lays one
/// down. Condition: there are at most 800, the most that a game can have.
pub fn deposits_after(before: u32, deed: &Deed) -> u32
    requires { before ≤ 800 }
    ensures { result ≡ if is_win deed.now then 0 else before +
        (if is_deposit deed.now then 1 else 0) }
{
    match deed {
        Deed::Win { .. } => 0,
        Deed::ReachAccepted { .. } => before + 1,
        _ => before,
    }
}

// What a seat, 0 to 3, gains by a deed in points, or pays where it is negative: 1,000 points are laid down where a reach
// is accepted, and a win and a hand that is drawn say what each seat gains.
fn change_by(deed: &Deed, seat: u8) -> i32
    requires { seat ≤ 3 }
    ensures { result ≡ change_by seat deed.now }
{
    match deed {
        Deed::ReachAccepted { seat: who, .. } if *who == seat => -1000,
        Deed::Win { deltas, .. } => at(*deltas, seat),
        Deed::DrawnHand { deltas, .. } => at(*deltas, seat),
        _ => 0,
    }
}

// The one of a seat.
fn at(numbers: [i32; 4], seat: u8) -> i32
    requires { seat ≤ 3 }
    ensures { result ≡ slice_index_or numbers seat (pos 0) }
{
    numbers[usize::from(seat)]
}
