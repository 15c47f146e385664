ghost use Rattle.std.specs.Prelude.{◌≡◌, ◌≢◌, ◌≤◌, ◌<◌, ◌+ℤ◌, All, false, pos, unsigned_abs};
ghost use Rattle.std.specs.List.{slice_index_or};
ghost use Rattle.mj_rules.specs.Wins.{win_changes, value_of_win, points_with};

use mj_pay::{ron_deltas, tsumo_deltas};

// What each seat gains by a win of a seat on a tile of another, or on its own draw.
#[tactic(auto, unfolding(mj_rules::specs::Wins::win_changes))]
pub(crate) fn changes(
    by_draw: bool,
    seat: u8,
    target: u8,
    dealer: u8,
    base: u32,
    honba: u32,
    deposits: u32,
) -> [i32; 4]
    requires seat { seat ≤ 3 }
    requires target { target ≤ 3 }
    requires others { by_draw ≡ false → seat ≢ target }
    requires dealer { dealer ≤ 3 }
    requires base { base ≤ 8000 }
    requires honba { honba ≤ 200 }
    requires deposits { deposits ≤ 800 }
    ensures value { result ≡ win_changes by_draw seat target dealer base honba deposits }
    ensures within { All (λ change. unsigned_abs change < 1000000) result }
{
    if by_draw {
        return tsumo_deltas(seat, dealer, base, honba, deposits);
    }
    ron_deltas(seat, target, dealer, base, honba, deposits)
}

// The value of a win: what its payments bring the winner, without honba and deposits.
pub(crate) fn value(by_draw: bool, seat: u8, target: u8, dealer: u8, base: u32) -> u32
    requires seat { seat ≤ 3 }
    requires target { target ≤ 3 }
    requires others { by_draw ≡ false → seat ≢ target }
    requires dealer { dealer ≤ 3 }
    requires base { base ≤ 8000 }
    ensures { result ≡ value_of_win by_draw seat target dealer base }
{
    changes(by_draw, seat, target, dealer, base, 0, 0)[usize::from(seat)].unsigned_abs()
}

// Points with changes, seat by seat.
pub(crate) fn points_with(points: [i32; 4], changes: [i32; 4]) -> [i32; 4]
    requires points { All (λ held. unsigned_abs held ≤ 100000000) points }
    requires changes { All (λ change. unsigned_abs change < 1000000) changes }
    ensures { result ≡ points_with points changes }
{
    [
        points_of(points, changes, 0),
        points_of(points, changes, 1),
        points_of(points, changes, 2),
        points_of(points, changes, 3),
    ]
}

// The points of a seat, 0 to 3, with its change.
fn points_of(points: [i32; 4], changes: [i32; 4], seat: u8) -> i32
    requires points { All (λ held. unsigned_abs held ≤ 100000000) points }
    requires changes { All (λ change. unsigned_abs change < 1000000) changes }
    requires seat { seat ≤ 3 }
    ensures { result ≡ slice_index_or points seat (pos 0) +ℤ slice_index_or changes seat (pos 0) }
{
    at(points, seat) + at(changes, seat)
}

// The one of a seat, 0 to 3.
fn at(items: [i32; 4], seat: u8) -> i32
    requires { seat ≤ 3 }
    ensures { result ≡ slice_index_or items seat (pos 0) }
{
    match seat {
        0 => items[0],
        1 => items[1],
        2 => items[2],
        _ => items[3],
    }
}
