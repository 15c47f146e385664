//! Payments of riichi mahjong: the base points of a hand, and the change of each seat's points by a win,
//! an exhaustive draw and a riichi deposit.
//!
//! Points are whole points, not hundreds. Seats are 0 to 3, and an array has one item for each seat, in turn order.
//! A game has at most 200 honba and 800 deposits at a time, which is what the payments ask of their callers.
#![tactic(auto)]

ghost use Rattle.std.specs.Prelude.{◌≡◌, ◌≢◌, ◌+◌, ◌*◌, ◌<◌, ◌≤◌, ◌==◌, if◌then◌else◌, count_by, pos, neg_ℤ, unsigned_abs, All};
ghost use Rattle.mj_pay.specs.Payments.{
  base_of,
  rounded_up,
  ron_payment,
  ron_change,
  ron_changes,
  drawn_payment,
  drawn_gain,
  drawn_change,
  drawn_changes,
  draw_change,
  draw_changes,
  deposit_changes,
  total_change,
};

/// The base points of a hand of `han` han and `fu` fu, from which all payments are made.
///
/// Fu count only below 5 han, where the base is at most 2,000. A yakuman has 13 han or more, and 8,000.
#[tactic(auto, unfolding(crate::specs::Payments::base_of))]
pub fn base(han: u8, fu: u8) -> u32
    requires some_han { 1 ≤ han }
    requires least_fu { han < 5 → 20 ≤ fu }
    requires most_fu { han < 5 → fu ≤ 170 }
    ensures value { result ≡ base_of han fu }
    ensures limit { result ≤ 8000 }
{
    match han {
        0..=4 => (u32::from(fu) << (2 + u32::from(han))).min(2000),
        5 => 2000,
        6..=7 => 3000,
        8..=10 => 4000,
        11..=12 => 6000,
        _ => 8000,
    }
}

/// The changes of the points by a ron of `winner` on a tile of `target`, with `base` base points, at most 8,000.
///
/// The target pays 4 times the base, or 6 times to the dealer, rounded up to hundreds, and 300 for each honba; the winner
/// also takes 1,000 for each deposit. Where several seats win on one tile, honba and deposits are 0 for all but the first.
pub fn ron_deltas(
    winner: u8,
    target: u8,
    dealer: u8,
    base: u32,
    honba: u32,
    deposits: u32,
) -> [i32; 4]
    requires two_seats { winner ≢ target }
    requires winner_seat { winner ≤ 3 }
    requires target_seat { target ≤ 3 }
    requires dealer_seat { dealer ≤ 3 }
    requires base_limit { base ≤ 8000 }
    requires honba_limit { honba ≤ 200 }
    requires deposits_limit { deposits ≤ 800 }
    ensures value { result ≡ ron_changes winner target dealer base honba deposits }
    ensures total { total_change result ≡ pos (1000 * deposits) }
    ensures within { All (λ change. unsigned_abs change < 1000000) result }
{
    [
        ron_delta(winner, target, dealer, base, honba, deposits, 0),
        ron_delta(winner, target, dealer, base, honba, deposits, 1),
        ron_delta(winner, target, dealer, base, honba, deposits, 2),
        ron_delta(winner, target, dealer, base, honba, deposits, 3),
    ]
}

/// The changes of the points by a self-drawn win of `winner`, with `base` base points, at most 8,000.
///
/// To the dealer each other seat pays 2 times the base; to another seat the dealer pays 2 times and the others 1 time. Each
/// payment is rounded up to hundreds, and 100 are added for each honba; the winner also takes 1,000 for each deposit.
pub fn tsumo_deltas(winner: u8, dealer: u8, base: u32, honba: u32, deposits: u32) -> [i32; 4]
    requires winner_seat { winner ≤ 3 }
    requires dealer_seat { dealer ≤ 3 }
    requires base_limit { base ≤ 8000 }
    requires honba_limit { honba ≤ 200 }
    requires deposits_limit { deposits ≤ 800 }
    ensures value { result ≡ drawn_changes winner dealer base honba deposits }
    ensures total { total_change result ≡ pos (1000 * deposits) }
    ensures within { All (λ change. unsigned_abs change < 1000000) result }
{
    [
        drawn_delta(winner, dealer, base, honba, deposits, 0),
        drawn_delta(winner, dealer, base, honba, deposits, 1),
        drawn_delta(winner, dealer, base, honba, deposits, 2),
        drawn_delta(winner, dealer, base, honba, deposits, 3),
    ]
}

/// The changes of the points at an exhaustive draw, where `ready` says which seats have a ready hand.
///
/// 3,000 points pass from the unready seats to the ready ones in equal shares, and none where no seat or every seat is ready.
pub fn draw_deltas(ready: [bool; 4]) -> [i32; 4]
    ensures value { result ≡ draw_changes ready }
    ensures total { total_change result ≡ pos 0 }
    ensures within { All (λ change. unsigned_abs change ≤ 3000) result }
{
    let ready_seats = count_ready(&ready);
    [
        draw_delta(ready_seats, ready[0]),
        draw_delta(ready_seats, ready[1]),
        draw_delta(ready_seats, ready[2]),
        draw_delta(ready_seats, ready[3]),
    ]
}

/// The changes of the points where `seat` declares riichi: it puts 1,000 points on the table.
///
/// For a number above 3, which is no seat, nothing changes.
#[tactic(auto, unfolding(crate::specs::Payments::deposit_changes))]
pub fn deposit(seat: u8) -> [i32; 4]
    ensures value { result ≡ deposit_changes seat }
    ensures total { seat ≤ 3 → total_change result ≡ neg_ℤ (pos 1000) }
    ensures within { All (λ change. unsigned_abs change ≤ 1000) result }
{
    [
        if seat == 0 { -1000 } else { 0 },
        if seat == 1 { -1000 } else { 0 },
        if seat == 2 { -1000 } else { 0 },
        if seat == 3 { -1000 } else { 0 },
    ]
}

// What the target of a ron pays.
#[tactic(auto, unfolding(crate::specs::Payments::ron_payment))]
fn ron_share(winner: u8, dealer: u8, base: u32, honba: u32) -> u32
    requires base_limit { base ≤ 8000 }
    requires honba_limit { honba ≤ 200 }
    ensures value { result ≡ ron_payment winner dealer base honba }
    ensures limit { result < 110000 }
{
    if winner == dealer {
        return to_hundreds(6 * base) + 300 * honba;
    }
    to_hundreds(4 * base) + 300 * honba
}

// The change of one seat by a ron.
#[tactic(auto, unfolding(crate::specs::Payments::ron_change))]
fn ron_delta(
    winner: u8,
    target: u8,
    dealer: u8,
    base: u32,
    honba: u32,
    deposits: u32,
    seat: u8,
) -> i32
    requires base_limit { base ≤ 8000 }
    requires honba_limit { honba ≤ 200 }
    requires deposits_limit { deposits ≤ 800 }
    ensures value { result ≡ ron_change winner target dealer base honba deposits seat }
    ensures within { unsigned_abs result < 1000000 }
{
    let paid = ron_share(winner, dealer, base, honba);
    if seat == winner {
        return (paid + 1000 * deposits) as i32;
    }
    if seat == target {
        return -(paid as i32);
    }
    0
}

// What one seat pays for a self-drawn win.
#[tactic(auto, unfolding(crate::specs::Payments::drawn_payment))]
fn drawn_share(winner: u8, payer: u8, dealer: u8, base: u32, honba: u32) -> u32
    requires base_limit { base ≤ 8000 }
    requires honba_limit { honba ≤ 200 }
    ensures value { result ≡ drawn_payment winner payer dealer base honba }
    ensures limit { result < 37000 }
{
    if winner == dealer || payer == dealer {
        return to_hundreds(2 * base) + 100 * honba;
    }
    to_hundreds(base) + 100 * honba
}

// The change of one seat by a self-drawn win.
#[tactic(auto, unfolding(crate::specs::Payments::drawn_gain, crate::specs::Payments::drawn_change))]
fn drawn_delta(winner: u8, dealer: u8, base: u32, honba: u32, deposits: u32, seat: u8) -> i32
    requires base_limit { base ≤ 8000 }
    requires honba_limit { honba ≤ 200 }
    requires deposits_limit { deposits ≤ 800 }
    ensures value { result ≡ drawn_change winner dealer base honba deposits seat }
    ensures within { unsigned_abs result < 1000000 }
{
    if seat != winner {
        return -(drawn_share(winner, seat, dealer, base, honba) as i32);
    }
    let gain = drawn_income(winner, dealer, base, honba);
    (gain + 1000 * deposits) as i32
}

// What a self-drawn win brings in: the payments of all seats but the winner.
#[tactic(auto, unfolding(crate::specs::Payments::drawn_gain))]
fn drawn_income(winner: u8, dealer: u8, base: u32, honba: u32) -> u32
    requires base_limit { base ≤ 8000 }
    requires honba_limit { honba ≤ 200 }
    ensures value { result ≡ drawn_gain winner dealer base honba }
    ensures limit { result < 148000 }
{
    let first = income_from(0, winner, dealer, base, honba);
    let second = income_from(1, winner, dealer, base, honba);
    let third = income_from(2, winner, dealer, base, honba);
    let fourth = income_from(3, winner, dealer, base, honba);
    first + second + third + fourth
}

// What a self-drawn win brings in from one seat: nothing from the winner.
fn income_from(payer: u8, winner: u8, dealer: u8, base: u32, honba: u32) -> u32
    requires base_limit { base ≤ 8000 }
    requires honba_limit { honba ≤ 200 }
    ensures value { result ≡ (if payer
        == winner then 0 else drawn_payment winner payer dealer base honba) }
    ensures limit { result < 37000 }
{
    if payer == winner {
        0
    } else {
        drawn_share(winner, payer, dealer, base, honba)
    }
}

// How many seats are ready.
fn count_ready(ready: &[bool]) -> usize
    ensures { result ≡ count_by (λ is_ready. is_ready) ready.now }
{
    ready.iter().filter(|is_ready| **is_ready).count()
}

// The change of one seat at an exhaustive draw with `ready_seats` ready seats.
#[tactic(auto, unfolding(crate::specs::Payments::draw_change))]
fn draw_delta(ready_seats: usize, is_ready: bool) -> i32
    requires { ready_seats ≤ 4 }
    ensures value { result ≡ draw_change ready_seats is_ready }
    ensures within { unsigned_abs result ≤ 3000 }
{
    match (ready_seats, is_ready) {
        (1, true) => 3000,
        (1, false) => -1000,
        (2, true) => 1500,
        (2, false) => -1500,
        (3, true) => 1000,
        (3, false) => -3000,
        _ => 0,
    }
}

// The least multiple of 100 that is no less than `points`.
#[tactic(auto, unfolding(crate::specs::Payments::rounded_up))]
fn to_hundreds(points: u32) -> u32
    requires { points ≤ 48000 }
    ensures value { result ≡ rounded_up points }
    ensures limit { result ≤ points + 99 }
{
    points.div_ceil(100) * 100
}
