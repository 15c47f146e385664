ghost use Rattle.std.specs.Prelude.{◌≡◌, ◌≤◌, ◌<◌, IfSome};
ghost use Rattle.mj_rounds.specs.Rounds.{MayStand, Follows, first_standing, stays, honba_after, is_last, next_standing};

use mj_tiles::{EAST, Kind, SOUTH};

/// How a game stands in one of its hands: the wind of the round, east or south, the dealer's seat, 0 to 3, the honba on
/// the table, and the number of the hand, counted from 0 over the game.
#[derive(Clone, Copy, Debug, PartialEq, Eq)]
pub struct Standing {
    pub round: Kind,
    pub dealer: u8,
    pub honba: u32,
    pub hand: u32,
}

/// How a hand ended, as far as the next one depends on it: a win, with the dealer among the winners or not; an
/// exhaustive draw, with the dealer ready or not; or an abortive draw.
#[derive(Clone, Copy, Debug, PartialEq, Eq)]
pub enum HandEnd {
    Won { dealer_among: bool },
    Drawn { dealer_ready: bool },
    Aborted,
}

/// The number of the last hand that a game may have, counted from 0.
pub const LAST_HAND: u32 = 199;

/// The standing of the first hand: round east, dealer 0, no honba.
pub fn first() -> Standing
    ensures { result ≡ first_standing }
{
    Standing {
        round: wind(EAST),
        dealer: 0,
        honba: 0,
        hand: 0,
    }
}

/// The standing of the hand that follows one that ended so; none exactly where the game ends with it.
///
/// The dealer stays where among the winners, where ready at an exhaustive draw, and after an abortive draw. Honba
/// rises by one where the dealer wins and after any draw, and else returns to 0. When dealer 3 passes, round east becomes
/// round south, and round south ends the game; the two hundredth hand ends it too.
#[tactic(auto, unfolding(crate::specs::Rounds::next_standing))]
pub fn next_hand(now: &Standing, end: HandEnd) -> Option<Standing>
    requires { MayStand now.now }
    ensures value { result ≡ next_standing now.now end }
    ensures goes_on { IfSome result (λ next. Follows now.now next) }
{
    if is_last(now, end) {
        return None;
    }
    let honba = honba_after(now.honba, end);
    let hand = now.hand + 1;
    if stays(end) {
        return Some(Standing {
            round: now.round,
            dealer: now.dealer,
            honba,
            hand,
        });
    }
    if now.dealer < 3 {
        return Some(Standing {
            round: now.round,
            dealer: now.dealer + 1,
            honba,
            hand,
        });
    }
    Some(Standing {
        round: wind(SOUTH),
        dealer: 0,
        honba,
        hand,
    })
}

// Whether the dealer stays.
fn stays(end: HandEnd) -> bool
    ensures { result ≡ stays end }
{
    match end {
        HandEnd::Won { dealer_among } => dealer_among,
        HandEnd::Drawn { dealer_ready } => dealer_ready,
        HandEnd::Aborted => true,
    }
}

// The honba of the next hand.
fn honba_after(honba: u32, end: HandEnd) -> u32
    requires { honba ≤ 199 }
    ensures { result ≡ honba_after honba end }
{
    match end {
        HandEnd::Won {
            dealer_among: false,
        } => 0,
        _ => honba + 1,
    }
}

// Whether the game ends with this hand.
fn is_last(now: &Standing, end: HandEnd) -> bool
    ensures { result ≡ is_last now.now end }
{
    now.hand == LAST_HAND || (!stays(end) && now.dealer == 3 && now.round.number() == SOUTH)
}

// The kind of that number.
fn wind(number: u8) -> Kind
    requires { number < 34 }
    ensures { result ≡ number }
{
    match Kind::of(number) {
        Some(kind) => kind,
        None => unreachable!(),
    }
}
