//! Standings, and how hands end, as texts.

ghost use Rattle.std.specs.Prelude.{IfSome};
ghost use Rattle.mj_rounds.specs.Rounds.{MayStand};

use crate::words::{kind, number, word};
use mj_rounds::HandEnd::{Aborted, Drawn, Won};
use mj_rounds::{HandEnd, Standing};

/// A standing, as `E 3 2 9`.
pub fn standing(text: &str) -> Option<Standing>
    ensures { IfSome result (λ now. MayStand now) }
{
    let (round, dealer) = (kind(word(text, 0)), number(word(text, 1)));
    let (honba, hand) = (number(word(text, 2)), number(word(text, 3)));
    if round.number() != 27 && round.number() != 28 || dealer > 3 || honba > 199 || hand > 199 {
        return None;
    }
    Some(Standing {
        round,
        dealer,
        honba: u32::from(honba),
        hand: u32::from(hand),
    })
}

/// How a hand ended; abortively where no other word stands.
pub fn end(text: &str) -> HandEnd {
    match text {
        "dealer won" => Won { dealer_among: true },
        "another won" => Won {
            dealer_among: false,
        },
        "ready" => Drawn { dealer_ready: true },
        "not ready" => Drawn {
            dealer_ready: false,
        },
        _ => Aborted,
    }
}
