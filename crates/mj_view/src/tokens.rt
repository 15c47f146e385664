ghost use Rattle.std.specs.Prelude.{◌≡◌, IfOk};
ghost use Rattle.mj_deeds.specs.Four.{at_seat};
ghost use Rattle.mj_deeds.specs.declared.token.Token.TheVariants as tokens;
ghost use Rattle.mj_view.specs.Tokens.{token};

use crate::seen::{own_tile, sees};
use mj_deeds::{Deed, Hands, Reason, ShownHands, Tiles, Token, Viewer};
use mj_tiles::Tile;
use std::alloc::{AllocError, Global};

/// What a seat learns of a deed: of a start of a hand the indicator and its own tiles, of another's draw no tile, and of
/// every deed no number that follows from the deeds before it. A seat above 3 is told as seat 3 the hand it is dealt.
pub fn token(alloc: Global, seat: u8, deed: &Deed) -> Result<Token, AllocError>
    ensures { IfOk result (λ t. t ≡ token seat deed.now) }
{
    match deed {
        Deed::StartGame { names } => Ok(Token::StartGame {
            names: *names.four(),
        }),
        Deed::StartHand {
            indicator,
            hands,
            ..
        } => start_hand(alloc, *indicator, hand_of(hands, seat)),
        Deed::Draw {
            seat: who,
            tile,
            ..
        } => Ok(Token::Draw {
            seat: *who,
            tile: own_tile(sees(Viewer::Seat(seat), *who), *tile),
        }),
        Deed::Discard {
            seat: who,
            tile,
            drawn,
        } => Ok(Token::Discard {
            seat: *who,
            tile: *tile,
            drawn: *drawn,
        }),
        Deed::Chi {
            seat: who,
            target,
            tile,
            a,
            b,
        } => Ok(Token::Chi {
            seat: *who,
            target: *target,
            tile: *tile,
            a: *a,
            b: *b,
        }),
        Deed::Pon {
            seat: who,
            target,
            tile,
            a,
            b,
        } => Ok(Token::Pon {
            seat: *who,
            target: *target,
            tile: *tile,
            a: *a,
            b: *b,
        }),
        Deed::OpenKan {
            seat: who,
            target,
            tile,
            a,
            b,
            c,
        } => Ok(Token::OpenKan {
            seat: *who,
            target: *target,
            tile: *tile,
            a: *a,
            b: *b,
            c: *c,
        }),
        Deed::ClosedKan {
            seat: who,
            a,
            b,
            c,
            d,
        } => Ok(Token::ClosedKan {
            seat: *who,
            a: *a,
            b: *b,
            c: *c,
            d: *d,
        }),
        Deed::AddedKan {
            seat: who,
            tile,
            a,
            b,
            c,
        } => Ok(Token::AddedKan {
            seat: *who,
            tile: *tile,
            a: *a,
            b: *b,
            c: *c,
        }),
        Deed::Dora { tile } => Ok(Token::Dora { tile: *tile }),
        Deed::Reach { seat: who } => Ok(Token::Reach { seat: *who }),
        Deed::ReachAccepted { seat: who, .. } => Ok(Token::ReachAccepted { seat: *who }),
        Deed::Win {
            seat: who,
            target,
            tile,
            unders,
            hand,
            ..
        } => win(*who, *target, *tile, unders, hand),
        Deed::DrawnHand { reason, hands, .. } => drawn_hand(*reason, hands),
        Deed::EndHand => Ok(Token::EndHand),
        Deed::EndGame { .. } => Ok(Token::EndGame),
    }
}

// The hand that a seat is dealt.
fn hand_of(hands: &Hands, seat: u8) -> &[Tile]
    ensures { result.now ≡ at_seat hands.now seat }
{
    match seat {
        0 => hands.at(0),
        1 => hands.at(1),
        2 => hands.at(2),
        _ => hands.at(3),
    }
}

fn start_hand(alloc: Global, indicator: Tile, hand: &[Tile]) -> Result<Token, AllocError>
    ensures { IfOk result (λ t. t ≡ tokens.StartHand indicator hand.now) }
{
    Ok(Token::StartHand {
        indicator,
        hand: Tiles::of(alloc, hand)?,
    })
}

fn win(seat: u8, target: u8, tile: Tile, unders: &Tiles, hand: &Tiles) -> Result<Token, AllocError>
    ensures { IfOk result (λ t. t ≡ tokens.Win seat target tile unders.now hand.now) }
{
    Ok(Token::Win {
        seat,
        target,
        tile,
        unders: unders.copy()?,
        hand: hand.copy()?,
    })
}

fn drawn_hand(reason: Reason, hands: &ShownHands) -> Result<Token, AllocError>
    ensures { IfOk result (λ t. t ≡ tokens.DrawnHand reason hands.now) }
{
    Ok(Token::DrawnHand {
        reason,
        hands: hands.copy()?,
    })
}
