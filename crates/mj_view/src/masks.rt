ghost use Rattle.std.specs.Prelude.{◌≡◌, ◌≤◌, IfOk};
ghost use Rattle.mj_deeds.specs.Four.{at_seat};
ghost use Rattle.mj_deeds.specs.Shown.{tiles_shown, number_hidden};
ghost use Rattle.mj_view.specs.declared.masked.Masked.TheVariants as masks;
ghost use Rattle.mj_view.specs.Masks.{for_record, hand_seen, deal_seen, mask};
ghost use Rattle.mj_view.specs.Seen.{sees};

use crate::masked::Masked;
use crate::seen::{own_tile, sees};
use crate::seen_hands::SeenHands;
use mj_deeds::{Deed, Four, Hands, Reason, SeatList, ShownHands, Tiles, Viewer, YakuList};
use mj_tiles::{Kind, Tile};
use std::alloc::{AllocError, Global};

/// A deed as a viewer sees it: a seat sees neither the hands that others are dealt nor the tiles that they draw, nor the
/// call that is kept at an accepted reach, nor the seats that win next; the record sees all.
pub fn mask(alloc: Global, viewer: Viewer, deed: &Deed) -> Result<Masked, AllocError>
    ensures { IfOk result (λ m. m ≡ mask viewer deed.now) }
{
    match deed {
        Deed::StartGame { names } => Ok(Masked::StartGame {
            names: *names.four(),
        }),
        Deed::StartHand {
            round,
            number,
            honba,
            deposits,
            dealer,
            indicator,
            hands,
        } => Ok(start_hand(
            *round,
            *number,
            *honba,
            *deposits,
            *dealer,
            *indicator,
            deal_seen(alloc, viewer, hands)?,
        )),
        Deed::Draw {
            seat,
            tile,
            replacement,
        } => Ok(Masked::Draw {
            seat: *seat,
            tile: own_tile(sees(viewer, *seat), *tile),
            replacement: *replacement,
        }),
        Deed::Discard { seat, tile, drawn } => Ok(Masked::Discard {
            seat: *seat,
            tile: *tile,
            drawn: *drawn,
        }),
        Deed::Chi {
            seat,
            target,
            tile,
            a,
            b,
        } => Ok(Masked::Chi {
            seat: *seat,
            target: *target,
            tile: *tile,
            a: *a,
            b: *b,
        }),
        Deed::Pon {
            seat,
            target,
            tile,
            a,
            b,
        } => Ok(Masked::Pon {
            seat: *seat,
            target: *target,
            tile: *tile,
            a: *a,
            b: *b,
        }),
        Deed::OpenKan {
            seat,
            target,
            tile,
            a,
            b,
            c,
        } => Ok(Masked::OpenKan {
            seat: *seat,
            target: *target,
            tile: *tile,
            a: *a,
            b: *b,
            c: *c,
        }),
        Deed::ClosedKan { seat, a, b, c, d } => Ok(Masked::ClosedKan {
            seat: *seat,
            a: *a,
            b: *b,
            c: *c,
            d: *d,
        }),
        Deed::AddedKan {
            seat,
            tile,
            a,
            b,
            c,
        } => Ok(Masked::AddedKan {
            seat: *seat,
            tile: *tile,
            a: *a,
            b: *b,
            c: *c,
        }),
        Deed::Dora { tile } => Ok(Masked::Dora { tile: *tile }),
        Deed::Reach { seat } => Ok(Masked::Reach { seat: *seat }),
        Deed::ReachAccepted { seat, points, then } => Ok(Masked::ReachAccepted {
            seat: *seat,
            points: *points,
            then: for_record(viewer, *then),
        }),
        Deed::Win {
            seat,
            target,
            tile,
            unders,
            hand,
            yaku,
            fu,
            han,
            value,
            deltas,
            points,
            rest,
        } => win(
            *seat,
            *target,
            *tile,
            unders,
            hand,
            yaku,
            *fu,
            *han,
            *value,
            *deltas,
            *points,
            for_record(viewer, *rest),
        ),
        Deed::DrawnHand {
            reason,
            hands,
            ready,
            deltas,
            points,
        } => drawn_hand(*reason, hands, *ready, *deltas, *points),
        Deed::EndHand => Ok(Masked::EndHand),
        Deed::EndGame { points, deposits } => Ok(Masked::EndGame {
            points: *points,
            deposits: *deposits,
        }),
    }
}

// What the record alone is told.
fn for_record<T: Copy>(viewer: Viewer, fact: T) -> Option<T>
    ensures { result ≡ for_record viewer fact }
{
    match viewer {
        Viewer::Seat(_) => None,
        Viewer::Record => Some(fact),
    }
}

// The four dealt hands as a viewer sees them.
fn deal_seen(alloc: Global, viewer: Viewer, hands: &Hands) -> Result<SeenHands, AllocError>
    ensures { IfOk result (λ s. s ≡ deal_seen viewer hands.now) }
{
    let tiles = Hands::of(
        alloc,
        tiles_seen(viewer, hands, 0),
        tiles_seen(viewer, hands, 1),
        tiles_seen(viewer, hands, 2),
        tiles_seen(viewer, hands, 3),
    )?;
    let hidden = Four {
        first: number_hidden(viewer, hands, 0),
        second: number_hidden(viewer, hands, 1),
        third: number_hidden(viewer, hands, 2),
        fourth: number_hidden(viewer, hands, 3),
    };
    Ok(SeenHands::of(tiles, hidden))
}

// The tiles of a seat, 0 to 3, where the viewer sees them, and else none.
fn tiles_seen(viewer: Viewer, hands: &Hands, owner: u8) -> &[Tile]
    requires { owner ≤ 3 }
    ensures { result.now ≡ tiles_shown (hand_seen (sees viewer owner) (at_seat hands.now owner)) }
{
    if sees(viewer, owner) {
        hands.at(owner)
    } else {
        &[]
    }
}

// How many tiles of a seat, 0 to 3, the viewer doesn't see; None where it sees the hand.
fn number_hidden(viewer: Viewer, hands: &Hands, owner: u8) -> Option<usize>
    requires { owner ≤ 3 }
    ensures { result ≡ number_hidden (hand_seen (sees viewer owner) (at_seat hands.now owner)) }
{
    if sees(viewer, owner) {
        None
    } else {
        Some(hands.at(owner).len())
    }
}

fn start_hand(
    round: Kind,
    number: u8,
    honba: u32,
    deposits: u32,
    dealer: u8,
    indicator: Tile,
    hands: SeenHands,
) -> Masked
    ensures { result ≡ masks.StartHand round number honba deposits dealer indicator hands }
{
    Masked::StartHand {
        round,
        number,
        honba,
        deposits,
        dealer,
        indicator,
        hands,
    }
}

fn win(
    seat: u8,
    target: u8,
    tile: Tile,
    unders: &Tiles,
    hand: &Tiles,
    yaku: &YakuList,
    fu: u8,
    han: u8,
    value: u32,
    deltas: [i32; 4],
    points: [i32; 4],
    rest: Option<SeatList>,
) -> Result<Masked, AllocError>
    ensures { IfOk result (λ m. m ≡ masks.Win seat target tile unders.now hand.now yaku.now fu han
        value deltas points rest) }
{
    Ok(Masked::Win {
        seat,
        target,
        tile,
        unders: unders.copy()?,
        hand: hand.copy()?,
        yaku: yaku.copy()?,
        fu,
        han,
        value,
        deltas,
        points,
        rest,
    })
}

fn drawn_hand(
    reason: Reason,
    hands: &ShownHands,
    ready: [bool; 4],
    deltas: [i32; 4],
    points: [i32; 4],
) -> Result<Masked, AllocError>
    ensures { IfOk result (λ m. m ≡ masks.DrawnHand reason hands.now ready deltas points) }
{
    Ok(Masked::DrawnHand {
        reason,
        hands: hands.copy()?,
        ready,
        deltas,
        points,
    })
}
