ghost use Rattle.std.specs.Prelude.{◌≡◌, IfOk};
ghost use Rattle.mj_deeds.specs.declared.deed.Deed.TheVariants as deeds;

use crate::bid::Bid;
use crate::hands::Hands;
use crate::names::Names;
use crate::reason::Reason;
use crate::seat_list::SeatList;
use crate::shown_hands::ShownHands;
use crate::tiles::Tiles;
use crate::yaku_list::YakuList;
use mj_tiles::{Kind, Tile};
use std::alloc::AllocError;

/// Who a line is written for.
#[derive(Clone, Copy, Debug, PartialEq, Eq)]
pub enum Viewer {
    /// A seat, 0 to 3, which sees its own tiles.
    Seat(u8),
    /// The record, which hides nothing.
    Record,
}

/// One deed of a game. Seats are 0 to 3; points and deltas stand in order of the seats.
#[derive(Drop)]
pub enum Deed {
    /// The game starts, with the names of the four seats.
    StartGame {
        names: Names,
    },
    /// A hand starts: the wind of the round, the dealer's number from 1 on, the honba and the deposits on the table,
    /// the dealer's seat, the first indicator, and the thirteen tiles dealt to each seat, in tile order.
    StartHand {
        round: Kind,
        number: u8,
        honba: u32,
        deposits: u32,
        dealer: u8,
        indicator: Tile,
        hands: Hands,
    },
    /// A seat draws a tile, a live one or a replacement after a kan.
    Draw {
        seat: u8,
        tile: Tile,
        replacement: bool,
    },
    /// A seat discards a tile; `drawn` says that it is the one it drew.
    Discard {
        seat: u8,
        tile: Tile,
        drawn: bool,
    },
    /// A seat takes the newest discard, of the target, and makes a run of it and two tiles of its own, in tile order.
    Chi {
        seat: u8,
        target: u8,
        tile: Tile,
        a: Tile,
        b: Tile,
    },
    /// A seat takes the newest discard, of the target, and makes a triplet of it and two tiles of its own.
    Pon {
        seat: u8,
        target: u8,
        tile: Tile,
        a: Tile,
        b: Tile,
    },
    /// A seat takes the newest discard, of the target, and makes a kan of it and three tiles of its own.
    OpenKan {
        seat: u8,
        target: u8,
        tile: Tile,
        a: Tile,
        b: Tile,
        c: Tile,
    },
    /// A seat makes a kan of four concealed tiles.
    ClosedKan {
        seat: u8,
        a: Tile,
        b: Tile,
        c: Tile,
        d: Tile,
    },
    /// A seat adds a concealed tile to a triplet that it took, whose tiles are `a`, `b` and `c`.
    AddedKan {
        seat: u8,
        tile: Tile,
        a: Tile,
        b: Tile,
        c: Tile,
    },
    /// After a kan the next indicator is shown.
    Dora {
        tile: Tile,
    },
    /// A seat announces riichi, and discards next.
    Reach {
        seat: u8,
    },
    /// Nobody won on the discard of a seat's reach: the seat is in riichi, and has laid down 1,000 points; `points` are
    /// those after it. `then` is the call of that discard that was bid, and is made next.
    ReachAccepted {
        seat: u8,
        points: [i32; 4],
        then: Bid,
    },
    /// A seat wins on a tile of the target, which is itself where it drew the tile: the hidden indicators of a winner in
    /// riichi, the concealed tiles without the winning one, the rows of the table of yaku with their numbers, fu and han,
    /// the value in points without honba and deposits, what each seat gains and the points after it, and the seats that
    /// win on the same tile after this one.
    Win {
        seat: u8,
        target: u8,
        tile: Tile,
        unders: Tiles,
        hand: Tiles,
        yaku: YakuList,
        fu: u8,
        han: u8,
        value: u32,
        deltas: [i32; 4],
        points: [i32; 4],
        rest: SeatList,
    },
    /// The hand ends without a winner: why, the hands that are shown, which seats are ready, what each seat gains and the
    /// points after it.
    DrawnHand {
        reason: Reason,
        hands: ShownHands,
        ready: [bool; 4],
        deltas: [i32; 4],
        points: [i32; 4],
    },
    /// The hand has ended.
    EndHand,
    /// The game has ended, with these points and so many deposits left on the table.
    EndGame {
        points: [i32; 4],
        deposits: u32,
    },
}

impl Deed {
    /// A copy of the deed.
    pub fn copy(&self) -> Result<Deed, AllocError>
        ensures { IfOk result (λ d. d ≡ self.now) }
    {
        match self {
            Deed::StartGame { names } => start_game(names),
            Deed::StartHand {
                round,
                number,
                honba,
                deposits,
                dealer,
                indicator,
                hands,
            } => start_hand(
                *round, *number, *honba, *deposits, *dealer, *indicator, hands,
            ),
            Deed::Draw {
                seat,
                tile,
                replacement,
            } => Ok(Deed::Draw {
                seat: *seat,
                tile: *tile,
                replacement: *replacement,
            }),
            Deed::Discard { seat, tile, drawn } => Ok(Deed::Discard {
                seat: *seat,
                tile: *tile,
                drawn: *drawn,
            }),
            Deed::Chi {
                seat,
                target,
                tile,
                a,
                b,
            } => Ok(Deed::Chi {
                seat: *seat,
                target: *target,
                tile: *tile,
                a: *a,
                b: *b,
            }),
            Deed::Pon {
                seat,
                target,
                tile,
                a,
                b,
            } => Ok(Deed::Pon {
                seat: *seat,
                target: *target,
                tile: *tile,
                a: *a,
                b: *b,
            }),
            Deed::OpenKan {
                seat,
                target,
                tile,
                a,
                b,
                c,
            } => Ok(Deed::OpenKan {
                seat: *seat,
                target: *target,
                tile: *tile,
                a: *a,
                b: *b,
                c: *c,
            }),
            Deed::ClosedKan { seat, a, b, c, d } => Ok(Deed::ClosedKan {
                seat: *seat,
                a: *a,
                b: *b,
                c: *c,
                d: *d,
            }),
            Deed::AddedKan {
                seat,
                tile,
                a,
                b,
                c,
            } => Ok(Deed::AddedKan {
                seat: *seat,
                tile: *tile,
                a: *a,
                b: *b,
                c: *c,
            }),
            Deed::Dora { tile } => Ok(Deed::Dora { tile: *tile }),
            Deed::Reach { seat } => Ok(Deed::Reach { seat: *seat }),
            Deed::ReachAccepted { seat, points, then } => Ok(Deed::ReachAccepted {
                seat: *seat,
                points: *points,
                then: *then,
            }),
            Deed::Win {
                seat,
                target,
                tile,
                unders,
                hand,
                yaku,
                fu,
                han,
                value,
                deltas,
                points,
                rest,
            } => win(
                *seat, *target, *tile, unders, hand, yaku, *fu, *han, *value, *deltas, *points,
                *rest,
            ),
            Deed::DrawnHand {
                reason,
                hands,
                ready,
                deltas,
                points,
            } => drawn_hand(*reason, hands, *ready, *deltas, *points),
            Deed::EndHand => Ok(Deed::EndHand),
            Deed::EndGame { points, deposits } => Ok(Deed::EndGame {
                points: *points,
                deposits: *deposits,
            }),
        }
    }
}

fn start_game(names: &Names) -> Result<Deed, AllocError>
    ensures { IfOk result (λ d. d ≡ deeds.StartGame names.now) }
{
    Ok(Deed::StartGame {
        names: names.copy()?,
    })
}

fn start_hand(
    round: Kind,
    number: u8,
    honba: u32,
    deposits: u32,
    dealer: u8,
    indicator: Tile,
    hands: &Hands,
) -> Result<Deed, AllocError>
    ensures { IfOk result (λ d. d ≡ deeds.StartHand round number honba deposits dealer indicator
        hands.now) }
{
    Ok(Deed::StartHand {
        round,
        number,
        honba,
        deposits,
        dealer,
        indicator,
        hands: hands.copy()?,
    })
}

fn win(
    seat: u8,
    target: u8,
    tile: Tile,
    unders: &Tiles,
    hand: &Tiles,
    yaku: &YakuList,
    fu: u8,
    han: u8,
    value: u32,
    deltas: [i32; 4],
    points: [i32; 4],
    rest: SeatList,
) -> Result<Deed, AllocError>
    ensures { IfOk result (λ d. d ≡ deeds.Win seat target tile unders.now hand.now yaku.now fu han
        value deltas points rest) }
{
    Ok(Deed::Win {
        seat,
        target,
        tile,
        unders: unders.copy()?,
        hand: hand.copy()?,
        yaku: yaku.copy()?,
        fu,
        han,
        value,
        deltas,
        points,
        rest,
    })
}

fn drawn_hand(
    reason: Reason,
    hands: &ShownHands,
    ready: [bool; 4],
    deltas: [i32; 4],
    points: [i32; 4],
) -> Result<Deed, AllocError>
    ensures { IfOk result (λ d. d ≡ deeds.DrawnHand reason hands.now ready deltas points) }
{
    Ok(Deed::DrawnHand {
        reason,
        hands: hands.copy()?,
        ready,
        deltas,
        points,
    })
}
