use crate::seen_hands::SeenHands;
use mj_deeds::{Bid, Four, Reason, SeatList, ShownHands, Tiles, YakuList};
use mj_ports::Name;
use mj_tiles::{Kind, Tile};

/// A deed as a viewer sees it: what the viewer isn't told is None, a hidden hand the number of its tiles. Seats, points
/// and deltas stand as in the deed.
#[derive(Drop)]
pub enum Masked {
    StartGame {
        names: Four<Name>,
    },
    StartHand {
        round: Kind,
        number: u8,
        honba: u32,
        deposits: u32,
        dealer: u8,
        indicator: Tile,
        hands: SeenHands,
    },
    /// The tile is there for the record and for the seat that drew it.
    Draw {
        seat: u8,
        tile: Option<Tile>,
        replacement: bool,
    },
    Discard {
        seat: u8,
        tile: Tile,
        drawn: bool,
    },
    Chi {
        seat: u8,
        target: u8,
        tile: Tile,
        a: Tile,
        b: Tile,
    },
    Pon {
        seat: u8,
        target: u8,
        tile: Tile,
        a: Tile,
        b: Tile,
    },
    OpenKan {
        seat: u8,
        target: u8,
        tile: Tile,
        a: Tile,
        b: Tile,
        c: Tile,
    },
    ClosedKan {
        seat: u8,
        a: Tile,
        b: Tile,
        c: Tile,
        d: Tile,
    },
    AddedKan {
        seat: u8,
        tile: Tile,
        a: Tile,
        b: Tile,
        c: Tile,
    },
    Dora {
        tile: Tile,
    },
    Reach {
        seat: u8,
    },
    /// The kept call is there for the record.
    ReachAccepted {
        seat: u8,
        points: [i32; 4],
        then: Option<Bid>,
    },
    /// The seats that win next are there for the record.
    Win {
        seat: u8,
        target: u8,
        tile: Tile,
        unders: Tiles,
        hand: Tiles,
        yaku: YakuList,
        fu: u8,
        han: u8,
        value: u32,
        deltas: [i32; 4],
        points: [i32; 4],
        rest: Option<SeatList>,
    },
    DrawnHand {
        reason: Reason,
        hands: ShownHands,
        ready: [bool; 4],
        deltas: [i32; 4],
        points: [i32; 4],
    },
    EndHand,
    EndGame {
        points: [i32; 4],
        deposits: u32,
    },
}
