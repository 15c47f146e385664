use crate::four::Four;
use crate::reason::Reason;
use crate::shown_hands::ShownHands;
use crate::tiles::Tiles;
use mj_ports::Name;
use mj_tiles::Tile;

/// What one seat sees of a deed: what everybody sees and its own tiles.
#[derive(Drop)]
pub enum Token {
    StartGame {
        names: Four<Name>,
    },
    StartHand {
        indicator: Tile,
        hand: Tiles,
    },
    /// The tile is there where the seat drew it itself.
    Draw {
        seat: u8,
        tile: Option<Tile>,
    },
    Discard {
        seat: u8,
        tile: Tile,
        drawn: bool,
    },
    Chi {
        seat: u8,
        target: u8,
        tile: Tile,
        a: Tile,
        b: Tile,
    },
    Pon {
        seat: u8,
        target: u8,
        tile: Tile,
        a: Tile,
        b: Tile,
    },
    OpenKan {
        seat: u8,
        target: u8,
        tile: Tile,
        a: Tile,
        b: Tile,
        c: Tile,
    },
    ClosedKan {
        seat: u8,
        a: Tile,
        b: Tile,
        c: Tile,
        d: Tile,
    },
    AddedKan {
        seat: u8,
        tile: Tile,
        a: Tile,
        b: Tile,
        c: Tile,
    },
    Dora {
        tile: Tile,
    },
    Reach {
        seat: u8,
    },
    ReachAccepted {
        seat: u8,
    },
    Win {
        seat: u8,
        target: u8,
        tile: Tile,
        unders: Tiles,
        hand: Tiles,
    },
    DrawnHand {
        reason: Reason,
        hands: ShownHands,
    },
    EndHand,
    EndGame,
}
