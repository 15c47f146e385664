ghost use Rattle.std.specs.Prelude.{◌≡◌};
ghost use Rattle.mj_deeds.specs.Bids.{call_of_bid};

use crate::deed::Deed;
use mj_tiles::Tile;

/// A call that a seat bids for a discard, with all the fields of the deed that it becomes. Seats are 0 to 3; a called tile
/// and the own tiles that go with it stand as in that deed.
#[derive(Clone, Copy, Debug, PartialEq, Eq)]
pub enum Bid {
    /// No call is bid.
    NoBid,
    /// A run.
    Chi {
        seat: u8,
        target: u8,
        tile: Tile,
        a: Tile,
        b: Tile,
    },
    /// A triplet.
    Pon {
        seat: u8,
        target: u8,
        tile: Tile,
        a: Tile,
        b: Tile,
    },
    /// A kan of a discard.
    OpenKan {
        seat: u8,
        target: u8,
        tile: Tile,
        a: Tile,
        b: Tile,
        c: Tile,
    },
}

impl Bid {
    /// The deed that the bid becomes where it is taken; None where no call is bid.
    pub fn deed(&self) -> Option<Deed>
        ensures { result ≡ call_of_bid self.now }
    {
        match self {
            Bid::NoBid => None,
            Bid::Chi {
                seat,
                target,
                tile,
                a,
                b,
            } => Some(Deed::Chi {
                seat: *seat,
                target: *target,
                tile: *tile,
                a: *a,
                b: *b,
            }),
            Bid::Pon {
                seat,
                target,
                tile,
                a,
                b,
            } => Some(Deed::Pon {
                seat: *seat,
                target: *target,
                tile: *tile,
                a: *a,
                b: *b,
            }),
            Bid::OpenKan {
                seat,
                target,
                tile,
                a,
                b,
                c,
            } => Some(Deed::OpenKan {
                seat: *seat,
                target: *target,
                tile: *tile,
                a: *a,
                b: *b,
                c: *c,
            }),
        }
    }
}
