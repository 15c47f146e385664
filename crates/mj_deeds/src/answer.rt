ghost use Rattle.std.specs.Prelude.{◌≡◌, MatchOption};
ghost use Rattle.mj_deeds.specs.declared.answer.Pai.TheVariants.{Known, Hidden};

use mj_tiles::Tile;

/// A tile as a line names it: one of the game, or `?`.
#[derive(Clone, Copy, Debug, PartialEq, Eq)]
pub enum Pai {
    Known(Tile),
    Hidden,
}

impl Pai {
    /// The tile of the game that is named; None exactly where it is hidden.
    pub fn known(&self) -> Option<Tile>
        ensures { MatchOption result (self.now ≡ Hidden) (λ tile. self.now ≡ Known tile) }
    {
        match self {
            Pai::Known(tile) => Some(*tile),
            Pai::Hidden => None,
        }
    }
}

/// What a line of a player reads as. Seats are 0 to 3; own tiles that are named together stand in tile order, hidden ones
/// last.
#[derive(Clone, Copy, Debug, PartialEq, Eq)]
pub enum Answer {
    /// The line is no answer.
    Unread,
    /// Nothing is done; the actor may be named, a seat from 0 to 3.
    Pass {
        actor: Option<u8>,
    },
    /// The actor discards a tile; `drawn` says that it is the drawn one.
    Discard {
        actor: u8,
        tile: Pai,
        drawn: bool,
    },
    /// The actor takes the target's discard for a run with two of its own tiles.
    Chi {
        actor: u8,
        target: u8,
        tile: Pai,
        a: Pai,
        b: Pai,
    },
    /// The actor takes the target's discard for a triplet with two of its own tiles.
    Pon {
        actor: u8,
        target: u8,
        tile: Pai,
        a: Pai,
        b: Pai,
    },
    /// The actor takes the target's discard for a kan with three of its own tiles.
    OpenKan {
        actor: u8,
        target: u8,
        tile: Pai,
        a: Pai,
        b: Pai,
        c: Pai,
    },
    /// The actor makes a kan of four concealed tiles.
    ClosedKan {
        actor: u8,
        a: Pai,
        b: Pai,
        c: Pai,
        d: Pai,
    },
    /// The actor adds a concealed tile to its triplet of three others.
    AddedKan {
        actor: u8,
        tile: Pai,
        a: Pai,
        b: Pai,
        c: Pai,
    },
    /// The actor announces riichi, and discards next.
    Reach {
        actor: u8,
    },
    /// The actor wins on a tile of the target, on its own draw with itself as the target; the tile may be named.
    Win {
        actor: u8,
        target: u8,
        tile: Option<Pai>,
    },
    /// The actor shows nine kinds of terminals and honours.
    NineKinds {
        actor: u8,
    },
}
