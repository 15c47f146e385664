use mj_tiles::{Kind, Kinds};

/// What a set is: three neighbouring kinds of one suit, three of a kind, or four of a kind.
#[derive(Clone, Copy, Debug, PartialEq, Eq)]
pub enum SetForm {
    Run,
    Triplet,
    Kan,
}

/// A set of a hand by its lowest kind. `shown` is true for the melds of a hand other than concealed kans, and false
/// for concealed kans and the sets of concealed tiles.
#[derive(Clone, Copy, Debug, PartialEq, Eq)]
pub struct Set {
    pub form: SetForm,
    pub low: Kind,
    pub shown: bool,
}

/// One way to read a complete hand.
#[derive(Clone, Copy, Debug, PartialEq, Eq)]
pub enum Reading {
    /// Four sets and a pair: first the sets of concealed tiles by their low kinds, a run before a triplet, then the
    /// melds in the order in which they were made. `win` names the set, 0 to 3, or the pair, 4, that the winning tile
    /// is in, and `winning` is the kind of that tile.
    Standard {
        a: Set,
        b: Set,
        c: Set,
        d: Set,
        pair: Kind,
        win: u8,
        winning: Kind,
    },
    /// Seven different kinds, two tiles of each.
    Pairs {
        kinds: Kinds,
    },
    /// Each terminal and honour once, and `double` twice.
    Orphans {
        double: Kind,
    },
}

/// How a seat declared riichi in the hand: not at all, or once, or at its first discard before any call.
#[derive(Clone, Copy, Debug, PartialEq, Eq)]
pub enum Riichi {
    No,
    Single,
    Double,
}

/// The circumstances of a win: the winner's wind and that of the round, whether the tile was drawn by the winner,
/// whether all melds are concealed kans, the winner's riichi and whether ippatsu holds, whether the tile was the last
/// of the wall or its discard, a replacement tile, or added to a kan, and whether it came in the first turn without
/// a call before.
#[derive(Clone, Copy, Debug, PartialEq, Eq)]
pub struct Case {
    pub seat_wind: Kind,
    pub round_wind: Kind,
    pub by_draw: bool,
    pub closed: bool,
    pub riichi: Riichi,
    pub ippatsu: bool,
    pub last: bool,
    pub rinshan: bool,
    pub robbed: bool,
    pub first: bool,
}
