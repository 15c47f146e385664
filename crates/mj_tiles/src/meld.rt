ghost use Rattle.std.specs.Prelude.{◌≡◌, ℕ, ◌≤◌, length};
ghost use Rattle.std.specs.List.{slice_index_or};
ghost use Rattle.mj_tiles.specs.Melds.{no_meld};

use crate::tile::Tile;
use std::marker::Model;

/// How a meld was made: a chi takes a run, a pon a triplet, and a kan four of a kind, taken openly, from concealed
/// tiles alone, or by a tile added to a pon.
#[derive(Clone, Copy, Debug, PartialEq, Eq)]
pub enum Form {
    Chi,
    Pon,
    OpenKan,
    ClosedKan,
    AddedKan,
}

/// A meld: its form and its tiles in tile order; a kan alone has the fourth tile.
#[derive(Clone, Copy, Debug, PartialEq, Eq)]
pub struct Meld {
    pub form: Form,
    pub a: Tile,
    pub b: Tile,
    pub c: Tile,
    pub d: Option<Tile>,
}

/// The melds of a hand, at most four, in the order in which they were made.
#[derive(Clone, Copy, Debug)]
pub struct Melds {
    items: [Meld; 4],
    count: usize,
}

impl Model for Melds {
    ghost use Rattle.std.specs.Prelude.{List, take};
    ghost use Rattle.mj_tiles.specs.declared.meld.Meld.{Meld};
    ghost use Rattle.std.specs.Prelude.{length};
    ghost use Rattle.std.proofs.Common.{arith, length-take-le};
    ghost use Rattle.mj_tiles.specs.Melds.{HasRoom, filled};

    ghost Value = { List Meld };

    ghost view = { λ m. take m.count m.items };

    ghost invariant = { λ m. HasRoom m.items m.count };

    ghost inverse = { λ ms. record { items = filled ms; count = length ms } };

    ghost inverse_ok = { λ m h i. record {
      items = h.rest i;
      count = length-take-le m.count m.items (omega (arith, h.size, h.within)) i;
    } };
}

impl Melds {
    /// The list of these melds. Condition: at most four.
    pub fn of(melds: &[Meld]) -> Melds
        requires { length melds.now ≤ 4 }
        ensures { result ≡ melds.now }
    {
        Melds {
            items: [at(melds, 0), at(melds, 1), at(melds, 2), at(melds, 3)],
            count: melds.len(),
        }
    }

    /// The melds as a slice, at most four.
    pub fn as_slice(&self) -> &[Meld]
        ensures value { result.now ≡ self.now }
        ensures within { length result.now ≤ 4 }
    {
        &self.items[..self.count]
    }
}

/// What stands in the places of a list of melds that have no meld.
const NO_MELD: Meld = Meld {
    form: Form::Chi,
    a: Tile { face: 0 },
    b: Tile { face: 0 },
    c: Tile { face: 0 },
    d: None,
};

/// The meld at the place, or the blank past the end.
fn at(melds: &[Meld], place: usize) -> Meld
    ensures { result ≡ slice_index_or melds.now place no_meld }
{
    match melds.get(place) {
        Some(meld) => *meld,
        None => NO_MELD,
    }
}
