ghost use Rattle.std.specs.Prelude.{◌≡◌, ◌++◌, ℕ, List, false, option_to_list};
ghost use Rattle.mj_deeds.specs.Passed.{kinds_among, offers_to};
ghost use Rattle.mj_deeds.specs.Facts.{is_discard};

use mj_deeds::Deed;
use mj_tiles::{Kinds, Tile};

// The kinds of some tiles and of one more, where there is one.
pub(crate) fn with_tile(kinds: Kinds, tile: Option<Tile>) -> Kinds
    ensures { (tiles : List ℕ) → kinds ≡ kinds_among tiles → result
        ≡ kinds_among (tiles ++ option_to_list tile) }
{
    match tile {
        Some(tile) => kinds.with(tile.kind()),
        None => kinds,
    }
}

// The tile of a deed other than a discard that a seat might win on: one that another seat adds to a triplet.
pub(crate) fn offered_by(deed: &Deed, seat: u8) -> Option<Tile>
    ensures { is_discard deed.now ≡ false → option_to_list result ≡ offers_to seat deed.now }
{
    match deed {
        Deed::AddedKan {
            seat: who,
            tile,
            ..
        } if *who != seat => Some(*tile),
        _ => None,
    }
}
