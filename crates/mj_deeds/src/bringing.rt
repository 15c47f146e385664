ghost use Rattle.std.specs.Prelude.{◌≡◌, ◌^◌, ◌-◌, ◌++◌, min};
ghost use Rattle.mj_tiles.specs.Counts.{number_of};
ghost use Rattle.mj_deeds.specs.Fits.{brought_by};

use crate::deed::Deed;
use crate::hands::Hands;
use mj_tiles::Tile;

/// How many tiles of a kind a deed brings into a hand: those that are dealt and drawn, and the indicators. A number too
/// large for a usize counts as the largest.
pub fn brought(deed: &Deed, kind: u8) -> usize
    ensures { result ≡ min (number_of (brought_by deed.now) kind) (2 ^ 64 - 1) }
{
    match deed {
        Deed::StartHand {
            indicator,
            hands,
            ..
        } => number_of(&[*indicator], kind).saturating_add(number_dealt(hands, kind)),
        Deed::Draw { tile, .. } => number_of(&[*tile], kind),
        Deed::Dora { tile } => number_of(&[*tile], kind),
        _ => 0,
    }
}

fn number_dealt(hands: &Hands, kind: u8) -> usize
    ensures { result ≡ min (number_of
        (hands.now.first ++ hands.now.second ++ hands.now.third ++ hands.now.fourth) kind)
        (2 ^ 64 - 1) }
{
    number_of(hands.at(0), kind)
        .saturating_add(number_of(hands.at(1), kind))
        .saturating_add(number_of(hands.at(2), kind))
        .saturating_add(number_of(hands.at(3), kind))
}

// How often a kind stands among the tiles.
fn number_of(tiles: &[Tile], kind: u8) -> usize
    ensures { result ≡ number_of tiles.now kind }
{
    tiles
        .iter()
        .filter(|tile| tile.kind().number() == kind)
        .count()
}
