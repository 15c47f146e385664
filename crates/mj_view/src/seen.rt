ghost use Rattle.std.specs.Prelude.{◌≡◌};
ghost use Rattle.mj_view.specs.Seen.{sees, own_tile};

use mj_deeds::Viewer;
use mj_tiles::Tile;

/// Whether a viewer sees the tiles that a seat, 0 to 3, is dealt and draws: the record sees all, a seat its own. What the
/// program hides from a seat it hides by this.
pub fn sees(viewer: Viewer, owner: u8) -> bool
    ensures { result ≡ sees viewer owner }
{
    match viewer {
        Viewer::Seat(seat) => owner == seat,
        Viewer::Record => true,
    }
}

// The tile of a draw, where it is seen.
pub(crate) fn own_tile(is_seen: bool, tile: Tile) -> Option<Tile>
    ensures { result ≡ own_tile is_seen tile }
{
    if is_seen { Some(tile) } else { None }
}
