ghost use Rattle.std.specs.Prelude.{◌≡◌, ◌++◌, ◌∷◌, [], ℕ, List, flat_map};
ghost use Rattle.mj_tiles.specs.Counts.{room_beside};
ghost use Rattle.mj_tiles.specs.Melds.{tiles_of_meld};

use mj_tiles::{Counts, KINDS, Meld, Tile};

// The room that melds leave of four tiles of each kind.
pub(crate) fn room_beside(melds: &[Meld]) -> Counts
    ensures { result ≡ room_beside (flat_map tiles_of_meld melds.now) }
{
    let mut room = [4; KINDS];
    for meld in melds {
        take_meld(&mut room, *meld);
    }
    Counts::from_numbers(room)
}

// The room that is left besides the tiles of a meld too.
fn take_meld(room: &mut [u8; KINDS], meld: Meld)
    ensures { (tiles : List ℕ) → room.old ≡ room_beside tiles → room.new
        ≡ room_beside (tiles ++ tiles_of_meld meld) }
{
    take(room, meld.a);
    take(room, meld.b);
    take(room, meld.c);
    if let Some(tile) = meld.d {
        take(room, tile);
    }
}

// One tile fewer of a kind, or none of it where there is none.
fn take(room: &mut [u8; KINDS], tile: Tile)
    ensures { (tiles : List ℕ) → room.old ≡ room_beside tiles → room.new
        ≡ room_beside (tiles ++ tile ∷ []) }
{
    let place = usize::from(tile.kind().number());
    room[place] = room[place].saturating_sub(1);
}
