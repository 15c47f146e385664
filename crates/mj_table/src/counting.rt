ghost use Rattle.std.specs.Prelude.{◌≡◌, IfOk};
ghost use Rattle.mj_tiles.specs.Counts.{NoFifth, kind_counts};
ghost use Rattle.mj_table.specs.Inner.Kept.{tiles_held};

use mj_deeds::{Tiles, ordered};
use mj_tiles::{Counts, FACES, KINDS};
use std::alloc::{AllocError, Global};

// How often each kind stands among tiles, of which there are so many of each face, and no kind more than four times.
pub(crate) fn kinds_held(held: &[u8; FACES]) -> Counts
    requires { NoFifth (kind_counts (tiles_held held.now)) }
    ensures { result ≡ kind_counts (tiles_held held.now) }
{
    let mut numbers = [0; KINDS];
    numbers.copy_from_slice(&held[..KINDS]);
    numbers[4] += held[34];
    numbers[13] += held[35];
    numbers[22] += held[36];
    Counts::from_numbers(numbers)
}

// The tiles, in tile order, of which there are so many of each face.
pub(crate) fn tiles_held(alloc: Global, held: &[u8; FACES]) -> Result<Tiles, AllocError>
    ensures { IfOk result (λ tiles. tiles ≡ tiles_held held.now) }
{
    let mut tiles = Tiles::new(alloc);
    for place in 0..FACES {
        let tile = ordered(place);
        let number = usize::from(held[usize::from(tile.face())]);
        tiles.put_copies(tile, number)?;
    }
    Ok(tiles)
}
