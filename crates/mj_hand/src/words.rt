//! Words as tiles and melds.

ghost use Rattle.std.specs.Prelude.{◌≡◌, ◌<◌, ◌≤◌, IfOk, length, option_map, bytes_eq};
ghost use Rattle.mj_tiles.specs.Counts.{kind_counts};
ghost use Rattle.mj_readings.specs.Sets.{begins_run, tiles_of_form};
ghost use Rattle.mj_readings.specs.declared.reading.SetForm.TheVariants.{Run, Triplet, Kan};
ghost use Rattle.mj_hand.specs.Words.{parts, tiles_of, are_tiles_of, make_meld_from, make_meld};

use mj_bytes::split_at_first;
use mj_tiles::{EAST, KINDS, Tile, counts_of};
use std::alloc::{AllocError, Global};

/// The tiles that the parts of a word name, where each names one; parts stand between plus signs.
#[tactic(auto, using(crate::proofs::WordSteps::reading))]
pub(crate) fn read_tiles(alloc: Global, word: &[u8]) -> Result<Option<Vec<Tile>>, AllocError>
    ensures { IfOk result (λ tiles. option_map (λ t. t.items) tiles ≡ tiles_of (parts word.now)) }
{
    let mut tiles = Vec::new(alloc);
    let mut rest = word;
    while let Some((part, others)) = split_at_first(rest, b'+') {
        let Some(tile) = Tile::read(part) else {
            return Ok(None);
        };
        tiles.push(tile)?;
        rest = others;
    }
    let Some(tile) = Tile::read(rest) else {
        return Ok(None);
    };
    tiles.push(tile)?;
    Ok(Some(tiles))
}

/// Whether the tiles are a run, a triplet or four of a kind, in any order.
pub(crate) fn is_meld(tiles: &[Tile]) -> bool
    ensures { result ≡ make_meld tiles.now }
{
    for low in 0..KINDS as u8 {
        if is_meld_from(tiles, low) {
            return true;
        }
    }
    false
}

// Whether they are so with this lowest kind.
fn is_meld_from(tiles: &[Tile], low: u8) -> bool
    requires { low < 34 }
    ensures { result ≡ make_meld_from tiles.now low }
{
    if is_run(tiles, low) {
        return true;
    }
    let tile = Tile::at(low);
    have_same_kinds(&[tile, tile, tile], tiles) || have_same_kinds(&[tile, tile, tile, tile], tiles)
}

// Whether the tiles are the run that begins at this kind.
fn is_run(tiles: &[Tile], low: u8) -> bool
    requires { low < 34 }
    ensures { result ≡ are_tiles_of Run low tiles.now }
{
    if low >= EAST {
        return false;
    }
    if low % 9 >= 7 {
        return false;
    }
    let run = [Tile::at(low), Tile::at(low + 1), Tile::at(low + 2)];
    have_same_kinds(&run, tiles)
}

// Whether the tiles of a set and other tiles have each kind equally often.
fn have_same_kinds(set: &[Tile], tiles: &[Tile]) -> bool
    requires { length set.now ≤ 4 }
    ensures { result ≡ bytes_eq (kind_counts set.now) (kind_counts tiles.now) }
{
    let Some(wanted) = counts_of(set) else {
        unreachable!()
    };
    let Some(counts) = counts_of(tiles) else {
        return false;
    };
    wanted.numbers() == counts.numbers()
}
