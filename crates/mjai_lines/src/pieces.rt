// Pieces of a line: quoted texts, tiles, and lists in brackets.
ghost use Rattle.std.specs.Prelude.{◌∷◌, map, flat_map, replicate, OnOk};
ghost use Rattle.mj_bytes.specs.Adds.{Adds};
ghost use Rattle.mj_forms.specs.Lines.{quoted, quoted_tile, tile_seen, joined, bracketed, truth, points_text, shown_tiles, hidden_tile};

use mj_bytes::{push_all, push_signed};
use mj_tiles::Tile;
use std::alloc::AllocError;

// Writes a text between quotation marks.
pub(crate) fn push_quoted(line: &mut Vec<u8>, text: &[u8]) -> Result<(), AllocError>
    ensures { OnOk result (Adds line.old.items line.new.items (quoted text.now)) }
{
    push_all(line, b"\"")?;
    push_all(line, text)?;
    push_all(line, b"\"")?;
    Ok(())
}

/// Writes a tile between quotation marks after a text. On an error the text may be any.
#[tactic(auto, unfolding(mj_forms::specs::Lines::quoted_tile))]
pub fn push_tile(line: &mut Vec<u8>, tile: Tile) -> Result<(), AllocError>
    ensures { OnOk result (Adds line.old.items line.new.items (quoted_tile tile)) }
{
    push_short(line, tile.text())?;
    Ok(())
}

// Writes a text between quotation marks, one of a letter or two at once.
fn push_short(line: &mut Vec<u8>, text: &[u8]) -> Result<(), AllocError>
    ensures { OnOk result (Adds line.old.items line.new.items (quoted text.now)) }
{
    match text {
        [letter] => push_all(line, &[b'"', *letter, b'"']),
        [digit, letter] => push_all(line, &[b'"', *digit, *letter, b'"']),
        _ => push_quoted(line, text),
    }
}

// Writes a tile as it is seen: a question mark for a hidden one.
#[tactic(auto, unfolding(mj_forms::specs::Lines::hidden_tile))]
pub(crate) fn push_tile_seen(line: &mut Vec<u8>, seen: bool, tile: Tile) -> Result<(), AllocError>
    ensures { OnOk result (Adds line.old.items line.new.items (tile_seen seen tile)) }
{
    if seen {
        return push_tile(line, tile);
    }
    push_quoted(line, b"?")
}

// Writes true or false.
pub(crate) fn push_truth(line: &mut Vec<u8>, holds: bool) -> Result<(), AllocError>
    ensures { OnOk result (Adds line.old.items line.new.items (truth holds)) }
{
    if holds {
        return push_all(line, b"true");
    }
    push_all(line, b"false")
}

// Writes the points of the four seats, in brackets.
pub(crate) fn push_points(line: &mut Vec<u8>, points: [i32; 4]) -> Result<(), AllocError>
    ensures { OnOk result (Adds line.old.items line.new.items (points_text points)) }
{
    push_all(line, b"[")?;
    push_signed(line, points[0])?;
    push_all(line, b",")?;
    push_signed(line, points[1])?;
    push_all(line, b",")?;
    push_signed(line, points[2])?;
    push_all(line, b",")?;
    push_signed(line, points[3])?;
    push_all(line, b"]")?;
    Ok(())
}

// Writes the tiles as they are seen, in brackets.
pub(crate) fn push_tiles_seen(
    line: &mut Vec<u8>,
    seen: bool,
    tiles: &[Tile],
) -> Result<(), AllocError>
    ensures { OnOk result (Adds line.old.items line.new.items
        (bracketed (shown_tiles seen tiles.now))) }
{
    if !seen && tiles.len() == 13 {
        return push_hidden_hand(line);
    }
    push_all(line, b"[")?;
    push_joined(line, seen, tiles)?;
    push_all(line, b"]")?;
    Ok(())
}

// Writes the thirteen hidden tiles of a hand at its start, in brackets.
#[tactic(auto, unfolding(mj_forms::specs::Lines::bracketed, mj_forms::specs::Lines::hidden_tile))]
fn push_hidden_hand(line: &mut Vec<u8>) -> Result<(), AllocError>
    ensures { OnOk result (Adds line.old.items line.new.items
        (bracketed (replicate 13 hidden_tile))) }
{
    push_all(
        line,
        b"[\"?\",\"?\",\"?\",\"?\",\"?\",\"?\",\"?\",\"?\",\"?\",\"?\",\"?\",\"?\",\"?\"]",
    )
}

// Writes the tiles as they are seen, with commas between.
fn push_joined(line: &mut Vec<u8>, seen: bool, tiles: &[Tile]) -> Result<(), AllocError>
    ensures { OnOk result (Adds line.old.items line.new.items
        (joined (map (tile_seen seen) tiles.now))) }
{
    match tiles.split_first() {
        Some((first, rest)) => {
            push_tile_seen(line, seen, *first)?;
            push_after_commas(line, seen, rest)?;
            Ok(())
        }
        None => Ok(()),
    }
}

// Writes the tiles as they are seen, each after a comma.
fn push_after_commas(line: &mut Vec<u8>, seen: bool, tiles: &[Tile]) -> Result<(), AllocError>
    ensures { OnOk result (Adds line.old.items line.new.items
        (flat_map (λ other. 44 ∷ other) (map (tile_seen seen) tiles.now))) }
{
    for tile in tiles {
        push_all(line, b",")?;
        push_tile_seen(line, seen, *tile)?;
    }
    Ok(())
}
