//! The record of a game: its header, a line for each wall, and the record's line of each deed.

ghost use Rattle.std.specs.Prelude.{◌≡◌, ◌≤◌, ◌+◌, ◌∷◌, length, flat_map, OnOk, OnErr};
ghost use Rattle.mj_bytes.specs.Adds.{Adds};
ghost use Rattle.mj_tiles.specs.Faces.{text_of};
ghost use Rattle.mj_deeds.specs.declared.deed.Viewer.TheVariants.{Record};
ghost use Rattle.mj_forms.specs.Lines.{line as line_for};
ghost use Rattle.mj_forms.specs.Headers.{switch_text, header_line, wall_line};
ghost use Rattle.mj_forms.specs.RecordTexts.{record_text};

use crate::deed::write;
use crate::steps::Steps;
use mj_bytes::{push_all, push_number};
use mj_deeds::{Deed, Viewer};
use mj_tiles::Tile;
use mj_wall::{Rules, Wall};
use std::alloc::{AllocError, Global};
use std::sync::ledger::Ledger;

/// Writes the record of a game after a text: the header with its rules, a line for each of its walls, and the record's line
/// of each of its deeds, which it counts. The only error is running out of memory, and then the text stays as it was.
pub fn write_record<L: Ledger>(
    alloc: Global,
    rules: Rules,
    walls: &[Wall],
    deeds: &[Deed],
    into: &mut Vec<u8>,
    steps: &mut Steps<L>,
) -> Result<(), AllocError>
    ensures ok { OnOk result (Adds into.old.items into.new.items
        (record_text rules walls.now deeds.now)) }
    ensures err { OnErr result (into.new.items ≡ into.old.items) }
    ensures steps { steps.new ≤ steps.old + length deeds.now }
{
    let mut text = Vec::new(alloc);
    push_record(alloc, rules, walls, deeds, &mut text, steps)?;
    push_all(into, text.as_slice())
}

// Writes the record after a text that may be spoilt.
#[tactic(auto, unfolding(mj_forms::specs::RecordTexts::record_text))]
fn push_record<L: Ledger>(
    alloc: Global,
    rules: Rules,
    walls: &[Wall],
    deeds: &[Deed],
    text: &mut Vec<u8>,
    steps: &mut Steps<L>,
) -> Result<(), AllocError>
    ensures text { OnOk result (Adds text.old.items text.new.items
        (record_text rules walls.now deeds.now)) }
    ensures steps { steps.new ≤ steps.old + length deeds.now }
{
    push_header(text, rules)?;
    push_walls(text, walls)?;
    push_deeds(alloc, text, deeds, steps)?;
    Ok(())
}

// Writes the header.
#[tactic(auto, unfolding(mj_forms::specs::Headers::header_line))]
fn push_header(text: &mut Vec<u8>, rules: Rules) -> Result<(), AllocError>
    ensures { OnOk result (Adds text.old.items text.new.items (header_line rules)) }
{
    push_all(text, b"game limit=")?;
    push_number(text, rules.limit)?;
    push_all(text, b" draws=")?;
    push_switch(text, rules.draws)?;
    push_all(text, b" red=")?;
    push_switch(text, rules.red)?;
    push_all(text, b"\n")?;
    Ok(())
}

// Writes a switch.
fn push_switch(text: &mut Vec<u8>, is_on: bool) -> Result<(), AllocError>
    ensures { OnOk result (Adds text.old.items text.new.items (switch_text is_on)) }
{
    if is_on {
        return push_all(text, b"1");
    }
    push_all(text, b"0")
}

// Writes the line of each wall.
fn push_walls(text: &mut Vec<u8>, walls: &[Wall]) -> Result<(), AllocError>
    ensures { OnOk result (Adds text.old.items text.new.items (flat_map wall_line walls.now)) }
{
    for wall in walls {
        push_wall(text, wall)?;
    }
    Ok(())
}

// Writes the line of a wall.
#[tactic(auto, unfolding(mj_forms::specs::Headers::wall_line))]
fn push_wall(text: &mut Vec<u8>, wall: &Wall) -> Result<(), AllocError>
    ensures { OnOk result (Adds text.old.items text.new.items (wall_line wall.now)) }
{
    push_all(text, b"wall")?;
    push_tiles(text, wall.tiles())?;
    push_all(text, b"\n")?;
    Ok(())
}

// Writes the tiles, each after a space.
fn push_tiles(text: &mut Vec<u8>, tiles: &[Tile]) -> Result<(), AllocError>
    ensures { OnOk result (Adds text.old.items text.new.items
        (flat_map (λ tile. 32 ∷ text_of tile) tiles.now)) }
{
    for tile in tiles {
        push_all(text, b" ")?;
        push_all(text, tile.text())?;
    }
    Ok(())
}

// Writes the record's line of each deed.
fn push_deeds<L: Ledger>(
    alloc: Global,
    text: &mut Vec<u8>,
    deeds: &[Deed],
    steps: &mut Steps<L>,
) -> Result<(), AllocError>
    ensures text { OnOk result (Adds text.old.items text.new.items
        (flat_map (line_for Record) deeds.now)) }
    ensures steps { steps.new ≤ steps.old + length deeds.now }
{
    for deed in deeds {
        write(alloc, Viewer::Record, deed, None, text, steps)?;
    }
    Ok(())
}
