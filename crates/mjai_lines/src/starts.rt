// What the lines of a start have whoever sees them.
ghost use Rattle.std.specs.Prelude.{◌∷◌, ◌++◌, [], OnOk, codes, decimal};
ghost use Rattle.mj_bytes.specs.Adds.{Adds};
ghost use Rattle.mj_forms.specs.Lines.{quoted, bracketed, quoted_tile};

use crate::pieces::{push_quoted, push_tile};
use mj_bytes::{push_all, push_number};
use mj_deeds::Four;
use mj_ports::Name;
use mj_tiles::{Kind, Tile};
use std::alloc::AllocError;

/// Writes the four names of a game, in brackets, after a text. On an error the text may be any.
pub fn push_names(line: &mut Vec<u8>, names: &Four<Name>) -> Result<(), AllocError>
    ensures { OnOk result (Adds line.old.items line.new.items (bracketed
        (quoted names.now.first ∷ quoted names.now.second ∷ quoted names.now.third
        ∷ quoted names.now.fourth ∷ []))) }
{
    push_all(line, b"[")?;
    push_quoted(line, names.first.as_slice())?;
    push_all(line, b",")?;
    push_quoted(line, names.second.as_slice())?;
    push_all(line, b",")?;
    push_quoted(line, names.third.as_slice())?;
    push_all(line, b",")?;
    push_quoted(line, names.fourth.as_slice())?;
    push_all(line, b"]")?;
    Ok(())
}

/// Writes the start of a hand up to its dealer, a seat from 0 to 3, after a text. On an error the text may be any.
pub fn push_place(
    line: &mut Vec<u8>,
    round: Kind,
    number: u8,
    honba: u32,
    deposits: u32,
    dealer: u8,
) -> Result<(), AllocError>
    ensures { OnOk result (Adds line.old.items line.new.items
        (codes "{\"type\":\"start_kyoku\",\"bakaze\":" ++ quoted_tile round
        ++ codes ",\"kyoku\":" ++ decimal number ++ codes ",\"honba\":" ++ decimal honba
        ++ codes ",\"kyotaku\":" ++ decimal deposits ++ codes ",\"oya\":" ++ decimal dealer)) }
{
    push_all(line, b"{\"type\":\"start_kyoku\",\"bakaze\":")?;
    push_kind(line, round)?;
    push_all(line, b",\"kyoku\":")?;
    push_number(line, u64::from(number))?;
    push_all(line, b",\"honba\":")?;
    push_number(line, u64::from(honba))?;
    push_all(line, b",\"kyotaku\":")?;
    push_number(line, u64::from(deposits))?;
    push_all(line, b",\"oya\":")?;
    push_number(line, u64::from(dealer))?;
    Ok(())
}

// Writes the wind of a round, as its tile: each kind is the face of a plain tile.
fn push_kind(line: &mut Vec<u8>, kind: Kind) -> Result<(), AllocError>
    ensures { OnOk result (Adds line.old.items line.new.items (quoted_tile kind)) }
{
    match Tile::of(kind.number()) {
        Some(tile) => push_tile(line, tile),
        None => Ok(()),
    }
}
