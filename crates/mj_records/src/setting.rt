//! The header line and the wall lines of a record.

ghost use Rattle.std.specs.Prelude.{◌≡◌, true, false, IfOk, MatchOption};
ghost use Rattle.mj_wall.specs.Places.{is_wall};
ghost use Rattle.mj_records.specs.Settings.{IsHeader, IsNoHeader, IsWallLine, IsNoWallLine};

use mj_bytes::strip;
use mj_tiles::Tile;
use mj_wall::{Rules, Wall};
use mjai_answers::{read_rules, read_tiles};
use std::alloc::{AllocError, Global};

/// The rules that a header line says, which stands here without its newline; none where it is no header.
#[tactic(auto, using(crate::proofs::SettingLaws::headers))]
pub fn header_of(line: &[u8]) -> Option<Rules>
    ensures { MatchOption result (IsNoHeader line.now) (λ rules. IsHeader line.now rules) }
{
    let text = strip(line, b"game ")?;
    read_rules(text)
}

/// The wall that a line says, which stands here without its newline; none where it is no wall.
#[tactic(auto, using(crate::proofs::SettingLaws::walls))]
pub fn wall_of(alloc: Global, line: &[u8], red: bool) -> Result<Option<Wall>, AllocError>
    ensures { IfOk result (λ wall. MatchOption wall (IsNoWallLine red line.now)
        (λ w. IsWallLine red line.now w)) }
{
    let Some(text) = strip(line, b"wall ") else {
        return Ok(None);
    };
    match read_tiles(alloc, text)? {
        Some(tiles) => Ok(wall_with(tiles.as_slice(), red)),
        None => Ok(None),
    }
}

// The wall of these tiles.
fn wall_with(tiles: &[Tile], red: bool) -> Option<Wall>
    ensures { MatchOption result (is_wall red tiles.now ≡ false)
        (λ w. (w ≡ tiles.now) × (is_wall red tiles.now ≡ true)) }
{
    match Wall::read(tiles, red) {
        Ok(wall) => Some(wall),
        Err(_) => None,
    }
}
