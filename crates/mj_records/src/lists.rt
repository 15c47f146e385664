//! Lists in brackets at the beginning of a text, with commas between.

ghost use Rattle.std.specs.Prelude.{◌≡◌, [], IfOk, IfSome, All, ◌≤◌, length, codes, option_map};
ghost use Rattle.mj_bytes.specs.Parts.{behind};
ghost use Rattle.mj_records.specs.Inner.Fields.{tile_at};
ghost use Rattle.mj_records.specs.Inner.Lists.{items_from, items_in, tiles_at, tiles_field, row_at, rows_field, marks_at, hidden_at, seats_by, seats_field};

use crate::fields::{byte_field, quoted_at, tile_at};
use crate::yaku::row_of;
use mj_bytes::strip;
use mj_deeds::SeatList;
use mj_tiles::Tile;
use std::alloc::AllocError;

/// The tiles of a list after a key, and what stands after the list.
#[tactic(auto, unfolding(crate::specs::Inner::Lists::tiles_field))]
pub(crate) fn tiles_field<'a>(
    text: &'a [u8],
    key: &[u8],
    tiles: &mut Vec<Tile>,
) -> Result<Option<&'a [u8]>, AllocError>
    requires { tiles.old.items ≡ [] }
    ensures { IfOk result (λ rest. option_map (λ r. (tiles.new.items, r.now)) rest
        ≡ tiles_field key.now text.now) }
{
    let Some(list) = strip(text, key) else {
        return Ok(None);
    };
    tiles_at(list, tiles)
}

/// The tiles of a list, and what stands after the list.
#[tactic(auto, unfolding(crate::specs::Inner::Lists::tiles_at))]
pub(crate) fn tiles_at<'a>(
    text: &'a [u8],
    tiles: &mut Vec<Tile>,
) -> Result<Option<&'a [u8]>, AllocError>
    requires { tiles.old.items ≡ [] }
    ensures { IfOk result (λ rest. option_map (λ r. (tiles.new.items, r.now)) rest
        ≡ tiles_at text.now) }
{
    let Some(list) = strip(text, b"[") else {
        return Ok(None);
    };
    tiles_in(list, tiles)
}

// What follows the bracket that begins a list of tiles.
fn tiles_in<'a>(text: &'a [u8], tiles: &mut Vec<Tile>) -> Result<Option<&'a [u8]>, AllocError>
    requires { tiles.old.items ≡ [] }
    ensures { IfOk result (λ rest. option_map (λ r. (tiles.new.items, r.now)) rest
        ≡ items_in tile_at text.now) }
{
    match text {
        [] => Ok(None),
        [b']', rest @ ..] => Ok(Some(rest)),
        _ => tiles_from(text, tiles),
    }
}

// Tiles with commas between, up to the bracket after them.
fn tiles_from<'a>(text: &'a [u8], tiles: &mut Vec<Tile>) -> Result<Option<&'a [u8]>, AllocError>
    requires { tiles.old.items ≡ [] }
    ensures { IfOk result (λ rest. option_map (λ r. (tiles.new.items, r.now)) rest
        ≡ items_from tile_at (length text.now) text.now) }
{
    let mut rest = text;
    for at in 0..text.len() {
        let Some((tile, behind)) = tile_at(rest) else {
            return Ok(None);
        };
        tiles.push(tile)?;
        if let Some(others) = strip(behind, b",") {
            rest = others;
            continue;
        }
        match strip(behind, b"]") {
            Some(end) => return Ok(Some(end)),
            None => return Ok(None),
        }
    }
    Ok(None)
}

/// The rows of the table of yaku, each with its number, of a list after a key, and what stands after the list.
#[tactic(auto, unfolding(crate::specs::Inner::Lists::rows_field))]
pub(crate) fn rows_field<'a>(
    text: &'a [u8],
    key: &[u8],
    rows: &mut Vec<(u8, u8)>,
) -> Result<Option<&'a [u8]>, AllocError>
    requires { rows.old.items ≡ [] }
    ensures value { IfOk result (λ rest. option_map (λ r. (rows.new.items, r.now)) rest
        ≡ rows_field key.now text.now) }
    ensures within { All (λ item. item.0 ≤ 44) rows.new.items }
{
    let Some(list) = strip(text, key) else {
        return Ok(None);
    };
    let Some(first) = strip(list, b"[") else {
        return Ok(None);
    };
    rows_in(first, rows)
}

// What follows the bracket that begins a list of rows.
fn rows_in<'a>(text: &'a [u8], rows: &mut Vec<(u8, u8)>) -> Result<Option<&'a [u8]>, AllocError>
    requires { rows.old.items ≡ [] }
    ensures value { IfOk result (λ rest. option_map (λ r. (rows.new.items, r.now)) rest
        ≡ items_in row_at text.now) }
    ensures within { All (λ item. item.0 ≤ 44) rows.new.items }
{
    match text {
        [] => Ok(None),
        [b']', rest @ ..] => Ok(Some(rest)),
        _ => rows_from(text, rows),
    }
}

// Rows with commas between, up to the bracket after them.
fn rows_from<'a>(text: &'a [u8], rows: &mut Vec<(u8, u8)>) -> Result<Option<&'a [u8]>, AllocError>
    requires { rows.old.items ≡ [] }
    ensures value { IfOk result (λ rest. option_map (λ r. (rows.new.items, r.now)) rest
        ≡ items_from row_at (length text.now) text.now) }
    ensures within { All (λ item. item.0 ≤ 44) rows.new.items }
{
    let mut rest = text;
    for at in 0..text.len() {
        let Some((row, behind)) = row_at(rest) else {
            return Ok(None);
        };
        rows.push(row)?;
        if let Some(others) = strip(behind, b",") {
            rest = others;
            continue;
        }
        match strip(behind, b"]") {
            Some(end) => return Ok(Some(end)),
            None => return Ok(None),
        }
    }
    Ok(None)
}

// A row with its number, in brackets.
#[tactic(auto, unfolding(crate::specs::Inner::Lists::row_at))]
fn row_at(text: &[u8]) -> Option<((u8, u8), &[u8])>
    ensures value { option_map (λ x. (x.0, x.1.now)) result ≡ row_at text.now }
    ensures within { IfSome result (λ x. x.0.0 ≤ 44) }
{
    let (name, rest) = quoted_at(strip(text, b"[")?)?;
    let row = row_of(name)?;
    let (number, rest) = byte_field(rest, b",")?;
    Some(((row, number), strip(rest, b"]")?))
}

/// A list of question marks: how many, at most 255, and what stands after the list.
#[tactic(auto, unfolding(crate::specs::Inner::Lists::hidden_at))]
pub(crate) fn hidden_at(text: &[u8]) -> Option<(u8, &[u8])>
    ensures { option_map (λ x. (x.0, x.1.now)) result ≡ hidden_at text.now }
{
    marks_at(strip(text, b"[\"?\"")?)
}

// Question marks after the first, up to the bracket after them.
fn marks_at(text: &[u8]) -> Option<(u8, &[u8])>
    ensures { option_map (λ x. (x.0, x.1.now)) result ≡ marks_at text.now }
{
    let mut rest = text;
    for before in 0..u8::MAX {
        if let Some(behind) = strip(rest, b"]") {
            return Some((before + 1, behind));
        }
        match strip(rest, b",\"?\"") {
            Some(others) => rest = others,
            None => return None,
        }
    }
    None
}

/// The list of at most two seats after a key.
#[tactic(auto, unfolding(crate::specs::Inner::Lists::seats_field))]
pub(crate) fn seats_field(text: &[u8], key: &[u8]) -> Option<SeatList>
    ensures { result ≡ seats_field key.now text.now }
{
    seats_at(strip(text, key)?)
}

// A list of at most two seats.
fn seats_at(list: &[u8]) -> Option<SeatList>
    ensures { result ≡ seats_by (behind (codes "[]") list.now) list.now }
{
    if let Some(_) = strip(list, b"[]") {
        return Some(SeatList::of(&[]));
    }
    let (first, rest) = byte_field(list, b"[")?;
    match byte_field(rest, b",") {
        Some((second, _)) => Some(SeatList::of(&[first, second])),
        None => Some(SeatList::of(&[first])),
    }
}
