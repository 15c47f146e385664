ghost use Rattle.std.specs.Prelude.{◌≡◌, ◌≤◌, option_copied, option_to_list, nat_lt, length, flat_map};
ghost use Rattle.std.specs.List.{list_any};
ghost use Rattle.mj_tiles.specs.Faces.{number_in};
ghost use Rattle.mj_deeds.specs.Facts.{drawn_tile};
ghost use Rattle.mj_deeds.specs.Pais.{face_in};
ghost use Rattle.mj_rules.specs.Broken.{is_that, is_no_tile, is_no_such_tile, is_not_held, is_wrongly_marked, is_not_drawn};
ghost use Rattle.mj_rules.specs.View.{view_of, held_count};

use crate::questions::is_tile;
use mj_deeds::{Answer, Pai};
use mj_table::Table;
use mj_tiles::{RED, Tile};

// A named tile is one that the game doesn't have: a hidden one, or a red five where there are none.
pub(crate) fn is_no_such_tile(table: &Table, answer: &Answer) -> bool
    ensures { result ≡ is_no_such_tile table.now.rules.red answer.now }
{
    names_tile_outside(table.rules().red, answer)
}

// The named own tiles aren't all among the concealed ones: of some face more are named than are held.
pub(crate) fn is_not_held(table: &Table, seat: u8, answer: &Answer) -> bool
    requires { seat ≤ 3 }
    ensures { result ≡ is_not_held (view_of table.now.deeds seat) answer.now }
{
    match answer {
        Answer::Discard { tile, .. } => has_unheld(table, seat, &[*tile]),
        Answer::Chi { a, b, .. } => has_unheld(table, seat, &[*a, *b]),
        Answer::Pon { a, b, .. } => has_unheld(table, seat, &[*a, *b]),
        Answer::OpenKan { a, b, c, .. } => has_unheld(table, seat, &[*a, *b, *c]),
        Answer::ClosedKan { a, b, c, d, .. } => has_unheld(table, seat, &[*a, *b, *c, *d]),
        Answer::AddedKan { tile, .. } => has_unheld(table, seat, &[*tile]),
        _ => false,
    }
}

// The discard is marked as the drawn tile and isn't that one; or it isn't marked so, and the drawn tile is the only
// one held of its face.
pub(crate) fn is_not_drawn(table: &Table, seat: u8, answer: &Answer) -> bool
    requires { seat ≤ 3 }
    ensures { result ≡ is_not_drawn (view_of table.now.deeds seat) answer.now }
{
    match answer {
        Answer::Discard { tile, drawn, .. } => is_wrongly_marked(table, seat, tile, *drawn),
        _ => false,
    }
}

// A named tile is one that a game with red fives or without doesn't have.
fn names_tile_outside(red: bool, answer: &Answer) -> bool
    ensures { result ≡ is_no_such_tile red answer.now }
{
    match answer {
        Answer::Discard { tile, .. } => has_no_tile(red, &[*tile]),
        Answer::Chi { tile, a, b, .. } => has_no_tile(red, &[*tile, *a, *b]),
        Answer::Pon { tile, a, b, .. } => has_no_tile(red, &[*tile, *a, *b]),
        Answer::OpenKan { tile, a, b, c, .. } => has_no_tile(red, &[*tile, *a, *b, *c]),
        Answer::ClosedKan { a, b, c, d, .. } => has_no_tile(red, &[*a, *b, *c, *d]),
        Answer::AddedKan { tile, a, b, c, .. } => has_no_tile(red, &[*tile, *a, *b, *c]),
        Answer::Win { tile, .. } => names_no_tile(red, tile.as_ref()),
        _ => false,
    }
}

// A tile is named, and it is one that the game doesn't have.
pub(crate) fn names_no_tile(red: bool, tile: Option<&Pai>) -> bool
    ensures { result ≡ list_any (is_no_tile red) (option_to_list (option_copied tile.entry)) }
{
    match tile {
        Some(tile) => is_no_tile(red, tile),
        None => false,
    }
}

// One of the tiles is hidden, or a red five where there are none.
fn has_no_tile(red: bool, tiles: &[Pai]) -> bool
    ensures { result ≡ list_any (is_no_tile red) tiles.now }
{
    for tile in tiles {
        if is_no_tile(red, tile) {
            return true;
        }
    }
    false
}

pub(crate) fn is_no_tile(red: bool, tile: &Pai) -> bool
    ensures { result ≡ is_no_tile red tile.now }
{
    match tile {
        Pai::Known(tile) => tile.face() >= RED && !red,
        Pai::Hidden => true,
    }
}

// Of some face of these tiles there are more than the seat holds.
#[tactic(auto, unfolding(mj_rules::specs::View::view_of))]
fn has_unheld(table: &Table, seat: u8, tiles: &[Pai]) -> bool
    requires seat { seat ≤ 3 }
    requires few { length tiles.now ≤ 4 }
    ensures { let faces = flat_map face_in tiles.now in
        result ≡ list_any (λ face. nat_lt (held_count (view_of table.now.deeds seat) face)
        (number_in faces face)) faces }
{
    for tile in tiles {
        if let Pai::Known(tile) = tile {
            if table.held_count(seat, *tile) < number_among(tiles, *tile) {
                return true;
            }
        }
    }
    false
}

// How often the face of a tile stands among the known ones of these.
pub(crate) fn number_among(tiles: &[Pai], tile: Tile) -> usize
    ensures value { result ≡ number_in (flat_map face_in tiles.now) tile }
    ensures within { result ≤ length tiles.now }
{
    let mut number = 0;
    for other in tiles {
        if is_tile(tile, other) {
            number += 1;
        }
    }
    number
}

#[tactic(auto, unfolding(mj_rules::specs::View::view_of))]
pub(crate) fn is_wrongly_marked(table: &Table, seat: u8, tile: &Pai, marked: bool) -> bool
    requires { seat ≤ 3 }
    ensures { result ≡ is_wrongly_marked (view_of table.now.deeds seat) tile.now marked }
{
    match tile {
        Pai::Known(tile) if marked => !is_drawn(table, seat, *tile),
        Pai::Known(tile) => is_drawn(table, seat, *tile) && table.held_count(seat, *tile) == 1,
        Pai::Hidden => false,
    }
}

// The tile has the face of the tile that the seat has drawn.
pub(crate) fn is_drawn(table: &Table, seat: u8, tile: Tile) -> bool
    ensures { result ≡ is_that (drawn_tile table.now.deeds seat) tile }
{
    match table.drawn(seat) {
        Some(other) => other.face() == tile.face(),
        None => false,
    }
}
