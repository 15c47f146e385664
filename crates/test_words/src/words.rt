//! Numbers, tiles and kinds as texts, read for the tests.

ghost use Rattle.std.specs.Prelude.{◌≤◌};

use mj_deeds::Tiles;
use mj_tiles::{Counts, Kind, Kinds, Tile};
use std::alloc::{AllocError, Global};

/// What a test asks of each line of a table.
pub trait Question {
    /// Whether a line is as it says.
    fn holds(alloc: Global, line: &str) -> bool;
}

/// The first line of a table that isn't as it says; empty where there is none.
pub fn wrong_row<'a, Q: Question>(alloc: Global, lines: &'a str) -> &'a str {
    for line in lines.lines() {
        if !Q::holds(alloc, line) {
            return line;
        }
    }
    ""
}

/// The field of a line at a place, the first one at 0; empty where there is none. Bars part fields.
pub fn field(line: &str, place: usize) -> &str {
    match line.split('|').nth(place) {
        Some(field) => field.trim(),
        None => "",
    }
}

/// The word of a line at a place, the first one at 0; empty where there is none.
pub fn word(line: &str, place: usize) -> &str {
    match line.split_whitespace().nth(place) {
        Some(word) => word,
        None => "",
    }
}

/// What stands before the first mark of a line and behind it.
pub fn parted(line: &str, mark: char) -> (&str, &str) {
    match line.split_once(mark) {
        Some(parts) => parts,
        None => (line, ""),
    }
}

/// A number below 256, or none.
pub fn number_or_none(text: &str) -> Option<u8> {
    text.parse().ok()
}

/// A number below 256; 255 where there is none.
pub fn number(text: &str) -> u8 {
    match text.parse() {
        Ok(number) => number,
        Err(_) => 255,
    }
}

/// A seat, 3 where there is no lower one.
pub fn seat(text: &str) -> u8
    ensures { result ≤ 3 }
{
    match text {
        "0" => 0,
        "1" => 1,
        "2" => 2,
        _ => 3,
    }
}

/// Four numbers, below zero with `-`.
pub fn points(text: &str) -> [i32; 4] {
    [
        signed(word(text, 0)),
        signed(word(text, 1)),
        signed(word(text, 2)),
        signed(word(text, 3)),
    ]
}

/// A number that may be below zero; the least one where there is none.
fn signed(text: &str) -> i32 {
    match text.parse() {
        Ok(number) => number,
        Err(_) => i32::MIN,
    }
}

/// Whether each of the first four words is `yes`.
pub(crate) fn truths(text: &str) -> [bool; 4] {
    [
        yes(word(text, 0)),
        yes(word(text, 1)),
        yes(word(text, 2)),
        yes(word(text, 3)),
    ]
}

/// The tile of a text, as `1m`, `5mr` or `E`; 5sr where there is none.
pub fn tile(text: &str) -> Tile {
    match tile_or_none(text) {
        Some(tile) => tile,
        None => Tile::at(36),
    }
}

/// The tile of a text, or none.
pub fn tile_or_none(text: &str) -> Option<Tile> {
    Tile::read(text.as_bytes())
}

/// The kind of the tile of a text.
pub fn kind(text: &str) -> Kind {
    tile(text).kind()
}

/// Whether a text is `yes`.
pub fn yes(text: &str) -> bool {
    text == "yes"
}

/// Tiles that stand suit by suit, with 0 for a red five and each honour by its letter, as `123m 055p EES`. They come
/// in tile order.
pub(crate) fn tiles(alloc: Global, text: &str) -> Option<Tiles> {
    let mut items = Vec::new(alloc);
    match push_tiles(&mut items, text) {
        Ok(()) => Tiles::sorted(alloc, items.as_slice()).ok(),
        Err(_) => None,
    }
}

fn push_tiles(items: &mut Vec<Tile>, text: &str) -> Result<(), AllocError> {
    let mut suit = 0;
    for byte in text.as_bytes().iter().rev() {
        suit = suit_after(*byte, suit);
        if let Some(tile) = tile_in(*byte, suit) {
            items.push(tile)?;
        }
    }
    Ok(())
}

/// How often each kind stands among such tiles; none does where one stands more than four times.
pub fn counts(text: &str) -> Counts {
    let mut numbers = [0u8; 34];
    let mut suit = 0;
    for byte in text.as_bytes().iter().rev() {
        suit = suit_after(*byte, suit);
        if let Some(tile) = tile_in(*byte, suit) {
            let place = tile.kind().number() as usize;
            numbers[place] = numbers[place].saturating_add(1);
        }
    }
    match Counts::of(numbers) {
        Some(counts) => counts,
        None => none_held(),
    }
}

/// The counts of no tile.
fn none_held() -> Counts {
    Counts::from_numbers([0; 34])
}

/// The kinds among such tiles.
pub fn kinds(text: &str) -> Kinds {
    let mut kinds = Kinds::none();
    let mut suit = 0;
    for byte in text.as_bytes().iter().rev() {
        suit = suit_after(*byte, suit);
        if let Some(tile) = tile_in(*byte, suit) {
            kinds = kinds.with(tile.kind());
        }
    }
    kinds
}

/// The number of the suit that a letter names; another byte leaves the suit as it is.
fn suit_after(byte: u8, suit: u8) -> u8 {
    match byte {
        b'm' => 0,
        b'p' => 1,
        b's' => 2,
        _ => suit,
    }
}

/// The tile of a digit in a suit, or of the letter of an honour.
fn tile_in(byte: u8, suit: u8) -> Option<Tile> {
    match byte {
        b'0' => Tile::of(suit.saturating_add(34)),
        b'1'..=b'9' => Tile::of(suit.saturating_mul(9).saturating_add(byte - b'1')),
        _ => Tile::read(&[byte]),
    }
}

/// Whether these are the tiles of the words of a text, in their order.
pub fn are(tiles: &[Tile], text: &str) -> bool {
    let mut number: usize = 0;
    for word in text.split_whitespace() {
        if tiles.get(number).copied() != tile_or_none(word) {
            return false;
        }
        number = number.saturating_add(1);
    }
    number == tiles.len()
}
