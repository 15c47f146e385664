//! How a game is put on a table, and taken off.

ghost use Rattle.std.specs.Prelude.{◌≡◌, Ok, IfOk, IfSome, codes, option_and_then, option_map};
ghost use Rattle.mj_bytes.specs.Parts.{fields, behind};
ghost use Rattle.mj_forms.specs.Headers.{rules_of};
ghost use Rattle.mjai_answers.specs.Settings.{IsLimited};
ghost use Rattle.mj_embedded.specs.Opens.{Opens, OpensSeed, Closes, setting_of, new_game, seeded, wall_in, some_walls};

use crate::answer::{BAD_SETTING, DONE, IN_PLAY, NO_GAME, NO_MEMORY};
use crate::handle::Table;
use mj_bytes::{split_line, strip};
use mj_stepped::Stepped;
use mj_wall::{Rules, Wall, Walls};
use mjai_answers::{read_rules, read_tiles};
use std::alloc::{AllocError, Global};

// The most walls that a game has.
const MOST_WALLS: usize = 200;

impl Table {
    /// A game is put on a table that has none, before its first arrival, by its setting: a line `game` with the rules, and 1 to
    /// 200 lines `wall`, each with its newline, as they begin a record. DONE, or IN_PLAY, BAD_SETTING or NO_MEMORY, and then
    /// nothing has changed.
    pub fn open(&mut self, alloc: Global, setting: &[u8]) -> u32
        ensures { Opens setting.now self.old.held.game self.new.held.game result }
    {
        if let Some(game) = self.take(alloc) {
            self.put(game);
            return IN_PLAY;
        }
        match game_of(alloc, setting) {
            Ok(Some(game)) => {
                self.put(game);
                DONE
            }
            Ok(None) => BAD_SETTING,
            Err(_) => NO_MEMORY,
        }
    }

    /// A game is put on a table that has none, with the walls `first`, `first + 1`, and so on of a seed of 32 bytes, 1 to 200 of
    /// them, the limit of a window, 1 to 3600000 milliseconds, and whether the draw reasons are in force and red fives are in
    /// the walls. BAD_SETTING where one of these is out of its range.
    pub fn open_seed(
        &mut self,
        alloc: Global,
        seed: &[u8],
        first: u64,
        walls: u32,
        limit: u64,
        draws: bool,
        red: bool,
    ) -> u32
        ensures { OpensSeed seed.now first walls (record { limit = limit; draws = draws; red = red })
            self.old.held.game self.new.held.game result }
    {
        if let Some(game) = self.take(alloc) {
            self.put(game);
            return IN_PLAY;
        }
        match seeded(alloc, seed, first, walls, Rules { limit, draws, red }) {
            Ok(Some(game)) => {
                self.put(game);
                DONE
            }
            Ok(None) => BAD_SETTING,
            Err(_) => NO_MEMORY,
        }
    }

    /// The game is taken off the table, and its memory is given back: DONE, or NO_GAME.
    pub fn close(&mut self, alloc: Global) -> u32
        ensures { Closes self.old.held.game self.new.held.game result }
    {
        match self.take(alloc) {
            Some(_) => DONE,
            None => NO_GAME,
        }
    }
}

// The game of a setting before its first entry; none where the text is no setting.
fn game_of(alloc: Global, setting: &[u8]) -> Result<Option<Box<Stepped>>, AllocError>
    ensures { IfOk result (λ game. option_map (λ g. g.value) game ≡ option_map new_game (setting_of setting.now)) }
{
    let Some((line, rest)) = split_line(setting) else {
        return Ok(None);
    };
    let Some(rules) = header_of(line) else {
        return Ok(None);
    };
    match walls_of(alloc, rest, rules.red)? {
        Some(walls) => Ok(Some(on_heap(
            alloc,
            Stepped::new(alloc, Walls::from_vec(walls), rules),
        )?)),
        None => Ok(None),
    }
}

// A value that was made, on the heap.
fn on_heap<T: Drop>(alloc: Global, made: Result<T, AllocError>) -> Result<Box<T>, AllocError>
    ensures { IfOk result (λ held. made ≡ Ok held.value) }
{
    Ok(Box::new(alloc, made?)?)
}

// The rules of a header.
fn header_of(line: &[u8]) -> Option<Rules>
    ensures rules { result ≡ option_and_then (λ text. rules_of (fields text)) (behind (codes "game ") line.now) }
    ensures limit { IfSome result IsLimited }
{
    read_rules(strip(line, b"game ")?)
}

// The walls of lines; none where one of them is no wall, or there are none or more than 200.
fn walls_of(alloc: Global, text: &[u8], red: bool) -> Result<Option<Vec<Wall>>, AllocError>
    ensures { IfOk result (λ walls. option_map (λ w. w.items) walls ≡ some_walls red text.now) }
{
    let mut walls = Vec::new(alloc);
    let mut rest = text;
    while let Some((line, others)) = split_line(rest) {
        let Some(wall) = wall_of(alloc, line, red)? else {
            return Ok(None);
        };
        if walls.len() == MOST_WALLS {
            return Ok(None);
        }
        walls.push(wall)?;
        rest = others;
    }
    if walls.is_empty() || !rest.is_empty() {
        return Ok(None);
    }
    Ok(Some(walls))
}

// The wall of a line.
fn wall_of(alloc: Global, line: &[u8], red: bool) -> Result<Option<Wall>, AllocError>
    ensures { IfOk result (λ wall. wall ≡ wall_in red line.now) }
{
    let Some(text) = strip(line, b"wall ") else {
        return Ok(None);
    };
    match read_tiles(alloc, text)? {
        Some(tiles) => Ok(Wall::read(tiles.as_slice(), red).ok()),
        None => Ok(None),
    }
}

// The game of a seed before its first entry; none where a number is out of its range.
fn seeded(
    alloc: Global,
    seed: &[u8],
    first: u64,
    walls: u32,
    rules: Rules,
) -> Result<Option<Box<Stepped>>, AllocError>
    ensures { IfOk result (λ game. option_map (λ g. g.value) game ≡ option_map new_game (seeded seed.now first walls rules)) }
{
    let Ok(seed) = <[u8; 32]>::try_from(seed) else {
        return Ok(None);
    };
    let number = u64::from(walls);
    if number == 0 || number > 200 || first > u64::MAX - 200 {
        return Ok(None);
    }
    if rules.limit == 0 || rules.limit > 3_600_000 {
        return Ok(None);
    }
    Ok(Some(on_heap(alloc, Stepped::seeded(alloc, seed, first, number, rules))?))
}
