use crate::asking::ask;
use mj_tiles::Tile;
use mj_wall::{Rules, Setting, Wall, Walls};
use std::alloc::Global;
use test_words::{Question, are, field, number, tile, word};

/// How many tiles of the sorted wall are read (after its 136 one C more), with tiles put into places, in a game with
/// red fives or without; and the place that is wrong, if it is no wall.
const WALLS: &str = "\
136||plain|wall
136||red|19
135||plain|135
0||plain|0
137||plain|136
135|4 1m|plain|4
136|4 1m|plain|4
136|4 5mr|plain|4
136|19 5mr 55 5pr|red|91
136|19 5mr 55 5pr 91 5sr|red|wall
136|19 5mr 55 5pr 91 5sr|plain|19";

/// The sorted wall, four of each kind, and one C more, with tiles put into places.
fn changed(changes: &str) -> [Tile; 137] {
    let mut tiles = [Tile::at(33); 137];
    for place in 0..136u8 {
        tiles[usize::from(place)] = Tile::at(place / 4);
    }
    for change in 0..3 {
        let place = usize::from(number(word(changes, 2 * change)));
        if place < 137 {
            tiles[place] = tile(word(changes, 2 * change + 1));
        }
    }
    tiles
}

struct Read;

impl Question for Read {
    fn holds(_alloc: Global, line: &str) -> bool {
        let length = usize::from(number(field(line, 0)).min(137));
        is_read(
            &changed(field(line, 1))[..length],
            field(line, 2) == "red",
            field(line, 3),
        )
    }
}

fn is_read(tiles: &[Tile], red: bool, wanted: &str) -> bool {
    match Wall::read(tiles, red) {
        Ok(_) => wanted == "wall",
        Err(e) => wanted.parse() == Ok(e.place),
    }
}

#[test]
fn tiles_that_are_no_wall_show_the_place(rt: HostRuntime) {
    ask::<HostRuntime, Read>(&rt, rt.alloc(), WALLS);
}

/// Whether the tiles of the sorted wall come from their places.
fn takes(wall: &Wall) -> bool {
    let taken = [
        wall.dealt(1, 0),
        wall.dealt(3, 12),
        wall.draw(0),
        wall.draw(69),
        wall.replacement(3),
        wall.indicator(0),
        wall.indicator(4),
        wall.under(1),
    ];
    are(&taken, "4m 4p 5p N C F N F") && wall.tiles() == &changed("")[..136]
}

/// Whether a setting has just the wall that it is given.
fn has_its_wall(walls: Vec<Wall>) -> bool {
    let setting = Setting {
        walls: Walls::from_vec(walls),
        rules: Rules {
            limit: 1,
            draws: false,
            red: false,
        },
    };
    match setting.walls.as_slice() {
        [kept] => takes(kept),
        _ => false,
    }
}

fn are_in_place(alloc: Global) -> bool {
    match Wall::read(&changed("")[..136], false) {
        Ok(wall) => match vec![in alloc; wall] {
            Ok(walls) => has_its_wall(walls),
            Err(_) => false,
        },
        Err(_) => false,
    }
}

#[test]
fn tiles_are_taken_from_their_places(rt: HostRuntime) {
    assert!(rt; are_in_place(rt.alloc()));
}

/// A wall of the seed that has 7 in its first byte and then zeros, with red fives or without: its number, and its tiles in
/// order. They were found by a program of the shuffle over the cipher as it is published, which is no part of this one.
const SHUFFLED: &str = "\
0|plain|9p 4m 3p C 7s 8s 8m 1p 3s W 3m 8p 4m N 1p 5m 9s 6m 8m 4s 4m 1m 5m W 3m 7p 7s 1m 9s P 5p 4m 1s 3p 5p \
3p 7p 2s 5p 9m 8p 4p 8s 2m E 6m 4p 8p 8m 5m S 4s 9m N C S 4p 2p 3p 3s 6p P F 1m 7m 3m 1s E 2s 5m C \
7p 1s 2m 8s 2m C 8m 6s 5p 8s 9m 6s E 2p 9p S N 2p 7p 9m 4p 6s 1p N 6m 6m 7m 2m W 2p 5s 9p F 2s 6p \
5s S 1m P F 7s 6s W 8p 9p 3m 7m 1p 7s 6p 9s 6p E 4s 5s 3s P 5s 2s 9s 4s 1s 3s F 7m
1|red|1m 4p 6p 2m 5m 9p 3s 6p 2p 5p 4m 8s 7m 6m F N 8m P 8m N 1p C 4s 7p S F P 7s 4s C C 3m 3m 2s 3p 3s \
3s 4m W 5pr 7p 5p 2m 9m 8m 6s 3p 4p 2m 1s 8s 8p 6p 9m 5mr 8p 5m 4p 8s 2p W 4s E 3p 1s 7s 5p 9p 2p \
4p P 4m 9s 1m 2m N 1p 7p 1s 1p 5s 6p S 9m 7m 7s 6s 9s 3s E W E 2s 5s 7s 4s 6m 2s P 7m 1s C 5m 3m F \
9s 3m 9m 8m W 5sr S 3p 8s 5s 9p 7m 1p F 1m 2s 6m N 6m 8p 7p 4m 8p 6s S 2p E 9p 1m 6s 9s";

fn has_tiles(wall: &Wall, text: &str) -> bool {
    let mut words = text.split(' ');
    for tile in wall.tiles() {
        match words.next() {
            Some(word) if word.as_bytes() == tile.text() => {}
            _ => return false,
        }
    }
    words.next().is_none()
}

struct OfSeed;

impl Question for OfSeed {
    fn holds(alloc: Global, line: &str) -> bool {
        let (n, red) = (number(field(line, 0)), field(line, 1) == "red");
        is_shuffled(n, red, field(line, 2)) && is_among(alloc, n, red, field(line, 2))
    }
}

fn seed() -> [u8; 32] {
    let mut seed = [0; 32];
    seed[0] = 7;
    seed
}

/// Whether the wall of a number, shuffled alone, has the tiles.
fn is_shuffled(n: u8, red: bool, wanted: &str) -> bool {
    has_tiles(&Wall::shuffled(seed(), u64::from(n), red), wanted)
}

/// Whether that wall among the first of the seed has them.
fn is_among(alloc: Global, n: u8, red: bool, wanted: &str) -> bool {
    match Walls::shuffled(alloc, seed(), 2, red) {
        Ok(walls) => wall_has_tiles(walls.as_slice().get(usize::from(n)), wanted),
        Err(_) => false,
    }
}

fn wall_has_tiles(wall: Option<&Wall>, wanted: &str) -> bool {
    match wall {
        Some(wall) => has_tiles(wall, wanted),
        None => false,
    }
}

#[test]
fn a_seed_gives_its_walls(rt: HostRuntime) {
    ask::<HostRuntime, OfSeed>(&rt, rt.alloc(), SHUFFLED);
}
