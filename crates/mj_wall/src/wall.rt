ghost use Rattle.std.specs.Prelude.{◌≡◌, [], ◌≤◌, ◌*◌, ◌+◌, true, false, length, Some, None, IfOk, IfErr, OnOk, OnErr, SomeIff, slice_index, option_map, map, take, drop};
ghost use Rattle.std.specs.List.{range_with_len};
ghost use Rattle.mj_wall.specs.Places.{dealt_tile, live_tile, replacement_tile, indicator_tile, under_tile, number_in_wall, first_extra, bad_place, is_wall};
ghost use Rattle.mj_wall.specs.Inner.FaceCounts.{face_counts};

use mj_tiles::{FACES, Tile};
use std::marker::Model;
use thiserror::Error;

/// How many tiles a wall has.
pub const TILES: usize = 136;

/// A wall of 136 tiles.
#[derive(Drop)]
pub struct Wall {
    pub(crate) tiles: [Tile; TILES],
}

impl Model for Wall {
    ghost use Rattle.std.specs.Prelude.{ℕ, List};

    ghost Value = { List ℕ };

    ghost view = { λ w. w.tiles };
}

/// Why tiles are no wall: the first place, from 0 on, of a tile that is one too many of its face; where there is none,
/// the number of the tiles if it is below 136, else 136.
#[derive(Debug, Drop, Error)]
#[error("the tiles are no wall: see place {place}")]
pub struct BadWall {
    pub place: u32,
}

impl Wall {
    /// The wall of these tiles: 136 of them, each plain face four times; with red fives each of these once, in the
    /// place of a plain five. Any other tiles are no wall, and the answer names the place.
    #[tactic(auto, using(crate::proofs::WallFaces::wall_has_136))]
    pub fn read(tiles: &[Tile], red: bool) -> Result<Wall, BadWall>
        ensures value { IfOk result (λ w. w ≡ tiles.now) }
        ensures whole { OnOk result (is_wall red tiles.now ≡ true) }
        ensures no_wall { OnErr result (is_wall red tiles.now ≡ false) }
        ensures bad { IfErr result (λ e. bad_place red tiles.now ≡ Some e.place) }
    {
        if is_whole(tiles, red) {
            let mut places = [tiles[0]; TILES];
            places.copy_from_slice(tiles);
            return Ok(Wall { tiles: places });
        }
        Err(BadWall {
            place: wrong_place(tiles, red),
        })
    }

    /// Its 136 tiles, in order of their places.
    pub fn tiles(&self) -> &[Tile]
        ensures value { result.now ≡ self.now }
        ensures whole { length self.now ≡ 136 }
    {
        &self.tiles
    }

    /// Tile `i`, 0 to 12, of the `k`-th seat that is dealt to, 0 to 3, the dealer being the first.
    pub fn dealt(&self, k: u8, i: u8) -> Tile
        requires seat { k ≤ 3 }
        requires tile { i ≤ 12 }
        ensures { result ≡ dealt_tile self.now k i }
    {
        self.tiles[13 * usize::from(k) + usize::from(i)]
    }

    /// The `k`-th live draw, 0 to 69.
    pub fn draw(&self, k: u8) -> Tile
        requires { k ≤ 69 }
        ensures { result ≡ live_tile self.now k }
    {
        self.tiles[52 + usize::from(k)]
    }

    /// The `k`-th replacement tile after a kan, 0 to 3.
    pub fn replacement(&self, k: u8) -> Tile
        requires { k ≤ 3 }
        ensures { result ≡ replacement_tile self.now k }
    {
        self.tiles[135 - usize::from(k)]
    }

    /// The `k`-th dora indicator, 0 to 4.
    pub fn indicator(&self, k: u8) -> Tile
        requires { k ≤ 4 }
        ensures { result ≡ indicator_tile self.now k }
    {
        self.tiles[131 - 2 * usize::from(k)]
    }

    /// The hidden indicator under the `k`-th, 0 to 4.
    pub fn under(&self, k: u8) -> Tile
        requires { k ≤ 4 }
        ensures { result ≡ under_tile self.now k }
    {
        self.tiles[130 - 2 * usize::from(k)]
    }
}

// Whether tiles are a wall.
#[tactic(auto, using(crate::proofs::WallFaces::other_length))]
fn is_whole(tiles: &[Tile], red: bool) -> bool
    ensures { result ≡ is_wall red tiles.now }
{
    tiles.len() == TILES && counts(tiles) == copies(red)
}

// The first place that is wrong in tiles that are no wall.
#[tactic(auto, using(crate::proofs::WallFaces::no_whole_wall), unfolding(crate::specs::Places::bad_place))]
fn wrong_place(tiles: &[Tile], red: bool) -> u32
    requires { is_wall red tiles.now ≡ false }
    ensures { bad_place red tiles.now ≡ Some result }
{
    if let Some(place) = extra_tile(tiles, red) {
        return place;
    }
    if tiles.len() < TILES {
        return tiles.len() as u32;
    }
    136
}

// How many tiles there are of each face, of no more than 255.
fn counts(tiles: &[Tile]) -> [u8; FACES]
    requires { length tiles.now ≤ 255 }
    ensures { result ≡ face_counts tiles.now }
{
    let mut counts = [0; FACES];
    for tile in tiles {
        counts[usize::from(tile.face())] += 1;
    }
    counts
}

// How many tiles of each face a wall has.
fn copies(red: bool) -> [u8; FACES]
    ensures { result ≡ map (number_in_wall red) (range_with_len 0 37) }
{
    let five = if red { 3 } else { 4 };
    let red_five = u8::from(red);
    let mut copies = [4; FACES];
    copies[4] = five;
    copies[13] = five;
    copies[22] = five;
    copies[34] = red_five;
    copies[35] = red_five;
    copies[36] = red_five;
    copies
}

// The first place of a tile that is one too many of its face.
fn extra_tile(tiles: &[Tile], red: bool) -> Option<u32>
    ensures value { result ≡ first_extra red [] tiles.now }
{
    let mut left = copies(red);
    for (i, tile) in tiles.iter().enumerate() {
        let face = usize::from(tile.face());
        if left[face] == 0 {
            return Some(i as u32);
        }
        left[face] -= 1;
    }
    None
}
