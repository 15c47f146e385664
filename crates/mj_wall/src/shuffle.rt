ghost use Rattle.std.specs.Prelude.{◌≡◌, ◌<◌, ◌+◌, ◌*◌, ◌%◌, ◌^◌, ◌==◌, ◌&&◌, ◌||◌, true, slice_index};
ghost use Rattle.rand_chacha.specs.ChaCha.{word_at};
ghost use Rattle.mj_wall.specs.Places.{is_wall};
ghost use Rattle.mj_wall.specs.Shuffle.{sorted_wall, shuffled_wall};

use crate::wall::{TILES, Wall};
use mj_tiles::{RED, Tile};
use rand_chacha::ChaCha20Rng;
use rand_core::SeedableRng;
use rand_core::utils::NextWord;

impl Wall {
    /// Wall `n` of a seed of 32 bytes. From the tiles in tile order, for each place from 135 down to 1, the tile there
    /// swaps places with the one at the place that is left when the next number is divided by one more than the place.
    /// A number is two 32-bit words of ChaCha20 with this seed and `n` as the number of the stream, the first of them
    /// the low one.
    pub fn shuffled(seed: [u8; 32], n: u64, red: bool) -> Wall
        ensures value { result ≡ shuffled_wall seed n red }
        ensures whole { is_wall red result ≡ true }
    {
        let mut tiles = sorted(red);
        let mut stream = ChaCha20Rng::from_seed(seed);
        stream.set_stream(n);
        let mut place = 135;
        while place > 0 {
            tiles.swap(place, next_place(&mut stream, place));
            place -= 1;
        }
        Wall { tiles }
    }
}

// The remainder of the next number of a stream, divided by one more than the place.
fn next_place(stream: &mut ChaCha20Rng, place: usize) -> usize
    requires place { place < 136 }
    requires words { stream.old.word_pos < 270 }
    ensures value { let from = stream.old in
        result ≡ (word_at 10 from.key from.stream from.word_pos
        + 2 ^ 32 * word_at 10 from.key from.stream (from.word_pos + 1)) % (place + 1) }
    ensures left { stream.new ≡ record stream.old { word_pos = stream.old.word_pos + 2 } }
{
    let low = u64::from(stream.next_word());
    let high = u64::from(stream.next_word());
    ((low + (high << 32)) % (place as u64 + 1)) as usize
}

// The tiles of a wall in tile order.
fn sorted(red: bool) -> [Tile; TILES]
    ensures { result ≡ sorted_wall red }
{
    let mut tiles = [Tile::at(0); TILES];
    for place in 0..TILES {
        tiles[place] = sorted_tile(place, red);
    }
    tiles
}

// The tile at a place of these: each kind has four places, and with red fives the last one of a five is red.
fn sorted_tile(place: usize, red: bool) -> Tile
    requires { place < 136 }
    ensures { result ≡ slice_index (sorted_wall red) place }
{
    let kind = (place / 4) as u8;
    if is_red_place(place, red) {
        return Tile::at(RED + kind / 9);
    }
    Tile::at(kind)
}

// The last place of a five in a wall with red fives.
fn is_red_place(place: usize, red: bool) -> bool
    ensures { result ≡ (red && (place == 19 || place == 55 || place == 91)) }
{
    red && matches!(place, 19 | 55 | 91)
}
