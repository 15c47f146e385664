ghost use Rattle.std.specs.Prelude.{◌≡◌, ℕ, ◌<◌, ◌≤◌, List, length, slice_index};
ghost use Rattle.std.specs.Option.{SomeIff};
ghost use Rattle.mj_tiles.specs.Counts.{NoFifth, kind_counts};

use crate::kind::Kind;
use crate::numbers::KINDS;
use crate::tile::Tile;
use std::marker::Model;

/// How many tiles of each of the 34 kinds there are, none of them more than four times.
#[derive(Clone, Copy, Debug, PartialEq, Eq)]
pub struct Counts {
    numbers: [u8; KINDS],
}

impl Model for Counts {
    ghost use Rattle.std.specs.Prelude.{ℕ, List};
    ghost use Rattle.mj_tiles.specs.Counts.{IsCounts};

    ghost Value = { List ℕ };

    ghost view = { λ c. c.numbers };

    ghost invariant = { λ c. IsCounts c.numbers };

    ghost inverse = { λ numbers. record { numbers = numbers } };
}

impl Counts {
    /// The counts that have these numbers, by kind; none exactly where one of them is above 4.
    pub fn of(numbers: [u8; KINDS]) -> Option<Counts>
        ensures { SomeIff result (NoFifth numbers) numbers }
    {
        for number in numbers {
            if number > 4 {
                return None;
            }
        }
        Some(Counts { numbers })
    }

    /// The counts that have these numbers, by kind. Condition: none of them is above 4.
    pub fn from_numbers(numbers: [u8; KINDS]) -> Counts
        requires { NoFifth numbers }
        ensures { result ≡ numbers }
    {
        Counts { numbers }
    }

    /// How many tiles of the kind there are, 0 to 4.
    pub fn get(&self, kind: Kind) -> u8
        ensures value { result ≡ slice_index self.now kind }
        ensures within { result ≤ 4 }
    {
        self.numbers[kind.number() as usize]
    }

    /// The 34 numbers by kind, each 0 to 4.
    pub fn numbers(&self) -> &[u8; KINDS]
        ensures value { result.now ≡ self.now }
        ensures size { length self.now ≡ 34 }
        ensures within { NoFifth self.now }
    {
        &self.numbers
    }
}

/// How often each kind stands among the tiles, a red five as a five of its suit; none exactly where a kind stands
/// more than four times.
pub fn counts_of(tiles: &[Tile]) -> Option<Counts>
    ensures { SomeIff result (NoFifth (kind_counts tiles.now)) (kind_counts tiles.now) }
{
    let mut numbers = [0; KINDS];
    for tile in tiles {
        let place = tile.kind().number() as usize;
        if numbers[place] == 4 {
            return None;
        }
        numbers[place] += 1;
    }
    Some(Counts { numbers })
}
