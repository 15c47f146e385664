ghost use Rattle.std.specs.Prelude.{◌≡◌, ◌<◌, ◌+◌, ◌^◌, IfOk, IsTrue, length};
ghost use Rattle.std.specs.List.{list_all};
ghost use Rattle.mj_wall.specs.Places.{is_wall};
ghost use Rattle.mj_wall.specs.Shuffle.{shuffled_walls, shuffled_from as walls_from};

use crate::wall::Wall;
use std::alloc::{AllocError, Global};
use std::marker::Model;

/// The rules of a game that may differ: the limit of a window in milliseconds, from 1 to 3600000, whether the four
/// draw reasons and the draw of nine kinds are in force, and whether there are red fives.
#[derive(Clone, Copy, Debug, PartialEq, Eq)]
pub struct Rules {
    pub limit: u64,
    pub draws: bool,
    pub red: bool,
}

/// The walls of a game, in the order in which the hands take them.
#[derive(Drop)]
pub struct Walls {
    items: Vec<Wall>,
}

impl Model for Walls {
    ghost use Rattle.std.specs.Prelude.{ℕ, List};

    ghost Value = { List (List ℕ) };

    ghost view = { λ w. w.items.items };
}

impl Walls {
    /// The list of these walls.
    pub fn from_vec(items: Vec<Wall>) -> Walls
        ensures { result ≡ items.items }
    {
        Walls { items }
    }

    /// The first walls of a seed of 32 bytes, so many of them.
    #[tactic(auto, unfolding(crate::specs::Shuffle::shuffled_from))]
    pub fn shuffled(
        alloc: Global,
        seed: [u8; 32],
        number: u64,
        red: bool,
    ) -> Result<Walls, AllocError>
        ensures value { IfOk result (λ walls. walls ≡ shuffled_walls seed red number) }
        ensures many { IfOk result (λ walls. length walls ≡ number) }
        ensures whole { IfOk result (λ walls. IsTrue (list_all (is_wall red) walls)) }
    {
        Walls::shuffled_from(alloc, seed, 0, number, red)
    }

    /// The walls of a seed of 32 bytes from wall `first` on, so many of them; `first` and `number` together are below 2^64.
    pub fn shuffled_from(
        alloc: Global,
        seed: [u8; 32],
        first: u64,
        number: u64,
        red: bool,
    ) -> Result<Walls, AllocError>
        requires { first + number < 2 ^ 64 }
        ensures value { IfOk result (λ walls. walls ≡ walls_from seed red first number) }
        ensures many { IfOk result (λ walls. length walls ≡ number) }
        ensures whole { IfOk result (λ walls. IsTrue (list_all (is_wall red) walls)) }
    {
        let mut items = Vec::new(alloc);
        for n in first..first + number {
            items.push(Wall::shuffled(seed, n, red))?;
        }
        Ok(Walls { items })
    }

    /// Its walls, in order.
    pub fn as_slice(&self) -> &[Wall]
        ensures { result.now ≡ self.now }
    {
        self.items.as_slice()
    }
}

/// What a game is played with.
#[derive(Drop)]
pub struct Setting {
    pub walls: Walls,
    pub rules: Rules,
}
