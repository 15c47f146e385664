ghost use Rattle.std.specs.Prelude.{◌≡◌, ◌≤◌, IfOk};
ghost use Rattle.mj_deeds.specs.Four.{at_seat};

use crate::four::Four;
use crate::tiles::Tiles;
use mj_tiles::Tile;
use std::alloc::{AllocError, Global};
use std::marker::Model;

/// The tiles of four seats, in order of the seats 0 to 3.
#[derive(Drop)]
pub struct Hands {
    hands: Four<Tiles>,
}

impl Model for Hands {
    ghost use Rattle.std.specs.Prelude.{ℕ, List};
    ghost use Rattle.mj_deeds.specs.declared.four.Four.{Four};

    ghost Value = { Four (List ℕ) };

    ghost view = { λ h. h.hands };
}

impl Hands {
    /// The hands of four seats, with these tiles.
    pub fn of(
        alloc: Global,
        first: &[Tile],
        second: &[Tile],
        third: &[Tile],
        fourth: &[Tile],
    ) -> Result<Hands, AllocError>
        ensures { IfOk result (λ h. h
            ≡ record {
              first = first.now;
              second = second.now;
              third = third.now;
              fourth =
                  fourth.now;
            }) }
    {
        Ok(Hands::from_four(Four {
            first: Tiles::of(alloc, first)?,
            second: Tiles::of(alloc, second)?,
            third: Tiles::of(alloc, third)?,
            fourth: Tiles::of(alloc, fourth)?,
        }))
    }

    /// The hands of four seats, with these four lists of tiles.
    pub fn from_four(hands: Four<Tiles>) -> Hands
        ensures { result ≡ hands }
    {
        Hands { hands }
    }

    /// The tiles of a seat, 0 to 3.
    pub fn at(&self, seat: u8) -> &[Tile]
        requires { seat ≤ 3 }
        ensures { result.now ≡ at_seat self.now seat }
    {
        self.hands.at(seat).as_slice()
    }

    /// A copy of the hands.
    pub fn copy(&self) -> Result<Hands, AllocError>
        ensures { IfOk result (λ h. h ≡ self.now) }
    {
        Ok(Hands::from_four(Four {
            first: self.hands.first.copy()?,
            second: self.hands.second.copy()?,
            third: self.hands.third.copy()?,
            fourth: self.hands.fourth.copy()?,
        }))
    }
}
