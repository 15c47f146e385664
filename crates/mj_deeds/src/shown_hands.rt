ghost use Rattle.std.specs.Prelude.{◌≡◌, ◌≤◌, IfOk};
ghost use Rattle.mj_deeds.specs.Four.{at_seat};
ghost use Rattle.mj_deeds.specs.Shown.{shown_or_hidden, tiles_shown, number_hidden};

use crate::four::Four;
use crate::hands::Hands;
use mj_tiles::Tile;
use std::alloc::{AllocError, Global};
use std::marker::Model;

/// What is seen of four hands at a draw, in order of the seats 0 to 3: of each its tiles, or how many tiles stay hidden.
#[derive(Drop)]
pub struct ShownHands {
    parts: Box<Parts>,
}

// The tiles of each hand, and how many stay hidden, where they do.
#[derive(Drop)]
struct Parts {
    tiles: Hands,
    hidden: Four<Option<u8>>,
}

impl Model for ShownHands {
    ghost use Rattle.std.specs.Prelude.{ℕ, List};
    ghost use Rattle.mj_deeds.specs.declared.four.Four.{Four};
    ghost use Rattle.mj_deeds.specs.Shown.{Shown, shown_or_hidden};

    ghost Value = { Four Shown };

    ghost view = { λ s. record {
      first = shown_or_hidden s.parts.value.hidden.first s.parts.value.tiles.first;
      second = shown_or_hidden s.parts.value.hidden.second s.parts.value.tiles.second;
      third = shown_or_hidden s.parts.value.hidden.third s.parts.value.tiles.third;
      fourth = shown_or_hidden s.parts.value.hidden.fourth s.parts.value.tiles.fourth;
    } };
}

impl ShownHands {
    /// Of each seat its tiles, or where a number stands for it so many hidden ones. `Err` is running out of memory.
    pub fn of(
        alloc: Global,
        tiles: Hands,
        hidden: Four<Option<u8>>,
    ) -> Result<ShownHands, AllocError>
        ensures { IfOk result (λ s. s ≡ record {
          first = shown_or_hidden hidden.first tiles.first;
          second = shown_or_hidden hidden.second tiles.second;
          third = shown_or_hidden hidden.third tiles.third;
          fourth = shown_or_hidden hidden.fourth tiles.fourth;
        }) }
    {
        let parts = Box::new(alloc, Parts { tiles, hidden })?;
        Ok(ShownHands { parts })
    }

    /// How many tiles of a seat, 0 to 3, stay hidden; None exactly where its hand is shown.
    pub fn hidden(&self, seat: u8) -> Option<u8>
        requires { seat ≤ 3 }
        ensures { result ≡ number_hidden (at_seat self.now seat) }
    {
        *self.parts.hidden.at(seat)
    }

    /// The tiles that are shown of a seat, 0 to 3; none where its hand stays hidden.
    pub fn at(&self, seat: u8) -> &[Tile]
        requires { seat ≤ 3 }
        ensures { result.now ≡ tiles_shown (at_seat self.now seat) }
    {
        match self.parts.hidden.at(seat) {
            None => self.parts.tiles.at(seat),
            Some(_) => &[],
        }
    }

    /// A copy of what is shown.
    pub fn copy(&self) -> Result<ShownHands, AllocError>
        ensures { IfOk result (λ s. s ≡ self.now) }
    {
        let alloc = *Box::allocator(&self.parts);
        ShownHands::of(alloc, self.parts.tiles.copy()?, self.parts.hidden)
    }
}
