ghost use Rattle.std.specs.Prelude.{◌≡◌, ◌≤◌};
ghost use Rattle.mj_deeds.specs.Four.{at_seat};
ghost use Rattle.mj_deeds.specs.Shown.{shown_or_hidden, tiles_shown, number_hidden};

use mj_deeds::{Four, Hands};
use mj_tiles::Tile;
use std::marker::Model;

/// What a viewer sees of four dealt hands, in order of the seats 0 to 3: of each its tiles, or how many tiles are hidden.
#[derive(Drop)]
pub struct SeenHands {
    tiles: Hands,
    hidden: Four<Option<usize>>,
}

impl Model for SeenHands {
    ghost use Rattle.std.specs.Prelude.{ℕ, List};
    ghost use Rattle.mj_deeds.specs.declared.four.Four.{Four};
    ghost use Rattle.mj_deeds.specs.Shown.{Shown, shown_or_hidden};

    ghost Value = { Four Shown };

    ghost view = { λ s. record {
      first = shown_or_hidden s.hidden.first s.tiles.first;
      second =
          shown_or_hidden s.hidden.second s.tiles.second;
      third = shown_or_hidden s.hidden.third
          s.tiles.third;
      fourth = shown_or_hidden s.hidden.fourth s.tiles.fourth;
    } };
}

impl SeenHands {
    /// Of each seat its tiles, or where a number stands for it so many hidden ones.
    pub fn of(tiles: Hands, hidden: Four<Option<usize>>) -> SeenHands
        ensures { result ≡ record {
          first = shown_or_hidden hidden.first tiles.first;
          second =
              shown_or_hidden hidden.second tiles.second;
          third = shown_or_hidden hidden.third
              tiles.third;
          fourth = shown_or_hidden hidden.fourth tiles.fourth;
        } }
    {
        SeenHands { tiles, hidden }
    }

    /// How many tiles of a seat, 0 to 3, are hidden; None exactly where its hand is seen.
    pub fn hidden(&self, seat: u8) -> Option<usize>
        requires { seat ≤ 3 }
        ensures { result ≡ number_hidden (at_seat self.now seat) }
    {
        *self.hidden.at(seat)
    }

    /// The tiles that are seen of a seat, 0 to 3; none where its hand is hidden.
    pub fn at(&self, seat: u8) -> &[Tile]
        requires { seat ≤ 3 }
        ensures { result.now ≡ tiles_shown (at_seat self.now seat) }
    {
        match self.hidden.at(seat) {
            None => self.tiles.at(seat),
            Some(_) => &[],
        }
    }
}
