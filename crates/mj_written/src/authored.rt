//! A game that knows whether its authors are few.

ghost use Rattle.std.specs.Prelude.{◌≡◌, []};
ghost use Rattle.mj_written.specs.Authors.{IsNew, are_below, stays_below};

use mj_journal::{Entering, Outcome, expiry_outcome, gone_outcome, said_outcome, sit_outcome};
use mj_ports::{Expiry, Heard, Left, SitAnswer};
use std::alloc::Global;
use std::marker::Model;

/// A game that knows whether the author of each of its entries is below a number.
#[derive(Drop)]
pub(crate) struct Authored<G: Entering> {
    game: G,
    authors: u8,
    below: bool,
}

impl<G: Entering> Model for Authored<G> {
    ghost use Rattle.std.specs.Prelude.{◌≡◌};
    ghost use Rattle.mj_written.specs.Authors.{Signed, are_below};

    ghost Value = { Signed G };

    ghost view = { λ a. record { game = a.game; authors = a.authors; below = a.below } };

    ghost invariant = { λ a. a.below ≡ are_below a.authors (G.history a.game) };
}

impl<G: Entering> Authored<G> {
    /// A game without entries.
    pub(crate) fn new(game: G, authors: u8) -> Authored<G>
        requires { G.history game ≡ [] }
        ensures { IsNew game authors result }
    {
        Authored {
            game,
            authors,
            below: true,
        }
    }

    /// The game, and whether each author is below the number.
    pub(crate) fn into_parts(self) -> (G, bool)
        ensures game { result.0 ≡ self.game }
        ensures below { result.1 ≡ are_below self.authors (G.history self.game) }
    {
        (self.game, self.below)
    }
}

impl<G: Entering> Entering for Authored<G> {
    // With the number.
    type Setting = (G::Setting, u8);

    type Answer = G::Answer;

    type Rule = G::Rule;

    ghost setting = { λ a. (G.setting a.game, a.authors) };

    ghost history = { λ a. G.history a.game };

    ghost reads = { G.reads };

    ghost joins = { G.joins };

    ghost after = { λ s. G.after s.0 };

    ghost sits = { λ s. G.sits s.0 };

    ghost hears = { λ s. G.hears s.0 };

    ghost expires = { λ s. G.expires s.0 };

    fn sit(&mut self, alloc: Global, author: u8, line: &[u8]) -> SitAnswer {
        let answer = self.game.sit(alloc, author, line);
        self.below = stays_below(sit_outcome(&answer), self.below, author, self.authors);
        answer
    }

    fn said(&mut self, alloc: Global, author: u8, seat: u8, line: &[u8]) -> Heard<G::Rule> {
        let heard = self.game.said(alloc, author, seat, line);
        self.below = stays_below(said_outcome(&heard), self.below, author, self.authors);
        heard
    }

    fn gone(&mut self, alloc: Global, author: u8, seat: u8) -> Left {
        let left = self.game.gone(alloc, author, seat);
        self.below = stays_below(gone_outcome(&left), self.below, author, self.authors);
        left
    }

    fn expire(&mut self, alloc: Global, author: u8, window: u32, t1: u64, t2: u64) -> Expiry {
        let expiry = self.game.expire(alloc, author, window, t1, t2);
        self.below = stays_below(expiry_outcome(&expiry), self.below, author, self.authors);
        expiry
    }

    fn due(&self, seat: u8) -> u32 {
        self.game.due(seat)
    }

    fn deeds(&self) -> u32 {
        self.game.deeds()
    }

    fn author(&self, seat: u8) -> Option<u8> {
        self.game.author(seat)
    }
}

// Whether all authors are below a number after a call of this author.
fn stays_below(outcome: Outcome, below: bool, author: u8, authors: u8) -> bool
    ensures { result ≡ stays_below outcome below author authors }
{
    match outcome {
        Outcome::Entered => below && author < authors,
        Outcome::Nothing => below,
        Outcome::NoMemory => below,
    }
}
