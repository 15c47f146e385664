ghost use Rattle.std.specs.Prelude.{◌≡◌, ℕ, ◌<◌, List, Option, Some};
ghost use Rattle.mj_ports.specs.declared.entry.Entry.{Entry};
ghost use Rattle.mj_ports.specs.declared.sitting.JoinLine.{JoinLine};
ghost use Rattle.mj_ports.specs.declared.answers.SitAnswer.{SitAnswer};
ghost use Rattle.mj_ports.specs.declared.answers.Heard.{Heard};
ghost use Rattle.mj_ports.specs.declared.answers.Expiry.{Expiry};
ghost use Rattle.mj_ports.specs.SeatCalls.{AnswersSit, AnswersSaid, AnswersGone, AnswersExpiry};
ghost use Rattle.mj_ports.specs.Seats.{Showing};

use mj_ports::{Expiry, Heard, Left, Seated, SitAnswer};
use std::alloc::Global;

/// A game whose entries a journal keeps: the calls of `Seated` that enter something, and what they ask for. It need tell no lines, so
/// every game that is `Seated` is one.
pub trait Entering: Drop + Send {
    /// What stays the same in a game. No value of it need exist.
    type Setting: Drop + Send;

    /// What a line of a seat reads as.
    type Answer: Drop + Send;

    /// What is named to a seat whose answer is refused.
    type Rule: Drop + Send;

    ghost setting: { Self → Self.Setting };

    // The entries, the oldest first.
    ghost history: { Self → List (Entry Self.Answer) };

    // What a line of a seat reads as, and what a line that wants a seat asks.
    ghost reads: { List ℕ → Self.Answer };

    ghost joins: { List ℕ → Option JoinLine };

    // What entries come to.
    ghost after: { Self.Setting → List (Entry Self.Answer) → Showing };

    // What a line that wants a seat, an answer of a seat by an author, and an expiry with its two readings come to.
    ghost sits: { Self.Setting → List (Entry Self.Answer) → List ℕ → SitAnswer };

    ghost hears: { Self.Setting → List (Entry Self.Answer) → ℕ → ℕ → Self.Answer
        → Heard Self.Rule };

    ghost expires: { Self.Setting → List (Entry Self.Answer) → ℕ → ℕ → ℕ → Expiry };

    /// Gives a seat for the line, or says why not.
    fn sit(&mut self, alloc: Global, author: u8, line: &[u8]) -> SitAnswer
        ensures setting { setting self.new ≡ setting self.old }
        ensures entries { AnswersSit (history self.old) (history self.new) result
            (sits (setting self.old) (history self.old) line.now) author (joins line.now) };

    /// Enters what the seat says, which is present by this author and whose due deed exists.
    fn said(&mut self, alloc: Global, author: u8, seat: u8, line: &[u8]) -> Heard<Self::Rule>
        requires seat { seat < 4 }
        requires present { (after (setting self.old) (history self.old)).present seat
            ≡ Some author }
        requires due { (after (setting self.old) (history self.old)).due seat
            < (after (setting self.old) (history self.old)).deeds }
        ensures setting { setting self.new ≡ setting self.old }
        ensures entries { AnswersSaid (history self.old) (history self.new) result
            (hears (setting self.old) (history self.old) author seat (reads line.now)) author seat
            (reads line.now) };

    /// Enters that the seat, which is present by this author, is gone.
    fn gone(&mut self, alloc: Global, author: u8, seat: u8) -> Left
        requires seat { seat < 4 }
        requires present { (after (setting self.old) (history self.old)).present seat
            ≡ Some author }
        ensures setting { setting self.new ≡ setting self.old }
        ensures entries { AnswersGone (history self.old) (history self.new) result author seat };

    /// Closes the window if it is the open one and its time has run out between the two readings.
    fn expire(&mut self, alloc: Global, author: u8, window: u32, t1: u64, t2: u64) -> Expiry
        ensures setting { setting self.new ≡ setting self.old }
        ensures entries { AnswersExpiry (history self.old) (history self.new) result
            (expires (setting self.old) (history self.old) window t1 t2) author window t1 t2 };

    /// The number of the deed that the seat's next line answers.
    fn due(&self, seat: u8) -> u32
        requires { seat < 4 }
        ensures { result ≡ (after (setting self.now) (history self.now)).due seat };

    /// The number of deeds.
    fn deeds(&self) -> u32
        ensures { result ≡ (after (setting self.now) (history self.now)).deeds };

    /// The author by whom the seat is present; None exactly where it isn't.
    fn author(&self, seat: u8) -> Option<u8>
        requires { seat < 4 }
        ensures { result ≡ (after (setting self.now) (history self.now)).present seat };
}

impl<G: Seated> Entering for G {
    type Setting = G::Setting;

    type Answer = G::Answer;

    type Rule = G::Rule;

    ghost setting = { G.Seated.setting };

    ghost history = { G.Seated.history };

    ghost reads = { G.Seated.reads };

    ghost joins = { G.Seated.joins };

    ghost after = { G.Seated.after };

    ghost sits = { G.Seated.sits };

    ghost hears = { G.Seated.hears };

    ghost expires = { G.Seated.expires };

    fn sit(&mut self, alloc: Global, author: u8, line: &[u8]) -> SitAnswer {
        G::sit(self, alloc, author, line)
    }

    fn said(&mut self, alloc: Global, author: u8, seat: u8, line: &[u8]) -> Heard<G::Rule> {
        G::said(self, alloc, author, seat, line)
    }

    fn gone(&mut self, alloc: Global, author: u8, seat: u8) -> Left {
        G::gone(self, alloc, author, seat)
    }

    fn expire(&mut self, alloc: Global, author: u8, window: u32, t1: u64, t2: u64) -> Expiry {
        G::expire(self, alloc, author, window, t1, t2)
    }

    fn due(&self, seat: u8) -> u32 {
        G::due(self, seat)
    }

    fn deeds(&self) -> u32 {
        G::deeds(self)
    }

    fn author(&self, seat: u8) -> Option<u8> {
        G::author(self, seat)
    }
}
