ghost use Rattle.std.specs.Prelude.{◌≡◌, ℕ, ◌+◌, ◌<◌, ◌≤◌, true, List, [], ◌∷◌, ◌++◌, length, Option, Some, None, MatchOption, is_some, OnOk, OnErr};
ghost use Rattle.mj_ports.specs.declared.entry.Entry.{Entry};
ghost use Rattle.mj_ports.specs.declared.entry.Entry.TheVariants.{Sat, Back, Said, Gone};
ghost use Rattle.mj_ports.specs.declared.sitting.JoinLine.{JoinLine};
ghost use Rattle.mj_ports.specs.declared.answers.SitAnswer.{SitAnswer};
ghost use Rattle.mj_ports.specs.declared.answers.Heard.{Heard};
ghost use Rattle.mj_ports.specs.declared.answers.Expiry.{Expiry};
ghost use Rattle.mj_ports.specs.declared.answers.Control.{Control};
ghost use Rattle.mj_ports.specs.Entries.{next_seat, IsAside};
ghost use Rattle.mj_ports.specs.SeatCalls.{AnswersSit, AnswersSaid, AnswersGone, AnswersExpiry, IsRefused};
ghost use Rattle.mj_ports.specs.Seats.{Showing, Stays, StaysEnded, Unmoved, Begins, Answers, Leaves, Adds, hello, replay};

use crate::answers::{Control, Expiry, Heard, Left, SitAnswer};
use std::alloc::{AllocError, Global};

/// A game of four seats, 0 to 3, that workers play by entries, each with the number of its author.
///
/// Contracts see its setting, which never changes, and its entries, the oldest first. All else is a function of these
/// two: what they come to, and what each call answers unless memory is wanting. Deeds, windows and lines are numbered
/// from 0, and times are in milliseconds.
pub trait Seated: Drop + Send {
    /// What stays the same in a game. No value of it need exist.
    type Setting: Drop + Send;

    /// What a line of a seat reads as.
    type Answer: Drop + Send;

    /// What is named to a seat whose answer is refused.
    type Rule: Drop + Send;

    ghost setting: { Self → Self.Setting };

    // The entries, the oldest first.
    ghost history: { Self → List (Entry Self.Answer) };

    // What a line of a seat reads as, and what a line that wants a seat asks.
    ghost reads: { List ℕ → Self.Answer };

    ghost joins: { List ℕ → Option JoinLine };

    // What entries come to.
    ghost after: { Self.Setting → List (Entry Self.Answer) → Showing };

    // Each entry is permitted where it stands.
    ghost is_legal: { Self.Setting → List (Entry Self.Answer) → Type 0 };

    // What a line that wants a seat, an answer of a seat by an author, and an expiry with its two readings come to.
    ghost sits: { Self.Setting → List (Entry Self.Answer) → List ℕ → SitAnswer };

    ghost hears: { Self.Setting → List (Entry Self.Answer) → ℕ → ℕ → Self.Answer
        → Heard Self.Rule };

    ghost expires: { Self.Setting → List (Entry Self.Answer) → ℕ → ℕ → ℕ → Expiry };

    // The bytes of lines that are no deed's.
    ghost says: { Control Self.Rule → List ℕ };

    /// Gives a seat for the line, or says why not.
    fn sit(&mut self, alloc: Global, author: u8, line: &[u8]) -> SitAnswer
        ensures setting { setting self.new ≡ setting self.old }
        ensures entries { AnswersSit (history self.old) (history self.new) result
            (sits (setting self.old) (history self.old) line.now) author (joins line.now) };

    /// Enters what the seat says, which is present by this author and whose due deed exists.
    fn said(&mut self, alloc: Global, author: u8, seat: u8, line: &[u8]) -> Heard<Self::Rule>
        requires seat { seat < 4 }
        requires present { (after (setting self.old) (history self.old)).present seat
            ≡ Some author }
        requires due { (after (setting self.old) (history self.old)).due seat
            < (after (setting self.old) (history self.old)).deeds }
        ensures setting { setting self.new ≡ setting self.old }
        ensures entries { AnswersSaid (history self.old) (history self.new) result
            (hears (setting self.old) (history self.old) author seat (reads line.now)) author seat
            (reads line.now) };

    /// Enters that the seat, which is present by this author, is gone.
    fn gone(&mut self, alloc: Global, author: u8, seat: u8) -> Left
        requires seat { seat < 4 }
        requires present { (after (setting self.old) (history self.old)).present seat
            ≡ Some author }
        ensures setting { setting self.new ≡ setting self.old }
        ensures entries { AnswersGone (history self.old) (history self.new) result author seat };

    /// Closes the window if it is the open one and its time has run out between the two readings.
    fn expire(&mut self, alloc: Global, author: u8, window: u32, t1: u64, t2: u64) -> Expiry
        ensures setting { setting self.new ≡ setting self.old }
        ensures entries { AnswersExpiry (history self.old) (history self.new) result
            (expires (setting self.old) (history self.old) window t1 t2) author window t1 t2 };

    /// Line k of a seat; None exactly where there is no such deed yet.
    fn line(&self, seat: u8, k: u32) -> Option<&[u8]>
        requires { seat < 4 }
        ensures { MatchOption result ((after (setting self.now) (history self.now)).deeds ≤ k)
            (λ l. (k < (after (setting self.now) (history self.now)).deeds)
            × (l.now ≡ (after (setting self.now) (history self.now)).text seat k)) };

    /// The number of the deed that the seat's next line answers.
    fn due(&self, seat: u8) -> u32
        requires { seat < 4 }
        ensures { result ≡ (after (setting self.now) (history self.now)).due seat };

    /// The number of deeds.
    fn deeds(&self) -> u32
        ensures { result ≡ (after (setting self.now) (history self.now)).deeds };

    /// Whether the seat is present.
    fn present(&self, seat: u8) -> bool
        requires { seat < 4 }
        ensures { result ≡ is_some ((after (setting self.now) (history self.now)).present seat) };

    /// The author by whom the seat is present; None exactly where it isn't.
    fn author(&self, seat: u8) -> Option<u8>
        requires { seat < 4 }
        ensures { result ≡ (after (setting self.now) (history self.now)).present seat };

    /// The open window; None exactly before the first deed and after the game's end.
    fn open(&self) -> Option<u32>
        ensures { result ≡ (after (setting self.now) (history self.now)).window };

    /// Whether the game has ended.
    fn over(&self) -> bool
        ensures { result ≡ (after (setting self.now) (history self.now)).over };

    /// The number of entries, each of which is permitted where it stands.
    fn entries(&self) -> u64
        ensures number { result ≡ length (history self.now) }
        ensures legal { is_legal (setting self.now) (history self.now) };

    /// Writes a line that is no deed's after what stands in `into`.
    fn control(
        &self,
        alloc: Global,
        control: &Control<Self::Rule>,
        into: &mut Vec<u8>,
    ) -> Result<(), AllocError>
        ensures ok { OnOk result (into.new.items ≡ into.old.items ++ says control.now) }
        ensures err { OnErr result (into.new.items ≡ into.old.items) };

    // What was permitted stays permitted when later entries are left out.
    ghost legal_before: { (s : Self.Setting) (es fs : List (Entry Self.Answer))
        → is_legal s (es ++ fs) → is_legal s es };

    // Lines stay, and the game's end.
    ghost stays: { (s : Self.Setting) (es : List (Entry Self.Answer)) (e : Entry Self.Answer)
        → is_legal s (es ++ e ∷ []) → Stays (after s es) (after s (es ++ e ∷ [])) };

    // A connection that has ended is told nothing more.
    ghost ended: { (s : Self.Setting) (es : List (Entry Self.Answer)) (e : Entry Self.Answer)
        (place : ℕ) → is_legal s (es ++ e ∷ []) → place < length es → (after s es).seat_of place
        ≡ None → StaysEnded place (after s es) (after s (es ++ e ∷ [])) };

    // An entry of another author or seat leaves a present seat alone.
    ghost others: { (s : Self.Setting) (es : List (Entry Self.Answer)) (e : Entry Self.Answer)
        (author seat : ℕ) → is_legal s (es ++ e ∷ []) → (after s es).present seat ≡ Some author
        → IsAside author seat es e → Unmoved seat (after s es) (after s (es ++ e ∷ [])) };

    // A seat that is taken begins a connection with the hello line.
    ghost sat: { (s : Self.Setting) (es : List (Entry Self.Answer)) (author : ℕ) (name : List ℕ)
        (key : Option (List ℕ)) → is_legal s (es ++ Sat author name key ∷ [])
        → Begins author (next_seat es) (length es) 0 (hello says)
        (after s (es ++ Sat author name key ∷ [])) };

    // A seat that is taken back begins one with the hello line, the replay head, and the lines before its due deed.
    ghost back: { (s : Self.Setting) (es : List (Entry Self.Answer)) (author seat : ℕ)
        → is_legal s (es ++ Back author seat ∷ [])
        → Begins author seat (length es) ((after s (es ++ Back author seat ∷ [])).due seat)
        (replay says (after s (es ++ Back author seat ∷ [])) seat)
        (after s (es ++ Back author seat ∷ [])) };

    // An answer of a seat goes by its verdict.
    ghost answers: { (s : Self.Setting) (es : List (Entry Self.Answer)) (author seat : ℕ)
        (answer : Self.Answer) → is_legal s (es ++ Said author seat answer ∷ [])
        → Answers says (hears s es author seat answer) seat (after s es)
        (after s (es ++ Said author seat answer ∷ [])) };

    // A seat that is gone leaves, and its connection is told nothing but what was pending.
    ghost leaves: { (s : Self.Setting) (es : List (Entry Self.Answer)) (author seat : ℕ)
        → is_legal s (es ++ Gone author seat ∷ [])
        → Leaves seat (after s es) (after s (es ++ Gone author seat ∷ []))
        × Adds seat [] (after s es) (after s (es ++ Gone author seat ∷ [])) };

    // Once the game is over, each line that wants a seat is refused.
    ghost closed: { (s : Self.Setting) (es : List (Entry Self.Answer)) (line : List ℕ)
        → (after s es).over ≡ true → IsRefused (sits s es line) };
}
