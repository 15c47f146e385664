ghost use Rattle.std.specs.Prelude.{◌≡◌, ℕ, ◌≤◌, ◌<◌, length, [], Some, None, true, is_some, IfOk, MatchOption, OnOk, OnErr, IsTrue};
ghost use Rattle.std.specs.List.{list_all};
ghost use Rattle.mj_bytes.specs.Adds.{Adds};
ghost use Rattle.mj_wall.specs.Places.{is_wall};
ghost use Rattle.mj_forms.specs.AnswerForms.{answer_of, join_of};
ghost use Rattle.mj_history.specs.Legal.{IsLegal, can_say, is_over};
ghost use Rattle.mj_history.specs.Shown.{control_line, line_at, sits_of, expires_of};
ghost use Rattle.mj_umpire.specs.Calls.{IsSitAnswer, Foresees, IsHeard, IsLeft, IsExpiry, after_of, is_here, author_of_seat, due_of, open_window, may_say_at, pending_at, line_of, record_of};

use crate::streamed::Streamed;
use mj_bytes::push_all;
use mj_deeds::Rule;
use mj_ports::Control;
use mj_table::Table;
use mj_umpire::{Expiry, Heard, Left, SitAnswer, Umpire, write_control};
use mj_wall::{Rules, Setting, Wall, Walls};
use std::alloc::{AllocError, Global};
use std::marker::Model;

/// One game: what it is played with, and all that was entered so far, with the lines that its four seats are told.
#[derive(Drop)]
pub struct Core {
    umpire: Umpire<Streamed>,
}

impl Model for Core {
    ghost use Rattle.mj_history.specs.Legal.{Game};

    ghost Value = { Game };

    ghost view = { λ c. c.umpire };
}

impl Core {
    /// A game before its first entry, with 1 to 200 walls, which have red fives exactly where the rules say so, and a
    /// limit from 1 to 3600000 milliseconds.
    pub fn new(alloc: Global, walls: Vec<Wall>, rules: Rules) -> Result<Core, AllocError>
        requires some { 1 ≤ length walls.items }
        requires few { length walls.items ≤ 200 }
        requires whole { IsTrue (list_all (is_wall rules.red) walls.items) }
        requires shortest { 1 ≤ rules.limit }
        requires longest { rules.limit ≤ 3600000 }
        ensures { IfOk result (λ core. core
            ≡ record { setting = record { walls = walls.items; rules = rules }; entries = [] }) }
    {
        Core::with_walls(alloc, Walls::from_vec(walls), rules)
    }

    /// A game before its first entry, as `new` makes it, with a list of walls.
    pub fn with_walls(alloc: Global, walls: Walls, rules: Rules) -> Result<Core, AllocError>
        requires some { 1 ≤ length walls }
        requires few { length walls ≤ 200 }
        requires whole { IsTrue (list_all (is_wall rules.red) walls) }
        requires shortest { 1 ≤ rules.limit }
        requires longest { rules.limit ≤ 3600000 }
        ensures { IfOk result (λ core. core
            ≡ record { setting = record { walls = walls; rules = rules }; entries = [] }) }
    {
        let told = Streamed::new(alloc, rules)?;
        let umpire = Umpire::new(alloc, walls, rules, told)?;
        Ok(Core { umpire })
    }

    /// A line that wants a seat: the next seat is given under the name and key of the line, or a seat that is gone is
    /// taken back by them, or it is said why neither is: the line is no join, the game is over, or what the table of
    /// sitting says. The author is the number of the worker that enters it.
    pub fn sit(&mut self, alloc: Global, author: u8, line: &[u8]) -> SitAnswer
        ensures { IsSitAnswer result self.old self.new author (join_of line.now) }
    {
        self.umpire.sit(alloc, author, line)
    }

    /// What `sit` would answer now if memory is had after the line is read. Nothing changes.
    pub fn would_sit(&self, alloc: Global, line: &[u8]) -> SitAnswer
        ensures { Foresees result (sits_of self.now.setting self.now.entries line.now)
            (join_of line.now) }
    {
        self.umpire.would_sit(alloc, line)
    }

    /// A line of a seat, 0 to 3, which is present by this author and whose due deed exists. The answer that the line
    /// reads as is entered and judged; the sixteenth that is refused to one deed makes the seat gone.
    pub fn said(&mut self, alloc: Global, author: u8, seat: u8, line: &[u8]) -> Heard
        requires { can_say (after_of self.old) author seat ≡ true }
        ensures { IsHeard result self.old self.new author seat (answer_of line.now) }
    {
        self.umpire.said(alloc, author, seat, line)
    }

    /// The seat, which is present by this author, is gone.
    pub fn gone(&mut self, alloc: Global, author: u8, seat: u8) -> Left
        requires { is_here self.old author seat ≡ true }
        ensures { IsLeft result self.old self.new author seat }
    {
        self.umpire.gone(alloc, author, seat)
    }

    /// The time of a window may have run out between two readings of a clock, in milliseconds: stale exactly where the
    /// window isn't the open one, and early exactly where it is and less time than the limit lies between the readings.
    pub fn expire(&mut self, alloc: Global, author: u8, window: u32, t1: u64, t2: u64) -> Expiry
        ensures { IsExpiry result self.old self.new author window t1 t2 }
    {
        self.umpire.expire(alloc, author, window, t1, t2)
    }

    /// What `expire` would come to now if memory is had. Nothing changes.
    pub fn would_expire(&self, window: u32, t1: u64, t2: u64) -> Expiry
        ensures { result ≡ expires_of self.now.setting self.now.entries window t1 t2 }
    {
        self.umpire.would_expire(window, t1, t2)
    }

    /// Whether a seat is present.
    pub fn present(&self, seat: u8) -> bool
        ensures { result ≡ is_some (author_of_seat self.now seat) }
    {
        self.umpire.present(seat)
    }

    /// The author by whom a seat is present; None exactly where it isn't.
    pub fn author(&self, seat: u8) -> Option<u8>
        ensures { result ≡ author_of_seat self.now seat }
    {
        self.umpire.author(seat)
    }

    /// The number of the deed that a seat's next line answers; 0 for a seat that isn't held.
    pub fn due(&self, seat: u8) -> u32
        ensures { result ≡ due_of self.now seat }
    {
        self.umpire.due(seat)
    }

    /// The number of deeds.
    pub fn deeds(&self) -> u32
        ensures { result ≡ length (after_of self.now).deeds }
    {
        self.umpire.deeds()
    }

    /// The table that stands for the deeds so far.
    pub fn table(&self) -> &Table
        ensures { result.now ≡ record { rules = self.now.setting.rules; deeds = (after_of self.now).deeds } }
    {
        self.umpire.table()
    }

    /// The number of the open window, that of the newest deed; None exactly before the first deed and after the game's
    /// end.
    pub fn open(&self) -> Option<u32>
        ensures { result ≡ open_window (after_of self.now).deeds }
    {
        self.umpire.open()
    }

    /// Whether the game has ended.
    pub fn over(&self) -> bool
        ensures { result ≡ is_over (after_of self.now).deeds }
    {
        self.umpire.over()
    }

    /// The number of entries, each of which is permitted where it stands.
    pub fn entries(&self) -> u64
        ensures number { result ≡ length self.now.entries }
        ensures legal { IsLegal self.now.setting self.now.entries }
    {
        self.umpire.entries()
    }

    /// Whether a seat is present and the deed that its next line answers exists.
    pub fn may_say(&self, seat: u8) -> bool
        ensures asked { result ≡ may_say_at self.now seat }
        ensures by_author { result ≡ true → (author : ℕ)
            → author_of_seat self.now seat ≡ Some author
            → can_say (after_of self.now) author seat ≡ true }
    {
        self.umpire.may_say(seat)
    }

    /// Writes after what stands in `into` what is still to be told to a seat: the line of its due deed as soon as that
    /// deed exists, unless an answer to it was refused. For a seat that isn't present there is nothing.
    pub fn pending(&self, seat: u8, into: &mut Vec<u8>) -> Result<(), AllocError>
        ensures ok { OnOk result (Adds into.old.items into.new.items (pending_at self.now seat)) }
        ensures err { OnErr result (into.new.items ≡ into.old.items) }
    {
        match self.umpire.owed(seat) {
            Some(k) => self.push_line(seat, k, into),
            None => Ok(()),
        }
    }

    /// Line `k` of a seat, 0 to 3, as it was rendered when its deed was added; None exactly where there is no deed `k` yet.
    pub fn line(&self, seat: u8, k: u32) -> Option<&[u8]>
        requires { seat < 4 }
        ensures { MatchOption result (length (after_of self.now).deeds ≤ k)
            (λ l. (k < length (after_of self.now).deeds)
            × (l.now ≡ line_at self.now.setting.rules (after_of self.now).deeds seat k)) }
    {
        self.umpire.told().line(seat, k)
    }

    /// Writes a line that is no deed's after what stands in `into`: the first line of a connection, the head of the lines
    /// that are told again after a return, or why an answer or a seat is refused. The only error is running out of memory, and
    /// then the text stays as it was.
    pub fn control(
        &self,
        alloc: Global,
        control: &Control<Rule>,
        into: &mut Vec<u8>,
    ) -> Result<(), AllocError>
        ensures ok { OnOk result (Adds into.old.items into.new.items (control_line control.now)) }
        ensures err { OnErr result (into.new.items ≡ into.old.items) }
    {
        write_control(alloc, control, into)
    }

    /// Writes the record of the game after what stands in `into`: the header with its rules, a line for each of its walls, and
    /// the record's line of each deed so far, which hides nothing. The only error is running out of memory, and then the text stays as
    /// it was.
    pub fn record(&self, alloc: Global, into: &mut Vec<u8>) -> Result<(), AllocError>
        ensures ok { OnOk result (Adds into.old.items into.new.items (record_of self.now)) }
        ensures err { OnErr result (into.new.items ≡ into.old.items) }
    {
        self.umpire.record(alloc, into)
    }

    // Writes the line of a seat with this number, where there is one.
    #[tactic(auto, using(crate::proofs::KeptLines::no_line))]
    fn push_line(&self, seat: u8, k: u32, into: &mut Vec<u8>) -> Result<(), AllocError>
        requires { seat < 4 }
        ensures ok { OnOk result (Adds into.old.items into.new.items (line_of self.now seat k)) }
        ensures err { OnErr result (into.new.items ≡ into.old.items) }
    {
        match self.line(seat, k) {
            Some(line) => push_all(into, line),
            None => Ok(()),
        }
    }
}
