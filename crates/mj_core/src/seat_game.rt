ghost use Rattle.std.specs.Prelude.{◌≡◌, ◌≤◌, ◌<◌, length, [], true, IfOk, OnOk, OnErr, IsTrue};
ghost use Rattle.std.specs.List.{list_all};
ghost use Rattle.mj_bytes.specs.Adds.{Adds};
ghost use Rattle.mj_deeds.specs.Answers.{is_in_form};
ghost use Rattle.mj_wall.specs.Places.{is_wall};
ghost use Rattle.mj_forms.specs.AnswerForms.{answer_of, join_of};
ghost use Rattle.mj_history.specs.Legal.{can_say};
ghost use Rattle.mj_umpire.specs.Calls.{IsSitAnswer, IsHeard, IsLeft, IsExpiry, after_of, is_here, pending_at, line_of};
ghost use Rattle.mj_core.specs.Inner.Near.{AreNear, AreWhole};

use mj_bytes::push_all;
use mj_deeds::{Answer, Answers};
use mj_streams::SeatLines;
use mj_umpire::{Expiry, Heard, Left, SitAnswer, Umpire, Untold, possible_over};
use mj_wall::{Rules, Wall, Walls};
use mjai_answers::read_answer;
use std::alloc::{AllocError, Global};
use std::marker::Model;

/// A number that is no seat's: nobody is told a game with it.
pub const NOBODY: u8 = 4;

/// A game of which one seat, 0 to 3, is told; any other number is nobody's, and nothing is told then. The line of a deed is
/// rendered as the deed comes, or where memory is wanting then, before the next one does.
#[derive(Drop)]
pub struct SeatGame {
    umpire: Umpire<Untold>,
    seat: u8,
    rendered: Rendered,
}

impl Model for SeatGame {
    ghost use Rattle.mj_core.specs.Told.{ToldGame};
    ghost use Rattle.mj_core.specs.Inner.Near.{AreNear};

    ghost Value = { ToldGame };

    ghost view = { λ c. record { seat = c.seat; game = c.umpire } };

    ghost invariant = { λ c. AreNear c.seat c.umpire c.rendered.lines };
}

impl SeatGame {
    /// A game before its first entry, as `Core::new` makes it, of which this seat is told.
    pub fn new(
        alloc: Global,
        walls: Vec<Wall>,
        rules: Rules,
        seat: u8,
    ) -> Result<SeatGame, AllocError>
        requires some { 1 ≤ length walls.items }
        requires few { length walls.items ≤ 200 }
        requires whole { IsTrue (list_all (is_wall rules.red) walls.items) }
        requires shortest { 1 ≤ rules.limit }
        requires longest { rules.limit ≤ 3600000 }
        ensures { IfOk result (λ told. told ≡ record {
          seat = seat;
          game
              = record { setting = record { walls = walls.items; rules = rules }; entries = [] };
        }) }
    {
        let table = Untold::new(alloc, rules)?;
        let umpire = Umpire::new(alloc, Walls::from_vec(walls), rules, table)?;
        Ok(SeatGame {
            umpire,
            seat,
            rendered: Rendered {
                lines: SeatLines::new(alloc)?,
                list: Answers::pass_alone(),
            },
        })
    }

    /// The seat that is told.
    pub fn seat(&self) -> u8
        ensures { result ≡ self.now.seat }
    {
        self.seat
    }

    /// The game.
    pub fn umpire(&self) -> &Umpire<Untold>
        ensures { result.now ≡ self.now.game }
    {
        &self.umpire
    }

    /// A line that wants a seat, as `sit` of a core takes it.
    pub fn sit(&mut self, alloc: Global, author: u8, line: &[u8]) -> SitAnswer
        ensures sits { IsSitAnswer result self.old.game self.new.game author (join_of line.now) }
        ensures seat { self.new.seat ≡ self.old.seat }
    {
        let Ok(()) = self.rendered.catch_up(alloc, &self.umpire, self.seat) else {
            return SitAnswer::NoMemory;
        };
        let answer = self.umpire.sit(alloc, author, line);
        let _ = self.rendered.catch_up(alloc, &self.umpire, self.seat);
        answer
    }

    /// A line of a seat, as `said` of a core takes it.
    pub fn said(&mut self, alloc: Global, author: u8, seat: u8, line: &[u8]) -> Heard
        requires { can_say (after_of self.old.game) author seat ≡ true }
        ensures hears { IsHeard result self.old.game self.new.game author seat (answer_of line.now) }
        ensures seat { self.new.seat ≡ self.old.seat }
    {
        match read_answer(alloc, line) {
            Ok(answer) => self.hear(alloc, author, seat, &answer),
            Err(_) => Heard::NoMemory,
        }
    }

    /// An answer of a seat, as `hear` of an umpire takes it.
    pub fn hear(&mut self, alloc: Global, author: u8, seat: u8, answer: &Answer) -> Heard
        requires may { can_say (after_of self.old.game) author seat ≡ true }
        requires form { is_in_form answer.now ≡ true }
        ensures hears { IsHeard result self.old.game self.new.game author seat answer.now }
        ensures seat { self.new.seat ≡ self.old.seat }
    {
        let Ok(()) = self.rendered.catch_up(alloc, &self.umpire, self.seat) else {
            return Heard::NoMemory;
        };
        let heard = self.umpire.hear(alloc, author, seat, answer);
        let _ = self.rendered.catch_up(alloc, &self.umpire, self.seat);
        heard
    }

    /// A seat that is present by this author is gone, as `gone` of a core takes it.
    pub fn gone(&mut self, alloc: Global, author: u8, seat: u8) -> Left
        requires { is_here self.old.game author seat ≡ true }
        ensures leaves { IsLeft result self.old.game self.new.game author seat }
        ensures seat { self.new.seat ≡ self.old.seat }
    {
        let Ok(()) = self.rendered.catch_up(alloc, &self.umpire, self.seat) else {
            return Left::NoMemory;
        };
        let left = self.umpire.gone(alloc, author, seat);
        let _ = self.rendered.catch_up(alloc, &self.umpire, self.seat);
        left
    }

    /// The time of a window may have run out, as `expire` of a core takes it.
    pub fn expire(&mut self, alloc: Global, author: u8, window: u32, t1: u64, t2: u64) -> Expiry
        ensures expires { IsExpiry result self.old.game self.new.game author window t1 t2 }
        ensures seat { self.new.seat ≡ self.old.seat }
    {
        let Ok(()) = self.rendered.catch_up(alloc, &self.umpire, self.seat) else {
            return Expiry::NoMemory;
        };
        let expiry = self.umpire.expire(alloc, author, window, t1, t2);
        let _ = self.rendered.catch_up(alloc, &self.umpire, self.seat);
        expiry
    }

    /// Writes after what stands in `into` what is still to be told to the seat, as `pending` of a core does. Where memory was
    /// wanting for the newest line, it is wanting here.
    pub fn pending(&self, into: &mut Vec<u8>) -> Result<(), AllocError>
        ensures ok { OnOk result (Adds into.old.items into.new.items
            (pending_at self.now.game self.now.seat)) }
        ensures err { OnErr result (into.new.items ≡ into.old.items) }
    {
        match self.umpire.owed(self.seat) {
            Some(k) => self.push_line(k, into),
            None => Ok(()),
        }
    }

    /// Writes line `k` of the seat, 0 to 3, after what stands in `into`; nothing where there is no deed `k` yet.
    pub fn push_line(&self, k: u32, into: &mut Vec<u8>) -> Result<(), AllocError>
        requires { self.now.seat < 4 }
        ensures ok { OnOk result (Adds into.old.items into.new.items
            (line_of self.now.game self.now.seat k)) }
        ensures err { OnErr result (into.new.items ≡ into.old.items) }
    {
        match self.rendered.lines.line(k) {
            Some(line) => push_all(into, line),
            None => self.no_line(k),
        }
    }

    // There is no line with this number: memory was wanting for it, or there is no such deed.
    fn no_line(&self, k: u32) -> Result<(), AllocError>
        ensures { OnOk result (length (after_of self.now.game).deeds ≤ k) }
    {
        if k < self.umpire.deeds() {
            return Err(AllocError);
        }
        Ok(())
    }
}

// The lines of the seat that is told.
#[derive(Drop)]
struct Rendered {
    lines: SeatLines,
    // the answers that the seat may give to the deed that was told last, kept for their memory alone
    list: Answers,
}

impl Rendered {
    // Renders for a seat what is missing of the lines of a game: at most that of the newest deed. Where memory is wanting the
    // lines stay as they were.
    fn catch_up(
        &mut self,
        alloc: Global,
        umpire: &Umpire<Untold>,
        seat: u8,
    ) -> Result<(), AllocError>
        requires { AreNear seat umpire.now self.old.lines }
        ensures ok { OnOk result (AreWhole seat umpire.now self.new.lines) }
        ensures err { OnErr result (self.new.lines ≡ self.old.lines) }
    {
        if seat > 3 {
            return Ok(());
        }
        if self.lines.count() == umpire.deeds() as usize {
            return Ok(());
        }
        let table = umpire.table();
        let Some(deed) = table.newest() else {
            return Ok(());
        };
        possible_over(alloc, table, seat, &mut self.list)?;
        self.lines.push(alloc, seat, deed, &self.list)
    }
}
