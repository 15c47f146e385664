ghost use Rattle.std.specs.Prelude.{◌≡◌, ℕ, ◌≤◌, ◌<◌, length, [], Some, None, true, false, is_some, IfOk, MatchOption, OnOk, OnErr, IsTrue};
ghost use Rattle.std.specs.List.{list_all};
ghost use Rattle.mj_bytes.specs.Adds.{Adds};
ghost use Rattle.mj_ports.specs.Names.{is_name};
ghost use Rattle.mj_wall.specs.Places.{is_wall};
ghost use Rattle.mj_deeds.specs.Answers.{is_in_form};
ghost use Rattle.mj_deeds.specs.Fits.{all_fit};
ghost use Rattle.mj_forms.specs.AnswerForms.{answer_of, join_of};
ghost use Rattle.mj_history.specs.Legal.{IsLegal, can_say, is_over};
ghost use Rattle.mj_history.specs.Shown.{sit_answer, sits_of, expires_of};
ghost use Rattle.mj_history.specs.Sitting.{placing};
ghost use Rattle.mj_seating.specs.declared.desk.Placed.TheVariants.{Sat, Back};
ghost use Rattle.mj_umpire.specs.Calls.{IsSitAnswer, Foresees, IsHeard, IsLeft, IsExpiry, after_of, is_here, may_expire};
ghost use Rattle.mj_umpire.specs.Calls.{author_of_seat, due_of, open_window, may_say_at, pending_at, line_of, record_of};
ghost use Rattle.mj_umpire.specs.Inner.Verdicts.{heard_by};

use crate::answers::{Expiry, Heard, Left, SitAnswer};
use crate::entered::Entered;
use crate::state::State;
use crate::verdict::Verdict;
use mj_deeds::{Answer, Deed};
use mj_ports::{JoinLine, SitRefused};
use mj_seating::Placed;
use mj_table::Table;
use mj_telling::{Supply, Telling};
use mj_wall::{Rules, Walls};
use mjai_answers::{read_answer, read_join};
use mjai_lines::Steps;
use std::alloc::{AllocError, Global};
use std::marker::{Brand, Model};
use std::sync::ledger::{Blank, Ledger};

// For so many entries there is room from the start.
const ENTRIES: usize = 8_192;

/// The rules of one game: what it is played with, and all that was entered so far, on a table that tells its deeds or doesn't.
#[derive(Drop)]
pub struct Umpire<T: Telling> {
    setting: Supply,
    entries: Vec<Entered>,
    state: State<T>,
}

impl<T: Telling> Model for Umpire<T> {
    ghost use Rattle.mj_history.specs.Legal.{Game};
    ghost use Rattle.mj_umpire.specs.Inner.Kept.{IsKept};

    ghost Value = { Game };

    ghost view = { λ c. record { setting = c.setting; entries = c.entries.items } };

    ghost invariant = { λ c. IsKept c.setting c.entries.items c.state };
}

impl<T: Telling> Umpire<T> {
    /// A game before its first entry on a table without a deed, with 1 to 200 walls, which have red fives exactly where the rules
    /// say so, and a limit from 1 to 3600000 milliseconds.
    pub fn new(alloc: Global, walls: Walls, rules: Rules, told: T) -> Result<Umpire<T>, AllocError>
        requires some { 1 ≤ length walls }
        requires few { length walls ≤ 200 }
        requires whole { IsTrue (list_all (is_wall rules.red) walls) }
        requires shortest { 1 ≤ rules.limit }
        requires longest { rules.limit ≤ 3600000 }
        requires fresh { T.play told ≡ record { rules = rules; deeds = [] } }
        ensures { IfOk result (λ umpire. umpire
            ≡ record { setting = record { walls = walls; rules = rules }; entries = [] }) }
    {
        Umpire::with_supply(alloc, Supply::given(walls, rules), told)
    }

    /// A game before its first entry, as `new` makes it, with a supply of walls.
    pub fn with_supply(alloc: Global, setting: Supply, told: T) -> Result<Umpire<T>, AllocError>
        requires some { 1 ≤ length setting.walls }
        requires few { length setting.walls ≤ 200 }
        requires whole { IsTrue (list_all (is_wall setting.rules.red) setting.walls) }
        requires shortest { 1 ≤ setting.rules.limit }
        requires longest { setting.rules.limit ≤ 3600000 }
        requires fresh { T.play told ≡ record { rules = setting.rules; deeds = [] } }
        ensures { IfOk result (λ umpire. umpire ≡ record { setting = setting; entries = [] }) }
    {
        Ok(Umpire {
            setting,
            entries: Vec::with_capacity(alloc, ENTRIES)?,
            state: State::new(alloc, told)?,
        })
    }

    /// A line that wants a seat: the next seat is given under the name and key of the line, or a seat that is gone is
    /// taken back by them, or it is said why neither is: the line is no join, the game is over, or what the table of
    /// sitting says. The author is the number of the worker that enters it.
    pub fn sit(&mut self, alloc: Global, author: u8, line: &[u8]) -> SitAnswer
        ensures { IsSitAnswer result self.old self.new author (join_of line.now) }
    {
        match read_join(alloc, line) {
            Ok(Some(join)) => self.seat(alloc, author, &join),
            Ok(None) => SitAnswer::Refused(SitRefused::BadName),
            Err(_) => SitAnswer::NoMemory,
        }
    }

    /// What `sit` would answer now if memory is had after the line is read. Nothing changes.
    pub fn would_sit(&self, alloc: Global, line: &[u8]) -> SitAnswer
        ensures { Foresees result (sits_of self.now.setting self.now.entries line.now)
            (join_of line.now) }
    {
        match read_join(alloc, line) {
            Ok(Some(join)) => sit_answer(self.place(&join)),
            Ok(None) => SitAnswer::Refused(SitRefused::BadName),
            Err(_) => SitAnswer::NoMemory,
        }
    }

    // A seat for a join, whose name is of the right form.
    fn seat(&mut self, alloc: Global, author: u8, join: &JoinLine) -> SitAnswer
        requires { is_name join.now.name ≡ true }
        ensures { IsSitAnswer result self.old self.new author (Some join.now) }
    {
        match self.place(join) {
            Placed::Refused(why) => SitAnswer::Refused(why),
            Placed::Sat(seat) => self.take_seat(alloc, author, seat, join),
            Placed::Back(seat) => self.take_back(alloc, author, seat, join),
        }
    }

    // What becomes of a join.
    fn place(&self, join: &JoinLine) -> Placed
        ensures { result ≡ placing (after_of self.now) (Some join.now) }
    {
        if self.state.is_over() {
            return Placed::Refused(SitRefused::Over);
        }
        self.state.place(join)
    }

    // The seat, which is the next one, is taken by a join.
    fn take_seat(&mut self, alloc: Global, author: u8, seat: u8, join: &JoinLine) -> SitAnswer
        requires name { is_name join.now.name ≡ true }
        requires placing { placing (after_of self.old) (Some join.now) ≡ Sat seat }
        ensures { IsSitAnswer result self.old self.new author (Some join.now) }
    {
        if self.entries.reserve(1).is_err() {
            return SitAnswer::NoMemory;
        }
        let Ok(entered) = Entered::sat(alloc, author, join) else {
            return SitAnswer::NoMemory;
        };
        match self.state.take_seat(alloc, author, join) {
            Ok(()) => {
                self.entries.push_reserved(entered);
                SitAnswer::Sat(seat)
            }
            Err(_) => SitAnswer::NoMemory,
        }
    }

    // The seat, which is gone, is taken back by a join.
    fn take_back(&mut self, alloc: Global, author: u8, seat: u8, join: &JoinLine) -> SitAnswer
        requires name { is_name join.now.name ≡ true }
        requires placing { placing (after_of self.old) (Some join.now) ≡ Back seat }
        ensures { IsSitAnswer result self.old self.new author (Some join.now) }
    {
        if self.entries.reserve(1).is_err() {
            return SitAnswer::NoMemory;
        }
        match self
            .state
            .take_back(alloc, &mut self.setting, author, seat, join)
        {
            Ok(()) => {
                self.entries.push_reserved(Entered::back(author, seat));
                SitAnswer::Back(seat)
            }
            Err(_) => SitAnswer::NoMemory,
        }
    }

    /// A line of a seat, 0 to 3, which is present by this author and whose due deed exists. The answer that the line
    /// reads as is entered and judged; the sixteenth that is refused to one deed makes the seat gone.
    pub fn said(&mut self, alloc: Global, author: u8, seat: u8, line: &[u8]) -> Heard
        requires { can_say (after_of self.old) author seat ≡ true }
        ensures { IsHeard result self.old self.new author seat (answer_of line.now) }
    {
        match read_answer(alloc, line) {
            Ok(answer) => self.hear(alloc, author, seat, &answer),
            Err(_) => Heard::NoMemory,
        }
    }

    /// An answer of a seat, as `said` takes what the line of the seat reads as. The own tiles that it names together stand in
    /// tile order, hidden ones last.
    pub fn hear(&mut self, alloc: Global, author: u8, seat: u8, answer: &Answer) -> Heard
        requires may { can_say (after_of self.old) author seat ≡ true }
        requires form { is_in_form answer.now ≡ true }
        ensures { IsHeard result self.old self.new author seat answer.now }
    {
        if self.entries.reserve(1).is_err() {
            return Heard::NoMemory;
        }
        match self.state.hear(alloc, &mut self.setting, seat, answer) {
            Ok(verdict) => {
                self.entries
                    .push_reserved(Entered::said(author, seat, answer));
                heard_by(&verdict)
            }
            Err(_) => Heard::NoMemory,
        }
    }

    /// The seat, which is present by this author, is gone.
    pub fn gone(&mut self, alloc: Global, author: u8, seat: u8) -> Left
        requires { is_here self.old author seat ≡ true }
        ensures { IsLeft result self.old self.new author seat }
    {
        if self.entries.reserve(1).is_err() {
            return Left::NoMemory;
        }
        match self.state.leave(alloc, &mut self.setting, seat) {
            Ok(()) => {
                self.entries.push_reserved(Entered::gone(author, seat));
                Left::Gone
            }
            Err(_) => Left::NoMemory,
        }
    }

    /// The time of a window may have run out between two readings of a clock, in milliseconds: stale exactly where the
    /// window isn't the open one, and early exactly where it is and less time than the limit lies between the readings.
    pub fn expire(&mut self, alloc: Global, author: u8, window: u32, t1: u64, t2: u64) -> Expiry
        ensures { IsExpiry result self.old self.new author window t1 t2 }
    {
        match self.would_expire(window, t1, t2) {
            Expiry::Closed => self.close(alloc, author, window, t1, t2),
            Expiry::Stale => Expiry::Stale,
            Expiry::Early => Expiry::Early,
            Expiry::NoMemory => Expiry::NoMemory,
        }
    }

    /// What `expire` would come to now if memory is had. Nothing changes.
    pub fn would_expire(&self, window: u32, t1: u64, t2: u64) -> Expiry
        ensures { result ≡ expires_of self.now.setting self.now.entries window t1 t2 }
    {
        if self.open() != Some(window) {
            return Expiry::Stale;
        }
        let limit = self.setting.rules().limit;
        if t2 < t1 || t2 - t1 < limit {
            return Expiry::Early;
        }
        Expiry::Closed
    }

    // The open window closes, since its time has run out.
    fn close(&mut self, alloc: Global, author: u8, window: u32, t1: u64, t2: u64) -> Expiry
        requires { may_expire self.old window t1 t2 ≡ true }
        ensures { IsExpiry result self.old self.new author window t1 t2 }
    {
        if self.entries.reserve(1).is_err() {
            return Expiry::NoMemory;
        }
        let Ok(entered) = Entered::expired(alloc, author, window, t1, t2) else {
            return Expiry::NoMemory;
        };
        match self.state.expire(alloc, &mut self.setting) {
            Ok(()) => {
                self.entries.push_reserved(entered);
                Expiry::Closed
            }
            Err(_) => Expiry::NoMemory,
        }
    }

    /// Whether a seat is present.
    pub fn present(&self, seat: u8) -> bool
        ensures { result ≡ is_some (author_of_seat self.now seat) }
    {
        self.author(seat).is_some()
    }

    /// The author by whom a seat is present; None exactly where it isn't.
    pub fn author(&self, seat: u8) -> Option<u8>
        ensures { result ≡ author_of_seat self.now seat }
    {
        match self.state.seat(seat) {
            Some(held) => held.author(),
            None => None,
        }
    }

    /// The number of the deed that a seat's next line answers; 0 for a seat that isn't held.
    pub fn due(&self, seat: u8) -> u32
        ensures { result ≡ due_of self.now seat }
    {
        match self.state.seat(seat) {
            Some(held) => held.due() as u32,
            None => 0,
        }
    }

    /// The number of deeds.
    pub fn deeds(&self) -> u32
        ensures { result ≡ length (after_of self.now).deeds }
    {
        self.state.deeds().len() as u32
    }

    /// The deeds so far, the oldest first, each of which fits after those before it.
    pub fn played(&self) -> &[Deed]
        ensures deeds { result.now ≡ (after_of self.now).deeds }
        ensures fit { all_fit self.now.setting.rules.red [] (after_of self.now).deeds ≡ true }
    {
        self.state.deeds()
    }

    /// The table that stands for the deeds so far, with what is told of them.
    pub fn told(&self) -> &T
        ensures { T.play result.now ≡ record { rules = self.now.setting.rules; deeds = (after_of self.now).deeds } }
    {
        self.state.told()
    }

    /// The table that stands for the deeds so far.
    pub fn table(&self) -> &Table
        ensures { result.now ≡ record { rules = self.now.setting.rules; deeds = (after_of self.now).deeds } }
    {
        self.told().table()
    }

    /// The number of the open window, that of the newest deed; None exactly before the first deed and after the game's
    /// end.
    pub fn open(&self) -> Option<u32>
        ensures { result ≡ open_window (after_of self.now).deeds }
    {
        match self.state.open() {
            Some(window) => Some(window as u32),
            None => None,
        }
    }

    /// Whether the game has ended.
    pub fn over(&self) -> bool
        ensures { result ≡ is_over (after_of self.now).deeds }
    {
        self.state.is_over()
    }

    /// The number of entries, each of which is permitted where it stands.
    pub fn entries(&self) -> u64
        ensures number { result ≡ length self.now.entries }
        ensures legal { IsLegal self.now.setting self.now.entries }
    {
        self.entries.len() as u64
    }

    /// Whether a seat is present and the deed that its next line answers exists.
    pub fn may_say(&self, seat: u8) -> bool
        ensures asked { result ≡ may_say_at self.now seat }
        ensures by_author { result ≡ true → (author : ℕ)
            → author_of_seat self.now seat ≡ Some author
            → can_say (after_of self.now) author seat ≡ true }
    {
        match self.state.seat(seat) {
            Some(held) => held.is_present() && held.due() < self.state.deeds().len(),
            None => false,
        }
    }

    /// The number of the deed whose line is still to be told to a seat, which need not exist yet; None where nothing is to be told:
    /// the seat isn't present, or an answer to the deed was refused.
    pub fn owed(&self, seat: u8) -> Option<u32>
        ensures { MatchOption result (pending_at self.now seat ≡ [])
            (λ k. (seat < 4) × (pending_at self.now seat ≡ line_of self.now seat k)) }
    {
        let Some(held) = self.state.seat(seat) else {
            return None;
        };
        if !held.is_present() {
            return None;
        }
        if !held.is_fresh() {
            return None;
        }
        Some(held.due() as u32)
    }

    /// Writes the record of the game after what stands in `into`: the header with its rules, a line for each of its walls, and
    /// the record's line of each deed so far, which hides nothing. The only error is running out of memory, and then the text stays as
    /// it was.
    pub fn record(&self, alloc: Global, into: &mut Vec<u8>) -> Result<(), AllocError>
        ensures ok { OnOk result (Adds into.old.items into.new.items (record_of self.now)) }
        ensures err { OnErr result (into.new.items ≡ into.old.items) }
    {
        self.record_on::<Brand>(alloc, into, Blank::new(1))
    }

    // Writes the record, its lines counted on a new ledger.
    fn record_on<L: Ledger>(
        &self,
        alloc: Global,
        into: &mut Vec<u8>,
        blank: Blank,
    ) -> Result<(), AllocError>
        requires name { blank.name ≡ L.name }
        requires parts { blank.parts ≡ L.parts }
        requires some { 0 < blank.parts }
        ensures ok { OnOk result (Adds into.old.items into.new.items (record_of self.now)) }
        ensures err { OnErr result (into.new.items ≡ into.old.items) }
    {
        let mut steps = Steps::<L>::new(blank);
        self.setting
            .write_record(alloc, self.state.deeds(), into, &mut steps)
    }
}

// What a line that wants a seat is answered, by what becomes of its join.
fn sit_answer(place: Placed) -> SitAnswer
    ensures { result ≡ sit_answer place }
{
    match place {
        Placed::Sat(seat) => SitAnswer::Sat(seat),
        Placed::Back(seat) => SitAnswer::Back(seat),
        Placed::Refused(why) => SitAnswer::Refused(why),
    }
}

// What a seat is answered by its verdict.
fn heard_by(verdict: &Verdict) -> Heard
    ensures { result ≡ heard_by verdict.now }
{
    match verdict {
        Verdict::Taken => Heard::Taken,
        Verdict::Late => Heard::Late,
        Verdict::Refused(rule) => Heard::Refused(*rule),
        Verdict::Closing(rule) => Heard::Closing(*rule),
    }
}
