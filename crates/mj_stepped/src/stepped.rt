ghost use Rattle.std.specs.Prelude.{◌≡◌, ℕ, ◌≤◌, ◌<◌, ◌+◌, ◌^◌, length, [], Some, true, is_some, IfOk, OnOk, OnErr, IsTrue, slice_get};
ghost use Rattle.std.specs.List.{list_all};
ghost use Rattle.mj_bytes.specs.Adds.{Adds};
ghost use Rattle.mj_wall.specs.Places.{is_wall};
ghost use Rattle.mj_wall.specs.Shuffle.{shuffled_from};
ghost use Rattle.mj_deeds.specs.Answers.{is_in_form};
ghost use Rattle.mj_deeds.specs.Fits.{all_fit};
ghost use Rattle.mj_forms.specs.AnswerForms.{answer_of, join_of};
ghost use Rattle.mj_history.specs.Legal.{can_say, is_over};
ghost use Rattle.mj_core.specs.Calls.{IsSitAnswer, IsHeard, IsLeft, IsExpiry, after_of, is_here, author_of_seat, due_of, open_window, may_say_at, pending_at, line_of, record_of};
ghost use Rattle.mj_stepped.specs.Choices.{choices_of, is_pass, is_pass_alone};
ghost use Rattle.mj_stepped.specs.Lists.{IsFront};
ghost use Rattle.mj_stepped.specs.Kept.{is_of};

use crate::listed::Listed;
use mj_bytes::push_all;
use mj_core::{Expiry, Heard, Left, SitAnswer, Streamed, Supply, Telling, Umpire};
use mj_deeds::{Answer, Answers, Deed};
use mj_judge::{may_pass, possible, possible_at};
use mj_table::Table;
use mj_wall::{Rules, Walls};
use std::alloc::{AllocError, Global};
use std::marker::Model;

/// One game, with what each seat may answer to its newest deed, and the lines of the deeds that were asked for so far.
#[derive(Drop)]
pub struct Stepped {
    umpire: Umpire<Listed>,
    told: Streamed,
    // so many deeds were told
    number: usize,
    asked: Asked,
}

// What was listed last for a seat that has to discard, when there were so many deeds; nothing yet where there were none.
#[derive(Drop)]
struct Asked {
    list: Answers,
    seat: u8,
    deeds: usize,
}

impl Model for Stepped {
    ghost use Rattle.mj_history.specs.Legal.{Game};
    ghost use Rattle.mj_stepped.specs.Kept.{IsKept};

    ghost Value = { Game };

    ghost view = { λ s. s.umpire };

    ghost invariant = { λ s. IsKept s.umpire s.told s.number s.asked };
}

impl Stepped {
    /// A game before its first entry, with 1 to 200 walls, which have red fives exactly where the rules say so, and a
    /// limit from 1 to 3600000 milliseconds.
    pub fn new(alloc: Global, walls: Walls, rules: Rules) -> Result<Stepped, AllocError>
        requires some { 1 ≤ length walls }
        requires few { length walls ≤ 200 }
        requires whole { IsTrue (list_all (is_wall rules.red) walls) }
        requires shortest { 1 ≤ rules.limit }
        requires longest { rules.limit ≤ 3600000 }
        ensures { IfOk result (λ game. game
            ≡ record { setting = record { walls = walls; rules = rules }; entries = [] }) }
    {
        Stepped::with_supply(alloc, Supply::given(walls, rules), rules)
    }

    /// A game before its first entry with the walls of a seed of 32 bytes from wall `first` on, 1 to 200 of them, which are shuffled
    /// as hands begin, and a limit from 1 to 3600000 milliseconds. `first` and `number` together are below 2^64.
    pub fn seeded(
        alloc: Global,
        seed: [u8; 32],
        first: u64,
        number: u64,
        rules: Rules,
    ) -> Result<Stepped, AllocError>
        requires some { 1 ≤ number }
        requires few { number ≤ 200 }
        requires low { first + number < 2 ^ 64 }
        requires shortest { 1 ≤ rules.limit }
        requires longest { rules.limit ≤ 3600000 }
        ensures { IfOk result (λ game. game ≡ record {
          setting = record {
            walls = shuffled_from seed rules.red first number;
            rules = rules;
          };
          entries = [];
        }) }
    {
        let supply = Supply::seeded(alloc, seed, first, number, rules);
        Stepped::with_supply(alloc, supply, rules)
    }

    // A game before its first entry with a supply of walls, which has these rules.
    fn with_supply(alloc: Global, supply: Supply, rules: Rules) -> Result<Stepped, AllocError>
        requires rules { supply.rules ≡ rules }
        requires some { 1 ≤ length supply.walls }
        requires few { length supply.walls ≤ 200 }
        requires whole { IsTrue (list_all (is_wall rules.red) supply.walls) }
        requires shortest { 1 ≤ rules.limit }
        requires longest { rules.limit ≤ 3600000 }
        ensures { IfOk result (λ game. game ≡ record { setting = supply; entries = [] }) }
    {
        let listed = Listed::new(alloc, rules)?;
        let umpire = Umpire::with_supply(alloc, supply, listed)?;
        Ok(Stepped {
            umpire,
            told: Streamed::new(alloc, rules)?,
            number: 0,
            asked: Asked {
                list: Answers::pass_alone(),
                seat: 0,
                deeds: 0,
            },
        })
    }

    /// A line that wants a seat, as `sit` of a core takes it.
    pub fn sit(&mut self, alloc: Global, author: u8, line: &[u8]) -> SitAnswer
        ensures { IsSitAnswer result self.old self.new author (join_of line.now) }
    {
        self.umpire.sit(alloc, author, line)
    }

    /// A line of a seat, as `said` of a core takes it.
    pub fn said(&mut self, alloc: Global, author: u8, seat: u8, line: &[u8]) -> Heard
        requires { can_say (after_of self.old) author seat ≡ true }
        ensures { IsHeard result self.old self.new author seat (answer_of line.now) }
    {
        self.umpire.said(alloc, author, seat, line)
    }

    /// An answer of a seat, as `hear` of an umpire takes it.
    pub fn hear(&mut self, alloc: Global, author: u8, seat: u8, answer: &Answer) -> Heard
        requires may { can_say (after_of self.old) author seat ≡ true }
        requires form { is_in_form answer.now ≡ true }
        ensures { IsHeard result self.old self.new author seat answer.now }
    {
        self.umpire.hear(alloc, author, seat, answer)
    }

    /// A seat that is present by this author is gone, as `gone` of a core takes it.
    pub fn gone(&mut self, alloc: Global, author: u8, seat: u8) -> Left
        requires { is_here self.old author seat ≡ true }
        ensures { IsLeft result self.old self.new author seat }
    {
        self.umpire.gone(alloc, author, seat)
    }

    /// The time of a window may have run out, as `expire` of a core takes it.
    pub fn expire(&mut self, alloc: Global, author: u8, window: u32, t1: u64, t2: u64) -> Expiry
        ensures { IsExpiry result self.old self.new author window t1 t2 }
    {
        self.umpire.expire(alloc, author, window, t1, t2)
    }

    /// Whether a seat is present.
    pub fn present(&self, seat: u8) -> bool
        ensures { result ≡ is_some (author_of_seat self.now seat) }
    {
        self.umpire.present(seat)
    }

    /// The author by whom a seat is present; None exactly where it isn't.
    pub fn author(&self, seat: u8) -> Option<u8>
        ensures { result ≡ author_of_seat self.now seat }
    {
        self.umpire.author(seat)
    }

    /// The number of the deed that a seat's next line answers; 0 for a seat that isn't held.
    pub fn due(&self, seat: u8) -> u32
        ensures { result ≡ due_of self.now seat }
    {
        self.umpire.due(seat)
    }

    /// The number of deeds.
    pub fn deeds(&self) -> u32
        ensures { result ≡ length (after_of self.now).deeds }
    {
        self.umpire.deeds()
    }

    /// The table that stands for the deeds so far.
    pub fn table(&self) -> &Table
        ensures { result.now ≡ record { rules = self.now.setting.rules; deeds = (after_of self.now).deeds } }
    {
        self.umpire.table()
    }

    /// The number of the open window, that of the newest deed; None exactly before the first deed and after the game's
    /// end.
    pub fn open(&self) -> Option<u32>
        ensures { result ≡ open_window (after_of self.now).deeds }
    {
        self.umpire.open()
    }

    /// Whether the game has ended.
    pub fn over(&self) -> bool
        ensures { result ≡ is_over (after_of self.now).deeds }
    {
        self.umpire.over()
    }

    /// The number of entries.
    pub fn entries(&self) -> u64
        ensures { result ≡ length self.now.entries }
    {
        self.umpire.entries()
    }

    /// Whether a seat is present and the deed that its next line answers exists.
    pub fn may_say(&self, seat: u8) -> bool
        ensures asked { result ≡ may_say_at self.now seat }
        ensures by_author { result ≡ true → (author : ℕ)
            → author_of_seat self.now seat ≡ Some author
            → can_say (after_of self.now) author seat ≡ true }
    {
        self.umpire.may_say(seat)
    }

    /// Writes the record of the game after what stands in `into`, as `record` of a core does.
    pub fn record(&self, alloc: Global, into: &mut Vec<u8>) -> Result<(), AllocError>
        ensures ok { OnOk result (Adds into.old.items into.new.items (record_of self.now)) }
        ensures err { OnErr result (into.new.items ≡ into.old.items) }
    {
        self.umpire.record(alloc, into)
    }

    /// How many answers a seat, 0 to 3, may give to the newest deed. Their list is kept for `choice`.
    pub fn choices(&mut self, alloc: Global, seat: u8) -> Result<usize, AllocError>
        requires { seat ≤ 3 }
        ensures game { self.new ≡ self.old }
        ensures many { IfOk result (λ many. many ≡ length (choices_of self.old seat)) }
    {
        if let Some(list) = self.umpire.told().list(seat) {
            return Ok(list.len());
        }
        let list = possible(alloc, self.umpire.table(), seat)?;
        let many = list.as_slice().len();
        let deeds = self.umpire.played().len();
        self.asked = Asked { list, seat, deeds };
        Ok(many)
    }

    /// Answer `k` of these, where there are so many.
    pub fn choice(&self, alloc: Global, seat: u8, k: u32) -> Result<Option<Answer>, AllocError>
        requires { seat ≤ 3 }
        ensures { IfOk result (λ choice. choice ≡ slice_get (choices_of self.now seat) k) }
    {
        if let Some(list) = self.umpire.told().list(seat) {
            return Ok(list.get(k as usize).copied());
        }
        let deeds = self.umpire.played().len();
        if self.asked.is_of(seat, deeds) {
            return Ok(self.asked.list.as_slice().get(k as usize).copied());
        }
        possible_at(alloc, self.umpire.table(), seat, k as usize)
    }

    /// Whether a seat, 0 to 3, may only pass: that is all it may answer to the newest deed.
    pub fn passes_alone(&self, alloc: Global, seat: u8) -> Result<bool, AllocError>
        requires { seat ≤ 3 }
        ensures { IfOk result (λ is. is ≡ is_pass_alone (choices_of self.now seat)) }
    {
        if !may_pass(self.umpire.table(), seat) {
            return Ok(false);
        }
        match self.umpire.told().list(seat) {
            Some(list) => Ok(is_pass_alone(list)),
            None => Ok(is_pass_alone(possible(alloc, self.umpire.table(), seat)?.as_slice())),
        }
    }

    /// Writes line `k` of a seat, 0 to 3, after what stands in `into`; nothing where there is no deed `k` yet. Lines that
    /// were not asked for before are rendered first. The only error is running out of memory, and then the text stays as it was.
    pub fn line(
        &mut self,
        alloc: Global,
        seat: u8,
        k: u32,
        into: &mut Vec<u8>,
    ) -> Result<(), AllocError>
        requires { seat < 4 }
        ensures game { self.new ≡ self.old }
        ensures ok { OnOk result (Adds into.old.items into.new.items (line_of self.old seat k)) }
        ensures err { OnErr result (into.new.items ≡ into.old.items) }
    {
        tell_rest(
            alloc,
            self.umpire.played(),
            &mut self.told,
            &mut self.number,
        )?;
        match self.told.line(seat, k) {
            Some(line) => push_all(into, line),
            None => Ok(()),
        }
    }

    /// Writes after what stands in `into` what is still to be told to a seat, as `pending` of a core does.
    pub fn pending(&mut self, alloc: Global, seat: u8, into: &mut Vec<u8>) -> Result<(), AllocError>
        ensures game { self.new ≡ self.old }
        ensures ok { OnOk result (Adds into.old.items into.new.items (pending_at self.old seat)) }
        ensures err { OnErr result (into.new.items ≡ into.old.items) }
    {
        match self.umpire.owed(seat) {
            Some(k) => self.line(alloc, seat, k, into),
            None => Ok(()),
        }
    }
}

impl Asked {
    // It was listed for this seat, when there were so many deeds.
    fn is_of(&self, seat: u8, deeds: usize) -> bool
        ensures { result ≡ is_of self.now seat deeds }
    {
        self.deeds > 0 && self.deeds == deeds && self.seat == seat
    }
}

// Tells the deeds that were not told yet. Where memory is wanting, those before stay told.
fn tell_rest(
    alloc: Global,
    deeds: &[Deed],
    told: &mut Streamed,
    number: &mut usize,
) -> Result<(), AllocError>
    requires front { IsFront told.old.deeds number.old deeds.now }
    requires fit { all_fit told.old.rules.red [] deeds.now ≡ true }
    ensures front { IsFront told.new.deeds number.new deeds.now }
    ensures rules { told.new.rules ≡ told.old.rules }
    ensures ok { OnOk result (told.new.deeds ≡ deeds.now) }
{
    while let Some(deed) = deeds.get(*number) {
        told.push(alloc, deed)?;
        *number += 1;
    }
    Ok(())
}

// The list of a pass alone.
fn is_pass_alone(list: &[Answer]) -> bool
    ensures { result ≡ is_pass_alone list.now }
{
    match list {
        [answer] => is_pass(answer),
        _ => false,
    }
}

// The answer is a pass.
fn is_pass(answer: &Answer) -> bool
    ensures { result ≡ is_pass answer.now }
{
    matches!(answer, Answer::Pass { .. })
}
