//! A game whose entries tell one seat what they tell it, as they come.

ghost use Rattle.std.specs.Prelude.{◌≡◌, ◌==◌, ◌≤◌, ◌<◌, ◌&&◌, true, false, [], length, IfOk, OnOk, is_ok};
ghost use Rattle.mj_bytes.specs.Adds.{Adds};
ghost use Rattle.mj_forms.specs.AnswerForms.{answer_of, join_of};
ghost use Rattle.mj_history.specs.After.{scripts};
ghost use Rattle.mj_history.specs.Legal.{IsLegal};
ghost use Rattle.mj_history.specs.Shown.{shown_of, sits_of, hears_of, expires_of};
ghost use Rattle.mj_core.specs.Calls.{after_of};
ghost use Rattle.mj_refereeing.specs.Inner.Intake.{told_in};
ghost use Rattle.mj_refereeing.specs.Inner.Watching.{told_by_sitting, TellsVerdict, has_left, IsBelowFour};

use crate::arriving::{greet, greet_again, tell_last};
use mj_core::{SeatGame, Umpire, Untold, write_control};
use mj_deeds::{Answer, Rule};
use mj_journal::Entering;
use mj_ports::{Control, Expiry, Heard, Left, SitAnswer};
use mj_wall::Setting;
use std::alloc::{AllocError, Global};

/// A game, and what the connections of the seat that is told of it were told by the seat's own entries.
#[derive(Drop)]
pub(crate) struct Watched {
    core: SeatGame,
    told: Vec<u8>,
    // Memory was never wanting to tell it.
    whole: bool,
    ghost few: { length (after_of core.game).chairs ≤ 4 },
    ghost same: { whole ≡ true → told.items ≡ told_in core.seat (after_of core.game) },
}

impl Watched {
    /// A game before its first entry.
    pub(crate) fn new(alloc: Global, core: SeatGame) -> Watched
        requires { core.game.entries ≡ [] }
        ensures { result.core ≡ core }
    {
        Watched {
            core,
            told: Vec::new(alloc),
            whole: true,
        }
    }

    /// The game.
    pub(crate) fn umpire(&self) -> &Umpire<Untold>
        ensures game { result.now ≡ self.now.core.game }
        ensures few { length (after_of result.now).chairs ≤ 4 }
    {
        self.core.umpire()
    }

    /// All that the connections of the seat are told.
    pub(crate) fn script(&self, alloc: Global) -> Result<Vec<u8>, AllocError>
        ensures bytes { IfOk result (λ bytes. bytes.items
            ≡ scripts self.now.core.seat self.now.core.game.setting self.now.core.game.entries) }
        ensures legal { IsLegal self.now.core.game.setting self.now.core.game.entries }
    {
        let _entries = self.core.umpire().entries();
        if !self.whole {
            return Err(AllocError);
        }
        let mut bytes = self.told.to_vec(alloc)?;
        self.core.pending(&mut bytes)?;
        Ok(bytes)
    }
}

// A game that is watched enters what the game does; what it tells changes no answer.
impl Entering for Watched {
    // With the seat that is watched.
    type Setting = (Setting, u8);

    type Answer = Answer;

    type Rule = Rule;

    ghost setting = { λ w. (w.core.game.setting, w.core.seat) };

    ghost history = { λ w. w.core.game.entries };

    ghost reads = { λ text. answer_of text };

    ghost joins = { λ text. join_of text };

    ghost after = { λ s entries. shown_of s.0 entries };

    ghost sits = { λ s entries text. sits_of s.0 entries text };

    ghost hears = { λ s entries author seat answer. hears_of s.0 entries seat answer };

    ghost expires = { λ s entries window t1 t2. expires_of s.0 entries window t1 t2 };

    fn sit(&mut self, alloc: Global, author: u8, line: &[u8]) -> SitAnswer {
        let answer = self.core.sit(alloc, author, line);
        let done = tell_sitting(alloc, &self.core, &mut self.told, &answer);
        self.whole = is_told(&done, self.whole);
        answer
    }

    fn said(&mut self, alloc: Global, author: u8, seat: u8, line: &[u8]) -> Heard<Rule> {
        let watched = self.core.seat();
        let first = tell_last(&self.core, &mut self.told, seat);
        let answer = self.core.said(alloc, author, seat, line);
        let then = tell_verdict(alloc, watched, &mut self.told, seat, &answer);
        let before = is_told(&first, self.whole);
        self.whole = is_told(&then, before);
        answer
    }

    fn gone(&mut self, alloc: Global, author: u8, seat: u8) -> Left {
        let first = tell_last(&self.core, &mut self.told, seat);
        let answer = self.core.gone(alloc, author, seat);
        let before = is_told(&first, self.whole);
        self.whole = is_gone(&answer, before);
        answer
    }

    fn expire(&mut self, alloc: Global, author: u8, window: u32, t1: u64, t2: u64) -> Expiry {
        self.core.expire(alloc, author, window, t1, t2)
    }

    fn due(&self, seat: u8) -> u32 {
        self.core.umpire().due(seat)
    }

    fn deeds(&self) -> u32 {
        self.core.umpire().deeds()
    }

    fn author(&self, seat: u8) -> Option<u8> {
        self.core.umpire().author(seat)
    }
}

// Tells the seat what the answer to a join tells it.
fn tell_sitting(
    alloc: Global,
    core: &SeatGame,
    told: &mut Vec<u8>,
    answer: &SitAnswer,
) -> Result<(), AllocError>
    requires { IsBelowFour answer.now }
    ensures { OnOk result (Adds told.old.items told.new.items
        (told_by_sitting answer.now core.now.seat core.now.game)) }
{
    match answer {
        SitAnswer::Sat(taken) => greet(alloc, told, *taken, core.seat()),
        SitAnswer::Back(taken) => greet_again(alloc, core, told, *taken),
        SitAnswer::Refused(_) => Ok(()),
        SitAnswer::NoMemory => Ok(()),
    }
}

// Tells a seat the rule that its own answer breaks. Where memory was wanting nothing was entered.
fn tell_verdict(
    alloc: Global,
    seat: u8,
    told: &mut Vec<u8>,
    speaker: u8,
    heard: &Heard<Rule>,
) -> Result<(), AllocError>
    ensures { OnOk result (TellsVerdict (speaker == seat) heard.now told.old.items told.new.items) }
{
    if speaker != seat {
        return Ok(());
    }
    match heard {
        Heard::Taken => Ok(()),
        Heard::Late => Ok(()),
        Heard::Refused(rule) => write_control(alloc, &Control::Refused(*rule), told),
        Heard::Closing(rule) => write_control(alloc, &Control::Refused(*rule), told),
        Heard::NoMemory => Err(AllocError),
    }
}

// Whether all is told, where this tells whether all before was: memory sufficed.
fn is_told(done: &Result<(), AllocError>, before: bool) -> bool
    ensures { result ≡ (is_ok done.now && before) }
{
    match done {
        Ok(()) => before,
        Err(_) => false,
    }
}

// Whether a seat has left that was told all before.
fn is_gone(left: &Left, before: bool) -> bool
    ensures { result ≡ (has_left left.now && before) }
{
    match left {
        Left::Gone => before,
        Left::NoMemory => false,
    }
}
