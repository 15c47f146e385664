//! The arrivals of a table, one call for each.

ghost use Rattle.std.specs.Prelude.{◌≡◌, true, None};
ghost use Rattle.mj_embedded.specs.Answers.{not_seated};
ghost use Rattle.mj_deeds.specs.Answers.{is_in_form};
ghost use Rattle.mj_forms.specs.AnswerForms.{answer_of};
ghost use Rattle.mj_embedded.specs.Calls.{OnGame, Sits, SitsWithin, Says, Gives, Tells, Leaves, LeavesOne, Expires};

use crate::answer::{
    BACK, CLOSING, DONE, EARLY, LATE, NO_GAME, NO_MEMORY, NO_SEAT, NOT_DUE, NOT_PRESENT,
    NOT_SEATED, REFUSED, STALE, TOO_LONG,
};
use crate::handle::Table;
use mj_core::{Expiry, Heard, Left, SitAnswer};
use mj_deeds::Answer;
use mj_ports::SitRefused;
use mj_stepped::Stepped;
use std::alloc::Global;

/// The most bytes that the line of a player may have.
const LINE_LIMIT: usize = 4095;

// The author of each line that wants a seat, and of each expiry.
const JOINER: u8 = 1;

const CLOCK: u8 = 0;

impl Table {
    /// Somebody wants a seat by a line, `{"type":"join",..}`. DONE where the next seat is taken and BACK where a seat is taken
    /// back, and `seat` says which; or a number from NOT_SEATED on, which says why none is given, and nothing has changed.
    pub fn sit(&mut self, alloc: Global, line: &[u8], seat: &mut u32) -> u32
        ensures told { OnGame (Sits line.now seat.old seat.new) self.old.held.game self.new.held.game result }
        ensures without { self.old.held.game ≡ None → seat.new ≡ seat.old }
    {
        let Some(mut game) = self.take(alloc) else {
            return NO_GAME;
        };
        let answer = sit(alloc, &mut game, line, seat);
        self.put(game);
        answer
    }

    /// A seat says a line, which answers its due deed. DONE where the answer is taken, LATE where the window of that deed is
    /// closed already, REFUSED and CLOSING where it breaks a rule, and `rule` says which; else the seat may not say a line now,
    /// and nothing has changed.
    pub fn say(&mut self, alloc: Global, seat: u32, line: &[u8], rule: &mut u32) -> u32
        ensures told { OnGame (Says seat line.now rule.old rule.new) self.old.held.game self.new.held.game result }
        ensures without { self.old.held.game ≡ None → rule.new ≡ rule.old }
    {
        let Some(mut game) = self.take(alloc) else {
            return NO_GAME;
        };
        let answer = say(alloc, &mut game, seat, line, rule);
        self.put(game);
        answer
    }

    /// A seat leaves: DONE, or NO_SEAT, NOT_PRESENT or NO_MEMORY, and then nothing has changed.
    pub fn gone(&mut self, alloc: Global, seat: u32) -> u32
        ensures { OnGame (Leaves seat) self.old.held.game self.new.held.game result }
    {
        let Some(mut game) = self.take(alloc) else {
            return NO_GAME;
        };
        let answer = leave(alloc, &mut game, seat);
        self.put(game);
        answer
    }

    /// The time of a window may have run out between two readings of a clock, in milliseconds: DONE where it is closed, STALE
    /// where it isn't the open one, EARLY where less time than the limit has passed, or NO_MEMORY.
    pub fn expire(&mut self, alloc: Global, window: u32, t1: u64, t2: u64) -> u32
        ensures { OnGame (Expires window t1 t2) self.old.held.game self.new.held.game result }
    {
        let Some(mut game) = self.take(alloc) else {
            return NO_GAME;
        };
        let answer = expire(alloc, &mut game, window, t1, t2);
        self.put(game);
        answer
    }
}

fn sit(alloc: Global, game: &mut Stepped, line: &[u8], seat: &mut u32) -> u32
    ensures { Sits line.now seat.old seat.new game.old game.new result }
{
    if line.len() > LINE_LIMIT {
        return TOO_LONG;
    }
    sit_within(alloc, game, line, seat)
}

// Somebody wants a seat by a line that isn't too long.
fn sit_within(alloc: Global, game: &mut Stepped, line: &[u8], seat: &mut u32) -> u32
    ensures { SitsWithin line.now seat.old seat.new game.old game.new result }
{
    match game.sit(alloc, JOINER, line) {
        SitAnswer::Sat(taken) => {
            *seat = u32::from(taken);
            DONE
        }
        SitAnswer::Back(taken) => {
            *seat = u32::from(taken);
            BACK
        }
        SitAnswer::Refused(why) => not_seated(why),
        SitAnswer::NoMemory => NO_MEMORY,
    }
}

// Why no seat is given.
fn not_seated(why: SitRefused) -> u32
    ensures { result ≡ not_seated why }
{
    match why {
        SitRefused::Full => NOT_SEATED,
        SitRefused::NameTaken => NOT_SEATED + 1,
        SitRefused::WrongKey => NOT_SEATED + 2,
        SitRefused::NoKey => NOT_SEATED + 3,
        SitRefused::TooOften => NOT_SEATED + 4,
        SitRefused::Over => NOT_SEATED + 5,
        SitRefused::BadName => NOT_SEATED + 6,
        SitRefused::NoRoom => NOT_SEATED + 7,
    }
}

fn say(alloc: Global, game: &mut Stepped, seat: u32, line: &[u8], rule: &mut u32) -> u32
    ensures { Says seat line.now rule.old rule.new game.old game.new result }
{
    if seat > 3 {
        return NO_SEAT;
    }
    if line.len() > LINE_LIMIT {
        return TOO_LONG;
    }
    say_within(alloc, game, seat as u8, line, rule)
}

// One of the four seats says a line that isn't too long.
fn say_within(alloc: Global, game: &mut Stepped, seat: u8, line: &[u8], rule: &mut u32) -> u32
    ensures { Gives seat (answer_of line.now) rule.old rule.new game.old game.new result }
{
    let Some(author) = game.author(seat) else {
        return NOT_PRESENT;
    };
    if !game.may_say(seat) {
        return NOT_DUE;
    }
    let heard = game.said(alloc, author, seat, line);
    tell(&heard, rule)
}

/// One of the four seats gives an answer in form, as by a line that reads as it.
pub(crate) fn give(
    alloc: Global,
    game: &mut Stepped,
    seat: u8,
    answer: &Answer,
    rule: &mut u32,
) -> u32
    requires { is_in_form answer.now ≡ true }
    ensures { Gives seat answer.now rule.old rule.new game.old game.new result }
{
    let Some(author) = game.author(seat) else {
        return NOT_PRESENT;
    };
    if !game.may_say(seat) {
        return NOT_DUE;
    }
    let heard = game.hear(alloc, author, seat, answer);
    tell(&heard, rule)
}

// What is answered to what became of an answer, and by which rule it was refused.
#[tactic(auto, using(crate::proofs::Rules::tag_is))]
fn tell(heard: &Heard, rule: &mut u32) -> u32
    ensures { Tells heard.now rule.old rule.new result }
{
    match heard {
        Heard::Taken => DONE,
        Heard::Late => LATE,
        Heard::Refused(broken) => {
            *rule = *broken as u32;
            REFUSED
        }
        Heard::Closing(broken) => {
            *rule = *broken as u32;
            CLOSING
        }
        Heard::NoMemory => NO_MEMORY,
    }
}

fn leave(alloc: Global, game: &mut Stepped, seat: u32) -> u32
    ensures { Leaves seat game.old game.new result }
{
    if seat > 3 {
        return NO_SEAT;
    }
    leave_one(alloc, game, seat as u8)
}

// One of the four seats leaves.
fn leave_one(alloc: Global, game: &mut Stepped, seat: u8) -> u32
    ensures { LeavesOne seat game.old game.new result }
{
    let Some(author) = game.author(seat) else {
        return NOT_PRESENT;
    };
    match game.gone(alloc, author, seat) {
        Left::Gone => DONE,
        Left::NoMemory => NO_MEMORY,
    }
}

fn expire(alloc: Global, game: &mut Stepped, window: u32, t1: u64, t2: u64) -> u32
    ensures { Expires window t1 t2 game.old game.new result }
{
    match game.expire(alloc, CLOCK, window, t1, t2) {
        Expiry::Closed => DONE,
        Expiry::Stale => STALE,
        Expiry::Early => EARLY,
        Expiry::NoMemory => NO_MEMORY,
    }
}
