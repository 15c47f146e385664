//! Answers by their numbers, and seats that pass where they can do nothing else.

ghost use Rattle.std.specs.Prelude.{◌≡◌, ◌≤◌, ◌<◌, true, length, None, IfOk, MatchOption};
ghost use Rattle.mj_core.specs.Calls.{after_of, line_of};
ghost use Rattle.mj_embedded.specs.Calls.{OnGame};
ghost use Rattle.mj_embedded.specs.Turns.{Chooses, Counts, Passed, PassesOn, Plays, Turns, IsTurn, asked_seat, can_only_pass, shows_pass};
ghost use Rattle.mj_embedded.specs.Inner.Looks.{LooksAt, HasPassed};

use crate::answer::{DONE, GO_ON, LATE, NO_CHOICE, NO_GAME, NO_MEMORY, NO_SEAT};
use crate::arrivals::give;
use crate::handle::Table;
use crate::reads::line_of;
use mj_deeds::{Answer, next_seat};
use mj_stepped::Stepped;
use std::alloc::{AllocError, Global};

// How often it is looked in one call at most whether a seat can only pass.
const LOOKS: u32 = 1_000_000;

/// Whose turn it is.
#[repr(C)]
#[derive(Clone, Copy)]
pub struct Turn {
    /// The first seat that may say a line; 4 where none may.
    pub seat: u32,
    /// The number of deeds.
    pub deeds: u32,
    /// Whether the game has ended.
    pub is_over: bool,
}

impl Table {
    /// Each seat passes whose line lists a pass alone, until there is none, and then `turn` says whose turn it is. DONE;
    /// NO_GAME, and then `turn` stays as it was; NO_MEMORY, and then some may have passed; or GO_ON where a million looks at a
    /// seat were not enough.
    pub fn turn(&mut self, alloc: Global, turn: &mut Turn) -> u32
        ensures told { OnGame (Turns turn.new) self.old.held.game self.new.held.game result }
        ensures without { self.old.held.game ≡ None → turn.new ≡ turn.old }
    {
        let Some(mut game) = self.take(alloc) else {
            return NO_GAME;
        };
        let answer = go_on(alloc, &mut game, turn);
        self.put(game);
        answer
    }

    /// A seat gives answer `k` of those that it may give to the newest deed, in the order in which its line lists them; then the
    /// call does what `turn` does, and answers as that. Where the answer can't be given, or breaks a rule, it answers as `say`
    /// does, NO_CHOICE where the list hasn't so many, and `turn` stays as it was.
    pub fn choose(
        &mut self,
        alloc: Global,
        seat: u32,
        k: u32,
        rule: &mut u32,
        turn: &mut Turn,
    ) -> u32
        ensures told { OnGame (Plays seat k rule.old rule.new turn.old turn.new) self.old.held.game self.new.held.game result }
        ensures without { self.old.held.game ≡ None → turn.new ≡ turn.old }
        ensures unbroken { self.old.held.game ≡ None → rule.new ≡ rule.old }
    {
        let Some(mut game) = self.take(alloc) else {
            return NO_GAME;
        };
        let answer = play(alloc, &mut game, seat, k, rule, turn);
        self.put(game);
        answer
    }

    /// How many answers a seat may give to the newest deed: DONE, or NO_GAME, NO_SEAT or NO_MEMORY, and then `count` stays as it
    /// was.
    pub fn choices(&mut self, alloc: Global, seat: u32, count: &mut u64) -> u32
        ensures told { OnGame (Counts seat count.old count.new) self.old.held.game self.new.held.game result }
        ensures without { self.old.held.game ≡ None → count.new ≡ count.old }
    {
        let Some(mut game) = self.take(alloc) else {
            return NO_GAME;
        };
        let answer = count_choices(alloc, &mut game, seat, count);
        self.put(game);
        answer
    }
}

fn go_on(alloc: Global, game: &mut Stepped, turn: &mut Turn) -> u32
    ensures { Turns turn.new game.old game.new result }
{
    let answer = pass_on(alloc, game);
    *turn = turn_of(game);
    answer
}

fn play(
    alloc: Global,
    game: &mut Stepped,
    seat: u32,
    k: u32,
    rule: &mut u32,
    turn: &mut Turn,
) -> u32
    ensures { Plays seat k rule.old rule.new turn.old turn.new game.old game.new result }
{
    let chosen = choose(alloc, game, seat, k, rule);
    if chosen != DONE && chosen != LATE {
        return chosen;
    }
    go_on(alloc, game, turn)
}

// A seat gives the answer of a number.
fn choose(alloc: Global, game: &mut Stepped, seat: u32, k: u32, rule: &mut u32) -> u32
    ensures { Chooses seat k rule.old rule.new game.old game.new result }
{
    if seat > 3 {
        return NO_SEAT;
    }
    match game.choice(alloc, seat as u8, k) {
        Ok(Some(choice)) => give(alloc, game, seat as u8, &choice, rule),
        Ok(None) => NO_CHOICE,
        Err(_) => NO_MEMORY,
    }
}

fn count_choices(alloc: Global, game: &mut Stepped, seat: u32, count: &mut u64) -> u32
    ensures { Counts seat count.old count.new game.old game.new result }
{
    if seat > 3 {
        return NO_SEAT;
    }
    match game.choices(alloc, seat as u8) {
        Ok(many) => {
            *count = many as u64;
            DONE
        }
        Err(_) => NO_MEMORY,
    }
}

// The four seats are looked at in turn, and each passes that can only pass, until four in a row can do something else.
fn pass_on(alloc: Global, game: &mut Stepped) -> u32
    ensures { PassesOn game.old game.new result }
{
    let mut seat = 0;
    let mut still = 0;
    for _ in 0..LOOKS {
        match look_at(alloc, game, seat, still) {
            Ok(number) => {
                if number == 4 {
                    return DONE;
                }
                still = number;
                seat = next_seat(seat);
            }
            Err(answer) => return answer,
        }
    }
    GO_ON
}

// A seat, 0 to 3, passes that can only pass. So many seats in a row can do something else: it and those before it, or none; or
// why the call ends.
fn look_at(alloc: Global, game: &mut Stepped, seat: u8, still: u8) -> Result<u8, u32>
    requires seat { seat ≤ 3 }
    requires few { still ≤ 3 }
    ensures { LooksAt seat still game.old game.new result }
{
    match can_only_pass(alloc, game, seat) {
        Ok(true) => pass(alloc, game, seat),
        Ok(false) => Ok(still + 1),
        Err(_) => Err(NO_MEMORY),
    }
}

// A seat that can only pass passes; what is answered where the pass isn't taken.
fn pass(alloc: Global, game: &mut Stepped, seat: u8) -> Result<u8, u32>
    requires { can_only_pass game.old seat ≡ true }
    ensures { HasPassed game.old game.new result }
{
    let mut rule = 0;
    let answer = give(alloc, game, seat, &Answer::Pass { actor: None }, &mut rule);
    if answer != DONE && answer != LATE {
        return Err(answer);
    }
    Ok(0)
}

// A seat, 0 to 3, may say a line, and its due deed's line lists a pass alone.
#[tactic(auto, using(crate::proofs::Passing::passes_by))]
fn can_only_pass(alloc: Global, game: &mut Stepped, seat: u8) -> Result<bool, AllocError>
    requires { seat ≤ 3 }
    ensures game { game.new ≡ game.old }
    ensures passes { IfOk result (λ passes. passes ≡ can_only_pass game.old seat) }
{
    if !game.may_say(seat) {
        return Ok(false);
    }
    let due = game.due(seat);
    if due >= game.deeds() {
        return Ok(false);
    }
    lists_pass_alone(alloc, game, seat, due)
}

// The line of a deed lists a pass alone for a seat, 0 to 3. What is listed for the newest deed is kept, so its line isn't
// rendered.
#[tactic(auto, using(crate::proofs::PassLines::kept_list))]
fn lists_pass_alone(alloc: Global, game: &mut Stepped, seat: u8, k: u32) -> Result<bool, AllocError>
    requires seat { seat ≤ 3 }
    requires deed { k < length (after_of game.old).deeds }
    ensures game { game.new ≡ game.old }
    ensures lists { IfOk result (λ lists. lists ≡ shows_pass (line_of game.old seat k)) }
{
    let deeds = game.deeds();
    if k + 1 == deeds {
        return game.passes_alone(alloc, seat);
    }
    line_lists_pass_alone(alloc, game, seat, k)
}

fn line_lists_pass_alone(
    alloc: Global,
    game: &mut Stepped,
    seat: u8,
    k: u32,
) -> Result<bool, AllocError>
    requires { seat ≤ 3 }
    ensures game { game.new ≡ game.old }
    ensures lists { IfOk result (λ lists. lists ≡ shows_pass (line_of game.old seat k)) }
{
    let line = line_of(alloc, game, seat, k)?;
    Ok(
        line.as_slice()
            .ends_with(b",\"possible_actions\":[{\"type\":\"none\"}]}\n"),
    )
}

fn turn_of(game: &Stepped) -> Turn
    ensures { IsTurn result game.now }
{
    Turn {
        seat: asked_seat(game),
        deeds: game.deeds(),
        is_over: game.over(),
    }
}

// The first seat that may say a line, or 4.
fn asked_seat(game: &Stepped) -> u32
    ensures { result ≡ asked_seat game.now }
{
    if game.may_say(0) {
        return 0;
    }
    if game.may_say(1) {
        return 1;
    }
    if game.may_say(2) {
        return 2;
    }
    if game.may_say(3) {
        return 3;
    }
    4
}
