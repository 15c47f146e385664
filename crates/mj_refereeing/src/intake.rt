//! The lines of the arrivals, heard one by one, and what is asked of their game for one seat.

ghost use Rattle.std.specs.Prelude.{◌≡◌, ◌≤◌, ◌==◌, ◌+◌, ◌&&◌, true, false, nat_lt, if◌then◌else◌, ℕ, None, [], length, IfOk, Some};
ghost use Rattle.std.specs.List.{list_all};
ghost use Rattle.mj_bytes.specs.Parts.{whole_lines, unfinished};
ghost use Rattle.mj_wall.specs.Places.{is_wall};
ghost use Rattle.mj_history.specs.Arrivals.{Input, Intake, intake_from, intake_on, header_arrives, nothing_read, at_end, input_of};
ghost use Rattle.mj_runs.specs.Inputs.{longest};
ghost use Rattle.mj_refereeing.specs.Referee.{ending};
ghost use Rattle.mj_history.specs.After.{scripts};
ghost use Rattle.mj_forms.specs.AnswerForms.{answer_of};
ghost use Rattle.mj_refereeing.specs.Inner.Forms.{pass_text};
ghost use Rattle.mj_refereeing.specs.Inner.Intake.{answer_to, first_answer, intake_of, intake_with_walls, begin_with_wall, HasNothing, InPlay, HearsAll, Tells, TellsSeat};

use crate::arriving::{Arrived, take_first, usual_pass};
use crate::form::{ArrivalForm, first_line, read_form};
use mj_bytes::split_line;
use mj_core::{NOBODY, SeatGame};
use mj_deeds::Answer;
use mj_safe::{no_safe_lines, safe_lines};
use mj_tiles::Tile;
use mj_wall::{Rules, Wall};
use std::alloc::{AllocError, Global};

/// How an input ends.
#[derive(Clone, Copy)]
pub enum End {
    /// Each line is an arrival in its place.
    Whole,
    /// This line, counted from 1, is the first that is none.
    Bad(u32),
}

/// What is asked of the game of an input.
#[derive(Clone, Copy)]
pub enum Question {
    /// What it tells the connections of a seat.
    Script,
    /// Which kinds are safe for a seat.
    SafeKinds,
}

/// What an input gives: how it ends, and the bytes that answer what is asked of its game.
#[derive(Drop)]
pub(crate) struct Told {
    pub(crate) end: End,
    pub(crate) bytes: Vec<u8>,
}

// What an input gives that ends so before a game has begun.
#[tactic(auto, using(crate::proofs::AskLaws::nothing_begun))]
fn nothing_told(alloc: Global, question: Question, end: End) -> Result<Told, AllocError>
    ensures { IfOk result (λ told. (input : Input) (seat : ℕ) → HasNothing input end
        → Tells question input seat told.end told.bytes.items) }
{
    let bytes = first_answer(alloc, question)?;
    Ok(Told { end, bytes })
}

// What answers a question before a game has begun.
fn first_answer(alloc: Global, question: Question) -> Result<Vec<u8>, AllocError>
    ensures { IfOk result (λ bytes. bytes.items ≡ first_answer question) }
{
    match question {
        Question::Script => Ok(Vec::new(alloc)),
        Question::SafeKinds => no_safe_lines(alloc),
    }
}

/// Hears an input, of at most 67,108,864 bytes, and answers what is asked of its game for a seat, 0 to 3.
#[tactic(auto, unfolding(mj_history::specs::Arrivals::arrives))]
pub(crate) fn take_in(
    alloc: Global,
    question: Question,
    seat: u8,
    input: &[u8],
) -> Result<Told, AllocError>
    requires fits { length input.now ≤ longest }
    requires seat { seat ≤ 3 }
    ensures { IfOk result (λ told. Tells question (input_of input.now) seat told.end
        told.bytes.items) }
{
    let Some((line, others)) = split_line(input) else {
        return nothing_told(alloc, question, end_at(input, 1));
    };
    match read_form(alloc, line)? {
        ArrivalForm::Header(rules) => take_header(alloc, question, seat, rules, others),
        _ => nothing_told(alloc, question, End::Bad(1)),
    }
}

// Hears what stands after a header.
#[tactic(auto, unfolding(mj_history::specs::Arrivals::header_arrives))]
fn take_header(
    alloc: Global,
    question: Question,
    seat: u8,
    rules: Rules,
    input: &[u8],
) -> Result<Told, AllocError>
    requires fits { length input.now ≤ longest }
    requires seat { seat ≤ 3 }
    requires least { 1 ≤ rules.limit }
    requires longest { rules.limit ≤ 3600000 }
    ensures { IfOk result (λ told. Tells question
        (intake_on (header_arrives nothing_read rules)
        (λ next. intake_from next 2 (whole_lines input.now) (unfinished input.now)) nothing_read 1)
        seat told.end told.bytes.items) }
{
    take_headed(alloc, question, seat, rules, input)
}

// Hears all lines after a header, the first of which is line 2: first its walls stand there.
fn take_headed(
    alloc: Global,
    question: Question,
    seat: u8,
    rules: Rules,
    input: &[u8],
) -> Result<Told, AllocError>
    requires fits { length input.now ≤ longest }
    requires seat { seat ≤ 3 }
    requires least { 1 ≤ rules.limit }
    requires longest { rules.limit ≤ 3600000 }
    ensures { IfOk result (λ told. Tells question
        (intake_from (intake_with_walls rules []) 2 (whole_lines input.now) (unfinished input.now))
        seat told.end told.bytes.items) }
{
    let mut walls = Vec::new(alloc);
    let mut rest = input;
    let mut number = 2;
    while let Some((line, others)) = split_line(rest) {
        let ArrivalForm::Wall(tiles) = read_form(alloc, line)? else {
            return take_walled(alloc, question, seat, rules, walls, rest, number);
        };
        let Some(wall) = next_wall(rules.red, walls.len(), tiles.as_slice()) else {
            return nothing_told(alloc, question, End::Bad(number));
        };
        walls.push(wall)?;
        rest = others;
        number += 1;
    }
    nothing_told(alloc, question, end_at(rest, number))
}

// The wall of these tiles, with red fives or without, after so many others: 200 at most.
pub(crate) fn next_wall(red: bool, before: usize, tiles: &[Tile]) -> Option<Wall>
    ensures { result ≡ (if is_wall red tiles.now && nat_lt before 200 then Some tiles.now else
        None) }
{
    if before >= 200 {
        return None;
    }
    match Wall::read(tiles, red) {
        Ok(wall) => Some(wall),
        Err(_) => None,
    }
}

// Hears all lines after a header and its walls, the first of which is no wall and has this number, and answers what is asked
// of the game at the end.
fn take_walled(
    alloc: Global,
    question: Question,
    seat: u8,
    rules: Rules,
    walls: Vec<Wall>,
    input: &[u8],
    number: u32,
) -> Result<Told, AllocError>
    requires fits { number + length input.now ≤ u32.MAX }
    requires seat { seat ≤ 3 }
    requires least { 1 ≤ rules.limit }
    requires longest { rules.limit ≤ 3600000 }
    requires few { length walls.items ≤ 200 }
    requires whole { list_all (is_wall rules.red) walls.items ≡ true }
    requires line { (length (whole_lines input.now) == 0) ≡ false }
    requires other { begin_with_wall (whole_lines input.now) ≡ false }
    ensures { IfOk result (λ told. Tells question
        (intake_from (intake_with_walls rules walls.items) number (whole_lines input.now)
        (unfinished input.now)) seat told.end told.bytes.items) }
{
    if walls.is_empty() {
        return nothing_told(alloc, question, End::Bad(number));
    }
    let mut core = SeatGame::new(alloc, walls, rules, told_seat(question, seat))?;
    let told = take_game(alloc, question, seat, &mut core, input, number);
    drop(core);
    told
}

// The seat that is told what comes: the one that is asked for, where its script is asked for, and else nobody.
fn told_seat(question: Question, seat: u8) -> u8
    ensures { TellsSeat question seat result }
{
    match question {
        Question::Script => seat,
        Question::SafeKinds => NOBODY,
    }
}

// What is asked of an input, over a game before its first entry.
fn take_game(
    alloc: Global,
    question: Question,
    seat: u8,
    core: &mut SeatGame,
    input: &[u8],
    number: u32,
) -> Result<Told, AllocError>
    requires new { core.old.game.entries ≡ [] }
    requires some { (length core.old.game.setting.walls == 0) ≡ false }
    requires fits { number + length input.now ≤ u32.MAX }
    requires seat { seat ≤ 3 }
    requires tells { TellsSeat question seat core.old.seat }
    requires line { (length (whole_lines input.now) == 0) ≡ false }
    requires other { begin_with_wall (whole_lines input.now) ≡ false }
    ensures { IfOk result (λ told. Tells question
        (intake_from (intake_with_walls core.old.game.setting.rules core.old.game.setting.walls) number
        (whole_lines input.now) (unfinished input.now)) seat told.end told.bytes.items) }
{
    let mut told = Vec::new(alloc);
    let end = take_lines(alloc, core, &mut told, input, number)?;
    let bytes = answer(alloc, question, seat, core, told)?;
    Ok(Told { end, bytes })
}

// What is asked of a game in play, of which its seat was told this.
fn answer(
    alloc: Global,
    question: Question,
    seat: u8,
    core: &SeatGame,
    told: Vec<u8>,
) -> Result<Vec<u8>, AllocError>
    requires play { InPlay core.now.seat core.now.game told.items }
    requires seat { seat ≤ 3 }
    requires tells { TellsSeat question seat core.now.seat }
    ensures { IfOk result (λ bytes. bytes.items ≡ answer_to question seat core.now.game) }
{
    match question {
        Question::Script => whole_script(core, told),
        Question::SafeKinds => safe_lines(alloc, core.umpire().table(), seat),
    }
}

// What the seat was told, and what is pending for it.
fn whole_script(core: &SeatGame, told: Vec<u8>) -> Result<Vec<u8>, AllocError>
    requires { InPlay core.now.seat core.now.game told.items }
    ensures { IfOk result (λ bytes. bytes.items
        ≡ scripts core.now.seat core.now.game.setting core.now.game.entries) }
{
    let mut bytes = told;
    core.pending(&mut bytes)?;
    Ok(bytes)
}

// How an input ends after its last whole line: nothing may stand there.
pub(crate) fn end_at(rest: &[u8], number: u32) -> End
    ensures { (reading : Intake) → at_end reading number rest.now
        ≡ record { reading = reading; ending = ending result } }
{
    match rest {
        [] => End::Whole,
        [_, ..] => End::Bad(number),
    }
}

// Hears all lines of a game in play, the first of which has this number.
fn take_lines(
    alloc: Global,
    core: &mut SeatGame,
    told: &mut Vec<u8>,
    input: &[u8],
    first: u32,
) -> Result<End, AllocError>
    requires play { InPlay core.old.seat core.old.game told.old.items }
    requires fits { first + length input.now ≤ u32.MAX }
    ensures hears { IfOk result (λ end. HearsAll
        (intake_from (intake_of core.old.game) first (whole_lines input.now) (unfinished input.now))
        core.old.seat end core.new.game told.new.items) }
    ensures seat { core.new.seat ≡ core.old.seat }
{
    match usual_pass(alloc) {
        Ok(pass) => take_each(alloc, core, told, input, first, &pass),
        Err(e) => Err(e),
    }
}

// Hears each of these lines. What the usual pass reads as is given.
fn take_each(
    alloc: Global,
    core: &mut SeatGame,
    told: &mut Vec<u8>,
    input: &[u8],
    first: u32,
    pass: &Answer,
) -> Result<End, AllocError>
    requires play { InPlay core.old.seat core.old.game told.old.items }
    requires fits { first + length input.now ≤ u32.MAX }
    requires pass { pass.now ≡ answer_of pass_text }
    ensures hears { IfOk result (λ end. HearsAll
        (intake_from (intake_of core.old.game) first (whole_lines input.now) (unfinished input.now))
        core.old.seat end core.new.game told.new.items) }
    ensures seat { core.new.seat ≡ core.old.seat }
{
    let mut rest = input;
    let mut number = first;
    while let Some((line, others)) = first_line(rest) {
        match take_first(alloc, core, told, line, pass)? {
            Arrived::Leads => {}
            Arrived::Bad => return Ok(End::Bad(number)),
        }
        rest = others;
        number += 1;
    }
    Ok(end_at(rest, number))
}
