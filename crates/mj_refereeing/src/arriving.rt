//! What a line does to a game in play, and what it tells one seat.

ghost use Rattle.std.specs.Prelude.{◌≡◌, ◌≤◌, ◌<◌, ◌==◌, ℕ, true, false, List, Some, None, length, IfOk, OnOk};
ghost use Rattle.mj_bytes.specs.Adds.{Adds};
ghost use Rattle.mj_deeds.specs.Answers.{is_in_form};
ghost use Rattle.mj_forms.specs.AnswerForms.{answer_of};
ghost use Rattle.mj_history.specs.Legal.{can_say};
ghost use Rattle.mj_history.specs.Arrivals.{arrives, sit_arrives, say_arrives, gone_arrives, expiry_arrives};
ghost use Rattle.mj_core.specs.Calls.{author_of_seat, after_of};
ghost use Rattle.mj_refereeing.specs.Inner.Forms.{line_of, pass_text, IsOfSeat};
ghost use Rattle.mj_refereeing.specs.Inner.Intake.{intake_of, greeting, greeting_again, told_again_in, present_in, last_lines, InPlay, Does};

use crate::form::{ArrivalForm, FirstLine, read_form};
use mj_core::{Expiry, Heard, Left, SeatGame, SitAnswer, Umpire, Untold, write_control};
use mj_deeds::Answer;
use mj_ports::Control;
use mjai_answers::read_answer;
use std::alloc::{AllocError, Global};

/// The author of each line that wants a seat.
pub(crate) const JOINER: u8 = 1;

/// The author of each expiry.
pub(crate) const CLOCK: u8 = 0;

/// What a line does.
#[derive(Clone, Copy)]
pub(crate) enum Arrived {
    /// It is an arrival in its place.
    Leads,
    /// It is no arrival in its place.
    Bad,
}

/// What a seat that passes says in the usual spelling, as it reads.
pub(crate) fn usual_pass(alloc: Global) -> Result<Answer, AllocError>
    ensures { IfOk result (λ pass. pass ≡ answer_of pass_text) }
{
    read_answer(alloc, b"{\"type\":\"none\"}")
}

/// Hears the first line of what arrives in a game in play, and writes what it tells the seat after what the seat was told. What the
/// usual pass reads as is given.
pub(crate) fn take_first(
    alloc: Global,
    core: &mut SeatGame,
    told: &mut Vec<u8>,
    first: FirstLine<'_>,
    pass: &Answer,
) -> Result<Arrived, AllocError>
    requires play { InPlay core.old.seat core.old.game told.old.items }
    requires seat { IsOfSeat first }
    requires pass { pass.now ≡ answer_of pass_text }
    ensures does { IfOk result (λ step. Does step core.old.seat core.old.game core.new.game told.old.items
        told.new.items
        (arrives (intake_of core.old.game) (line_of first.entry))) }
    ensures seat { core.new.seat ≡ core.old.seat }
{
    match first {
        FirstLine::Pass(who) => say(alloc, core, told, u64::from(who), pass),
        FirstLine::Other(line) => take_line(alloc, core, told, line),
    }
}

// Hears one line.
#[tactic(auto, using(crate::proofs::PlayLaws::late_walls), unfolding(mj_history::specs::Arrivals::arrives))]
fn take_line(
    alloc: Global,
    core: &mut SeatGame,
    told: &mut Vec<u8>,
    line: &[u8],
) -> Result<Arrived, AllocError>
    requires { InPlay core.old.seat core.old.game told.old.items }
    ensures does { IfOk result (λ step. Does step core.old.seat core.old.game core.new.game told.old.items
        told.new.items
        (arrives (intake_of core.old.game) line.now)) }
    ensures seat { core.new.seat ≡ core.old.seat }
{
    match read_form(alloc, line)? {
        ArrivalForm::Header(_) => Ok(Arrived::Bad),
        ArrivalForm::Wall(_) => Ok(Arrived::Bad),
        ArrivalForm::Sit(line) => sit(alloc, core, told, line),
        ArrivalForm::Say { seat: who, line } => say_line(alloc, core, told, who, line),
        ArrivalForm::Leave(who) => leave(alloc, core, told, who),
        ArrivalForm::Expire { window, t1, t2 } => expire(alloc, core, window, t1, t2),
        ArrivalForm::NoForm => Ok(Arrived::Bad),
    }
}

// Somebody wants a seat. The seat whose bytes are gathered is greeted, and told again what it was told before where it
// comes back.
fn sit(
    alloc: Global,
    core: &mut SeatGame,
    told: &mut Vec<u8>,
    line: &[u8],
) -> Result<Arrived, AllocError>
    requires { InPlay core.old.seat core.old.game told.old.items }
    ensures does { IfOk result (λ step. Does step core.old.seat core.old.game core.new.game told.old.items
        told.new.items
        (sit_arrives (intake_of core.old.game) line.now)) }
    ensures seat { core.new.seat ≡ core.old.seat }
{
    let seat = core.seat();
    match core.sit(alloc, JOINER, line) {
        SitAnswer::Sat(taken) => {
            greet(alloc, told, taken, seat)?;
            Ok(Arrived::Leads)
        }
        SitAnswer::Back(taken) => {
            greet_again(alloc, core, told, taken)?;
            Ok(Arrived::Leads)
        }
        SitAnswer::Refused(_) => Ok(Arrived::Leads),
        SitAnswer::NoMemory => Err(AllocError),
    }
}

// Greets a seat, where it is the one that was taken.
pub(crate) fn greet(
    alloc: Global,
    told: &mut Vec<u8>,
    taken: u8,
    seat: u8,
) -> Result<(), AllocError>
    ensures { OnOk result (Adds told.old.items told.new.items (greeting taken seat)) }
{
    if taken == seat {
        return write_control(alloc, &Control::Hello, told);
    }
    Ok(())
}

// Greets the seat, where it is the one that was taken back.
pub(crate) fn greet_again(
    alloc: Global,
    core: &SeatGame,
    told: &mut Vec<u8>,
    taken: u8,
) -> Result<(), AllocError>
    requires { taken < 4 }
    ensures { OnOk result (Adds told.old.items told.new.items
        (greeting_again taken core.now.seat core.now.game)) }
{
    if taken == core.seat() {
        return tell_again(alloc, core, told);
    }
    Ok(())
}

// Tells the seat, which is back, how many lines it is told again, and these lines.
fn tell_again(alloc: Global, core: &SeatGame, told: &mut Vec<u8>) -> Result<(), AllocError>
    requires { core.now.seat < 4 }
    ensures { OnOk result (Adds told.old.items told.new.items
        (told_again_in core.now.seat core.now.game)) }
{
    let due = core.umpire().due(core.seat());
    write_control(alloc, &Control::Hello, told)?;
    write_control(alloc, &Control::Head(due), told)?;
    for k in 0..due {
        core.push_line(k, told)?;
    }
    Ok(())
}

// Somebody says a line.
fn say_line(
    alloc: Global,
    core: &mut SeatGame,
    told: &mut Vec<u8>,
    who: u64,
    line: &[u8],
) -> Result<Arrived, AllocError>
    requires { InPlay core.old.seat core.old.game told.old.items }
    ensures does { IfOk result (λ step. Does step core.old.seat core.old.game core.new.game told.old.items
        told.new.items
        (say_arrives (intake_of core.old.game) who line.now)) }
    ensures seat { core.new.seat ≡ core.old.seat }
{
    match read_answer(alloc, line) {
        Ok(answer) => say(alloc, core, told, who, &answer),
        Err(e) => Err(e),
    }
}

// Somebody says what reads as this answer.
#[tactic(auto, using(crate::proofs::PlayLaws::saying))]
fn say(
    alloc: Global,
    core: &mut SeatGame,
    told: &mut Vec<u8>,
    who: u64,
    answer: &Answer,
) -> Result<Arrived, AllocError>
    requires play { InPlay core.old.seat core.old.game told.old.items }
    requires form { is_in_form answer.now ≡ true }
    ensures does { IfOk result (λ step. (text : List ℕ) → answer.now ≡ answer_of text
        → Does step core.old.seat core.old.game core.new.game told.old.items told.new.items
        (say_arrives (intake_of core.old.game) who text)) }
    ensures seat { core.new.seat ≡ core.old.seat }
{
    let Some((speaker, author)) = present(core.umpire(), who) else {
        return Ok(Arrived::Bad);
    };
    if !core.umpire().may_say(speaker) {
        return Ok(Arrived::Bad);
    }
    if speaker == core.seat() {
        return own_answer(alloc, core, told, author, answer);
    }
    others_answer(alloc, core, author, speaker, answer)
}

// A seat that is present, with its author.
pub(crate) fn present(game: &Umpire<Untold>, who: u64) -> Option<(u8, u8)>
    requires { length (after_of game.now).chairs ≤ 4 }
    ensures { result ≡ present_in game.now who }
{
    if who > 3 {
        return None;
    }
    let who = who as u8;
    Some((who, game.author(who)?))
}

// The seat itself answers, once its due deed exists. It is first told what is pending, and then the rule that it breaks.
fn own_answer(
    alloc: Global,
    core: &mut SeatGame,
    told: &mut Vec<u8>,
    author: u8,
    answer: &Answer,
) -> Result<Arrived, AllocError>
    requires play { InPlay core.old.seat core.old.game told.old.items }
    requires form { is_in_form answer.now ≡ true }
    requires present { author_of_seat core.old.game core.old.seat ≡ Some author }
    requires asked { can_say (after_of core.old.game) author core.old.seat ≡ true }
    ensures does { IfOk result (λ step. (text : List ℕ) → answer.now ≡ answer_of text
        → Does step core.old.seat core.old.game core.new.game told.old.items told.new.items
        (say_arrives (intake_of core.old.game) core.old.seat text)) }
    ensures seat { core.new.seat ≡ core.old.seat }
{
    let seat = core.seat();
    core.pending(told)?;
    match core.hear(alloc, author, seat, answer) {
        Heard::Taken => Ok(Arrived::Leads),
        Heard::Late => Ok(Arrived::Leads),
        Heard::Refused(rule) => {
            write_control(alloc, &Control::Refused(rule), told)?;
            Ok(Arrived::Leads)
        }
        Heard::Closing(rule) => {
            write_control(alloc, &Control::Refused(rule), told)?;
            Ok(Arrived::Leads)
        }
        Heard::NoMemory => Err(AllocError),
    }
}

// A seat answers, once its due deed exists, which tells no other seat anything.
fn others_answer(
    alloc: Global,
    core: &mut SeatGame,
    author: u8,
    who: u8,
    answer: &Answer,
) -> Result<Arrived, AllocError>
    requires form { is_in_form answer.now ≡ true }
    requires present { author_of_seat core.old.game who ≡ Some author }
    requires asked { can_say (after_of core.old.game) author who ≡ true }
    ensures does { IfOk result (λ step. (seat : ℕ) (told text : List ℕ) → answer.now ≡ answer_of text
        → (who == seat) ≡ false → InPlay seat core.old.game told
        → Does step seat core.old.game core.new.game told told
        (say_arrives (intake_of core.old.game) who text)) }
    ensures seat { core.new.seat ≡ core.old.seat }
{
    match core.hear(alloc, author, who, answer) {
        Heard::Taken => Ok(Arrived::Leads),
        Heard::Late => Ok(Arrived::Leads),
        Heard::Refused(_) => Ok(Arrived::Leads),
        Heard::Closing(_) => Ok(Arrived::Leads),
        Heard::NoMemory => Err(AllocError),
    }
}

// A seat leaves. The seat whose bytes are gathered was told what was pending.
#[tactic(auto, using(crate::proofs::PlayLaws::leaving))]
fn leave(
    alloc: Global,
    core: &mut SeatGame,
    told: &mut Vec<u8>,
    who: u64,
) -> Result<Arrived, AllocError>
    requires { InPlay core.old.seat core.old.game told.old.items }
    ensures does { IfOk result (λ step. Does step core.old.seat core.old.game core.new.game told.old.items
        told.new.items
        (gone_arrives (intake_of core.old.game) who)) }
    ensures seat { core.new.seat ≡ core.old.seat }
{
    let Some((leaver, author)) = present(core.umpire(), who) else {
        return Ok(Arrived::Bad);
    };
    tell_last(core, told, leaver)?;
    match core.gone(alloc, author, leaver) {
        Left::Gone => Ok(Arrived::Leads),
        Left::NoMemory => Err(AllocError),
    }
}

// Tells the seat what is pending, where it is the one that leaves.
pub(crate) fn tell_last(core: &SeatGame, told: &mut Vec<u8>, leaver: u8) -> Result<(), AllocError>
    ensures { OnOk result (Adds told.old.items told.new.items
        (last_lines leaver core.now.seat core.now.game)) }
{
    if leaver == core.seat() {
        return core.pending(told);
    }
    Ok(())
}

// The time of a window may have run out, which tells no seat anything.
fn expire(
    alloc: Global,
    core: &mut SeatGame,
    window: u32,
    t1: u64,
    t2: u64,
) -> Result<Arrived, AllocError>
    ensures does { IfOk result (λ step. (seat : ℕ) (told : List ℕ) → InPlay seat core.old.game told
        → Does step seat core.old.game core.new.game told told
        (expiry_arrives (intake_of core.old.game) window t1 t2)) }
    ensures seat { core.new.seat ≡ core.old.seat }
{
    match core.expire(alloc, CLOCK, window, t1, t2) {
        Expiry::Closed => Ok(Arrived::Leads),
        Expiry::Stale => Ok(Arrived::Leads),
        Expiry::Early => Ok(Arrived::Leads),
        Expiry::NoMemory => Err(AllocError),
    }
}
