//! The calls that a journal keeps, and their texts.

ghost use Rattle.std.specs.Prelude.{◌≡◌, ◌↔◌, ◌<◌, ◌^◌, ◌++◌, ◌∷◌, [], false, codes, option_map, option_and_then, IfOk, IfSome, OnOk, IsTrue};
ghost use Rattle.std.specs.Option.{SomeIff};
ghost use Rattle.mj_bytes.specs.Adds.{Adds};
ghost use Rattle.mj_bytes.specs.Numbers.{number_text, decimal_of};
ghost use Rattle.mj_bytes.specs.Parts.{has_byte, parted};
ghost use Rattle.mj_journal.specs.Calls.{IsLine, IsSized, author_of_call, text_of, arrival_text, times_text, number_below, call_of, arrival_of, call_by, sit_of, say_of, gone_of, expire_of, times_of};
ghost use Rattle.mj_journal.specs.Meant.{meant};

use crate::record::Record;
use mj_bytes::{push_all, push_number, read_number, split_at_first, split_space};
use std::alloc::{AllocError, Global};

/// The most bytes that the line of a player may have.
const LINE_LIMIT: usize = 4095;

/// A call on a game, and its author. A seat is 0 to 3, and times are in milliseconds.
#[derive(Drop)]
pub enum GameCall<'a> {
    /// Somebody wants a seat.
    Sit {
        author: u8,
        line: &'a [u8],
    },
    /// A seat says a line.
    Say {
        author: u8,
        seat: u8,
        line: &'a [u8],
    },
    /// A seat leaves.
    Leave {
        author: u8,
        seat: u8,
    },
    /// The time of a window may have run out between two readings of a clock.
    Expire {
        author: u8,
        window: u32,
        t1: u64,
        t2: u64,
    },
}

impl GameCall<'_> {
    fn author(&self) -> u8
        ensures { result ≡ author_of_call (meant self.now) }
    {
        match self {
            GameCall::Sit { author, .. } => *author,
            GameCall::Say { author, .. } => *author,
            GameCall::Leave { author, .. } => *author,
            GameCall::Expire { author, .. } => *author,
        }
    }
}

/// The call that a payload tells; none where it tells none.
#[tactic(auto, unfolding(crate::specs::Calls::call_of))]
pub(crate) fn read_call(payload: &[u8]) -> Option<GameCall<'_>>
    ensures { option_map meant result ≡ call_of payload.now }
{
    if has_newline(payload) {
        return None;
    }
    let (author, text) = split_space(payload)?;
    let author = read_below(author, 256)? as u8;
    read_arrival(author, text)
}

/// Whether a text is a line that a journal keeps: it has at most 4,095 bytes, and none is a newline.
pub fn is_line(text: &[u8]) -> bool
    ensures { IsTrue result ↔ IsLine text.now }
{
    text.len() <= LINE_LIMIT && !has_newline(text)
}

#[tactic(auto, using(crate::proofs::CallTexts::newline_at))]
fn has_newline(text: &[u8]) -> bool
    ensures { result ≡ has_byte 10 text.now }
{
    match split_at_first(text, b'\n') {
        Some(_) => true,
        None => false,
    }
}

// A number below a bound.
fn read_below(text: &[u8], bound: u64) -> Option<u64>
    ensures number { result ≡ number_below bound text.now }
    ensures small { IfSome result (λ n. n < bound) }
{
    let number = read_number(text)?;
    if number >= bound {
        return None;
    }
    Some(number)
}

// The call of an author that the line of an arrival tells.
#[tactic(auto, unfolding(crate::specs::Calls::arrival_of))]
fn read_arrival(author: u8, text: &[u8]) -> Option<GameCall<'_>>
    ensures { option_map meant result ≡ arrival_of author text.now }
{
    let (word, text) = split_space(text)?;
    call_named(author, word, text)
}

#[tactic(auto, unfolding(crate::specs::Calls::call_by))]
fn call_named<'a>(author: u8, word: &[u8], text: &'a [u8]) -> Option<GameCall<'a>>
    ensures { option_map meant result ≡ call_by author word.now text.now }
{
    if word == b"sit".as_slice() {
        return read_sit(author, text);
    }
    if word == b"say".as_slice() {
        return read_say(author, text);
    }
    if word == b"gone".as_slice() {
        return read_gone(author, text);
    }
    if word == b"expire".as_slice() {
        return read_expire(author, text);
    }
    None
}

#[tactic(auto, unfolding(crate::specs::Calls::sit_of))]
fn read_sit(author: u8, line: &[u8]) -> Option<GameCall<'_>>
    ensures { option_map meant result ≡ sit_of author line.now }
{
    if line.len() > LINE_LIMIT {
        return None;
    }
    Some(GameCall::Sit { author, line })
}

#[tactic(auto, unfolding(crate::specs::Calls::say_of))]
fn read_say(author: u8, text: &[u8]) -> Option<GameCall<'_>>
    ensures { option_map meant result ≡ say_of author text.now }
{
    let (seat, line) = split_space(text)?;
    let seat = read_below(seat, 4)? as u8;
    if line.len() > LINE_LIMIT {
        return None;
    }
    Some(GameCall::Say { author, seat, line })
}

#[tactic(auto, unfolding(crate::specs::Calls::gone_of))]
fn read_gone<'a>(author: u8, text: &[u8]) -> Option<GameCall<'a>>
    ensures { option_map meant result ≡ gone_of author text.now }
{
    let seat = read_below(text, 4)? as u8;
    Some(GameCall::Leave { author, seat })
}

#[tactic(auto, unfolding(crate::specs::Calls::expire_of))]
fn read_expire<'a>(author: u8, text: &[u8]) -> Option<GameCall<'a>>
    ensures { option_map meant result ≡ expire_of author text.now }
{
    let (window, times) = split_space(text)?;
    let window = read_below(window, 1 << 32)? as u32;
    read_times(author, window, times)
}

#[tactic(auto, unfolding(crate::specs::Calls::times_of))]
fn read_times<'a>(author: u8, window: u32, text: &[u8]) -> Option<GameCall<'a>>
    ensures { option_map meant result ≡ times_of author window text.now }
{
    let (t1, t2) = split_space(text)?;
    let t1 = read_number(t1)?;
    let t2 = read_number(t2)?;
    Some(GameCall::Expire {
        author,
        window,
        t1,
        t2,
    })
}

/// The record of a call, as a journal keeps it. Its seat is 0 to 3, and the line of a player is one that a journal keeps.
#[tactic(auto, using(crate::proofs::CallTexts::text_short))]
pub fn call_record(alloc: Global, call: &GameCall<'_>) -> Result<Record, AllocError>
    requires { IsSized (meant call.now) }
    ensures { IfOk result (λ entry. entry ≡ text_of (meant call.now)) }
{
    let mut text = Vec::new(alloc);
    push_call(&mut text, call)?;
    Record::of(alloc, &text)
}

fn push_call(text: &mut Vec<u8>, call: &GameCall<'_>) -> Result<(), AllocError>
    ensures { OnOk result (Adds text.old.items text.new.items (text_of (meant call.now))) }
{
    push_field(text, u64::from(call.author()))?;
    push_arrival(text, call)?;
    Ok(())
}

// A number and the space after it.
fn push_field(text: &mut Vec<u8>, number: u64) -> Result<(), AllocError>
    ensures { OnOk result (Adds text.old.items text.new.items (number_text number ++ 32 ∷ [])) }
{
    push_number(text, number)?;
    push_all(text, b" ")?;
    Ok(())
}

fn push_arrival(text: &mut Vec<u8>, call: &GameCall<'_>) -> Result<(), AllocError>
    ensures { OnOk result (Adds text.old.items text.new.items (arrival_text (meant call.now))) }
{
    match call {
        GameCall::Sit { line, .. } => push_sit(text, line),
        GameCall::Say { seat, line, .. } => push_say(text, *seat, line),
        GameCall::Leave { seat, .. } => push_gone(text, *seat),
        GameCall::Expire { window, t1, t2, .. } => push_expire(text, *window, *t1, *t2),
    }
}

fn push_sit(text: &mut Vec<u8>, line: &[u8]) -> Result<(), AllocError>
    ensures { OnOk result (Adds text.old.items text.new.items (codes "sit " ++ line.now)) }
{
    push_all(text, b"sit ")?;
    push_all(text, line)?;
    Ok(())
}

fn push_say(text: &mut Vec<u8>, seat: u8, line: &[u8]) -> Result<(), AllocError>
    ensures { OnOk result (Adds text.old.items text.new.items
        (codes "say " ++ (number_text seat ++ 32 ∷ line.now))) }
{
    push_all(text, b"say ")?;
    push_field(text, u64::from(seat))?;
    push_all(text, line)?;
    Ok(())
}

fn push_gone(text: &mut Vec<u8>, seat: u8) -> Result<(), AllocError>
    ensures { OnOk result (Adds text.old.items text.new.items (codes "gone " ++ number_text seat)) }
{
    push_all(text, b"gone ")?;
    push_number(text, u64::from(seat))?;
    Ok(())
}

fn push_expire(text: &mut Vec<u8>, window: u32, t1: u64, t2: u64) -> Result<(), AllocError>
    ensures { OnOk result (Adds text.old.items text.new.items
        (codes "expire " ++ (number_text window ++ 32 ∷ times_text t1 t2))) }
{
    push_all(text, b"expire ")?;
    push_field(text, u64::from(window))?;
    push_times(text, t1, t2)?;
    Ok(())
}

fn push_times(text: &mut Vec<u8>, t1: u64, t2: u64) -> Result<(), AllocError>
    ensures { OnOk result (Adds text.old.items text.new.items (times_text t1 t2)) }
{
    push_field(text, t1)?;
    push_number(text, t2)?;
    Ok(())
}
