//! The command that words ask for.

ghost use Rattle.std.specs.Prelude.{◌≡◌, map, codes, IfOk, option_and_then};
ghost use Rattle.std.specs.String.{string_bytes};
ghost use Rattle.mj_words.specs.Asked.{asked_by, seat_named, referee_asked, serve_asked, replay_asked, hand_asked, self_play_asked, observe_asked, keep_asked, safe_asked, tables_asked};
ghost use Rattle.mj_words.specs.Commands.{asked_by_command};
ghost use Rattle.mj_words.specs.Lines.{seat_line, value_in};

use crate::options::{serving_of, tables_of};
use crate::parsing::{hand_words, number_word, seat_word, takes_observe, takes_replay};
use crate::serving::{Hosting, Serving};
use mj_bytes::read_number;
use std::alloc::{AllocError, Global};

/// What words ask for.
#[derive(Drop)]
pub enum Command {
    /// The referee of a seat, 0 to 3.
    Referee(u8),
    /// A game that is served.
    Serve(Serving),
    /// The summary of a record.
    Replay,
    /// The lines of the hand that these words name.
    Hand(Vec<String>),
    /// The self-played game of a number.
    SelfPlay(u64),
    /// The public view of a record.
    Observe,
    /// The referee of a seat, 0 to 3, whose game is kept on a disk.
    Keep(u8),
    /// The kinds that are safe for a seat, 0 to 3.
    Safe(u8),
    /// A game in each of some rooms, all of them served.
    Tables(Hosting),
    /// Nothing that there is.
    Unknown,
}

/// The command that words ask for, which leave out the program's name. The first is the command, and the others are read by
/// clap: a seat after `referee`, `keep` and `safe`, options after `serve` and `tables`, nothing after `replay` and `observe`, one word
/// or more after `hand`, and a number after `selfplay`. The only error is running out of memory.
pub fn command_of(alloc: Global, words: &[String]) -> Result<Command, AllocError>
    ensures { IfOk result (λ command. asked_by_command command
        ≡ asked_by (map string_bytes words.now)) }
{
    let [first, ..] = words else {
        return Ok(Command::Unknown);
    };
    let name = first.as_str();
    if name == "referee" {
        return referee_of(alloc, words);
    }
    if name == "serve" {
        return serve_of(alloc, words);
    }
    if name == "replay" {
        return replay_of(alloc, words);
    }
    if name == "hand" {
        return hand_of(alloc, words);
    }
    if name == "selfplay" {
        return self_play_of(alloc, words);
    }
    if name == "observe" {
        return observe_of(alloc, words);
    }
    if name == "keep" {
        return keep_of(alloc, words);
    }
    if name == "safe" {
        return safe_of(alloc, words);
    }
    if name == "tables" {
        return hosting_of(alloc, words);
    }
    Ok(Command::Unknown)
}

// The referee of the seat that the words after the first say.
#[tactic(auto, unfolding(crate::specs::Lines::referee_line))]
fn referee_of(alloc: Global, words: &[String]) -> Result<Command, AllocError>
    ensures { IfOk result (λ command. asked_by_command command
        ≡ referee_asked (map string_bytes words.now)) }
{
    match seat_of(alloc, "referee", words)? {
        Some(seat) => Ok(Command::Referee(seat)),
        None => Ok(Command::Unknown),
    }
}

// The game that is served with what the words after the first say.
fn serve_of(alloc: Global, words: &[String]) -> Result<Command, AllocError>
    ensures { IfOk result (λ command. asked_by_command command
        ≡ serve_asked (map string_bytes words.now)) }
{
    match serving_of(alloc, words)? {
        Some(serving) => Ok(Command::Serve(serving)),
        None => Ok(Command::Unknown),
    }
}

// The summary of a record, where no words stand after the first.
fn replay_of(alloc: Global, words: &[String]) -> Result<Command, AllocError>
    ensures { IfOk result (λ command. asked_by_command command
        ≡ replay_asked (map string_bytes words.now)) }
{
    if takes_replay(alloc, words)? {
        return Ok(Command::Replay);
    }
    Ok(Command::Unknown)
}

// The hand that the words after the first name.
fn hand_of(alloc: Global, words: &[String]) -> Result<Command, AllocError>
    ensures { IfOk result (λ command. asked_by_command command
        ≡ hand_asked (map string_bytes words.now)) }
{
    match hand_words(alloc, words)? {
        Some(others) => Ok(Command::Hand(others)),
        None => Ok(Command::Unknown),
    }
}

// The self-played game of the number that the words after the first say.
fn self_play_of(alloc: Global, words: &[String]) -> Result<Command, AllocError>
    ensures { IfOk result (λ command. asked_by_command command
        ≡ self_play_asked (map string_bytes words.now)) }
{
    let Some(word) = number_word(alloc, words)? else {
        return Ok(Command::Unknown);
    };
    match read_number(word.as_bytes()) {
        Some(number) => Ok(Command::SelfPlay(number)),
        None => Ok(Command::Unknown),
    }
}

// The public view of a record, where no words stand after the first.
fn observe_of(alloc: Global, words: &[String]) -> Result<Command, AllocError>
    ensures { IfOk result (λ command. asked_by_command command
        ≡ observe_asked (map string_bytes words.now)) }
{
    if takes_observe(alloc, words)? {
        return Ok(Command::Observe);
    }
    Ok(Command::Unknown)
}

// The kept game of the seat that the words after the first say.
#[tactic(auto, unfolding(crate::specs::Lines::keep_line))]
fn keep_of(alloc: Global, words: &[String]) -> Result<Command, AllocError>
    ensures { IfOk result (λ command. asked_by_command command
        ≡ keep_asked (map string_bytes words.now)) }
{
    match seat_of(alloc, "keep", words)? {
        Some(seat) => Ok(Command::Keep(seat)),
        None => Ok(Command::Unknown),
    }
}

// The safe kinds of the seat that the words after the first say.
#[tactic(auto, unfolding(crate::specs::Lines::safe_line))]
fn safe_of(alloc: Global, words: &[String]) -> Result<Command, AllocError>
    ensures { IfOk result (λ command. asked_by_command command
        ≡ safe_asked (map string_bytes words.now)) }
{
    match seat_of(alloc, "safe", words)? {
        Some(seat) => Ok(Command::Safe(seat)),
        None => Ok(Command::Unknown),
    }
}

// The games in rooms that are served with what the words after the first say.
fn hosting_of(alloc: Global, words: &[String]) -> Result<Command, AllocError>
    ensures { IfOk result (λ command. asked_by_command command
        ≡ tables_asked (map string_bytes words.now)) }
{
    match tables_of(alloc, words)? {
        Some(hosting) => Ok(Command::Tables(hosting)),
        None => Ok(Command::Unknown),
    }
}

// The seat that the one word after a command names.
fn seat_of<'a>(alloc: Global, name: &'a str, words: &'a [String]) -> Result<Option<u8>, AllocError>
    ensures { IfOk result (λ seat. seat
        ≡ option_and_then seat_named (value_in (seat_line name.now) (codes "seat") (map string_bytes words.now))) }
{
    match seat_word(alloc, name, words)? {
        Some(word) => Ok(named_seat(word)),
        None => Ok(None),
    }
}

// The seat that a word names.
fn named_seat(word: &str) -> Option<u8>
    ensures { result ≡ seat_named word.now }
{
    match word {
        "0" => Some(0),
        "1" => Some(1),
        "2" => Some(2),
        "3" => Some(3),
        _ => None,
    }
}
