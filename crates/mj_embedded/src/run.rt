//! The commands that wait for nobody and keep nothing, on bytes in memory.

ghost use Rattle.std.specs.Prelude.{◌≡◌, false, Some, None, IfOk, OnErr, if◌then◌else◌, codes, map, option_map};
ghost use Rattle.std.specs.String.{string_bytes};
ghost use Rattle.std.specs.Str.{is_utf8};
ghost use Rattle.mj_front.specs.Run.{begins_with};
ghost use Rattle.mj_embedded.specs.Runs.{RunsHere, RunsWords, RunsHeard, TellsStatus, words_of, is_apart};

use crate::out::write_out;
use mj_bytes::split_line;
use mj_front::{Status, exit_code, is_for_waiting, run_alone, status_text};
use mj_journal::MemDisk;
use mj_links::{MemSink, MemSource};
use std::alloc::{AllocError, Global};

/// Runs the command of these words, each with its newline, on this input. What it writes is written to `room` where it fits
/// there, and how much it is stands in `length`; what the program says of the ending on standard error goes to `told` and
/// `told_length` so, or nothing where memory is wanting. The result is the exit code. `serve`, `tables` and `keep`, words that
/// aren't UTF-8, and a last word without its newline are answered as faulty words are.
pub fn run_here(
    alloc: Global,
    words: &[u8],
    input: &[u8],
    room: &mut [u8],
    length: &mut u64,
    told: &mut [u8],
    told_length: &mut u64,
) -> u32
    ensures { RunsHere words.now input.now room.old room.new length.new told.old told.new told_length.new result }
{
    *length = 0;
    *told_length = 0;
    let status = run_words(alloc, words, input, room, length);
    tell_status(alloc, &status, told, told_length);
    u32::from(exit_code(&status))
}

// Says in words how a run ended.
fn tell_status(alloc: Global, status: &Status, told: &mut [u8], length: &mut u64)
    requires { length.old ≡ 0 }
    ensures { TellsStatus status.now told.old told.new length.new }
{
    if let Ok(text) = status_text(alloc, status) {
        write_out(text.as_slice(), told, length);
    }
}

// Runs the command of the words of lines.
fn run_words(alloc: Global, lines: &[u8], input: &[u8], room: &mut [u8], length: &mut u64) -> Status
    requires { length.old ≡ 0 }
    ensures { RunsWords (words_of lines.now) input.now result room.old room.new length.new }
{
    let words = match words_of(alloc, lines) {
        Ok(Some(words)) => words,
        Ok(None) => return Status::Words,
        Err(_) => return Status::NoMemory,
    };
    match run_in_memory(alloc, words.as_slice(), input, room, length) {
        Ok(status) => status,
        Err(_) => Status::NoMemory,
    }
}

// Runs the command of these words.
fn run_in_memory(
    alloc: Global,
    words: &[String],
    input: &[u8],
    room: &mut [u8],
    length: &mut u64,
) -> Result<Status, AllocError>
    requires { is_apart (map string_bytes words.now) ≡ false }
    ensures ok { IfOk result (λ status. RunsHeard (map string_bytes words.now) input.now status room.old room.new length.new) }
    ensures room { OnErr result (room.new ≡ room.old) }
    ensures length { OnErr result (length.new ≡ length.old) }
{
    let mut source = MemSource::new(Vec::from_slice(alloc, input)?, Vec::new(alloc));
    let mut sink = MemSink::new(Vec::new(alloc));
    let mut disk = MemDisk::new(b"", Vec::new(alloc))?;
    let status = run_alone(alloc, words, &mut source, &mut sink, &mut disk);
    write_out(sink.written(), room, length);
    Ok(status)
}

// The words of lines; none where the last one doesn't end, one of them is no text, or they ask for a command that isn't run here.
fn words_of(alloc: Global, text: &[u8]) -> Result<Option<Vec<String>>, AllocError>
    ensures { IfOk result (λ words. option_map (λ w. map string_bytes w.items) words ≡ words_of text.now) }
{
    let mut words = Vec::new(alloc);
    let mut rest = text;
    while let Some((line, others)) = split_line(rest) {
        let Some(word) = word_of(alloc, line)? else {
            return Ok(None);
        };
        words.push(word)?;
        rest = others;
    }
    if !rest.is_empty() || is_apart(words.as_slice()) {
        return Ok(None);
    }
    Ok(Some(words))
}

// The word of a line; none where it is no text.
#[tactic(auto, using(crate::proofs::WordLines::said_text, crate::proofs::WordLines::said_none))]
fn word_of(alloc: Global, line: &[u8]) -> Result<Option<String>, AllocError>
    ensures { IfOk result (λ word. option_map string_bytes word ≡ (if is_utf8 line.now then Some line.now else None)) }
{
    match str::from_utf8(line) {
        Ok(text) => Ok(Some(String::from_str(alloc, text)?)),
        Err(_) => Ok(None),
    }
}

// The words are those of a command that isn't run here.
fn is_apart(words: &[String]) -> bool
    ensures { result ≡ is_apart (map string_bytes words.now) }
{
    is_for_waiting(words) || is_keeping(words)
}

// The first word is `keep`.
fn is_keeping(words: &[String]) -> bool
    ensures { result ≡ begins_with (codes "keep") (map string_bytes words.now) }
{
    match words {
        [first, ..] => first.as_str() == "keep",
        [] => false,
    }
}
