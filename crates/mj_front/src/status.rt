//! The code and the text that a run ends with, and the statuses that the ends of two commands give.

ghost use Rattle.std.specs.Prelude.{◌≡◌, IfOk, OnOk, OnErr, codes};
ghost use Rattle.mj_bytes.specs.Adds.{Adds};
ghost use Rattle.mj_front.specs.Statuses.{hand_status, self_play_status, code_of, cause_number, status_words, at_line, bad_record, bad_journal, usage};

use crate::hand::HandLinesEnd;
use crate::self_game::SelfPlayEnd;
use mj_bytes::{push_all, push_number};
use mj_runs::{Cause, Status};
use std::alloc::{AllocError, Global};

/// The status that the end of the command `hand` gives.
pub(crate) fn status_of_hand(end: HandLinesEnd) -> Status
    ensures { result ≡ hand_status end }
{
    match end {
        HandLinesEnd::Written => Status::Done,
        HandLinesEnd::NoHand => Status::Words,
        HandLinesEnd::WriteFault => Status::WriteFault,
        HandLinesEnd::NoMemory => Status::NoMemory,
    }
}

/// The status that the end of the command `selfplay` gives.
pub(crate) fn status_of_self_play(end: SelfPlayEnd) -> Status
    ensures { result ≡ self_play_status end }
{
    match end {
        SelfPlayEnd::Written => Status::Done,
        SelfPlayEnd::WriteFault => Status::WriteFault,
        SelfPlayEnd::NoMemory => Status::NoMemory,
    }
}

/// The exit code of a program that ends so.
pub fn exit_code(status: &Status) -> u8
    ensures { result ≡ code_of status.now }
{
    match status {
        Status::Done => 0,
        Status::Words => 2,
        Status::ReadFault => 3,
        Status::WriteFault => 4,
        Status::NoMemory => 5,
        Status::BadArrival(_) => 6,
        Status::BadRecord(_, _) => 7,
        Status::HostFault => 8,
        Status::TooLong => 9,
        Status::DiskFault => 11,
        Status::OtherGame => 12,
        Status::BadJournal(_) => 13,
    }
}

/// The text that a program that ends so writes on standard error, with its newline; empty for `Done`.
#[tactic(auto, unfolding(crate::specs::Statuses::usage))]
pub fn status_text(alloc: Global, status: &Status) -> Result<Vec<u8>, AllocError>
    ensures { IfOk result (λ text. text.items ≡ status_words status.now) }
{
    match status {
        Status::Done => Ok(Vec::new(alloc)),
        Status::Words => Vec::from_slice(
            alloc,
            b"usage: riichi_table referee SEAT | serve --seed HEX [--limit MS] [--port N] [--draws] [--red] | replay | hand WORDS | selfplay N | observe | keep SEAT | safe SEAT | tables --seed HEX --rooms N [--limit MS] [--port N] [--draws] [--red]\n",
        ),
        Status::ReadFault => Vec::from_slice(alloc, b"read fault\n"),
        Status::WriteFault => Vec::from_slice(alloc, b"write fault\n"),
        Status::NoMemory => Vec::from_slice(alloc, b"no memory\n"),
        Status::BadArrival(line) => text_at_line(alloc, b"bad arrival", *line),
        Status::BadRecord(line, cause) => text_of_record(alloc, *line, *cause),
        Status::HostFault => Vec::from_slice(alloc, b"host fault\n"),
        Status::TooLong => Vec::from_slice(alloc, b"input too long\n"),
        Status::DiskFault => Vec::from_slice(alloc, b"disk fault\n"),
        Status::OtherGame => Vec::from_slice(alloc, b"journal of another game\n"),
        Status::BadJournal(place) => text_of_journal(alloc, *place),
    }
}

// The text on a fault at a line.
#[tactic(auto, using(crate::proofs::StatusLaws::pieces), unfolding(crate::specs::Statuses::at_line))]
fn text_at_line(alloc: Global, fault: &[u8], line: u32) -> Result<Vec<u8>, AllocError>
    ensures { IfOk result (λ text. text.items ≡ at_line fault.now line) }
{
    let mut text = Vec::from_slice(alloc, fault)?;
    push_all(&mut text, b" at line ")?;
    push_number(&mut text, u64::from(line))?;
    push_all(&mut text, b"\n")?;
    Ok(text)
}

// The text on a fault at a line of a record.
#[tactic(auto, using(crate::proofs::StatusLaws::five_pieces), unfolding(crate::specs::Statuses::bad_record))]
fn text_of_record(alloc: Global, line: u32, cause: Cause) -> Result<Vec<u8>, AllocError>
    ensures { IfOk result (λ text. text.items ≡ bad_record line cause) }
{
    let mut text = Vec::from_slice(alloc, b"bad record at line ")?;
    push_number(&mut text, u64::from(line))?;
    push_all(&mut text, b": ")?;
    push_number(&mut text, number_of(cause))?;
    push_all(&mut text, b"\n")?;
    Ok(text)
}

// The text on a journal that is bad at a byte.
#[tactic(auto, using(crate::proofs::StatusLaws::three_pieces), unfolding(crate::specs::Statuses::bad_journal))]
fn text_of_journal(alloc: Global, place: u64) -> Result<Vec<u8>, AllocError>
    ensures { IfOk result (λ text. text.items ≡ bad_journal place) }
{
    let mut text = Vec::from_slice(alloc, b"bad journal at byte ")?;
    push_number(&mut text, place)?;
    push_all(&mut text, b"\n")?;
    Ok(text)
}

// The number of a cause by which a line breaks the form of a record.
fn number_of(cause: Cause) -> u64
    ensures { result ≡ cause_number cause }
{
    match cause {
        Cause::Header => 1,
        Cause::Wall => 2,
        Cause::Line => 3,
        Cause::Next => 4,
        Cause::Cut => 5,
    }
}
