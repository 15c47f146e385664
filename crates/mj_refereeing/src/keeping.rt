//! The lines of a kept game, each put on the disk before the next is heard.

ghost use Rattle.std.specs.Prelude.{◌≡◌, ◌≤◌, ◌+◌, ◌==◌, ℕ, List, false, Some, None, IfOk, length};
ghost use Rattle.mj_bytes.specs.Parts.{has_byte, whole_lines, unfinished};
ghost use Rattle.mj_history.specs.Legal.{Game};
ghost use Rattle.mj_history.specs.Arrivals.{arrives, sit_arrives, say_arrives, gone_arrives, expiry_arrives, intake_from};
ghost use Rattle.mj_journal.specs.Calls.{IsLine};
ghost use Rattle.mj_journal.specs.Journals.{IsAtRest};
ghost use Rattle.mj_journal.specs.Keeping.{game_of, end_of};
ghost use Rattle.mj_refereeing.specs.declared.watched.Watched.{Watched};
ghost use Rattle.mj_refereeing.specs.Inner.Intake.{intake_of, present_in};
ghost use Rattle.mj_refereeing.specs.Inner.Keeping.{asked_in, noted_by as noted_meant, IsPlayed, StaysPlayed, AllStayPlayed, CountsNotedFault, CountsAllFault, GoesOn, Notes, NotesAll};

use crate::arriving::{CLOCK, JOINER, present};
use crate::form::{ArrivalForm, read_form};
use crate::intake::{End, end_at};
use crate::watched::Watched;
use mj_bytes::split_line;
use mj_journal::{Answered, Disk, Kept};
use std::alloc::Global;

/// What becomes of a line.
#[derive(Clone, Copy)]
pub(crate) enum Noted {
    /// It is an arrival in its place, and its entry, where it has one, is on the disk.
    Leads,
    /// It is no arrival in its place.
    Bad,
    /// A fault of the disk: its entry is on the disk or is not.
    DiskFault,
    /// Memory was wanting, and nothing was entered.
    NoMemory,
}

/// What becomes of all lines.
#[derive(Clone, Copy)]
pub(crate) enum AllNoted {
    /// They were heard to their end, or to the first that is no arrival in its place.
    Whole(End),
    /// A fault of the disk.
    DiskFault,
    /// Memory was wanting.
    NoMemory,
}

/// Hears all lines of a kept game, the first of which has this number.
pub(crate) fn keep_lines<D: Disk>(
    alloc: Global,
    kept: &mut Kept<Watched>,
    disk: &mut D,
    input: &[u8],
    first: u32,
) -> AllNoted
    requires rest { IsPlayed (game_of kept.old)
        (IsAtRest (D.told disk.old) (D.may_leave disk.old) (end_of kept.old)) }
    requires fits { first + length input.now ≤ u32.MAX }
    ensures played { AllStayPlayed result (game_of kept.new) }
    ensures faults { CountsAllFault result (D.disk_faults disk.old) (D.disk_faults disk.new) }
    ensures notes { (tag : List ℕ) (seat : ℕ) (game : Game)
        → GoesOn D.told D.may_leave tag seat kept.old disk.old game
        → NotesAll D.told D.may_leave D.moment D.secured_since result tag seat game kept.new disk.old disk.new
        (intake_from (intake_of game) first (whole_lines input.now) (unfinished input.now)) }
{
    let mut rest = input;
    let mut number = first;
    while let Some((line, others)) = split_line(rest) {
        match keep_line(alloc, kept, disk, line) {
            Noted::Leads => {}
            Noted::Bad => return AllNoted::Whole(End::Bad(number)),
            Noted::DiskFault => return AllNoted::DiskFault,
            Noted::NoMemory => return AllNoted::NoMemory,
        }
        rest = others;
        number += 1;
    }
    AllNoted::Whole(end_at(rest, number))
}

// Hears one line.
fn keep_line<D: Disk>(alloc: Global, kept: &mut Kept<Watched>, disk: &mut D, line: &[u8]) -> Noted
    requires rest { IsPlayed (game_of kept.old)
        (IsAtRest (D.told disk.old) (D.may_leave disk.old) (end_of kept.old)) }
    requires plain { has_byte 10 line.now ≡ false }
    ensures rest { StaysPlayed result (game_of kept.new)
        (IsAtRest (D.told disk.new) (D.may_leave disk.new) (end_of kept.new)) }
    ensures faults { CountsNotedFault result (D.disk_faults disk.old) (D.disk_faults disk.new) }
    ensures notes { (tag : List ℕ) (seat : ℕ) (game : Game)
        → GoesOn D.told D.may_leave tag seat kept.old disk.old game
        → Notes D.told D.may_leave D.moment D.secured_since result tag seat game kept.new disk.old disk.new
        (arrives (intake_of game) line.now) }
{
    let Ok(form) = read_form(alloc, line) else {
        return Noted::NoMemory;
    };
    match form {
        ArrivalForm::Header(_) => return Noted::Bad,
        ArrivalForm::Wall(_) => return Noted::Bad,
        ArrivalForm::Sit(line) => return noted_by(&kept.sit(disk, JOINER, line)),
        ArrivalForm::Say { seat, line } => return keep_saying(kept, disk, seat, line),
        ArrivalForm::Leave(seat) => return keep_leaving(kept, disk, seat),
        ArrivalForm::Expire { window, t1, t2 } => {
            return noted_by(&kept.expire(disk, CLOCK, window, t1, t2));
        }
        ArrivalForm::NoForm => return Noted::Bad,
    }
}

// Somebody says a line.
fn keep_saying<D: Disk>(kept: &mut Kept<Watched>, disk: &mut D, who: u64, line: &[u8]) -> Noted
    requires rest { IsPlayed (game_of kept.old)
        (IsAtRest (D.told disk.old) (D.may_leave disk.old) (end_of kept.old)) }
    requires line { IsLine line.now }
    ensures rest { StaysPlayed result (game_of kept.new)
        (IsAtRest (D.told disk.new) (D.may_leave disk.new) (end_of kept.new)) }
    ensures faults { CountsNotedFault result (D.disk_faults disk.old) (D.disk_faults disk.new) }
    ensures notes { (tag : List ℕ) (seat : ℕ) (game : Game)
        → GoesOn D.told D.may_leave tag seat kept.old disk.old game
        → Notes D.told D.may_leave D.moment D.secured_since result tag seat game kept.new disk.old disk.new
        (say_arrives (intake_of game) who line.now) }
{
    let Some((speaker, author)) = speaker_of(kept, who) else {
        return Noted::Bad;
    };
    noted_by(&kept.said(disk, author, speaker, line))
}

// A seat leaves.
fn keep_leaving<D: Disk>(kept: &mut Kept<Watched>, disk: &mut D, who: u64) -> Noted
    requires rest { IsPlayed (game_of kept.old)
        (IsAtRest (D.told disk.old) (D.may_leave disk.old) (end_of kept.old)) }
    ensures rest { StaysPlayed result (game_of kept.new)
        (IsAtRest (D.told disk.new) (D.may_leave disk.new) (end_of kept.new)) }
    ensures faults { CountsNotedFault result (D.disk_faults disk.old) (D.disk_faults disk.new) }
    ensures notes { (tag : List ℕ) (seat : ℕ) (game : Game)
        → GoesOn D.told D.may_leave tag seat kept.old disk.old game
        → Notes D.told D.may_leave D.moment D.secured_since result tag seat game kept.new disk.old disk.new
        (gone_arrives (intake_of game) who) }
{
    let Some((leaver, author)) = leaver_of(kept, who) else {
        return Noted::Bad;
    };
    noted_by(&kept.gone(disk, author, leaver))
}

// A seat that is present and whose due deed exists, with its author.
fn speaker_of(kept: &Kept<Watched>, who: u64) -> Option<(u8, u8)>
    ensures { (w : Watched) → game_of kept.now ≡ Some w → result ≡ asked_in w.core.game who }
{
    let game = kept.game()?.umpire();
    let (speaker, author) = present(game, who)?;
    if !game.may_say(speaker) {
        return None;
    }
    Some((speaker, author))
}

// A seat that is present, with its author.
fn leaver_of(kept: &Kept<Watched>, who: u64) -> Option<(u8, u8)>
    ensures { (w : Watched) → game_of kept.now ≡ Some w → result ≡ present_in w.core.game who }
{
    present(kept.game()?.umpire(), who)
}

// What is noted of a line by the answer of its call.
fn noted_by<T>(answered: &Answered<T>) -> Noted
    ensures { result ≡ noted_meant answered.now }
{
    match answered {
        Answered::Done(_) => Noted::Leads,
        Answered::DiskFault => Noted::DiskFault,
        Answered::Stopped => Noted::DiskFault,
        Answered::NoMemory => Noted::NoMemory,
    }
}
