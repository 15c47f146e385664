//! Whether the deed that a line tells may follow the deeds on a table.

ghost use Rattle.std.specs.Prelude.{◌≡◌, ◌<◌, ◌≤◌, ◌↔◌, [], length, Some, None, IfOk, OnOk, IfSome, IsTrue, true, bytes_eq, is_none};
ghost use Rattle.std.specs.List.{list_all};
ghost use Rattle.mj_wall.specs.Places.{is_wall};
ghost use Rattle.mj_deeds.specs.Facts.{newest};
ghost use Rattle.mj_deeds.specs.Hand.{is_hand_start};
ghost use Rattle.mj_deeds.specs.declared.deed.Deed.{Deed};
ghost use Rattle.mj_deeds.specs.declared.deed.Viewer.TheVariants.{Record};
ghost use Rattle.mj_rules.specs.Outcome.{goes_on};
ghost use Rattle.mj_rules.specs.Played.{IsPlayed, AllLawful};
ghost use Rattle.mj_forms.specs.Lines.{line as line_for};
ghost use Rattle.mj_records.specs.Deeds.{deed_in};
ghost use Rattle.mj_records.specs.Usual.{deed_of};
ghost use Rattle.mj_replay.specs.Inner.Steps.{FollowsOr, FollowsIf, FollowsBy, IsLineIf, IsOfAct, has_different_names};

use crate::told::{act_told, four_passes, told};
use mj_deeds::{Answer, Deed, Four, Viewer};
use mj_judge::is_lawful;
use mj_machine::next;
use mj_records::{Act, begins_hand, deed_in, has_line_of};
use mj_runs::Cause;
use mj_table::Table;
use mj_wall::Wall;
use mjai_lines::{Steps, write};
use std::alloc::{AllocError, Global};
use std::marker::Brand;
use std::sync::ledger::{Blank, Ledger};

/// Puts the deed of a line, which ends with its newline and may be known to be that of an act, on the table, where some four
/// lawful answers give it; else says what is wrong with the line. The room is for the lines of deeds that are compared with it.
pub(crate) fn follow(
    alloc: Global,
    table: &mut Table,
    walls: &[Wall],
    act: Option<Act>,
    line: &[u8],
    room: &mut Vec<u8>,
) -> Result<Option<Cause>, AllocError>
    requires some { 1 ≤ length walls.now }
    requires few { length walls.now ≤ 200 }
    requires whole { IsTrue (list_all (is_wall table.old.rules.red) walls.now) }
    requires played { IsPlayed table.old.rules walls.now table.old.deeds }
    requires act { IfSome act (λ a. IsOfAct line.now a) }
    ensures { IfOk result (λ cause. FollowsOr cause walls.now table.old table.new line.now) }
{
    if let Some(act) = act {
        if acts(alloc, table, walls, act, line, room)? {
            return Ok(None);
        }
        return Ok(Some(Cause::Next));
    }
    if begins_hand(line) {
        return follow_start(alloc, table, walls, line, room);
    }
    follow_read(alloc, table, walls, line, room)
}

// Reads the deed of a line and puts it on the table, where some four lawful answers give it; else says what is wrong.
#[inline(always)]
fn follow_read(
    alloc: Global,
    table: &mut Table,
    walls: &[Wall],
    line: &[u8],
    room: &mut Vec<u8>,
) -> Result<Option<Cause>, AllocError>
    requires some { 1 ≤ length walls.now }
    requires few { length walls.now ≤ 200 }
    requires whole { IsTrue (list_all (is_wall table.old.rules.red) walls.now) }
    requires played { IsPlayed table.old.rules walls.now table.old.deeds }
    ensures { IfOk result (λ cause. FollowsOr cause walls.now table.old table.new line.now) }
{
    match deed_in(alloc, line)? {
        Some(deed) => follow_deed(alloc, table, walls, &deed, line, room),
        None => Ok(Some(Cause::Line)),
    }
}

// Puts the deed that was read of a line on the table, where some four lawful answers give it; else says what is wrong.
fn follow_deed(
    alloc: Global,
    table: &mut Table,
    walls: &[Wall],
    deed: &Deed,
    line: &[u8],
    room: &mut Vec<u8>,
) -> Result<Option<Cause>, AllocError>
    requires some { 1 ≤ length walls.now }
    requires few { length walls.now ≤ 200 }
    requires whole { IsTrue (list_all (is_wall table.old.rules.red) walls.now) }
    requires played { IsPlayed table.old.rules walls.now table.old.deeds }
    requires read { deed_in line.now ≡ Some deed.now }
    ensures { IfOk result (λ cause. FollowsOr cause walls.now table.old table.new line.now) }
{
    if follows(alloc, table, walls, deed, line, room)? {
        return Ok(None);
    }
    if is_line_of(alloc, room, deed, line)? {
        return Ok(Some(Cause::Next));
    }
    Ok(Some(Cause::Line))
}

// Puts the start of a hand whose line a text is on the table, where it follows; else says what is wrong. No answer tells
// anything of a start, so it is read only where another line follows.
fn follow_start(
    alloc: Global,
    table: &mut Table,
    walls: &[Wall],
    line: &[u8],
    room: &mut Vec<u8>,
) -> Result<Option<Cause>, AllocError>
    requires some { 1 ≤ length walls.now }
    requires few { length walls.now ≤ 200 }
    requires whole { IsTrue (list_all (is_wall table.old.rules.red) walls.now) }
    requires played { IsPlayed table.old.rules walls.now table.old.deeds }
    requires start { (deed : Deed) → deed_in line.now ≡ Some deed → is_hand_start deed ≡ true }
    ensures { IfOk result (λ cause. FollowsOr cause walls.now table.old table.new line.now) }
{
    if starts_hand(alloc, table, walls, line, room)? {
        return Ok(None);
    }
    if is_line(alloc, line, room)? {
        return Ok(Some(Cause::Next));
    }
    Ok(Some(Cause::Line))
}

// Whether a text is the record's line of any deed.
fn is_line(alloc: Global, line: &[u8], room: &mut Vec<u8>) -> Result<bool, AllocError>
    ensures { IfOk result (λ yes. IsLineIf yes line.now) }
{
    match deed_in(alloc, line)? {
        Some(deed) => is_line_of(alloc, room, &deed, line),
        None => Ok(false),
    }
}

// Whether a text is the record's line of a deed, which is written in the room for one.
fn is_line_of(
    alloc: Global,
    room: &mut Vec<u8>,
    deed: &Deed,
    line: &[u8],
) -> Result<bool, AllocError>
    ensures { IfOk result (λ same. same ≡ bytes_eq (line_for Record deed.now) line.now) }
{
    write_over::<Brand>(alloc, room, deed, Blank::new(1))?;
    Ok(room.as_slice() == line)
}

// Writes the record's line of a deed in place of a text, counted on a new ledger.
fn write_over<L: Ledger>(
    alloc: Global,
    room: &mut Vec<u8>,
    deed: &Deed,
    blank: Blank,
) -> Result<(), AllocError>
    requires name { blank.name ≡ L.name }
    requires parts { blank.parts ≡ L.parts }
    requires some { 0 < blank.parts }
    ensures { OnOk result (room.new.items ≡ line_for Record deed.now) }
{
    let mut steps = Steps::<L>::new(blank);
    room.clear();
    write(alloc, Viewer::Record, deed, None, room, &mut steps)
}

// Whether a text is the record's line of a deed. Where it is known to be the line of an act, the deed is compared with that one
// first.
#[tactic(auto, using(mj_records::proofs::UsualLaws::same_line))]
fn is_known_line(
    alloc: Global,
    room: &mut Vec<u8>,
    deed: &Deed,
    known: &Option<Act>,
    line: &[u8],
) -> Result<bool, AllocError>
    requires known { IfSome known.now (λ act. line_for Record (deed_of act) ≡ line.now) }
    ensures { IfOk result (λ same. same ≡ bytes_eq (line_for Record deed.now) line.now) }
{
    if let Some(act) = known {
        if has_line_of(deed, act) {
            return Ok(true);
        }
    }
    is_line_of(alloc, room, deed, line)
}

// Puts the draw or the discard whose line a text is on the table, where some four lawful answers give one with this line;
// says whether they do.
fn acts(
    alloc: Global,
    table: &mut Table,
    walls: &[Wall],
    act: Act,
    line: &[u8],
    room: &mut Vec<u8>,
) -> Result<bool, AllocError>
    requires some { 1 ≤ length walls.now }
    requires few { length walls.now ≤ 200 }
    requires whole { IsTrue (list_all (is_wall table.old.rules.red) walls.now) }
    requires played { IsPlayed table.old.rules walls.now table.old.deeds }
    requires read { deed_in line.now ≡ Some (deed_of act) }
    requires known { line_for Record (deed_of act) ≡ line.now }
    ensures { IfOk result (λ yes. FollowsIf yes walls.now table.old table.new line.now) }
{
    if !can_go_on(table) {
        return Ok(false);
    }
    let answers = act_told(&act);
    if follows_by(alloc, table, walls, &answers, &Some(act), line, room)? {
        return Ok(true);
    }
    Ok(false)
}

// Puts the deed that four passes give on the table, where they are lawful; says whether it has the line, of which nothing but a
// start of a hand is read.
fn starts_hand(
    alloc: Global,
    table: &mut Table,
    walls: &[Wall],
    line: &[u8],
    room: &mut Vec<u8>,
) -> Result<bool, AllocError>
    requires some { 1 ≤ length walls.now }
    requires few { length walls.now ≤ 200 }
    requires whole { IsTrue (list_all (is_wall table.old.rules.red) walls.now) }
    requires played { IsPlayed table.old.rules walls.now table.old.deeds }
    requires start { (deed : Deed) → deed_in line.now ≡ Some deed → is_hand_start deed ≡ true }
    ensures { IfOk result (λ yes. FollowsIf yes walls.now table.old table.new line.now) }
{
    if !can_go_on(table) {
        return Ok(false);
    }
    let answers = four_passes();
    if follows_by(alloc, table, walls, &answers, &None, line, room)? {
        return Ok(true);
    }
    Ok(false)
}

// Puts the deed that a line tells on the table, where some four lawful answers give one with this line; says whether they
// do. The deed is the one that was read of the line.
#[tactic(auto, using(crate::proofs::FollowLaws::following))]
fn follows(
    alloc: Global,
    table: &mut Table,
    walls: &[Wall],
    deed: &Deed,
    line: &[u8],
    room: &mut Vec<u8>,
) -> Result<bool, AllocError>
    requires some { 1 ≤ length walls.now }
    requires few { length walls.now ≤ 200 }
    requires whole { IsTrue (list_all (is_wall table.old.rules.red) walls.now) }
    requires played { IsPlayed table.old.rules walls.now table.old.deeds }
    requires read { deed_in line.now ≡ Some deed.now }
    ensures { IfOk result (λ yes. FollowsIf yes walls.now table.old table.new line.now) }
{
    if table.newest().is_none() {
        return starts(alloc, table, walls, deed, line, room);
    }
    if !can_go_on(table) {
        return Ok(false);
    }
    let answers = told(table.newest(), deed);
    if follows_by(alloc, table, walls, &answers, &None, line, room)? {
        return Ok(true);
    }
    Ok(false)
}

// Whether the game goes on after the newest deed.
fn can_go_on(table: &Table) -> bool
    ensures { result ≡ goes_on (newest table.now.deeds) }
{
    match table.newest() {
        None => false,
        Some(Deed::EndGame { .. }) => false,
        Some(_) => true,
    }
}

// Puts the deed that the four answers give on the table, where they are lawful; says whether it has the line, which may be
// known to be that of an act.
#[tactic(auto, using(crate::proofs::FollowLaws::by_answers))]
fn follows_by(
    alloc: Global,
    table: &mut Table,
    walls: &[Wall],
    answers: &Four<Answer>,
    known: &Option<Act>,
    line: &[u8],
    room: &mut Vec<u8>,
) -> Result<bool, AllocError>
    requires some { 1 ≤ length walls.now }
    requires few { length walls.now ≤ 200 }
    requires whole { IsTrue (list_all (is_wall table.old.rules.red) walls.now) }
    requires played { IsPlayed table.old.rules walls.now table.old.deeds }
    requires on { IsTrue (goes_on (newest table.old.deeds)) }
    requires known { IfSome known.now (λ act. line_for Record (deed_of act) ≡ line.now) }
    ensures { IfOk result (λ yes. FollowsBy yes walls.now table.old table.new answers.now line.now) }
{
    if !are_lawful(table, answers) {
        return Ok(false);
    }
    let followed = next(alloc, table, walls, answers)?;
    is_known_line(alloc, room, &followed, known, line)
}

// Whether each of the four answers is lawful.
#[tactic(auto, unfolding(mj_rules::specs::Possible::is_lawful))]
fn are_lawful(table: &Table, answers: &Four<Answer>) -> bool
    ensures { IsTrue result ↔ AllLawful table.now.rules table.now.deeds answers.now }
{
    is_lawful(table, 0, &answers.first)
        && is_lawful(table, 1, &answers.second)
        && is_lawful(table, 2, &answers.third)
        && is_lawful(table, 3, &answers.fourth)
}

// Puts a start of a game with four different names on the table, which has no deed; says whether the deed that was read of
// the line is one and has the line.
fn starts(
    alloc: Global,
    table: &mut Table,
    walls: &[Wall],
    deed: &Deed,
    line: &[u8],
    room: &mut Vec<u8>,
) -> Result<bool, AllocError>
    requires some { 1 ≤ length walls.now }
    requires whole { IsTrue (list_all (is_wall table.old.rules.red) walls.now) }
    requires new { newest table.old.deeds ≡ None }
    requires read { deed_in line.now ≡ Some deed.now }
    ensures { IfOk result (λ yes. FollowsIf yes walls.now table.old table.new line.now) }
{
    if !has_different_names(deed) {
        return Ok(false);
    }
    if !is_line_of(alloc, room, deed, line)? {
        return Ok(false);
    }
    table.push(deed)?;
    Ok(true)
}

// A start of a game with four different names.
fn has_different_names(deed: &Deed) -> bool
    ensures { result ≡ has_different_names deed.now }
{
    match deed {
        Deed::StartGame { names } => {
            let names = names.four();
            let first = names.first.as_slice();
            let second = names.second.as_slice();
            let third = names.third.as_slice();
            let fourth = names.fourth.as_slice();
            first != second
                && first != third
                && first != fourth
                && second != third
                && second != fourth
                && third != fourth
        }
        _ => false,
    }
}
