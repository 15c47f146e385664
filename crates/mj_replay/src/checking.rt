//! The records of games, checked line by line.

ghost use Rattle.std.specs.Prelude.{◌≡◌, ◌≤◌, ◌++◌, ◌∷◌, [], length, true, if◌then◌else◌, option_to_list, IfOk, IfSome, IsTrue, MatchOption};
ghost use Rattle.std.specs.List.{list_all};
ghost use Rattle.mj_bytes.specs.Parts.{HasNoLine};
ghost use Rattle.mj_wall.specs.Places.{is_wall};
ghost use Rattle.mj_deeds.specs.Facts.{newest};
ghost use Rattle.mj_history.specs.Records.{are_rules, needs_wall};
ghost use Rattle.mj_forms.specs.RecordTexts.{record_text};
ghost use Rattle.mj_forms.specs.Headers.{header_line};
ghost use Rattle.mj_replay.specs.Checks.{Tells};
ghost use Rattle.mj_replay.specs.Inner.Steps.{cause_at_end, BeginsWithWhole, IsNext, IsNoNext, IsOfAct, NoneNeeded, TellsKept};
ghost use Rattle.mj_replay.specs.declared.checking.Checked.TheVariants.{Bad};

use crate::following::follow;
use mj_bytes::{split_line, strip};
use mj_deeds::Deed;
use mj_records::{Act, act_first, header_of, wall_of};
use mj_runs::Cause;
use mj_table::Table;
use mj_wall::{Rules, Wall};
use std::alloc::{AllocError, Global};

/// What a record comes to: how many deeds it has, the points of the four seats after them, and the deposits on the table.
#[derive(Clone, Copy, Debug, PartialEq, Eq)]
pub struct Summary {
    pub deeds: u32,
    pub points: [i32; 4],
    pub deposits: u32,
}

/// What a text is as a record.
#[derive(Clone, Copy, Debug, PartialEq, Eq)]
pub enum Checked {
    /// It is the record of a game.
    Good(Summary),
    /// It is none, and this line, counted from 1, is the first that breaks its form.
    Bad(u32, Cause),
    /// Memory was wanting.
    NoMemory,
}

/// Whether a text is the record of a game: a header, 1 to 200 walls, and the record's line of each deed from the start of the
/// game on, each of which some four lawful answers give after those before it. The record may end after its walls or
/// after any deed.
#[tactic(auto, using(crate::proofs::CheckLaws::told_kept))]
pub fn check(alloc: Global, text: &[u8]) -> Checked
    ensures { Tells text.now result }
{
    let mut none = Vec::new(alloc);
    match walk(alloc, text, false, &mut none) {
        Ok(answer) => answer,
        Err(_) => Checked::NoMemory,
    }
}

/// What a text is as a record; where its deeds are to be kept, they are put into a list that is empty.
#[tactic(auto, using(crate::proofs::CheckLaws::headers))]
pub(crate) fn walk(
    alloc: Global,
    text: &[u8],
    keeps: bool,
    kept: &mut Vec<Deed>,
) -> Result<Checked, AllocError>
    requires { kept.old.items ≡ [] }
    ensures { IfOk result (λ answer. TellsKept text.now answer keeps kept.new.items) }
{
    let Some((line, rest)) = split_line(text) else {
        return Ok(ending(text, 1, Cause::Header));
    };
    match header_of(line) {
        Some(rules) => behind_header(alloc, rules, rest, keeps, kept),
        None => Ok(Checked::Bad(1, Cause::Header)),
    }
}

// What a text that ends here without a line that must stand there is.
fn ending(rest: &[u8], line: u32, cause: Cause) -> Checked
    ensures { result ≡ Bad line (cause_at_end rest.now cause) }
{
    if rest.is_empty() {
        return Checked::Bad(line, cause);
    }
    Checked::Bad(line, Cause::Cut)
}

// What a text is after its header.
fn behind_header(
    alloc: Global,
    rules: Rules,
    text: &[u8],
    keeps: bool,
    kept: &mut Vec<Deed>,
) -> Result<Checked, AllocError>
    requires rules { are_rules rules ≡ true }
    requires none { kept.old.items ≡ [] }
    ensures { IfOk result (λ answer. TellsKept (header_line rules ++ text.now) answer keeps
        kept.new.items) }
{
    let mut walls = Vec::new(alloc);
    let mut rest = text;
    while let Some((line, others)) = split_line(rest) {
        if !must_be_wall(walls.as_slice(), line) {
            return behind_walls(alloc, rules, walls.as_slice(), rest, keeps, kept);
        }
        let Some(wall) = next_wall(alloc, rules, walls.len(), line)? else {
            return Ok(Checked::Bad(walls.len() as u32 + 2, Cause::Wall));
        };
        walls.push(wall)?;
        rest = others;
    }
    if walls.is_empty() {
        return Ok(ending(rest, 2, Cause::Wall));
    }
    behind_walls(alloc, rules, walls.as_slice(), rest, keeps, kept)
}

// Whether a line after these walls must be a wall: the first one must, and each that begins with `wall`.
#[tactic(auto, using(crate::proofs::CheckLaws::wall_needs))]
fn must_be_wall(walls: &[Wall], line: &[u8]) -> bool
    ensures { result ≡ needs_wall walls.now [] (line.now ++ 10 ∷ []) }
{
    if walls.is_empty() {
        return true;
    }
    match strip(line, b"wall") {
        Some(_) => true,
        None => false,
    }
}

// The wall that a line says after so many others: 200 at most.
fn next_wall(
    alloc: Global,
    rules: Rules,
    before: usize,
    line: &[u8],
) -> Result<Option<Wall>, AllocError>
    ensures { IfOk result (λ wall. MatchOption wall (IsNoNext rules.red before line.now)
        (λ w. IsNext rules.red before line.now w)) }
{
    if before >= 200 {
        return Ok(None);
    }
    wall_of(alloc, line, rules.red)
}

// What a text is after its walls.
fn behind_walls(
    alloc: Global,
    rules: Rules,
    walls: &[Wall],
    text: &[u8],
    keeps: bool,
    kept: &mut Vec<Deed>,
) -> Result<Checked, AllocError>
    requires rules { are_rules rules ≡ true }
    requires some { 1 ≤ length walls.now }
    requires few { length walls.now ≤ 200 }
    requires whole { IsTrue (list_all (is_wall rules.red) walls.now) }
    requires other { NoneNeeded walls.now [] text.now }
    requires none { kept.old.items ≡ [] }
    ensures { IfOk result (λ answer. TellsKept (record_text rules walls.now [] ++ text.now) answer
        keeps kept.new.items) }
{
    let mut table = Table::new(rules)?;
    let mut room = Vec::new(alloc);
    put_deeds(alloc, &mut table, walls, text, &mut room, keeps, kept)
}

// What a text is after its walls: its deeds are put on the table in turn. The room is for their lines.
fn put_deeds(
    alloc: Global,
    table: &mut Table,
    walls: &[Wall],
    text: &[u8],
    room: &mut Vec<u8>,
    keeps: bool,
    kept: &mut Vec<Deed>,
) -> Result<Checked, AllocError>
    requires new { table.old ≡ record { rules = table.old.rules; deeds = [] } }
    requires rules { are_rules table.old.rules ≡ true }
    requires some { 1 ≤ length walls.now }
    requires few { length walls.now ≤ 200 }
    requires whole { IsTrue (list_all (is_wall table.old.rules.red) walls.now) }
    requires other { NoneNeeded walls.now [] text.now }
    requires none { kept.old.items ≡ [] }
    ensures { IfOk result (λ answer. TellsKept (record_text table.old.rules walls.now [] ++ text.now)
        answer keeps kept.new.items) }
{
    let mut deeds = 0;
    let mut rest = text;
    let first = walls.len() as u32 + 2;
    while let Some((line, act, others)) = next_line(rest) {
        if let Some(cause) = follow(alloc, table, walls, act, line, room)? {
            return Ok(Checked::Bad(first + deeds, cause));
        }
        keep_newest(table, keeps, kept)?;
        deeds += 1;
        rest = others;
    }
    if !rest.is_empty() {
        return Ok(Checked::Bad(first + deeds, Cause::Cut));
    }
    Ok(Checked::Good(Summary {
        deeds,
        points: table.points(),
        deposits: table.deposits(),
    }))
}

// The first line of a text, with its newline, the act that it tells, where it is the line of one, and what follows it. Where the
// line of an act ends is known once it is read.
fn next_line(text: &[u8]) -> Option<(&[u8], Option<Act>, &[u8])>
    ensures cases { MatchOption result (HasNoLine text.now)
        (λ x. BeginsWithWhole text.now x.0.now x.2.now) }
    ensures act { IfSome result (λ x. IfSome x.1 (λ act. IsOfAct x.0.now act)) }
{
    if let Some((act, rest)) = act_first(text) {
        return Some((&text[..text.len() - rest.len()], Some(act), rest));
    }
    let (front, rest) = split_line(text)?;
    Some((&text[..front.len() + 1], None, rest))
}

// Puts the newest deed of a table into a list, where deeds are kept.
fn keep_newest(table: &Table, keeps: bool, kept: &mut Vec<Deed>) -> Result<(), AllocError>
    ensures { IfOk result (λ done. kept.new.items ≡ kept.old.items
        ++ (if keeps then option_to_list (newest table.now.deeds) else [])) }
{
    if !keeps {
        return Ok(());
    }
    if let Some(deed) = table.newest() {
        kept.push(deed.copy()?)?;
    }
    Ok(())
}
