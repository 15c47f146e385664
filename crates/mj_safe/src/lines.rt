ghost use Rattle.std.specs.Prelude.{◌≡◌, ◌≤◌, ◌<◌, ◌==◌, false, codes, IfOk, IsTrue, OnOk};
ghost use Rattle.mj_bytes.specs.Adds.{Adds};
ghost use Rattle.mj_tiles.specs.Counts.{number_of};
ghost use Rattle.mj_deeds.specs.Facts.{concealed_tiles};
ghost use Rattle.mj_deeds.specs.Hand.{hand};
ghost use Rattle.mj_safety.specs.Safe.{has_to_discard, safe_kinds};
ghost use Rattle.mj_safe.specs.Inner.Listing.{is_held_and_safe};
ghost use Rattle.mj_safe.specs.Text.{against_line, line_on, safe_text};

use crate::reasons::{has_to_discard, safe};
use mj_bytes::{push_all, push_number};
use mj_hand::push_kinds_or_dash;
use mj_table::Table;
use mj_tiles::{KINDS, Kind, push_times};
use std::alloc::{AllocError, Global};

/// What the command `safe` writes of a seat, 0 to 3. Where it has to discard, these are three lines, `against` and the number of
/// another seat, in order of the numbers, and after it the kinds that the seat holds and that are safe against that one, in tile
/// order, each after a space, or `-` where there are none. Elsewhere it is the line `not to discard`.
#[tactic(auto, using(crate::proofs::Pieces::all_lines, crate::proofs::Pieces::no_lines))]
pub fn safe_lines(alloc: Global, table: &Table, seat: u8) -> Result<Vec<u8>, AllocError>
    requires { seat ≤ 3 }
    ensures { IfOk result (λ text. text.items ≡ safe_text table.now.deeds seat) }
{
    if !has_to_discard(table, seat) {
        return no_safe_lines(alloc);
    }
    let mut text = Vec::new(alloc);
    push_line_on(alloc, &mut text, table, seat, 0)?;
    push_line_on(alloc, &mut text, table, seat, 1)?;
    push_line_on(alloc, &mut text, table, seat, 2)?;
    push_line_on(alloc, &mut text, table, seat, 3)?;
    Ok(text)
}

/// What the command `safe` writes of a seat that has not to discard, also where no game has begun.
pub fn no_safe_lines(alloc: Global) -> Result<Vec<u8>, AllocError>
    ensures { IfOk result (λ text. text.items ≡ codes "not to discard\n") }
{
    Vec::from_slice(alloc, b"not to discard\n")
}

// The line on a seat, and nothing on the one that has to discard.
#[tactic(auto, using(crate::proofs::Pieces::no_line, crate::proofs::Pieces::one_line))]
fn push_line_on(
    alloc: Global,
    text: &mut Vec<u8>,
    table: &Table,
    seat: u8,
    against: u8,
) -> Result<(), AllocError>
    requires seat { seat ≤ 3 }
    requires against { against ≤ 3 }
    requires turn { IsTrue (has_to_discard table.now.deeds seat) }
    ensures { OnOk result (Adds text.old.items text.new.items (line_on table.now.deeds seat against)) }
{
    if against == seat {
        return Ok(());
    }
    push_against(alloc, text, table, seat, against)?;
    Ok(())
}

// The line on another seat.
fn push_against(
    alloc: Global,
    text: &mut Vec<u8>,
    table: &Table,
    seat: u8,
    against: u8,
) -> Result<(), AllocError>
    requires seat { seat ≤ 3 }
    requires against { against ≤ 3 }
    requires apart { (against == seat) ≡ false }
    requires turn { IsTrue (has_to_discard table.now.deeds seat) }
    ensures { OnOk result (Adds text.old.items text.new.items (against_line table.now.deeds seat against)) }
{
    let kinds = safe_kinds(alloc, table, seat, against)?;
    push_all(text, b"against ")?;
    push_number(text, u64::from(against))?;
    push_kinds_or_dash(text, kinds.as_slice())?;
    push_all(text, b"\n")?;
    Ok(())
}

// The kinds that a seat holds and that are safe against another, in tile order.
fn safe_kinds(alloc: Global, table: &Table, seat: u8, against: u8) -> Result<Vec<Kind>, AllocError>
    requires seat { seat ≤ 3 }
    requires against { against ≤ 3 }
    requires apart { (against == seat) ≡ false }
    requires turn { IsTrue (has_to_discard table.now.deeds seat) }
    ensures { IfOk result (λ kinds. kinds.items ≡ safe_kinds table.now.deeds seat against) }
{
    let mut kinds = Vec::new(alloc);
    for number in 0..KINDS as u8 {
        let kind = Kind::at(number);
        let stands = is_held_and_safe(table, seat, against, kind);
        push_times(&mut kinds, kind, u8::from(stands))?;
    }
    Ok(kinds)
}

// Whether a seat holds a kind, and it is safe against another.
fn is_held_and_safe(table: &Table, seat: u8, against: u8, kind: Kind) -> bool
    requires seat { seat ≤ 3 }
    requires against { against ≤ 3 }
    requires apart { (against == seat) ≡ false }
    requires turn { IsTrue (has_to_discard table.now.deeds seat) }
    ensures { result ≡ is_held_and_safe table.now.deeds seat against kind }
{
    number_held(table, seat, kind) > 0 && safe(table, seat, against, kind).is_some()
}

// How many tiles of a kind a seat holds.
fn number_held(table: &Table, seat: u8, kind: Kind) -> u8
    requires { seat ≤ 3 }
    ensures { result ≡ number_of (concealed_tiles (hand table.now.deeds) seat) kind }
{
    let held = table.holds(seat);
    held.numbers()[usize::from(kind.number())]
}
