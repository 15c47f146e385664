ghost use Rattle.std.specs.Prelude.{◌≡◌, ◌≤◌, IfOk, slice_get};
ghost use Rattle.mj_rules.specs.Possible.{possible, all_discards};
ghost use Rattle.mj_judge.specs.Inner.Tried.{lawful_among};

use crate::listing::possible;
use crate::turning::{may_pass, push_discards};
use mj_deeds::Answer;
use mj_table::Table;
use std::alloc::{AllocError, Global};

// For so many discards there is room.
const DISCARDS: usize = 16;

/// Answer `k` of those that `possible` lists for a seat, 0 to 3; None where there are not so many. Of a seat that has to discard
/// the discards, which come first, are listed alone where that is enough.
pub fn possible_at(
    alloc: Global,
    table: &Table,
    seat: u8,
    k: usize,
) -> Result<Option<Answer>, AllocError>
    requires { seat ≤ 3 }
    ensures { IfOk result (λ choice. choice
        ≡ slice_get (possible table.now.rules table.now.deeds seat) k) }
{
    if may_pass(table, seat) {
        return listed_at(alloc, table, seat, k);
    }
    match discard_at(alloc, table, seat, k)? {
        Some(discard) => Ok(Some(discard)),
        None => listed_at(alloc, table, seat, k),
    }
}

// Answer `k` of the whole list.
fn listed_at(alloc: Global, table: &Table, seat: u8, k: usize) -> Result<Option<Answer>, AllocError>
    requires { seat ≤ 3 }
    ensures { IfOk result (λ choice. choice
        ≡ slice_get (possible table.now.rules table.now.deeds seat) k) }
{
    let list = possible(alloc, table, seat)?;
    Ok(list.as_slice().get(k).copied())
}

// Discard `k` of the lawful ones.
fn discard_at(
    alloc: Global,
    table: &Table,
    seat: u8,
    k: usize,
) -> Result<Option<Answer>, AllocError>
    requires { seat ≤ 3 }
    ensures { IfOk result (λ choice. choice
        ≡ slice_get (lawful_among table.now.rules table.now.deeds seat (all_discards seat)) k) }
{
    let mut discards = Vec::with_capacity(alloc, DISCARDS)?;
    push_discards(table, seat, &mut discards)?;
    Ok(discards.get(k).copied())
}
