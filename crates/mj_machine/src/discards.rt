ghost use Rattle.std.specs.Prelude.{◌≡◌, true, false, IfOk, Some};
ghost use Rattle.std.specs.Option.{option_map_or};
ghost use Rattle.mj_deeds.specs.Course.{is_reach};
ghost use Rattle.mj_deeds.specs.Facts.{newest, before_newest, is_discard};
ghost use Rattle.mj_deeds.specs.Hand.{hand};
ghost use Rattle.mj_rules.specs.Outcome.{behind_discard, accept, drawn_or, called_or_draw};
ghost use Rattle.mj_machine.specs.Inner.Steps.{AreSmall};

use crate::drawing::next_draw;
use crate::draws::drawn_hand;
use crate::payments::points_with;
use mj_deeds::{Bid, Deed, next_seat};
use mj_pay::deposit;
use mj_table::Table;
use mj_wall::Wall;
use std::alloc::{AllocError, Global};

// What follows the newest deed, a discard of a seat that nobody wins on, where this call was bid: the acceptance of
// its reach; or else the drawn hand, the call, or the draw of the next seat.
pub(crate) fn after_discard(
    alloc: Global,
    wall: &Wall,
    table: &Table,
    seat: u8,
    bid: Bid,
) -> Result<Option<Deed>, AllocError>
    requires small { AreSmall table.now.deeds }
    requires discarded { option_map_or is_discard (newest table.now.deeds) false ≡ true }
    ensures { IfOk result (λ d. d
        ≡ Some (behind_discard table.now.rules wall.now table.now.deeds seat bid)) }
{
    if is_of_reach(table) {
        return Ok(Some(accept(table, seat, bid)));
    }
    after_acceptance(alloc, wall, table, seat, bid)
}

// What follows the acceptance of a seat's reach, or a discard without one: the drawn hand where a reason holds, the
// call that was bid, or else the draw of the next seat.
pub(crate) fn after_acceptance(
    alloc: Global,
    wall: &Wall,
    table: &Table,
    seat: u8,
    bid: Bid,
) -> Result<Option<Deed>, AllocError>
    requires { AreSmall table.now.deeds }
    ensures { IfOk result (λ d. d ≡ Some (drawn_or table.now.rules table.now.deeds
        (called_or_draw wall.now table.now.deeds seat bid))) }
{
    match table.reason() {
        Some(reason) => Ok(Some(drawn_hand(alloc, table, reason)?)),
        None => called_or_draw(alloc, wall, table, seat, bid),
    }
}

// Whether the newest deed, a discard, is that of a reach.
fn is_of_reach(table: &Table) -> bool
    requires small { AreSmall table.now.deeds }
    requires discarded { option_map_or is_discard (newest table.now.deeds) false ≡ true }
    ensures { result ≡ option_map_or is_reach (before_newest (hand table.now.deeds)) false }
{
    match table.cause() {
        Some(deed) => is_reach(deed),
        None => false,
    }
}

// Whether a deed is a reach.
fn is_reach(deed: &Deed) -> bool
    ensures { result ≡ is_reach deed.now }
{
    matches!(deed, Deed::Reach { .. })
}

// The acceptance of a seat's reach, which lays down its deposit and keeps the call that was bid.
#[tactic(auto, unfolding(mj_rules::specs::Outcome::accept))]
fn accept(table: &Table, seat: u8, bid: Bid) -> Deed
    requires { AreSmall table.now.deeds }
    ensures { result ≡ accept table.now.deeds seat bid }
{
    Deed::ReachAccepted {
        seat,
        points: points_with(table.points(), deposit(seat)),
        then: bid,
    }
}

// The call that was bid, or else the draw of the next seat.
fn called_or_draw(
    alloc: Global,
    wall: &Wall,
    table: &Table,
    seat: u8,
    bid: Bid,
) -> Result<Option<Deed>, AllocError>
    requires { AreSmall table.now.deeds }
    ensures { IfOk result (λ d. d ≡ Some (called_or_draw wall.now table.now.deeds seat bid)) }
{
    match bid.deed() {
        Some(call) => Ok(Some(call)),
        None => next_draw(alloc, wall, table, next_seat(seat)),
    }
}
