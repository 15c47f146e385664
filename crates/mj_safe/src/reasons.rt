ghost use Rattle.std.specs.Prelude.{◌≡◌, ◌≤◌, ◌<◌, ◌==◌, false, IsTrue, Some};
ghost use Rattle.mj_tiles.specs.Counts.{number_of};
ghost use Rattle.mj_deeds.specs.Facts.{concealed_tiles};
ghost use Rattle.mj_deeds.specs.Hand.{hand};
ghost use Rattle.mj_safety.specs.Safe.{has_to_discard, safe_reason, wants_discard};
ghost use Rattle.mj_safe.specs.Promise.{IsNeverWonOn};

use crate::blocks::is_blocked;
use mj_deeds::Deed;
use mj_safety::Reason;
use mj_table::Table;
use mj_tiles::Kind;

/// Why a discard of a kind can't be won on by another seat, as far as the asking seat can know: the first reason that holds. None
/// exactly where none holds; the kind may be safe all the same. Conditions: both seats are 0 to 3 and not the same, and the asking
/// one has to discard and holds the kind, of which a red five is one too.
///
/// Where there is a reason, the promise is this: in whatever game these are the deeds, once the seat discards a tile of this kind,
/// no win of the other seat is lawful in the window on it.
#[tactic(auto, using(crate::proofs::Firsts::never))]
pub fn safe(table: &Table, seat: u8, against: u8, kind: Kind) -> Option<Reason>
    requires seat { seat ≤ 3 }
    requires against { against ≤ 3 }
    requires apart { (against == seat) ≡ false }
    requires turn { IsTrue (has_to_discard table.now.deeds seat) }
    requires held { 0 < number_of (concealed_tiles (hand table.now.deeds) seat) kind }
    ensures first { result ≡ safe_reason table.now.deeds seat against kind }
    ensures never { (reason : Reason) → result ≡ Some reason → IsNeverWonOn table.now.rules
        table.now.deeds seat against kind }
{
    first_reason(table, seat, against, kind)
}

/// Whether a seat has to discard: the newest deed is its draw, its reach, its chi or its pon.
pub fn has_to_discard(table: &Table, seat: u8) -> bool
    ensures { result ≡ has_to_discard table.now.deeds seat }
{
    match table.newest() {
        Some(deed) => wants_discard(deed, seat),
        None => false,
    }
}

// The first reason that holds for a kind.
#[tactic(auto, using(crate::proofs::Firsts::by_own, crate::proofs::Firsts::by_riichi, crate::proofs::Firsts::by_pass, crate::proofs::Firsts::by_block, crate::proofs::Firsts::by_none))]
fn first_reason(table: &Table, seat: u8, against: u8, kind: Kind) -> Option<Reason>
    requires seat { seat ≤ 3 }
    requires against { against ≤ 3 }
    ensures { result ≡ safe_reason table.now.deeds seat against kind }
{
    if table.own(against).has(kind) {
        return Some(Reason::OwnDiscard);
    }
    if table.passed_in_riichi(against).has(kind) {
        return Some(Reason::PassedInRiichi);
    }
    if table.passed(against).has(kind) {
        return Some(Reason::Passed);
    }
    if is_blocked(table, seat, against, kind) {
        return Some(Reason::Blocked);
    }
    None
}

// Whether a seat has to discard after a deed.
fn wants_discard(deed: &Deed, seat: u8) -> bool
    ensures { result ≡ wants_discard seat deed.now }
{
    match deed {
        Deed::Draw { seat: who, .. } => *who == seat,
        Deed::Reach { seat: who } => *who == seat,
        Deed::Chi { seat: who, .. } => *who == seat,
        Deed::Pon { seat: who, .. } => *who == seat,
        _ => false,
    }
}
