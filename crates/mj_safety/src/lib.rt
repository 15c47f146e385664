//! Safe tiles as definitions: which kinds a seat may discard so that another can't win on them, and why. Nothing here runs: the
//! functions are the places where the laws are stated.
#![tactic(auto)]

mod reason;

ghost use Rattle.mj_safety.specs.Laws.{FirstReasonIsGiven, SafeTilesAreSafe};

pub use reason::Reason;

/// The reason that is given for a kind is the first that holds, and none is given exactly where none holds.
pub fn first_reason_is_given()
    ensures { FirstReasonIsGiven }
{}

/// Where a kind is safe against a seat, whatever the reason, no win of that seat is lawful in the window on a discard of it: the
/// seat is furiten, or no hand can be completed by a tile of this kind.
pub fn safe_tiles_are_safe()
    ensures { SafeTilesAreSafe }
{}
