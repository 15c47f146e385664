//! What a seat sees as definitions: its own tiles and those that lie open. Nothing here runs: the function is the place where the law
//! is stated.
#![tactic(auto)]

ghost use Rattle.mj_sights.specs.Laws.{TilesAreHeldOrOpen};

/// Each tile that was brought into a hand is held by one of the four seats or lies open, and counts once: a discard that was
/// called lies in its meld.
pub fn tiles_are_held_or_open()
    ensures { TilesAreHeldOrOpen }
{}
