//! The walls that a game has at hand: as many as most games need, and more where its hands go on.

ghost use Rattle.std.specs.Prelude.{◌≡◌, ◌+◌, ◌-◌, min, IfOk};
ghost use Rattle.mj_selfplay.specs.Inner.Supplies.{AreAtHand, AreEnough};

use mj_wall::Walls;
use std::alloc::{AllocError, Global};

// How many walls are shuffled beyond the hands that have begun. A game has eight hands and one more for each time that
// the dealer stays, and of 2,000 games of the built-in players one in nineteen has sixteen or more.
const AHEAD: u64 = 16;

// The walls of a seed that a game begins with.
pub(crate) fn first_walls(alloc: Global, seed: [u8; 32]) -> Result<Walls, AllocError>
    ensures { IfOk result (λ walls. AreAtHand seed walls) }
{
    Walls::shuffled(alloc, seed, AHEAD, false)
}

// Those at hand where there is one for the hand after so many, and else more of the seed.
pub(crate) fn enough_walls(
    alloc: Global,
    seed: [u8; 32],
    walls: Walls,
    hands: u32,
) -> Result<Walls, AllocError>
    requires { AreAtHand seed walls }
    ensures at_hand { IfOk result (λ more. AreAtHand seed more) }
    ensures enough { IfOk result (λ more. AreEnough seed (hands - 1) more) }
{
    if (hands as usize) < walls.as_slice().len() {
        return Ok(walls);
    }
    let more = Walls::shuffled(alloc, seed, number_for(hands), false)?;
    Ok(more)
}

// How many walls are shuffled when so many hands have begun: no more than a game has hands.
fn number_for(hands: u32) -> u64
    ensures { result ≡ min (hands + 16) 200 }
{
    (u64::from(hands) + AHEAD).min(200)
}
