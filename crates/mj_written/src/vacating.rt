//! Seats whose players a stop took away.

ghost use Rattle.std.specs.Prelude.{◌≡◌, ◌<◌};
ghost use Rattle.mj_written.specs.Vacating.{Vacates, Leaves};

use mj_journal::Entering;
use mj_ports::Left;
use std::alloc::Global;

/// Enters each seat that is present as gone, by its author, the lowest first. So begins a game that goes on after a stop:
/// the connections of then are gone, and each seat may be taken back.
pub fn vacate<G: Entering>(game: &mut G, alloc: Global) -> Left
    ensures setting { G.setting game.new ≡ G.setting game.old }
    ensures entries { Vacates result (G.after (G.setting game.old)) (G.history game.old) (G.history game.new) }
{
    for seat in 0..4 {
        match leave(game, alloc, seat) {
            Left::Gone => {}
            Left::NoMemory => return Left::NoMemory,
        }
    }
    Left::Gone
}

// Enters a seat as gone, if it is present.
fn leave<G: Entering>(game: &mut G, alloc: Global, seat: u8) -> Left
    requires { seat < 4 }
    ensures setting { G.setting game.new ≡ G.setting game.old }
    ensures entries { Leaves result ((G.after (G.setting game.old) (G.history game.old)).present seat) seat
        (G.history game.old) (G.history game.new) }
{
    match game.author(seat) {
        Some(author) => game.gone(alloc, author, seat),
        None => Left::Gone,
    }
}
