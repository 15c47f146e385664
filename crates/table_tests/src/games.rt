//! Games before their first entry.

ghost use Rattle.std.specs.Prelude.{◌≡◌, [], IfOk};

use mj_core::Core;
use mj_wall::{Rules, Wall};
use std::alloc::{AllocError, Global};

/// A game on a shuffled wall with a limit of 1000, which default answers end after some hands.
pub fn shuffled_game(alloc: Global) -> Result<Core, AllocError>
    ensures { IfOk result (λ game. game.entries ≡ []) }
{
    let rules = Rules {
        limit: 1000,
        draws: false,
        red: false,
    };
    Core::new(
        alloc,
        vec![in alloc; Wall::shuffled([7; 32], 0, false)]?,
        rules,
    )
}
