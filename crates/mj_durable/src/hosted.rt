//! What games are hosted with.

ghost use Rattle.std.specs.Prelude.{◌≤◌};
ghost use Rattle.mj_hosting.specs.Rooms.{count_of};

use mj_hosting::Rooms;
use mj_words::Serving;

/// What games are hosted with.
#[derive(Clone, Copy)]
pub struct Hosted {
    /// At which tables they are played.
    pub rooms: Rooms,
    /// What each is served with.
    pub serving: Serving,
    ghost within: { (1 ≤ count_of rooms) × (count_of rooms ≤ 8) },
}
