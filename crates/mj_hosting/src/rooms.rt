//! The rooms of a host: how many there are, and for which a line is.

ghost use Rattle.std.specs.Prelude.{◌≡◌, IfOk};
ghost use Rattle.mj_hosting.specs.Plans.{picked_for_one};
ghost use Rattle.mj_hosting.specs.Rooms.{AreWithin, count_of, handlers_for};

use mj_ports::{Picked, Picker};
use mjai_answers::{read_join, read_room};
use std::alloc::{AllocError, Global};

/// Which rooms a host has, with a table in each.
#[derive(Clone, Copy)]
pub enum Rooms {
    /// The one that each join is for, as of the command `serve`.
    One,
    /// So many, 1 to 8, that joins name, as of the command `tables`.
    Many(u8),
}

impl Rooms {
    /// How many there are.
    pub fn count(self) -> u8
        ensures { result ≡ count_of self }
    {
        match self {
            Rooms::One => 1,
            Rooms::Many(rooms) => rooms,
        }
    }

    /// How many handlers take links for them; the ticker has the number after theirs.
    pub fn handlers(self) -> u8
        requires { AreWithin self }
        ensures { result ≡ handlers_for self }
    {
        match self {
            Rooms::One => 8,
            Rooms::Many(rooms) => 4 * rooms + 2,
        }
    }
}

/// Picks the table of a join: the one there is, or by its room.
impl Picker for Rooms {
    ghost use Rattle.mj_hosting.specs.Rooms.{picked_for};

    ghost picks = { λ rooms line. picked_for rooms line };

    fn pick(&self, alloc: Global, line: &[u8]) -> Result<Picked, AllocError> {
        match self {
            Rooms::One => pick_one(alloc, line),
            Rooms::Many(rooms) => read_room(alloc, line, *rooms),
        }
    }
}

// Each line that is a join is for the one table.
fn pick_one(alloc: Global, line: &[u8]) -> Result<Picked, AllocError>
    ensures { IfOk result (λ p. p ≡ picked_for_one line.now) }
{
    match read_join(alloc, line) {
        Ok(Some(_)) => Ok(Picked::Table(0)),
        Ok(None) => Ok(Picked::BadName),
        Err(e) => Err(e),
    }
}
