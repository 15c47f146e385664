ghost use Rattle.std.specs.Prelude.{◌≡◌, ◌≤◌, length};

use std::marker::Model;

/// A list of at most two seats that takes no memory.
#[derive(Clone, Copy, Debug, PartialEq, Eq)]
pub struct SeatList {
    places: [u8; 2],
    len: u8,
}

impl Model for SeatList {
    ghost use Rattle.std.specs.Prelude.{ℕ, ◌-◌, List, ◌++◌, length, take, replicate};
    ghost use Rattle.mj_deeds.specs.Inner.SeatLists.{ArePlaces};
    ghost use Rattle.std.proofs.Common.{arith, length-take-le};

    ghost Value = { List ℕ };

    ghost view = { λ s. take s.len s.places };

    ghost invariant = { λ s. ArePlaces s.places s.len };

    ghost inverse = { λ v. record { places = v ++ replicate (2 - length v) 0; len = length v } };

    ghost inverse_ok = { λ s h. Prim.grind (arith, length-take-le) };
}

impl SeatList {
    /// The list of these seats, of which there are at most two.
    pub fn of(seats: &[u8]) -> SeatList
        requires { length seats.now ≤ 2 }
        ensures { result ≡ seats.now }
    {
        match seats {
            [] => SeatList {
                places: [0, 0],
                len: 0,
            },
            [first] => SeatList {
                places: [*first, 0],
                len: 1,
            },
            [first, second, ..] => SeatList {
                places: [*first, *second],
                len: 2,
            },
        }
    }

    /// Its seats, in order.
    pub fn as_slice(&self) -> &[u8]
        ensures items { result.now ≡ self.now }
        ensures fits { length self.now ≤ 2 }
    {
        &self.places[..usize::from(self.len)]
    }
}
