ghost use Rattle.std.specs.Prelude.{◌≡◌, ℕ, ◌≤◌, ◌<◌, ◌+◌, ◌++◌, ◌∷◌, [], length, replicate};
ghost use Rattle.std.specs.List.{slice_index_or};
ghost use Rattle.mj_readings.specs.Inner.SetLists.{no_set};
ghost use Rattle.mj_readings.specs.Inner.Ways.{run_at, triplet_at, sets_at};

use crate::reading::{Set, SetForm};
use mj_tiles::Kind;
use std::marker::Model;

/// At most four sets, in order.
#[derive(Clone, Copy, Debug)]
pub(crate) struct Sets {
    items: [Set; 4],
    count: usize,
}

impl Model for Sets {
    ghost use Rattle.std.specs.Prelude.{List, take, length};
    ghost use Rattle.std.proofs.Common.{arith, length-take-le};
    ghost use Rattle.mj_readings.specs.declared.reading.Set.{Set};
    ghost use Rattle.mj_readings.specs.Inner.SetLists.{HasRoom, filled};

    ghost Value = { List Set };

    ghost view = { λ s. take s.count s.items };

    ghost invariant = { λ s. HasRoom s.items s.count };

    ghost inverse = { λ sets. record { items = filled sets; count = length sets } };

    ghost inverse_ok = { λ s h i. record {
      items = h.rest i;
      count = length-take-le s.count s.items (omega (arith, h.size, h.within)) i;
    } };
}

impl Sets {
    /// No sets.
    pub(crate) fn none() -> Sets
        ensures { result ≡ [] }
    {
        Sets {
            items: [blank(), blank(), blank(), blank()],
            count: 0,
        }
    }

    /// The sets as a slice.
    pub(crate) fn as_slice(&self) -> &[Set]
        ensures value { result.now ≡ self.now }
        ensures within { length result.now ≤ 4 }
    {
        &self.items[..self.count]
    }

    /// The set at the place, or a blank past the end.
    pub(crate) fn get(&self, place: usize) -> Set
        ensures { result ≡ slice_index_or self.now place no_set }
    {
        match self.as_slice().get(place) {
            Some(set) => *set,
            None => blank(),
        }
    }

    /// These sets and one more after them.
    pub(crate) fn with(&self, set: &Set) -> Sets
        requires { length self.now < 4 }
        ensures { result ≡ self.now ++ set.now ∷ [] }
    {
        let sets = self.as_slice();
        Sets {
            items: [
                at(sets, set, 0),
                at(sets, set, 1),
                at(sets, set, 2),
                at(sets, set, 3),
            ],
            count: sets.len() + 1,
        }
    }
}

/// The set at the place of a list and one more, or the blank past the end.
fn at(sets: &[Set], last: &Set, place: usize) -> Set
    ensures { result ≡ slice_index_or (sets.now ++ last.now ∷ []) place no_set }
{
    match sets.get(place) {
        Some(set) => *set,
        None if place == sets.len() => *last,
        None => blank(),
    }
}

/// What stands in a place without a set.
fn blank() -> Set
    ensures { result ≡ no_set }
{
    Set {
        form: SetForm::Run,
        low: Kind::at(0),
        shown: false,
    }
}
