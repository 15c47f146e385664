//! Sets of one suit, and a split of a suit's tiles.

ghost use Rattle.std.specs.Prelude.{◌≡◌, List};
ghost use Rattle.mj_suits.specs.declared.sets.SuitSet.{SuitSet};

use std::marker::Model;

/// A run or a triplet of one suit.
#[derive(Clone, Copy, Debug, PartialEq, Eq)]
pub struct SuitSet {
    /// Whether it is a run, three numbers in a row. A triplet otherwise, one number three times.
    pub run: bool,
    /// Its lowest number, 0 to 8. A run of the numbers 6, 7 and 8 is the highest one.
    pub low: u8,
}

/// Some sets of one suit, in a row.
#[derive(Drop)]
pub struct SuitSets {
    items: Vec<SuitSet>,
}

impl Model for SuitSets {
    ghost Value = { List SuitSet };

    ghost view = { λ sets. sets.items.items };
}

impl SuitSets {
    /// The sets of a vector, in its order.
    pub fn from_vec(items: Vec<SuitSet>) -> SuitSets
        ensures { result ≡ items.items }
    {
        SuitSets { items }
    }

    /// The sets in order.
    pub fn as_slice(&self) -> &[SuitSet]
        ensures { result.now ≡ self.now }
    {
        self.items.as_slice()
    }
}

/// One way of parting a suit's tiles into sets and at most one pair.
#[derive(Drop)]
pub struct Split {
    /// The sets, in the order of their lowest numbers, and a run before a triplet at the same one.
    pub sets: SuitSets,
    /// The number of the pair, 0 to 8, where there is one.
    pub pair: Option<u8>,
}
