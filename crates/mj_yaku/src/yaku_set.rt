ghost use Rattle.std.specs.Prelude.{◌≡◌, ℕ, ◌<◌, ◌≤◌, ◌==◌, ◌^◌, false, length, sum_by};
ghost use Rattle.mj_yaku.specs.Rows.{has_row, no_rows, with_row};
ghost use Rattle.mj_yaku.specs.Han.{has_yakuman, han_of_rows, sum_of_han as han_sum, han_in as han_where};

use crate::han::han_in_table;
use crate::rows::ROWS;
use std::marker::Model;

// The rows that add up, and those of the yakuman.
const ORDINARY: [u8; 30] = [
    0, 1, 2, 3, 4, 5, 6, 7, 8, 9, 10, 11, 12, 13, 14, 15, 16, 17, 18, 19, 20, 21, 22, 23, 24, 25,
    26, 27, 31, 32,
];

const YAKUMAN: [u8; 12] = [33, 34, 35, 36, 37, 38, 39, 40, 41, 42, 43, 44];

/// A set of rows of the table of yaku, which has the rows 0 to 44.
#[derive(Clone, Copy, Debug, PartialEq, Eq)]
pub struct YakuSet {
    mask: u64,
}

impl Model for YakuSet {
    ghost Value = { ℕ };

    ghost view = { λ s. s.mask };

    ghost invariant = { λ s. s.mask < 2 ^ 45 };

    ghost inverse = { λ n. record { mask = n } };
}

impl YakuSet {
    /// The set without any row.
    #[tactic(auto, unfolding(crate::specs::Rows::no_rows))]
    pub fn none() -> YakuSet
        ensures { result ≡ no_rows }
    {
        YakuSet { mask: 0 }
    }

    /// This set and the row.
    #[tactic(auto, unfolding(crate::specs::Rows::with_row))]
    pub(crate) fn with(self, row: u8) -> YakuSet
        requires { row < 45 }
        ensures { result ≡ with_row self row }
    {
        YakuSet {
            mask: self.mask | 1 << row,
        }
    }

    /// Whether the row is one of the set; a number above 44 is no row.
    #[tactic(auto, unfolding(crate::specs::Rows::has_row))]
    pub fn has(self, row: u8) -> bool
        ensures { result ≡ has_row self row }
    {
        let mask = self.mask;
        if row >= ROWS {
            return false;
        }
        mask >> row & 1 == 1
    }

    /// Whether the set has a yakuman.
    #[tactic(auto, unfolding(crate::specs::Han::has_yakuman))]
    pub fn is_yakuman(self) -> bool
        ensures { result ≡ has_yakuman self }
    {
        YAKUMAN.iter().any(|row| self.has(*row))
    }

    /// The han of the set in a closed or an open hand, without dora: 100 for a yakuman, and else those of its rows
    /// together, at most 52.
    #[tactic(auto, unfolding(crate::specs::Han::han_of_rows))]
    pub fn han(self, closed: bool) -> u8
        ensures value { result ≡ han_of_rows self closed }
        ensures most { result ≤ 100 }
        ensures ordinary { has_yakuman self ≡ false → result ≤ 52 }
    {
        if self.is_yakuman() {
            return 100;
        }
        self.sum_of_han(closed)
    }

    // The han of the rows other than dora and yakuman together.
    #[tactic(auto, using(crate::proofs::SomeHan::most_sum), unfolding(crate::specs::Han::sum_of_han))]
    fn sum_of_han(self, closed: bool) -> u8
        ensures value { result ≡ han_sum self closed }
        ensures most { result ≤ 52 }
    {
        let sum = self.sum_of_rows(closed, &ORDINARY);
        sum as u8
    }

    // The han of those of the rows that the set has.
    fn sum_of_rows(self, closed: bool, rows: &[u8]) -> u32
        requires { length rows.now ≤ 30 }
        ensures { result ≡ sum_by (han_where self closed) rows.now }
    {
        let mut sum: u32 = 0;
        for row in rows {
            sum += u32::from(self.han_in(closed, *row));
        }
        sum
    }

    // The han of a row where the set has it.
    #[tactic(auto, using(crate::proofs::RowSets::most_han))]
    fn han_in(self, closed: bool, row: u8) -> u8
        ensures value { result ≡ han_where self closed row }
        ensures most { result ≤ 100 }
    {
        if self.has(row) {
            han_in_table(row, closed)
        } else {
            0
        }
    }

    /// Whether the set has no row.
    #[tactic(auto, unfolding(crate::specs::Rows::no_rows))]
    pub fn is_empty(self) -> bool
        ensures { result ≡ (self == no_rows) }
    {
        self.mask == 0
    }
}
