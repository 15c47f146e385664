ghost use Rattle.std.specs.Prelude.{◌≡◌, not};
ghost use Rattle.std.specs.List.{list_any};
ghost use Rattle.mj_yaku.specs.Rows.{has_row};
ghost use Rattle.mj_score.specs.Scores.{is_better as better, greater_or, rows_of, comes_before as before};
ghost use Rattle.mj_score.specs.Inner.RowWalk.{first_difference};

use crate::score::Score;
use mj_yaku::YakuSet;

/// Whether one score is better than another: by base points, then by han, then by fu, and then by the rows that come
/// before the other's.
#[tactic(auto, unfolding(crate::specs::Scores::is_better))]
pub(crate) fn is_better(one: &Score, other: &Score) -> bool
    ensures { result ≡ better one.now other.now }
{
    one.base > other.base || (one.base == other.base && is_better_by_han(one, other))
}

// Whether one score of the same base points is better than another.
fn is_better_by_han(one: &Score, other: &Score) -> bool
    ensures { result ≡ greater_or one.now.han other.now.han
        (greater_or one.now.fu other.now.fu
        (before (rows_of one.now.yaku) (rows_of other.now.yaku))) }
{
    one.han > other.han || (one.han == other.han && is_better_by_fu(one, other))
}

// Whether one score of the same base points and han is better than another.
fn is_better_by_fu(one: &Score, other: &Score) -> bool
    ensures { result ≡ greater_or one.now.fu other.now.fu
        (before (rows_of one.now.yaku) (rows_of other.now.yaku)) }
{
    one.fu > other.fu || (one.fu == other.fu && comes_before(one.yaku, other.yaku))
}

// All rows of the table of yaku, in order.
const ROWS: [u8; 45] = [
    0, 1, 2, 3, 4, 5, 6, 7, 8, 9, 10, 11, 12, 13, 14, 15, 16, 17, 18, 19, 20, 21, 22, 23, 24, 25,
    26, 27, 28, 29, 30, 31, 32, 33, 34, 35, 36, 37, 38, 39, 40, 41, 42, 43, 44,
];

// Whether the list of one set's rows comes before that of the other.
#[tactic(auto, using(crate::proofs::RowOrder::first_difference_is), unfolding(crate::specs::Scores::rows_of))]
fn comes_before(one: YakuSet, other: YakuSet) -> bool
    ensures { result ≡ before (rows_of one) (rows_of other) }
{
    differs_first(one, other, &ROWS)
}

// Whether one set, at the first of the rows that only one of the two has, has it while the other has a later one, or
// lacks it and has no later one.
#[tactic(auto, unfolding(crate::specs::Inner::RowWalk::first_difference))]
fn differs_first(one: YakuSet, other: YakuSet, rows: &[u8]) -> bool
    ensures { result ≡ first_difference one other rows.now }
{
    match rows.split_first() {
        None => false,
        Some((row, later)) => {
            if one.has(*row) == other.has(*row) {
                return differs_first(one, other, later);
            }
            if one.has(*row) {
                return has_any(other, later);
            }
            !has_any(one, later)
        }
    }
}

// Whether the set has one of the rows.
fn has_any(set: YakuSet, rows: &[u8]) -> bool
    ensures { result ≡ list_any (has_row set) rows.now }
{
    rows.iter().any(|row| set.has(*row))
}
