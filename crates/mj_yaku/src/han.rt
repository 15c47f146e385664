ghost use Rattle.std.specs.Prelude.{◌≡◌, ◌<◌, ◌≤◌, ◌⊎◌};
ghost use Rattle.mj_yaku.specs.Han.{han};

// The han of each row in a closed hand, 100 for a yakuman, and in an open one, 0 where the row asks for a closed hand.
const CLOSED: [u8; 45] = [
    1, 2, 1, 1, 1, 1, 1, 1, 1, 1, 1, 1, 1, 1, 1, 1, 2, 2, 2, 2, 2, 2, 2, 2, 2, 2, 3, 3, 0, 0, 0, 3,
    6, 100, 100, 100, 100, 100, 100, 100, 100, 100, 100, 100, 100,
];

const OPEN: [u8; 45] = [
    0, 0, 0, 0, 0, 0, 1, 1, 1, 1, 1, 1, 1, 1, 1, 1, 0, 2, 2, 2, 2, 2, 2, 1, 1, 1, 2, 2, 0, 0, 0, 0,
    5, 0, 0, 100, 100, 100, 100, 100, 100, 0, 100, 0, 0,
];

/// The han of a row of the table of yaku, 0 to 44, in a closed or an open hand: 0 where the row asks for a closed hand,
/// and 100 for a yakuman. Condition: the row is none of the dora, 28 to 30, whose han is their number.
#[tactic(auto, using(crate::proofs::RowSets::most_han))]
pub fn han_of(row: u8, closed: bool) -> u8
    requires within { row < 45 }
    requires no_dora { (row < 28) ⊎ (30 < row) }
    ensures value { result ≡ han row closed }
    ensures most { result ≤ 100 }
{
    han_in_table(row, closed)
}

/// The han in the row's place of the two tables, and none past their end.
#[tactic(auto, unfolding(crate::specs::Han::han, crate::specs::Han::closed_han, crate::specs::Han::open_han, crate::specs::Han::table))]
pub(crate) fn han_in_table(row: u8, closed: bool) -> u8
    ensures { result ≡ han row closed }
{
    let table = if closed {
        CLOSED.as_slice()
    } else {
        OPEN.as_slice()
    };
    match table.get(usize::from(row)) {
        Some(han) => *han,
        None => 0,
    }
}
