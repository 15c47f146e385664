ghost use Rattle.std.specs.Prelude.{◌≡◌, ◌≤◌, ◌==◌, true, false};
ghost use Rattle.mj_fu.specs.Fu.{is_orphans};
ghost use Rattle.mj_yaku.specs.Rows.{no_rows};
ghost use Rattle.mj_yaku.specs.Han.{has_yakuman, han_of_rows};
ghost use Rattle.mj_score.specs.Scores.{score_of_rows};

use mj_fu::fu;
use mj_pay::base;
use mj_readings::{Case, Reading};
use mj_yaku::YakuSet;

/// The dora of a hand: how many tiles of the kinds after the shown indicators it has, one for each indicator, how many
/// after the hidden ones, where the winner is in riichi, and how many red fives.
#[derive(Clone, Copy, Debug, PartialEq, Eq)]
pub struct Extra {
    pub dora: u8,
    pub under: u8,
    pub red: u8,
}

/// What a hand is worth: its han, dora counted, its fu, its yaku and the base points, at most 8,000, from which all
/// payments are made. A yakuman has 100 han and no fu.
#[derive(Clone, Copy, Debug, PartialEq, Eq)]
pub struct Score {
    pub han: u8,
    pub fu: u8,
    pub yaku: YakuSet,
    pub base: u32,
}

/// The score of a reading that has these rows.
#[tactic(auto, unfolding(crate::specs::Scores::score_of_rows))]
pub(crate) fn score_reading(rows: YakuSet, reading: &Reading, case: &Case, extra: Extra) -> Score
    requires some_han { 1 ≤ han_of_rows rows case.now.closed }
    requires orphans { is_orphans reading.now ≡ true → has_yakuman rows ≡ true }
    requires dora { extra.dora ≤ 90 }
    requires under { extra.under ≤ 90 }
    requires red { extra.red ≤ 18 }
    ensures { result ≡ score_of_rows rows reading.now case.now extra }
{
    if rows.is_yakuman() {
        return Score {
            han: 100,
            fu: 0,
            yaku: rows,
            base: 8000,
        };
    }
    let han = rows.han(case.closed) + extra.dora + extra.under + extra.red;
    let fu = fu(reading, case);
    Score {
        han,
        fu,
        yaku: rows,
        base: base(han, fu),
    }
}
