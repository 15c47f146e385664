ghost use Rattle.std.specs.Prelude.{◌≡◌, ◌+◌, ◌≤◌, ◌<◌, ◌==◌, false, true, length, position, IfSome};
ghost use Rattle.std.specs.Option.{option_map};
ghost use Rattle.mj_yaku.specs.Hands.{are_concealed, is_closed_kan};
ghost use Rattle.mj_yaku.specs.Rows.{no_rows, rows_from};
ghost use Rattle.mj_yaku.specs.Han.{has_yakuman, han_of_rows};
ghost use Rattle.mj_fu.specs.Fu.{is_orphans};
ghost use Rattle.mj_yaku.specs.Yaku.{ordinary_rows as rows_to_32, yakuman_rows as rows_to_44, yaku_of};

use crate::limits::{has_chuuren, has_kokushi};
use crate::numbers::{
    has_chanta, has_iipeikou, has_ittsu, has_junchan, has_ryanpeikou, has_sanshoku_doujun,
    has_sanshoku_doukou,
};
use crate::rows::YAKUMAN;
use crate::set_forms::{
    has_chiitoitsu, has_daisangen, has_daisuushi, has_sanankou, has_sankantsu, has_shousangen,
    has_shousuushi, has_suuankou, has_suukantsu, has_toitoi, has_triple_of,
};
use crate::whole_hand::{
    has_chinitsu, has_chinroutou, has_honitsu, has_honroutou, has_ryuuiisou, has_tanyao,
    has_tsuuiisou,
};
use crate::wins::{
    has_chankan, has_chiihou, has_double_reach, has_haitei, has_houtei, has_ippatsu,
    has_menzen_tsumo, has_reach, has_rinshan, has_tenhou,
};
use crate::yaku_set::YakuSet;
use mj_fu::is_pinfu;
use mj_readings::{Case, Reading};
use mj_tiles::{Form, Meld, WHITE};

/// The yaku of a reading: the first yakuman alone where one holds, and else all rows of the table that hold, dora not
/// counted. Condition: `closed` of the case is true exactly where all melds are concealed kans, as `is_closed` says.
pub fn yaku(reading: &Reading, melds: &[Meld], case: &Case) -> YakuSet
    requires { case.now.closed ≡ are_concealed melds.now }
    ensures value { result ≡ yaku_of reading.now melds.now case.now }
    ensures some_han { (result == no_rows) ≡ false → 1 ≤ han_of_rows result case.now.closed }
    ensures orphans { is_orphans reading.now ≡ true → case.now.closed ≡ true → has_yakuman result
        ≡ true }
{
    rows_of(reading, melds, case)
}

// The first yakuman alone, or else all rows that hold.
#[tactic(auto, unfolding(crate::specs::Yaku::yaku_of))]
fn rows_of(reading: &Reading, melds: &[Meld], case: &Case) -> YakuSet
    ensures { result ≡ yaku_of reading.now melds.now case.now }
{
    match first_yakuman(reading, melds, case) {
        Some(row) => YakuSet::none().with(row),
        None => rows_that_hold(&ordinary_rows(reading, case)),
    }
}

/// Whether a hand with these melds is closed: all of them are concealed kans.
pub fn is_closed(melds: &[Meld]) -> bool
    ensures { result ≡ are_concealed melds.now }
{
    melds.iter().all(|meld| is_concealed_kan(meld.form))
}

// Whether the form is that of a concealed kan.
fn is_concealed_kan(form: Form) -> bool
    ensures { result ≡ is_closed_kan form }
{
    match form {
        Form::ClosedKan => true,
        Form::Chi | Form::Pon | Form::OpenKan | Form::AddedKan => false,
    }
}

// The first yakuman that holds.
fn first_yakuman(reading: &Reading, melds: &[Meld], case: &Case) -> Option<u8>
    ensures value { result ≡ option_map
        (λ place. 33 + place) (position
        (λ holds. holds) (rows_to_44 reading.now melds.now case.now)) }
    ensures within { IfSome result (λ row. row < 45) }
{
    match first_that_holds(&yakuman_rows(reading, melds, case)) {
        Some(place) => Some(YAKUMAN + place as u8),
        None => None,
    }
}

// All rows of the list that hold, where its items are those of the rows from 0 on.
fn rows_that_hold(rows: &[bool]) -> YakuSet
    requires { length rows.now ≤ 45 }
    ensures { result ≡ rows_from 0 rows.now }
{
    let mut set = YakuSet::none();
    let mut row = rows.len();
    while row > 0 {
        row -= 1;
        if rows[row] {
            set = set.with(row as u8);
        }
    }
    set
}

// The place of the first row of the list that holds.
fn first_that_holds(rows: &[bool]) -> Option<usize>
    ensures { result ≡ position (λ holds. holds) rows.now }
{
    rows.iter().position(|holds| *holds)
}

// Whether each of the rows 0 to 32 holds. Rows 28 to 30 are the dora, which are no yaku.
#[tactic(auto, unfolding(crate::specs::Yaku::ordinary_rows))]
fn ordinary_rows(reading: &Reading, case: &Case) -> [bool; 33]
    ensures { result ≡ rows_to_32 reading.now case.now }
{
    [
        has_reach(case),
        has_double_reach(case),
        has_ippatsu(case),
        has_menzen_tsumo(case),
        is_pinfu(reading, case),
        has_iipeikou(reading, case),
        has_tanyao(reading),
        has_triple_of(case.seat_wind.number(), reading),
        has_triple_of(case.round_wind.number(), reading),
        has_triple_of(WHITE, reading),
        has_triple_of(WHITE + 1, reading),
        has_triple_of(WHITE + 2, reading),
        has_haitei(case),
        has_houtei(case),
        has_rinshan(case),
        has_chankan(case),
        has_chiitoitsu(reading, case),
        has_toitoi(reading),
        has_sanankou(reading, case),
        has_sankantsu(reading),
        has_sanshoku_doukou(reading),
        has_honroutou(reading),
        has_shousangen(reading),
        has_sanshoku_doujun(reading),
        has_ittsu(reading),
        has_chanta(reading),
        has_honitsu(reading),
        has_junchan(reading),
        false, // Dora.
        false, // Uradora.
        false, // Akadora.
        has_ryanpeikou(reading, case),
        has_chinitsu(reading),
    ]
}

// Whether each of the rows 33 to 44, the yakuman, holds.
#[tactic(auto, unfolding(crate::specs::Yaku::yakuman_rows))]
fn yakuman_rows(reading: &Reading, melds: &[Meld], case: &Case) -> [bool; 12]
    ensures { result ≡ rows_to_44 reading.now melds.now case.now }
{
    [
        has_kokushi(reading, case),
        has_suuankou(reading, case),
        has_daisangen(reading),
        has_shousuushi(reading),
        has_daisuushi(reading),
        has_tsuuiisou(reading),
        has_chinroutou(reading),
        has_ryuuiisou(reading),
        has_chuuren(reading, melds, case),
        has_suukantsu(reading),
        has_tenhou(case),
        has_chiihou(case),
    ]
}
