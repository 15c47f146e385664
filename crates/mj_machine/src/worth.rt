ghost use Rattle.std.specs.Prelude.{◌≡◌, ◌≤◌, ◌<◌, ◌++◌, ◌∷◌, [], IfOk, OnOk, map, count_by, unwrap_or, length, option_to_list, slice_get, if◌then◌else◌};
ghost use Rattle.mj_tiles.specs.Counts.{kind_counts, number_of};
ghost use Rattle.mj_tiles.specs.Faces.{is_red, kind_of, after_kind};
ghost use Rattle.mj_tiles.specs.Melds.{tiles_of_meld};
ghost use Rattle.mj_deeds.specs.Facts.{indicators};
ghost use Rattle.mj_deeds.specs.Hand.{hand};
ghost use Rattle.mj_yaku.specs.Han.{han};
ghost use Rattle.mj_yaku.specs.Hands.{are_concealed};
ghost use Rattle.mj_yaku.specs.Rows.{has_row};
ghost use Rattle.mj_score.specs.Scores.{rows_of};
ghost use Rattle.mj_score.specs.Worth.{worth_of};
ghost use Rattle.mj_rules.specs.Wins.{dora_by, extra_by, no_score, dora_row, rows_of_win};
ghost use Rattle.mj_machine.specs.Inner.Steps.{all_tiles, AreFew};

use mj_deeds::{Tiles, YakuList};
use mj_readings::Case;
use mj_score::{Extra, Score, worth};
use mj_table::Table;
use mj_tiles::{Meld, RED, Tile, after, counts_of};
use mj_yaku::{DORA, RED_DORA, ROWS, UNDER_DORA, YakuSet, han_of};
use std::alloc::{AllocError, Global};

// What a winner has and shows: its concealed tiles without the winning one, that one, the hidden indicators, and its
// melds.
#[derive(Clone, Copy)]
pub(crate) struct Shown<'a> {
    pub(crate) own: &'a [Tile],
    pub(crate) tile: Tile,
    pub(crate) unders: &'a [Tile],
    pub(crate) melds: &'a [Meld],
}

// What a win is worth in these circumstances, and its rows.
pub(crate) fn worth_of_win(
    alloc: Global,
    table: &Table,
    case: &Case,
    shown: &Shown,
) -> Result<(Score, YakuList), AllocError>
    requires closed { case.now.closed ≡ are_concealed shown.now.melds.now }
    requires few { AreFew shown.now.own.now shown.now.tile shown.now.melds.now }
    requires shown { length (indicators (hand table.now.deeds)) ≤ 5 }
    requires unders { length shown.now.unders.now ≤ 5 }
    ensures score { IfOk result (λ found. found.0
        ≡ unwrap_or (worth_of (kind_counts (shown.now.own.now ++ shown.now.tile ∷ []))
        shown.now.melds.now (kind_of shown.now.tile) case.now
        (extra_by (indicators (hand table.now.deeds)) shown.now.unders.now
        (all_tiles shown.now.own.now shown.now.tile shown.now.melds.now))) no_score) }
    ensures yaku { IfOk result (λ found. found.1 ≡ rows_of_win found.0 case.now.closed
        (extra_by (indicators (hand table.now.deeds)) shown.now.unders.now
        (all_tiles shown.now.own.now shown.now.tile shown.now.melds.now))) }
    ensures base { IfOk result (λ found. found.0.base ≤ 8000) }
{
    let extra = extra_of(alloc, table, shown)?;
    let score = score_of_win(alloc, case, shown, extra)?;
    let yaku = rows_of_win(alloc, &score, case.closed, extra)?;
    Ok((score, yaku))
}

// The dora of a win: by the indicators that are shown and the hidden ones, and the red fives.
fn extra_of(alloc: Global, table: &Table, shown: &Shown) -> Result<Extra, AllocError>
    requires few { AreFew shown.now.own.now shown.now.tile shown.now.melds.now }
    requires shown { length (indicators (hand table.now.deeds)) ≤ 5 }
    requires unders { length shown.now.unders.now ≤ 5 }
    ensures value { IfOk result (λ extra. extra
        ≡ extra_by (indicators (hand table.now.deeds)) shown.now.unders.now
        (all_tiles shown.now.own.now shown.now.tile shown.now.melds.now)) }
    ensures dora { IfOk result (λ extra. extra.dora ≤ 90) }
    ensures under { IfOk result (λ extra. extra.under ≤ 90) }
    ensures red { IfOk result (λ extra. extra.red ≤ 18) }
{
    let tiles = all_tiles(alloc, shown)?;
    Ok(Extra {
        dora: dora_shown(table, tiles.as_slice()),
        under: dora_by(shown.unders, tiles.as_slice()),
        red: number_red(tiles.as_slice()),
    })
}

// What the tiles of a win are worth.
fn score_of_win(
    alloc: Global,
    case: &Case,
    shown: &Shown,
    extra: Extra,
) -> Result<Score, AllocError>
    requires closed { case.now.closed ≡ are_concealed shown.now.melds.now }
    requires dora { extra.dora ≤ 90 }
    requires under { extra.under ≤ 90 }
    requires red { extra.red ≤ 18 }
    requires few { AreFew shown.now.own.now shown.now.tile shown.now.melds.now }
    ensures { IfOk result (λ score. score
        ≡ unwrap_or (worth_of (kind_counts (shown.now.own.now ++ shown.now.tile ∷ []))
        shown.now.melds.now (kind_of shown.now.tile) case.now extra) no_score) }
{
    let concealed = concealed(alloc, shown)?;
    let Some(counts) = counts_of(concealed.as_slice()) else {
        return Ok(no_score());
    };
    let found = worth(alloc, &counts, shown.melds, shown.tile.kind(), case, extra)?;
    Ok(found.unwrap_or(no_score()))
}

// Worth nothing.
#[tactic(auto, unfolding(mj_yaku::specs::Rows::no_rows))]
fn no_score() -> Score
    ensures { result ≡ no_score }
{
    Score {
        han: 0,
        fu: 0,
        yaku: YakuSet::none(),
        base: 0,
    }
}

// The rows of a win with their han, and after them the rows of dora with their numbers; beside a yakuman no dora
// counts.
#[tactic(auto, unfolding(mj_rules::specs::Wins::rows_of_win))]
fn rows_of_win(
    alloc: Global,
    score: &Score,
    closed: bool,
    extra: Extra,
) -> Result<YakuList, AllocError>
    ensures { IfOk result (λ rows. rows ≡ rows_of_win score.now closed extra) }
{
    let mut rows = YakuList::new(alloc);
    push_rows(&mut rows, score.yaku, closed)?;
    if !score.yaku.is_yakuman() {
        push_dora(&mut rows, DORA, extra.dora)?;
        push_dora(&mut rows, UNDER_DORA, extra.under)?;
        push_dora(&mut rows, RED_DORA, extra.red)?;
    }
    Ok(rows)
}

// Adds the rows of a set with their han, in order.
fn push_rows(rows: &mut YakuList, yaku: YakuSet, closed: bool) -> Result<(), AllocError>
    ensures { OnOk result (rows.new ≡ rows.old
        ++ map (λ row. (row, han row closed)) (rows_of yaku)) }
{
    for row in 0..ROWS {
        push_row(rows, yaku, row, closed)?;
    }
    Ok(())
}

// Adds a row of a set with its han, where the set has it.
fn push_row(rows: &mut YakuList, yaku: YakuSet, row: u8, closed: bool) -> Result<(), AllocError>
    requires { row < 45 }
    ensures { OnOk result (rows.new ≡ rows.old
        ++ (if has_row yaku row then (row, han row closed) ∷ [] else [])) }
{
    if yaku.has(row) {
        rows.push(row, han_in(row, closed))?;
    }
    Ok(())
}

// The han of a row of the table of yaku; the rows of dora have none of their own.
#[tactic(auto, unfolding(mj_yaku::specs::Han::han, mj_yaku::specs::Han::closed_han, mj_yaku::specs::Han::open_han, mj_yaku::specs::Han::table))]
fn han_in(row: u8, closed: bool) -> u8
    requires { row < 45 }
    ensures { result ≡ han row closed }
{
    match row {
        DORA => 0,
        UNDER_DORA => 0,
        RED_DORA => 0,
        _ => han_of(row, closed),
    }
}

// Adds a row of dora, where there are any.
fn push_dora(rows: &mut YakuList, row: u8, number: u8) -> Result<(), AllocError>
    requires { row < 45 }
    ensures { OnOk result (rows.new ≡ rows.old ++ dora_row row number) }
{
    if number > 0 {
        rows.push(row, number)?;
    }
    Ok(())
}

// The concealed tiles of a winner, the winning one last.
fn concealed(alloc: Global, shown: &Shown) -> Result<Tiles, AllocError>
    ensures { IfOk result (λ tiles. tiles ≡ shown.now.own.now ++ shown.now.tile ∷ []) }
{
    let mut tiles = Tiles::of(alloc, shown.own)?;
    tiles.push(shown.tile)?;
    Ok(tiles)
}

// All tiles of a winner.
fn all_tiles(alloc: Global, shown: &Shown) -> Result<Tiles, AllocError>
    ensures { IfOk result (λ tiles. tiles
        ≡ all_tiles shown.now.own.now shown.now.tile shown.now.melds.now) }
{
    let mut tiles = concealed(alloc, shown)?;
    for meld in shown.melds {
        push_meld(&mut tiles, meld)?;
    }
    Ok(tiles)
}

// Adds the tiles of a meld.
fn push_meld(tiles: &mut Tiles, meld: &Meld) -> Result<(), AllocError>
    ensures { OnOk result (tiles.new ≡ tiles.old ++ tiles_of_meld meld.now) }
{
    tiles.push(meld.a)?;
    tiles.push(meld.b)?;
    tiles.push(meld.c)?;
    if let Some(tile) = meld.d {
        tiles.push(tile)?;
    }
    Ok(())
}

// How many of some tiles are dora by the indicators that are shown.
fn dora_shown(table: &Table, tiles: &[Tile]) -> u8
    requires few { length tiles.now ≤ 18 }
    requires shown { length (indicators (hand table.now.deeds)) ≤ 5 }
    ensures value { result ≡ dora_by (indicators (hand table.now.deeds)) tiles.now }
    ensures within { result ≤ 90 }
{
    let mut dora = 0;
    for place in 0..table.shown() {
        dora += dora_at(table, place as u8, tiles);
    }
    dora
}

// How many of some tiles are dora by the indicator at a place of those that are shown.
fn dora_at(table: &Table, place: u8, tiles: &[Tile]) -> u8
    requires { length tiles.now ≤ 18 }
    ensures value { result
        ≡ dora_by (option_to_list (slice_get (indicators (hand table.now.deeds)) place))
        tiles.now }
    ensures within { result ≤ 18 }
{
    match table.indicator(place) {
        Some(indicator) => number_after(indicator, tiles),
        None => 0,
    }
}

// How many of some tiles are dora by these indicators.
fn dora_by(indicators: &[Tile], tiles: &[Tile]) -> u8
    requires few { length tiles.now ≤ 18 }
    requires shown { length indicators.now ≤ 5 }
    ensures value { result ≡ dora_by indicators.now tiles.now }
    ensures within { result ≤ 90 }
{
    let mut dora = 0;
    for indicator in indicators {
        dora += number_after(*indicator, tiles);
    }
    dora
}

// How many of some tiles are of the kind after an indicator.
fn number_after(indicator: Tile, tiles: &[Tile]) -> u8
    requires { length tiles.now ≤ 18 }
    ensures value { result ≡ number_of tiles.now (after_kind (kind_of indicator)) }
    ensures within { result ≤ 18 }
{
    let kind = after(indicator.kind()).number();
    tiles
        .iter()
        .filter(|tile| tile.kind().number() == kind)
        .count() as u8
}

// How many of some tiles are red fives.
fn number_red(tiles: &[Tile]) -> u8
    requires { length tiles.now ≤ 18 }
    ensures value { result ≡ count_by is_red tiles.now }
    ensures within { result ≤ 18 }
{
    tiles.iter().filter(|tile| tile.face() >= RED).count() as u8
}
