ghost use Rattle.std.specs.Prelude.{◌≡◌, ◌≢◌, ◌≤◌, ◌∷◌, [], IfOk, false, length, Some, if◌then◌else◌};
ghost use Rattle.mj_tiles.specs.Faces.{less};
ghost use Rattle.mj_deeds.specs.Course.{before_wins};
ghost use Rattle.mj_deeds.specs.Facts.{concealed_tiles, indicators, seat_melds};
ghost use Rattle.mj_deeds.specs.Hand.{hand};
ghost use Rattle.mj_deeds.specs.Points.{deposits};
ghost use Rattle.mj_deeds.specs.Standings.{standing};
ghost use Rattle.mj_rules.specs.Outcome.{next_winner};
ghost use Rattle.mj_rules.specs.Wins.{case_of, win_deed, win_shown, unders_of, for_first, score_of_win, rows_of_win, extra_of};
ghost use Rattle.mj_machine.specs.Inner.Steps.{AreFew, AreSmall, CanWin, NextCanWin};

use crate::payments::{changes, points_with, value};
use crate::worth::{Shown, worth_of_win};
use mj_deeds::{Deed, SeatList, Tiles, YakuList};
use mj_judge::case_of;
use mj_readings::Case;
use mj_score::Score;
use mj_table::Table;
use mj_tiles::Tile;
use mj_wall::Wall;
use std::alloc::{AllocError, Global};

// The win of a seat on a tile of the target; the seats of `rest` win on it next.
pub(crate) fn win(
    alloc: Global,
    wall: &Wall,
    table: &Table,
    seat: u8,
    target: u8,
    tile: Tile,
    rest: SeatList,
) -> Result<Deed, AllocError>
    requires small { AreSmall table.now.deeds }
    requires can { CanWin table.now.deeds seat target tile }
    ensures { IfOk result (λ d. d ≡ win_deed wall.now table.now.deeds seat target tile rest) }
{
    let case = case_of(table, seat);
    let own = own_tiles(alloc, table, seat, tile, case.by_draw)?;
    let unders = unders(alloc, wall, table, seat)?;
    win_shown(alloc, table, &case, seat, target, tile, own, unders, rest)
}

// After the last winner the end of the hand, and before that the win of the next one on the same tile of the target.
pub(crate) fn next_winner(
    alloc: Global,
    wall: &Wall,
    table: &Table,
    target: u8,
    tile: Tile,
    rest: &[u8],
) -> Result<Option<Deed>, AllocError>
    requires small { AreSmall table.now.deeds }
    requires can { NextCanWin table.now.deeds target tile rest.now }
    requires few { length rest.now ≤ 2 }
    ensures { IfOk result (λ d. d
        ≡ Some (next_winner wall.now table.now.deeds target tile rest.now)) }
{
    match rest {
        [] => Ok(Some(Deed::EndHand)),
        [seat, others @ ..] => {
            let others = SeatList::of(others);
            let deed = win(alloc, wall, table, *seat, target, tile, others)?;
            Ok(Some(deed))
        }
    }
}

// The win of a seat that shows these tiles and hidden indicators, in these circumstances.
fn win_shown(
    alloc: Global,
    table: &Table,
    case: &Case,
    seat: u8,
    target: u8,
    tile: Tile,
    own: Tiles,
    unders: Tiles,
    rest: SeatList,
) -> Result<Deed, AllocError>
    requires small { AreSmall table.now.deeds }
    requires seat { seat ≤ 3 }
    requires target { target ≤ 3 }
    requires others { case.now.by_draw ≡ false → seat ≢ target }
    requires few { AreFew own tile (seat_melds (before_wins (hand table.now.deeds)) seat) }
    requires unders { length unders ≤ 5 }
    requires case { case.now ≡ case_of (standing table.now.deeds)
        (before_wins (hand table.now.deeds)) seat }
    ensures { IfOk result (λ d. d ≡ win_shown table.now.deeds seat target
        (record { own = own; tile = tile; unders = unders }) rest) }
{
    let (score, yaku) = found(
        alloc,
        table,
        case,
        seat,
        own.as_slice(),
        tile,
        unders.as_slice(),
    )?;
    Ok(win_with(
        table, case, seat, target, tile, own, unders, score, yaku, rest,
    ))
}

// What a win of a seat is worth that shows these tiles and hidden indicators, and its rows.
fn found(
    alloc: Global,
    table: &Table,
    case: &Case,
    seat: u8,
    own: &[Tile],
    tile: Tile,
    unders: &[Tile],
) -> Result<(Score, YakuList), AllocError>
    requires seat { seat ≤ 3 }
    requires few { AreFew own.now tile (seat_melds (before_wins (hand table.now.deeds)) seat) }
    requires shown { length (indicators (hand table.now.deeds)) ≤ 5 }
    requires unders { length unders.now ≤ 5 }
    requires case { case.now ≡ case_of (standing table.now.deeds)
        (before_wins (hand table.now.deeds)) seat }
    ensures score { IfOk result (λ found. found.0 ≡ score_of_win (standing table.now.deeds)
        (before_wins (hand table.now.deeds)) seat
        (record { own = own.now; tile = tile; unders = unders.now })) }
    ensures yaku { IfOk result (λ found. found.1 ≡ rows_of_win found.0 case.now.closed
        (extra_of (before_wins (hand table.now.deeds)) seat
        (record { own = own.now; tile = tile; unders = unders.now }))) }
    ensures base { IfOk result (λ found. found.0.base ≤ 8000) }
{
    let melds = table.melds(seat);
    let shown = Shown {
        own,
        tile,
        unders,
        melds: melds.as_slice(),
    };
    let (score, yaku) = worth_of_win(alloc, table, case, &shown)?;
    Ok((score, yaku))
}

// The win of a seat that shows these tiles and hidden indicators, by what it is worth.
#[tactic(auto, unfolding(mj_rules::specs::Wins::win_shown))]
fn win_with(
    table: &Table,
    case: &Case,
    seat: u8,
    target: u8,
    tile: Tile,
    own: Tiles,
    unders: Tiles,
    score: Score,
    yaku: YakuList,
    rest: SeatList,
) -> Deed
    requires small { AreSmall table.now.deeds }
    requires seat { seat ≤ 3 }
    requires target { target ≤ 3 }
    requires others { case.now.by_draw ≡ false → seat ≢ target }
    requires case { case.now ≡ case_of (standing table.now.deeds)
        (before_wins (hand table.now.deeds)) seat }
    requires score { score ≡ score_of_win (standing table.now.deeds)
        (before_wins (hand table.now.deeds)) seat
        (record { own = own; tile = tile; unders = unders }) }
    requires yaku { yaku ≡ rows_of_win score case.now.closed
        (extra_of (before_wins (hand table.now.deeds)) seat
        (record { own = own; tile = tile; unders = unders })) }
    requires base { score.base ≤ 8000 }
    ensures { result ≡ win_shown table.now.deeds seat target
        (record { own = own; tile = tile; unders = unders }) rest }
{
    let dealer = table.standing().dealer;
    let (honba, deposits) = for_first(table);
    let deltas = changes(
        case.by_draw,
        seat,
        target,
        dealer,
        score.base,
        honba,
        deposits,
    );
    Deed::Win {
        seat,
        target,
        tile,
        unders,
        hand: own,
        yaku,
        fu: score.fu,
        han: score.han,
        value: value(case.by_draw, seat, target, dealer, score.base),
        deltas,
        points: points_with(table.points(), deltas),
        rest,
    }
}

// The honba and the deposits that a winner takes: only the first of a hand takes them.
fn for_first(table: &Table) -> (u32, u32)
    ensures honba { result.0 ≡ for_first (hand table.now.deeds) (standing table.now.deeds).honba }
    ensures deposits { result.1 ≡ for_first (hand table.now.deeds) (deposits table.now.deeds) }
{
    if table.has_winner() {
        return (0, 0);
    }
    (table.standing().honba, table.deposits())
}

// The concealed tiles of a winner without the winning one: a drawn tile is among them, and a tile of another seat is
// not.
fn own_tiles(
    alloc: Global,
    table: &Table,
    seat: u8,
    tile: Tile,
    by_draw: bool,
) -> Result<Tiles, AllocError>
    requires { seat ≤ 3 }
    ensures { IfOk result (λ t. let held = concealed_tiles (hand table.now.deeds) seat in
        t ≡ (if by_draw then less held (tile ∷ []) else held)) }
{
    let held = table.concealed(alloc, seat)?;
    if by_draw {
        return held.without(alloc, tile);
    }
    Ok(held)
}

// The hidden indicators under those that are shown, for a winner in riichi; none for another.
fn unders(alloc: Global, wall: &Wall, table: &Table, seat: u8) -> Result<Tiles, AllocError>
    requires seat { seat ≤ 3 }
    requires shown { length (indicators (hand table.now.deeds)) ≤ 5 }
    ensures value { IfOk result (λ t. t
        ≡ unders_of wall.now (before_wins (hand table.now.deeds)) seat) }
    ensures few { IfOk result (λ t. length t ≤ 5) }
{
    if !table.is_in_riichi(seat) {
        return Ok(Tiles::new(alloc));
    }
    let mut unders = Tiles::new(alloc);
    for place in 0..table.shown() {
        unders.push(wall.under(place as u8))?;
    }
    Ok(unders)
}
