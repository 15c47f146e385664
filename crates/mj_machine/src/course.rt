ghost use Rattle.std.specs.Prelude.{◌≡◌, ◌≤◌, ◌++◌, ◌∷◌, [], length, IfOk, OnErr, IsTrue, Some};
ghost use Rattle.std.specs.List.{list_all};
ghost use Rattle.mj_wall.specs.Places.{is_wall};
ghost use Rattle.mj_deeds.specs.declared.deed.Deed.{Deed};
ghost use Rattle.mj_deeds.specs.Facts.{newest};
ghost use Rattle.mj_deeds.specs.Hand.{hand};
ghost use Rattle.mj_rules.specs.Outcome.{outcome, follows, goes_on, after_pass, wall_now, own_act, won_tile, seat_of, others_of};
ghost use Rattle.mj_rules.specs.Played.{IsPlayed, AllLawful};
ghost use Rattle.mj_rules.specs.Wins.{win_deed};
ghost use Rattle.mj_window.specs.Decided.{decision_by};
ghost use Rattle.mj_machine.specs.Inner.Steps.{AreSmall, CanWin, CanWinBy, CanWinAfter, CanFollow};

use crate::acts::act;
use crate::discards::{after_acceptance, after_discard};
use crate::drawing::{next_dora, next_draw, next_replacement};
use crate::draws::drawn_hand;
use crate::starting::{hand_start, next_start, wall_of};
use crate::winning::{next_winner, win};
use mj_deeds::{Answer, Bid, Deed, Four, Reason, SeatList};
use mj_rounds::first;
use mj_table::Table;
use mj_tiles::Tile;
use mj_wall::Wall;
use mj_window::{Decision, Seats, decide};
use std::alloc::{AllocError, Global};

/// Pushes on the table the one deed that follows the closed window on its newest deed, by the four answers, and gives
/// it back: after the start of the game the first hand, then the dealer's draw; after a draw, a reach, a chi or a pon
/// what its seat answered; after a discard or an added kan the win of the first other seat in turn order that says
/// so; after the discard of a reach its acceptance, which keeps a call that was bid; after a discard the drawn hand
/// where a reason holds, a pon or a kan of it, else a chi, and else the draw of the next seat, or the drawn hand where
/// no live tile is left; after a kan the next indicator, and then its seat draws a replacement tile; after a win the
/// next winner, and after the last one and after a drawn hand the end of the hand; then the next hand, or the end of
/// the game. On running out of memory nothing has changed. There are 1 to 200 walls, with red fives exactly where the rules
/// of the table say so, and the hands take them in turn; the table has a deed, its deeds are played for these walls,
/// the last one isn't the end of the game, and each of the answers is lawful; the deeds that the table then has are
/// played too.
pub fn next(
    alloc: Global,
    table: &mut Table,
    walls: &[Wall],
    answers: &Four<Answer>,
) -> Result<Deed, AllocError>
    requires some { 1 ≤ length walls.now }
    requires few { length walls.now ≤ 200 }
    requires whole { IsTrue (list_all (is_wall table.old.rules.red) walls.now) }
    requires played { IsPlayed table.old.rules walls.now table.old.deeds }
    requires on { IsTrue (goes_on (newest table.old.deeds)) }
    requires lawful { AllLawful table.old.rules table.old.deeds answers.now }
    ensures follows { IfOk result (λ d. Some d
        ≡ outcome table.old.rules walls.now table.old.deeds answers.now) }
    ensures pushed { IfOk result (λ d. table.new
        ≡ record { rules = table.old.rules; deeds = table.old.deeds ++ d ∷ [] }) }
    ensures played { IfOk result (λ d. IsPlayed table.old.rules walls.now table.new.deeds) }
    ensures err { OnErr result (table.new ≡ table.old) }
{
    match follower(alloc, table, walls, answers)? {
        Some(deed) => {
            table.push(&deed)?;
            Ok(deed)
        }
        None => unreachable!(),
    }
}

// The deed that follows the newest one.
#[tactic(auto, unfolding(mj_rules::specs::Outcome::outcome))]
fn follower(
    alloc: Global,
    table: &Table,
    walls: &[Wall],
    answers: &Four<Answer>,
) -> Result<Option<Deed>, AllocError>
    requires some { 1 ≤ length walls.now }
    requires small { AreSmall table.now.deeds }
    requires can { (last : Deed) → newest table.now.deeds ≡ Some last → CanFollow table.now.deeds
        last (decision_by last answers.now) }
    ensures { IfOk result (λ d. d ≡ outcome table.now.rules walls.now table.now.deeds answers.now) }
{
    let Some(last) = table.newest() else {
        return Ok(None);
    };
    let wall = wall_now(table, walls);
    match decide(last, answers) {
        Decision::Rons(seats) => ron(alloc, wall, table, last, &seats),
        Decision::Call(bid) => after_discard(alloc, wall, table, seat_of(last), bid),
        Decision::Act(seat, answer) => own_act(alloc, wall, table, last, seat, &answer),
        Decision::Pass => after_pass(alloc, table, walls, wall, last),
    }
}

// The first of the seats that win on the tile of a deed.
fn ron(
    alloc: Global,
    wall: &Wall,
    table: &Table,
    last: &Deed,
    seats: &Seats,
) -> Result<Option<Deed>, AllocError>
    requires small { AreSmall table.now.deeds }
    requires can { CanWin table.now.deeds seats.now.first (seat_of last.now)
        (won_tile last.now) }
    ensures { IfOk result (λ d. d ≡ Some
        (win_deed wall.now table.now.deeds seats.now.first (seat_of last.now) (won_tile last.now)
        (others_of seats.now))) }
{
    let rest = others_of(seats);
    let deed = win(
        alloc,
        wall,
        table,
        seats.first,
        seat_of(last),
        won_tile(last),
        rest,
    )?;
    Ok(Some(deed))
}

// The winners after the first.
fn others_of(seats: &Seats) -> SeatList
    ensures { result ≡ others_of seats.now }
{
    match (seats.second, seats.third) {
        (Some(second), Some(third)) => SeatList::of(&[second, third]),
        (Some(second), None) => SeatList::of(&[second]),
        (None, Some(third)) => SeatList::of(&[third]),
        (None, None) => SeatList::of(&[]),
    }
}

// What the seat whose turn it is does by its answer: it wins by its own draw, ends the hand by nine kinds, or acts
// otherwise.
fn own_act(
    alloc: Global,
    wall: &Wall,
    table: &Table,
    last: &Deed,
    seat: u8,
    answer: &Answer,
) -> Result<Option<Deed>, AllocError>
    requires small { AreSmall table.now.deeds }
    requires can { CanWinBy table.now.deeds last.now seat answer.now }
    ensures { IfOk result (λ d. d ≡ own_act wall.now table.now.deeds last.now seat answer.now) }
{
    match answer {
        Answer::Win { .. } => Ok(Some(own_win(alloc, wall, table, seat, won_tile(last))?)),
        Answer::NineKinds { .. } => Ok(Some(drawn_hand(alloc, table, Reason::Kyushukyuhai)?)),
        _ => Ok(act(seat, answer)),
    }
}

// The win of a seat by its own draw.
fn own_win(
    alloc: Global,
    wall: &Wall,
    table: &Table,
    seat: u8,
    tile: Tile,
) -> Result<Deed, AllocError>
    requires small { AreSmall table.now.deeds }
    requires can { CanWin table.now.deeds seat seat tile }
    ensures { IfOk result (λ d. d ≡ win_deed wall.now table.now.deeds seat seat tile []) }
{
    win(alloc, wall, table, seat, seat, tile, SeatList::of(&[]))
}

// What follows a deed where the answers to its window decide nothing.
fn after_pass(
    alloc: Global,
    table: &Table,
    walls: &[Wall],
    wall: &Wall,
    last: &Deed,
) -> Result<Option<Deed>, AllocError>
    requires some { 1 ≤ length walls.now }
    requires small { AreSmall table.now.deeds }
    requires last { newest table.now.deeds ≡ Some last.now }
    requires can { CanWinAfter table.now.deeds last.now }
    ensures { IfOk result (λ d. d ≡ after_pass table.now.rules walls.now wall.now table.now.deeds
        last.now) }
{
    match last {
        Deed::StartGame { .. } => Ok(Some(hand_start(alloc, &walls[0], &first(), 0)?)),
        Deed::StartHand { dealer, .. } => next_draw(alloc, wall, table, *dealer),
        Deed::Discard { seat, .. } => after_discard(alloc, wall, table, *seat, Bid::NoBid),
        Deed::OpenKan { .. } => Ok(Some(next_dora(wall, table))),
        Deed::ClosedKan { .. } => Ok(Some(next_dora(wall, table))),
        Deed::AddedKan { .. } => Ok(Some(next_dora(wall, table))),
        Deed::Dora { .. } => Ok(Some(next_replacement(wall, table))),
        Deed::ReachAccepted { seat, then, .. } => {
            after_acceptance(alloc, wall, table, *seat, *then)
        }
        Deed::Win {
            target,
            tile,
            rest,
            ..
        } => next_winner(alloc, wall, table, *target, *tile, rest.as_slice()),
        Deed::DrawnHand { .. } => Ok(Some(Deed::EndHand)),
        Deed::EndHand => Ok(Some(next_start(alloc, walls, table)?)),
        _ => Ok(None),
    }
}

// The tile of a deed that is won on.
fn won_tile(last: &Deed) -> Tile
    ensures { result ≡ won_tile last.now }
{
    match last {
        Deed::Draw { tile, .. } => *tile,
        Deed::Discard { tile, .. } => *tile,
        Deed::AddedKan { tile, .. } => *tile,
        _ => Tile::at(0),
    }
}

// The seat whose turn a deed is.
fn seat_of(last: &Deed) -> u8
    ensures { result ≡ seat_of last.now }
{
    match last {
        Deed::Draw { seat, .. } => *seat,
        Deed::Discard { seat, .. } => *seat,
        Deed::AddedKan { seat, .. } => *seat,
        _ => 0,
    }
}

// The wall of the newest hand.
#[tactic(auto, using(mj_deeds::proofs::HandSteps::standing_hand))]
fn wall_now<'a>(table: &Table, walls: &'a [Wall]) -> &'a Wall
    requires { 1 ≤ length walls.now }
    ensures { result.now ≡ wall_now walls.now table.now.deeds }
{
    wall_of(walls, table.standing().hand)
}
