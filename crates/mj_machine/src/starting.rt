ghost use Rattle.std.specs.Prelude.{◌≡◌, ◌≤◌, ◌+◌, IfOk, length};
ghost use Rattle.mj_deeds.specs.Four.{for_each_seat};
ghost use Rattle.mj_deeds.specs.Ends.{standing_after};
ghost use Rattle.mj_deeds.specs.Hand.{hand};
ghost use Rattle.mj_deeds.specs.Standings.{standing};
ghost use Rattle.mj_rules.specs.Outcome.{wall_of, hand_start, hand_dealt, next_start};
ghost use Rattle.mj_machine.specs.Inner.Steps.{AreSmall};

use mj_deeds::{Deed, Four, Hands, Tiles};
use mj_rounds::{Standing, next_hand};
use mj_table::Table;
use mj_wall::Wall;
use std::alloc::{AllocError, Global};

// The start of a hand of a standing, with so many deposits on the table.
#[tactic(auto, unfolding(mj_rules::specs::Outcome::hand_start))]
pub(crate) fn hand_start(
    alloc: Global,
    wall: &Wall,
    now: &Standing,
    deposits: u32,
) -> Result<Deed, AllocError>
    requires { now.now.dealer ≤ 3 }
    ensures { IfOk result (λ d. d ≡ hand_start wall.now now.now deposits) }
{
    Ok(Deed::StartHand {
        round: now.round,
        number: now.dealer + 1,
        honba: now.honba,
        deposits,
        dealer: now.dealer,
        indicator: wall.indicator(0),
        hands: hands_dealt(alloc, wall, now.dealer)?,
    })
}

// The next hand from its wall, or the end of the game with the deposits that are left.
pub(crate) fn next_start(alloc: Global, walls: &[Wall], table: &Table) -> Result<Deed, AllocError>
    requires some { 1 ≤ length walls.now }
    requires small { AreSmall table.now.deeds }
    ensures { IfOk result (λ d. d ≡ next_start walls.now table.now.deeds
        (standing_after (standing table.now.deeds) (hand table.now.deeds))) }
{
    match next_hand(&table.standing(), table.hand_end()) {
        Some(next) => hand_start(alloc, wall_of(walls, next.hand), &next, table.deposits()),
        None => Ok(Deed::EndGame {
            points: table.points(),
            deposits: table.deposits(),
        }),
    }
}

// The wall of a hand, counted from 0: the walls are taken in turn.
pub(crate) fn wall_of(walls: &[Wall], hand: u32) -> &Wall
    requires { 1 ≤ length walls.now }
    ensures { result.now ≡ wall_of walls.now hand }
{
    &walls[hand as usize % walls.len()]
}

// The thirteen tiles of each seat, in tile order.
fn hands_dealt(alloc: Global, wall: &Wall, dealer: u8) -> Result<Hands, AllocError>
    requires { dealer ≤ 3 }
    ensures { IfOk result (λ h. h ≡ for_each_seat (hand_dealt wall.now dealer)) }
{
    let (first, second) = two_dealt(alloc, wall, dealer, 0)?;
    let (third, fourth) = two_dealt(alloc, wall, dealer, 2)?;
    Ok(Hands::from_four(Four {
        first,
        second,
        third,
        fourth,
    }))
}

// The thirteen tiles of a seat, 0 to 2, and of the one after it.
#[inline(always)]
fn two_dealt(alloc: Global, wall: &Wall, dealer: u8, seat: u8) -> Result<(Tiles, Tiles), AllocError>
    requires dealer { dealer ≤ 3 }
    requires seat { seat ≤ 2 }
    ensures { IfOk result (λ two. two
        ≡ (hand_dealt wall.now dealer seat, hand_dealt wall.now dealer (seat + 1))) }
{
    let lower = hand_dealt(alloc, wall, dealer, seat)?;
    let upper = hand_dealt(alloc, wall, dealer, seat + 1)?;
    Ok((lower, upper))
}

// The thirteen tiles of a seat, 0 to 3, in tile order: the dealer is the first that is dealt to.
fn hand_dealt(alloc: Global, wall: &Wall, dealer: u8, seat: u8) -> Result<Tiles, AllocError>
    requires dealer { dealer ≤ 3 }
    requires seat { seat ≤ 3 }
    ensures { IfOk result (λ t. t ≡ hand_dealt wall.now dealer seat) }
{
    let first = 13 * usize::from((seat + 4 - dealer) % 4);
    Tiles::sorted(alloc, &wall.tiles()[first..first + 13])
}
