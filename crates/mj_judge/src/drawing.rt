ghost use Rattle.std.specs.Prelude.{◌≡◌, ◌≤◌, ◌++◌, ◌∷◌, [], OnOk, true, not, ◌&&◌, ◌==◌, option_map};
ghost use Rattle.mj_deeds.specs.declared.answer.Answer.TheVariants as answers;
ghost use Rattle.mj_deeds.specs.declared.answer.Pai.TheVariants.{Known};
ghost use Rattle.mj_deeds.specs.Facts.{newest, drawn_tile};
ghost use Rattle.mj_deeds.specs.Hand.{hand};
ghost use Rattle.mj_deeds.specs.Riichi.{is_in_riichi};
ghost use Rattle.mj_rules.specs.Broken.{is_that};
ghost use Rattle.mj_rules.specs.View.{turn_by, turn_in};
ghost use Rattle.mj_rules.specs.Possible.{discards_of, all_discards};
ghost use Rattle.mj_judge.specs.Inner.Tried.{lawful_among, is_own_draw};

use crate::holding::is_no_tile;
use mj_deeds::{Answer, Pai, ordered};
use mj_table::Table;
use mj_tiles::{FACES, Tile};
use std::alloc::AllocError;

// Adds the lawful discards at the own draw, where no call bans a kind and no reach is under way.
pub(crate) fn push_drawn_discards(
    table: &Table,
    seat: u8,
    items: &mut Vec<Answer>,
) -> Result<(), AllocError>
    requires seat { seat ≤ 3 }
    requires draws { is_own_draw seat (turn_in (option_map turn_by (newest table.now.deeds))) ≡ true }
    ensures { OnOk result (items.new.items ≡ items.old.items
        ++ lawful_among table.now.rules table.now.deeds seat (all_discards seat)) }
{
    let drawn = table.drawn(seat);
    let locked = table.is_in_riichi(seat);
    for place in 0..FACES {
        push_drawn_discards_of(table, seat, ordered(place), &drawn, locked, items)?;
    }
    Ok(())
}

// The discards of one face: unmarked where the hand isn't locked, unless it is the drawn tile and the only one of its face, and
// marked where it is the drawn one.
fn push_drawn_discards_of(
    table: &Table,
    seat: u8,
    tile: Tile,
    drawn: &Option<Tile>,
    locked: bool,
    items: &mut Vec<Answer>,
) -> Result<(), AllocError>
    requires seat { seat ≤ 3 }
    requires draws { is_own_draw seat (turn_in (option_map turn_by (newest table.now.deeds))) ≡ true }
    requires drawn { drawn.now ≡ drawn_tile table.now.deeds seat }
    requires locked { locked ≡ is_in_riichi (hand table.now.deeds) seat }
    ensures { OnOk result (items.new.items ≡ items.old.items
        ++ lawful_among table.now.rules table.now.deeds seat (discards_of seat tile)) }
{
    let held = table.held_count(seat, tile);
    if held == 0 {
        return Ok(());
    }
    if is_no_tile(table.rules().red, &Pai::Known(tile)) {
        return Ok(());
    }
    let is_drawn = is_that(drawn, tile);
    if may_be_unmarked(held, is_drawn, locked) {
        items.push(discard(seat, tile, false))?;
    }
    if is_drawn {
        items.push(discard(seat, tile, true))?;
    }
    Ok(())
}

// There is such a tile, and it has that face.
fn is_that(tile: &Option<Tile>, other: Tile) -> bool
    ensures { result ≡ is_that tile.now other }
{
    match tile {
        Some(tile) => tile.face() == other.face(),
        None => false,
    }
}

// The discard of a tile of which so many of its face are held is lawful unmarked: it isn't the drawn tile alone, and the hand
// isn't in riichi.
fn may_be_unmarked(held: usize, is_drawn: bool, locked: bool) -> bool
    ensures { result ≡ (not (is_drawn && held == 1) && not locked) }
{
    !(is_drawn && held == 1) && !locked
}

fn discard(seat: u8, tile: Tile, drawn: bool) -> Answer
    ensures { result ≡ answers.Discard seat (Known tile) drawn }
{
    Answer::Discard {
        actor: seat,
        tile: Pai::Known(tile),
        drawn,
    }
}
