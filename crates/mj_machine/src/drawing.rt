ghost use Rattle.std.specs.Prelude.{◌≡◌, IfOk, Some};
ghost use Rattle.mj_deeds.specs.Hand.{hand};
ghost use Rattle.mj_rules.specs.Outcome.{next_draw, next_dora, next_replacement};
ghost use Rattle.mj_machine.specs.Inner.Steps.{AreSmall};

use crate::draws::drawn_hand;
use mj_deeds::{Deed, Reason};
use mj_table::Table;
use mj_wall::Wall;
use std::alloc::{AllocError, Global};

// A seat draws the next live tile; where none is left, the hand is drawn.
#[tactic(auto, unfolding(mj_rules::specs::Outcome::next_draw))]
pub(crate) fn next_draw(
    alloc: Global,
    wall: &Wall,
    table: &Table,
    seat: u8,
) -> Result<Option<Deed>, AllocError>
    requires { AreSmall table.now.deeds }
    ensures { IfOk result (λ d. d ≡ Some (next_draw wall.now table.now.deeds seat)) }
{
    if table.live() == 0 {
        return Ok(Some(drawn_hand(alloc, table, Reason::Fanpai)?));
    }
    Ok(Some(Deed::Draw {
        seat,
        tile: wall.draw(table.live_drawn() as u8),
        replacement: false,
    }))
}

// After a kan the next indicator is shown.
#[tactic(auto, unfolding(mj_rules::specs::Outcome::next_dora))]
pub(crate) fn next_dora(wall: &Wall, table: &Table) -> Deed
    ensures { result ≡ next_dora wall.now (hand table.now.deeds) }
{
    let place = 131_usize.saturating_sub(table.shown().saturating_mul(2));
    Deed::Dora {
        tile: wall.tiles()[place],
    }
}

// The seat of the newest kan draws the next replacement tile.
#[tactic(auto, unfolding(mj_rules::specs::Outcome::next_replacement))]
pub(crate) fn next_replacement(wall: &Wall, table: &Table) -> Deed
    ensures { result ≡ next_replacement wall.now (hand table.now.deeds) }
{
    Deed::Draw {
        seat: table.kan_seat().unwrap_or(0),
        tile: wall.replacement(table.kans().saturating_sub(1)),
        replacement: true,
    }
}
