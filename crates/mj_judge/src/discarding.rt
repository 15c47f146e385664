ghost use Rattle.std.specs.Prelude.{◌≡◌, ◌≤◌, ℕ, drop, not, nat_lt, ◌&&◌};
ghost use Rattle.std.specs.List.{list_any};
ghost use Rattle.std.specs.Result.{result_err};
ghost use Rattle.mj_tiles.specs.Faces.{number_in};
ghost use Rattle.mj_deeds.specs.declared.answer.Answer.TheVariants as answers;
ghost use Rattle.mj_deeds.specs.Pais.{face_in};
ghost use Rattle.mj_rules.specs.Broken.{questions, first_broken};
ghost use Rattle.mj_rules.specs.View.{view_of, held_count};

use crate::holding::{is_no_tile, is_wrongly_marked};
use crate::riichi::discards_unready;
use crate::swap::is_banned_tile;
use crate::verdict::refuse_if;
use mj_deeds::{Pai, Rule};
use mj_table::Table;

// Refuses a discard that is open to the seat by the first rule of discards that it breaks: there is no such tile, it is
// not held, it is marked wrongly, the hand is locked, its kind is banned, or it leaves the hand unready after a reach.
#[tactic(auto, unfolding(mj_rules::specs::View::view_of))]
pub(crate) fn judge_discard(table: &Table, seat: u8, tile: &Pai, marked: bool) -> Result<(), Rule>
    requires { seat ≤ 3 }
    ensures { let view = view_of table.now.deeds seat in
        (actor : ℕ) → result_err result ≡ first_broken (drop 3 (questions table.now.rules seat view
        (answers.Discard actor tile.now marked))) }
{
    refuse_if(is_no_tile(table.rules().red, tile), Rule::NoSuchTile)?;
    refuse_if(is_unheld(table, seat, tile), Rule::NotHeld)?;
    refuse_if(is_wrongly_marked(table, seat, tile, marked), Rule::NotDrawn)?;
    refuse_if(table.is_in_riichi(seat) && !marked, Rule::Locked)?;
    refuse_if(is_banned_tile(table, tile), Rule::SwapCall)?;
    refuse_if(discards_unready(table, seat, tile), Rule::ReachUnready)
}

// The tile is not among the concealed ones of the seat.
#[tactic(auto, unfolding(mj_rules::specs::View::view_of))]
fn is_unheld(table: &Table, seat: u8, tile: &Pai) -> bool
    requires { seat ≤ 3 }
    ensures { let faces = face_in tile.now in
        result ≡ list_any (λ face. nat_lt (held_count (view_of table.now.deeds seat) face)
        (number_in faces face)) faces }
{
    match tile {
        Pai::Known(tile) => table.held_count(seat, *tile) == 0,
        Pai::Hidden => false,
    }
}
