ghost use Rattle.std.specs.Prelude.{◌≡◌, ◌≤◌, is_none};
ghost use Rattle.mj_rules.specs.Broken.{broken_by};
ghost use Rattle.mj_rules.specs.View.{view_of};
ghost use Rattle.mj_rules.specs.Default.{default_answer, discard_of, discard_or_pass, lawful_faces, last_face};

use crate::holding::is_drawn;
use crate::verdict::judge;
use mj_deeds::{Answer, Deed, Pai, ordered};
use mj_table::Table;
use mj_tiles::{FACES, Tile};

/// The answer that stands for a seat, 0 to 3, which gives none in the window on the newest deed: at its own draw the
/// drawn tile; right after its own reach, chi or pon the last tile in tile order whose discard breaks no rule; a
/// discard is marked exactly where the tile has the face of the drawn one. Else it is a pass.
#[tactic(auto, unfolding(mj_rules::specs::Default::default_by, mj_rules::specs::View::view_of))]
pub fn default(table: &Table, seat: u8) -> Answer
    requires { seat ≤ 3 }
    ensures { result ≡ default_answer table.now.rules table.now.deeds seat }
{
    match table.newest() {
        Some(Deed::Draw { seat: who, .. }) if *who == seat => {
            discard_or_pass(table, seat, table.drawn(seat))
        }
        Some(Deed::Reach { seat: who }) if *who == seat => last_discard(table, seat),
        Some(Deed::Chi { seat: who, .. }) if *who == seat => last_discard(table, seat),
        Some(Deed::Pon { seat: who, .. }) if *who == seat => last_discard(table, seat),
        _ => Answer::Pass { actor: None },
    }
}

// The discard of the last tile that breaks no rule, right after a reach or a call of the seat.
fn last_discard(table: &Table, seat: u8) -> Answer
    requires { seat ≤ 3 }
    ensures { let view = view_of table.now.deeds seat in
        result ≡ discard_or_pass seat view (last_face (lawful_faces table.now.rules seat view)) }
{
    discard_or_pass(table, seat, last_lawful(table, seat))
}

// The last tile in tile order whose discard breaks no rule.
#[tactic(auto, unfolding(mj_rules::specs::Default::lawful_faces))]
fn last_lawful(table: &Table, seat: u8) -> Option<Tile>
    requires { seat ≤ 3 }
    ensures { result ≡ last_face (lawful_faces table.now.rules seat
        (view_of table.now.deeds seat)) }
{
    let mut last = None;
    for place in 0..FACES {
        let tile = ordered(place);
        if is_lawful_discard(table, seat, tile) {
            last = Some(tile);
        }
    }
    last
}

// The discard of the tile breaks no rule.
fn is_lawful_discard(table: &Table, seat: u8, tile: Tile) -> bool
    requires { seat ≤ 3 }
    ensures { let view = view_of table.now.deeds seat in
        result ≡ is_none (broken_by table.now.rules seat view (discard_of seat view tile)) }
{
    judge(table, seat, &discard(table, seat, tile)).is_ok()
}

/// The discard of a tile by a seat, 0 to 3, marked as drawn exactly where the drawn tile has its face.
#[tactic(auto, unfolding(mj_rules::specs::View::view_of))]
pub fn discard(table: &Table, seat: u8, tile: Tile) -> Answer
    ensures { result ≡ discard_of seat (view_of table.now.deeds seat) tile }
{
    Answer::Discard {
        actor: seat,
        tile: Pai::Known(tile),
        drawn: is_drawn(table, seat, tile),
    }
}

// The discard of a tile, or a pass where there is none.
fn discard_or_pass(table: &Table, seat: u8, tile: Option<Tile>) -> Answer
    ensures { result ≡ discard_or_pass seat (view_of table.now.deeds seat) tile }
{
    match tile {
        Some(tile) => discard(table, seat, tile),
        None => Answer::Pass { actor: None },
    }
}
