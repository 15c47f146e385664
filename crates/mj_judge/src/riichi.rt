ghost use Rattle.std.specs.Prelude.{◌≡◌, ◌≤◌, not, option_map};
ghost use Rattle.std.specs.List.{list_any};
ghost use Rattle.mj_deeds.specs.Facts.{newest};
ghost use Rattle.mj_rules.specs.Broken.{is_locked_answer, is_locked, is_changing_kan, is_riichi_kan_broken, is_reach, is_reach_open};
ghost use Rattle.mj_rules.specs.Broken.{is_reach_poor, is_reach_late, is_ready_without, discards_unready, is_reach_unready};
ghost use Rattle.mj_rules.specs.View.{view_of, turn_by, turn_in, concealed};

use crate::counting::counts_without;
use crate::questions::is_call_answer;
use crate::ready::leaves_some_ready;
use mj_calls::riichi_kan;
use mj_deeds::{Answer, Deed, Pai};
use mj_table::Table;
use mj_tiles::Tile;
use mj_waits::ready;
use mj_yaku::is_closed;

// A seat in riichi discards another than the drawn tile, or calls a discard.
#[tactic(auto, unfolding(mj_rules::specs::View::view_of))]
pub(crate) fn is_locked(table: &Table, seat: u8, answer: &Answer) -> bool
    requires { seat ≤ 3 }
    ensures { result ≡ is_locked (view_of table.now.deeds seat) answer.now }
{
    is_locked_answer(answer) && table.is_in_riichi(seat)
}

// A seat in riichi makes a concealed kan that would change its hand.
#[tactic(auto, unfolding(mj_rules::specs::View::view_of))]
pub(crate) fn is_riichi_kan_broken(table: &Table, seat: u8, answer: &Answer) -> bool
    requires { seat ≤ 3 }
    ensures { result ≡ is_riichi_kan_broken (view_of table.now.deeds seat) answer.now }
{
    match answer {
        Answer::ClosedKan { a, .. } => {
            table.is_in_riichi(seat) && is_changing_kan(table, seat, a)
        }
        _ => false,
    }
}

// A reach with a meld other than a concealed kan.
#[tactic(auto, unfolding(mj_rules::specs::View::view_of))]
pub(crate) fn is_reach_open(table: &Table, seat: u8, answer: &Answer) -> bool
    requires { seat ≤ 3 }
    ensures { result ≡ is_reach_open (view_of table.now.deeds seat) answer.now }
{
    is_reach(answer) && !is_closed(table.melds(seat).as_slice())
}

// A reach with fewer than 1,000 points.
#[tactic(auto, unfolding(mj_rules::specs::View::view_of))]
pub(crate) fn is_reach_poor(table: &Table, seat: u8, answer: &Answer) -> bool
    requires { seat ≤ 3 }
    ensures { result ≡ is_reach_poor (view_of table.now.deeds seat) answer.now }
{
    is_reach(answer) && table.points()[usize::from(seat)] < 1000
}

// A reach with fewer than four live tiles left.
#[tactic(auto, unfolding(mj_rules::specs::View::view_of))]
pub(crate) fn is_reach_late(table: &Table, seat: u8, answer: &Answer) -> bool
    ensures { result ≡ is_reach_late (view_of table.now.deeds seat) answer.now }
{
    is_reach(answer) && table.live() < 4
}

// No discard leaves the hand ready; and of the discard of a reach, that one does not.
#[tactic(auto, unfolding(mj_rules::specs::View::view_of))]
pub(crate) fn is_reach_unready(table: &Table, seat: u8, answer: &Answer) -> bool
    requires { seat ≤ 3 }
    ensures { result ≡ is_reach_unready (view_of table.now.deeds seat) answer.now }
{
    match answer {
        Answer::Reach { .. } => !has_ready_discard(table, seat),
        Answer::Discard { tile, .. } => discards_unready(table, seat, tile),
        _ => false,
    }
}

fn is_locked_answer(answer: &Answer) -> bool
    ensures { result ≡ is_locked_answer answer.now }
{
    match answer {
        Answer::Discard { drawn, .. } => !*drawn,
        _ => is_call_answer(answer),
    }
}

// The kan of the tile would change the hand.
#[tactic(auto, unfolding(mj_rules::specs::View::view_of))]
fn is_changing_kan(table: &Table, seat: u8, tile: &Pai) -> bool
    requires { seat ≤ 3 }
    ensures { result ≡ is_changing_kan (view_of table.now.deeds seat) tile.now }
{
    let Pai::Known(tile) = tile else {
        return false;
    };
    let Some(drawn) = table.drawn(seat) else {
        return true;
    };
    let before = counts_without(table, seat, drawn);
    let melds = table.melds(seat);
    !riichi_kan(
        &before,
        &table.room(seat),
        melds.as_slice(),
        drawn.kind(),
        tile.kind(),
    )
}

fn is_reach(answer: &Answer) -> bool
    ensures { result ≡ is_reach answer.now }
{
    matches!(answer, Answer::Reach { .. })
}

// Some discard leaves the hand ready.
#[tactic(auto, unfolding(mj_rules::specs::View::view_of))]
fn has_ready_discard(table: &Table, seat: u8) -> bool
    requires { seat ≤ 3 }
    ensures { let view = view_of table.now.deeds seat in
        result ≡ list_any (is_ready_without view) (concealed view) }
{
    let counts = table.holds(seat);
    let room = table.room(seat);
    let melds = table.melds(seat);
    leaves_some_ready(&counts, &room, melds.as_slice())
}

// The tile is discarded by a reach, and leaves the hand unready.
#[tactic(auto, unfolding(mj_rules::specs::View::view_of))]
pub(crate) fn discards_unready(table: &Table, seat: u8, tile: &Pai) -> bool
    requires { seat ≤ 3 }
    ensures { result ≡ discards_unready (view_of table.now.deeds seat)
        (turn_in (option_map turn_by (newest table.now.deeds))) tile.now }
{
    let Some(Deed::Reach { .. }) = table.newest() else {
        return false;
    };
    match tile {
        Pai::Known(tile) => !is_ready_without(table, seat, *tile),
        Pai::Hidden => false,
    }
}

// The hand is ready once the tile is discarded.
#[tactic(auto, unfolding(mj_rules::specs::Broken::is_ready_without, mj_rules::specs::View::view_of))]
fn is_ready_without(table: &Table, seat: u8, tile: Tile) -> bool
    requires { seat ≤ 3 }
    ensures { result ≡ is_ready_without (view_of table.now.deeds seat) tile }
{
    let left = counts_without(table, seat, tile);
    let melds = table.melds(seat).as_slice().len() as u8;
    ready(&left, &table.room(seat), melds)
}
