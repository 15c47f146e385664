ghost use Rattle.std.specs.Prelude.{◌≡◌, ◌≤◌};
ghost use Rattle.std.specs.List.{list_any};
ghost use Rattle.mj_deeds.specs.Facts.{seat_melds};
ghost use Rattle.mj_deeds.specs.Hand.{hand};
ghost use Rattle.mj_rules.specs.Broken.{is_alike, is_known_run, is_own_pon, is_bad_set};
ghost use Rattle.mj_rules.specs.View.{view_of};

use mj_calls::{chi_shape, same_kind};
use mj_deeds::{Answer, Pai};
use mj_table::Table;

// The tiles make no such meld; a tile is added to no own pon.
#[tactic(auto, unfolding(mj_rules::specs::View::view_of))]
pub(crate) fn is_bad_set(table: &Table, seat: u8, answer: &Answer) -> bool
    requires { seat ≤ 3 }
    ensures { result ≡ is_bad_set (view_of table.now.deeds seat) answer.now }
{
    match answer {
        Answer::Chi { tile, a, b, .. } => !is_known_run(tile, a, b),
        Answer::Pon { tile, a, b, .. } => !(is_alike(tile, a) && is_alike(tile, b)),
        Answer::OpenKan { tile, a, b, c, .. } => {
            !(is_alike(tile, a) && is_alike(tile, b) && is_alike(tile, c))
        }
        Answer::ClosedKan { a, b, c, d, .. } => {
            !(is_alike(a, b) && is_alike(a, c) && is_alike(a, d))
        }
        Answer::AddedKan { tile, a, b, c, .. } => !has_own_pon(table, seat, tile, a, b, c),
        _ => false,
    }
}

// Three tiles are known and make a run.
fn is_known_run(tile: &Pai, a: &Pai, b: &Pai) -> bool
    ensures { result ≡ is_known_run tile.now a.now b.now }
{
    match (tile, a, b) {
        (Pai::Known(tile), Pai::Known(a), Pai::Known(b)) => chi_shape(*tile, *a, *b),
        _ => false,
    }
}

// Two tiles are known and of one kind.
fn is_alike(a: &Pai, b: &Pai) -> bool
    ensures { result ≡ is_alike a.now b.now }
{
    match (a, b) {
        (Pai::Known(a), Pai::Known(b)) => same_kind(*a, *b),
        _ => false,
    }
}

// The seat has a pon of just these tiles, and the tile is of its kind.
#[tactic(auto, using(mj_rules::proofs::Answered::shown_pon, crate::proofs::Pons::hidden_added, crate::proofs::Pons::hidden_first, crate::proofs::Pons::hidden_second, crate::proofs::Pons::hidden_third))]
fn has_own_pon(table: &Table, seat: u8, tile: &Pai, a: &Pai, b: &Pai, c: &Pai) -> bool
    requires { seat ≤ 3 }
    ensures { result ≡ list_any (is_own_pon tile.now a.now b.now c.now)
        (seat_melds (hand table.now.deeds) seat) }
{
    match (tile, a, b, c) {
        (Pai::Known(tile), Pai::Known(a), Pai::Known(b), Pai::Known(c)) => {
            table.has_triplet(seat, *tile, *a, *b, *c)
        }
        _ => false,
    }
}
