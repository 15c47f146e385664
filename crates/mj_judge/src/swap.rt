ghost use Rattle.std.specs.Prelude.{◌≡◌, ◌≤◌, length, flat_map, option_map};
ghost use Rattle.std.specs.List.{list_all};
ghost use Rattle.mj_tiles.specs.Faces.{tile_order};
ghost use Rattle.mj_tiles.specs.Kinds.{set_of};
ghost use Rattle.mj_deeds.specs.Facts.{newest, tiles_gained, tiles_lost};
ghost use Rattle.mj_deeds.specs.Pais.{face_in};
ghost use Rattle.mj_deeds.specs.declared.answer.Pai.TheVariants.{Known};
ghost use Rattle.mj_rules.specs.Broken.{banned_in, is_banned_tile, is_swap_call, bans_of_chi, bans_of_pon, is_stuck_call};
ghost use Rattle.mj_rules.specs.View.{view_of, turn_by, turn_in};
ghost use Rattle.mj_deeds.specs.Hand.{hand};
ghost use Rattle.mj_judge.specs.Inner.Free.{is_used_up};

use crate::holding::number_among;
use mj_calls::banned;
use mj_deeds::{Answer, Deed, Pai, ordered};
use mj_table::Table;
use mj_tiles::{FACES, Kinds, Tile};

// The discard is of a kind that is banned right after the call that is the newest deed.
#[tactic(auto, unfolding(mj_rules::specs::View::view_of))]
pub(crate) fn is_swap_call(table: &Table, seat: u8, answer: &Answer) -> bool
    ensures { result ≡ is_swap_call (view_of table.now.deeds seat).turn answer.now }
{
    match answer {
        Answer::Discard { tile, .. } => is_banned_tile(table, tile),
        _ => false,
    }
}

// The tile is of a kind that is banned right after the newest deed.
#[tactic(auto, using(crate::proofs::Swaps::swap_of))]
pub(crate) fn is_banned_tile(table: &Table, tile: &Pai) -> bool
    ensures { result ≡ is_banned_tile (banned_in (turn_in (option_map turn_by (newest table.now.deeds)))) tile.now }
{
    match tile {
        Pai::Known(tile) => newest_bans(table).has(tile.kind()),
        Pai::Hidden => false,
    }
}

// The kinds that are banned right after the newest deed.
#[tactic(auto, using(crate::proofs::Swaps::bans_of_turn))]
fn newest_bans(table: &Table) -> Kinds
    ensures { result ≡ set_of (banned_in (turn_in (option_map turn_by (newest table.now.deeds)))) }
{
    match table.newest() {
        Some(deed) => banned(deed),
        None => Kinds::none(),
    }
}

// Every discard after the call would be of a banned kind.
#[tactic(auto, unfolding(mj_rules::specs::View::view_of))]
pub(crate) fn is_stuck_call(table: &Table, seat: u8, answer: &Answer) -> bool
    requires { seat ≤ 3 }
    ensures { result ≡ is_stuck_call (view_of table.now.deeds seat) answer.now }
{
    match answer {
        Answer::Chi { tile, a, b, .. } => {
            has_nothing_else(table, seat, &[*a, *b], banned_by_chi(tile, a, b))
        }
        Answer::Pon { tile, a, b, .. } => {
            has_nothing_else(table, seat, &[*a, *b], banned_by_pon(tile))
        }
        _ => false,
    }
}

// What a chi of these tiles bans.
fn banned_by_chi(tile: &Pai, a: &Pai, b: &Pai) -> Kinds
    ensures { result ≡ set_of (bans_of_chi tile.now a.now b.now) }
{
    match (tile, a, b) {
        (Pai::Known(tile), Pai::Known(a), Pai::Known(b)) => banned_by_run(*tile, *a, *b),
        _ => Kinds::none(),
    }
}

// What a chi of these known tiles bans.
#[inline(always)]
fn banned_by_run(tile: Tile, a: Tile, b: Tile) -> Kinds
    ensures { result ≡ set_of (bans_of_chi (Known tile) (Known a) (Known b)) }
{
    banned(&Deed::Chi {
        seat: 0,
        target: 0,
        tile,
        a,
        b,
    })
}

// What a pon of the tile bans.
fn banned_by_pon(tile: &Pai) -> Kinds
    ensures { result ≡ set_of (bans_of_pon tile.now) }
{
    match tile {
        Pai::Known(tile) => Kinds::none().with(tile.kind()),
        Pai::Hidden => Kinds::none(),
    }
}

// Every tile that is held besides these is of a banned kind.
fn has_nothing_else(table: &Table, seat: u8, used: &[Pai], bans: Kinds) -> bool
    requires seat { seat ≤ 3 }
    requires few { length used.now ≤ 2 }
    ensures { result ≡ list_all (is_used_up (tiles_gained (hand table.now.deeds) seat)
        (tiles_lost (hand table.now.deeds) seat) (flat_map face_in used.now) bans) tile_order }
{
    for place in 0..FACES {
        let tile = ordered(place);
        if !is_used_up(table, seat, used, bans, tile) {
            return false;
        }
    }
    true
}

// The seat holds no more tiles of the face than are used, or they are of a banned kind.
fn is_used_up(table: &Table, seat: u8, used: &[Pai], bans: Kinds, tile: Tile) -> bool
    requires seat { seat ≤ 3 }
    requires few { length used.now ≤ 2 }
    ensures { result ≡ is_used_up (tiles_gained (hand table.now.deeds) seat)
        (tiles_lost (hand table.now.deeds) seat) (flat_map face_in used.now) bans tile }
{
    let held = table.held_count(seat, tile);
    if held == 0 {
        return true;
    }
    held <= number_among(used, tile) || bans.has(tile.kind())
}
