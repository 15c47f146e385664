ghost use Rattle.std.specs.Prelude.{◌≡◌, ◌≤◌, ◌<◌, ◌+◌, ◌++◌, ◌∷◌, [], ℕ, false, OnOk, min, option_map, slice_index};
ghost use Rattle.mj_tiles.specs.Faces.{kind_of, tile_order};
ghost use Rattle.mj_deeds.specs.declared.answer.Answer.TheVariants as answers;
ghost use Rattle.mj_deeds.specs.declared.answer.Pai.TheVariants.{Known};
ghost use Rattle.mj_deeds.specs.Facts.{newest};
ghost use Rattle.mj_rules.specs.View.{view_of, held_count, turn_by, turn_in};
ghost use Rattle.mj_rules.specs.Possible.{faces_of, chis_with, all_chis, pons_of, open_kans_of, all_calls};
ghost use Rattle.mj_judge.specs.Inner.Tried.{lawful_among, may_call, is_near, red_of, red_held};

use crate::listing::push_lawful;
use crate::questions::is_before;
use mj_calls::chi_shape;
use mj_deeds::{Answer, Deed, Pai, ordered};
use mj_table::Table;
use mj_tiles::{FACES, Kind, RED, Tile};
use std::alloc::AllocError;

// Adds the lawful calls of the discard that the turn is about.
#[tactic(auto, using(crate::proofs::Tried::nothing_added))]
pub(crate) fn push_calls(table: &Table, seat: u8, items: &mut Vec<Answer>) -> Result<(), AllocError>
    requires { seat ≤ 3 }
    ensures { OnOk result (items.new.items ≡ items.old.items
        ++ lawful_among table.now.rules table.now.deeds seat
        (all_calls seat (turn_in (option_map turn_by (newest table.now.deeds))))) }
{
    match table.newest() {
        Some(
            Deed::Discard {
                seat: who,
                tile,
                ..
            },
        ) => {
            push_calls_of(table, seat, *who, *tile, items)?;
            Ok(())
        }
        _ => Ok(()),
    }
}

// Adds the lawful calls of a tile that a seat discarded.
fn push_calls_of(
    table: &Table,
    seat: u8,
    who: u8,
    tile: Tile,
    items: &mut Vec<Answer>,
) -> Result<(), AllocError>
    requires { seat ≤ 3 }
    ensures { OnOk result (items.new.items ≡ items.old.items
        ++ lawful_among table.now.rules table.now.deeds seat (all_chis seat who tile
        ++ (pons_of seat who tile (faces_of (kind_of tile))
        ++ open_kans_of seat who tile (faces_of (kind_of tile))))) }
{
    if !may_call(table, seat) {
        return Ok(());
    }
    push_chis(table, seat, who, tile, items)?;
    push_same(table, seat, who, tile, items)?;
    Ok(())
}

// A seat may call a discard where a live tile is left and its hand isn't in riichi.
#[tactic(auto, unfolding(mj_rules::specs::View::view_of))]
fn may_call(table: &Table, seat: u8) -> bool
    requires { seat ≤ 3 }
    ensures { result ≡ may_call (view_of table.now.deeds seat) }
{
    table.live() != 0 && !table.is_in_riichi(seat)
}

// Adds the lawful pons and kans of the discard: none where fewer than two tiles of its kind are held.
fn push_same(
    table: &Table,
    seat: u8,
    who: u8,
    tile: Tile,
    items: &mut Vec<Answer>,
) -> Result<(), AllocError>
    requires { seat ≤ 3 }
    ensures { OnOk result (items.new.items ≡ items.old.items
        ++ lawful_among table.now.rules table.now.deeds seat
        (pons_of seat who tile (faces_of (kind_of tile))
        ++ open_kans_of seat who tile (faces_of (kind_of tile)))) }
{
    if held_of(table, seat, tile.kind()) < 2 {
        return Ok(());
    }
    push_pons(table, seat, who, tile, items)?;
    push_open_kans(table, seat, who, tile, items)?;
    Ok(())
}

// How many tiles of a kind are held, of each face four at most.
#[tactic(auto, unfolding(mj_rules::specs::View::view_of))]
pub(crate) fn held_of(table: &Table, seat: u8, kind: Kind) -> usize
    requires { seat ≤ 3 }
    ensures { result ≡ min (held_count (view_of table.now.deeds seat) kind) 4
        + min (red_held (view_of table.now.deeds seat) (red_of kind)) 4 }
{
    table.held_count(seat, plain_of(kind)) + reds_of(table, seat, kind)
}

// How many red fives of a kind are held, four at most.
#[tactic(auto, unfolding(mj_rules::specs::View::view_of))]
fn reds_of(table: &Table, seat: u8, kind: Kind) -> usize
    requires { seat ≤ 3 }
    ensures { result ≡ min (red_held (view_of table.now.deeds seat) (red_of kind)) 4 }
{
    match red_of(kind) {
        Some(red) => table.held_count(seat, red),
        None => 0,
    }
}

// Adds the lawful chis, with each tile that is held as the one and the other: only of the seat before this one.
fn push_chis(
    table: &Table,
    seat: u8,
    who: u8,
    tile: Tile,
    items: &mut Vec<Answer>,
) -> Result<(), AllocError>
    requires { seat ≤ 3 }
    ensures { OnOk result (items.new.items ≡ items.old.items
        ++ lawful_among table.now.rules table.now.deeds seat (all_chis seat who tile)) }
{
    if !is_before(table, seat) {
        return Ok(());
    }
    for place in first_near(tile)..after_near(tile) {
        push_chis_with(table, seat, who, tile, ordered(place), items)?;
    }
    Ok(())
}

// The chis with one of the two tiles.
fn push_chis_with(
    table: &Table,
    seat: u8,
    who: u8,
    tile: Tile,
    a: Tile,
    items: &mut Vec<Answer>,
) -> Result<(), AllocError>
    requires { seat ≤ 3 }
    ensures { OnOk result (items.new.items ≡ items.old.items
        ++ lawful_among table.now.rules table.now.deeds seat (chis_with seat who tile a)) }
{
    if !is_near(tile, a) {
        return Ok(());
    }
    if table.held_count(seat, a) == 0 {
        return Ok(());
    }
    for place in first_near(tile)..after_near(tile) {
        push_chi(table, seat, who, tile, a, ordered(place), items)?;
    }
    Ok(())
}

// The chi with both of them.
fn push_chi(
    table: &Table,
    seat: u8,
    who: u8,
    tile: Tile,
    a: Tile,
    b: Tile,
    items: &mut Vec<Answer>,
) -> Result<(), AllocError>
    requires { seat ≤ 3 }
    ensures { OnOk result (items.new.items ≡ items.old.items
        ++ lawful_among table.now.rules table.now.deeds seat
        (answers.Chi seat who (Known tile) (Known a) (Known b) ∷ [])) }
{
    if table.held_count(seat, b) == 0 {
        return Ok(());
    }
    if !chi_shape(tile, a, b) {
        return Ok(());
    }
    let chi = Answer::Chi {
        actor: seat,
        target: who,
        tile: Pai::Known(tile),
        a: Pai::Known(a),
        b: Pai::Known(b),
    };
    push_lawful(table, seat, &[chi], items)?;
    Ok(())
}

// The kinds of two tiles are at most two apart, as those of a run are.
fn is_near(tile: Tile, a: Tile) -> bool
    ensures { result ≡ is_near tile a }
{
    let (low, high) = (tile.kind().number(), a.kind().number());
    high <= low + 2 && low <= high + 2
}

// The first place in tile order at which a tile may be near this one.
fn first_near(tile: Tile) -> usize
    ensures within { result ≤ kind_of tile }
    ensures far { (place : ℕ) → place < result → is_near tile (slice_index tile_order place) ≡ false }
{
    usize::from(tile.kind().number()).saturating_sub(2)
}

// The place in tile order from which on no tile is near this one.
fn after_near(tile: Tile) -> usize
    ensures within { result ≤ 37 }
    ensures beyond { kind_of tile < result }
    ensures far { (place : ℕ) → result ≤ place → place < 37
        → is_near tile (slice_index tile_order place) ≡ false }
{
    (usize::from(tile.kind().number()) + 6).min(FACES)
}

// Adds the lawful pons: with plain tiles of the kind, and where it has a red five with that.
fn push_pons(
    table: &Table,
    seat: u8,
    who: u8,
    tile: Tile,
    items: &mut Vec<Answer>,
) -> Result<(), AllocError>
    requires { seat ≤ 3 }
    ensures { OnOk result (items.new.items ≡ items.old.items
        ++ lawful_among table.now.rules table.now.deeds seat
        (pons_of seat who tile (faces_of (kind_of tile)))) }
{
    let plain = plain_of(tile.kind());
    match red_of(tile.kind()) {
        None => {
            push_lawful(table, seat, &[pon(seat, who, tile, plain, plain)], items)?;
            Ok(())
        }
        Some(red) => {
            let pons = [
                pon(seat, who, tile, plain, plain),
                pon(seat, who, tile, plain, red),
                pon(seat, who, tile, red, plain),
                pon(seat, who, tile, red, red),
            ];
            push_lawful(table, seat, &pons, items)?;
            Ok(())
        }
    }
}

// Adds the lawful kans of the discard, with the same tiles.
fn push_open_kans(
    table: &Table,
    seat: u8,
    who: u8,
    tile: Tile,
    items: &mut Vec<Answer>,
) -> Result<(), AllocError>
    requires { seat ≤ 3 }
    ensures { OnOk result (items.new.items ≡ items.old.items
        ++ lawful_among table.now.rules table.now.deeds seat
        (open_kans_of seat who tile (faces_of (kind_of tile)))) }
{
    let plain = plain_of(tile.kind());
    match red_of(tile.kind()) {
        None => {
            let kan = open_kan(seat, who, tile, plain, plain, plain);
            push_lawful(table, seat, &[kan], items)?;
            Ok(())
        }
        Some(red) => {
            let kans = [
                open_kan(seat, who, tile, plain, plain, plain),
                open_kan(seat, who, tile, plain, plain, red),
                open_kan(seat, who, tile, plain, red, plain),
                open_kan(seat, who, tile, plain, red, red),
                open_kan(seat, who, tile, red, plain, plain),
                open_kan(seat, who, tile, red, plain, red),
                open_kan(seat, who, tile, red, red, plain),
                open_kan(seat, who, tile, red, red, red),
            ];
            push_lawful(table, seat, &kans, items)?;
            Ok(())
        }
    }
}

fn pon(seat: u8, who: u8, tile: Tile, a: Tile, b: Tile) -> Answer
    ensures { result ≡ answers.Pon seat who (Known tile) (Known a) (Known b) }
{
    Answer::Pon {
        actor: seat,
        target: who,
        tile: Pai::Known(tile),
        a: Pai::Known(a),
        b: Pai::Known(b),
    }
}

fn open_kan(seat: u8, who: u8, tile: Tile, a: Tile, b: Tile, c: Tile) -> Answer
    ensures { result ≡ answers.OpenKan seat who (Known tile) (Known a) (Known b) (Known c) }
{
    Answer::OpenKan {
        actor: seat,
        target: who,
        tile: Pai::Known(tile),
        a: Pai::Known(a),
        b: Pai::Known(b),
        c: Pai::Known(c),
    }
}

// The plain tile of a kind.
pub(crate) fn plain_of(kind: Kind) -> Tile
    ensures { result ≡ kind }
{
    Tile::at(kind.number())
}

// The red five of a kind.
pub(crate) fn red_of(kind: Kind) -> Option<Tile>
    ensures { result ≡ red_of kind }
{
    match kind.number() {
        4 => Some(Tile::at(RED)),
        13 => Some(Tile::at(35)),
        22 => Some(Tile::at(36)),
        _ => None,
    }
}
