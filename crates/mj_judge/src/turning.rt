ghost use Rattle.std.specs.Prelude.{◌≡◌, ◌≤◌, ◌<◌, ◌++◌, ◌∷◌, [], ℕ, false, None, OnOk, filter, length, option_map, slice_index};
ghost use Rattle.std.specs.List.{list_any};
ghost use Rattle.mj_tiles.specs.Faces.{kind_of};
ghost use Rattle.mj_deeds.specs.declared.answer.Answer.TheVariants as answers;
ghost use Rattle.mj_deeds.specs.declared.answer.Pai.TheVariants.{Known};
ghost use Rattle.mj_deeds.specs.Facts.{newest, is_pon};
ghost use Rattle.mj_rules.specs.View.{view_of, turn_by, turn_in};
ghost use Rattle.mj_rules.specs.Possible.{is_lawful, faces_of, discards_of, all_discards, closed_kans_of, all_closed_kans, added_kans_of, all_added_kans, triplets};
ghost use Rattle.mj_judge.specs.Inner.Tried.{lawful_among, is_own_draw, is_discarding, is_winning, red_of, held_with};

use crate::calling::{held_of, plain_of, red_of};
use crate::drawing::push_drawn_discards;
use crate::holding::is_wrongly_marked;
use crate::listing::push_lawful;
use mj_deeds::{Answer, Deed, Pai, ordered};
use mj_table::Table;
use mj_tiles::{FACES, Form, Meld, Tile};
use std::alloc::AllocError;

// Adds the lawful discards, of each tile that is held.
pub(crate) fn push_discards(
    table: &Table,
    seat: u8,
    items: &mut Vec<Answer>,
) -> Result<(), AllocError>
    requires { seat ≤ 3 }
    ensures { OnOk result (items.new.items ≡ items.old.items
        ++ lawful_among table.now.rules table.now.deeds seat (all_discards seat)) }
{
    if is_own_draw(table, seat) {
        push_drawn_discards(table, seat, items)?;
        return Ok(());
    }
    if !is_discarding(table, seat) {
        return Ok(());
    }
    for place in 0..FACES {
        push_discards_of(table, seat, ordered(place), items)?;
    }
    Ok(())
}

// The discards of one face: marked only where it is the drawn one.
fn push_discards_of(
    table: &Table,
    seat: u8,
    tile: Tile,
    items: &mut Vec<Answer>,
) -> Result<(), AllocError>
    requires { seat ≤ 3 }
    ensures { OnOk result (items.new.items ≡ items.old.items
        ++ lawful_among table.now.rules table.now.deeds seat (discards_of seat tile)) }
{
    if table.held_count(seat, tile) == 0 {
        return Ok(());
    }
    if is_wrongly_marked(table, seat, &Pai::Known(tile), true) {
        push_lawful(table, seat, &[discard(seat, tile, false)], items)?;
        return Ok(());
    }
    let discards = [discard(seat, tile, false), discard(seat, tile, true)];
    push_lawful(table, seat, &discards, items)?;
    Ok(())
}

// Adds the lawful kans of four concealed tiles: at the own draw alone, and where enough of a kind is held.
pub(crate) fn push_closed_kans(
    table: &Table,
    seat: u8,
    items: &mut Vec<Answer>,
) -> Result<(), AllocError>
    requires { seat ≤ 3 }
    ensures { OnOk result (items.new.items ≡ items.old.items
        ++ lawful_among table.now.rules table.now.deeds seat (all_closed_kans seat)) }
{
    if !is_own_draw(table, seat) {
        return Ok(());
    }
    if !holds_four(table, seat) {
        return Ok(());
    }
    for place in 0..FACES {
        push_closed_kans_of(table, seat, ordered(place), items)?;
    }
    Ok(())
}

// Of some kind four tiles are held.
#[tactic(auto, unfolding(mj_rules::specs::View::view_of))]
fn holds_four(table: &Table, seat: u8) -> bool
    requires { seat ≤ 3 }
    ensures { result ≡ false → (kind : ℕ) → kind < 34 → held_with
        (view_of table.now.deeds seat) kind (red_of kind) < 4 }
{
    most(table.holds(seat).numbers()) > 3
}

// The most of these numbers.
fn most(numbers: &[u8]) -> u8
    ensures { (place : ℕ) → place < length numbers.now → slice_index numbers.now place ≤ result }
{
    let mut most = 0;
    for number in numbers {
        most = most.max(*number);
    }
    most
}

// The kans of four concealed tiles whose first has this face.
fn push_closed_kans_of(
    table: &Table,
    seat: u8,
    a: Tile,
    items: &mut Vec<Answer>,
) -> Result<(), AllocError>
    requires { seat ≤ 3 }
    ensures { OnOk result (items.new.items ≡ items.old.items
        ++ lawful_among table.now.rules table.now.deeds seat
        (closed_kans_of seat a (faces_of (kind_of a)))) }
{
    if table.held_count(seat, a) == 0 {
        return Ok(());
    }
    if held_of(table, seat, a.kind()) < 3 {
        return Ok(());
    }
    let plain = plain_of(a.kind());
    match red_of(a.kind()) {
        None => {
            push_plain_kan(table, seat, a, plain, items)?;
            Ok(())
        }
        Some(red) => {
            let kans = [
                closed_kan(seat, a, plain, plain, plain),
                closed_kan(seat, a, plain, plain, red),
                closed_kan(seat, a, plain, red, plain),
                closed_kan(seat, a, plain, red, red),
                closed_kan(seat, a, red, plain, plain),
                closed_kan(seat, a, red, plain, red),
                closed_kan(seat, a, red, red, plain),
                closed_kan(seat, a, red, red, red),
            ];
            push_lawful(table, seat, &kans, items)?;
            Ok(())
        }
    }
}

// The kan with three more tiles of one face.
fn push_plain_kan(
    table: &Table,
    seat: u8,
    a: Tile,
    plain: Tile,
    items: &mut Vec<Answer>,
) -> Result<(), AllocError>
    requires { seat ≤ 3 }
    ensures { OnOk result (items.new.items ≡ items.old.items
        ++ lawful_among table.now.rules table.now.deeds seat
        (answers.ClosedKan seat (Known a) (Known plain) (Known plain) (Known plain) ∷ [])) }
{
    if table.held_count(seat, plain) < 3 {
        return Ok(());
    }
    let kan = closed_kan(seat, a, plain, plain, plain);
    push_lawful(table, seat, &[kan], items)?;
    Ok(())
}

// Adds the lawful kans by a tile added to an own triplet: at the own draw alone, and where there is a triplet.
pub(crate) fn push_added_kans(
    table: &Table,
    seat: u8,
    items: &mut Vec<Answer>,
) -> Result<(), AllocError>
    requires { seat ≤ 3 }
    ensures { OnOk result (items.new.items ≡ items.old.items
        ++ lawful_among table.now.rules table.now.deeds seat
        (all_added_kans seat (triplets (view_of table.now.deeds seat)))) }
{
    if !is_own_draw(table, seat) {
        return Ok(());
    }
    if !has_pon(table.melds(seat).as_slice()) {
        return Ok(());
    }
    for place in 0..FACES {
        push_added_kans_of(table, seat, ordered(place), items)?;
    }
    Ok(())
}

// The kans by adding a tile of one face.
fn push_added_kans_of(
    table: &Table,
    seat: u8,
    tile: Tile,
    items: &mut Vec<Answer>,
) -> Result<(), AllocError>
    requires { seat ≤ 3 }
    ensures { OnOk result (items.new.items ≡ items.old.items
        ++ lawful_among table.now.rules table.now.deeds seat
        (added_kans_of seat tile (triplets (view_of table.now.deeds seat)))) }
{
    if table.held_count(seat, tile) == 0 {
        return Ok(());
    }
    let melds = table.melds(seat);
    push_added_to(table, seat, tile, melds.as_slice(), items)?;
    Ok(())
}

// The kans by adding a tile of one face to the triplets among some melds.
fn push_added_to(
    table: &Table,
    seat: u8,
    tile: Tile,
    melds: &[Meld],
    items: &mut Vec<Answer>,
) -> Result<(), AllocError>
    requires { seat ≤ 3 }
    ensures { OnOk result (items.new.items ≡ items.old.items
        ++ lawful_among table.now.rules table.now.deeds seat
        (added_kans_of seat tile (filter (λ meld. is_pon meld.form) melds.now))) }
{
    for meld in melds {
        push_added_kan(table, seat, tile, meld, items)?;
    }
    Ok(())
}

// The kan by adding a tile of one face to a meld, where that is a triplet.
fn push_added_kan(
    table: &Table,
    seat: u8,
    tile: Tile,
    meld: &Meld,
    items: &mut Vec<Answer>,
) -> Result<(), AllocError>
    requires { seat ≤ 3 }
    ensures { OnOk result (items.new.items ≡ items.old.items
        ++ lawful_among table.now.rules table.now.deeds seat
        (added_kans_of seat tile (filter (λ meld. is_pon meld.form) (meld.now ∷ [])))) }
{
    if !is_pon(meld) {
        return Ok(());
    }
    let kan = Answer::AddedKan {
        actor: seat,
        tile: Pai::Known(tile),
        a: Pai::Known(meld.a),
        b: Pai::Known(meld.b),
        c: Pai::Known(meld.c),
    };
    push_lawful(table, seat, &[kan], items)?;
    Ok(())
}

// One of the melds is a pon.
fn has_pon(melds: &[Meld]) -> bool
    ensures { result ≡ list_any (λ meld. is_pon meld.form) melds.now }
{
    melds.iter().any(|meld| is_pon(meld))
}

fn is_pon(meld: &Meld) -> bool
    ensures { result ≡ is_pon meld.now.form }
{
    matches!(meld.form, Form::Pon)
}

fn discard(seat: u8, tile: Tile, drawn: bool) -> Answer
    ensures { result ≡ answers.Discard seat (Known tile) drawn }
{
    Answer::Discard {
        actor: seat,
        tile: Pai::Known(tile),
        drawn,
    }
}

fn closed_kan(seat: u8, a: Tile, b: Tile, c: Tile, d: Tile) -> Answer
    ensures { result ≡ answers.ClosedKan seat (Known a) (Known b) (Known c) (Known d) }
{
    Answer::ClosedKan {
        actor: seat,
        a: Pai::Known(a),
        b: Pai::Known(b),
        c: Pai::Known(c),
        d: Pai::Known(d),
    }
}

// The window is on a draw of the seat.
pub(crate) fn is_own_draw(table: &Table, seat: u8) -> bool
    ensures { result ≡ is_own_draw seat (turn_in (option_map turn_by (newest table.now.deeds))) }
{
    match table.newest() {
        Some(Deed::Draw { seat: who, .. }) => *who == seat,
        _ => false,
    }
}

// In the window the seat may discard: after its draw, its reach, its chi or its pon.
pub(crate) fn is_discarding(table: &Table, seat: u8) -> bool
    ensures { result ≡ is_discarding seat (turn_in (option_map turn_by (newest table.now.deeds))) }
{
    match table.newest() {
        Some(Deed::Draw { seat: who, .. }) => *who == seat,
        Some(Deed::Reach { seat: who }) => *who == seat,
        Some(Deed::Chi { seat: who, .. }) => *who == seat,
        Some(Deed::Pon { seat: who, .. }) => *who == seat,
        _ => false,
    }
}

/// Whether a seat may pass in the window on the newest deed: it has not to discard, as after its own draw, reach, chi or pon.
pub fn may_pass(table: &Table, seat: u8) -> bool
    ensures { result ≡ is_lawful table.now.rules seat (view_of table.now.deeds seat)
        (answers.Pass None) }
{
    !is_discarding(table, seat)
}

// The window is on a draw of the seat, or on a tile of another that may be won on.
pub(crate) fn may_win(table: &Table, seat: u8) -> bool
    ensures { result ≡ is_winning seat (turn_in (option_map turn_by (newest table.now.deeds))) }
{
    match table.newest() {
        Some(Deed::Draw { seat: who, .. }) => *who == seat,
        Some(Deed::Discard { seat: who, .. }) => *who != seat,
        Some(Deed::AddedKan { seat: who, .. }) => *who != seat,
        _ => false,
    }
}
