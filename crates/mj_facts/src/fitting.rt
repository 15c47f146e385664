ghost use Rattle.std.specs.Prelude.{◌≡◌, ◌≤◌, ◌<◌, ◌+◌, ℕ, IsTrue, List, length, slice_index};
ghost use Rattle.mj_tiles.specs.Faces.{number_in};
ghost use Rattle.mj_deeds.specs.declared.deed.Deed.{Deed};
ghost use Rattle.mj_deeds.specs.Facts.{losses_by, makes_by};
ghost use Rattle.mj_deeds.specs.Fits.{are_held, fits_in, has_held, has_seats};
ghost use Rattle.mj_deeds.specs.Four.{at_seat};
ghost use Rattle.mj_facts.specs.Inner.Fitting.{fits_by, adds_to_own, are_four, has_place_for, has_places, has_tile_left, reaches_first};
ghost use Rattle.mj_facts.specs.Hands.{Knows, Few};
ghost use Rattle.mj_facts.specs.Holding.{Holds};

use crate::bringing::keeps_kinds;
use crate::hand_facts::HandFacts;
use crate::meld_steps::has_triplet;
use crate::seat_facts::SeatFacts;
use mj_deeds::{Deed, Four, has_seats, has_tiles, is_call, is_kan, made};
use mj_tiles::{FACES, Tile, number_among};

/// Whether a deed fits after the deeds before it in its own hand, of which is kept how many tiles of each face each seat holds,
/// and its facts. `red` says whether there are red fives.
pub fn fits_in(red: bool, held: &Four<[u8; FACES]>, facts: &HandFacts, deed: &Deed) -> bool
    ensures { (hand : List Deed)
        → ((seat : ℕ) → seat ≤ 3 → Holds hand seat (at_seat held.now seat)) → Few hand
        → Knows hand facts.now → result ≡ fits_in red hand deed.now }
{
    let held = has_held(held, deed);
    let kinds = keeps_kinds(&facts.brought, deed);
    let places = has_places(&facts.seats, deed);
    fits_by(red, held, kinds, places, facts, deed)
}

// Whether a deed fits, where it is known whether the seats hold the tiles that they put down, no kind is brought in a fifth
// time, and no seat has a fifth meld.
#[tactic(auto, unfolding(crate::specs::Inner::Fitting::fits_by))]
fn fits_by(red: bool, held: bool, kinds: bool, places: bool, facts: &HandFacts, deed: &Deed) -> bool
    ensures { result ≡ fits_by red held kinds places facts.now deed.now }
{
    has_seats(deed)
        && held
        && adds_to_pon(&facts.seats, deed)
        && has_tiles(red, deed)
        && kinds
        && places
        && has_tile_left(facts, deed)
        && reaches_first(&facts.seats, deed)
}

// Whether each seat holds the tiles that it puts down.
fn has_held(held: &Four<[u8; FACES]>, deed: &Deed) -> bool
    ensures { (hand : List Deed)
        → ((seat : ℕ) → seat ≤ 3 → Holds hand seat (at_seat held.now seat)) → result
        ≡ has_held hand deed.now }
{
    let first = holds_own(&held.first, 0, deed);
    let second = holds_own(&held.second, 1, deed);
    let third = holds_own(&held.third, 2, deed);
    let fourth = holds_own(&held.fourth, 3, deed);
    are_four(first, second, third, fourth)
}

// All four are so.
fn are_four(first: bool, second: bool, third: bool, fourth: bool) -> bool
    ensures { result ≡ are_four first second third fourth }
{
    first && second && third && fourth
}

// Whether a seat, which holds so many tiles of each face, holds those that it puts down by a deed.
fn holds_own(held: &[u8; FACES], seat: u8, deed: &Deed) -> bool
    ensures { (got gone : List ℕ)
        → ((face : ℕ) → face < 37 → slice_index held.now face + number_in gone face
        ≡ number_in got face) → result ≡ are_held got gone (losses_by seat deed.now) }
{
    match deed {
        Deed::Discard {
            seat: who,
            tile,
            ..
        } if *who == seat => are_held(held, &[*tile]),
        Deed::Chi {
            seat: who,
            a,
            b,
            ..
        } if *who == seat => are_held(held, &[*a, *b]),
        Deed::Pon {
            seat: who,
            a,
            b,
            ..
        } if *who == seat => are_held(held, &[*a, *b]),
        Deed::OpenKan {
            seat: who,
            a,
            b,
            c,
            ..
        } if *who == seat => are_held(held, &[*a, *b, *c]),
        Deed::ClosedKan {
            seat: who,
            a,
            b,
            c,
            d,
        } if *who == seat => are_held(held, &[*a, *b, *c, *d]),
        Deed::AddedKan {
            seat: who,
            tile,
            ..
        } if *who == seat => are_held(held, &[*tile]),
        _ => true,
    }
}

// Whether so many tiles of each face are held as stand among these.
fn are_held(held: &[u8; FACES], tiles: &[Tile]) -> bool
    ensures { (got gone : List ℕ)
        → ((face : ℕ) → face < 37 → slice_index held.now face + number_in gone face
        ≡ number_in got face) → result ≡ are_held got gone tiles.now }
{
    for tile in tiles {
        if usize::from(held[usize::from(tile.face())]) < number_among(tiles, *tile) {
            return false;
        }
    }
    true
}

// Whether a tile that is added goes to an own pon of its kind.
fn adds_to_pon(seats: &Four<SeatFacts>, deed: &Deed) -> bool
    requires { IsTrue (has_seats deed.now) }
    ensures { result ≡ adds_to_own seats.now deed.now }
{
    match deed {
        Deed::AddedKan {
            seat,
            tile,
            a,
            b,
            c,
        } => has_triplet(&seats.at(*seat).melds, *tile, *a, *b, *c),
        _ => true,
    }
}

// Whether no seat has a fifth meld with a deed, where none has one before it.
fn has_places(seats: &Four<SeatFacts>, deed: &Deed) -> bool
    ensures { ((seat : ℕ) → seat ≤ 3 → length (at_seat seats.now seat).melds ≤ 4) → result
        ≡ has_places seats.now deed.now }
{
    if !is_call(deed) {
        return true;
    }
    has_place_for(seats, deed, 0)
        && has_place_for(seats, deed, 1)
        && has_place_for(seats, deed, 2)
        && has_place_for(seats, deed, 3)
}

fn has_place_for(seats: &Four<SeatFacts>, deed: &Deed, seat: u8) -> bool
    requires { seat ≤ 3 }
    ensures { result ≡ has_place_for seats.now deed.now seat }
{
    seats.at(seat).melds.as_slice().len() + number_made(deed, seat) <= 4
}

// How many melds a seat makes by a deed.
fn number_made(deed: &Deed, seat: u8) -> usize
    ensures value { result ≡ length (makes_by seat deed.now) }
    ensures within { result ≤ 1 }
{
    match made(deed, seat) {
        Some(_) => 1,
        None => 0,
    }
}

// Whether a live tile is left for a live draw or a kan, and no fifth kan is made.
fn has_tile_left(facts: &HandFacts, deed: &Deed) -> bool
    ensures { result ≡ has_tile_left facts.now deed.now }
{
    match deed {
        Deed::Draw { replacement, .. } => *replacement || facts.live() > 0,
        _ => !is_kan(deed) || facts.kans < 4 && facts.live() > 0,
    }
}

// Whether an accepted reach is the first one of its seat.
fn reaches_first(seats: &Four<SeatFacts>, deed: &Deed) -> bool
    requires { IsTrue (has_seats deed.now) }
    ensures { result ≡ reaches_first seats.now deed.now }
{
    match deed {
        Deed::ReachAccepted { seat, .. } => !seats.at(*seat).marks.accepted,
        _ => true,
    }
}
