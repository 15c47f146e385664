ghost use Rattle.std.specs.Prelude.{◌≡◌, ◌≤◌, ◌+◌, ◌-◌, [], ℕ, slice_index};
ghost use Rattle.mj_tiles.specs.Faces.{number_in};
ghost use Rattle.mj_deeds.specs.Four.{at_seat};
ghost use Rattle.mj_facts.specs.Holding.{Holds};
ghost use Rattle.mj_table.specs.Inner.Kept.{Moves};

use mj_deeds::{Deed, Four};
use mj_tiles::{FACES, Tile};

// Moves the tiles of the seats by a deed, of which they hold so many of each face.
pub(crate) fn move_tiles(held: &mut Four<[u8; FACES]>, deed: &Deed)
    ensures { (seat : ℕ) → seat ≤ 3 → Moves deed.now seat (at_seat held.old seat) (at_seat held.new seat) }
{
    move_own(&mut held.first, 0, deed);
    move_own(&mut held.second, 1, deed);
    move_own(&mut held.third, 2, deed);
    move_own(&mut held.fourth, 3, deed);
}

// What the seats hold before a hand.
pub(crate) fn nothing_held() -> Four<[u8; FACES]>
    ensures { (seat : ℕ) → seat ≤ 3 → Holds [] seat (at_seat result seat) }
{
    Four {
        first: [0; FACES],
        second: [0; FACES],
        third: [0; FACES],
        fourth: [0; FACES],
    }
}

// Moves the tiles of a seat, 0 to 3, by a deed: a start of a hand deals to it, it draws one, or it puts down tiles of its own.
fn move_own(held: &mut [u8; FACES], seat: u8, deed: &Deed)
    requires { seat ≤ 3 }
    ensures { Moves deed.now seat held.old held.new }
{
    match deed {
        Deed::StartHand { hands, .. } => deal(held, hands.at(seat)),
        Deed::Draw {
            seat: who,
            tile,
            ..
        } if *who == seat => take_up(held, &[*tile]),
        Deed::Discard {
            seat: who,
            tile,
            ..
        } if *who == seat => put_down(held, &[*tile]),
        Deed::Chi {
            seat: who,
            a,
            b,
            ..
        } if *who == seat => put_down(held, &[*a, *b]),
        Deed::Pon {
            seat: who,
            a,
            b,
            ..
        } if *who == seat => put_down(held, &[*a, *b]),
        Deed::OpenKan {
            seat: who,
            a,
            b,
            c,
            ..
        } if *who == seat => put_down(held, &[*a, *b, *c]),
        Deed::ClosedKan {
            seat: who,
            a,
            b,
            c,
            d,
        } if *who == seat => put_down(held, &[*a, *b, *c, *d]),
        Deed::AddedKan {
            seat: who,
            tile,
            ..
        } if *who == seat => put_down(held, &[*tile]),
        _ => {}
    }
}

// These tiles of each face, and no others; a number above 255 counts as 255.
fn deal(held: &mut [u8; FACES], tiles: &[Tile])
    ensures { (face : ℕ) → number_in tiles.now face ≤ 255
        → slice_index held.new face ≡ number_in tiles.now face }
{
    *held = [0; FACES];
    take_up(held, tiles);
}

// So many of each face, and these tiles more; a number above 255 counts as 255.
fn take_up(held: &mut [u8; FACES], tiles: &[Tile])
    ensures { (face : ℕ) → slice_index held.old face + number_in tiles.now face ≤ 255
        → slice_index held.new face ≡ slice_index held.old face + number_in tiles.now face }
{
    for tile in tiles {
        let place = usize::from(tile.face());
        held[place] = held[place].saturating_add(1);
    }
}

// So many of each face less these tiles.
fn put_down(held: &mut [u8; FACES], tiles: &[Tile])
    ensures { (face : ℕ) → slice_index held.new face
        ≡ slice_index held.old face - number_in tiles.now face }
{
    for tile in tiles {
        let place = usize::from(tile.face());
        held[place] = held[place].saturating_sub(1);
    }
}
