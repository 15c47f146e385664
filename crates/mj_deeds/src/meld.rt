ghost use Rattle.std.specs.Prelude.{◌≡◌, ◌∷◌, [], IfOk, option_to_list, flat_map};
ghost use Rattle.mj_deeds.specs.Facts.{seat_melds, makes_by, adds_by, with_added, is_pon, meld_of_three, meld_of_four};
ghost use Rattle.mj_deeds.specs.Fits.{is_triplet_of};

use crate::deed::Deed;
use crate::tiles::at_place;
use mj_tiles::{Form, Meld, Tile};
use std::alloc::{AllocError, Global};

/// The melds of a seat in one hand, in the order in which they were made; a pon that a tile was added to is an added kan.
pub fn melds(alloc: Global, deeds: &[Deed], seat: u8) -> Result<Vec<Meld>, AllocError>
    ensures { IfOk result (λ v. v.items ≡ seat_melds deeds.now seat) }
{
    let mut melds = Vec::new(alloc);
    for deed in deeds {
        if let Some(meld) = made(deed, seat) {
            melds.push(with_added(deeds, seat, meld))?;
        }
    }
    Ok(melds)
}

/// Whether a meld is a pon that no tile was added to, of the tiles `a`, `b` and `c` in tile order, and of the kind of the
/// tile.
pub fn is_triplet_of(meld: Meld, tile: Tile, a: Tile, b: Tile, c: Tile) -> bool
    ensures { result ≡ is_triplet_of tile a b c meld }
{
    is_pon(meld.form)
        && meld.a.face() == a.face()
        && meld.b.face() == b.face()
        && meld.c.face() == c.face()
        && tile.kind().number() == a.kind().number()
}

fn is_pon(form: Form) -> bool
    ensures { result ≡ is_pon form }
{
    matches!(form, Form::Pon)
}

/// The meld that a seat makes by a deed, other than a tile added to one; none where it makes none.
pub fn made(deed: &Deed, seat: u8) -> Option<Meld>
    ensures { option_to_list result ≡ makes_by seat deed.now }
{
    match deed {
        Deed::Chi {
            seat: who,
            tile,
            a,
            b,
            ..
        } if *who == seat => Some(meld_of_three(Form::Chi, *tile, *a, *b)),
        Deed::Pon {
            seat: who,
            tile,
            a,
            b,
            ..
        } if *who == seat => Some(meld_of_three(Form::Pon, *tile, *a, *b)),
        Deed::OpenKan {
            seat: who,
            tile,
            a,
            b,
            c,
            ..
        } if *who == seat => Some(meld_of_four(Form::OpenKan, *tile, *a, *b, *c)),
        Deed::ClosedKan {
            seat: who,
            a,
            b,
            c,
            d,
        } if *who == seat => Some(meld_of_four(Form::ClosedKan, *a, *b, *c, *d)),
        _ => None,
    }
}

/// The tile that a seat adds to a pon by a deed; none where it adds none.
pub fn added(deed: &Deed, seat: u8) -> Option<Tile>
    ensures { option_to_list result ≡ adds_by seat deed.now }
{
    match deed {
        Deed::AddedKan {
            seat: who,
            tile,
            ..
        } if *who == seat => Some(*tile),
        _ => None,
    }
}

/// What a meld becomes by a tile that its seat adds: an added kan, where it is a pon of the kind of the tile.
#[tactic(auto, unfolding(crate::specs::Facts::with_added))]
pub fn with_one_added(meld: Meld, tile: Tile) -> Meld
    ensures { result ≡ with_added meld (tile ∷ []) }
{
    if is_pon(meld.form) && tile.kind().number() == meld.a.kind().number() {
        return meld_of_four(Form::AddedKan, tile, meld.a, meld.b, meld.c);
    }
    meld
}

// What a meld of a seat has become: an added kan, where it is a pon and the fourth tile was added.
#[tactic(auto, unfolding(crate::specs::Facts::with_added))]
fn with_added(deeds: &[Deed], seat: u8, meld: Meld) -> Meld
    ensures { result ≡ with_added meld (flat_map (adds_by seat) deeds.now) }
{
    for deed in deeds {
        if let Some(tile) = added(deed, seat) {
            if is_pon(meld.form) && tile.kind().number() == meld.a.kind().number() {
                return meld_of_four(Form::AddedKan, tile, meld.a, meld.b, meld.c);
            }
        }
    }
    meld
}

// A meld of three tiles.
#[tactic(auto, unfolding(crate::specs::Facts::meld_of_three))]
fn meld_of_three(form: Form, x: Tile, y: Tile, z: Tile) -> Meld
    ensures { result ≡ meld_of_three form x y z }
{
    let tiles = [x, y, z];
    Meld {
        form,
        a: at_place(&tiles, 0),
        b: at_place(&tiles, 1),
        c: at_place(&tiles, 2),
        d: None,
    }
}

// A meld of four tiles.
#[tactic(auto, unfolding(crate::specs::Facts::meld_of_four))]
fn meld_of_four(form: Form, w: Tile, x: Tile, y: Tile, z: Tile) -> Meld
    ensures { result ≡ meld_of_four form w x y z }
{
    let tiles = [w, x, y, z];
    Meld {
        form,
        a: at_place(&tiles, 0),
        b: at_place(&tiles, 1),
        c: at_place(&tiles, 2),
        d: Some(at_place(&tiles, 3)),
    }
}
