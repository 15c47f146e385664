ghost use Rattle.std.specs.Prelude.{◌≡◌, ◌++◌, IfOk, OnOk, option_to_list};
ghost use Rattle.mj_deeds.specs.Facts.{concealed_tiles, river_tiles, tiles_gained, tiles_lost, gains_by, losses_by, discards_by};
ghost use Rattle.mj_deeds.specs.Four.{at_seat};

use crate::deed::Deed;
use crate::hands::Hands;
use crate::tiles::{Tiles, less};
use mj_tiles::Tile;
use std::alloc::{AllocError, Global};

/// The concealed tiles of a seat in one hand, in tile order: those given to it, less those that it put down.
pub fn concealed(alloc: Global, deeds: &[Deed], seat: u8) -> Result<Tiles, AllocError>
    ensures { IfOk result (λ t. t ≡ concealed_tiles deeds.now seat) }
{
    let given = all_gained(alloc, deeds, seat)?;
    let put_down = all_lost(alloc, deeds, seat)?;
    less(alloc, given.as_slice(), put_down.as_slice())
}

/// The river of a seat in one hand: all its discards, in order.
pub fn river(alloc: Global, deeds: &[Deed], seat: u8) -> Result<Tiles, AllocError>
    ensures { IfOk result (λ t. t ≡ river_tiles deeds.now seat) }
{
    let mut tiles = Tiles::new(alloc);
    for deed in deeds {
        if let Some(tile) = discarded_by(deed, seat) {
            tiles.push(tile)?;
        }
    }
    Ok(tiles)
}

// The tile that a seat discards by a deed; none where the deed is no discard of the seat.
fn discarded_by(deed: &Deed, seat: u8) -> Option<Tile>
    ensures { option_to_list result ≡ discards_by seat deed.now }
{
    match deed {
        Deed::Discard {
            seat: who,
            tile,
            ..
        } if *who == seat => Some(*tile),
        _ => None,
    }
}

// The tiles dealt to a seat.
fn dealt(hands: &Hands, seat: u8) -> &[Tile]
    ensures { result.now ≡ at_seat hands.now seat }
{
    hands.at(seat.min(3))
}

// Adds the tiles that a deed gives to a seat.
fn gain(tiles: &mut Vec<Tile>, deed: &Deed, seat: u8) -> Result<(), AllocError>
    ensures { OnOk result (tiles.new.items ≡ tiles.old.items ++ gains_by seat deed.now) }
{
    match deed {
        Deed::StartHand { hands, .. } => tiles.extend_from_slice(dealt(hands, seat)),
        Deed::Draw {
            seat: who,
            tile,
            ..
        } if *who == seat => {
            tiles.push(*tile)?;
            Ok(())
        }
        _ => Ok(()),
    }
}

// All tiles that a seat was given.
fn all_gained(alloc: Global, deeds: &[Deed], seat: u8) -> Result<Vec<Tile>, AllocError>
    ensures { IfOk result (λ v. v.items ≡ tiles_gained deeds.now seat) }
{
    let mut tiles = Vec::new(alloc);
    for deed in deeds {
        gain(&mut tiles, deed, seat)?;
    }
    Ok(tiles)
}

// Adds the tiles that a seat puts down by a deed.
fn lose(tiles: &mut Vec<Tile>, deed: &Deed, seat: u8) -> Result<(), AllocError>
    ensures { OnOk result (tiles.new.items ≡ tiles.old.items ++ losses_by seat deed.now) }
{
    match deed {
        Deed::Discard {
            seat: who,
            tile,
            ..
        } if *who == seat => tiles.extend_from_slice(&[*tile]),
        Deed::Chi {
            seat: who,
            a,
            b,
            ..
        } if *who == seat => tiles.extend_from_slice(&[*a, *b]),
        Deed::Pon {
            seat: who,
            a,
            b,
            ..
        } if *who == seat => tiles.extend_from_slice(&[*a, *b]),
        Deed::OpenKan {
            seat: who,
            a,
            b,
            c,
            ..
        } if *who == seat => tiles.extend_from_slice(&[*a, *b, *c]),
        Deed::ClosedKan {
            seat: who,
            a,
            b,
            c,
            d,
        } if *who == seat => tiles.extend_from_slice(&[*a, *b, *c, *d]),
        Deed::AddedKan {
            seat: who,
            tile,
            ..
        } if *who == seat => tiles.extend_from_slice(&[*tile]),
        _ => Ok(()),
    }
}

// All tiles that a seat put down.
fn all_lost(alloc: Global, deeds: &[Deed], seat: u8) -> Result<Vec<Tile>, AllocError>
    ensures { IfOk result (λ v. v.items ≡ tiles_lost deeds.now seat) }
{
    let mut tiles = Vec::new(alloc);
    for deed in deeds {
        lose(&mut tiles, deed, seat)?;
    }
    Ok(tiles)
}
