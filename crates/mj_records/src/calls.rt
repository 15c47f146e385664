//! Calls and kans of a record.

ghost use Rattle.std.specs.Prelude.{◌≡◌};
ghost use Rattle.mj_records.specs.Deeds.{call_in, call_by, closed_kan_in, added_kan_in};

use crate::fields::{byte_field, tile_field};
use mj_deeds::{Bid, Deed};
use mj_tiles::Tile;

/// The call of a discard of a type, read from the fields after it.
#[tactic(auto, unfolding(crate::specs::Deeds::call_in))]
pub(crate) fn call_in(kind: &[u8], fields: &[u8]) -> Option<Bid>
    ensures { result ≡ call_in kind.now fields.now }
{
    let (seat, rest) = byte_field(fields, b",\"actor\":")?;
    let (target, rest) = byte_field(rest, b",\"target\":")?;
    let Some((tile, rest)) = tile_field(rest, b",\"pai\":") else {
        return None;
    };
    let Some((a, rest)) = tile_field(rest, b",\"consumed\":[") else {
        return None;
    };
    let Some((b, rest)) = tile_field(rest, b",") else {
        return None;
    };
    call_by(kind, seat, target, tile, a, b, rest)
}

// The call of a type with its first two own tiles, and what stands after these.
fn call_by(
    kind: &[u8],
    seat: u8,
    target: u8,
    tile: Tile,
    a: Tile,
    b: Tile,
    rest: &[u8],
) -> Option<Bid>
    ensures { result ≡ call_by kind.now seat target tile a b rest.now }
{
    if kind == b"chi".as_slice() {
        return Some(Bid::Chi {
            seat,
            target,
            tile,
            a,
            b,
        });
    }
    if kind == b"pon".as_slice() {
        return Some(Bid::Pon {
            seat,
            target,
            tile,
            a,
            b,
        });
    }
    if kind == b"daiminkan".as_slice() {
        let Some((c, _)) = tile_field(rest, b",") else {
            return None;
        };
        return Some(Bid::OpenKan {
            seat,
            target,
            tile,
            a,
            b,
            c,
        });
    }
    None
}

/// The kan of concealed tiles, read from the fields after its type.
#[tactic(auto, unfolding(crate::specs::Deeds::closed_kan_in))]
pub(crate) fn closed_kan_in(fields: &[u8]) -> Option<Deed>
    ensures { result ≡ closed_kan_in fields.now }
{
    let (seat, rest) = byte_field(fields, b",\"actor\":")?;
    let Some((a, rest)) = tile_field(rest, b",\"consumed\":[") else {
        return None;
    };
    let Some((b, rest)) = tile_field(rest, b",") else {
        return None;
    };
    let Some((c, rest)) = tile_field(rest, b",") else {
        return None;
    };
    let Some((d, _)) = tile_field(rest, b",") else {
        return None;
    };
    Some(Deed::ClosedKan { seat, a, b, c, d })
}

/// The added kan, read from the fields after its type.
#[tactic(auto, unfolding(crate::specs::Deeds::added_kan_in))]
pub(crate) fn added_kan_in(fields: &[u8]) -> Option<Deed>
    ensures { result ≡ added_kan_in fields.now }
{
    let (seat, rest) = byte_field(fields, b",\"actor\":")?;
    let Some((tile, rest)) = tile_field(rest, b",\"pai\":") else {
        return None;
    };
    let Some((a, rest)) = tile_field(rest, b",\"consumed\":[") else {
        return None;
    };
    let Some((b, rest)) = tile_field(rest, b",") else {
        return None;
    };
    let Some((c, _)) = tile_field(rest, b",") else {
        return None;
    };
    Some(Deed::AddedKan {
        seat,
        tile,
        a,
        b,
        c,
    })
}
