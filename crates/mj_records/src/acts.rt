//! Draws, discards, reaches, indicators and ends of a record, and the deeds that take no memory.

ghost use Rattle.std.specs.Prelude.{◌≡◌, option_and_then};
ghost use Rattle.mj_deeds.specs.Bids.{call_of_bid};
ghost use Rattle.mj_records.specs.Deeds.{small_by, call_in, draw_in, discard_in, dora_in, reach_in, end_game_in};

use crate::calls::{added_kan_in, call_in, closed_kan_in};
use crate::fields::{byte_field, points_field, tile_field, truth_field, word_field};
use crate::reaches::reach_accepted_in;
use mj_deeds::Deed;

/// The deed of a kind that takes no memory, read from the fields after it.
#[tactic(auto, unfolding(crate::specs::Deeds::small_by))]
pub(crate) fn small_by(kind: &[u8], fields: &[u8]) -> Option<Deed>
    ensures { result ≡ small_by kind.now fields.now }
{
    if kind == b"tsumo".as_slice() {
        return draw_in(fields);
    }
    if kind == b"dahai".as_slice() {
        return discard_in(fields);
    }
    if kind == b"chi".as_slice() {
        return called_in(kind, fields);
    }
    if kind == b"pon".as_slice() {
        return called_in(kind, fields);
    }
    if kind == b"daiminkan".as_slice() {
        return called_in(kind, fields);
    }
    if kind == b"ankan".as_slice() {
        return closed_kan_in(fields);
    }
    if kind == b"kakan".as_slice() {
        return added_kan_in(fields);
    }
    if kind == b"dora".as_slice() {
        return dora_in(fields);
    }
    if kind == b"reach".as_slice() {
        return reach_in(fields);
    }
    if kind == b"reach_accepted".as_slice() {
        return reach_accepted_in(fields);
    }
    if kind == b"end_kyoku".as_slice() {
        return Some(Deed::EndHand);
    }
    if kind == b"end_game".as_slice() {
        return end_game_in(fields);
    }
    None
}

// The deed of a call of a discard, under its kind.
#[inline(always)]
fn called_in(kind: &[u8], fields: &[u8]) -> Option<Deed>
    ensures { result ≡ option_and_then call_of_bid (call_in kind.now fields.now) }
{
    call_in(kind, fields)?.deed()
}

#[tactic(auto, unfolding(crate::specs::Deeds::draw_in))]
fn draw_in(fields: &[u8]) -> Option<Deed>
    ensures { result ≡ draw_in fields.now }
{
    let (seat, rest) = byte_field(fields, b",\"actor\":")?;
    let Some((tile, _)) = tile_field(rest, b",\"pai\":") else {
        return None;
    };
    Some(Deed::Draw {
        seat,
        tile,
        replacement: false,
    })
}

#[tactic(auto, unfolding(crate::specs::Deeds::discard_in))]
fn discard_in(fields: &[u8]) -> Option<Deed>
    ensures { result ≡ discard_in fields.now }
{
    let (seat, rest) = byte_field(fields, b",\"actor\":")?;
    let Some((tile, rest)) = tile_field(rest, b",\"pai\":") else {
        return None;
    };
    let (drawn, _) = truth_field(rest, b",\"tsumogiri\":")?;
    Some(Deed::Discard { seat, tile, drawn })
}

#[tactic(auto, unfolding(crate::specs::Deeds::dora_in))]
fn dora_in(fields: &[u8]) -> Option<Deed>
    ensures { result ≡ dora_in fields.now }
{
    let Some((tile, _)) = tile_field(fields, b",\"dora_marker\":") else {
        return None;
    };
    Some(Deed::Dora { tile })
}

#[tactic(auto, unfolding(crate::specs::Deeds::reach_in))]
fn reach_in(fields: &[u8]) -> Option<Deed>
    ensures { result ≡ reach_in fields.now }
{
    let (seat, _) = byte_field(fields, b",\"actor\":")?;
    Some(Deed::Reach { seat })
}

#[tactic(auto, unfolding(crate::specs::Deeds::end_game_in))]
fn end_game_in(fields: &[u8]) -> Option<Deed>
    ensures { result ≡ end_game_in fields.now }
{
    let (points, rest) = points_field(fields, b",\"scores\":")?;
    let (deposits, _) = word_field(rest, b",\"kyotaku\":")?;
    Some(Deed::EndGame { points, deposits })
}
