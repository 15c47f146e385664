//! Starts of a hand of a record.

ghost use Rattle.std.specs.Prelude.{◌≡◌, ℕ, List, Some, IfOk, codes};
ghost use Rattle.mj_records.specs.Inner.Lists.{tiles_field};
ghost use Rattle.mj_records.specs.Deeds.{hands_at, start_by, start_hand_in};

use crate::fields::{byte_field, tile_field, word_field};
use crate::lists::tiles_field;
use crate::starts::kind_field;
use mj_deeds::{Deed, Hands};
use mj_tiles::{Kind, Tile};
use std::alloc::{AllocError, Global};

/// The start of a hand, read from the fields after its type.
#[tactic(auto, unfolding(crate::specs::Deeds::start_hand_in))]
pub(crate) fn start_hand_in(alloc: Global, fields: &[u8]) -> Result<Option<Deed>, AllocError>
    ensures { IfOk result (λ deed. deed ≡ start_hand_in fields.now) }
{
    let Some((round, rest)) = kind_field(fields, b",\"bakaze\":") else {
        return Ok(None);
    };
    let Some((number, rest)) = byte_field(rest, b",\"kyoku\":") else {
        return Ok(None);
    };
    let Some((honba, rest)) = word_field(rest, b",\"honba\":") else {
        return Ok(None);
    };
    let Some((deposits, rest)) = word_field(rest, b",\"kyotaku\":") else {
        return Ok(None);
    };
    start_by(alloc, round, number, honba, deposits, rest)
}

// The start of a hand with its round, number, honba and deposits, and what stands after these.
#[tactic(auto, unfolding(crate::specs::Deeds::start_by))]
fn start_by(
    alloc: Global,
    round: Kind,
    number: u8,
    honba: u32,
    deposits: u32,
    text: &[u8],
) -> Result<Option<Deed>, AllocError>
    ensures { IfOk result (λ deed. deed ≡ start_by round number honba deposits text.now) }
{
    let Some((dealer, rest)) = byte_field(text, b",\"oya\":") else {
        return Ok(None);
    };
    let Some((indicator, rest)) = tile_field(rest, b",\"dora_marker\":") else {
        return Ok(None);
    };
    let Some(hands) = hands_at(alloc, rest)? else {
        return Ok(None);
    };
    Ok(Some(Deed::StartHand {
        round,
        number,
        honba,
        deposits,
        dealer,
        indicator,
        hands,
    }))
}

// The hands of the four seats.
#[tactic(auto, unfolding(crate::specs::Deeds::hands_at))]
fn hands_at(alloc: Global, text: &[u8]) -> Result<Option<Hands>, AllocError>
    ensures { IfOk result (λ hands. hands ≡ hands_at text.now) }
{
    let mut first = Vec::new(alloc);
    let Some(rest) = tiles_field(text, b",\"tehais\":[", &mut first)? else {
        return Ok(None);
    };
    let mut second = Vec::new(alloc);
    let Some(rest) = tiles_field(rest, b",", &mut second)? else {
        return Ok(None);
    };
    hands_behind(alloc, first.as_slice(), second.as_slice(), rest)
}

// The hands of the four seats of any text whose first two are these, and which goes on with this one.
#[inline(always)]
fn hands_behind(
    alloc: Global,
    first: &[Tile],
    second: &[Tile],
    text: &[u8],
) -> Result<Option<Hands>, AllocError>
    ensures { IfOk result (λ hands. (whole rest : List ℕ)
        → Some (first.now, rest) ≡ tiles_field (codes ",\"tehais\":[") whole
        → Some (second.now, text.now) ≡ tiles_field (codes ",") rest → hands ≡ hands_at whole) }
{
    let mut third = Vec::new(alloc);
    let Some(rest) = tiles_field(text, b",", &mut third)? else {
        return Ok(None);
    };
    let mut fourth = Vec::new(alloc);
    let Some(_) = tiles_field(rest, b",", &mut fourth)? else {
        return Ok(None);
    };
    let hands = Hands::of(alloc, first, second, third.as_slice(), fourth.as_slice())?;
    Ok(Some(hands))
}
