//! Starts of a game and of a hand of a record.

ghost use Rattle.std.specs.Prelude.{◌≡◌, ◌==◌, ◌&&◌, not, nat_le, option_map, IfOk};
ghost use Rattle.std.specs.List.{list_all};
ghost use Rattle.std.specs.Str.{is_utf8};
ghost use Rattle.mj_ports.specs.Names.{is_name};
ghost use Rattle.mj_deeds.specs.declared.deed.Deed.TheVariants.{StartGame};
ghost use Rattle.mj_records.specs.Deeds.{name_of, name_field, kind_field, start_game_in};

use crate::fields::{quoted_at, tile_field};
use mj_bytes::strip;
use mj_deeds::{Deed, Four, Names};
use mj_ports::Name;
use mj_tiles::Kind;
use std::alloc::{AllocError, Global};
use std::str;

/// The start of a game, read from the fields after its type.
pub(crate) fn start_game_in(alloc: Global, fields: &[u8]) -> Result<Option<Deed>, AllocError>
    ensures { IfOk result (λ deed. deed ≡ start_game_in fields.now) }
{
    match names_in(fields) {
        Some(names) => Ok(Some(Deed::StartGame {
            names: Names::of(alloc, names)?,
        })),
        None => Ok(None),
    }
}

// The names of the four seats in these fields.
#[tactic(auto, unfolding(crate::specs::Deeds::start_game_in))]
fn names_in(fields: &[u8]) -> Option<Four<Name>>
    ensures { start_game_in fields.now ≡ option_map StartGame result }
{
    let Some((first, rest)) = name_field(fields, b",\"id\":0,\"names\":[") else {
        return None;
    };
    let Some((second, rest)) = name_field(rest, b",") else {
        return None;
    };
    let Some((third, rest)) = name_field(rest, b",") else {
        return None;
    };
    let Some((fourth, _)) = name_field(rest, b",") else {
        return None;
    };
    Some(Four {
        first,
        second,
        third,
        fourth,
    })
}

// The name of a seat after a key.
#[tactic(auto, unfolding(crate::specs::Deeds::name_field))]
fn name_field<'a>(text: &'a [u8], key: &[u8]) -> Option<(Name, &'a [u8])>
    ensures { option_map (λ x. (x.0, x.1.now)) result ≡ name_field key.now text.now }
{
    let (name, rest) = quoted_at(strip(text, key)?)?;
    Some((name_of(name)?, rest))
}

// The name that a text is.
#[tactic(auto, using(crate::proofs::TextLaws::name_fits))]
fn name_of(text: &[u8]) -> Option<Name>
    ensures { result ≡ name_of text.now }
{
    if is_name(text) {
        return Some(Name::of(text));
    }
    None
}

#[tactic(auto, unfolding(mj_ports::specs::Names::is_name))]
fn is_name(text: &[u8]) -> bool
    ensures { result ≡ is_name text.now }
{
    if text.is_empty() || text.len() > 64 {
        return false;
    }
    has_plain_bytes(text) && is_text(text)
}

// Whether no byte of a text is a quotation mark, a backslash or below 32.
fn has_plain_bytes(text: &[u8]) -> bool
    ensures { result ≡ list_all (λ byte. nat_le 32 byte && not (byte == 34) && not (byte == 92))
        text.now }
{
    text.iter()
        .all(|byte| *byte >= 32 && *byte != b'"' && *byte != b'\\')
}

#[tactic(auto, using(crate::proofs::TextLaws::texts_by_test))]
fn is_text(text: &[u8]) -> bool
    ensures { result ≡ is_utf8 text.now }
{
    match str::from_utf8(text) {
        Ok(_) => true,
        Err(_) => false,
    }
}

/// A kind of tile after a key.
#[tactic(auto, unfolding(crate::specs::Deeds::kind_field))]
pub(crate) fn kind_field<'a>(text: &'a [u8], key: &[u8]) -> Option<(Kind, &'a [u8])>
    ensures { option_map (λ x. (x.0, x.1.now)) result ≡ kind_field key.now text.now }
{
    let Some((tile, rest)) = tile_field(text, key) else {
        return None;
    };
    Some((Kind::of(tile.face())?, rest))
}
