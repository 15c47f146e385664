//! What is written of a hand.

ghost use Rattle.std.specs.Prelude.{◌≡◌, None, IfOk, MatchOption, OnOk, map, filter, ◌++◌, ◌∷◌, [], if◌then◌else◌};
ghost use Rattle.std.specs.String.{string_bytes};
ghost use Rattle.mj_tiles.specs.Counts.{all_kinds};
ghost use Rattle.mj_tiles.specs.Kinds.{has_kind};
ghost use Rattle.mj_tiles.specs.Faces.{text_of};
ghost use Rattle.mj_bytes.specs.Adds.{Adds};
ghost use Rattle.mj_shanten.specs.Room.{IsHand};
ghost use Rattle.mj_shanten.specs.Shanten.{sorted_kinds};
ghost use Rattle.mj_hand.specs.Hands.{hand_of};
ghost use Rattle.mj_hand.specs.Text.{IsTextOf, IsHandText, kinds_text, shanten_line, target_line, kinds_or_dash, waits_line};

use crate::hand::{Hand, read_hand};
use mj_bytes::{push_all, push_number};
use mj_shanten::shanten;
use mj_tiles::{Counts, KINDS, Kind, Kinds, Tile, push_times};
use mj_waits::waits;
use std::alloc::{AllocError, Global};

/// The three lines that the command `hand` writes of the hand that words name: `shanten` and the number, `target` and the
/// concealed tiles of the nearest complete hand, and `waits` and the kinds that complete the hand, or `-` where there are
/// none. Tiles and kinds stand in tile order, each after a space.
///
/// A word is a tile, as `1m` or `E`, or a meld as its three or four tiles joined by `+`, as `1m+2m+3m`, which are a run, a
/// triplet or four of a kind in any order. A red five, as `5mr`, counts as a five of its suit, and the target is of plain tiles.
/// The result is None exactly where a word is neither, the tiles and three for each meld aren't thirteen, a kind stands more
/// than four times or a red five twice, the tiles of melds included.
pub fn hand_lines(alloc: Global, words: &[String]) -> Result<Option<Vec<u8>>, AllocError>
    ensures { IfOk result (λ text. MatchOption text (hand_of (map string_bytes words.now) ≡ None)
        (λ t. IsHandText (map string_bytes words.now) t.items)) }
{
    match read_hand(alloc, words)? {
        Some(hand) => Ok(Some(text_of_hand(alloc, &hand)?)),
        None => Ok(None),
    }
}

// The three lines of a hand.
fn text_of_hand(alloc: Global, hand: &Hand) -> Result<Vec<u8>, AllocError>
    requires { IsHand hand.now.counts hand.now.room hand.now.melds }
    ensures { IfOk result (λ text. IsTextOf hand.now text.items) }
{
    let nearest = shanten(&hand.counts, &hand.room, hand.melds);
    let kinds = waits(&hand.counts, &hand.room, hand.melds);
    let mut text = Vec::new(alloc);
    push_shanten(&mut text, nearest.number)?;
    push_target(alloc, &mut text, &nearest.target)?;
    push_waits(alloc, &mut text, kinds)?;
    Ok(text)
}

fn push_shanten(text: &mut Vec<u8>, number: u8) -> Result<(), AllocError>
    ensures { OnOk result (Adds text.old.items text.new.items (shanten_line number)) }
{
    push_all(text, b"shanten ")?;
    push_number(text, u64::from(number))?;
    push_all(text, b"\n")?;
    Ok(())
}

fn push_target(alloc: Global, text: &mut Vec<u8>, target: &Counts) -> Result<(), AllocError>
    ensures { OnOk result (Adds text.old.items text.new.items (target_line target.now)) }
{
    let kinds = kinds_of(alloc, target)?;
    push_all(text, b"target")?;
    push_kinds(text, kinds.as_slice())?;
    push_all(text, b"\n")?;
    Ok(())
}

fn push_waits(alloc: Global, text: &mut Vec<u8>, waits: Kinds) -> Result<(), AllocError>
    ensures { OnOk result (Adds text.old.items text.new.items
        (waits_line (filter (has_kind waits) all_kinds))) }
{
    let kinds = kinds_in(alloc, waits)?;
    push_all(text, b"waits")?;
    push_kinds_or_dash(text, kinds.as_slice())?;
    push_all(text, b"\n")?;
    Ok(())
}

/// Adds the texts of kinds after a text, each after a space, or `-` after one where there are none. `Err` is running out of memory.
pub fn push_kinds_or_dash(text: &mut Vec<u8>, kinds: &[Kind]) -> Result<(), AllocError>
    ensures { OnOk result (Adds text.old.items text.new.items (kinds_or_dash kinds.now)) }
{
    if kinds.is_empty() {
        push_all(text, b" -")?;
        return Ok(());
    }
    push_kinds(text, kinds)?;
    Ok(())
}

// Writes the kinds, each after a space.
fn push_kinds(text: &mut Vec<u8>, kinds: &[Kind]) -> Result<(), AllocError>
    ensures { OnOk result (Adds text.old.items text.new.items (kinds_text kinds.now)) }
{
    for kind in kinds {
        push_kind(text, *kind)?;
    }
    Ok(())
}

fn push_kind(text: &mut Vec<u8>, kind: Kind) -> Result<(), AllocError>
    ensures { OnOk result (Adds text.old.items text.new.items (32 ∷ text_of kind)) }
{
    push_all(text, b" ")?;
    push_all(text, Tile::at(kind.number()).text())?;
    Ok(())
}

// The kinds of the tiles in tile order, each as often as it stands.
fn kinds_of(alloc: Global, counts: &Counts) -> Result<Vec<Kind>, AllocError>
    ensures { IfOk result (λ kinds. kinds.items ≡ sorted_kinds counts.now) }
{
    let mut kinds = Vec::new(alloc);
    for number in 0..KINDS as u8 {
        let kind = Kind::at(number);
        push_times(&mut kinds, kind, counts.get(kind))?;
    }
    Ok(kinds)
}

// The kinds of a set in tile order.
fn kinds_in(alloc: Global, set: Kinds) -> Result<Vec<Kind>, AllocError>
    ensures { IfOk result (λ kinds. kinds.items ≡ filter (has_kind set) all_kinds) }
{
    let mut kinds = Vec::new(alloc);
    for number in 0..KINDS as u8 {
        let kind = Kind::at(number);
        push_if(&mut kinds, kind, set.has(kind))?;
    }
    Ok(kinds)
}

// Adds the kind to the list where it is to stand there.
fn push_if(kinds: &mut Vec<Kind>, kind: Kind, stands: bool) -> Result<(), AllocError>
    ensures { IfOk result (λ unit. kinds.new.items ≡ kinds.old.items
        ++ (if stands then kind ∷ [] else [])) }
{
    if stands {
        kinds.push(kind)?;
        return Ok(());
    }
    Ok(())
}
