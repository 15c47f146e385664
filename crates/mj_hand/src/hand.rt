//! The hand that words name.

ghost use Rattle.std.specs.Prelude.{◌≡◌, ◌+◌, ◌++◌, ◌^◌, ◌<◌, None, IfOk, IfSome, MatchOption, map, option_map, length};
ghost use Rattle.std.specs.String.{string_bytes};
ghost use Rattle.mj_tiles.specs.Counts.{kind_counts};
ghost use Rattle.mj_shanten.specs.Room.{IsHand};
ghost use Rattle.mj_hand.specs.Words.{word_of, word_with, words_of};
ghost use Rattle.mj_hand.specs.Hands.{hand_among, hand_of, has_each_red_once, stands_once};
ghost use Rattle.mj_hand.specs.Inner.Gathering.{Gathers, Takes, are_within_four, room_left};

use crate::words::{is_meld, read_tiles};
use mj_tiles::{Counts, KINDS, Kind, RED, Tile, counts_of, number_among};
use std::alloc::{AllocError, Global};

/// A hand of thirteen tiles with three for each meld.
#[derive(Clone, Copy)]
pub(crate) struct Hand {
    /// The concealed tiles.
    pub(crate) counts: Counts,
    /// Four of each kind less the tiles of the melds.
    pub(crate) room: Counts,
    /// How many melds there are, 0 to 4.
    pub(crate) melds: u8,
}

// The tiles of the words so far: the concealed ones, those of the melds, and how many melds they make.
#[derive(Drop)]
struct Gathered {
    held: Vec<Tile>,
    melded: Vec<Tile>,
    melds: usize,
}

/// The hand that words name; none exactly where a word is neither a tile nor a meld, the concealed tiles and three for
/// each meld aren't thirteen, a kind stands more than four times, or a red five twice.
pub(crate) fn read_hand(alloc: Global, words: &[String]) -> Result<Option<Hand>, AllocError>
    ensures value { IfOk result (λ hand. hand ≡ hand_of (map string_bytes words.now)) }
    ensures law { IfOk result (λ hand. IfSome hand (λ h. IsHand h.counts h.room h.melds)) }
{
    match gather(alloc, words)? {
        Some(gathered) => Ok(hand_with(&gathered)),
        None => Ok(None),
    }
}

// The tiles of all words; none where a word is neither a tile nor a meld.
fn gather(alloc: Global, words: &[String]) -> Result<Option<Gathered>, AllocError>
    ensures { IfOk result (λ gathered. MatchOption gathered
        (words_of (map string_bytes words.now) ≡ None)
        (λ g. Gathers (map string_bytes words.now) g.held.items g.melded.items g.melds)) }
{
    let mut gathered = Gathered {
        held: Vec::new(alloc),
        melded: Vec::new(alloc),
        melds: 0,
    };
    for word in words {
        if !take_word(alloc, &mut gathered, word.as_bytes())? {
            return Ok(None);
        }
    }
    Ok(Some(gathered))
}

// Adds what a word stands for; false where it is neither a tile nor a meld.
fn take_word(alloc: Global, gathered: &mut Gathered, word: &[u8]) -> Result<bool, AllocError>
    requires { gathered.old.melds < 2 ^ 63 }
    ensures { IfOk result (λ taken. Takes (word_of word.now) taken gathered.old gathered.new) }
{
    match read_tiles(alloc, word)? {
        Some(tiles) => take(gathered, tiles.as_slice()),
        None => Ok(false),
    }
}

// Adds the tiles of a word; false where they are neither one tile nor a meld.
fn take(gathered: &mut Gathered, tiles: &[Tile]) -> Result<bool, AllocError>
    requires { gathered.old.melds < 2 ^ 63 }
    ensures { IfOk result (λ taken. Takes (word_with tiles.now) taken gathered.old gathered.new) }
{
    if let [tile] = tiles {
        gathered.held.push(*tile)?;
        return Ok(true);
    }
    if !is_meld(tiles) {
        return Ok(false);
    }
    gathered.melded.extend_from_slice(tiles)?;
    gathered.melds += 1;
    Ok(true)
}

// The hand of all tiles, where they are as many as a hand has, no kind stands more than four times and no red five twice.
fn hand_with(gathered: &Gathered) -> Option<Hand>
    ensures { result ≡ hand_among gathered.now.held.items gathered.now.melded.items
        gathered.now.melds }
{
    if gathered.melds > 4 || gathered.held.len() + 3 * gathered.melds != 13 {
        return None;
    }
    let Some(counts) = counts_of(gathered.held.as_slice()) else {
        return None;
    };
    let Some(melded) = counts_of(gathered.melded.as_slice()) else {
        return None;
    };
    if !are_within_four(&counts, &melded) {
        return None;
    }
    if !has_each_red_once(gathered.held.as_slice(), gathered.melded.as_slice()) {
        return None;
    }
    Some(Hand {
        counts,
        room: room_left(&melded),
        melds: gathered.melds as u8,
    })
}

// Whether each red five stands once at most among both.
fn has_each_red_once(held: &[Tile], melded: &[Tile]) -> bool
    ensures { result ≡ has_each_red_once (held.now ++ melded.now) }
{
    stands_once(held, melded, Tile::at(RED))
        && stands_once(held, melded, Tile::at(35))
        && stands_once(held, melded, Tile::at(36))
}

// Whether a tile stands once at most among both.
#[tactic(auto, using(crate::proofs::HandSteps::once_among))]
fn stands_once(held: &[Tile], melded: &[Tile], tile: Tile) -> bool
    ensures { result ≡ stands_once (held.now ++ melded.now) tile }
{
    number_among(held, tile).saturating_add(number_among(melded, tile)) <= 1
}

// Whether no kind stands more than four times among both.
fn are_within_four(counts: &Counts, melded: &Counts) -> bool
    ensures { result ≡ are_within_four counts.now melded.now }
{
    for number in 0..KINDS as u8 {
        let kind = Kind::at(number);
        if counts.get(kind) + melded.get(kind) > 4 {
            return false;
        }
    }
    true
}

// Four of each kind less those that are melded.
fn room_left(melded: &Counts) -> Counts
    ensures { result ≡ room_left melded.now }
{
    let numbers = melded.numbers();
    let mut room = [0; KINDS];
    for kind in 0..KINDS {
        room[kind] = 4 - numbers[kind];
    }
    Counts::from_numbers(room)
}
