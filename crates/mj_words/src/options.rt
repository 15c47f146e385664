//! What the words after `serve` and `tables` say.

ghost use Rattle.std.specs.Prelude.{◌≡◌, ◌≤◌, map, IfOk, IfSome, option_map};
ghost use Rattle.std.specs.String.{string_bytes};
ghost use Rattle.mj_words.specs.Asked.{serve_asked, tables_asked, seed_named, number_named, is_on};
ghost use Rattle.mj_words.specs.Commands.{asked_by_serving, asked_by_hosting};
ghost use Rattle.mj_words.specs.Inner.Parsing.{serving_of_words, tables_of_words};

use crate::parsing::{ServeWords, TablesWords, serve_words, tables_words};
use crate::serving::{Hosting, Serving};
use hex::FromHex;
use mj_bytes::read_number;
use std::alloc::{AllocError, Global};

const LONGEST_LIMIT: u64 = 3_600_000;

const MOST_ROOMS: u64 = 8;

/// What words say whose first is `serve`; None where they are refused. The only error is running out of memory.
pub fn serving_of(alloc: Global, words: &[String]) -> Result<Option<Serving>, AllocError>
    ensures { IfOk result (λ serving. asked_by_serving serving
        ≡ serve_asked (map string_bytes words.now)) }
{
    let found = serve_words(alloc, words)?;
    Ok(read_words(&found))
}

/// What words say whose first is `tables`; None where they are refused. The only error is running out of memory.
pub fn tables_of(alloc: Global, words: &[String]) -> Result<Option<Hosting>, AllocError>
    ensures { IfOk result (λ hosting. asked_by_hosting hosting
        ≡ tables_asked (map string_bytes words.now)) }
{
    let found = tables_words(alloc, words)?;
    Ok(read_tables(&found))
}

// What the words of `tables` say.
fn read_tables(words: &TablesWords<'_>) -> Option<Hosting>
    ensures { asked_by_hosting result ≡ tables_of_words words.now }
{
    Some(Hosting {
        rooms: number_of(words.rooms?, 1, MOST_ROOMS)? as u8,
        serving: read_words(&words.serving)?,
    })
}

// What the words of the options and of the flags say.
fn read_words(words: &ServeWords<'_>) -> Option<Serving>
    ensures { asked_by_serving result ≡ serving_of_words words.now }
{
    Some(Serving {
        seed: seed_of(words.seed?)?,
        limit: number_of(words.limit?, 1, LONGEST_LIMIT)?,
        port: number_of(words.port?, 1, u64::from(u16::MAX))? as u16,
        draws: is_true(words.draws),
        red: is_true(words.red),
    })
}

// The bytes that 64 hex digits write.
fn seed_of(word: &str) -> Option<[u8; 32]>
    ensures { result ≡ seed_named word.now }
{
    match <[u8; 32] as FromHex>::from_hex(word) {
        Ok(seed) => Some(seed),
        Err(_) => None,
    }
}

// The number that a word writes, where it lies between two others.
fn number_of(word: &str, least: u64, most: u64) -> Option<u64>
    ensures value { result ≡ number_named least most word.now }
    ensures within { IfSome result (λ number. (least ≤ number) × (number ≤ most)) }
{
    match read_number(word.as_bytes()) {
        Some(number) if least <= number && number <= most => Some(number),
        _ => None,
    }
}

// Whether a flag is there.
fn is_true(word: Option<&str>) -> bool
    ensures { result ≡ is_on (option_map (λ w. w.now) word.entry) }
{
    match word {
        Some(word) => word == "true",
        None => false,
    }
}
