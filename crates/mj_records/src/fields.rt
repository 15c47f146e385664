//! Fields that begin a text: each gives its value and what stands after it. What a field is followed by is not looked at.

ghost use Rattle.std.specs.Prelude.{◌≡◌, ◌<◌, ◌≤◌, ◌^◌, length, take, drop, option_map, option_and_then, pos};
ghost use Rattle.mj_records.specs.Inner.Fields.{digits_front, behind_digits, below, number_at, signed_at, negative_of, and_rest, points_at, quoted_at};
ghost use Rattle.mj_records.specs.Inner.Fields.{tile_at, truth_at, byte_field, word_field, tile_field, truth_field, points_field, signed_field};

use mj_bytes::{read_number, split_at_first, strip};
use mj_tiles::Tile;

/// A number below 2^8 after a key.
#[tactic(auto, unfolding(crate::specs::Inner::Fields::byte_field, crate::specs::Inner::Fields::below_at))]
pub(crate) fn byte_field<'a>(text: &'a [u8], key: &[u8]) -> Option<(u8, &'a [u8])>
    ensures { option_map (λ x. (x.0, x.1.now)) result ≡ byte_field key.now text.now }
{
    let (number, rest) = number_at(strip(text, key)?)?;
    Some((byte_of(number)?, rest))
}

/// A number below 2^32 after a key.
#[tactic(auto, unfolding(crate::specs::Inner::Fields::word_field, crate::specs::Inner::Fields::below_at))]
pub(crate) fn word_field<'a>(text: &'a [u8], key: &[u8]) -> Option<(u32, &'a [u8])>
    ensures { option_map (λ x. (x.0, x.1.now)) result ≡ word_field key.now text.now }
{
    let (number, rest) = number_at(strip(text, key)?)?;
    Some((word_of(number)?, rest))
}

/// A tile after a key.
#[tactic(auto, unfolding(crate::specs::Inner::Fields::tile_field))]
pub(crate) fn tile_field<'a>(text: &'a [u8], key: &[u8]) -> Option<(Tile, &'a [u8])>
    ensures { option_map (λ x. (x.0, x.1.now)) result ≡ tile_field key.now text.now }
{
    tile_at(strip(text, key)?)
}

/// `true` or `false` after a key.
#[tactic(auto, unfolding(crate::specs::Inner::Fields::truth_field))]
pub(crate) fn truth_field<'a>(text: &'a [u8], key: &[u8]) -> Option<(bool, &'a [u8])>
    ensures { option_map (λ x. (x.0, x.1.now)) result ≡ truth_field key.now text.now }
{
    truth_at(strip(text, key)?)
}

/// Points of the four seats, in brackets, after a key.
#[tactic(auto, unfolding(crate::specs::Inner::Fields::points_field))]
pub(crate) fn points_field<'a>(text: &'a [u8], key: &[u8]) -> Option<([i32; 4], &'a [u8])>
    ensures { option_map (λ x. (x.0, x.1.now)) result ≡ points_field key.now text.now }
{
    points_at(strip(text, key)?)
}

/// A text in quotation marks.
#[tactic(auto, using(crate::proofs::FieldLaws::quotes), unfolding(crate::specs::Inner::Fields::quoted_at))]
pub(crate) fn quoted_at(text: &[u8]) -> Option<(&[u8], &[u8])>
    ensures { option_map (λ x. (x.0.now, x.1.now)) result ≡ quoted_at text.now }
{
    split_at_first(strip(text, b"\"")?, b'"')
}

/// A tile in quotation marks.
#[tactic(auto, unfolding(crate::specs::Inner::Fields::tile_at))]
pub(crate) fn tile_at(text: &[u8]) -> Option<(Tile, &[u8])>
    ensures { option_map (λ x. (x.0, x.1.now)) result ≡ tile_at text.now }
{
    let (name, rest) = quoted_at(text)?;
    Some((Tile::read(name)?, rest))
}

// `true` or `false`.
#[tactic(auto, unfolding(crate::specs::Inner::Fields::truth_at))]
fn truth_at(text: &[u8]) -> Option<(bool, &[u8])>
    ensures { option_map (λ x. (x.0, x.1.now)) result ≡ truth_at text.now }
{
    if let Some(rest) = strip(text, b"true") {
        return Some((true, rest));
    }
    match strip(text, b"false") {
        Some(rest) => Some((false, rest)),
        None => None,
    }
}

// Points of the four seats, in brackets.
#[tactic(auto, unfolding(crate::specs::Inner::Fields::points_at))]
fn points_at(text: &[u8]) -> Option<([i32; 4], &[u8])>
    ensures { option_map (λ x. (x.0, x.1.now)) result ≡ points_at text.now }
{
    let (first, rest) = signed_field(text, b"[")?;
    let (second, rest) = signed_field(rest, b",")?;
    let (third, rest) = signed_field(rest, b",")?;
    let (fourth, rest) = signed_field(rest, b",")?;
    let rest = strip(rest, b"]")?;
    Some(([first, second, third, fourth], rest))
}

// A signed number after a key.
#[tactic(auto, unfolding(crate::specs::Inner::Fields::signed_field))]
fn signed_field<'a>(text: &'a [u8], key: &[u8]) -> Option<(i32, &'a [u8])>
    ensures { option_map (λ x. (x.0, x.1.now)) result ≡ signed_field key.now text.now }
{
    signed_at(strip(text, key)?)
}

// A signed number, with `-` before a negative one, from -2^31 to 2^31 - 1.
#[tactic(auto, unfolding(crate::specs::Inner::Fields::signed_at))]
fn signed_at(text: &[u8]) -> Option<(i32, &[u8])>
    ensures { option_map (λ x. (x.0, x.1.now)) result ≡ signed_at text.now }
{
    if let Some(size) = strip(text, b"-") {
        return negative_at(size);
    }
    let (number, rest) = number_at(text)?;
    Some((half_of(number)?, rest))
}

// The negative number of a size from 1 to 2^31.
fn negative_at(text: &[u8]) -> Option<(i32, &[u8])>
    ensures { option_map (λ x. (x.0, x.1.now)) result ≡ option_and_then (and_rest negative_of) (number_at text.now) }
{
    let (size, rest) = number_at(text)?;
    let below = half_of(size.checked_sub(1)?)?;
    Some((!below, rest))
}

// A number in decimal digits, from 0 to 2^64 - 1.
#[tactic(auto, unfolding(crate::specs::Inner::Fields::number_at))]
fn number_at(text: &[u8]) -> Option<(u64, &[u8])>
    ensures { option_map (λ x. (x.0, x.1.now)) result ≡ number_at text.now }
{
    let (digits, rest) = text.split_at(digits_end(text));
    let number = read_number(digits)?;
    Some((number, rest))
}

// How many digits a text begins with.
#[tactic(auto, using(crate::proofs::FieldLaws::digit_steps))]
fn digits_end(text: &[u8]) -> usize
    ensures within { result ≤ length text.now }
    ensures front { take result text.now ≡ digits_front text.now }
    ensures behind { drop result text.now ≡ behind_digits text.now }
{
    for (at, byte) in text.iter().enumerate() {
        if !byte.is_ascii_digit() {
            return at;
        }
    }
    text.len()
}

fn byte_of(number: u64) -> Option<u8>
    ensures { result ≡ below (2 ^ 8) number }
{
    if number > u64::from(u8::MAX) {
        return None;
    }
    Some(number as u8)
}

fn word_of(number: u64) -> Option<u32>
    ensures { result ≡ below (2 ^ 32) number }
{
    if number > u64::from(u32::MAX) {
        return None;
    }
    Some(number as u32)
}

fn half_of(number: u64) -> Option<i32>
    ensures { result ≡ option_map pos (below (2 ^ 31) number) }
{
    if number > i32::MAX as u64 {
        return None;
    }
    Some(number as i32)
}
