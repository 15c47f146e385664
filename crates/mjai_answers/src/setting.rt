//! What a header and a wall line say: the rules of a game, and tiles.

ghost use Rattle.std.specs.Prelude.{◌≡◌, ◌≤◌, ◌+◌, ◌-◌, ◌*◌, IfOk, IfSome, MatchOption, codes, option_and_then, option_map};
ghost use Rattle.mj_bytes.specs.Numbers.{decimal_of};
ghost use Rattle.mj_bytes.specs.Parts.{fields, behind, IsOneField};
ghost use Rattle.mj_forms.specs.Headers.{rules_of, tiles_in, limit_of, switch_of};
ghost use Rattle.mjai_answers.specs.Settings.{three_of, BeginsWithTile, IsLimited};

use mj_bytes::{read_number, split_space, strip};
use mj_tiles::Tile;
use mj_wall::Rules;
use std::alloc::{AllocError, Global};

/// The rules that three fields say: the limit of a window in milliseconds, from 1 to 3600000, and the two switches of
/// draws and of red fives; none where the text says no rules.
#[tactic(auto, using(crate::proofs::Settings::rules_of_others), unfolding(mj_forms::specs::Headers::rules_of))]
pub fn read_rules(text: &[u8]) -> Option<Rules>
    ensures rules { result ≡ rules_of (fields text.now) }
    ensures limit { IfSome result IsLimited }
{
    let (limit, draws, red) = three_fields(text)?;
    Some(Rules {
        limit: read_limit(limit)?,
        draws: read_switch(draws, b"draws=")?,
        red: read_switch(red, b"red=")?,
    })
}

/// The tiles that the fields of a text name; none where a field names no tile. The only error is running out of memory.
#[tactic(auto, using(crate::proofs::Settings::reading))]
pub fn read_tiles(alloc: Global, text: &[u8]) -> Result<Option<Vec<Tile>>, AllocError>
    ensures { IfOk result (λ tiles. option_map (λ t. t.items) tiles ≡ tiles_in (fields text.now)) }
{
    let mut tiles = Vec::with_capacity(alloc, text.len() / 2 + 1)?;
    let mut rest = text;
    while let Some((named, others)) = next_tile(rest) {
        let Some(tile) = named else {
            return Ok(None);
        };
        tiles.push_reserved(tile);
        rest = others;
    }
    let Some(tile) = Tile::read(rest) else {
        return Ok(None);
    };
    tiles.push_reserved(tile);
    Ok(Some(tiles))
}

/// The fields of a text that has three; none where it has fewer or more.
#[tactic(auto, using(crate::proofs::Settings::three_fields))]
pub fn three_fields(text: &[u8]) -> Option<(&[u8], &[u8], &[u8])>
    ensures { option_map (λ x. (x.0.now, x.1.now, x.2.now)) result ≡ three_of (fields text.now) }
{
    let (first, others) = split_space(text)?;
    let (second, third) = split_space(others)?;
    match split_space(third) {
        Some(_) => None,
        None => Some((first, second, third)),
    }
}

// The tile that the first field of a text names, where it names one, and all that follows its space; none where the text is
// one field. A field of one byte or two, as the text of most tiles is, is seen without a search.
#[tactic(auto, using(crate::proofs::Settings::ahead))]
fn next_tile(text: &[u8]) -> Option<(Option<Tile>, &[u8])>
    ensures { MatchOption result (IsOneField text.now) (λ x. BeginsWithTile text.now x.0 x.1.now) }
{
    match text {
        [digit @ b'1'..=b'9', b'm', b' ', rest @ ..] => Some((Some(plain(*digit, 0)), rest)),
        [digit @ b'1'..=b'9', b'p', b' ', rest @ ..] => Some((Some(plain(*digit, 1)), rest)),
        [digit @ b'1'..=b'9', b's', b' ', rest @ ..] => Some((Some(plain(*digit, 2)), rest)),
        [b'A'..=b'Z', b' ', rest @ ..] => Some((Tile::read(&text[..1]), rest)),
        _ => {
            let (field, rest) = split_space(text)?;
            Some((Tile::read(field), rest))
        }
    }
}

// The plain tile of a digit from 1 to 9 in a suit: 0 are characters, 1 circles and 2 bamboo.
fn plain(digit: u8, suit: u8) -> Tile
    requires digit { (49 ≤ digit) × (digit ≤ 57) }
    requires suit { suit ≤ 2 }
    ensures { result ≡ 9 * suit + (digit - 49) }
{
    Tile::at(9 * suit + (digit - b'1'))
}

// A limit of 1 to 3600000 milliseconds.
fn read_limit(field: &[u8]) -> Option<u64>
    ensures value { result ≡ option_and_then limit_of
        (option_and_then decimal_of (behind (codes "limit=") field.now)) }
    ensures bound { IfSome result (λ limit. (1 ≤ limit) × (limit ≤ 3600000)) }
{
    let limit = read_number(strip(field, b"limit=")?)?;
    if (1..=3_600_000).contains(&limit) {
        return Some(limit);
    }
    None
}

// A switch under a name, `0` or `1`.
fn read_switch(field: &[u8], name: &[u8]) -> Option<bool>
    ensures { result ≡ option_and_then switch_of (behind name.now field.now) }
{
    match strip(field, name)? {
        b"0" => Some(false),
        b"1" => Some(true),
        _ => None,
    }
}
