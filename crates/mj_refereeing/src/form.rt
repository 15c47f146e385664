//! The forms that a line of the arrivals may have.

ghost use Rattle.std.specs.Prelude.{◌≡◌, ◌<◌, ◌^◌, ◌+◌, ◌++◌, ◌∷◌, IfOk, IfSome, MatchOption, codes};
ghost use Rattle.std.specs.Option.{SomeIff, option_map_or};
ghost use Rattle.mj_bytes.specs.Numbers.{decimal_of};
ghost use Rattle.mj_bytes.specs.Parts.{BeginsWithLine, HasNoLine, fields, parted};
ghost use Rattle.mj_history.specs.Arrivals.{Header, WallOf, Leave, NoForm, form_of, numbers_in};
ghost use Rattle.mj_forms.specs.Headers.{rules_of, tiles_in};
ghost use Rattle.mj_history.specs.Arrivals.{form_by as form_meant, sit_form as sit_meant, say_form as say_meant, expire_form as expire_meant};
ghost use Rattle.mj_refereeing.specs.Inner.Forms.{meaning, expiry_meant, HasLimit, line_of, IsOfSeat};

use mj_bytes::{read_number, split_line, split_space};
use mj_tiles::Tile;
use mj_wall::Rules;
use mjai_answers::{read_rules, read_tiles, three_fields};
use std::alloc::{AllocError, Global};

/// The most bytes that the line of a player may have.
const LINE_LIMIT: usize = 4095;

/// The form of a line, and what stands in it.
#[derive(Drop)]
pub(crate) enum ArrivalForm<'a> {
    /// `game` and the rules of the game.
    Header(Rules),
    /// `wall` and tiles, which need not make a wall.
    Wall(Vec<Tile>),
    /// `sit` and the line of one that wants a seat.
    Sit(&'a [u8]),
    /// `say`, a seat, and the line that it says.
    Say { seat: u64, line: &'a [u8] },
    /// `gone` and a seat.
    Leave(u64),
    /// `expire`, the number of a window, and two readings of a clock in milliseconds.
    Expire { window: u32, t1: u64, t2: u64 },
    /// None of these.
    NoForm,
}

/// The first line of what arrives.
#[derive(Clone, Copy)]
pub(crate) enum FirstLine<'a> {
    /// A seat, 0 to 3, says that it passes, and names no actor: the line is spelled as most passes are.
    Pass(u8),
    /// Any line, without its newline.
    Other(&'a [u8]),
}

/// The first line of a text, and all that follows its newline; none where the text has no whole line. Most lines are passes:
/// these are seen before a line is searched for its end.
pub(crate) fn first_line(text: &[u8]) -> Option<(FirstLine<'_>, &[u8])>
    ensures line { MatchOption result (HasNoLine text.now)
        (λ x. BeginsWithLine text.now (line_of x.0) x.1.now) }
    ensures seat { IfSome result (λ x. IsOfSeat x.0) }
{
    if let Some((seat, rest)) = pass_first(text) {
        return Some((FirstLine::Pass(seat), rest));
    }
    match split_line(text) {
        Some((line, rest)) => Some((FirstLine::Other(line), rest)),
        None => None,
    }
}

// The seat that passes by the first line of a text, in its usual spelling, and what follows the line's newline; none where
// another line stands first.
fn pass_first(text: &[u8]) -> Option<(u8, &[u8])>
    ensures within { IfSome result (λ x. x.0 < 4) }
    ensures parts { IfSome result (λ x. text.now
        ≡ codes "say " ++ (48 + x.0) ∷ codes " {\"type\":\"none\"}\n" ++ x.1.now) }
{
    match text {
        [
            b's',
            b'a',
            b'y',
            b' ',
            digit @ b'0'..=b'3',
            b' ',
            b'{',
            b'"',
            b't',
            b'y',
            b'p',
            b'e',
            b'"',
            b':',
            b'"',
            b'n',
            b'o',
            b'n',
            b'e',
            b'"',
            b'}',
            b'\n',
            rest @ ..,
        ] => Some((*digit - b'0', rest)),
        _ => None,
    }
}

/// The form of a line, which stands here without its newline.
#[tactic(auto, unfolding(mj_history::specs::Arrivals::form_of))]
pub(crate) fn read_form(alloc: Global, line: &[u8]) -> Result<ArrivalForm<'_>, AllocError>
    ensures form { IfOk result (λ form. meaning form ≡ form_of line.now) }
    ensures limit { IfOk result (λ form. HasLimit form) }
{
    if let Some((seat, said)) = say_first(line) {
        if said.len() <= LINE_LIMIT {
            let seat = u64::from(seat);
            return Ok(ArrivalForm::Say { seat, line: said });
        }
    }
    match split_space(line) {
        Some((word, text)) => form_by(alloc, word, text),
        None => Ok(ArrivalForm::NoForm),
    }
}

// The seat and the line of a seat that says one, as most arrivals do: these are seen byte by byte.
fn say_first(line: &[u8]) -> Option<(u8, &[u8])>
    ensures within { IfSome result (λ x. x.0 < 4) }
    ensures parts { IfSome result (λ x. line.now ≡ codes "say " ++ (48 + x.0) ∷ 32 ∷ x.1.now) }
{
    match line {
        [b's', b'a', b'y', b' ', digit @ b'0'..=b'3', b' ', said @ ..] => Some((
            *digit - b'0',
            said,
        )),
        _ => None,
    }
}

// The form of a line by its first word and what follows it.
#[tactic(auto, unfolding(mj_history::specs::Arrivals::form_by))]
fn form_by<'a>(alloc: Global, word: &[u8], text: &'a [u8]) -> Result<ArrivalForm<'a>, AllocError>
    ensures form { IfOk result (λ form. meaning form ≡ form_meant word.now text.now) }
    ensures limit { IfOk result (λ form. HasLimit form) }
{
    if word == b"game".as_slice() {
        return Ok(header_form(text));
    }
    if word == b"wall".as_slice() {
        return wall_form(alloc, text);
    }
    if word == b"sit".as_slice() {
        return Ok(sit_form(text));
    }
    if word == b"say".as_slice() {
        return Ok(say_form(text));
    }
    if word == b"gone".as_slice() {
        return Ok(leave_form(text));
    }
    if word == b"expire".as_slice() {
        return Ok(expire_form(text));
    }
    Ok(ArrivalForm::NoForm)
}

fn header_form(text: &[u8]) -> ArrivalForm<'_>
    ensures form { meaning result ≡ option_map_or Header (rules_of (fields text.now)) NoForm }
    ensures limit { HasLimit result }
{
    match read_rules(text) {
        Some(rules) => ArrivalForm::Header(rules),
        None => ArrivalForm::NoForm,
    }
}

fn wall_form<'a>(alloc: Global, text: &[u8]) -> Result<ArrivalForm<'a>, AllocError>
    ensures form { IfOk result (λ form. meaning form
        ≡ option_map_or WallOf (tiles_in (fields text.now)) NoForm) }
    ensures limit { IfOk result (λ form. HasLimit form) }
{
    match read_tiles(alloc, text)? {
        Some(tiles) => Ok(ArrivalForm::Wall(tiles)),
        None => Ok(ArrivalForm::NoForm),
    }
}

fn sit_form(line: &[u8]) -> ArrivalForm<'_>
    ensures form { meaning result ≡ sit_meant line.now }
    ensures limit { HasLimit result }
{
    if line.len() > LINE_LIMIT {
        return ArrivalForm::NoForm;
    }
    ArrivalForm::Sit(line)
}

fn say_form(text: &[u8]) -> ArrivalForm<'_>
    ensures form { meaning result ≡ say_meant (parted text.now) }
    ensures limit { HasLimit result }
{
    let Some((seat, line)) = split_space(text) else {
        return ArrivalForm::NoForm;
    };
    let Some(seat) = read_number(seat) else {
        return ArrivalForm::NoForm;
    };
    if line.len() > LINE_LIMIT {
        return ArrivalForm::NoForm;
    }
    ArrivalForm::Say { seat, line }
}

fn leave_form<'a>(text: &[u8]) -> ArrivalForm<'a>
    ensures form { meaning result ≡ option_map_or Leave (decimal_of text.now) NoForm }
    ensures limit { HasLimit result }
{
    match read_number(text) {
        Some(seat) => ArrivalForm::Leave(seat),
        None => ArrivalForm::NoForm,
    }
}

fn expire_form<'a>(text: &[u8]) -> ArrivalForm<'a>
    ensures form { meaning result ≡ expire_meant (numbers_in (fields text.now)) }
    ensures limit { HasLimit result }
{
    match read_expiry(text) {
        Some((window, t1, t2)) => ArrivalForm::Expire { window, t1, t2 },
        None => ArrivalForm::NoForm,
    }
}

// The window, below 2^32, and the two readings that three fields say.
#[tactic(auto, using(crate::proofs::FieldLaws::expiries))]
fn read_expiry(text: &[u8]) -> Option<(u32, u64, u64)>
    ensures { expiry_meant result ≡ expire_meant (numbers_in (fields text.now)) }
{
    let (window, t1, t2) = three_fields(text)?;
    let window = read_number(window)?;
    let t1 = read_number(t1)?;
    let t2 = read_number(t2)?;
    Some((window_below(window)?, t1, t2))
}

// The number of a window, where it is below 2^32.
fn window_below(number: u64) -> Option<u32>
    ensures { SomeIff result (number < 2 ^ 32) number }
{
    if number > u64::from(u32::MAX) {
        return None;
    }
    Some(number as u32)
}
