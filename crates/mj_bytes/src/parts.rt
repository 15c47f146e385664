//! Parts of a text by a byte: lines, which each end with a newline, and fields, which single spaces part.

ghost use Rattle.std.specs.Prelude.{◌≡◌, ◌<◌, ◌+◌, false, length, take, drop, IfSome, MatchOption, option_map};
ghost use Rattle.std.specs.Option.{option_copied};
ghost use Rattle.mj_bytes.specs.Parts.{has_byte, PartsAtFirst, BeginsWithPart, IsOnePart, BeginsWithLine, HasNoLine, BeginsWithField, IsOneField, parted, behind};

use memchr::memchr;

/// The first part of a text by a byte, without the byte, and all that follows the byte; none where the text doesn't have the
/// byte, and so is one part.
#[tactic(auto, using(crate::proofs::PartLaws::begins_with_part, crate::proofs::PartLaws::is_one_part))]
pub fn split_at_first(text: &[u8], byte: u8) -> Option<(&[u8], &[u8])>
    ensures { MatchOption result (IsOnePart byte text.now)
        (λ x. BeginsWithPart byte text.now x.0.now x.1.now) }
{
    cut_at_first(text, byte)
}

/// The first line of a text, without its newline, and all that follows the newline; none where the
/// text has no newline, and so no whole line.
#[tactic(auto, using(crate::proofs::PartLaws::begins_with_line, crate::proofs::PartLaws::has_no_line))]
pub fn split_line(text: &[u8]) -> Option<(&[u8], &[u8])>
    ensures { MatchOption result (HasNoLine text.now)
        (λ x. BeginsWithLine text.now x.0.now x.1.now) }
{
    cut_at_newline(text)
}

/// The first field of a text, without the space after it, and all that follows the space; none where
/// the text has no space, and so is one field.
#[tactic(auto, using(crate::proofs::PartLaws::space_splits))]
pub fn split_space(text: &[u8]) -> Option<(&[u8], &[u8])>
    ensures cases { MatchOption result (IsOneField text.now)
        (λ x. BeginsWithField text.now x.0.now x.1.now) }
    ensures parts { option_map (λ x. (x.0.now, x.1.now)) result ≡ parted text.now }
{
    let Some((field, rest)) = cut_at_first(text, b' ') else {
        return None;
    };
    Some((field, rest))
}

/// What stands after a beginning of a text; none where the text doesn't begin so.
#[tactic(auto, using(crate::proofs::PartLaws::strips))]
pub fn strip<'a>(text: &'a [u8], beginning: &[u8]) -> Option<&'a [u8]>
    ensures { option_copied result ≡ behind beginning.now text.now }
{
    let Some(rest) = text.strip_prefix(beginning) else {
        return None;
    };
    Some(rest)
}

// The search goes byte by byte: a part is mostly short.
#[tactic(auto, using(crate::proofs::PartLaws::search_steps))]
fn cut_at_first(text: &[u8], byte: u8) -> Option<(&[u8], &[u8])>
    ensures { MatchOption result (has_byte byte text.now ≡ false)
        (λ x. PartsAtFirst byte text.now x.0.now x.1.now) }
{
    for (at, found) in text.iter().enumerate() {
        if *found == byte {
            return Some((&text[..at], &text[at + 1..]));
        }
    }
    None
}

// A line is mostly long, so its newline is searched for by vectors.
fn cut_at_newline(text: &[u8]) -> Option<(&[u8], &[u8])>
    ensures { MatchOption result (has_byte 10 text.now ≡ false)
        (λ x. PartsAtFirst 10 text.now x.0.now x.1.now) }
{
    match line_end(text) {
        Some(end) => Some((&text[..end], &text[end + 1..])),
        None => None,
    }
}

// The place of the first newline of a text.
#[tactic(auto, using(crate::proofs::PartLaws::searches))]
fn line_end(text: &[u8]) -> Option<usize>
    ensures within { IfSome result (λ end. end < length text.now) }
    ensures first { MatchOption result (has_byte 10 text.now ≡ false)
        (λ end. PartsAtFirst 10 text.now (take end text.now) (drop (end + 1) text.now)) }
{
    memchr(b'\n', text)
}
