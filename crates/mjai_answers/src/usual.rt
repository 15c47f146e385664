// Answers in their usual spelling, which are read without JSON, each without spaces and with its fields in one order: a pass,
// a discard by its actor, the tile and the mark, a reach by its actor, a win by its actor, the target and the tile, and a pon
// by these and two own tiles of one text.
ghost use Rattle.std.specs.Prelude.{◌≡◌, ◌∷◌, ◌++◌, IfSome, IsTrue, codes};
ghost use Rattle.mj_forms.specs.AnswerForms.{answer_of};
ghost use Rattle.mj_forms.specs.Lines.{truth};
ghost use Rattle.mjai_answers.specs.Fronts.{BeginsWithSeat};
ghost use Rattle.mjai_answers.specs.Inner.Spellings.{tile_front, mark_text};

use crate::answer::pai_of;
use mj_bytes::split_at_first;
use mj_deeds::Answer;

// The answer of a line in its usual spelling; none where it is spelled in another way.
pub(crate) fn usual_answer(line: &[u8]) -> Option<Answer>
    ensures { IfSome result (λ answer. answer ≡ answer_of line.now) }
{
    match usual_pass(line) {
        Some(answer) => Some(answer),
        None => match usual_discard(line) {
            Some(answer) => Some(answer),
            None => usual_act(line),
        },
    }
}

// The reach, the win or the pon of a line in its usual spelling.
fn usual_act(line: &[u8]) -> Option<Answer>
    ensures { IfSome result (λ answer. answer ≡ answer_of line.now) }
{
    match usual_reach(line) {
        Some(answer) => Some(answer),
        None => match usual_win(line) {
            Some(answer) => Some(answer),
            None => usual_pon(line),
        },
    }
}

// The pass of a line in its usual spelling.
fn usual_pass(line: &[u8]) -> Option<Answer>
    ensures { IfSome result (λ answer. answer ≡ answer_of line.now) }
{
    let rest = type_first(line)?;
    let rest = none_first(rest)?;
    if is_end(rest) {
        return Some(Answer::Pass { actor: None });
    }
    let rest = actor_first(rest)?;
    let (actor, rest) = seat_first(rest)?;
    if is_end(rest) {
        return Some(Answer::Pass { actor: Some(actor) });
    }
    None
}

// Whether nothing but the end of an object is left.
fn is_end(text: &[u8]) -> bool
    ensures { IsTrue result → text.now ≡ codes "}" }
{
    matches!(text, [b'}'])
}

// The discard of a line in its usual spelling.
fn usual_discard(line: &[u8]) -> Option<Answer>
    ensures { IfSome result (λ answer. answer ≡ answer_of line.now) }
{
    let rest = type_first(line)?;
    let rest = dahai_first(rest)?;
    let rest = actor_first(rest)?;
    let (actor, rest) = seat_first(rest)?;
    let rest = tile_first(rest)?;
    let (text, drawn) = mark_last(rest)?;
    let tile = pai_of(text)?;
    Some(Answer::Discard { actor, tile, drawn })
}

// What stands after the key of a type. Most lines are passes and discards, so these are seen byte by byte.
fn type_first(line: &[u8]) -> Option<&[u8]>
    ensures { IfSome result (λ rest. line.now ≡ codes "{\"type\":\"" ++ rest.now) }
{
    match line {
        [
            b'{',
            b'"',
            b't',
            b'y',
            b'p',
            b'e',
            b'"',
            b':',
            b'"',
            rest @ ..,
        ] => Some(rest),
        _ => None,
    }
}

// What stands after the type of a pass.
fn none_first(text: &[u8]) -> Option<&[u8]>
    ensures { IfSome result (λ rest. text.now ≡ codes "none\"" ++ rest.now) }
{
    match text {
        [b'n', b'o', b'n', b'e', b'"', rest @ ..] => Some(rest),
        _ => None,
    }
}

// What stands after the type of a discard.
fn dahai_first(text: &[u8]) -> Option<&[u8]>
    ensures { IfSome result (λ rest. text.now ≡ codes "dahai\"" ++ rest.now) }
{
    match text {
        [b'd', b'a', b'h', b'a', b'i', b'"', rest @ ..] => Some(rest),
        _ => None,
    }
}

// What stands after the key of an actor.
fn actor_first(text: &[u8]) -> Option<&[u8]>
    ensures { IfSome result (λ rest. text.now ≡ codes ",\"actor\":" ++ rest.now) }
{
    match text {
        [
            b',',
            b'"',
            b'a',
            b'c',
            b't',
            b'o',
            b'r',
            b'"',
            b':',
            rest @ ..,
        ] => Some(rest),
        _ => None,
    }
}

// What stands after the key of a tile.
fn tile_first(text: &[u8]) -> Option<&[u8]>
    ensures { IfSome result (λ rest. text.now ≡ tile_front ++ rest.now) }
{
    match text {
        [b',', b'"', b'p', b'a', b'i', b'"', b':', b'"', rest @ ..] => Some(rest),
        _ => None,
    }
}

// The reach of a line in its usual spelling.
fn usual_reach(line: &[u8]) -> Option<Answer>
    ensures { IfSome result (λ answer. answer ≡ answer_of line.now) }
{
    let rest = line.strip_prefix(b"{\"type\":\"reach\",\"actor\":")?;
    let (actor, rest) = seat_first(rest)?;
    if rest == b"}".as_slice() {
        return Some(Answer::Reach { actor });
    }
    None
}

// The win of a line in its usual spelling.
fn usual_win(line: &[u8]) -> Option<Answer>
    ensures { IfSome result (λ answer. answer ≡ answer_of line.now) }
{
    let rest = line.strip_prefix(b"{\"type\":\"hora\",\"actor\":")?;
    let (actor, rest) = seat_first(rest)?;
    let rest = rest.strip_prefix(b",\"target\":")?;
    let (target, rest) = seat_first(rest)?;
    let rest = rest.strip_prefix(b",\"pai\":\"")?;
    let text = rest.strip_suffix(b"\"}")?;
    let tile = pai_of(text)?;
    Some(Answer::Win {
        actor,
        target,
        tile: Some(tile),
    })
}

// The pon of a line in its usual spelling, of two tiles of one text.
fn usual_pon(line: &[u8]) -> Option<Answer>
    ensures { IfSome result (λ answer. answer ≡ answer_of line.now) }
{
    let rest = line.strip_prefix(b"{\"type\":\"pon\",\"actor\":")?;
    let (actor, rest) = seat_first(rest)?;
    let rest = rest.strip_prefix(b",\"target\":")?;
    let (target, rest) = seat_first(rest)?;
    let rest = rest.strip_prefix(b",\"pai\":\"")?;
    let (text, rest) = text_first(rest)?;
    let rest = rest.strip_prefix(b",\"consumed\":[\"")?;
    let (first, rest) = text_first(rest)?;
    let rest = rest.strip_prefix(b",\"")?;
    let (second, rest) = text_first(rest)?;
    let tile = pai_of(text)?;
    let own = pai_of(first)?;
    let twin = own;
    if second == first && rest == b"]}".as_slice() {
        return Some(Answer::Pon {
            actor,
            target,
            tile,
            a: own,
            b: twin,
        });
    }
    None
}

// The text before the first quotation mark, as that of a tile is, and what stands after the mark.
fn text_first(text: &[u8]) -> Option<(&[u8], &[u8])>
    ensures { IfSome result (λ x. text.now ≡ x.0.now ++ 34 ∷ x.1.now) }
{
    let (first, rest) = split_at_first(text, b'"')?;
    Some((first, rest))
}

/// The seat, 0 to 3, that a text begins with as a digit, and what stands behind it; None where it begins otherwise.
pub fn seat_first(text: &[u8]) -> Option<(u8, &[u8])>
    ensures { IfSome result (λ x. BeginsWithSeat text.now x.0 x.1.now) }
{
    match text {
        [digit @ b'0'..=b'3', rest @ ..] => Some((*digit - b'0', rest)),
        _ => None,
    }
}

// What stands before the mark that a discard ends with, and the mark: whether the tile is the drawn one.
#[tactic(auto, using(crate::proofs::Texts::mark_ends))]
fn mark_last(text: &[u8]) -> Option<(&[u8], bool)>
    ensures { IfSome result (λ x. text.now ≡ x.0.now ++ mark_text x.1) }
{
    let (named, rest) = text_first(text)?;
    let value = mark_first(rest)?;
    let drawn = truth_alone(value)?;
    Some((named, drawn))
}

// What stands after the key of the mark.
fn mark_first(text: &[u8]) -> Option<&[u8]>
    ensures { IfSome result (λ rest. text.now ≡ codes ",\"tsumogiri\":" ++ rest.now) }
{
    match text {
        [
            b',',
            b'"',
            b't',
            b's',
            b'u',
            b'm',
            b'o',
            b'g',
            b'i',
            b'r',
            b'i',
            b'"',
            b':',
            rest @ ..,
        ] => Some(rest),
        _ => None,
    }
}

// The value that a discard ends with.
fn truth_alone(text: &[u8]) -> Option<bool>
    ensures { IfSome result (λ drawn. text.now ≡ truth drawn ++ codes "}") }
{
    match text {
        [b't', b'r', b'u', b'e', b'}'] => Some(true),
        [b'f', b'a', b'l', b's', b'e', b'}'] => Some(false),
        _ => None,
    }
}
