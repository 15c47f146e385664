ghost use Rattle.std.specs.Prelude.{◌≡◌, IfOk};
ghost use Rattle.serde_json.specs.View.{view};
ghost use Rattle.mj_forms.specs.AnswerForms.{answer_of, answer_in as answer_read, answer_by as answer_of_type, pass_in as pass_read, discard_in as discard_read};
ghost use Rattle.mj_forms.specs.AnswerForms.{call_in as call_read, closed_kan_in as closed_kan_read, added_kan_in as added_kan_read};
ghost use Rattle.mj_forms.specs.AnswerForms.{with_three_tiles, with_four_tiles, pai_in as pai_read, pai_of as pai_of_text};
ghost use Rattle.mj_deeds.specs.declared.answer.Answer.TheVariants.{ClosedKan, AddedKan};
ghost use Rattle.mjai_answers.specs.Inner.Calls.{answer_of_call};

use crate::announcement::{nine_kinds_in, reach_in, win_in};
use crate::own::own_in;
use crate::usual::usual_answer;
use crate::value::{read_value, seat_as, seat_in, text_in};
use mj_deeds::{Answer, Pai};
use mj_tiles::Tile;
use serde_json::Value;
use std::alloc::{AllocError, Global};

/// What a line of a player reads as: a `none`, which may name its actor, a `dahai`, a call (`chi`, `pon`,
/// `daiminkan`), an own kan (`ankan`, `kakan`), a `reach`, a `hora`, which may name its tile, or a `ryukyoku`, which
/// may name its reason, `kyushukyuhai`; every other line is unread. An answer is an object with the fields of its
/// type in the right form: a seat is a whole number from 0 to 3, a tile one of the 37 texts or a question mark, and
/// the consumed tiles are as many as the type takes, in any order; they are read into tile order, hidden ones last.
/// Other fields are ignored, and of equal keys the last counts. The only error is running out of memory.
#[tactic(auto, unfolding(mj_forms::specs::AnswerForms::answer_of))]
pub fn read_answer(alloc: Global, line: &[u8]) -> Result<Answer, AllocError>
    ensures { IfOk result (λ a. a ≡ answer_of line.now) }
{
    if let Some(answer) = usual_answer(line) {
        return Ok(answer);
    }
    let Some(value) = read_value(alloc, line)? else {
        return Ok(Answer::Unread);
    };
    match answer_in(alloc, &value)? {
        Some(answer) => Ok(answer),
        None => Ok(Answer::Unread),
    }
}

// The answer that a value is.
#[tactic(auto, unfolding(mj_forms::specs::AnswerForms::answer_in))]
fn answer_in(alloc: Global, value: &Value) -> Result<Option<Answer>, AllocError>
    ensures { IfOk result (λ a. a ≡ answer_read (view value.now)) }
{
    match text_in("type", value) {
        Some(type_name) => answer_by(alloc, type_name, value),
        None => Ok(None),
    }
}

// The answer of that type that a value is.
fn answer_by(alloc: Global, type_name: &str, value: &Value) -> Result<Option<Answer>, AllocError>
    ensures { IfOk result (λ a. a ≡ answer_of_type type_name.now (view value.now)) }
{
    match type_name {
        "none" => Ok(pass_in(value)),
        "dahai" => Ok(discard_in(value)),
        "chi" => call_in(alloc, CallKind::Chi, value),
        "pon" => call_in(alloc, CallKind::Pon, value),
        "daiminkan" => call_in(alloc, CallKind::OpenKan, value),
        "ankan" => closed_kan_in(alloc, value),
        "kakan" => added_kan_in(alloc, value),
        "reach" => Ok(reach_in(value)),
        "hora" => Ok(win_in(value)),
        "ryukyoku" => Ok(nine_kinds_in(value)),
        _ => Ok(None),
    }
}

// The pass that a value is.
#[tactic(auto, unfolding(mj_forms::specs::AnswerForms::pass_in))]
fn pass_in(value: &Value) -> Option<Answer>
    ensures { result ≡ pass_read (view value.now) }
{
    match value.get("actor") {
        Some(actor) => Some(Answer::Pass {
            actor: Some(seat_as(actor)?),
        }),
        None => Some(Answer::Pass { actor: None }),
    }
}

// The discard that a value is.
#[tactic(auto, unfolding(mj_forms::specs::AnswerForms::discard_in))]
fn discard_in(value: &Value) -> Option<Answer>
    ensures { result ≡ discard_read (view value.now) }
{
    let actor = seat_in("actor", value)?;
    let tile = pai_in("pai", value)?;
    let drawn = value.get("tsumogiri")?.as_bool()?;
    Some(Answer::Discard { actor, tile, drawn })
}

// A call of a discard.
#[derive(Clone, Copy)]
pub(crate) enum CallKind {
    Chi,
    Pon,
    OpenKan,
}

// The call that a value is.
#[tactic(auto, unfolding(mj_forms::specs::AnswerForms::call_in))]
fn call_in(alloc: Global, call: CallKind, value: &Value) -> Result<Option<Answer>, AllocError>
    ensures { IfOk result (λ a. a ≡ call_read (answer_of_call call) (view value.now)) }
{
    let Some(actor) = seat_in("actor", value) else {
        return Ok(None);
    };
    let Some(target) = seat_in("target", value) else {
        return Ok(None);
    };
    let Some(tile) = pai_in("pai", value) else {
        return Ok(None);
    };
    match own_in(alloc, value)? {
        Some(own) => Ok(call_of(call, actor, target, tile, own.as_slice())),
        None => Ok(None),
    }
}

// The call with these own tiles, where they are as many as it takes: two for a chi or a pon, three for an open kan.
fn call_of(call: CallKind, actor: u8, target: u8, tile: Pai, own: &[Pai]) -> Option<Answer>
    ensures { result ≡ answer_of_call call actor target tile own.now }
{
    match (call, own) {
        (CallKind::Chi, [a, b]) => Some(Answer::Chi {
            actor,
            target,
            tile,
            a: *a,
            b: *b,
        }),
        (CallKind::Pon, [a, b]) => Some(Answer::Pon {
            actor,
            target,
            tile,
            a: *a,
            b: *b,
        }),
        (CallKind::OpenKan, [a, b, c]) => Some(Answer::OpenKan {
            actor,
            target,
            tile,
            a: *a,
            b: *b,
            c: *c,
        }),
        _ => None,
    }
}

// The kan of concealed tiles that a value is.
#[tactic(auto, unfolding(mj_forms::specs::AnswerForms::closed_kan_in))]
fn closed_kan_in(alloc: Global, value: &Value) -> Result<Option<Answer>, AllocError>
    ensures { IfOk result (λ a. a ≡ closed_kan_read (view value.now)) }
{
    let Some(actor) = seat_in("actor", value) else {
        return Ok(None);
    };
    match own_in(alloc, value)? {
        Some(own) => Ok(closed_kan_of(actor, own.as_slice())),
        None => Ok(None),
    }
}

// The kan of these concealed tiles, where they are four.
fn closed_kan_of(actor: u8, own: &[Pai]) -> Option<Answer>
    ensures { result ≡ with_four_tiles (λ a b c d. ClosedKan actor a b c d) own.now }
{
    match own {
        [a, b, c, d] => Some(Answer::ClosedKan {
            actor,
            a: *a,
            b: *b,
            c: *c,
            d: *d,
        }),
        _ => None,
    }
}

// The added kan that a value is.
#[tactic(auto, unfolding(mj_forms::specs::AnswerForms::added_kan_in))]
fn added_kan_in(alloc: Global, value: &Value) -> Result<Option<Answer>, AllocError>
    ensures { IfOk result (λ a. a ≡ added_kan_read (view value.now)) }
{
    let Some(actor) = seat_in("actor", value) else {
        return Ok(None);
    };
    let Some(tile) = pai_in("pai", value) else {
        return Ok(None);
    };
    match own_in(alloc, value)? {
        Some(own) => Ok(added_kan_of(actor, tile, own.as_slice())),
        None => Ok(None),
    }
}

// The added kan with this triplet, where it has three tiles.
fn added_kan_of(actor: u8, tile: Pai, own: &[Pai]) -> Option<Answer>
    ensures { result ≡ with_three_tiles (λ a b c. AddedKan actor tile a b c) own.now }
{
    match own {
        [a, b, c] => Some(Answer::AddedKan {
            actor,
            tile,
            a: *a,
            b: *b,
            c: *c,
        }),
        _ => None,
    }
}

// The tile that a field names.
#[tactic(auto, unfolding(mj_forms::specs::AnswerForms::pai_in))]
fn pai_in(name: &str, value: &Value) -> Option<Pai>
    ensures { result ≡ pai_read name.now (view value.now) }
{
    pai_of(text_in(name, value)?.as_bytes())
}

// The tile that a text names.
#[tactic(auto, unfolding(mj_forms::specs::AnswerForms::pai_of))]
pub(crate) fn pai_of(text: &[u8]) -> Option<Pai>
    ensures { result ≡ pai_of_text text.now }
{
    if text == b"?".as_slice() {
        return Some(Pai::Hidden);
    }
    Some(Pai::Known(Tile::read(text)?))
}
