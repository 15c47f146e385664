// What a seat announces: a reach, a win, or nine kinds of terminals and honours.
ghost use Rattle.std.specs.Prelude.{◌≡◌, codes};
ghost use Rattle.serde_json.specs.View.{view};
ghost use Rattle.serde_json.specs.Find.{get};
ghost use Rattle.mj_forms.specs.AnswerForms.{reach_in as reach_read, win_in as win_read, nine_kinds_in as nine_kinds_read, optional_pai, is_nine_kinds};

use crate::answer::pai_of;
use crate::value::seat_in;
use mj_deeds::{Answer, Pai};
use serde_json::Value;

// The reach that a value is.
#[tactic(auto, unfolding(mj_forms::specs::AnswerForms::reach_in))]
pub(crate) fn reach_in(value: &Value) -> Option<Answer>
    ensures { result ≡ reach_read (view value.now) }
{
    Some(Answer::Reach {
        actor: seat_in("actor", value)?,
    })
}

// The win that a value is.
#[tactic(auto, unfolding(mj_forms::specs::AnswerForms::win_in))]
pub(crate) fn win_in(value: &Value) -> Option<Answer>
    ensures { result ≡ win_read (view value.now) }
{
    let actor = seat_in("actor", value)?;
    let target = seat_in("target", value)?;
    let tile = optional_pai(value)?;
    Some(Answer::Win {
        actor,
        target,
        tile,
    })
}

// The nine kinds that a value is.
#[tactic(auto, unfolding(mj_forms::specs::AnswerForms::nine_kinds_in))]
pub(crate) fn nine_kinds_in(value: &Value) -> Option<Answer>
    ensures { result ≡ nine_kinds_read (view value.now) }
{
    let actor = seat_in("actor", value)?;
    if !has_reason(value) {
        return None;
    }
    Some(Answer::NineKinds { actor })
}

// The tile that a value names, which it need not; none where the field is no tile.
fn optional_pai(value: &Value) -> Option<Option<Pai>>
    ensures { result ≡ optional_pai (get (codes "pai") (view value.now)) }
{
    match value.get("pai") {
        Some(field) => Some(Some(pai_of(field.as_str()?.as_bytes())?)),
        None => Some(None),
    }
}

// Whether a value names no reason, or that of nine kinds.
fn has_reason(value: &Value) -> bool
    ensures { result ≡ is_nine_kinds (get (codes "reason") (view value.now)) }
{
    match value.get("reason") {
        Some(field) => match field.as_str() {
            Some(text) => text == "kyushukyuhai",
            None => false,
        },
        None => true,
    }
}
