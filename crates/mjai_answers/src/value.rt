// The JSON value that a line is, and the fields of such a value.
ghost use Rattle.std.specs.Prelude.{◌≡◌, IfOk, option_map};
ghost use Rattle.serde_json.specs.View.{view};
ghost use Rattle.mj_forms.specs.AnswerForms.{value_of, text_in as text_read, seat_in as seat_read, seat_as as seat_of_value};

use serde_json::Value;
use std::alloc::{AllocError, Global};

// The value that a line is; none where it is not one JSON value in UTF-8.
#[tactic(auto, using(crate::proofs::Texts::value_of_text, crate::proofs::Texts::value_of_no_text))]
pub(crate) fn read_value(alloc: Global, line: &[u8]) -> Result<Option<Value>, AllocError>
    ensures { IfOk result (λ v. option_map view v ≡ value_of line.now) }
{
    let Ok(text) = str::from_utf8(line) else {
        return Ok(None);
    };
    match Value::from_str(alloc, text) {
        Ok(value) => Ok(Some(value)),
        Err(error) if error.is_memory() => Err(AllocError),
        Err(_) => Ok(None),
    }
}

// The text that a field is.
#[tactic(auto, unfolding(mj_forms::specs::AnswerForms::text_in))]
pub(crate) fn text_in<'v>(name: &str, value: &'v Value) -> Option<&'v str>
    ensures { option_map (λ s. s.now) result ≡ text_read name.now (view value.now) }
{
    value.get(name)?.as_str()
}

// The seat that a field is.
#[tactic(auto, unfolding(mj_forms::specs::AnswerForms::seat_in))]
pub(crate) fn seat_in(name: &str, value: &Value) -> Option<u8>
    ensures { result ≡ seat_read name.now (view value.now) }
{
    seat_as(value.get(name)?)
}

// The seat that a value is: a whole number from 0 to 3.
#[tactic(auto, unfolding(mj_forms::specs::AnswerForms::seat_as))]
pub(crate) fn seat_as(value: &Value) -> Option<u8>
    ensures { result ≡ seat_of_value (view value.now) }
{
    let number = value.as_u64()?;
    if number < 4 {
        return Some(number as u8);
    }
    None
}
