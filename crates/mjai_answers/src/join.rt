ghost use Rattle.std.specs.Prelude.{◌≡◌, IfOk, codes, nat_le, not, ◌&&◌, ◌==◌};
ghost use Rattle.std.specs.List.{list_all};
ghost use Rattle.serde_json.specs.View.{view};
ghost use Rattle.mj_ports.specs.Names.{is_name as is_name_text};
ghost use Rattle.mj_forms.specs.AnswerForms.{join_of, join_in as join_read, name_of as name_in_text, key_of as key_in_text, key_by};
ghost use Rattle.serde_json.specs.Find.{get};

use crate::value::{read_value, text_in};
use mj_ports::{JoinLine, Key, Name};
use serde_json::Value;
use std::alloc::{AllocError, Global};

/// What a line asks that wants a seat; none where it is no join with a name and a key of the right form. A name is a
/// text in UTF-8 of 1 to 64 bytes, none of them a quotation mark, a backslash or a control character below 32; a key,
/// where there is one, has at most 64 bytes. Other fields are ignored. The only error is running out of memory.
#[tactic(auto, unfolding(mj_forms::specs::AnswerForms::join_of))]
pub fn read_join(alloc: Global, line: &[u8]) -> Result<Option<JoinLine>, AllocError>
    ensures { IfOk result (λ j. j ≡ join_of line.now) }
{
    match read_value(alloc, line)? {
        Some(value) => Ok(join_in(&value)),
        None => Ok(None),
    }
}

// The join that a value is.
#[tactic(auto, unfolding(mj_forms::specs::AnswerForms::join_in))]
pub(crate) fn join_in(value: &Value) -> Option<JoinLine>
    ensures { result ≡ join_read (view value.now) }
{
    if text_in("type", value)? != "join" {
        return None;
    }
    let name = name_of(text_in("name", value)?)?;
    let key = key_in(value)?;
    Some(JoinLine { name, key })
}

// The name that a text is.
#[tactic(auto, using(crate::proofs::Texts::name_fits))]
fn name_of(text: &str) -> Option<Name>
    ensures { result ≡ name_in_text text.now }
{
    if is_name(text) {
        return Some(Name::of(text.as_bytes()));
    }
    None
}

// Whether a text, which is UTF-8, is a name.
#[tactic(auto, using(crate::proofs::Texts::name_of_text))]
fn is_name(text: &str) -> bool
    ensures { result ≡ is_name_text text.now }
{
    let text = text.as_bytes();
    if text.is_empty() || text.len() > 64 {
        return false;
    }
    has_plain_bytes(text)
}

// Whether no byte of a text is a quotation mark, a backslash or below 32.
fn has_plain_bytes(text: &[u8]) -> bool
    ensures { result ≡ list_all (λ byte. nat_le 32 byte && not (byte == 34) && not (byte == 92))
        text.now }
{
    text.iter()
        .all(|byte| *byte >= 32 && *byte != b'"' && *byte != b'\\')
}

// The key that a join gives, and whether it gives one; none where the field is no key.
fn key_in(value: &Value) -> Option<Option<Key>>
    ensures { result ≡ key_by (get (codes "key") (view value.now)) }
{
    let Some(field) = value.get("key") else {
        return Some(None);
    };
    Some(Some(key_of(field.as_str()?.as_bytes())?))
}

// The key that a text is.
fn key_of(text: &[u8]) -> Option<Key>
    ensures { result ≡ key_in_text text.now }
{
    if text.len() <= 64 {
        return Some(Key::of(text));
    }
    None
}
