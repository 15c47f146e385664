//! The deed that a line of a record tells. The line of the deed that is read is compared with the line by the caller, so
//! nothing that says no more of the deed is looked at.

ghost use Rattle.std.specs.Prelude.{◌≡◌, IfOk};
ghost use Rattle.mj_records.specs.Deeds.{deed_in, deed_by};

use crate::acts::small_by;
use crate::fields::quoted_at;
use crate::hands::start_hand_in;
use crate::results::{drawn_hand_in, win_in};
use crate::starts::start_game_in;
use mj_bytes::strip;
use mj_deeds::Deed;
use std::alloc::{AllocError, Global};

/// The deed of a line, which ends with its newline.
#[tactic(auto, unfolding(crate::specs::Deeds::deed_in))]
pub fn deed_in(alloc: Global, line: &[u8]) -> Result<Option<Deed>, AllocError>
    ensures { IfOk result (λ deed. deed ≡ deed_in line.now) }
{
    let Some(rest) = strip(line, b"{\"type\":") else {
        return Ok(None);
    };
    let Some((kind, fields)) = quoted_at(rest) else {
        return Ok(None);
    };
    deed_by(alloc, kind, fields)
}

// The deed of a kind, read from the fields after it.
#[tactic(auto, unfolding(crate::specs::Deeds::deed_by))]
fn deed_by(alloc: Global, kind: &[u8], fields: &[u8]) -> Result<Option<Deed>, AllocError>
    ensures { IfOk result (λ deed. deed ≡ deed_by kind.now fields.now) }
{
    if kind == b"start_kyoku".as_slice() {
        return start_hand_in(alloc, fields);
    }
    if kind == b"hora".as_slice() {
        return win_in(alloc, fields);
    }
    if kind == b"ryukyoku".as_slice() {
        return drawn_hand_in(alloc, fields);
    }
    if kind == b"start_game".as_slice() {
        return start_game_in(alloc, fields);
    }
    Ok(small_by(kind, fields))
}
