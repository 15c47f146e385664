//! Text that grows at its end.

ghost use Rattle.std.specs.Prelude.{◌≡◌, OnOk, OnErr};
ghost use Rattle.mj_bytes.specs.Adds.{Adds};
ghost use Rattle.mj_bytes.specs.Numbers.{number_text, signed_text};

use itoa::Buffer;
use std::alloc::AllocError;

/// Writes a piece after a text. Where memory is wanting, the text stays as it was.
pub fn push_all(into: &mut Vec<u8>, piece: &[u8]) -> Result<(), AllocError>
    ensures ok { OnOk result (Adds into.old.items into.new.items piece.now) }
    ensures err { OnErr result (into.new.items ≡ into.old.items) }
{
    into.extend_from_slice(piece)
}

/// Writes a number after a text, in decimal digits without a leading zero. Where memory is
/// wanting, the text stays as it was.
#[tactic(auto, using(crate::proofs::NumberLaws::one_digit))]
pub fn push_number(into: &mut Vec<u8>, number: u64) -> Result<(), AllocError>
    ensures ok { OnOk result (Adds into.old.items into.new.items (number_text number)) }
    ensures err { OnErr result (into.new.items ≡ into.old.items) }
{
    if number < 10 {
        return push_all(into, &[b'0' + number as u8]);
    }
    push_all(into, Buffer::new().format(number).as_bytes())
}

/// Writes a signed number, as a gain or a loss of points, after a text, with `-` before a negative one. Where memory is wanting,
/// the text stays as it was.
pub fn push_signed(into: &mut Vec<u8>, amount: i32) -> Result<(), AllocError>
    ensures ok { OnOk result (Adds into.old.items into.new.items (signed_text amount)) }
    ensures err { OnErr result (into.new.items ≡ into.old.items) }
{
    push_all(into, Buffer::new().format(amount).as_bytes())
}
