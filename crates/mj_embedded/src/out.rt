//! Bytes that are written where the caller has room.

ghost use Rattle.mj_embedded.specs.Calls.{Writes};

use crate::answer::{DONE, NO_ROOM};

/// Writes a text to the front of the room where it fits, and says how long it is.
pub(crate) fn write_out(text: &[u8], room: &mut [u8], length: &mut u64) -> u32
    ensures { Writes text.now result room.old room.new length.new }
{
    *length = text.len() as u64;
    if text.len() > room.len() {
        return NO_ROOM;
    }
    room[..text.len()].copy_from_slice(text);
    DONE
}
