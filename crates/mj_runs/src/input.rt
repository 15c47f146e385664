//! What is read of a source by the commands that read it to its end.

ghost use Rattle.std.specs.Prelude.{◌≡◌, []};

use std::alloc::Global;

/// The most bytes that an input may have.
pub const LONGEST: u64 = 67_108_864;

// For so many bytes an input has room from the start. Few games with their walls, and few records, have more.
const ROOM: usize = 262_144;

/// A text without a byte, for an input. Where memory for it is wanting it gets some as it grows.
pub fn with_room(alloc: Global) -> Vec<u8>
    ensures { result.items ≡ [] }
{
    let mut input = Vec::new(alloc);
    match input.reserve(ROOM) {
        Ok(()) => input,
        Err(_) => input,
    }
}
