//! What the words of the command `host` ask for.

ghost use Rattle.std.specs.Prelude.{◌≡◌, map, IfOk};
ghost use Rattle.std.specs.String.{string_bytes};
ghost use Rattle.mj_durable.specs.Words.{begins_with_host, host_asked, asked_by_hosted};

use crate::hosted::Hosted;
use mj_hosting::Rooms;
use mj_words::{serving_of, tables_of};
use std::alloc::{AllocError, Global};

/// Whether the first word, after the program's name, is that of the command `host`.
pub fn is_for_host(words: &[String]) -> bool
    ensures { result ≡ begins_with_host (map string_bytes words.now) }
{
    match words {
        [first, ..] => first.as_str() == "host",
        [] => false,
    }
}

/// What words say whose first is `host`: the others are those of `serve`, or those of `tables`; None where they are neither.
/// The only error is running out of memory.
pub fn hosted_of(alloc: Global, words: &[String]) -> Result<Option<Hosted>, AllocError>
    ensures { IfOk result (λ hosted. asked_by_hosted hosted ≡ host_asked (map string_bytes words.now)) }
{
    if let Some(serving) = serving_of(alloc, words)? {
        return Ok(Some(Hosted {
            rooms: Rooms::One,
            serving,
        }));
    }
    match tables_of(alloc, words)? {
        Some(hosting) => Ok(Some(Hosted {
            rooms: Rooms::Many(hosting.rooms),
            serving: hosting.serving,
        })),
        None => Ok(None),
    }
}
