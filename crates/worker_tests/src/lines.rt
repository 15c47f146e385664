//! Lines that are told.

use test_guests::Part;

/// What comes after the hello line for a seat that came back once the first deed was answered.
pub const HEAD: &str = "{\"type\":\"replay\",\"count\":1}\n";

/// The first deed as seat 3 is told it.
pub const START: &str =
    "{\"type\":\"start_game\",\"id\":3,\"names\":[\"a\",\"b\",\"c\",\"d\"],\"possible_actions\":[{\"type\":\"none\"}]}\n";

/// Whether the bytes are those of these parts, one after the other.
pub fn are_made_of(bytes: &[u8], parts: &[Part]) -> bool {
    let mut rest = bytes;
    for part in parts {
        for _ in 0..part.1 {
            match rest.strip_prefix(part.0.as_bytes()) {
                Some(behind) => rest = behind,
                None => return false,
            }
        }
    }
    rest.is_empty()
}
