//! Lines that are said and told, and texts of several parts.

use std::alloc::{AllocError, Global};

/// Joins of four names.
pub const A: &str = "{\"type\":\"join\",\"name\":\"a\"}";

pub const B: &str = "{\"type\":\"join\",\"name\":\"b\"}";

pub const C: &str = "{\"type\":\"join\",\"name\":\"c\"}";

pub const D: &str = "{\"type\":\"join\",\"name\":\"d\"}";

/// A join that can take its seat back.
pub const KEY: &str = "{\"type\":\"join\",\"name\":\"d\",\"key\":\"k\"}";

/// The answer that does nothing.
pub const PASS: &str = "{\"type\":\"none\"}";

/// What each link is told first.
pub const HELLO: &str = "{\"type\":\"hello\",\"protocol\":\"mjsonp\",\"protocol_version\":3}\n";

/// A text, so many times.
#[derive(Clone, Copy)]
pub struct Part(pub &'static str, pub u32);

/// The end of a line.
pub const LINE_END: Part = Part("\n", 1);

/// The bytes of some parts, one after the other.
pub fn bytes_of(alloc: Global, parts: &[Part]) -> Result<Vec<u8>, AllocError> {
    let mut bytes = Vec::new(alloc);
    for part in parts {
        for _ in 0..part.1 {
            bytes.extend_from_slice(part.0.as_bytes())?;
        }
    }
    Ok(bytes)
}
