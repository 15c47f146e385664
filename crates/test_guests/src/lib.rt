//! Who comes to a table in the tests of several crates: links in memory, hosts of them, and the lines that are said on them.
#![tactic(auto)]

mod guests;
mod lines;

pub use guests::{Crowd, Guest, JOIN_A, JOIN_B, JOIN_C, JOIN_D, JOIN_KEY, host_of, link_of};
pub use lines::{A, B, C, D, HELLO, KEY, LINE_END, PASS, Part, bytes_of};
