//! Words on bytes that several crates share: text that grows, numbers as decimal text, and texts parted by a byte: lines and fields.
#![tactic(auto)]

mod numbers;
mod parts;
mod pieces;

pub use numbers::read_number;
pub use parts::{split_at_first, split_line, split_space, strip};
pub use pieces::{push_all, push_number, push_signed};
