//! The command `hand`: words that name a hand, and what is written of it.
#![tactic(auto)]

mod hand;
mod lines;
mod words;

pub use lines::{hand_lines, push_kinds_or_dash};
