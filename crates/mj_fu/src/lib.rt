//! Fu of riichi mahjong: the lesser measure of what a reading of a hand is worth, and the forms that it looks at.
//! No call takes memory.
#![tactic(auto)]

mod forms;
mod parts;

pub use forms::{is_concealed_at, is_dragon, is_pinfu, is_run};
pub use parts::fu;
