//! The worth of a complete hand of riichi mahjong: the best score of its readings.
#![tactic(auto)]

mod order;
mod score;
mod winning;

pub use score::{Extra, Score};
pub use winning::worth;
