//! Shanten of riichi mahjong: how far a hand is from being ready, the nearest complete hand, and the exchanges that
//! lead to it.
#![tactic(auto)]

mod discards;
mod exchanges;
mod nearest_hand;
mod nearest_sets;
mod orphans;
mod seven_pairs;
mod suits;

pub use exchanges::exchange_path;
pub use nearest_hand::{Nearest, shanten};
pub use suits::Suits;
