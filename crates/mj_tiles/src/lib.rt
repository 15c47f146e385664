//! The tiles of riichi mahjong: faces, kinds, texts, melds, counts and sets of kinds. No call but `push_times` takes memory.
#![tactic(auto)]

mod counts;
mod kind;
mod kinds;
mod meld;
mod numbers;
mod tile;

pub use counts::{Counts, counts_of};
pub use kind::{Kind, after, push_times};
pub use kinds::Kinds;
pub use meld::{Form, Meld, Melds};
pub use numbers::{EAST, FACES, KINDS, RED, SOUTH, WHITE};
pub use tile::{Tile, number_among};
