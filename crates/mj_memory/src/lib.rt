//! How far a hand is from complete, of hands that change by a tile: each suit is walked by itself and its row remembered, so
//! that only the suit of the tile is walked anew. No call but the first takes memory.
#![tactic(auto)]

mod counting;
mod far;
mod joining;
mod known;
mod ways;

pub use known::Memory;
pub use ways::Ways;
