//! Walls and where their tiles are taken from, and the setting of a game: its walls and rules.
#![tactic(auto)]

mod setting;
mod shuffle;
mod wall;

pub use setting::{Rules, Setting, Walls};
pub use wall::{BadWall, TILES, Wall};
