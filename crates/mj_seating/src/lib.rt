//! Who sits at the table of a game: four seats, taken in order, left, and taken back by name and key. No call takes
//! memory.
#![tactic(auto)]

mod desk;

pub use desk::{Desk, Placed};
