//! The table of a game in play with what is told of its deeds as they come, and the walls that it is played with.
#![tactic(auto)]

mod shuffled;
mod supply;
mod telling;

pub use mj_machine::next;
pub use supply::Supply;
pub use telling::{Telling, Untold, new_table};
