//! One connection to a seated game, without input and output: what it is told, what it enters by its lines, and what it
//! waits for.
#![tactic(auto)]

mod connection;
mod seat;
mod stage;

pub use stage::{Connection, End, SeatAt};
