//! The lines that the four seats are told of the deeds of a game, kept as they were rendered.
#![tactic(auto)]

mod pages;
mod seat_lines;
mod stream;
mod streams;

pub use seat_lines::SeatLines;
pub use streams::Streams;
