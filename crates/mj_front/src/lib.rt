//! The commands that words ask for: arrivals read from a source, and what one seat is told written to a sink; a record read
//! from a source, and its summary or its public view written to a sink; the lines of a hand written to a sink; a
//! self-played game whose summary is written to a sink; and a game, or several side by side, served to whoever connects, and the
//! records written to a sink.
#![tactic(auto)]

mod commands;
mod hand;
mod self_game;
mod status;

pub use commands::{is_for_waiting, run, run_alone};
pub use mj_runs::{Cause, Status};
pub use status::{exit_code, status_text};
