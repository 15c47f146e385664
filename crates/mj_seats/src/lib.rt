//! The workers that play seated games under turns, one game or several over one host: handlers, which take links and serve
//! them, and one that tells the time.
#![tactic(auto)]

mod gather;
mod one;
mod open;
mod play;
mod rooms;

pub use mj_handlers::{HandlerEnd, Session, handler};
pub use mj_session::{Ended, Lost, Room, Served, SharedGame, hold, serve_joined, serve_seat};
pub use mj_ticker::{Ticked, tick};
pub use one::{Closed, ClosedGame, run_workers};
pub use play::{Played, PlayedBy, play_tables};
