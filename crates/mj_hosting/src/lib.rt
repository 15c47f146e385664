//! The commands over a host: `serve`, which plays a game with whoever connects, and `tables`, which plays several side by side.
#![tactic(auto)]

mod giving;
mod plays;
mod rooms;
mod serve;
mod status;
mod writing;

pub use giving::give_all;
pub use plays::{ServeEnd, has_thread, new_games};
pub use rooms::Rooms;
pub use serve::{serve_game, serve_tables};
pub use status::status_of_serve;
pub use writing::write_games;
