//! The session of a link with a seat of a game under a turn, and the game that workers share.
#![tactic(auto)]

pub mod hold;
mod joined;
mod leaving;
mod lost;
mod room;
mod serve;
mod served;
mod shared_game;
mod talk;

pub use joined::serve_joined;
pub use lost::Lost;
pub use room::Room;
pub use serve::serve_seat;
pub use served::{Ended, Served};
pub use shared_game::SharedGame;
