//! One game as it is played, told to its four seats or to one of them.
#![tactic(auto)]

mod game;
mod seat_game;
mod seated;
mod streamed;

pub use game::Core;
pub use mj_umpire::{
    Expiry, Heard, Left, SitAnswer, Supply, Telling, Umpire, Untold, write_control,
};
pub use seat_game::{NOBODY, SeatGame};
pub use streamed::Streamed;
