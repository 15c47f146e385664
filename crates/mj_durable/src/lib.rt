//! The command `host`: games played by whoever connects, each entry of which stands on a disk before anybody is told of it, so
//! that they go on after any stop.
#![tactic(auto)]

mod asked;
mod hosted;
mod hosting;
mod logged;
mod opening;
mod playing;
mod resuming;
mod seat_log;
mod status;

pub use asked::{hosted_of, is_for_host};
pub use hosted::Hosted;
pub use hosting::{HostEnd, host_games};
pub use mj_hosting::Rooms;
pub use seat_log::SeatLog;
pub use status::status_of_host;
