//! What one worker does that takes links from a host and serves each, to the end of its session, at the table that its first
//! line is for.
#![tactic(auto)]

mod door;
mod hand;
mod lobby;
mod one;
mod visit;

pub use door::{Door, HostDoor};
pub use hand::handle;
pub use lobby::Lobby;
pub use one::{OneTable, handler};
pub use visit::{HandlerEnd, Session};
