//! The commands over a record: `replay`, which sums it up, and `observe`, which shows its public view.
#![tactic(auto)]

mod observe;
mod replay;
mod status;

pub use observe::observe_of;
pub use replay::{ReplayEnd, replay_of};
pub use status::status_of_replay;
