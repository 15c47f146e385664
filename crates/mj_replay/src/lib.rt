//! Records of games: a text is checked as a record line by line, and its deeds are played.
#![tactic(auto)]

mod checking;
mod following;
mod laws;
mod played;
mod told;

pub use checking::{Checked, Summary, check};
pub use laws::answers_are_exact;
pub use mj_runs::Cause;
pub use played::{Deeds, Played, read_played};
