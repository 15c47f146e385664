//! Calls: which tiles make a meld, what may not be discarded right after a call, and which kan a seat in riichi may
//! make. No call takes memory.
#![tactic(auto)]

mod bans;
mod riichi_kans;
mod shapes;

pub use bans::banned;
pub use riichi_kans::riichi_kan;
pub use shapes::{chi_shape, same_kind};
