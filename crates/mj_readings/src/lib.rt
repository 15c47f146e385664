//! Complete hands of riichi mahjong and the ways to read them: four sets and a pair, seven pairs, thirteen orphans.
#![tactic(auto)]

mod complete;
mod completing_kinds;
mod gathering;
mod listing;
mod reading;
mod sets;
mod sums;
mod winning_way;

pub use complete::{is_complete, is_complete_with};
pub use completing_kinds::{completing, is_completed_by, is_far};
pub use listing::{reading_at, readings};
pub use reading::{Case, Reading, Riichi, Set, SetForm};
