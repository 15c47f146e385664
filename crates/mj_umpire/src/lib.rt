//! One game by its entries, on a table that tells its deeds or doesn't: who sits down, what the seats say, and what each is still to
//! be told.
#![tactic(auto)]

mod answers;
mod chair;
mod control;
mod entered;
mod state;
mod umpire;
mod verdict;
mod window;

pub use answers::{Expiry, Heard, Left, SitAnswer};
pub use control::write_control;
pub use mj_judge::possible_over;
pub use mj_telling::{Supply, Telling, Untold, new_table, next};
pub use umpire::Umpire;
