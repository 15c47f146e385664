//! The worker that tells the time at one table or several: it watches open windows, and closes them once their time has run out.
#![tactic(auto)]

mod ticker;

pub use ticker::{Sight, Ticked, Watch, tick, tick_all};
