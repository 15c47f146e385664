//! The referee inside another program: the commands that wait for nobody, on bytes in memory, and a table that goes on,
//! one arrival at a time. Each call is total but for what only its caller can know, that a pointer holds what it says; what a
//! number that is answered means stands in `answer`.
#![tactic(auto)]

mod answer;
mod arrivals;
mod handle;
mod opening;
mod out;
mod reads;
mod run;
mod turns;

pub use handle::Table;
pub use reads::{Seat, State};
pub use run::run_here;
pub use turns::Turn;
