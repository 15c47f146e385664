//! The window on a deed, with its four slots, and what four answers decide. No call takes memory.
#![tactic(auto)]

mod decision;
mod window;

pub use decision::{Decision, Seats, decide};
pub use window::Window;
