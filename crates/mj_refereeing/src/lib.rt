//! The commands over arrivals: `referee`, which tells a seat what its game tells it, `safe`, which kinds are safe for it, and `keep`,
//! the referee of a game whose entries stand in a journal.
#![tactic(auto)]

mod arriving;
mod base;
mod form;
mod intake;
mod keep;
mod keeping;
mod referee;
mod status;
mod watched;

pub use base::{Base, Founded, read_base};
pub use intake::{End, Question};
pub use keep::{KeepEnd, keep_of};
pub use referee::{RefereeEnd, referee_of};
pub use status::{status_of_keep, status_of_referee};
