//! The workers at tables side by side: handlers, each of which takes links and serves them, and one that tells the time.
#![tactic(auto)]

mod columns;
mod worker;

pub use columns::{fill_rows, take_column};
pub use worker::{Back, BackAt, Desk, Hand, Staff, StaffAt, work};
