//! Many games over one host, each at a table of its own, with more handlers the more tables there are.
#![tactic(auto)]

mod closed;
mod tables;

pub use closed::{ClosedTables, TableSession};
pub use tables::{Tables, run_tables};
