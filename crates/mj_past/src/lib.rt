//! Lists that are kept for proofs alone. They take no memory, and do nothing when the program runs.
#![tactic(auto)]

mod past;

pub use past::Past;
