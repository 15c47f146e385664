//! Tests of what workers share, by its public calls: turns with their passes, and lists that are kept for proofs.
#![tactic(auto)]

#[cfg(test)]
mod pass_tests;
#[cfg(test)]
mod past_tests;
