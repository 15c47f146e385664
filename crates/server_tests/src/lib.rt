//! Tests of what a served game stands on, by its public calls: hosts, TCP, the lines that are kept, the core of a game, its journal
//! and its record.
#![tactic(auto)]

#[cfg(test)]
mod core_tests;
#[cfg(test)]
mod host_tests;
#[cfg(test)]
mod journal_tests;
#[cfg(test)]
mod lent;
#[cfg(test)]
mod record_tests;
#[cfg(test)]
mod streams_tests;
#[cfg(test)]
mod tcp_tests;
