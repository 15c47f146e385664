//! Tests of sources, sinks and links in memory, of the commands over them, and of commands and tables in the same process, by their
//! public calls. A game that can be told as arrivals is a case of `riichi_cases`.
#![tactic(auto)]

#[cfg(test)]
mod embedded_tests;
#[cfg(test)]
mod front_tests;
#[cfg(test)]
mod keep_tests;
#[cfg(test)]
mod kept_record_tests;
#[cfg(test)]
mod links_tests;
#[cfg(test)]
mod slow;
#[cfg(test)]
mod wire_tests;
