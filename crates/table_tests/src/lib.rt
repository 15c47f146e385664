//! Tests of whole games by their public calls: those of the commands `serve` and `tables`, and those that workers and tables of
//! workers play, over links, hosts and clocks in memory or of the tests' own.
#![tactic(auto)]

#[cfg(test)]
mod game_tests;
#[cfg(test)]
mod games;
#[cfg(test)]
mod meeting;
#[cfg(test)]
mod patient;
#[cfg(test)]
mod room_tests;
#[cfg(test)]
mod running;
#[cfg(test)]
mod serving_tests;
#[cfg(test)]
mod waiting;
