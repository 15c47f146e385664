//! Tests of the workers by their public calls: faults that are kept, rooms, links that are served, handlers, and the telling of the
//! time, at the core of a game and over links, hosts and clocks in memory or of the tests' own.
#![tactic(auto)]

#[cfg(test)]
mod hall;
#[cfg(test)]
mod handler_tests;
#[cfg(test)]
mod lines;
#[cfg(test)]
mod lost_tests;
#[cfg(test)]
mod player;
#[cfg(test)]
mod seat_tests;
#[cfg(test)]
mod slow;
#[cfg(test)]
mod tick_tests;
