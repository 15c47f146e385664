//! Tests of games that are hosted: over players, a host, a clock and disks in memory, with a stop at each call of the disk.
#![tactic(auto)]

#[cfg(test)]
mod board;
#[cfg(test)]
mod guest_host;
#[cfg(test)]
mod guests;
#[cfg(test)]
mod images;
#[cfg(test)]
mod paced;
#[cfg(test)]
mod player;
#[cfg(test)]
mod row_tests;
#[cfg(test)]
mod running;
#[cfg(test)]
mod script;
#[cfg(test)]
mod stop_tests;
#[cfg(test)]
mod whole_tests;
