//! Tests of the public calls at a table, from what fits to the verdict on an answer, the built-in player and which kinds are safe:
//! games as texts, played line by line. There is no code here but that of the tests.
#![tactic(auto)]

#[cfg(test)]
mod bounds;
#[cfg(test)]
mod choices;
#[cfg(test)]
mod judge;
#[cfg(test)]
mod play;
#[cfg(test)]
mod possible;
#[cfg(test)]
mod safety;
#[cfg(test)]
mod table;
