//! Tests of the public calls of the hand layer, from bytes, tiles and payments to the worth of a hand: a file for each crate, and
//! tables of cases in it. There is no code here but that of the tests.
#![tactic(auto)]

#[cfg(test)]
mod bytes;
#[cfg(test)]
mod fu;
#[cfg(test)]
mod hand;
#[cfg(test)]
mod page;
#[cfg(test)]
mod pay;
#[cfg(test)]
mod readings;
#[cfg(test)]
mod score;
#[cfg(test)]
mod shanten;
#[cfg(test)]
mod suits;
#[cfg(test)]
mod tiles;
#[cfg(test)]
mod waits;
#[cfg(test)]
mod words;
#[cfg(test)]
mod yaku;
#[cfg(test)]
mod yaku_bounds;
