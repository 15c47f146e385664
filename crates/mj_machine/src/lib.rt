//! The course of a hand: which deed follows a closed window.
#![tactic(auto)]

mod acts;
mod course;
mod discards;
mod drawing;
mod draws;
mod payments;
mod starting;
mod winning;
mod worth;

pub use course::next;
