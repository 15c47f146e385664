//! The tiles of one suit: the ways in which they part into runs, triplets and a pair.
//!
//! A suit's tiles are nine counts, one for each number. Numbers are counted from 0, so that the lowest tile of a
//! suit is 0 and the highest is 8. Honours are a suit without runs.
#![tactic(auto)]

mod choosing;
mod partitioning;
mod row;
mod sets;
mod suit_walk;
mod table;
mod walk;

pub use choosing::Choice;
pub use partitioning::partitions;
pub use row::Row;
pub use sets::{Split, SuitSet, SuitSets};
pub use suit_walk::{SuitWalk, choose};
pub use table::{SuitTable, nearest};
pub use walk::with_suit;
