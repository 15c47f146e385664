//! A table stands for the rules of a game and its deeds so far, and says each fact of them.
#![tactic(auto)]

mod counting;
mod course;
mod held;
mod latest;
mod room;
mod seeing;
mod standing;
mod table;

pub use mj_facts::Marks;
pub use mj_rounds::Standing;
pub use table::Table;
