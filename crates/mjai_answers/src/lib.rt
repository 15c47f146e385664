//! The lines of mjai that come in: the answers of seats, the joins of those who want one, and the fields of a game's setting.
//! A line is read as JSON, but for the usual spellings of answers, which are told byte by byte.
#![tactic(auto)]

mod announcement;
mod answer;
mod join;
mod own;
mod room;
mod setting;
mod usual;
mod value;

pub use answer::read_answer;
pub use join::read_join;
pub use room::read_room;
pub use setting::{read_rules, read_tiles, three_fields};
pub use usual::seat_first;
