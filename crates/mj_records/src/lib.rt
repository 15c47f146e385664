//! The lines of a record as they are read: its header, its walls, and of each deed's line the deed. What is written is read
//! again, by the laws at the end.
#![tactic(auto)]

mod acts;
mod calls;
mod fields;
mod hands;
mod laws;
mod lists;
mod reaches;
mod reading;
mod results;
mod setting;
mod starts;
mod usual;
mod yaku;

pub use laws::{
    acts_are_read, calls_are_read, drawn_hands_are_read, fields_are_read, game_starts_are_read,
    hand_starts_are_read, reaches_are_read, read_deeds_tell_the_same, wins_are_read,
};
pub use reading::deed_in;
pub use setting::{header_of, wall_of};
pub use usual::{Act, act_first, begins_hand, has_line_of};
