//! What is kept of the deeds of one hand, and what a deed more makes of it: its course, and of each seat its melds, the tiles
//! that it let pass, and the marks of its riichi.
#![tactic(auto)]

mod bringing;
mod counted;
mod course_facts;
mod draw_reasons;
mod ending;
mod few_tiles;
mod fitting;
mod hand_facts;
mod mark_facts;
mod marks;
mod meld_steps;
mod passed;
mod riichi;
mod seat_facts;
mod winning;

pub use course_facts::{CourseFacts, HandDraw};
pub use draw_reasons::reason;
pub use ending::hand_end;
pub use few_tiles::FewTiles;
pub use fitting::fits_in;
pub use hand_facts::{HandFacts, learn, no_facts};
pub use mark_facts::MarkFacts;
pub use marks::Marks;
pub use meld_steps::has_triplet;
pub use seat_facts::SeatFacts;
pub use winning::is_win;
