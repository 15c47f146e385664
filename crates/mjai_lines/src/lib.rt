//! The lines of mjai that go out, deeds and refusals, as they are written. A line is compact JSON and ends with one newline. The
//! record of a game has the header and the walls besides.
#![tactic(auto)]

mod choices;
mod deed;
mod ending;
mod error;
mod pieces;
mod record;
mod riichi;
mod starts;
mod steps;
mod winning;
mod yaku;

pub use choices::write_listed;
pub use deed::write;
pub use error::{error_line, refusal_line};
pub use mjai_answers::{read_answer, read_join};
pub use pieces::push_tile;
pub use record::write_record;
pub use starts::{push_names, push_place};
pub use steps::Steps;
pub use yaku::yaku_name;
