//! Whether an answer of a seat is lawful, or which rule it breaks first, all answers that it may give, the answer that
//! stands for a seat which gives none, and the circumstances of a win. The list of answers alone takes memory.
#![tactic(auto)]

mod apart;
mod calling;
mod case;
mod choice;
mod counting;
mod discarding;
mod drawing;
mod holding;
mod listing;
mod measure;
mod nine;
mod questions;
mod ready;
mod riichi;
mod scattered;
mod sets;
mod swap;
mod turning;
mod unanswered;
mod verdict;
mod winning;

pub use case::{case_of, seat_wind};
pub use choice::possible_at;
pub use listing::{possible, possible_over};
pub use measure::is_measured;
pub use turning::may_pass;
pub use unanswered::{default, discard};
pub use verdict::{is_lawful, judge};
