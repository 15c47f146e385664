//! The rounds of a game: how it stands in each of its hands, and which hand follows. No call takes memory.
#![tactic(auto)]

mod rounds;

pub use rounds::{HandEnd, LAST_HAND, Standing, first, next_hand};
