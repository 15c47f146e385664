//! What a page asks of a hand: its waits, its shanten with the nearest complete hand, its best discard, and furiten. It is built
//! for a browser as for a machine, and no call takes memory.
#![tactic(auto)]

mod answers;
mod hand;
mod melds;
mod sets;

pub use answers::{best_discard_of, is_in_furiten, shanten_of, waits_of};
pub use melds::Meld;
