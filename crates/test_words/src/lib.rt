//! The rows of the tests of several crates, as texts: numbers, tiles, kinds, rounds, melds, deeds, answers and bids, the questions that
//! a test asks of each row, and values that are lent to it.
#![tactic(auto)]

mod deed_words;
mod lent;
mod rounds;
mod words;

pub use deed_words::{answer, bid, deed, hands, meld, name, names, seats, wrong_deed};
pub use lent::{Of, is_as, is_none, is_put};
pub use rounds::{end, standing};
pub use words::{
    Question, are, counts, field, kind, kinds, number, number_or_none, parted, points, seat, tile,
    tile_or_none, word, wrong_row, yes,
};
