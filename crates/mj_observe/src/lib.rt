//! What a watcher without tiles is told of a game: the public line of each deed as it comes, and each hand in full once it has ended.
#![tactic(auto)]

mod laws;
mod observer;
mod public;
mod rendering;

pub use laws::{
    others_are_told_all, public_tokens_hold_no_secret, some_deeds_are_alike_in_public, views_grow,
    watchers_learn_no_more,
};
pub use observer::Observer;
