//! Waits and furiten of riichi mahjong. No call takes memory.
#![tactic(auto)]

mod furiten_rule;
mod ready_hand;

pub use furiten_rule::{Facts, furiten, misses_some};
pub use ready_hand::{ready, waits};
