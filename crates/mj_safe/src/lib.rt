//! Which kinds a seat may safely discard against another, and why, as a table says it; and the lines that the command `safe` writes of
//! it. What a reason promises is proved in `mj_safety`.
#![tactic(auto)]

mod blocks;
mod lines;
mod reasons;

pub use lines::{no_safe_lines, safe_lines};
pub use mj_safety::Reason;
pub use reasons::{has_to_discard, safe};
