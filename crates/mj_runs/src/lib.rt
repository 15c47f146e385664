//! What the runs of all commands have in common: how an input is read to its end, how a run ends, which faults of source, sink and
//! disk its end tells of, and what deeds come to, in lines.
#![tactic(auto)]

mod cause;
mod input;
mod result;
mod status;

pub use cause::Cause;
pub use input::{LONGEST, with_room};
pub use result::{push_line, push_result, result_lines};
pub use status::Status;
