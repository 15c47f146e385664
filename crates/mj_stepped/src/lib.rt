//! One game that a program goes on with by the numbers of answers: what each seat may answer to the newest deed is listed as that
//! deed comes, and lines are rendered once they are asked for.
#![tactic(auto)]

mod listed;
mod stepped;

pub use listed::Listed;
pub use stepped::Stepped;
