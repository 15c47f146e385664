//! What a viewer sees: whose tiles, and of a deed, as a value, the token that a seat learns, and the deed without what is
//! hidden.
#![tactic(auto)]

mod masked;
mod masks;
mod seen;
mod seen_hands;
mod tokens;

pub use masked::Masked;
pub use masks::mask;
pub use seen::sees;
pub use seen_hands::SeenHands;
pub use tokens::token;
