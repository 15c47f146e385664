//! What a game shows to those outside: names and keys, the entries of its history, how a seat is taken, and the calls of
//! a game that workers play by entries.
#![tactic(auto)]

mod answers;
mod entry;
mod picking;
mod seated;
mod short_text;
mod sitting;

pub use answers::{Control, Expiry, Heard, Left, SitAnswer};
pub use entry::Entry;
pub use picking::{Picked, Picker};
pub use seated::Seated;
pub use short_text::{Key, Name, OfKey, OfName, ShortText};
pub use sitting::{JoinLine, SitRefused};
