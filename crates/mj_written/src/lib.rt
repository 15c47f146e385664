//! A seated game whose entries stand on a disk, each before the game makes it.
#![tactic(auto)]

mod authored;
mod foreseen;
mod foreseen_core;
mod stop;
mod vacating;
mod written;

pub use foreseen::Foreseen;
pub use stop::Stop;
pub use vacating::vacate;
pub use written::{Written, WrittenSetting};
