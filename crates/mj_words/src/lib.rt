//! The words of a command line: which command they ask for, and with what.
#![tactic(auto)]

mod command;
mod laws;
mod options;
mod parsing;
mod serving;

pub use command::{Command, command_of};
pub use laws::{plain_words_are_values, words_are_read};
pub use options::{serving_of, tables_of};
pub use serving::{Hosting, Serving};
