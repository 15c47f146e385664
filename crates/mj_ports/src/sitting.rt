ghost use Rattle.std.specs.Prelude.{◌≡◌};

use crate::short_text::{Key, Name};

/// What a line asks that wants a seat: under which name, and with which key the seat can be taken back.
#[derive(Clone, Copy, Debug, Drop)]
pub struct JoinLine {
    pub name: Name,
    pub key: Option<Key>,
}

/// Why a seat was not given.
#[derive(Clone, Copy, Debug, PartialEq, Eq)]
pub enum SitRefused {
    /// No seat has the name, and all four are held.
    Full,
    /// A present seat has the name.
    NameTaken,
    /// A gone seat has the name, and another key or one where none was given.
    WrongKey,
    /// A gone seat has the name and was taken without a key.
    NoKey,
    /// The seat came back as often as it may.
    TooOften,
    /// The game has ended.
    Over,
    /// The line is no join with a name and a key of the right form.
    BadName,
    /// The line names a room of which there is none. Only where many tables are played is a room asked for.
    NoRoom,
}
