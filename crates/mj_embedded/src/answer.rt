//! The numbers that the calls of a table answer.

/// What was asked is done.
pub(crate) const DONE: u32 = 0;

/// A seat that was gone is taken back.
pub(crate) const BACK: u32 = 1;

/// The line came to a deed whose window is closed already.
pub(crate) const LATE: u32 = 2;

/// The answer breaks a rule; the seat is asked again.
pub(crate) const REFUSED: u32 = 3;

/// The answer breaks a rule, one time too many; the seat is gone.
pub(crate) const CLOSING: u32 = 4;

/// Another window is open, or none.
pub(crate) const STALE: u32 = 5;

/// The time of the window has not run out.
pub(crate) const EARLY: u32 = 6;

/// There is no game on the table.
pub(crate) const NO_GAME: u32 = 16;

/// A game stands on the table already.
pub(crate) const IN_PLAY: u32 = 17;

/// Memory is wanting; nothing has changed.
pub(crate) const NO_MEMORY: u32 = 18;

/// The header or a wall is none, or a number is outside its range.
pub(crate) const BAD_SETTING: u32 = 19;

/// The seat isn't 0 to 3.
pub(crate) const NO_SEAT: u32 = 20;

/// The seat isn't present.
pub(crate) const NOT_PRESENT: u32 = 21;

/// The deed that the seat's next line answers doesn't exist yet.
pub(crate) const NOT_DUE: u32 = 22;

/// There is no such line yet.
pub(crate) const NO_LINE: u32 = 23;

/// The line has more than 4,095 bytes.
pub(crate) const TOO_LONG: u32 = 24;

/// The bytes don't fit in the room that was given: the length says how many there are, and none is written.
pub(crate) const NO_ROOM: u32 = 25;

/// The seat has no answer of that number.
pub(crate) const NO_CHOICE: u32 = 26;

/// So many seats have passed that the call has to be made again.
pub(crate) const GO_ON: u32 = 27;

/// No seat is given; this number and the place of the reason are added: full, name taken, wrong key, no key, too often, over,
/// and a line that is no join.
pub(crate) const NOT_SEATED: u32 = 32;
