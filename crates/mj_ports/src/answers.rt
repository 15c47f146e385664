use crate::sitting::SitRefused;

/// What a line that wants a seat is answered.
#[derive(Clone, Copy, Debug, PartialEq, Eq)]
pub enum SitAnswer {
    /// The seat, 0 to 3, is taken.
    Sat(u8),
    /// The seat, which was gone, is taken back.
    Back(u8),
    /// No seat is given, and nothing has changed.
    Refused(SitRefused),
    /// Memory ran out, and nothing has changed.
    NoMemory,
}

/// What a line of a present seat is answered; `R` is what a game names its rules by.
#[derive(Clone, Copy, Debug, PartialEq, Eq, Drop)]
pub enum Heard<R> {
    /// The answer stands in the window on the newest deed.
    Taken,
    /// The answer was to a deed whose window is closed.
    Late,
    /// The answer breaks this rule; the seat is asked again.
    Refused(R),
    /// The answer breaks this rule, one time too many; the seat is gone.
    Closing(R),
    /// Memory ran out, and nothing has changed.
    NoMemory,
}

/// What comes of a seat that leaves.
#[derive(Clone, Copy, Debug, PartialEq, Eq)]
pub enum Left {
    /// The seat is gone.
    Gone,
    /// Memory ran out, and nothing has changed.
    NoMemory,
}

/// What comes of a window whose time may have run out.
#[derive(Clone, Copy, Debug, PartialEq, Eq)]
pub enum Expiry {
    /// The window is closed.
    Closed,
    /// Another window is open, or none, and nothing has changed.
    Stale,
    /// The time has not run out, and nothing has changed.
    Early,
    /// Memory ran out, and nothing has changed.
    NoMemory,
}

/// A line that is no deed's.
#[derive(Clone, Copy, Debug, PartialEq, Eq, Drop)]
pub enum Control<R> {
    /// The first line of each connection.
    Hello,
    /// The line before the lines that are told again after a return: how many they are.
    Head(u32),
    /// An answer broke this rule.
    Refused(R),
    /// No seat was given.
    SitRefused(SitRefused),
}
