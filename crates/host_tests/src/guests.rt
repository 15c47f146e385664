//! Who comes to a host in memory.

/// Who comes to a host, and how it goes on.
#[derive(Clone, Copy)]
pub struct Guests {
    /// How many players come, numbered from 0.
    pub players: u32,
    /// After how many answers each leaves.
    pub answers: u32,
    /// Whether they answer by the script, leave where another seat is to answer, and come where theirs is.
    pub scripted: bool,
    /// How many pauses of a tenth of a millisecond the first answer waits for the others at most.
    pub pauses: u32,
    /// Whether the host fails once all have come; else none comes any more.
    pub fails: bool,
    /// How many milliseconds go by from one reading of the clock to the next.
    pub step: u64,
    /// Whether the port can't be opened.
    pub shut: bool,
}
