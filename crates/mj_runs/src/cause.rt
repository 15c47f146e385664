//! Why a text is no record.

/// What is wrong with the first line that breaks the form of a record.
#[derive(Clone, Copy, Debug, PartialEq, Eq)]
pub enum Cause {
    /// It is the first and no header.
    Header,
    /// It stands where a wall must, and is none.
    Wall,
    /// It is the line of no deed.
    Line,
    /// It is the line of a deed that no four lawful answers give there.
    Next,
    /// It has no newline.
    Cut,
}
