//! Why a written game changes no more.

/// Why a written game changes no more.
#[derive(Clone, Copy, PartialEq, Eq, Debug, Drop)]
pub enum Stop {
    /// The disk failed. The record of the last call is on it or is not.
    DiskFault,
    /// Memory was wanting for a call whose record was on the disk, which has one entry more than the game.
    NoMemory,
}
