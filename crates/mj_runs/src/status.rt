//! How a run ended.

use crate::cause::Cause;

/// How a run ended. Where several fit, the first of this order answers: `Words`; `ReadFault` or `TooLong`, whichever is met
/// first; `BadRecord`; `DiskFault`, `OtherGame` or `BadJournal`; `WriteFault`; `BadArrival` or `HostFault`; `Done`.
#[derive(Clone, Copy, Debug, PartialEq, Eq)]
pub enum Status {
    /// The input was read to its end and is valid, and what it tells the seat, the kinds that are safe for it, or the summary or the
    /// public view of its record, is written; or the lines of a hand or of a self-played game are written; or a served game is over,
    /// its links are given back, and its record is written.
    Done,
    /// The words ask for no command, or for one with other arguments than its own, as `hand` with words that name no hand, or
    /// `selfplay` with a word that is no number. Nothing is written.
    Words,
    /// A read failed. Nothing is written.
    ReadFault,
    /// A write failed. What is written is a prefix of what was to be.
    WriteFault,
    /// Memory was wanting. Nothing is written.
    NoMemory,
    /// The line, counted from 1, is the first that is no arrival in its place. What the lines before it tell is written.
    BadArrival(u32),
    /// The line, counted from 1, is the first that breaks the form of a record, by this cause. Nothing is written.
    BadRecord(u32, Cause),
    /// The host was not opened, and nothing is written; or it failed each handler of a served game that is not over, whose
    /// links are given back and whose record so far is written.
    HostFault,
    /// The input has more than 67,108,864 bytes. Nothing is written.
    TooLong,
    /// The disk of a kept game failed. Nothing is written, and what its journal had stands there.
    DiskFault,
    /// The journal is that of another game: of another header or other walls. Nothing is written, there or here.
    OtherGame,
    /// The open gate at this byte of the journal is the first whose record isn't whole, or tells no arrival in its place that
    /// adds an entry. Nothing is written, there or here.
    BadJournal(u64),
}
