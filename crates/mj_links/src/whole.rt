//! All that a source has, and a whole piece to a sink.

ghost use Rattle.std.specs.Prelude.{ℕ};
ghost use Rattle.mj_links.specs.Sources.{ReadsAll, CountsFaultOfReading};
ghost use Rattle.mj_links.specs.Sinks.{WritesAll, CountsFaultOfWriting};

use crate::sink::{Put, Sink};
use crate::source::{Got, Source};

/// How the reading of a whole source ended.
#[derive(Clone, Copy, PartialEq, Eq, Debug)]
pub enum ReadAll {
    /// The end was reached, and all that was left stands after the text.
    Whole,
    /// A read failed.
    Fault,
    /// More bytes came than the limit.
    TooLong,
    /// Memory was wanting for the text.
    NoMemory,
}

/// How the writing of a whole piece ended.
#[derive(Clone, Copy, PartialEq, Eq, Debug)]
pub enum WriteAll {
    /// The whole piece is written.
    Whole,
    /// A write failed. A prefix of the piece is written, and not all of it.
    Failed,
}

const ROOM: usize = 4096;

/// Reads a source to its end, or until more than `limit` bytes have come, and puts what it reads after
/// a text. After running out of memory the bytes read last may be lost.
#[tactic(auto, using(crate::proofs::ReadLaws::reading))]
pub fn read_all<S: Source>(source: &mut S, limit: u64, into: &mut Vec<u8>) -> ReadAll
    ensures bytes { ReadsAll result limit (S.left source.old) (S.left source.new) into.old.items
        into.new.items }
    ensures faults { CountsFaultOfReading result (S.read_faults source.old)
        (S.read_faults source.new) }
{
    let mut buffer = [0; ROOM];
    let mut room = limit;
    loop {
        match source.read(&mut buffer) {
            Got::Bytes(n) => {
                let bytes = &buffer[..n];
                if into.extend_from_slice(bytes).is_err() {
                    return ReadAll::NoMemory;
                }
                let count = n as u64;
                if count > room {
                    return ReadAll::TooLong;
                }
                room -= count;
            }
            Got::End => return ReadAll::Whole,
            Got::Failed => return ReadAll::Fault,
        }
    }
}

/// Writes a whole piece to a sink, in as many writes as it takes.
#[tactic(auto, using(crate::proofs::WriteLaws::writing))]
pub fn write_all<K: Sink>(sink: &mut K, piece: &[u8]) -> WriteAll
    ensures bytes { WritesAll result (K.written sink.old) (K.written sink.new) piece.now }
    ensures faults { CountsFaultOfWriting result (K.write_faults sink.old)
        (K.write_faults sink.new) }
{
    let mut rest = piece;
    while !rest.is_empty() {
        match sink.write(rest) {
            Put::Took(n) => rest = rest.split_at(n).1,
            Put::Failed => return WriteAll::Failed,
        }
    }
    WriteAll::Whole
}
