//! The standard library's readers and writers, as the system's standard input and output are, for
//! sources and sinks.

ghost use Rattle.std.specs.Prelude.{◌≡◌};

use crate::faults::FaultCount;
use crate::sink::{Put, Sink};
use crate::source::{Got, Source};
use std::io::{Read, Write};

/// A reader as a source. Its end is a read that gives no byte, and each error is a fault.
#[derive(Drop)]
pub struct ReaderSource<R: Read> {
    reader: R,
    faults: FaultCount,
}

impl<R: Read> ReaderSource<R> {
    /// A source over a reader, such as `rt.stdin()`.
    pub fn new(reader: R) -> ReaderSource<R>
        ensures left { ⟦<ReaderSource<R> as Source>⟧.left result ≡ R.remaining reader }
        ensures faults { ⟦<ReaderSource<R> as Source>⟧.read_faults result ≡ 0 }
    {
        ReaderSource {
            reader,
            faults: FaultCount::new(),
        }
    }
}

impl<R: Read> Source for ReaderSource<R> {
    ghost left = { λ s. R.remaining s.reader };

    ghost read_faults = { λ s. s.faults.count };

    fn read(&mut self, into: &mut [u8]) -> Got {
        match self.reader.read(into) {
            Ok(0) => Got::End,
            Ok(count) => Got::Bytes(count),
            Err(_) => {
                self.faults = self.faults.more();
                Got::Failed
            }
        }
    }
}

/// A writer as a sink. An error, and a write that takes no byte, is a fault.
#[derive(Drop)]
pub struct WriterSink<W: Write> {
    writer: W,
    faults: FaultCount,
}

impl<W: Write> WriterSink<W> {
    /// A sink over a writer, such as `rt.stdout()`.
    pub fn new(writer: W) -> WriterSink<W>
        ensures written { ⟦<WriterSink<W> as Sink>⟧.written result ≡ W.contents writer }
        ensures faults { ⟦<WriterSink<W> as Sink>⟧.write_faults result ≡ 0 }
    {
        WriterSink {
            writer,
            faults: FaultCount::new(),
        }
    }
}

impl<W: Write> Sink for WriterSink<W> {
    ghost written = { λ s. W.contents s.writer };

    ghost write_faults = { λ s. s.faults.count };

    fn write(&mut self, piece: &[u8]) -> Put {
        match self.writer.write(piece) {
            Ok(0) | Err(_) => {
                self.faults = self.faults.more();
                Put::Failed
            }
            Ok(count) => Put::Took(count),
        }
    }
}
