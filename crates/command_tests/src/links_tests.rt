use crate::slow::{SlowSink, SlowSource};
use mj_links::{
    FaultCount, Got, MemSink, MemSource, Put, ReadAll, ReaderSource, Sink, Source, WriteAll,
    WriterSink, read_all, write_all,
};
use std::alloc::{AllocError, Global};

const LINE: &[u8] = b"gone 2\n";

// A source of a line, one of whose reads fails.
fn line(alloc: Global, fails: u64) -> Result<MemSource, AllocError> {
    let reads = [fails].to_vec(alloc)?;
    Ok(MemSource::new(LINE.to_vec(alloc)?, reads))
}

// Whether a source is read to such an end, after a text, and the text is then this one.
fn reads<S: Source>(alloc: Global, source: &mut S, limit: u64, end: ReadAll, text: &[u8]) -> bool {
    match Vec::from_slice(alloc, b"> ") {
        Ok(mut read) => read_all(source, limit, &mut read) == end && read.as_slice() == text,
        Err(_) => false,
    }
}

// Whether reads of two bytes each come so, and the bytes are then these.
fn come_so(source: &mut MemSource, reads: &[(Got, [u8; 2])]) -> bool {
    let mut two = [0; 2];
    let mut right = true;
    for (got, bytes) in reads {
        right = right && source.read(&mut two) == *got && two == *bytes;
    }
    right
}

// Whether writes of a piece come so, and this is then written.
fn go_so(sink: &mut MemSink, writes: &[(Put, &[u8])]) -> bool {
    let mut right = true;
    for (put, text) in writes {
        right = right && sink.write(b"chi") == *put && sink.written() == *text;
    }
    right
}

// Of a source of a line the number of the read that fails, the limit, how it is read, and the text then.
const WHOLE: [(u64, u64, ReadAll, &[u8]); 5] = [
    (0, 7, ReadAll::Whole, b"> gone 2\n"),
    (0, 6, ReadAll::TooLong, b"> gone 2\n"),
    (1, 7, ReadAll::Fault, b"> "),
    (2, 7, ReadAll::Fault, b"> gone 2\n"),
    (3, 7, ReadAll::Whole, b"> gone 2\n"),
];

// Of one that gives a byte a read.
const BY_BYTES: [(u64, u64, ReadAll, &[u8]); 3] = [
    (0, 7, ReadAll::Whole, b"> gone 2\n"),
    (2, 7, ReadAll::Fault, b"> g"),
    (0, 3, ReadAll::TooLong, b"> gone"),
];

fn is_read(alloc: Global, row: &(u64, u64, ReadAll, &[u8])) -> bool {
    match line(alloc, row.0) {
        Ok(mut source) => reads(alloc, &mut source, row.1, row.2, row.3),
        Err(_) => false,
    }
}

fn is_read_slowly(alloc: Global, row: &(u64, u64, ReadAll, &[u8])) -> bool {
    match line(alloc, row.0) {
        Ok(source) => reads(alloc, &mut SlowSource(source), row.1, row.2, row.3),
        Err(_) => false,
    }
}

fn are_read(alloc: Global) -> bool {
    let mut all = true;
    for row in &WHOLE {
        all = all && is_read(alloc, row);
    }
    for row in &BY_BYTES {
        all = all && is_read_slowly(alloc, row);
    }
    all
}

#[test]
fn a_source_is_read_to_its_end_or_a_fault_or_past_the_limit(rt: HostRuntime) {
    assert!(rt; are_read(rt.alloc()));
}

// The number of the write that fails, how a piece is written byte by byte, and what then is.
const WRITTEN: [(u64, WriteAll, &[u8]); 4] = [
    (0, WriteAll::Whole, b"riichi"),
    (1, WriteAll::Failed, b""),
    (3, WriteAll::Failed, b"ri"),
    (7, WriteAll::Whole, b"riichi"),
];

fn sink(alloc: Global, fails: u64) -> Result<MemSink, AllocError> {
    Ok(MemSink::new([fails].to_vec(alloc)?))
}

fn is_written(sink: MemSink, end: WriteAll, text: &[u8]) -> bool {
    let mut slow = SlowSink(sink);
    write_all(&mut slow, b"riichi") == end && slow.0.written() == text
}

fn are_written(alloc: Global) -> bool {
    let mut all = true;
    for (fails, end, text) in &WRITTEN {
        all = all
            && match sink(alloc, *fails) {
                Ok(sink) => is_written(sink, *end, text),
                Err(_) => false,
            };
    }
    all
}

const READS: [(Got, [u8; 2]); 5] = [
    (Got::Failed, [0, 0]),
    (Got::Bytes(2), *b"po"),
    (Got::Failed, *b"po"),
    (Got::Bytes(1), *b"no"),
    (Got::End, *b"no"),
];

const WRITES: [(Put, &[u8]); 3] = [
    (Put::Took(3), b"chi"),
    (Put::Failed, b"chi"),
    (Put::Took(3), b"chichi"),
];

// A source of a word whose first and third reads fail.
fn word(alloc: Global) -> Result<MemSource, AllocError> {
    let reads = [1, 3].to_vec(alloc)?;
    Ok(MemSource::new(b"pon".to_vec(alloc)?, reads))
}

// Whether the reads of a word and the writes on a sink come as they are planned.
fn come_as_planned(alloc: Global) -> bool {
    match (word(alloc), sink(alloc, 2)) {
        (Ok(mut source), Ok(mut sink)) => come_so(&mut source, &READS) && go_so(&mut sink, &WRITES),
        _ => false,
    }
}

#[test]
fn a_piece_is_written_whole_or_up_to_a_fault_and_planned_calls_fail(rt: HostRuntime) {
    assert!(rt; are_written(rt.alloc()) && come_as_planned(rt.alloc()));
}

fn adapters_carry(alloc: Global) -> bool {
    let mut source = ReaderSource::new(b"ron".as_slice());
    let mut sink = WriterSink::new(Vec::new(alloc));
    let _ = FaultCount::new().more();
    reads(alloc, &mut source, 3, ReadAll::Whole, b"> ron") && sink.write(b"ron") == Put::Took(3)
}

#[test]
fn readers_and_writers_are_sources_and_sinks(rt: HostRuntime) {
    assert!(rt; adapters_carry(rt.alloc()));
}
