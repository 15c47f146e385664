//! What a run comes to.

use mj_bytes::push_number;
use mj_front::{Status, exit_code, is_for_waiting, run_alone, status_text};
use mj_journal::MemDisk;
use mj_links::{MemSink, MemSource};
use std::alloc::{AllocError, Global};

/// What a run comes to: what it writes, and its exit code, with the text of its status after a space where there is one.
#[derive(Drop)]
pub struct Outcome {
    pub bytes: Vec<u8>,
    pub ending: Vec<u8>,
}

/// What a run on these words, which white space parts, and on this input comes to. Words of a command that waits for others
/// are refused.
pub fn outcome_of(alloc: Global, words: &[u8], input: Vec<u8>) -> Result<Outcome, AllocError> {
    let words = words_of(alloc, words)?;
    let disk = MemDisk::new(b"", Vec::new(alloc))?;
    let source = MemSource::new(input, Vec::new(alloc));
    run_on(alloc, words.as_slice(), source, disk)
}

fn run_on(
    alloc: Global,
    words: &[String],
    mut source: MemSource,
    mut disk: MemDisk,
) -> Result<Outcome, AllocError> {
    let mut sink = MemSink::new(Vec::new(alloc));
    let status = status_of(alloc, words, &mut source, &mut sink, &mut disk);
    let ending = ending_of(alloc, status)?;
    Ok(Outcome {
        bytes: Vec::from_slice(alloc, sink.written())?,
        ending,
    })
}

fn status_of(
    alloc: Global,
    words: &[String],
    source: &mut MemSource,
    sink: &mut MemSink,
    disk: &mut MemDisk,
) -> Status {
    if is_for_waiting(words) {
        return Status::Words;
    }
    run_alone(alloc, words, source, sink, disk)
}

fn words_of(alloc: Global, line: &[u8]) -> Result<Vec<String>, AllocError> {
    let mut words = Vec::new(alloc);
    if let Ok(text) = str::from_utf8(line) {
        for word in text.split_whitespace() {
            words.push(String::from_str(alloc, word)?)?;
        }
    }
    Ok(words)
}

fn ending_of(alloc: Global, status: Status) -> Result<Vec<u8>, AllocError> {
    let mut ending = Vec::new(alloc);
    push_number(&mut ending, u64::from(exit_code(&status)))?;
    push_text(&mut ending, status_text(alloc, &status)?.as_slice())?;
    Ok(ending)
}

// The text of a status without its newline, after a space; nothing where it has none.
fn push_text(ending: &mut Vec<u8>, text: &[u8]) -> Result<(), AllocError> {
    match text.strip_suffix(b"\n") {
        Some(line) => {
            ending.push(b' ')?;
            ending.extend_from_slice(line)
        }
        None => Ok(()),
    }
}
