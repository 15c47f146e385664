//! A run whose words may ask for the command `record`.

ghost use Rattle.std.specs.Prelude.{◌≡◌, map};
ghost use Rattle.std.specs.String.{string_bytes};
ghost use Rattle.mj_record.specs.Record.{RunsRecord, asks_record, begins_with_record};
ghost use Rattle.mj_runs.specs.Faults.{CountsReadFaults, CountsWriteFaults};

use crate::journal::record_of;
use crate::status::status_of_record;
use mj_links::{Sink, Source};
use mj_runs::Status;
use std::alloc::Global;

/// Whether the first word, after the program's name, is that of the command `record`.
pub fn is_for_record(words: &[String]) -> bool
    ensures { result ≡ begins_with_record (map string_bytes words.now) }
{
    match words {
        [first, ..] => first.as_str() == "record",
        [] => false,
    }
}

/// Runs the command `record`, which has no words after it: it reads a journal from the source, as `keep` and `host` write them,
/// and writes the record of its game so far, which `replay` and `observe` read. Other words change nothing. No disk is touched
/// and no lock is asked for, so the journal may be that of a game that is being played.
pub fn run_record<S: Source, K: Sink>(
    alloc: Global,
    words: &[String],
    source: &mut S,
    sink: &mut K,
) -> Status
    ensures run { RunsRecord (asks_record (map string_bytes words.now)) result (S.left source.old)
        (S.left source.new) (K.written sink.old) (K.written sink.new) }
    ensures reads { CountsReadFaults result (S.read_faults source.old) (S.read_faults source.new) }
    ensures writes { CountsWriteFaults result (K.write_faults sink.old) (K.write_faults sink.new) }
{
    if !is_record_alone(words) {
        return Status::Words;
    }
    status_of_record(record_of(alloc, source, sink))
}

fn is_record_alone(words: &[String]) -> bool
    ensures { result ≡ asks_record (map string_bytes words.now) }
{
    match words {
        [word] => word.as_str() == "record",
        _ => false,
    }
}
