//! A link in memory, some of whose reads and writes fail as planned.

ghost use Rattle.std.specs.Prelude.{◌≡◌, ℕ, [], Some};

use crate::link::Link;
use crate::mem_sink::MemSink;
use crate::mem_source::MemSource;
use crate::sink::{Put, Sink};
use crate::source::{Got, Source};

/// A link in memory. Its reads and its writes are counted from 1, each for themselves, and a call whose
/// number is in the list for its kind fails.
#[derive(Drop)]
pub struct MemLink {
    source: MemSource,
    sink: MemSink,
}

impl MemLink {
    ghost use Rattle.mj_links.specs.MemLinks.{link_reads, link_writes};
    ghost use Rattle.mj_links.specs.Memory.{IsNewPlan};

    /// A link from which these bytes will be read, and on which nothing is written yet.
    pub fn new(bytes: Vec<u8>, reads: Vec<u64>, writes: Vec<u64>) -> MemLink
        ensures left { ⟦<MemLink as Source>⟧.left result ≡ Some bytes.items }
        ensures read { ⟦<MemLink as Link>⟧.was_read result ≡ Some [] }
        ensures written { ⟦<MemLink as Sink>⟧.written result ≡ Some [] }
        ensures read_faults { ⟦<MemLink as Source>⟧.read_faults result ≡ 0 }
        ensures write_faults { ⟦<MemLink as Sink>⟧.write_faults result ≡ 0 }
        ensures planned_reads { IsNewPlan (link_reads result) reads.items }
        ensures planned_writes { IsNewPlan (link_writes result) writes.items }
    {
        MemLink {
            source: MemSource::new(bytes, reads),
            sink: MemSink::new(writes),
        }
    }

    /// All that is written on the link, oldest first.
    pub fn written(&self) -> &[u8]
        ensures { ⟦<MemLink as Sink>⟧.written self.now ≡ Some result.now }
    {
        self.sink.written()
    }
}

impl Source for MemLink {
    ghost use Rattle.std.specs.Prelude.{◌<◌, length};
    ghost use Rattle.mj_links.specs.MemLinks.{link_unread, link_read_faults, link_reads, MemReadsApart};
    ghost use Rattle.mj_links.specs.Memory.{CountsCall, mem_read, next_fails};
    ghost use Rattle.mj_links.specs.Sources.{Reads, CountsReadFault};

    ghost left = { λ l. Some (link_unread l) };

    ghost read_faults = { link_read_faults };

    ghost also_reads = { MemReadsApart };

    fn read(&mut self, into: &mut [u8]) -> Got
        requires { 0 < length into.old }
        ensures bytes { Reads result (Some (link_unread self.old)) (Some (link_unread self.new))
            into.new }
        ensures faults { CountsReadFault result (link_read_faults self.old)
            (link_read_faults self.new) }
        ensures also { MemReadsApart result into.new self.old self.new }
        ensures exact { result ≡ mem_read (next_fails (link_reads self.old))
            (link_unread self.old) (length into.old) }
        ensures counted { CountsCall (link_reads self.old) (link_reads self.new) }
    {
        self.source.read(into)
    }
}

impl Sink for MemLink {
    ghost use Rattle.std.specs.Prelude.{◌<◌, length};
    ghost use Rattle.mj_links.specs.MemLinks.{link_written, link_write_faults, link_writes, MemWritesApart};
    ghost use Rattle.mj_links.specs.Memory.{CountsCall, TakesWhole, next_fails};
    ghost use Rattle.mj_links.specs.Sinks.{Writes, CountsWriteFault};

    ghost written = { λ l. Some (link_written l) };

    ghost write_faults = { link_write_faults };

    ghost also_writes = { MemWritesApart };

    fn write(&mut self, piece: &[u8]) -> Put
        requires { 0 < length piece.now }
        ensures bytes { Writes result (Some (link_written self.old))
            (Some (link_written self.new)) piece.now }
        ensures faults { CountsWriteFault result (link_write_faults self.old)
            (link_write_faults self.new) }
        ensures also { MemWritesApart result piece.now self.old self.new }
        ensures whole { TakesWhole result (next_fails (link_writes self.old)) piece.now }
        ensures counted { CountsCall (link_writes self.old) (link_writes self.new) }
    {
        self.sink.write(piece)
    }
}

impl Link for MemLink {
    ghost use Rattle.mj_links.specs.MemLinks.{link_gone};

    ghost was_read = { λ l. Some (link_gone l) };

    // it says nothing of its end before it is read
    ghost at_end = { λ _. ⊥ };

    fn shut(&mut self) {}

    fn has_ended(&mut self) -> bool {
        false
    }

    ghost reads_apart = { λ got into old new h. h };

    ghost ends = { λ got into old new h none. absurd none };

    ghost untold = { λ link none. absurd none };

    ghost writes_apart = { λ put piece old new h. h };
}
