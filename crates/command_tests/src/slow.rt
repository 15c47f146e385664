//! A source, a sink and a link that take one byte at a time.

use mj_links::{Got, Link, MemLink, MemSink, MemSource, Put, Sink, Source};

/// Gives one byte a read.
#[derive(Drop)]
pub struct SlowSource(pub MemSource);

impl Source for SlowSource {
    ghost left = { λ s. ⟦<MemSource as Source>⟧.left s.0 };

    ghost read_faults = { λ s. ⟦<MemSource as Source>⟧.read_faults s.0 };

    fn read(&mut self, into: &mut [u8]) -> Got {
        self.0.read(&mut into[..1])
    }
}

/// Takes one byte a write.
#[derive(Drop)]
pub struct SlowSink(pub MemSink);

impl Sink for SlowSink {
    ghost written = { λ s. ⟦<MemSink as Sink>⟧.written s.0 };

    ghost write_faults = { λ s. ⟦<MemSink as Sink>⟧.write_faults s.0 };

    fn write(&mut self, piece: &[u8]) -> Put {
        self.0.write(&piece[..1])
    }
}

/// Gives one byte a read, and takes one byte a write.
#[derive(Drop)]
pub struct SlowLink(pub MemLink);

impl Source for SlowLink {
    ghost left = { λ s. ⟦<MemLink as Source>⟧.left s.0 };

    ghost read_faults = { λ s. ⟦<MemLink as Source>⟧.read_faults s.0 };

    ghost also_reads = { λ got into old new. ⟦<MemLink as Source>⟧.also_reads got into old.0 new.0 };

    fn read(&mut self, into: &mut [u8]) -> Got {
        self.0.read(&mut into[..1])
    }
}

impl Sink for SlowLink {
    ghost written = { λ s. ⟦<MemLink as Sink>⟧.written s.0 };

    ghost write_faults = { λ s. ⟦<MemLink as Sink>⟧.write_faults s.0 };

    ghost also_writes = { λ put piece old new. ⟦<MemLink as Sink>⟧.also_writes put piece old.0 new.0 };

    fn write(&mut self, piece: &[u8]) -> Put {
        self.0.write(&piece[..1])
    }
}

impl Link for SlowLink {
    ghost was_read = { λ s. ⟦<MemLink as Link>⟧.was_read s.0 };

    ghost at_end = { λ s. ⟦<MemLink as Link>⟧.at_end s.0 };

    fn shut(&mut self) {
        self.0.shut();
    }

    fn has_ended(&mut self) -> bool {
        self.0.has_ended()
    }

    ghost reads_apart = { λ got into old new h. h };

    ghost ends = { λ got into old new h none. absurd none };

    ghost untold = { λ link none. absurd none };

    ghost writes_apart = { λ put piece old new h. h };
}
