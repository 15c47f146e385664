//! The bytes that were read from a link and not yet handed out.

ghost use Rattle.std.specs.Prelude.{◌≡◌, ℕ, ◌≤◌, length};

use crate::source::{Got, Source};
use std::alloc::AllocError;

pub(crate) const ROOM: usize = 4096;

/// At most 4,096 bytes, oldest first, at the front of the room for them.
#[derive(Drop)]
pub(crate) struct LineBuffer {
    bytes: [u8; ROOM],
    count: usize,
    ghost room: { length bytes ≡ 4096 },
    ghost within: { count ≤ 4096 },
}

impl LineBuffer {
    ghost use Rattle.std.specs.Prelude.{◌<◌, ◌+◌, ◌==◌, [], drop, take, OnOk, OnErr};
    ghost use Rattle.std.specs.List.{position};
    ghost use Rattle.mj_links.specs.LineBuffers.{held_bytes};
    ghost use Rattle.mj_links.specs.Fills.{Fills};
    ghost use Rattle.mj_links.specs.Sources.{CountsReadFault};

    /// Nothing is held.
    pub(crate) fn new() -> LineBuffer
        ensures { held_bytes result ≡ [] }
    {
        LineBuffer {
            bytes: [0; ROOM],
            count: 0,
        }
    }

    /// All that is held.
    pub(crate) fn all(&self) -> &[u8]
        ensures { result.now ≡ held_bytes self.now }
    {
        &self.bytes[..self.count]
    }

    /// The place of the first newline.
    pub(crate) fn line_end(&self) -> Option<usize>
        ensures { result ≡ position (λ b. b == 10) (held_bytes self.now) }
    {
        self.all().iter().position(|byte| *byte == b'\n')
    }

    /// Whether there is no more room.
    #[tactic(auto, using(crate::proofs::HeldLaws::held_length))]
    pub(crate) fn is_full(&self) -> bool
        ensures { result ≡ (length (held_bytes self.now) == 4096) }
    {
        self.count == ROOM
    }

    /// Drops all that is held.
    pub(crate) fn clear(&mut self)
        ensures { held_bytes self.new ≡ [] }
    {
        self.count = 0;
    }

    /// Hands out the bytes before a place in place of what stands in the line, and drops them and the
    /// one at the place.
    pub(crate) fn hand_out(&mut self, end: usize, line: &mut Vec<u8>) -> Result<(), AllocError>
        requires { end < length (held_bytes self.old) }
        ensures ok { OnOk result ((line.new.items ≡ take end (held_bytes self.old))
            × (held_bytes self.new ≡ drop (end + 1) (held_bytes self.old))) }
        ensures err { OnErr result ((line.new.items ≡ line.old.items)
            × (held_bytes self.new ≡ held_bytes self.old)) }
    {
        let mut fresh = Vec::new(*line.allocator());
        fresh.extend_from_slice(&self.all()[..end])?;
        *line = fresh;
        self.drop_front(end + 1);
        Ok(())
    }

    /// Drops so many bytes from the front.
    #[tactic(auto, using(crate::proofs::HeldLaws::dropped, crate::proofs::HeldLaws::held_length))]
    pub(crate) fn drop_front(&mut self, count: usize)
        requires { count ≤ length (held_bytes self.old) }
        ensures { held_bytes self.new ≡ drop count (held_bytes self.old) }
    {
        self.bytes.copy_within(count..self.count, 0);
        self.count -= count;
    }

    /// Reads once from a source after what is held, where there is room.
    #[tactic(auto, using(crate::proofs::HeldLaws::filled))]
    pub(crate) fn fill<S: Source>(&mut self, source: &mut S) -> Got
        requires { length (held_bytes self.old) < 4096 }
        ensures bytes { Fills result (S.left source.old) (S.left source.new)
            (λ into. S.also_reads result into source.old source.new)
            (held_bytes self.old) (held_bytes self.new) }
        ensures faults { CountsReadFault result (S.read_faults source.old)
            (S.read_faults source.new) }
    {
        match source.read(&mut self.bytes[self.count..]) {
            Got::Bytes(n) => {
                self.count += n;
                Got::Bytes(n)
            }
            Got::End => Got::End,
            Got::Failed => Got::Failed,
        }
    }
}
