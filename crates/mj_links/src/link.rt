//! A connection, which is read from and written to.

ghost use Rattle.std.specs.Prelude.{◌≡◌, ℕ, List, Option, None, true};
ghost use Rattle.mj_links.specs.declared.source.Got.{Got};
ghost use Rattle.mj_links.specs.declared.sink.Put.{Put};
ghost use Rattle.mj_links.specs.Links.{ReadingStays, WritingStays, ReadsOn, GivesNone};

use crate::sink::Sink;
use crate::source::Source;

/// A connection to a player. For proofs it tells what `was_read` from it, where that is known, and
/// whether it is known to be `at_end`. A read changes nothing of its writing half, and a write nothing
/// of its reading half.
pub trait Link: Source + Sink {
    ghost was_read: { Self → Option (List ℕ) };

    ghost at_end: { Self → Type 0 };

    /// Ends the link. It changes nothing that the link tells, and no count.
    fn shut(&mut self)
        ensures reading { ReadingStays (was_read self.old) (was_read self.new)
            (Self.left self.old) (Self.left self.new)
            (Self.read_faults self.old) (Self.read_faults self.new) }
        ensures writing { WritingStays (Self.written self.old) (Self.written self.new)
            (Self.write_faults self.old) (Self.write_faults self.new) };

    /// Whether its end, or a fault, is the next thing to be read. It doesn't wait, and changes nothing
    /// that the link tells, and no count. A link may say no at its end too.
    fn has_ended(&mut self) -> bool
        ensures ended { result ≡ true → at_end self.new }
        ensures reading { ReadingStays (was_read self.old) (was_read self.new)
            (Self.left self.old) (Self.left self.new)
            (Self.read_faults self.old) (Self.read_faults self.new) }
        ensures writing { WritingStays (Self.written self.old) (Self.written self.new)
            (Self.write_faults self.old) (Self.write_faults self.new) };

    // a read puts its bytes after what was read, and leaves the writing half alone
    ghost reads_apart: { (got : Got) → (into : List ℕ) → (old new : Self)
        → Self.also_reads got into old new
        → ReadsOn got into (was_read old) (was_read new)
        × WritingStays (Self.written old) (Self.written new)
        (Self.write_faults old) (Self.write_faults new) };

    // a read at the end gives no bytes, and the link stays there
    ghost ends: { (got : Got) → (into : List ℕ) → (old new : Self)
        → Self.also_reads got into old new
        → at_end old → GivesNone got × at_end new };

    // only a link that doesn't tell what is left may say that its end is seen
    ghost untold: { (link : Self) → at_end link → Self.left link ≡ None };

    // a write leaves the reading half alone
    ghost writes_apart: { (put : Put) → (piece : List ℕ) → (old new : Self)
        → Self.also_writes put piece old new
        → ReadingStays (was_read old) (was_read new) (Self.left old) (Self.left new)
        (Self.read_faults old) (Self.read_faults new) };
}
