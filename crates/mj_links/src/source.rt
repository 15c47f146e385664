//! What bytes are read from.

ghost use Rattle.std.specs.Prelude.{ℕ, ◌<◌, List, length, Option};
ghost use Rattle.mj_links.specs.Sources.{Reads, CountsReadFault};
ghost use Rattle.mj_links.specs.declared.source.Got.{Got};

/// What one read gave.
#[derive(Clone, Copy, PartialEq, Eq, Debug)]
pub enum Got {
    /// So many bytes, at least one, at the front of the buffer.
    Bytes(usize),
    /// Nothing is left, and nothing more will come.
    End,
    /// A fault of the source. Nothing was read.
    Failed,
}

/// A source of bytes, such as an input or the reading half of a connection.
///
/// For proofs it tells what is `left` to be read, where that is known, as of a source in memory, and
/// counts its faults, `read_faults`.
pub trait Source {
    ghost left: { Self → Option (List ℕ) };

    ghost read_faults: { Self → ℕ };

    // what else a kind of source says of each read, as a link does of its writing half
    ghost also_reads: { Got → List ℕ → Self → Self → Type 0 } = { λ got into old new. Unit {0} };

    /// Reads some bytes, at least one and at most as many as fit, into the front of a buffer that has
    /// room. The source may give fewer than it has. `Failed` comes only with a fault, and the count of
    /// faults never falls.
    fn read(&mut self, into: &mut [u8]) -> Got
        requires { 0 < length into.old }
        ensures bytes { Reads result (left self.old) (left self.new) into.new }
        ensures faults { CountsReadFault result (read_faults self.old) (read_faults self.new) }
        ensures also { also_reads result into.new self.old self.new };
}
