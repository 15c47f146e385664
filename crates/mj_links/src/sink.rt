//! What bytes are written to.

ghost use Rattle.std.specs.Prelude.{ℕ, ◌<◌, List, length, Option};
ghost use Rattle.mj_links.specs.Sinks.{Writes, CountsWriteFault};
ghost use Rattle.mj_links.specs.declared.sink.Put.{Put};

/// What one write took.
#[derive(Clone, Copy, PartialEq, Eq, Debug)]
pub enum Put {
    /// So many bytes, at least one, from the beginning of the piece.
    Took(usize),
    /// A fault of the sink. Nothing was written.
    Failed,
}

/// A sink of bytes, such as an output or the writing half of a connection.
///
/// For proofs it tells what is `written`, where that is known, as of a sink in memory, and counts its
/// faults, `write_faults`.
pub trait Sink {
    ghost written: { Self → Option (List ℕ) };

    ghost write_faults: { Self → ℕ };

    // what else a kind of sink says of each write, as a link does of its reading half
    ghost also_writes: { Put → List ℕ → Self → Self → Type 0 } = { λ put piece old new. Unit {0} };

    /// Writes some bytes, at least one, from the beginning of a piece that isn't empty. `Failed` comes only
    /// with a fault, and the count of faults never falls.
    fn write(&mut self, piece: &[u8]) -> Put
        requires { 0 < length piece.now }
        ensures bytes { Writes result (written self.old) (written self.new) piece.now }
        ensures faults { CountsWriteFault result (write_faults self.old) (write_faults self.new) }
        ensures also { also_writes result piece.now self.old self.new };
}
