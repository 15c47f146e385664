ghost use Rattle.std.specs.Prelude.{◌≡◌, ℕ, List, IfOk};
ghost use Rattle.mj_ports.specs.declared.picking.Picked.{Picked};

use std::alloc::{AllocError, Global};

/// For which of many tables a line is that wants a seat.
#[derive(Clone, Copy, Debug, PartialEq, Eq)]
pub enum Picked {
    /// The table with this number; they are numbered from 0.
    Table(u8),
    /// The line is no join with a name and a key of the right form.
    BadName,
    /// The line names a room of which there is none.
    NoRoom,
}

/// What picks one of many tables for the first line of a link.
pub trait Picker: Sync {
    // For which table a line is.
    ghost picks: { Self → List ℕ → Picked };

    /// Picks a table for the line. The only error is running out of memory.
    fn pick(&self, alloc: Global, line: &[u8]) -> Result<Picked, AllocError>
        ensures { IfOk result (λ p. p ≡ picks self.now line.now) };
}
