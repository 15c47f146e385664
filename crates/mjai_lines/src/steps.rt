ghost use Rattle.std.specs.Prelude.{◌≡◌, ◌+◌, ◌<◌};

use std::marker::Model;
use std::sync::ledger::{Blank, Book, Ledger, Share};

/// How many lines of deeds were rendered, counted in the ledger `L`. It takes no bytes, and does nothing when the program
/// runs: contracts see the number. Whatever renders the line of a deed is lent a counter and makes a step of it, so a call that
/// is lent one says by it how often it renders; one that is lent none makes its own.
#[derive(Drop)]
pub struct Steps<L: Ledger> {
    lines: Book<L>,
    own: Share<L>,
}

impl<L: Ledger> Model for Steps<L> {
    ghost use Rattle.std.specs.Prelude.{ℕ, ◌<◌};

    ghost Value = { ℕ };

    ghost view = { λ s. s.lines.total };

    // An amount stands on a part.
    ghost invariant = { λ s. 0 < s.own.parts };
}

impl<L: Ledger> Steps<L> {
    /// A counter at 0, on a new ledger of at least one part.
    pub fn new(blank: Blank) -> Steps<L>
        requires name { blank.name ≡ L.name }
        requires parts { blank.parts ≡ L.parts }
        requires some { 0 < blank.parts }
        ensures { result ≡ 0 }
    {
        let (lines, own) = blank.open::<L>();
        Steps { lines, own }
    }

    // Counts a line.
    pub(crate) fn take(&mut self)
        ensures { self.new ≡ self.old + 1 }
    {
        let Steps { lines, own } = self;
        lines.add(own, 1);
    }
}
