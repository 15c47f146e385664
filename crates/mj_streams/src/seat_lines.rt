ghost use Rattle.std.specs.Prelude.{◌≡◌, ◌<◌, ◌+◌, ◌++◌, ◌∷◌, [], IfOk, OnOk, OnErr, option_copied, slice_get, length};
ghost use Rattle.mj_deeds.specs.declared.deed.Viewer.TheVariants.{Seat};
ghost use Rattle.mj_forms.specs.Lines.{line as line_for};
ghost use Rattle.mj_forms.specs.Choices.{line_with};

use crate::pages::Stream;
use crate::streams::prepare_line;
use mj_deeds::{Answers, Deed};
use mjai_lines::Steps;
use std::alloc::{AllocError, Global};
use std::marker::{Brand, Model};
use std::sync::ledger::{Blank, Ledger};

/// The lines of one seat, of the deeds that were pushed for it: each with the answers that the seat may give to the deed, rendered
/// once, as it was pushed.
#[derive(Drop)]
pub struct SeatLines {
    stream: Stream,
    // the newest line, as it is written without a list
    front: Vec<u8>,
}

impl Model for SeatLines {
    ghost use Rattle.std.specs.Prelude.{ℕ, List};
    ghost use Rattle.mj_streams.specs.Inner.Told.{told};

    ghost Value = { List (List ℕ) };

    ghost view = { λ s. told s.stream };
}

impl SeatLines {
    /// Before the first deed.
    pub fn new(alloc: Global) -> Result<SeatLines, AllocError>
        ensures { IfOk result (λ lines. lines ≡ []) }
    {
        let stream = Stream::new(alloc)?;
        Ok(SeatLines {
            stream,
            front: Vec::new(alloc),
        })
    }

    /// Adds the line of a deed for a seat, with the answers that the seat may give to it. Where memory is wanting nothing
    /// changes.
    pub fn push(
        &mut self,
        alloc: Global,
        seat: u8,
        deed: &Deed,
        possible: &Answers,
    ) -> Result<(), AllocError>
        ensures ok { OnOk result (self.new
            ≡ self.old ++ line_with possible.now (line_for (Seat seat) deed.now) ∷ []) }
        ensures err { OnErr result (self.new ≡ self.old) }
    {
        push_on::<Brand>(self, alloc, seat, deed, possible, Blank::new(1))
    }

    // Adds that line, counted: one line is rendered, and no other.
    fn push_counted<L: Ledger>(
        &mut self,
        alloc: Global,
        seat: u8,
        deed: &Deed,
        possible: &Answers,
        steps: &mut Steps<L>,
    ) -> Result<(), AllocError>
        ensures ok { OnOk result (self.new
            ≡ self.old ++ line_with possible.now (line_for (Seat seat) deed.now) ∷ []) }
        ensures err { OnErr result (self.new ≡ self.old) }
        ensures steps { steps.new ≡ steps.old + 1 }
    {
        let SeatLines { stream, front } = self;
        prepare_line(alloc, stream, front, seat, deed, possible, steps)?;
        stream.add();
        Ok(())
    }

    /// The number of lines.
    pub fn count(&self) -> usize
        ensures { result ≡ length self.now }
    {
        self.stream.count()
    }

    /// Line k; None exactly where there are at most k.
    pub fn line(&self, k: u32) -> Option<&[u8]>
        ensures { option_copied result ≡ slice_get self.now k }
    {
        self.stream.line(k)
    }
}

// Adds a line, counted on a new ledger.
fn push_on<L: Ledger>(
    lines: &mut SeatLines,
    alloc: Global,
    seat: u8,
    deed: &Deed,
    possible: &Answers,
    blank: Blank,
) -> Result<(), AllocError>
    requires name { blank.name ≡ L.name }
    requires parts { blank.parts ≡ L.parts }
    requires some { 0 < blank.parts }
    ensures ok { OnOk result (lines.new
        ≡ lines.old ++ line_with possible.now (line_for (Seat seat) deed.now) ∷ []) }
    ensures err { OnErr result (lines.new ≡ lines.old) }
{
    let mut steps = Steps::<L>::new(blank);
    lines.push_counted(alloc, seat, deed, possible, &mut steps)
}
