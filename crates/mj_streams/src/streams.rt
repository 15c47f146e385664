ghost use Rattle.std.specs.Prelude.{◌≡◌, ◌≤◌, ◌<◌, ◌+◌, IfOk, OnOk, OnErr, option_copied, slice_get, vec_len};
ghost use Rattle.mj_deeds.specs.declared.deed.Viewer.TheVariants.{Seat};
ghost use Rattle.mj_deeds.specs.Four.{at_seat};
ghost use Rattle.mj_forms.specs.Lines.{line as line_for};
ghost use Rattle.mj_forms.specs.Choices.{line_with};
ghost use Rattle.mj_streams.specs.Inner.Alike.{are_told_alike};
ghost use Rattle.mj_streams.specs.Inner.Told.{told, HasRoom};
ghost use Rattle.mj_streams.specs.Streams.{no_lines, with_deed};

use crate::pages::Stream;
use mj_deeds::{Answers, Deed, Four, Viewer};
use mjai_lines::{Steps, write};
use std::alloc::{AllocError, Global};
use std::marker::{Brand, Model};
use std::sync::ledger::{Blank, Ledger};

/// The deeds of a game as the seats are told of them: the line of each deed for each seat with the answers that the seat may
/// give to it, which was rendered once, as the deed was pushed: once for all seats that are told the same, and then with the
/// list of each. Neither the deeds nor the lists are kept.
#[derive(Drop)]
pub struct Streams {
    first: Stream,
    second: Stream,
    third: Stream,
    fourth: Stream,
    // the newest deed's line for one seat, as it is written without a list
    front: Vec<u8>,
}

impl Model for Streams {
    ghost use Rattle.std.specs.Prelude.{ℕ, List};
    ghost use Rattle.mj_deeds.specs.declared.four.Four.{Four};
    ghost use Rattle.mj_streams.specs.Inner.Told.{told};

    ghost Value = { Four (List (List ℕ)) };

    ghost view = { λ s. record {
      first = told s.first;
      second = told s.second;
      third = told s.third;
      fourth = told s.fourth;
    } };
}

impl Streams {
    /// Before the first deed.
    pub fn new(alloc: Global) -> Result<Streams, AllocError>
        ensures { IfOk result (λ streams. streams ≡ no_lines) }
    {
        let first = Stream::new(alloc)?;
        let second = Stream::new(alloc)?;
        let third = Stream::new(alloc)?;
        let fourth = Stream::new(alloc)?;
        Ok(Streams {
            first,
            second,
            third,
            fourth,
            front: Vec::new(alloc),
        })
    }

    /// Adds a deed with the answers that each seat may give to it; its line is rendered once for each seat at most, and no other.
    /// Where memory is wanting nothing changes but the counter.
    pub fn push<L: Ledger>(
        &mut self,
        alloc: Global,
        deed: &Deed,
        possible: &Four<Answers>,
        steps: &mut Steps<L>,
    ) -> Result<(), AllocError>
        ensures ok { OnOk result (self.new ≡ with_deed self.old deed.now possible.now) }
        ensures err { OnErr result (self.new ≡ self.old) }
        ensures steps { steps.new ≤ steps.old + 4 }
    {
        let Streams {
            first,
            second,
            third,
            fourth,
            front,
        } = self;
        prepare_line(alloc, first, front, 0, deed, &possible.first, steps)?;
        prepare_next(alloc, second, front, 0, 1, deed, &possible.second, steps)?;
        prepare_next(alloc, third, front, 1, 2, deed, &possible.third, steps)?;
        prepare_next(alloc, fourth, front, 2, 3, deed, &possible.fourth, steps)?;
        first.add();
        second.add();
        third.add();
        fourth.add();
        Ok(())
    }

    /// Adds a deed as `push` does, with a counter that is made for this call.
    pub fn push_alone(
        &mut self,
        alloc: Global,
        deed: &Deed,
        possible: &Four<Answers>,
    ) -> Result<(), AllocError>
        ensures ok { OnOk result (self.new ≡ with_deed self.old deed.now possible.now) }
        ensures err { OnErr result (self.new ≡ self.old) }
    {
        push_on::<Brand>(self, alloc, deed, possible, Blank::new(1))
    }

    /// The line of deed k for a seat, 0 to 3; None exactly where there are at most k deeds.
    pub fn line(&self, seat: u8, k: u32) -> Option<&[u8]>
        requires { seat < 4 }
        ensures { option_copied result ≡ slice_get (at_seat self.now seat) k }
    {
        match seat {
            0 => self.first.line(k),
            1 => self.second.line(k),
            2 => self.third.line(k),
            _ => self.fourth.line(k),
        }
    }
}

// Prepares the line of a deed for a seat, which is written in place of another, with the answers that the seat may give.
#[inline(always)]
pub(crate) fn prepare_line<L: Ledger>(
    alloc: Global,
    stream: &mut Stream,
    line: &mut Vec<u8>,
    seat: u8,
    deed: &Deed,
    possible: &Answers,
    steps: &mut Steps<L>,
) -> Result<(), AllocError>
    ensures lines { told stream.new ≡ told stream.old }
    ensures line { OnOk result (line.new.items ≡ line_for (Seat seat) deed.now) }
    ensures text { OnOk result (stream.new.text.items
        ≡ line_with possible.now (line_for (Seat seat) deed.now)) }
    ensures room { OnOk result (HasRoom stream.new (vec_len stream.new.text)) }
    ensures steps { steps.new ≡ steps.old + 1 }
{
    write_over(alloc, line, seat, deed, steps)?;
    stream.prepare(alloc, line.as_slice(), possible)
}

// Prepares the line of a deed for the next seat, from that for a seat.
#[inline(always)]
fn prepare_next<L: Ledger>(
    alloc: Global,
    stream: &mut Stream,
    line: &mut Vec<u8>,
    seat: u8,
    next: u8,
    deed: &Deed,
    possible: &Answers,
    steps: &mut Steps<L>,
) -> Result<(), AllocError>
    requires { line.old.items ≡ line_for (Seat seat) deed.now }
    ensures lines { told stream.new ≡ told stream.old }
    ensures line { OnOk result (line.new.items ≡ line_for (Seat next) deed.now) }
    ensures text { OnOk result (stream.new.text.items
        ≡ line_with possible.now (line_for (Seat next) deed.now)) }
    ensures room { OnOk result (HasRoom stream.new (vec_len stream.new.text)) }
    ensures steps { steps.new ≤ steps.old + 1 }
{
    turn(alloc, line, seat, next, deed, steps)?;
    stream.prepare(alloc, line.as_slice(), possible)
}

// From the line of a deed for a seat, that for another: it stays where the two are told the same.
fn turn<L: Ledger>(
    alloc: Global,
    line: &mut Vec<u8>,
    seat: u8,
    next: u8,
    deed: &Deed,
    steps: &mut Steps<L>,
) -> Result<(), AllocError>
    requires { line.old.items ≡ line_for (Seat seat) deed.now }
    ensures line { OnOk result (line.new.items ≡ line_for (Seat next) deed.now) }
    ensures steps { steps.new ≤ steps.old + 1 }
{
    if are_told_alike(seat, next, deed) {
        return Ok(());
    }
    write_over(alloc, line, next, deed, steps)
}

// Writes the line of a deed for a seat in place of another.
fn write_over<L: Ledger>(
    alloc: Global,
    line: &mut Vec<u8>,
    seat: u8,
    deed: &Deed,
    steps: &mut Steps<L>,
) -> Result<(), AllocError>
    ensures line { OnOk result (line.new.items ≡ line_for (Seat seat) deed.now) }
    ensures steps { steps.new ≡ steps.old + 1 }
{
    line.clear();
    write(alloc, Viewer::Seat(seat), deed, None, line, steps)
}

// Whether two seats are told the same of a deed: the start of a game tells each its number, that of a hand its tiles, and a
// draw is seen by its seat alone. All else hides nothing from a seat that another sees.
fn are_told_alike(seat: u8, other: u8, deed: &Deed) -> bool
    ensures { result ≡ are_told_alike seat other deed.now }
{
    match deed {
        Deed::StartGame { .. } => false,
        Deed::StartHand { .. } => false,
        Deed::Draw { seat: who, .. } => *who != seat && *who != other,
        _ => true,
    }
}

// Adds a deed, counted on a new ledger.
fn push_on<L: Ledger>(
    streams: &mut Streams,
    alloc: Global,
    deed: &Deed,
    possible: &Four<Answers>,
    blank: Blank,
) -> Result<(), AllocError>
    requires name { blank.name ≡ L.name }
    requires parts { blank.parts ≡ L.parts }
    requires some { 0 < blank.parts }
    ensures ok { OnOk result (streams.new ≡ with_deed streams.old deed.now possible.now) }
    ensures err { OnErr result (streams.new ≡ streams.old) }
{
    let mut steps = Steps::<L>::new(blank);
    streams.push(alloc, deed, possible, &mut steps)
}
