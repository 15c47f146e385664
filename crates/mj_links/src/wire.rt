//! A link that is read line by line.

ghost use Rattle.std.specs.Prelude.{◌≡◌, ℕ, [], ◌++◌, length, ◌<◌, true, None};
ghost use Rattle.mj_links.specs.LineBuffers.{held_bytes, wire_held, wire_link};
ghost use Rattle.mj_links.specs.Links.{ReadsLine, CountsFaultOfLine, FindsEnd, GivesNone, ReadingStays, WritingStays, ReadsOn, Sends, CountsFaultOfSending};
ghost use Rattle.mj_links.specs.Fills.{Fills};
ghost use Rattle.mj_links.specs.Sources.{CountsReadFault};

use crate::line_buffer::LineBuffer;
use crate::link::Link;
use crate::sink::Put;
use crate::source::Got;

/// How the reading of a line ended.
#[derive(Clone, Copy, PartialEq, Eq, Debug)]
pub enum LineRead {
    /// The bytes before the next newline are the line.
    Line,
    /// The input ended before the next newline. An unfinished line is dropped.
    Ended,
    /// A read failed.
    Fault,
    /// 4,096 bytes without a newline came since the last one.
    TooLong,
    /// Memory was wanting for the line. The wire keeps what it read.
    NoMemory,
}

/// How the writing of a piece ended.
#[derive(Clone, Copy, PartialEq, Eq, Debug)]
pub enum Sent {
    /// The whole piece is written.
    Whole,
    /// A write failed. A prefix of the piece is written, and not all of it.
    Failed,
}

/// A link, and the bytes that were read from it and not yet handed out.
#[derive(Drop)]
pub struct Wire<L> {
    link: L,
    held: LineBuffer,
}

impl<L: Link> Wire<L> {
    /// A wire over a link, from which nothing is held yet.
    pub fn new(link: L) -> Wire<L>
        ensures link { wire_link result ≡ link }
        ensures held { wire_held result ≡ [] }
    {
        Wire {
            link,
            held: LineBuffer::new(),
        }
    }

    /// Reads the bytes before the next newline in place of what stands in the line. With any answer
    /// but `Line` the line is as it was, and with any but `Line` and `Ended` the wire keeps all that it
    /// read. A line has fewer than 4,096 bytes. Where `has_ended` has just said yes, as no link does that
    /// tells what is left to be read, it gives `Ended` or `Fault`.
    #[tactic(auto, using(crate::proofs::WireLaws::reading_lines))]
    pub fn read_line(&mut self, line: &mut Vec<u8>) -> LineRead
        ensures bytes { ReadsLine result
            (L.left (wire_link self.old)) (L.left (wire_link self.new))
            (L.was_read (wire_link self.old)) (L.was_read (wire_link self.new))
            (wire_held self.old) (wire_held self.new) line.old.items line.new.items }
        ensures faults { CountsFaultOfLine result (L.read_faults (wire_link self.old))
            (L.read_faults (wire_link self.new)) }
        ensures ends { wire_held self.old ≡ [] → L.at_end (wire_link self.old)
            → FindsEnd result × (L.left (wire_link self.new) ≡ None) }
        ensures writing { WritingStays
            (L.written (wire_link self.old)) (L.written (wire_link self.new))
            (L.write_faults (wire_link self.old)) (L.write_faults (wire_link self.new)) }
    {
        loop {
            if let Some(end) = self.held.line_end() {
                return match self.held.hand_out(end, line) {
                    Ok(()) => LineRead::Line,
                    Err(_) => LineRead::NoMemory,
                };
            }
            if self.held.is_full() {
                return LineRead::TooLong;
            }
            match pull(&mut self.link, &mut self.held) {
                Got::Bytes(_) => {}
                Got::End => {
                    self.held.clear();
                    return LineRead::Ended;
                }
                Got::Failed => return LineRead::Fault,
            }
        }
    }

    /// Whether the end of the link, or a fault, is the next thing to be read: nothing is held, and the
    /// link says so. It doesn't wait, and reads nothing.
    pub fn has_ended(&mut self) -> bool
        ensures ended { result ≡ true → (wire_held self.new ≡ []) × L.at_end (wire_link self.new) }
        ensures reading { ReadingStays
            (L.was_read (wire_link self.old)) (L.was_read (wire_link self.new))
            (L.left (wire_link self.old)) (L.left (wire_link self.new))
            (L.read_faults (wire_link self.old)) (L.read_faults (wire_link self.new)) }
        ensures writing { WritingStays
            (L.written (wire_link self.old)) (L.written (wire_link self.new))
            (L.write_faults (wire_link self.old)) (L.write_faults (wire_link self.new)) }
        ensures held { wire_held self.new ≡ wire_held self.old }
    {
        if !self.held.all().is_empty() {
            return false;
        }
        self.link.has_ended()
    }

    /// Writes a whole piece, in as many writes as it takes. `Failed` comes only with a fault of writing.
    pub fn send(&mut self, piece: &[u8]) -> Sent
        ensures bytes { Sends result (L.written (wire_link self.old))
            (L.written (wire_link self.new)) piece.now }
        ensures faults { CountsFaultOfSending result (L.write_faults (wire_link self.old))
            (L.write_faults (wire_link self.new)) }
        ensures reading { ReadingStays
            (L.was_read (wire_link self.old)) (L.was_read (wire_link self.new))
            (L.left (wire_link self.old)) (L.left (wire_link self.new))
            (L.read_faults (wire_link self.old)) (L.read_faults (wire_link self.new)) }
        ensures held { wire_held self.new ≡ wire_held self.old }
    {
        push(&mut self.link, piece)
    }

    /// The link. Bytes that are held are dropped.
    pub fn into_link(self) -> L
        ensures { result ≡ wire_link self }
    {
        let Wire { link, held: _held } = self;
        link
    }
}

// One read from a link after what is held.
fn pull<L: Link>(link: &mut L, held: &mut LineBuffer) -> Got
    requires { length (held_bytes held.old) < 4096 }
    ensures bytes { Fills result (L.left link.old) (L.left link.new)
        (λ into. ReadsOn result into (L.was_read link.old) (L.was_read link.new))
        (held_bytes held.old) (held_bytes held.new) }
    ensures writing { WritingStays (L.written link.old) (L.written link.new)
        (L.write_faults link.old) (L.write_faults link.new) }
    ensures faults { CountsReadFault result (L.read_faults link.old) (L.read_faults link.new) }
    ensures ends { L.at_end link.old → GivesNone result × (L.left link.new ≡ None) }
{
    held.fill(link)
}

// A whole piece on a link.
#[tactic(auto, using(crate::proofs::WriteLaws::writing, crate::proofs::WireLaws::sending))]
fn push<L: Link>(link: &mut L, piece: &[u8]) -> Sent
    ensures bytes { Sends result (L.written link.old) (L.written link.new) piece.now }
    ensures faults { CountsFaultOfSending result (L.write_faults link.old)
        (L.write_faults link.new) }
    ensures reading { ReadingStays (L.was_read link.old) (L.was_read link.new)
        (L.left link.old) (L.left link.new)
        (L.read_faults link.old) (L.read_faults link.new) }
{
    let mut rest = piece;
    while !rest.is_empty() {
        match link.write(rest) {
            Put::Took(n) => rest = rest.split_at(n).1,
            Put::Failed => return Sent::Failed,
        }
    }
    Sent::Whole
}
