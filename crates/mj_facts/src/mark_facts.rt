ghost use Rattle.std.specs.Prelude.{◌≡◌, ◌||◌, ◌&&◌, [], ℕ, List, true, not, if◌then◌else◌};
ghost use Rattle.mj_deeds.specs.declared.deed.Deed.{Deed};
ghost use Rattle.mj_deeds.specs.Facts.{is_call};
ghost use Rattle.mj_deeds.specs.Hand.{is_hand_start};
ghost use Rattle.mj_deeds.specs.Points.{is_win};
ghost use Rattle.mj_deeds.specs.Riichi.{is_reach_by, is_accepted_by};
ghost use Rattle.mj_deeds.proofs.RiichiLaws.{is_added};
ghost use Rattle.mj_facts.specs.Marks.{marks};
ghost use Rattle.mj_facts.specs.Seats.{KeepsMarks};

use crate::marks::Marks;
use crate::riichi::is_reach_by;
use crate::winning::is_win;
use mj_deeds::{Deed, is_call, is_hand_start};

/// What is kept of a seat's riichi and of its first turn in one hand.
#[derive(Clone, Copy)]
pub struct MarkFacts {
    /// the hand has begun, and a deed ended the first turn of the seat
    pub begun: bool,
    pub ended: bool,
    /// the seat has reached, and its reach was accepted, and is a double one
    pub reached: bool,
    pub accepted: bool,
    pub double: bool,
    /// it discarded after its reach, and a deed after that discard ended its one turn
    pub declared: bool,
    pub broken: bool,
    /// it is within one turn of its riichi, and was when the tile was given that is won on
    pub ippatsu: bool,
    pub given: bool,
}

impl MarkFacts {
    /// The marks of the seat.
    pub fn told(&self) -> Marks
        ensures { (deeds : List Deed) → (seat : ℕ) → KeepsMarks deeds seat self.now → result
            ≡ marks deeds seat }
    {
        Marks {
            reached: self.reached,
            accepted: self.accepted,
            double: self.double,
            ippatsu: self.ippatsu,
            first: self.is_first(),
        }
    }

    /// Whether the seat is in its first turn.
    pub fn is_first(&self) -> bool
        ensures { result ≡ (self.now.begun && not self.now.ended) }
    {
        is_first_alone(self.begun, self.ended)
    }

    // Goes on by a deed that ends no turn of the seat, and is no deed of its riichi.
    pub(crate) fn go_on(&mut self)
        ensures { self.new ≡ record self.old {
          ippatsu = self.old.accepted && not self.old.broken;
          given = self.old.accepted && not self.old.broken;
        } }
    {
        self.ippatsu = is_first_alone(self.accepted, self.broken);
        self.given = self.ippatsu;
    }

    // Ends a turn of the seat by its discard.
    pub(crate) fn discard(&mut self)
        ensures { self.new ≡ record self.old {
          ended = true;
          declared = self.old.reached;
          broken = self.old.declared;
          ippatsu = self.old.accepted && not self.old.declared;
          given = self.old.accepted && not self.old.declared;
        } }
    {
        self.ended = true;
        self.broken = self.declared;
        self.declared = self.reached;
        self.ippatsu = is_first_alone(self.accepted, self.broken);
        self.given = self.ippatsu;
    }
}

// What is kept before any deed.
pub(crate) fn no_marks() -> MarkFacts
    ensures { (seat : ℕ) → KeepsMarks [] seat result }
{
    MarkFacts {
        begun: false,
        ended: false,
        reached: false,
        accepted: false,
        double: false,
        declared: false,
        broken: false,
        ippatsu: false,
        given: false,
    }
}

// Marks a seat by a deed of the same hand more that is no discard.
pub(crate) fn mark(marks: &mut MarkFacts, deed: &Deed, seat: u8)
    ensures begun { marks.new.begun ≡ (marks.old.begun || is_hand_start deed.now) }
    ensures ended { marks.new.ended ≡ (marks.old.ended || is_call deed.now) }
    ensures reached { marks.new.reached ≡ (marks.old.reached || is_reach_by seat deed.now) }
    ensures accepted { marks.new.accepted
        ≡ (marks.old.accepted || is_accepted_by seat deed.now) }
    ensures double { marks.new.double ≡ (if marks.old.reached then marks.old.double else
        (is_reach_by seat deed.now && (marks.old.begun && not marks.old.ended))) }
    ensures declared { marks.new.declared ≡ marks.old.declared }
    ensures broken { marks.new.broken
        ≡ (marks.old.declared && (marks.old.broken || is_call deed.now)) }
    ensures ippatsu { marks.new.ippatsu ≡ (marks.new.accepted && not
        (if is_added deed.now then marks.old.broken else marks.new.broken)) }
    ensures given { marks.new.given
        ≡ (if is_win deed.now then marks.old.given else marks.new.ippatsu) }
{
    let accepted = has_accepted(marks.accepted, deed, seat);
    let broken = has_broken(marks, deed);
    let ippatsu = is_first_alone(accepted, last_of(is_added(deed), marks.broken, broken));
    marks.double = is_double(marks, deed, seat);
    marks.begun = has_begun(marks.begun, deed);
    marks.ended = has_ended(marks.ended, deed);
    marks.reached = has_reached(marks.reached, deed, seat);
    marks.accepted = accepted;
    marks.broken = broken;
    marks.ippatsu = ippatsu;
    marks.given = last_of(is_win(deed), marks.given, ippatsu);
}

// Whether the hand has begun.
fn has_begun(begun: bool, deed: &Deed) -> bool
    ensures { result ≡ (begun || is_hand_start deed.now) }
{
    begun || is_hand_start(deed)
}

// Whether a deed ended the first turn of a seat: a call ends that of all.
fn has_ended(ended: bool, deed: &Deed) -> bool
    ensures { result ≡ (ended || is_call deed.now) }
{
    ended || is_call(deed)
}

// Whether a seat has reached.
fn has_reached(reached: bool, deed: &Deed, seat: u8) -> bool
    ensures { result ≡ (reached || is_reach_by seat deed.now) }
{
    reached || is_reach_by(deed, seat)
}

// Whether the reach of a seat was accepted.
fn has_accepted(accepted: bool, deed: &Deed, seat: u8) -> bool
    ensures { result ≡ (accepted || is_accepted_by seat deed.now) }
{
    accepted || is_accepted_by(deed, seat)
}

// Whether the riichi of a seat is a double one: once it has reached, that stays as it is.
fn is_double(marks: &MarkFacts, deed: &Deed, seat: u8) -> bool
    ensures { result ≡ (if marks.now.reached then marks.now.double else
        (is_reach_by seat deed.now && (marks.now.begun && not marks.now.ended))) }
{
    if marks.reached {
        return marks.double;
    }
    is_reach_by(deed, seat) && marks.is_first()
}

// Whether a deed after the discard of its reach ended the one turn of a seat.
fn has_broken(marks: &MarkFacts, deed: &Deed) -> bool
    ensures { result ≡ (marks.now.declared && (marks.now.broken || is_call deed.now)) }
{
    marks.declared && (marks.broken || is_call(deed))
}

// The first is so, and the second isn't.
fn is_first_alone(first: bool, second: bool) -> bool
    ensures { result ≡ (first && not second) }
{
    first && !second
}

// What was so, where it stays, and else what is so now.
fn last_of(stays: bool, before: bool, now: bool) -> bool
    ensures { result ≡ (if stays then before else now) }
{
    if stays { before } else { now }
}

// Whether a deed accepts the reach of a seat.
fn is_accepted_by(deed: &Deed, seat: u8) -> bool
    ensures { result ≡ is_accepted_by seat deed.now }
{
    match deed {
        Deed::ReachAccepted { seat: who, .. } => *who == seat,
        _ => false,
    }
}

// Whether a deed adds a tile to a triplet.
fn is_added(deed: &Deed) -> bool
    ensures { result ≡ is_added deed.now }
{
    matches!(deed, Deed::AddedKan { .. })
}
