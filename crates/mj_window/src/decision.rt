ghost use Rattle.std.specs.Prelude.{◌≡◌, ◌+◌, ◌%◌, ◌≤◌, unwrap_or, if◌then◌else◌, Some, None, IsTrue};
ghost use Rattle.mj_deeds.specs.Four.{at_seat};
ghost use Rattle.mj_deeds.specs.declared.bid.Bid.TheVariants.{NoBid};
ghost use Rattle.mj_window.specs.declared.decision.Decision.TheVariants.{Act, Rons};
ghost use Rattle.mj_window.specs.Decided.{decision_by, triplet_bid, run_bid, or_bid, bid_by, best_bid, call_or_pass, is_win, rons_on, rons_or};
ghost use Rattle.mj_window.specs.Inner.Passes.{IsPass, ArePasses};

use mj_deeds::{Answer, Bid, Deed, Four};

/// The seats, 0 to 3, that win on one tile, in turn order after the seat that gave it.
#[derive(Clone, Copy, Debug, PartialEq, Eq)]
pub struct Seats {
    pub first: u8,
    pub second: Option<u8>,
    pub third: Option<u8>,
}

/// What four answers decide.
#[derive(Clone, Copy, Debug, PartialEq, Eq)]
pub enum Decision {
    /// These seats win on the discard or the added kan.
    Rons(Seats),
    /// The discard is called.
    Call(Bid),
    /// The seat whose turn it is, 0 to 3, acts by its own answer.
    Act(u8, Answer),
    /// The answers decide nothing.
    Pass,
}

/// What four answers to the window on a deed decide, in whatever order they came: on a discard or an added kan the
/// other seats that say so win, where there are any; else on a discard the pon or the kan that is bid is taken, where
/// there is one, and else the chi that is bid; on a draw, a reach, a chi or a pon its seat acts; else nothing is
/// decided. Of several bids of one sort, which no four lawful answers hold, the one of the first seat counts, and one
/// with a hidden tile is none.
pub fn decide(last: &Deed, answers: &Four<Answer>) -> Decision
    ensures { result ≡ decision_by last.now answers.now }
{
    match last {
        Deed::Discard { seat, .. } => rons_or_call(*seat, answers),
        Deed::AddedKan { seat, .. } => rons_or(*seat, answers, Decision::Pass),
        Deed::Draw { seat, .. } => act(*seat, answers),
        Deed::Reach { seat } => act(*seat, answers),
        Deed::Chi { seat, .. } => act(*seat, answers),
        Deed::Pon { seat, .. } => act(*seat, answers),
        _ => Decision::Pass,
    }
}

// The other seats that say so win on the discard of a seat; else it is called by the best bid. Most often all four pass.
fn rons_or_call(seat: u8, answers: &Four<Answer>) -> Decision
    ensures { result ≡ rons_or (rons_on seat answers.now) (call_or_pass (best_bid answers.now)) }
{
    if are_passes(answers) {
        return Decision::Pass;
    }
    rons_or(seat, answers, call(answers))
}

// All four pass.
fn are_passes(answers: &Four<Answer>) -> bool
    ensures { IsTrue result → ArePasses answers.now }
{
    is_pass(&answers.first)
        && is_pass(&answers.second)
        && is_pass(&answers.third)
        && is_pass(&answers.fourth)
}

// The answer is a pass.
fn is_pass(answer: &Answer) -> bool
    ensures { IsTrue result → IsPass answer.now }
{
    matches!(answer, Answer::Pass { .. })
}

// The seat acts by its own answer.
fn act(seat: u8, answers: &Four<Answer>) -> Decision
    ensures { result ≡ Act seat (at_seat answers.now seat) }
{
    Decision::Act(seat, *answers.at(seat.min(3)))
}

// The other seats that say so win on the tile of a seat, in turn order; where there are none it is decided otherwise.
fn rons_or(seat: u8, answers: &Four<Answer>, other: Decision) -> Decision
    ensures { result ≡ rons_or (rons_on seat answers.now) other }
{
    let first = seat_after(seat, 1);
    let second = seat_after(seat, 2);
    let third = seat_after(seat, 3);
    let third_wins = winner(third, answers);
    match (wins(first, answers), wins(second, answers)) {
        (true, true) => rons(first, Some(second), third_wins),
        (true, false) => rons(first, third_wins, None),
        (false, true) => rons(second, third_wins, None),
        (false, false) => match third_wins {
            Some(third) => rons(third, None, None),
            None => other,
        },
    }
}

// These seats win.
fn rons(first: u8, second: Option<u8>, third: Option<u8>) -> Decision
    ensures { result ≡ Rons (record { first = first; second = second; third = third }) }
{
    Decision::Rons(Seats {
        first,
        second,
        third,
    })
}

// The seat so many turns, 1 to 3, after a seat.
fn seat_after(seat: u8, turns: u8) -> u8
    requires { turns ≤ 3 }
    ensures value { result ≡ (seat + turns) % 4 }
    ensures within { result ≤ 3 }
{
    (seat % 4 + turns) % 4
}

// The seat, where it wins by its answer.
fn winner(seat: u8, answers: &Four<Answer>) -> Option<u8>
    requires { seat ≤ 3 }
    ensures { result ≡ (if is_win (at_seat answers.now seat) then Some seat else None) }
{
    if wins(seat, answers) {
        Some(seat)
    } else {
        None
    }
}

// Whether a seat wins by its answer.
fn wins(seat: u8, answers: &Four<Answer>) -> bool
    requires { seat ≤ 3 }
    ensures { result ≡ is_win (at_seat answers.now seat) }
{
    matches!(answers.at(seat), Answer::Win { .. })
}

// The call of a discard: a pon or a kan, where one is bid, and else a chi.
#[tactic(auto, unfolding(crate::specs::Decided::best_bid))]
fn call(answers: &Four<Answer>) -> Decision
    ensures { result ≡ call_or_pass (best_bid answers.now) }
{
    taken(better(triplet(answers), run(answers)))
}

// The bid is taken, if it is one.
fn taken(bid: Bid) -> Decision
    ensures { result ≡ call_or_pass bid }
{
    match bid {
        Bid::NoBid => Decision::Pass,
        _ => Decision::Call(bid),
    }
}

// The one bid, or else the other.
fn better(bid: Bid, other: Bid) -> Bid
    ensures { result ≡ or_bid bid other }
{
    match bid {
        Bid::NoBid => other,
        _ => bid,
    }
}

// Of the four seats the first that bids a pon or a kan.
fn triplet(answers: &Four<Answer>) -> Bid
    ensures { result ≡ bid_by triplet_bid answers.now }
{
    let first = triplet_bid(0, &answers.first);
    let second = triplet_bid(1, &answers.second);
    let third = triplet_bid(2, &answers.third);
    let fourth = triplet_bid(3, &answers.fourth);
    better(first, better(second, better(third, fourth)))
}

// Of the four seats the first that bids a chi.
fn run(answers: &Four<Answer>) -> Bid
    ensures { result ≡ bid_by run_bid answers.now }
{
    let first = run_bid(0, &answers.first);
    let second = run_bid(1, &answers.second);
    let third = run_bid(2, &answers.third);
    let fourth = run_bid(3, &answers.fourth);
    better(first, better(second, better(third, fourth)))
}

// The pon or the kan that a seat bids for a discard.
fn triplet_bid(seat: u8, answer: &Answer) -> Bid
    ensures { result ≡ triplet_bid seat answer.now }
{
    known_triplet(seat, answer).unwrap_or(Bid::NoBid)
}

// The bid of a pon or a kan all of whose tiles are known; of another answer none.
fn known_triplet(seat: u8, answer: &Answer) -> Option<Bid>
    ensures { unwrap_or result NoBid ≡ triplet_bid seat answer.now }
{
    match answer {
        Answer::Pon {
            target,
            tile,
            a,
            b,
            ..
        } => Some(Bid::Pon {
            seat,
            target: *target,
            tile: tile.known()?,
            a: a.known()?,
            b: b.known()?,
        }),
        Answer::OpenKan {
            target,
            tile,
            a,
            b,
            c,
            ..
        } => Some(Bid::OpenKan {
            seat,
            target: *target,
            tile: tile.known()?,
            a: a.known()?,
            b: b.known()?,
            c: c.known()?,
        }),
        _ => None,
    }
}

// The chi that a seat bids for a discard.
fn run_bid(seat: u8, answer: &Answer) -> Bid
    ensures { result ≡ run_bid seat answer.now }
{
    known_run(seat, answer).unwrap_or(Bid::NoBid)
}

// The bid of a chi all of whose tiles are known; of another answer none.
fn known_run(seat: u8, answer: &Answer) -> Option<Bid>
    ensures { unwrap_or result NoBid ≡ run_bid seat answer.now }
{
    match answer {
        Answer::Chi {
            target,
            tile,
            a,
            b,
            ..
        } => Some(Bid::Chi {
            seat,
            target: *target,
            tile: tile.known()?,
            a: a.known()?,
            b: b.known()?,
        }),
        _ => None,
    }
}
