//! The four answers that a deed tells of.

ghost use Rattle.std.specs.Prelude.{◌≡◌, ℕ, ◌==◌, ◌∷◌, None, option_and_then};
ghost use Rattle.std.specs.List.{list_any};
ghost use Rattle.std.specs.Option.{option_copied};
ghost use Rattle.mj_deeds.specs.declared.answer.Pai.TheVariants.{Known};
ghost use Rattle.mj_deeds.specs.declared.answer.Answer.TheVariants as answers;
ghost use Rattle.mj_deeds.specs.Four.{for_each_seat};
ghost use Rattle.mj_history.specs.Told.{told_of, only_of, bid_told, call_told, win_told, wins_told, nine_told, drawn_told, own_seat};
ghost use Rattle.mj_records.specs.Usual.{deed_of};

use mj_deeds::{Answer, Bid, Deed, Four, Pai, Reason, SeatList};
use mj_records::Act;
use mj_tiles::Tile;

/// The four answers that a deed after the newest one tells of, whether or not they give it.
pub(crate) fn told(last: Option<&Deed>, deed: &Deed) -> Four<Answer>
    ensures { result ≡ for_each_seat (told_of (option_copied last.entry) deed.now) }
{
    Four {
        first: told_of(last, deed, 0),
        second: told_of(last, deed, 1),
        third: told_of(last, deed, 2),
        fourth: told_of(last, deed, 3),
    }
}

/// The four answers that a draw or a discard tells of, after whatever deed.
pub(crate) fn act_told(act: &Act) -> Four<Answer>
    ensures { result ≡ for_each_seat (told_of None (deed_of act.now)) }
{
    match act {
        Act::Draw { .. } => four_passes(),
        Act::Discard { seat, tile, drawn } => Four {
            first: discard_told(*seat, *tile, *drawn, 0),
            second: discard_told(*seat, *tile, *drawn, 1),
            third: discard_told(*seat, *tile, *drawn, 2),
            fourth: discard_told(*seat, *tile, *drawn, 3),
        },
    }
}

/// Each seat passes.
pub(crate) fn four_passes() -> Four<Answer>
    ensures { result ≡ for_each_seat (λ (seat : ℕ). answers.Pass None) }
{
    Four {
        first: Answer::Pass { actor: None },
        second: Answer::Pass { actor: None },
        third: Answer::Pass { actor: None },
        fourth: Answer::Pass { actor: None },
    }
}

// What a deed after the newest one tells of the answer of a seat.
fn told_of(last: Option<&Deed>, deed: &Deed, seat: u8) -> Answer
    ensures { result ≡ told_of (option_copied last.entry) deed.now seat }
{
    match deed {
        Deed::Discard {
            seat: who,
            tile,
            drawn,
        } => discard_told(*who, *tile, *drawn, seat),
        Deed::Chi {
            seat: who,
            target,
            tile,
            a,
            b,
        } => call_told(
            last,
            &Bid::Chi {
                seat: *who,
                target: *target,
                tile: *tile,
                a: *a,
                b: *b,
            },
            seat,
        ),
        Deed::Pon {
            seat: who,
            target,
            tile,
            a,
            b,
        } => call_told(
            last,
            &Bid::Pon {
                seat: *who,
                target: *target,
                tile: *tile,
                a: *a,
                b: *b,
            },
            seat,
        ),
        Deed::OpenKan {
            seat: who,
            target,
            tile,
            a,
            b,
            c,
        } => call_told(
            last,
            &Bid::OpenKan {
                seat: *who,
                target: *target,
                tile: *tile,
                a: *a,
                b: *b,
                c: *c,
            },
            seat,
        ),
        Deed::ClosedKan {
            seat: who,
            a,
            b,
            c,
            d,
        } => closed_kan_told(*who, *a, *b, *c, *d, seat),
        Deed::AddedKan {
            seat: who,
            tile,
            a,
            b,
            c,
        } => { added_kan_told(*who, *tile, *a, *b, *c, seat) }
        Deed::Reach { seat: who } => only_of(*who, Answer::Reach { actor: *who }, seat),
        Deed::ReachAccepted { then, .. } => bid_told(then, seat),
        Deed::Win {
            seat: who,
            target,
            rest,
            ..
        } => win_told(last, *who, *rest, *target, seat),
        Deed::DrawnHand { reason, .. } => drawn_told(last, *reason, seat),
        _ => Answer::Pass { actor: None },
    }
}

// Where one seat alone does something, every other passes.
fn only_of(who: u8, answer: Answer, seat: u8) -> Answer
    ensures { result ≡ only_of who answer seat }
{
    if who == seat {
        return answer;
    }
    Answer::Pass { actor: None }
}

fn discard_told(who: u8, tile: Tile, drawn: bool, seat: u8) -> Answer
    ensures { result ≡ only_of who (answers.Discard who (Known tile) drawn) seat }
{
    only_of(
        who,
        Answer::Discard {
            actor: who,
            tile: Pai::Known(tile),
            drawn,
        },
        seat,
    )
}

fn closed_kan_told(who: u8, a: Tile, b: Tile, c: Tile, d: Tile, seat: u8) -> Answer
    ensures { result ≡ only_of who (answers.ClosedKan who (Known a) (Known b) (Known c)
        (Known d)) seat }
{
    only_of(
        who,
        Answer::ClosedKan {
            actor: who,
            a: Pai::Known(a),
            b: Pai::Known(b),
            c: Pai::Known(c),
            d: Pai::Known(d),
        },
        seat,
    )
}

fn added_kan_told(who: u8, tile: Tile, a: Tile, b: Tile, c: Tile, seat: u8) -> Answer
    ensures { result ≡ only_of who (answers.AddedKan who (Known tile) (Known a) (Known b)
        (Known c)) seat }
{
    only_of(
        who,
        Answer::AddedKan {
            actor: who,
            tile: Pai::Known(tile),
            a: Pai::Known(a),
            b: Pai::Known(b),
            c: Pai::Known(c),
        },
        seat,
    )
}

// What a seat answers where one seat bids a call.
fn bid_told(bid: &Bid, seat: u8) -> Answer
    ensures { result ≡ bid_told bid.now seat }
{
    match bid {
        Bid::NoBid => Answer::Pass { actor: None },
        Bid::Chi {
            seat: who,
            target,
            tile,
            a,
            b,
        } => only_of(
            *who,
            Answer::Chi {
                actor: *who,
                target: *target,
                tile: Pai::Known(*tile),
                a: Pai::Known(*a),
                b: Pai::Known(*b),
            },
            seat,
        ),
        Bid::Pon {
            seat: who,
            target,
            tile,
            a,
            b,
        } => only_of(
            *who,
            Answer::Pon {
                actor: *who,
                target: *target,
                tile: Pai::Known(*tile),
                a: Pai::Known(*a),
                b: Pai::Known(*b),
            },
            seat,
        ),
        Bid::OpenKan {
            seat: who,
            target,
            tile,
            a,
            b,
            c,
        } => only_of(
            *who,
            Answer::OpenKan {
                actor: *who,
                target: *target,
                tile: Pai::Known(*tile),
                a: Pai::Known(*a),
                b: Pai::Known(*b),
                c: Pai::Known(*c),
            },
            seat,
        ),
    }
}

// A call after an accepted reach was bid before that.
fn call_told(last: Option<&Deed>, bid: &Bid, seat: u8) -> Answer
    ensures { result ≡ call_told (option_copied last.entry) bid.now seat }
{
    match last {
        Some(Deed::ReachAccepted { .. }) => Answer::Pass { actor: None },
        _ => bid_told(bid, seat),
    }
}

// A win after another was answered before that.
fn win_told(last: Option<&Deed>, who: u8, rest: SeatList, target: u8, seat: u8) -> Answer
    ensures { result ≡ win_told (option_copied last.entry) (who ∷ rest) target seat }
{
    match last {
        Some(Deed::Win { .. }) => Answer::Pass { actor: None },
        _ => wins_told(who, rest, target, seat),
    }
}

// What a seat answers where these seats win on a tile of the target.
fn wins_told(who: u8, rest: SeatList, target: u8, seat: u8) -> Answer
    ensures { result ≡ wins_told (who ∷ rest) target seat }
{
    if is_winner(who, rest, seat) {
        return Answer::Win {
            actor: seat,
            target,
            tile: None,
        };
    }
    Answer::Pass { actor: None }
}

fn is_winner(who: u8, rest: SeatList, seat: u8) -> bool
    ensures { result ≡ list_any (λ winner. winner == seat) (who ∷ rest) }
{
    who == seat || has_seat(rest, seat)
}

fn has_seat(seats: SeatList, seat: u8) -> bool
    ensures { result ≡ list_any (λ winner. winner == seat) seats }
{
    seats.as_slice().iter().any(|winner| *winner == seat)
}

// What a seat answers where a hand is drawn.
fn drawn_told(last: Option<&Deed>, reason: Reason, seat: u8) -> Answer
    ensures { result ≡ drawn_told (option_copied last.entry) reason seat }
{
    match reason {
        Reason::Kyushukyuhai => nine_told(own_seat(last), seat),
        _ => Answer::Pass { actor: None },
    }
}

fn nine_told(who: Option<u8>, seat: u8) -> Answer
    ensures { result ≡ nine_told who seat }
{
    match who {
        Some(who) => only_of(who, Answer::NineKinds { actor: who }, seat),
        None => Answer::Pass { actor: None },
    }
}

// The seat of a deed, where it has one.
fn own_seat(deed: Option<&Deed>) -> Option<u8>
    ensures { result ≡ option_and_then own_seat (option_copied deed.entry) }
{
    match deed {
        Some(Deed::Draw { seat, .. }) => Some(*seat),
        Some(Deed::Discard { seat, .. }) => Some(*seat),
        Some(Deed::Chi { seat, .. }) => Some(*seat),
        Some(Deed::Pon { seat, .. }) => Some(*seat),
        Some(Deed::OpenKan { seat, .. }) => Some(*seat),
        Some(Deed::ClosedKan { seat, .. }) => Some(*seat),
        Some(Deed::AddedKan { seat, .. }) => Some(*seat),
        Some(Deed::Reach { seat }) => Some(*seat),
        Some(Deed::ReachAccepted { seat, .. }) => Some(*seat),
        Some(Deed::Win { seat, .. }) => Some(*seat),
        _ => None,
    }
}
