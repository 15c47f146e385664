ghost use Rattle.std.specs.Prelude.{◌≡◌, Some, option_copied};
ghost use Rattle.mj_deeds.specs.Course.{only_if, is_reach, is_offer};
ghost use Rattle.mj_deeds.specs.Facts.{drawn_by};
ghost use Rattle.mj_table.specs.Inner.Latest.{cause_by, drawn_of, before_wins_of, taken_of, drawn_before};

use crate::latest::is_after_win;
use mj_deeds::Deed;
use mj_tiles::Tile;

// What the newest deed comes of, of the two that are kept.
pub(crate) fn cause<'a>(newest: Option<&Deed>, previous: Option<&'a Deed>) -> Option<&'a Deed>
    ensures { option_copied result
        ≡ cause_by (option_copied newest.entry) (option_copied previous.entry) }
{
    match newest {
        Some(Deed::Discard { .. }) => reach_of(previous),
        Some(Deed::ReachAccepted { .. }) => previous,
        Some(Deed::Win { .. }) => offer_of(previous),
        Some(Deed::Dora { .. }) => previous,
        Some(Deed::EndHand) => previous,
        _ => None,
    }
}

// A deed, where it is a reach.
fn reach_of(deed: Option<&Deed>) -> Option<&Deed>
    ensures { option_copied result ≡ only_if is_reach (option_copied deed.entry) }
{
    match deed {
        Some(deed) => if is_reach(deed) { Some(deed) } else { None },
        None => None,
    }
}

// A deed, where it gives a tile that may be won on.
fn offer_of(deed: Option<&Deed>) -> Option<&Deed>
    ensures { option_copied result ≡ only_if is_offer (option_copied deed.entry) }
{
    match deed {
        Some(deed) => if is_offer(deed) { Some(deed) } else { None },
        None => None,
    }
}

fn is_reach(deed: &Deed) -> bool
    ensures { result ≡ is_reach deed.now }
{
    matches!(deed, Deed::Reach { .. })
}

fn is_offer(deed: &Deed) -> bool
    ensures { result ≡ is_offer deed.now }
{
    matches!(deed, Deed::Discard { .. } | Deed::AddedKan { .. })
}

// The newest deed of a hand that is no win, where it has begun.
pub(crate) fn before_wins<'a>(
    begun: bool,
    newest: Option<&'a Deed>,
    previous: Option<&'a Deed>,
) -> Option<&'a Deed>
    ensures { option_copied result
        ≡ before_wins_of begun (option_copied newest.entry) (option_copied previous.entry) }
{
    if !begun {
        return None;
    }
    if is_after_win(newest) {
        return previous;
    }
    newest
}

// The discard that may be taken: the newest deed, or the one before it where the newest is a reach that was accepted.
pub(crate) fn taken<'a>(newest: Option<&'a Deed>, previous: Option<&'a Deed>) -> Option<&'a Deed>
    ensures { option_copied result
        ≡ taken_of (option_copied newest.entry) (option_copied previous.entry) }
{
    match newest {
        Some(Deed::ReachAccepted { .. }) => previous,
        _ => newest,
    }
}

// The tile that a seat has drawn and holds as drawn: that of the newest deed, where it is the seat's draw, or its reach
// after it.
pub(crate) fn drawn(newest: Option<&Deed>, previous: Option<&Deed>, seat: u8) -> Option<Tile>
    ensures { result
        ≡ drawn_of seat (option_copied newest.entry) (option_copied previous.entry) }
{
    match newest {
        Some(Deed::Reach { seat: who }) if *who == seat => drawn_before(previous, seat),
        Some(deed) => drawn_by(deed, seat),
        None => None,
    }
}

// The tile of a seat's draw, where the deed is one.
fn drawn_before(deed: Option<&Deed>, seat: u8) -> Option<Tile>
    ensures { result ≡ drawn_before seat (option_copied deed.entry) }
{
    match deed {
        Some(deed) => drawn_by(deed, seat),
        None => None,
    }
}

// The tile that a seat draws by a deed.
fn drawn_by(deed: &Deed, seat: u8) -> Option<Tile>
    ensures { result ≡ drawn_by seat deed.now }
{
    match deed {
        Deed::Draw {
            seat: who,
            tile,
            ..
        } if *who == seat => Some(*tile),
        _ => None,
    }
}
