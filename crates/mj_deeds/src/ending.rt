ghost use Rattle.std.specs.Prelude.{◌≡◌, false};
ghost use Rattle.std.specs.List.{slice_index_or};
ghost use Rattle.mj_deeds.specs.Ends.{drawn_by_reason};

use crate::reason::Reason;
use mj_rounds::HandEnd;

/// How a draw for a reason ends a hand, of which the ready seats and the dealer are given.
pub fn end_by_draw(reason: Reason, ready: [bool; 4], dealer: u8) -> HandEnd
    ensures { result ≡ drawn_by_reason reason (slice_index_or ready dealer false) }
{
    end_by_reason(reason, is_ready(ready, dealer))
}

// Whether a seat is marked as ready; no other than 0 to 3 is.
fn is_ready(ready: [bool; 4], seat: u8) -> bool
    ensures { result ≡ slice_index_or ready seat false }
{
    match ready.get(usize::from(seat)) {
        Some(ready) => *ready,
        None => false,
    }
}

fn end_by_reason(reason: Reason, dealer_ready: bool) -> HandEnd
    ensures { result ≡ drawn_by_reason reason dealer_ready }
{
    match reason {
        Reason::Fanpai => HandEnd::Drawn { dealer_ready },
        _ => HandEnd::Aborted,
    }
}
