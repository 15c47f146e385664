//! Accepted reaches of a record.

ghost use Rattle.std.specs.Prelude.{◌≡◌};
ghost use Rattle.mj_records.specs.Deeds.{bid_in, reach_accepted_in};

use crate::calls::call_in;
use crate::fields::{byte_field, points_field, quoted_at};
use mj_bytes::strip;
use mj_deeds::{Bid, Deed};

/// The accepted reach, read from the fields after its type.
#[tactic(auto, unfolding(crate::specs::Deeds::reach_accepted_in))]
pub(crate) fn reach_accepted_in(fields: &[u8]) -> Option<Deed>
    ensures { result ≡ reach_accepted_in fields.now }
{
    let (seat, rest) = byte_field(fields, b",\"actor\":")?;
    let (_, rest) = points_field(rest, b",\"deltas\":")?;
    let (points, rest) = points_field(rest, b",\"scores\":")?;
    let then = bid_in(strip(rest, b",\"then\":")?)?;
    Some(Deed::ReachAccepted { seat, points, then })
}

// The call that is kept, or null.
#[tactic(auto, unfolding(crate::specs::Deeds::bid_in))]
fn bid_in(text: &[u8]) -> Option<Bid>
    ensures { result ≡ bid_in text.now }
{
    if let Some(_) = strip(text, b"null") {
        return Some(Bid::NoBid);
    }
    let (kind, fields) = quoted_at(strip(text, b"{\"type\":")?)?;
    call_in(kind, fields)
}
