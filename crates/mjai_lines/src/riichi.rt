// The lines of a reach and of its acceptance.
ghost use Rattle.std.specs.Prelude.{◌++◌, OnOk, codes};
ghost use Rattle.mj_bytes.specs.Adds.{Adds};
ghost use Rattle.mj_forms.specs.Lines.{reach_line, reach_accepted_line, in_record, bid_text};

use crate::deed::push_call_object;
use crate::pieces::push_points;
use mj_bytes::{push_all, push_number};
use mj_deeds::{Bid, Viewer};
use mj_pay::deposit;
use std::alloc::AllocError;

// Writes a reach.
#[tactic(auto, unfolding(mj_forms::specs::Lines::reach_line))]
pub(crate) fn push_reach(line: &mut Vec<u8>, seat: u8) -> Result<(), AllocError>
    ensures { OnOk result (Adds line.old.items line.new.items (reach_line seat)) }
{
    push_all(line, b"{\"type\":\"reach\",\"actor\":")?;
    push_number(line, u64::from(seat))?;
    push_all(line, b"}\n")?;
    Ok(())
}

// Writes an accepted reach, with its deposit and the points after it.
#[tactic(auto, unfolding(mj_forms::specs::Lines::reach_accepted_line))]
pub(crate) fn push_reach_accepted(
    line: &mut Vec<u8>,
    viewer: Viewer,
    seat: u8,
    points: [i32; 4],
    bid: Bid,
) -> Result<(), AllocError>
    ensures { OnOk result (Adds line.old.items line.new.items
        (reach_accepted_line viewer seat points bid)) }
{
    push_all(line, b"{\"type\":\"reach_accepted\",\"actor\":")?;
    push_number(line, u64::from(seat))?;
    push_all(line, b",\"deltas\":")?;
    push_points(line, deposit(seat))?;
    push_all(line, b",\"scores\":")?;
    push_points(line, points)?;
    push_kept(line, viewer, bid)?;
    push_all(line, b"}\n")?;
    Ok(())
}

// Writes the call that is kept, in the record alone.
fn push_kept(line: &mut Vec<u8>, viewer: Viewer, bid: Bid) -> Result<(), AllocError>
    ensures { OnOk result (Adds line.old.items line.new.items
        (in_record viewer (codes ",\"then\":" ++ bid_text bid))) }
{
    match viewer {
        Viewer::Seat(_) => Ok(()),
        Viewer::Record => {
            push_all(line, b",\"then\":")?;
            push_bid(line, bid)?;
            Ok(())
        }
    }
}

// Writes a call that is bid, or null.
fn push_bid(line: &mut Vec<u8>, bid: Bid) -> Result<(), AllocError>
    ensures { OnOk result (Adds line.old.items line.new.items (bid_text bid)) }
{
    match bid {
        Bid::NoBid => push_all(line, b"null"),
        Bid::Chi {
            seat,
            target,
            tile,
            a,
            b,
        } => push_call_object(line, b"chi", seat, target, tile, &[a, b]),
        Bid::Pon {
            seat,
            target,
            tile,
            a,
            b,
        } => push_call_object(line, b"pon", seat, target, tile, &[a, b]),
        Bid::OpenKan {
            seat,
            target,
            tile,
            a,
            b,
            c,
        } => push_call_object(line, b"daiminkan", seat, target, tile, &[a, b, c]),
    }
}
