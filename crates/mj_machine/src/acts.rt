ghost use Rattle.std.specs.Prelude.{◌≡◌};
ghost use Rattle.mj_rules.specs.Outcome.{act_of};

use mj_deeds::{Answer, Deed};

// What the seat whose turn it is does by its answer: a discard, a reach, or a kan of its own.
pub(crate) fn act(seat: u8, answer: &Answer) -> Option<Deed>
    ensures { result ≡ act_of seat answer.now }
{
    match answer {
        Answer::Discard { tile, drawn, .. } => Some(Deed::Discard {
            seat,
            tile: tile.known()?,
            drawn: *drawn,
        }),
        Answer::ClosedKan { a, b, c, d, .. } => Some(Deed::ClosedKan {
            seat,
            a: a.known()?,
            b: b.known()?,
            c: c.known()?,
            d: d.known()?,
        }),
        Answer::AddedKan { tile, a, b, c, .. } => Some(Deed::AddedKan {
            seat,
            tile: tile.known()?,
            a: a.known()?,
            b: b.known()?,
            c: c.known()?,
        }),
        Answer::Reach { .. } => Some(Deed::Reach { seat }),
        _ => None,
    }
}
