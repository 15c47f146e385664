ghost use Rattle.std.specs.Prelude.{◌≡◌, nat_le};
ghost use Rattle.mj_deeds.specs.Answers.{is_in_form, place_of};

use crate::answer::{Answer, Pai};
use mj_tiles::RED;

/// Whether the own tiles that an answer names together, those of a chi, a pon or a kan, stand in tile order, hidden ones
/// last.
pub fn is_in_form(answer: &Answer) -> bool
    ensures { result ≡ is_in_form answer.now }
{
    match answer {
        Answer::Chi { a, b, .. } => is_before(*a, *b),
        Answer::Pon { a, b, .. } => is_before(*a, *b),
        Answer::OpenKan { a, b, c, .. } => is_before(*a, *b) && is_before(*b, *c),
        Answer::ClosedKan { a, b, c, d, .. } => {
            is_before(*a, *b) && is_before(*b, *c) && is_before(*c, *d)
        }
        Answer::AddedKan { a, b, c, .. } => is_before(*a, *b) && is_before(*b, *c),
        _ => true,
    }
}

// Whether a tile stands before another in tile order, or is the same.
fn is_before(a: Pai, b: Pai) -> bool
    ensures { result ≡ nat_le (place_of a) (place_of b) }
{
    place_of(a) <= place_of(b)
}

// The place of a tile in tile order, a hidden one after all.
fn place_of(pai: Pai) -> u8
    ensures { result ≡ place_of pai }
{
    match pai {
        Pai::Known(tile) => 2 * tile.kind().number() + u8::from(tile.face() >= RED),
        Pai::Hidden => 68,
    }
}
