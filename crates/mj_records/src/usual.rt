//! Draws and discards, which most lines of a record tell: they are read whole, so that the line is the deed's to its last byte,
//! and without a deed, which has room for every kind. And which lines tell a start of a hand, whose tiles needn't be read.

ghost use Rattle.std.specs.Prelude.{◌≡◌, ◌<◌, ◌+◌, ◌∷◌, ◌++◌, Some, None, IfSome, IsTrue, Bool, true, codes};
ghost use Rattle.mj_tiles.specs.Faces.{text_of};
ghost use Rattle.mj_deeds.specs.Hand.{is_hand_start};
ghost use Rattle.mj_deeds.specs.declared.deed.Deed.{Deed};
ghost use Rattle.mj_deeds.specs.declared.deed.Deed.TheVariants.{Draw, Discard};
ghost use Rattle.mj_deeds.specs.declared.deed.Viewer.TheVariants.{Record};
ghost use Rattle.mj_forms.specs.Lines.{line as line_for, truth};
ghost use Rattle.mj_records.specs.Deeds.{deed_in};
ghost use Rattle.mj_records.specs.Usual.{deed_of, IsActOf, BeginsWithAct};

use mj_bytes::{split_at_first, strip};
use mj_deeds::Deed;
use mj_tiles::Tile;
use mjai_answers::seat_first;

/// A draw or a discard, as its line tells it.
#[derive(Drop)]
pub enum Act {
    /// A seat draws a tile, a live one or a replacement.
    Draw { seat: u8, tile: Tile },
    /// A seat discards a tile; `drawn` says that it is the one it drew.
    Discard { seat: u8, tile: Tile, drawn: bool },
}

/// The draw or the discard whose line a text begins with, and what follows the line; none where it begins with another line, or
/// with one of a seat above 3. Which of them it may be is seen by the first letter of its type.
pub fn act_first(text: &[u8]) -> Option<(Act, &[u8])>
    ensures { IfSome result (λ x. BeginsWithAct text.now x.0 x.1.now) }
{
    match text {
        [_, _, _, _, _, _, _, _, _, b't', ..] => draw_first(text),
        [_, _, _, _, _, _, _, _, _, b'd', ..] => discard_first(text),
        _ => None,
    }
}

/// Whether a deed has the line of an act: a draw of the same tile by the same seat, or the same discard.
pub fn has_line_of(deed: &Deed, act: &Act) -> bool
    ensures { IsTrue result → line_for Record deed.now ≡ line_for Record (deed_of act.now) }
{
    match deed {
        Deed::Draw { seat, tile, .. } => is_draw_of(act, *seat, *tile),
        Deed::Discard { seat, tile, drawn } => is_discard_of(act, *seat, *tile, *drawn),
        _ => false,
    }
}

/// Whether a line begins as that of a start of a hand, so that nothing but a start of a hand is read of it.
pub fn begins_hand(line: &[u8]) -> bool
    ensures { IsTrue result → (deed : Deed) → deed_in line.now ≡ Some deed → is_hand_start deed ≡ true }
{
    match after(line, b"{\"type\":\"start_kyoku\"") {
        Some(_) => true,
        None => false,
    }
}

// A draw of this tile by the seat.
fn is_draw_of(act: &Act, seat: u8, tile: Tile) -> bool
    ensures { IsTrue result → (replacement : Bool) → line_for Record (Draw seat tile replacement)
        ≡ line_for Record (deed_of act.now) }
{
    match act {
        Act::Draw {
            seat: who,
            tile: drawn,
        } => *who == seat && drawn.face() == tile.face(),
        Act::Discard { .. } => false,
    }
}

// The discard of this tile by the seat, as the drawn one or not.
fn is_discard_of(act: &Act, seat: u8, tile: Tile, drawn: bool) -> bool
    ensures { IsTrue result → line_for Record (Discard seat tile drawn)
        ≡ line_for Record (deed_of act.now) }
{
    match act {
        Act::Draw { .. } => false,
        Act::Discard {
            seat: who,
            tile: given,
            drawn: marked,
        } => *who == seat && given.face() == tile.face() && *marked == drawn,
    }
}

// The draw whose line a text begins with, and what follows it.
fn draw_first(text: &[u8]) -> Option<(Act, &[u8])>
    ensures { IfSome result (λ x. BeginsWithAct text.now x.0 x.1.now) }
{
    let Some(act) = seat_after(text, b"\"tsumo\",") else {
        return None;
    };
    let Some((seat, face, end)) = seat_and_face(act) else {
        return None;
    };
    let Some(rest) = end_first(end) else {
        return None;
    };
    let tile = Tile::at(face);
    Some((Act::Draw { seat, tile }, rest))
}

// The discard whose line a text begins with, and what follows it.
fn discard_first(text: &[u8]) -> Option<(Act, &[u8])>
    ensures { IfSome result (λ x. BeginsWithAct text.now x.0 x.1.now) }
{
    let Some(act) = seat_after(text, b"\"dahai\",") else {
        return None;
    };
    let Some((seat, face, end)) = seat_and_face(act) else {
        return None;
    };
    let Some((drawn, rest)) = mark_first(end) else {
        return None;
    };
    let tile = Tile::at(face);
    Some((Act::Discard { seat, tile, drawn }, rest))
}

// The seat of an act and the face of its tile, and what stands after the tile.
fn seat_and_face(text: &[u8]) -> Option<(u8, u8, &[u8])>
    ensures { IfSome result (λ x. IsActOf text.now x.0 x.1 x.2.now) }
{
    let (seat, rest) = seat_first(text)?;
    let name = after(rest, b",\"pai\":\"")?;
    let (face, end) = face_first(name)?;
    Some((seat, face, end))
}

// The face of the tile whose text a text begins with, up to the quotation mark behind it, and what stands after that.
fn face_first(text: &[u8]) -> Option<(u8, &[u8])>
    ensures within { IfSome result (λ x. x.0 < 37) }
    ensures parts { IfSome result (λ x. text.now ≡ text_of x.0 ++ 34 ∷ x.1.now) }
{
    let (name, rest) = name_first(text)?;
    let tile = Tile::read(name)?;
    Some((tile.face(), rest))
}

// The text before the first quotation mark, as that of a tile is, and what stands after the mark. One of one letter or two, as
// most are, is seen without a search.
fn name_first(text: &[u8]) -> Option<(&[u8], &[u8])>
    ensures { IfSome result (λ x. text.now ≡ x.0.now ++ 34 ∷ x.1.now) }
{
    match text {
        [_, b'"', rest @ ..] => Some((&text[..1], rest)),
        [_, _, b'"', rest @ ..] => Some((&text[..2], rest)),
        _ => {
            let (name, rest) = split_at_first(text, b'"')?;
            Some((name, rest))
        }
    }
}

// What follows the end of the line of a draw.
fn end_first(text: &[u8]) -> Option<&[u8]>
    ensures { IfSome result (λ rest. text.now ≡ codes "}\n" ++ rest.now) }
{
    match text {
        [b'}', b'\n', rest @ ..] => Some(rest),
        _ => None,
    }
}

// The mark that the line of a discard ends with, and what follows the line.
fn mark_first(text: &[u8]) -> Option<(bool, &[u8])>
    ensures { IfSome result (λ x. text.now ≡ codes ",\"tsumogiri\":" ++ (truth x.0
        ++ (codes "}\n" ++ x.1.now))) }
{
    let mark = after(text, b",\"tsumog")?;
    if let Some(end) = after(mark, b"iri\":tru") {
        return match end {
            [b'e', b'}', b'\n', rest @ ..] => Some((true, rest)),
            _ => None,
        };
    }
    let end = after(mark, b"iri\":fal")?;
    match end {
        [b's', b'e', b'}', b'\n', rest @ ..] => Some((false, rest)),
        _ => None,
    }
}

// What stands behind a type of a line and the key of its seat.
#[inline(always)]
fn seat_after<'a>(text: &'a [u8], kind: &[u8]) -> Option<&'a [u8]>
    ensures { IfSome result (λ rest. text.now ≡ codes "{\"type\":" ++ (kind.now
        ++ (codes "\"actor\":" ++ rest.now))) }
{
    let typed = after(text, b"{\"type\":")?;
    let acted = after(typed, kind)?;
    after(acted, b"\"actor\":")
}

// What stands after a beginning of a text. One of eight bytes, which is a constant, is compared as one number.
#[inline(always)]
fn after<'a>(text: &'a [u8], beginning: &[u8]) -> Option<&'a [u8]>
    ensures { IfSome result (λ rest. text.now ≡ beginning.now ++ rest.now) }
{
    let rest = strip(text, beginning)?;
    Some(rest)
}
