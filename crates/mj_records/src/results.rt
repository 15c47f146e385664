//! Wins and drawn hands of a record.

ghost use Rattle.std.specs.Prelude.{◌≡◌, ℕ, List, [], Some, IfOk, codes, option_map};
ghost use Rattle.mj_deeds.specs.Shown.{Shown, shown_or_hidden};
ghost use Rattle.mj_deeds.specs.declared.four.Four.{Four};
ghost use Rattle.mj_deeds.specs.declared.reason.Reason.{Reason};
ghost use Rattle.mj_deeds.specs.declared.deed.Deed.TheVariants.{DrawnHand};
ghost use Rattle.mj_records.specs.Inner.Lists.{tiles_field};
ghost use Rattle.mj_records.specs.Deeds.{win_in, win_with, win_by, worth_at, drawn_hand_in, drawn_with, drawn_by, shown_at, shown_field, reason_at, reason_of};

use crate::fields::{byte_field, points_field, quoted_at, tile_field, truth_field, word_field};
use crate::lists::{hidden_at, rows_field, seats_field, tiles_at, tiles_field};
use mj_bytes::strip;
use mj_deeds::{Deed, Four, Hands, Reason, SeatList, ShownHands, Tiles, YakuList};
use mj_tiles::Tile;
use std::alloc::{AllocError, Global};

// What the last fields of a win say.
struct Worth {
    fu: u8,
    han: u8,
    value: u32,
    deltas: [i32; 4],
    points: [i32; 4],
    rest: SeatList,
}

/// The win, read from the fields after its type.
#[tactic(auto, unfolding(crate::specs::Deeds::win_in))]
pub(crate) fn win_in(alloc: Global, fields: &[u8]) -> Result<Option<Deed>, AllocError>
    ensures { IfOk result (λ deed. deed ≡ win_in fields.now) }
{
    let Some((seat, rest)) = byte_field(fields, b",\"actor\":") else {
        return Ok(None);
    };
    let Some((target, rest)) = byte_field(rest, b",\"target\":") else {
        return Ok(None);
    };
    let Some((tile, rest)) = tile_field(rest, b",\"pai\":") else {
        return Ok(None);
    };
    win_with(alloc, seat, target, tile, rest)
}

// The win of a seat on a tile of the target, and what stands after these.
#[tactic(auto, unfolding(crate::specs::Deeds::win_with))]
fn win_with(
    alloc: Global,
    seat: u8,
    target: u8,
    tile: Tile,
    text: &[u8],
) -> Result<Option<Deed>, AllocError>
    ensures { IfOk result (λ deed. deed ≡ win_with seat target tile text.now) }
{
    let mut unders = Vec::new(alloc);
    let Some(rest) = tiles_field(text, b",\"uradora_markers\":", &mut unders)? else {
        return Ok(None);
    };
    let mut hand = Vec::new(alloc);
    let Some(rest) = tiles_field(rest, b",\"hora_tehais\":", &mut hand)? else {
        return Ok(None);
    };
    win_behind(
        alloc,
        seat,
        target,
        tile,
        unders.as_slice(),
        hand.as_slice(),
        rest,
    )
}

// The win of a seat on a tile of the target, of any text whose tiles are these, and which goes on with this one.
#[inline(always)]
fn win_behind(
    alloc: Global,
    seat: u8,
    target: u8,
    tile: Tile,
    unders: &[Tile],
    hand: &[Tile],
    text: &[u8],
) -> Result<Option<Deed>, AllocError>
    ensures { IfOk result (λ deed. (whole rest : List ℕ)
        → Some (unders.now, rest) ≡ tiles_field (codes ",\"uradora_markers\":") whole
        → Some (hand.now, text.now) ≡ tiles_field (codes ",\"hora_tehais\":") rest
        → deed ≡ win_with seat target tile whole) }
{
    let mut yaku = Vec::new(alloc);
    let Some(rest) = rows_field(text, b",\"yakus\":", &mut yaku)? else {
        return Ok(None);
    };
    let unders = Tiles::of(alloc, unders)?;
    let hand = Tiles::of(alloc, hand)?;
    let yaku = YakuList::of(alloc, yaku.as_slice())?;
    Ok(win_by(seat, target, tile, unders, hand, yaku, rest))
}

// The win of a seat with its tiles and yaku, and what stands after these.
#[tactic(auto, unfolding(crate::specs::Deeds::win_by))]
fn win_by(
    seat: u8,
    target: u8,
    tile: Tile,
    unders: Tiles,
    hand: Tiles,
    yaku: YakuList,
    text: &[u8],
) -> Option<Deed>
    ensures { result ≡ win_by seat target tile unders hand yaku text.now }
{
    let Worth {
        fu,
        han,
        value,
        deltas,
        points,
        rest,
    } = worth_at(text)?;
    Some(Deed::Win {
        seat,
        target,
        tile,
        unders,
        hand,
        yaku,
        fu,
        han,
        value,
        deltas,
        points,
        rest,
    })
}

// What a win is worth, what each seat gains by it and has then, and who wins after it.
#[tactic(auto, unfolding(crate::specs::Deeds::worth_at))]
fn worth_at(text: &[u8]) -> Option<Worth>
    ensures { result ≡ worth_at text.now }
{
    let (fu, rest) = byte_field(text, b",\"fu\":")?;
    let (han, rest) = byte_field(rest, b",\"fan\":")?;
    let (value, rest) = word_field(rest, b",\"hora_points\":")?;
    let (deltas, rest) = points_field(rest, b",\"deltas\":")?;
    let (points, rest) = points_field(rest, b",\"scores\":")?;
    let rest = seats_field(rest, b",\"rest\":")?;
    Some(Worth {
        fu,
        han,
        value,
        deltas,
        points,
        rest,
    })
}

/// The drawn hand, read from the fields after its type.
#[tactic(auto, unfolding(crate::specs::Deeds::drawn_hand_in))]
pub(crate) fn drawn_hand_in(alloc: Global, fields: &[u8]) -> Result<Option<Deed>, AllocError>
    ensures { IfOk result (λ deed. deed ≡ drawn_hand_in fields.now) }
{
    let Some((reason, rest)) = reason_at(fields) else {
        return Ok(None);
    };
    drawn_with(alloc, reason, rest)
}

// The drawn hand with its reason, and what stands after this.
#[tactic(auto, unfolding(crate::specs::Deeds::drawn_with))]
fn drawn_with(alloc: Global, reason: Reason, text: &[u8]) -> Result<Option<Deed>, AllocError>
    ensures { IfOk result (λ deed. deed ≡ drawn_with reason text.now) }
{
    let mut first = Vec::new(alloc);
    let Some((a, rest)) = shown_field(text, b",\"tehais\":[", &mut first)? else {
        return Ok(None);
    };
    let mut second = Vec::new(alloc);
    let Some((b, rest)) = shown_field(rest, b",", &mut second)? else {
        return Ok(None);
    };
    drawn_behind(
        alloc,
        reason,
        a,
        first.as_slice(),
        b,
        second.as_slice(),
        rest,
    )
}

// The drawn hand with its reason, of any text whose first two hands are these, each its tiles or how many stay hidden, and
// which goes on with this one.
#[inline(always)]
fn drawn_behind(
    alloc: Global,
    reason: Reason,
    a: Option<u8>,
    first: &[Tile],
    b: Option<u8>,
    second: &[Tile],
    text: &[u8],
) -> Result<Option<Deed>, AllocError>
    ensures { IfOk result (λ deed. (whole rest : List ℕ)
        → Some (shown_or_hidden a first.now, rest) ≡ shown_field (codes ",\"tehais\":[") whole
        → Some (shown_or_hidden b second.now, text.now) ≡ shown_field (codes ",") rest
        → deed ≡ drawn_with reason whole) }
{
    let mut third = Vec::new(alloc);
    let Some((c, rest)) = shown_field(text, b",", &mut third)? else {
        return Ok(None);
    };
    let mut fourth = Vec::new(alloc);
    let Some((d, rest)) = shown_field(rest, b",", &mut fourth)? else {
        return Ok(None);
    };
    let tiles = Hands::of(alloc, first, second, third.as_slice(), fourth.as_slice())?;
    let hidden = Four {
        first: a,
        second: b,
        third: c,
        fourth: d,
    };
    let hands = ShownHands::of(alloc, tiles, hidden)?;
    Ok(drawn_by(reason, hands, rest))
}

// The drawn hand with its reason and what is shown, and what stands after these.
fn drawn_by(reason: Reason, hands: ShownHands, text: &[u8]) -> Option<Deed>
    ensures { result ≡ drawn_by reason hands text.now }
{
    let (ready, deltas, points) = behind_hands(text)?;
    Some(Deed::DrawnHand {
        reason,
        hands,
        ready,
        deltas,
        points,
    })
}

// What stands behind the hands of a drawn hand: which seats are ready, what each gains, and the points after it.
#[tactic(auto, unfolding(crate::specs::Deeds::drawn_by))]
fn behind_hands(text: &[u8]) -> Option<([bool; 4], [i32; 4], [i32; 4])>
    ensures { (reason : Reason) (hands : Four Shown) → drawn_by reason hands text.now
        ≡ option_map (λ x. DrawnHand reason hands x.0 x.1 x.2) result }
{
    let (first, rest) = truth_field(text, b"],\"tenpais\":[")?;
    let (second, rest) = truth_field(rest, b",")?;
    let (third, rest) = truth_field(rest, b",")?;
    let (fourth, rest) = truth_field(rest, b",")?;
    let (deltas, rest) = points_field(rest, b"],\"deltas\":")?;
    let (points, _) = points_field(rest, b",\"scores\":")?;
    Some(([first, second, third, fourth], deltas, points))
}

// A hand at a draw after a key: its tiles, or how many stay hidden.
#[tactic(auto, unfolding(crate::specs::Deeds::shown_field))]
fn shown_field<'a>(
    text: &'a [u8],
    key: &[u8],
    tiles: &mut Vec<Tile>,
) -> Result<Option<(Option<u8>, &'a [u8])>, AllocError>
    requires { tiles.old.items ≡ [] }
    ensures { IfOk result (λ read.
        option_map (λ x. (shown_or_hidden x.0 tiles.new.items, x.1.now)) read
        ≡ shown_field key.now text.now) }
{
    let Some(list) = strip(text, key) else {
        return Ok(None);
    };
    shown_at(list, tiles)
}

// A hand at a draw: its tiles, or how many stay hidden.
#[tactic(auto, unfolding(crate::specs::Deeds::shown_at))]
fn shown_at<'a>(
    text: &'a [u8],
    tiles: &mut Vec<Tile>,
) -> Result<Option<(Option<u8>, &'a [u8])>, AllocError>
    requires { tiles.old.items ≡ [] }
    ensures { IfOk result (λ read.
        option_map (λ x. (shown_or_hidden x.0 tiles.new.items, x.1.now)) read
        ≡ shown_at text.now) }
{
    if let Some((number, rest)) = hidden_at(text) {
        return Ok(Some((Some(number), rest)));
    }
    match tiles_at(text, tiles)? {
        Some(rest) => Ok(Some((None, rest))),
        None => Ok(None),
    }
}

// The reason of a draw.
#[tactic(auto, unfolding(crate::specs::Deeds::reason_at))]
fn reason_at(fields: &[u8]) -> Option<(Reason, &[u8])>
    ensures { option_map (λ x. (x.0, x.1.now)) result ≡ reason_at fields.now }
{
    let (name, rest) = quoted_at(strip(fields, b",\"reason\":")?)?;
    Some((reason_of(name)?, rest))
}

// The reason that has a name.
fn reason_of(name: &[u8]) -> Option<Reason>
    ensures { result ≡ reason_of name.now }
{
    if name == b"fanpai".as_slice() {
        return Some(Reason::Fanpai);
    }
    if name == b"kyushukyuhai".as_slice() {
        return Some(Reason::Kyushukyuhai);
    }
    if name == b"suufonrenta".as_slice() {
        return Some(Reason::Suufonrenta);
    }
    if name == b"suuchareach".as_slice() {
        return Some(Reason::Suuchareach);
    }
    if name == b"suukaikan".as_slice() {
        return Some(Reason::Suukaikan);
    }
    None
}
