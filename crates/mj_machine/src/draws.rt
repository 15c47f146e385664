ghost use Rattle.std.specs.Prelude.{◌≡◌, ◌≤◌, ◌∷◌, [], false, IfOk, length, map, Some};
ghost use Rattle.std.specs.List.{slice_index_or};
ghost use Rattle.mj_deeds.specs.declared.four.Four.{Four};
ghost use Rattle.mj_deeds.specs.Facts.{newest, concealed_tiles};
ghost use Rattle.mj_deeds.specs.Four.{for_each_seat};
ghost use Rattle.mj_deeds.specs.Hand.{hand};
ghost use Rattle.mj_deeds.specs.Shown.{Shown, shown_or_hidden};
ghost use Rattle.mj_rules.specs.Draws.{is_ready_in, is_draw_of, is_hand_shown, shown_where, ready_by, drawn_hand};
ghost use Rattle.mj_machine.specs.Inner.Steps.{AreSmall, are_shown};

use crate::payments::points_with;
use mj_deeds::{Deed, Four, Hands, Reason, ShownHands, Tiles};
use mj_pay::draw_deltas;
use mj_table::Table;
use mj_waits::ready;
use std::alloc::{AllocError, Global};

// The end of the hand without a winner, for a reason: the hands that are shown, who is ready, what each seat gains and
// the points after it.
#[tactic(auto, unfolding(mj_rules::specs::Draws::draw_shown))]
pub(crate) fn drawn_hand(alloc: Global, table: &Table, reason: Reason) -> Result<Deed, AllocError>
    requires { AreSmall table.now.deeds }
    ensures { IfOk result (λ d. d ≡ drawn_hand table.now.deeds reason) }
{
    let shown = shown_by(table, reason);
    let hands = hands_at_draw(alloc, table, shown)?;
    let ready = ready_by(reason, shown);
    let deltas = draw_deltas(ready);
    Ok(Deed::DrawnHand {
        reason,
        hands,
        ready,
        deltas,
        points: points_with(table.points(), deltas),
    })
}

// Whose hands are shown.
fn shown_by(table: &Table, reason: Reason) -> [bool; 4]
    requires { AreSmall table.now.deeds }
    ensures { result ≡ map (is_hand_shown reason (hand table.now.deeds)) (0 ∷ 1 ∷ 2 ∷ 3 ∷ []) }
{
    [
        is_hand_shown(table, reason, 0),
        is_hand_shown(table, reason, 1),
        is_hand_shown(table, reason, 2),
        is_hand_shown(table, reason, 3),
    ]
}

// Whether the hand of a seat is shown: a ready one at an exhaustive draw, that of the seat which has nine kinds, and
// none at any other draw.
fn is_hand_shown(table: &Table, reason: Reason, seat: u8) -> bool
    requires seat { seat ≤ 3 }
    requires small { AreSmall table.now.deeds }
    ensures { result ≡ is_hand_shown reason (hand table.now.deeds) seat }
{
    match reason {
        Reason::Fanpai => is_ready_in(table, seat),
        Reason::Kyushukyuhai => is_drawing(table, seat),
        _ => false,
    }
}

// Whether the hand of a seat has a wait.
#[tactic(auto, unfolding(mj_rules::specs::Draws::is_ready_in))]
fn is_ready_in(table: &Table, seat: u8) -> bool
    requires { seat ≤ 3 }
    ensures { result ≡ is_ready_in (hand table.now.deeds) seat }
{
    let held = table.holds(seat);
    let room = table.room(seat);
    ready(&held, &room, table.melds(seat).as_slice().len() as u8)
}

// Whether the newest deed is a draw of the seat.
fn is_drawing(table: &Table, seat: u8) -> bool
    requires { AreSmall table.now.deeds }
    ensures { result ≡ is_draw_of seat (newest (hand table.now.deeds)) }
{
    match table.newest() {
        Some(deed) => is_draw_of(deed, seat),
        None => false,
    }
}

// Whether a deed is a draw of the seat.
fn is_draw_of(deed: &Deed, seat: u8) -> bool
    ensures { result ≡ is_draw_of seat (Some deed.now) }
{
    match deed {
        Deed::Draw { seat: who, .. } => *who == seat,
        _ => false,
    }
}

// Who is ready: at an exhaustive draw whose hand is shown, and nobody at any other.
fn ready_by(reason: Reason, shown: [bool; 4]) -> [bool; 4]
    ensures { (hands : Four Shown) → shown ≡ are_shown hands → result ≡ ready_by reason hands }
{
    match reason {
        Reason::Fanpai => shown,
        _ => [false; 4],
    }
}

// What is seen of the four hands.
fn hands_at_draw(alloc: Global, table: &Table, shown: [bool; 4]) -> Result<ShownHands, AllocError>
    requires { AreSmall table.now.deeds }
    ensures { IfOk result (λ hands. hands ≡ for_each_seat (λ seat. shown_where
        (slice_index_or shown seat false) (concealed_tiles (hand table.now.deeds) seat))) }
{
    let first = table.concealed(alloc, 0)?;
    let second = table.concealed(alloc, 1)?;
    let third = table.concealed(alloc, 2)?;
    let fourth = table.concealed(alloc, 3)?;
    let hidden = Four {
        first: number_hidden(shown[0], &first),
        second: number_hidden(shown[1], &second),
        third: number_hidden(shown[2], &third),
        fourth: number_hidden(shown[3], &fourth),
    };
    let hands = Hands::from_four(Four {
        first,
        second,
        third,
        fourth,
    });
    ShownHands::of(alloc, hands, hidden)
}

// How many tiles of a hand stay hidden; none where it is shown.
fn number_hidden(is_shown: bool, tiles: &Tiles) -> Option<u8>
    requires { length tiles.now ≤ 14 }
    ensures { shown_or_hidden result tiles.now ≡ shown_where is_shown tiles.now }
{
    if is_shown {
        return None;
    }
    Some(tiles.as_slice().len() as u8)
}
