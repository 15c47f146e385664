ghost use Rattle.std.specs.Prelude.{◌≡◌, ◌+◌, ◌<◌, ◌∷◌, ◌++◌, [], OnOk, OnErr, codes, decimal, option_copied};
ghost use Rattle.mj_bytes.specs.Adds.{Adds};
ghost use Rattle.mj_view.specs.Seen.{sees};
ghost use Rattle.mj_forms.specs.Choices.{line_listing};
ghost use Rattle.mj_forms.specs.Lines.{line as line_for, bracketed, quoted_tile, seat_in_line as seat_written, start_game_line, draw_line, discard_line};
ghost use Rattle.mj_forms.specs.Lines.{call_line, call_object, closed_kan_line, added_kan_line, dora_line, hands_seen, tile_seen, truth};

use crate::choices::list_answers;
use crate::ending::{push_drawn_hand, push_end_game};
use crate::pieces::{push_quoted, push_tile, push_tile_seen, push_tiles_seen};
use crate::riichi::{push_reach, push_reach_accepted};
use crate::starts::{push_names, push_place};
use crate::steps::Steps;
use crate::winning::{push_changes, push_winner, push_worth};
use mj_bytes::{push_all, push_number};
use mj_deeds::{Answers, Deed, Four, Hands, Viewer};
use mj_ports::Name;
use mj_tiles::Tile;
use mj_view::sees;
use std::alloc::{AllocError, Global};
use std::sync::ledger::Ledger;

/// Writes the line of a deed, as the viewer sees it, after a text: a seat sees its own tiles and a question mark for
/// each hidden tile of another, the record sees all, and it alone has the call that is kept at an accepted reach and the
/// seats that win next. Where a list of answers is given it is the last field of the line; the record's lines have none. The
/// only error is running out of memory, and then the text stays as it was. It counts one line. After an empty text it takes
/// no memory but the text's.
#[inline(always)]
pub fn write<L: Ledger>(
    alloc: Global,
    viewer: Viewer,
    deed: &Deed,
    possible: Option<&Answers>,
    into: &mut Vec<u8>,
    steps: &mut Steps<L>,
) -> Result<(), AllocError>
    ensures ok { OnOk result (Adds into.old.items into.new.items
        (line_listing (option_copied possible.entry) viewer deed.now)) }
    ensures err { OnErr result (into.new.items ≡ into.old.items) }
    ensures steps { steps.new ≡ steps.old + 1 }
{
    if into.is_empty() {
        return write_first(viewer, deed, possible, into, steps);
    }
    write_behind(alloc, viewer, deed, possible, into, steps)
}

// Writes the line of a deed after a text: the line has memory of its own, so that the text stays where that is wanting.
#[inline(never)]
fn write_behind<L: Ledger>(
    alloc: Global,
    viewer: Viewer,
    deed: &Deed,
    possible: Option<&Answers>,
    into: &mut Vec<u8>,
    steps: &mut Steps<L>,
) -> Result<(), AllocError>
    ensures ok { OnOk result (Adds into.old.items into.new.items
        (line_listing (option_copied possible.entry) viewer deed.now)) }
    ensures err { OnErr result (into.new.items ≡ into.old.items) }
    ensures steps { steps.new ≡ steps.old + 1 }
{
    let mut line = Vec::new(alloc);
    render(&mut line, viewer, deed, possible, steps)?;
    push_all(into, line.as_slice())
}

// Writes the line of a deed where no text stands before it, and leaves none where memory is wanting.
#[inline(always)]
fn write_first<L: Ledger>(
    viewer: Viewer,
    deed: &Deed,
    possible: Option<&Answers>,
    line: &mut Vec<u8>,
    steps: &mut Steps<L>,
) -> Result<(), AllocError>
    ensures ok { OnOk result (line.new.items
        ≡ line_listing (option_copied possible.entry) viewer deed.now) }
    ensures err { OnErr result (line.new.items ≡ []) }
    ensures steps { steps.new ≡ steps.old + 1 }
{
    let done = render(line, viewer, deed, possible, steps);
    if done.is_err() {
        line.clear();
    }
    done
}

// Writes the line of a deed in place of a text, with a list of answers where one is given. Whatever renders the line of a
// deed does it here, and so is counted. Where memory is wanting the text may be any.
#[inline(always)]
fn render<L: Ledger>(
    line: &mut Vec<u8>,
    viewer: Viewer,
    deed: &Deed,
    possible: Option<&Answers>,
    steps: &mut Steps<L>,
) -> Result<(), AllocError>
    ensures line { OnOk result (line.new.items
        ≡ line_listing (option_copied possible.entry) viewer deed.now) }
    ensures steps { steps.new ≡ steps.old + 1 }
{
    steps.take();
    line.clear();
    push_deed(line, viewer, deed)?;
    match possible {
        Some(answers) => list_answers(line, answers.as_slice()),
        None => Ok(()),
    }
}

// Writes the line of a deed.
fn push_deed(line: &mut Vec<u8>, viewer: Viewer, deed: &Deed) -> Result<(), AllocError>
    ensures { OnOk result (Adds line.old.items line.new.items (line_for viewer deed.now)) }
{
    match deed {
        Deed::StartGame { names } => push_start_game(line, viewer, names.four()),
        Deed::StartHand {
            round,
            number,
            honba,
            deposits,
            dealer,
            indicator,
            hands,
        } => {
            push_place(line, *round, *number, *honba, *deposits, *dealer)?;
            push_dealt(line, viewer, *indicator, hands)?;
            Ok(())
        }
        Deed::Draw { seat, tile, .. } => push_draw(line, viewer, *seat, *tile),
        Deed::Discard { seat, tile, drawn } => push_discard(line, *seat, *tile, *drawn),
        Deed::Chi {
            seat,
            target,
            tile,
            a,
            b,
        } => push_call(line, b"chi", *seat, *target, *tile, &[*a, *b]),
        Deed::Pon {
            seat,
            target,
            tile,
            a,
            b,
        } => push_call(line, b"pon", *seat, *target, *tile, &[*a, *b]),
        Deed::OpenKan {
            seat,
            target,
            tile,
            a,
            b,
            c,
        } => push_call(line, b"daiminkan", *seat, *target, *tile, &[*a, *b, *c]),
        Deed::ClosedKan { seat, a, b, c, d } => push_closed_kan(line, *seat, &[*a, *b, *c, *d]),
        Deed::AddedKan {
            seat,
            tile,
            a,
            b,
            c,
        } => push_added_kan(line, *seat, *tile, &[*a, *b, *c]),
        Deed::Dora { tile } => push_dora(line, *tile),
        Deed::Reach { seat } => push_reach(line, *seat),
        Deed::ReachAccepted { seat, points, then } => {
            push_reach_accepted(line, viewer, *seat, *points, *then)
        }
        Deed::Win {
            seat,
            target,
            tile,
            unders,
            hand,
            yaku,
            fu,
            han,
            value,
            deltas,
            points,
            rest,
        } => {
            push_winner(line, *seat, *target, *tile, unders, hand)?;
            push_worth(line, yaku, *fu, *han, *value)?;
            push_changes(line, viewer, *deltas, *points, *rest)?;
            Ok(())
        }
        Deed::DrawnHand {
            reason,
            hands,
            ready,
            deltas,
            points,
        } => push_drawn_hand(line, *reason, hands, *ready, *deltas, *points),
        Deed::EndHand => push_all(line, b"{\"type\":\"end_kyoku\"}\n"),
        Deed::EndGame { points, deposits } => push_end_game(line, *points, *deposits),
    }
}

// The seat that a line is written for.
fn seat_in_line(viewer: Viewer) -> u8
    ensures { result ≡ seat_written viewer }
{
    match viewer {
        Viewer::Seat(seat) => seat,
        Viewer::Record => 0,
    }
}

// Writes the start of a game.
#[tactic(auto, unfolding(mj_forms::specs::Lines::start_game_line))]
fn push_start_game(line: &mut Vec<u8>, viewer: Viewer, names: &Four<Name>) -> Result<(), AllocError>
    ensures { OnOk result (Adds line.old.items line.new.items
        (start_game_line (seat_written viewer) names.now)) }
{
    push_all(line, b"{\"type\":\"start_game\",\"id\":")?;
    push_number(line, u64::from(seat_in_line(viewer)))?;
    push_all(line, b",\"names\":")?;
    push_names(line, names)?;
    push_all(line, b"}\n")?;
    Ok(())
}

// Writes the start of a hand behind its dealer: its indicator, and the hands as the viewer sees them.
#[inline(always)]
fn push_dealt(
    line: &mut Vec<u8>,
    viewer: Viewer,
    indicator: Tile,
    hands: &Hands,
) -> Result<(), AllocError>
    ensures { OnOk result (Adds line.old.items line.new.items
        (codes ",\"dora_marker\":" ++ quoted_tile indicator ++ codes ",\"tehais\":"
        ++ bracketed (bracketed (hands_seen viewer hands.now).first
        ∷ bracketed (hands_seen viewer hands.now).second
        ∷ bracketed (hands_seen viewer hands.now).third
        ∷ bracketed (hands_seen viewer hands.now).fourth
        ∷ []) ++ codes "}\n")) }
{
    push_all(line, b",\"dora_marker\":")?;
    push_tile(line, indicator)?;
    push_all(line, b",\"tehais\":")?;
    push_hands(line, viewer, hands)?;
    push_all(line, b"}\n")?;
    Ok(())
}

// Writes the four hands as the viewer sees them, in brackets.
fn push_hands(line: &mut Vec<u8>, viewer: Viewer, hands: &Hands) -> Result<(), AllocError>
    ensures { OnOk result (Adds line.old.items line.new.items (bracketed
        (bracketed (hands_seen viewer hands.now).first
        ∷ bracketed (hands_seen viewer hands.now).second
        ∷ bracketed (hands_seen viewer hands.now).third
        ∷ bracketed (hands_seen viewer hands.now).fourth
        ∷ []))) }
{
    push_all(line, b"[")?;
    push_tiles_seen(line, sees(viewer, 0), hands.at(0))?;
    push_all(line, b",")?;
    push_tiles_seen(line, sees(viewer, 1), hands.at(1))?;
    push_all(line, b",")?;
    push_tiles_seen(line, sees(viewer, 2), hands.at(2))?;
    push_all(line, b",")?;
    push_tiles_seen(line, sees(viewer, 3), hands.at(3))?;
    push_all(line, b"]")?;
    Ok(())
}

// Writes a draw.
#[tactic(auto, unfolding(mj_forms::specs::Lines::draw_line))]
fn push_draw(line: &mut Vec<u8>, viewer: Viewer, seat: u8, tile: Tile) -> Result<(), AllocError>
    ensures { OnOk result (Adds line.old.items line.new.items
        (draw_line seat (tile_seen (sees viewer seat) tile))) }
{
    push_draw_front(line, seat)?;
    push_tile_seen(line, sees(viewer, seat), tile)?;
    push_all(line, b"}\n")?;
    Ok(())
}

// Writes a draw as far as its tile: of a seat at once, since a hand is mostly draws and discards.
fn push_draw_front(line: &mut Vec<u8>, seat: u8) -> Result<(), AllocError>
    ensures { OnOk result (Adds line.old.items line.new.items
        (codes "{\"type\":\"tsumo\",\"actor\":" ++ decimal seat ++ codes ",\"pai\":")) }
{
    match seat {
        0 => push_all(line, b"{\"type\":\"tsumo\",\"actor\":0,\"pai\":"),
        1 => push_all(line, b"{\"type\":\"tsumo\",\"actor\":1,\"pai\":"),
        2 => push_all(line, b"{\"type\":\"tsumo\",\"actor\":2,\"pai\":"),
        3 => push_all(line, b"{\"type\":\"tsumo\",\"actor\":3,\"pai\":"),
        _ => {
            push_all(line, b"{\"type\":\"tsumo\",\"actor\":")?;
            push_number(line, u64::from(seat))?;
            push_all(line, b",\"pai\":")?;
            Ok(())
        }
    }
}

// Writes a discard.
#[tactic(auto, unfolding(mj_forms::specs::Lines::discard_line))]
fn push_discard(line: &mut Vec<u8>, seat: u8, tile: Tile, drawn: bool) -> Result<(), AllocError>
    ensures { OnOk result (Adds line.old.items line.new.items (discard_line seat tile drawn)) }
{
    push_discard_front(line, seat)?;
    push_tile(line, tile)?;
    push_mark(line, drawn)?;
    Ok(())
}

// Writes a discard as far as its tile.
fn push_discard_front(line: &mut Vec<u8>, seat: u8) -> Result<(), AllocError>
    ensures { OnOk result (Adds line.old.items line.new.items
        (codes "{\"type\":\"dahai\",\"actor\":" ++ decimal seat ++ codes ",\"pai\":")) }
{
    match seat {
        0 => push_all(line, b"{\"type\":\"dahai\",\"actor\":0,\"pai\":"),
        1 => push_all(line, b"{\"type\":\"dahai\",\"actor\":1,\"pai\":"),
        2 => push_all(line, b"{\"type\":\"dahai\",\"actor\":2,\"pai\":"),
        3 => push_all(line, b"{\"type\":\"dahai\",\"actor\":3,\"pai\":"),
        _ => {
            push_all(line, b"{\"type\":\"dahai\",\"actor\":")?;
            push_number(line, u64::from(seat))?;
            push_all(line, b",\"pai\":")?;
            Ok(())
        }
    }
}

// Writes whether the tile is the drawn one, and the end of a discard.
fn push_mark(line: &mut Vec<u8>, drawn: bool) -> Result<(), AllocError>
    ensures { OnOk result (Adds line.old.items line.new.items
        (codes ",\"tsumogiri\":" ++ truth drawn ++ codes "}\n")) }
{
    if drawn {
        return push_all(line, b",\"tsumogiri\":true}\n");
    }
    push_all(line, b",\"tsumogiri\":false}\n")
}

// Writes a call of a discard, under its type.
fn push_call(
    line: &mut Vec<u8>,
    type_name: &[u8],
    seat: u8,
    target: u8,
    tile: Tile,
    own: &[Tile],
) -> Result<(), AllocError>
    ensures { OnOk result (Adds line.old.items line.new.items
        (call_line type_name.now seat target tile own.now)) }
{
    push_call_object(line, type_name, seat, target, tile, own)?;
    push_all(line, b"\n")?;
    Ok(())
}

// Writes a call of a discard as an object, under its type.
#[tactic(auto, unfolding(mj_forms::specs::Lines::call_object))]
pub(crate) fn push_call_object(
    line: &mut Vec<u8>,
    type_name: &[u8],
    seat: u8,
    target: u8,
    tile: Tile,
    own: &[Tile],
) -> Result<(), AllocError>
    ensures { OnOk result (Adds line.old.items line.new.items
        (call_object type_name.now seat target tile own.now)) }
{
    push_all(line, b"{\"type\":")?;
    push_quoted(line, type_name)?;
    push_all(line, b",\"actor\":")?;
    push_number(line, u64::from(seat))?;
    push_all(line, b",\"target\":")?;
    push_number(line, u64::from(target))?;
    push_all(line, b",\"pai\":")?;
    push_tile(line, tile)?;
    push_all(line, b",\"consumed\":")?;
    push_tiles_seen(line, true, own)?;
    push_all(line, b"}")?;
    Ok(())
}

// Writes a kan of concealed tiles.
fn push_closed_kan(line: &mut Vec<u8>, seat: u8, own: &[Tile]) -> Result<(), AllocError>
    ensures { OnOk result (Adds line.old.items line.new.items (closed_kan_line seat own.now)) }
{
    push_all(line, b"{\"type\":\"ankan\",\"actor\":")?;
    push_number(line, u64::from(seat))?;
    push_all(line, b",\"consumed\":")?;
    push_tiles_seen(line, true, own)?;
    push_all(line, b"}\n")?;
    Ok(())
}

// Writes an added kan, with its triplet.
fn push_added_kan(
    line: &mut Vec<u8>,
    seat: u8,
    tile: Tile,
    triplet: &[Tile],
) -> Result<(), AllocError>
    ensures { OnOk result (Adds line.old.items line.new.items
        (added_kan_line seat tile triplet.now)) }
{
    push_all(line, b"{\"type\":\"kakan\",\"actor\":")?;
    push_number(line, u64::from(seat))?;
    push_all(line, b",\"pai\":")?;
    push_tile(line, tile)?;
    push_all(line, b",\"consumed\":")?;
    push_tiles_seen(line, true, triplet)?;
    push_all(line, b"}\n")?;
    Ok(())
}

// Writes a new indicator.
fn push_dora(line: &mut Vec<u8>, tile: Tile) -> Result<(), AllocError>
    ensures { OnOk result (Adds line.old.items line.new.items (dora_line tile)) }
{
    push_all(line, b"{\"type\":\"dora\",\"dora_marker\":")?;
    push_tile(line, tile)?;
    push_all(line, b"}\n")?;
    Ok(())
}
