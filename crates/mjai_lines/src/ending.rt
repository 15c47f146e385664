// The lines of a drawn hand and of the end of a game.
ghost use Rattle.std.specs.Prelude.{◌≡◌, ◌≤◌, ◌∷◌, [], OnOk, map, flat_map, replicate};
ghost use Rattle.mj_bytes.specs.Adds.{Adds};
ghost use Rattle.mj_deeds.specs.Four.{at_seat};
ghost use Rattle.mj_forms.specs.Lines.{bracketed, truth, reason_name, hand_at_draw, hidden_tile, drawn_hand_line, end_game_line};

use crate::pieces::{push_points, push_quoted, push_tiles_seen, push_truth};
use mj_bytes::{push_all, push_number};
use mj_deeds::{Reason, ShownHands};
use std::alloc::AllocError;

// Writes a hand that is drawn.
#[tactic(auto, unfolding(mj_forms::specs::Lines::drawn_hand_line))]
pub(crate) fn push_drawn_hand(
    line: &mut Vec<u8>,
    reason: Reason,
    hands: &ShownHands,
    ready: [bool; 4],
    deltas: [i32; 4],
    points: [i32; 4],
) -> Result<(), AllocError>
    ensures { OnOk result (Adds line.old.items line.new.items
        (drawn_hand_line reason hands.now ready deltas points)) }
{
    push_all(line, b"{\"type\":\"ryukyoku\",\"reason\":")?;
    push_quoted(line, reason_name(reason))?;
    push_all(line, b",\"tehais\":")?;
    push_hands(line, hands)?;
    push_all(line, b",\"tenpais\":")?;
    push_truths(line, ready)?;
    push_all(line, b",\"deltas\":")?;
    push_points(line, deltas)?;
    push_all(line, b",\"scores\":")?;
    push_points(line, points)?;
    push_all(line, b"}\n")?;
    Ok(())
}

// Writes the end of a game.
#[tactic(auto, unfolding(mj_forms::specs::Lines::end_game_line))]
pub(crate) fn push_end_game(
    line: &mut Vec<u8>,
    points: [i32; 4],
    deposits: u32,
) -> Result<(), AllocError>
    ensures { OnOk result (Adds line.old.items line.new.items (end_game_line points deposits)) }
{
    push_all(line, b"{\"type\":\"end_game\",\"scores\":")?;
    push_points(line, points)?;
    push_all(line, b",\"kyotaku\":")?;
    push_number(line, u64::from(deposits))?;
    push_all(line, b"}\n")?;
    Ok(())
}

// The name of a reason of a draw.
fn reason_name(reason: Reason) -> &'static [u8]
    ensures { result.now ≡ reason_name reason }
{
    match reason {
        Reason::Fanpai => b"fanpai",
        Reason::Kyushukyuhai => b"kyushukyuhai",
        Reason::Suufonrenta => b"suufonrenta",
        Reason::Suuchareach => b"suuchareach",
        Reason::Suukaikan => b"suukaikan",
    }
}

// Writes the four hands of a draw, in brackets.
fn push_hands(line: &mut Vec<u8>, hands: &ShownHands) -> Result<(), AllocError>
    ensures { OnOk result (Adds line.old.items line.new.items (bracketed
        (bracketed (hand_at_draw hands.now.first) ∷ bracketed (hand_at_draw hands.now.second)
        ∷ bracketed (hand_at_draw hands.now.third) ∷ bracketed (hand_at_draw hands.now.fourth)
        ∷ []))) }
{
    push_all(line, b"[")?;
    push_hand(line, hands, 0)?;
    push_all(line, b",")?;
    push_hand(line, hands, 1)?;
    push_all(line, b",")?;
    push_hand(line, hands, 2)?;
    push_all(line, b",")?;
    push_hand(line, hands, 3)?;
    push_all(line, b"]")?;
    Ok(())
}

// Writes the hand of a seat at a draw, in brackets.
fn push_hand(line: &mut Vec<u8>, hands: &ShownHands, seat: u8) -> Result<(), AllocError>
    requires { seat ≤ 3 }
    ensures { OnOk result (Adds line.old.items line.new.items
        (bracketed (hand_at_draw (at_seat hands.now seat)))) }
{
    match hands.hidden(seat) {
        Some(number) => push_hidden(line, number),
        None => push_tiles_seen(line, true, hands.at(seat)),
    }
}

// Writes so many hidden tiles, in brackets.
fn push_hidden(line: &mut Vec<u8>, number: u8) -> Result<(), AllocError>
    ensures { OnOk result (Adds line.old.items line.new.items
        (bracketed (replicate number hidden_tile))) }
{
    if number == 0 {
        return push_all(line, b"[]");
    }
    push_all(line, b"[\"?\"")?;
    push_more_hidden(line, number - 1)?;
    push_all(line, b"]")?;
    Ok(())
}

// Writes so many hidden tiles, each after a comma.
fn push_more_hidden(line: &mut Vec<u8>, number: u8) -> Result<(), AllocError>
    ensures { OnOk result (Adds line.old.items line.new.items
        (flat_map (λ other. 44 ∷ other) (replicate number hidden_tile))) }
{
    for copy in 0..number {
        push_all(line, b",\"?\"")?;
    }
    Ok(())
}

// Writes four truths, in brackets.
fn push_truths(line: &mut Vec<u8>, truths: [bool; 4]) -> Result<(), AllocError>
    ensures { OnOk result (Adds line.old.items line.new.items (bracketed (map truth truths))) }
{
    push_all(line, b"[")?;
    push_truth(line, truths[0])?;
    push_all(line, b",")?;
    push_truth(line, truths[1])?;
    push_all(line, b",")?;
    push_truth(line, truths[2])?;
    push_all(line, b",")?;
    push_truth(line, truths[3])?;
    push_all(line, b"]")?;
    Ok(())
}
