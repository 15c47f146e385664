// Public lines, written.

ghost use Rattle.std.specs.Prelude.{◌≡◌, ◌∷◌, ◌++◌, [], OnOk, replicate, flat_map};
ghost use Rattle.mj_bytes.specs.Adds.{Adds};
ghost use Rattle.mj_forms.specs.Lines.{bracketed, hidden_tile};
ghost use Rattle.mj_observe.specs.Views.{public_line, names_line, all_hidden, hand_shown_line};

use crate::rendering::write_over;
use mj_bytes::{push_all, push_number};
use mj_deeds::{Deed, Four, Hands, Viewer};
use mj_ports::Name;
use mjai_lines::{push_names, push_place, push_tile};
use std::alloc::{AllocError, Global};

// Writes the public line of a deed in place of a text. The only error is running out of memory, and then the text may be any.
pub(crate) fn write_public(alloc: Global, line: &mut Vec<u8>, deed: &Deed) -> Result<(), AllocError>
    ensures { OnOk result (line.new.items ≡ public_line deed.now) }
{
    match deed {
        Deed::StartGame { names } => {
            line.clear();
            push_names_line(line, names.four())
        }
        Deed::StartHand {
            round,
            number,
            honba,
            deposits,
            dealer,
            indicator,
            hands,
        } => {
            line.clear();
            push_place(line, *round, *number, *honba, *deposits, *dealer)?;
            push_all(line, b",\"dora_marker\":")?;
            push_tile(line, *indicator)?;
            push_all(line, b",\"tehais\":")?;
            push_hidden_hands(line, hands)?;
            push_all(line, b"}\n")?;
            Ok(())
        }
        Deed::Draw { seat: 0, .. } => write_over(alloc, line, Viewer::Seat(1), deed),
        _ => write_over(alloc, line, Viewer::Seat(0), deed),
    }
}

// Writes a hand in full: how many lines it has, and its lines, of which the last stands apart.
pub(crate) fn push_in_full(
    text: &mut Vec<u8>,
    count: usize,
    lines: &[u8],
    last: &[u8],
) -> Result<(), AllocError>
    ensures { OnOk result (Adds text.old.items text.new.items
        (hand_shown_line count ++ (lines.now ++ last.now))) }
{
    push_count(text, count)?;
    push_all(text, lines)?;
    push_all(text, last)?;
    Ok(())
}

// Writes how many lines of a hand follow.
fn push_count(text: &mut Vec<u8>, count: usize) -> Result<(), AllocError>
    ensures { OnOk result (Adds text.old.items text.new.items (hand_shown_line count)) }
{
    push_all(text, b"{\"type\":\"hand_shown\",\"count\":")?;
    push_number(text, count as u64)?;
    push_all(text, b"}\n")?;
    Ok(())
}

// Writes the start of a game for nobody.
#[tactic(auto, unfolding(crate::specs::Views::names_line))]
fn push_names_line(line: &mut Vec<u8>, names: &Four<Name>) -> Result<(), AllocError>
    ensures { OnOk result (Adds line.old.items line.new.items (names_line names.now)) }
{
    push_all(line, b"{\"type\":\"start_game\",\"names\":")?;
    push_names(line, names)?;
    push_all(line, b"}\n")?;
    Ok(())
}

// Writes the four dealt hands as hidden tiles, in brackets.
fn push_hidden_hands(line: &mut Vec<u8>, hands: &Hands) -> Result<(), AllocError>
    ensures { OnOk result (Adds line.old.items line.new.items (bracketed
        (bracketed (all_hidden hands.now).first ∷ bracketed (all_hidden hands.now).second
        ∷ bracketed (all_hidden hands.now).third ∷ bracketed (all_hidden hands.now).fourth
        ∷ []))) }
{
    push_all(line, b"[")?;
    push_hidden(line, hands.at(0).len())?;
    push_all(line, b",")?;
    push_hidden(line, hands.at(1).len())?;
    push_all(line, b",")?;
    push_hidden(line, hands.at(2).len())?;
    push_all(line, b",")?;
    push_hidden(line, hands.at(3).len())?;
    push_all(line, b"]")?;
    Ok(())
}

// Writes so many hidden tiles, in brackets.
fn push_hidden(line: &mut Vec<u8>, number: usize) -> Result<(), AllocError>
    ensures { OnOk result (Adds line.old.items line.new.items
        (bracketed (replicate number hidden_tile))) }
{
    if number == 0 {
        return push_all(line, b"[]");
    }
    push_all(line, b"[\"?\"")?;
    push_more_hidden(line, number - 1)?;
    push_all(line, b"]")?;
    Ok(())
}

// Writes so many hidden tiles, each after a comma.
fn push_more_hidden(line: &mut Vec<u8>, number: usize) -> Result<(), AllocError>
    ensures { OnOk result (Adds line.old.items line.new.items
        (flat_map (λ other. 44 ∷ other) (replicate number hidden_tile))) }
{
    for copy in 0..number {
        push_all(line, b",\"?\"")?;
    }
    Ok(())
}
