//! What deeds come to, in lines.

ghost use Rattle.std.specs.Prelude.{◌≡◌, ◌∷◌, IfOk, OnOk};
ghost use Rattle.mj_bytes.specs.Adds.{Adds};
ghost use Rattle.mj_bytes.specs.Numbers.{signed_text};
ghost use Rattle.mj_runs.specs.Results.{amounts_text, number_line, points_line, result_text};

use mj_bytes::{push_all, push_number, push_signed};
use std::alloc::{AllocError, Global};

/// Three lines, each a name and its numbers in plain decimal, negative points with `-`: `deeds`, how many there are, `points` of the
/// four seats in their order, and `deposits`, both after the last deed.
pub fn result_lines(
    alloc: Global,
    deeds: u32,
    points: [i32; 4],
    deposits: u32,
) -> Result<Vec<u8>, AllocError>
    ensures { IfOk result (λ text. text.items ≡ result_text deeds points deposits) }
{
    let mut text = Vec::new(alloc);
    push_result(&mut text, deeds, points, deposits)?;
    Ok(text)
}

/// Writes these three lines after a text, which may be spoilt where memory is wanting.
pub fn push_result(
    text: &mut Vec<u8>,
    deeds: u32,
    points: [i32; 4],
    deposits: u32,
) -> Result<(), AllocError>
    ensures { OnOk result (Adds text.old.items text.new.items
        (result_text deeds points deposits)) }
{
    push_line(text, b"deeds", deeds)?;
    push_points(text, &points)?;
    push_line(text, b"deposits", deposits)?;
    Ok(())
}

/// Writes a line of a name and a number after a text, which may be spoilt where memory is wanting.
pub fn push_line(text: &mut Vec<u8>, name: &[u8], number: u32) -> Result<(), AllocError>
    ensures { OnOk result (Adds text.old.items text.new.items (number_line name.now number)) }
{
    push_all(text, name)?;
    push_all(text, b" ")?;
    push_number(text, u64::from(number))?;
    push_all(text, b"\n")?;
    Ok(())
}

fn push_points(text: &mut Vec<u8>, points: &[i32]) -> Result<(), AllocError>
    ensures { OnOk result (Adds text.old.items text.new.items (points_line points.now)) }
{
    push_all(text, b"points")?;
    push_amounts(text, points)?;
    push_all(text, b"\n")?;
    Ok(())
}

// Writes the points, each after a space.
fn push_amounts(text: &mut Vec<u8>, amounts: &[i32]) -> Result<(), AllocError>
    ensures { OnOk result (Adds text.old.items text.new.items (amounts_text amounts.now)) }
{
    for amount in amounts {
        push_amount(text, *amount)?;
    }
    Ok(())
}

fn push_amount(text: &mut Vec<u8>, amount: i32) -> Result<(), AllocError>
    ensures { OnOk result (Adds text.old.items text.new.items (32 ∷ signed_text amount)) }
{
    push_all(text, b" ")?;
    push_signed(text, amount)?;
    Ok(())
}
