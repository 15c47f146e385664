// The line of a win, in four pieces.
ghost use Rattle.std.specs.Prelude.{◌++◌, ◌∷◌, OnOk, map, flat_map, codes, decimal};
ghost use Rattle.mj_bytes.specs.Adds.{Adds};
ghost use Rattle.mj_forms.specs.Lines.{quoted_tile, bracketed, joined, points_text, in_record, row_text};

use crate::pieces::{push_points, push_quoted, push_tile, push_tiles_seen};
use crate::yaku::yaku_name;
use mj_bytes::{push_all, push_number};
use mj_deeds::{SeatList, Tiles, Viewer, YakuList};
use mj_tiles::Tile;
use std::alloc::AllocError;

// Writes who wins on which tile of whom, and what it shows.
pub(crate) fn push_winner(
    line: &mut Vec<u8>,
    seat: u8,
    target: u8,
    tile: Tile,
    unders: &Tiles,
    hand: &Tiles,
) -> Result<(), AllocError>
    ensures { OnOk result (Adds line.old.items line.new.items
        (codes "{\"type\":\"hora\",\"actor\":" ++ decimal seat ++ codes ",\"target\":"
        ++ decimal target
        ++ codes ",\"pai\":" ++ quoted_tile tile ++ codes ",\"uradora_markers\":"
        ++ bracketed (map quoted_tile unders.now) ++ codes ",\"hora_tehais\":"
        ++ bracketed (map quoted_tile hand.now))) }
{
    push_all(line, b"{\"type\":\"hora\",\"actor\":")?;
    push_number(line, u64::from(seat))?;
    push_all(line, b",\"target\":")?;
    push_number(line, u64::from(target))?;
    push_all(line, b",\"pai\":")?;
    push_tile(line, tile)?;
    push_all(line, b",\"uradora_markers\":")?;
    push_tiles_seen(line, true, unders.as_slice())?;
    push_all(line, b",\"hora_tehais\":")?;
    push_tiles_seen(line, true, hand.as_slice())?;
    Ok(())
}

// Writes what the win is worth.
pub(crate) fn push_worth(
    line: &mut Vec<u8>,
    yaku: &YakuList,
    fu: u8,
    han: u8,
    value: u32,
) -> Result<(), AllocError>
    ensures { OnOk result (Adds line.old.items line.new.items
        (codes ",\"yakus\":" ++ bracketed (map row_text yaku.now) ++ codes ",\"fu\":" ++ decimal fu
        ++ codes ",\"fan\":" ++ decimal han ++ codes ",\"hora_points\":" ++ decimal value)) }
{
    push_all(line, b",\"yakus\":")?;
    push_rows(line, yaku.as_slice())?;
    push_all(line, b",\"fu\":")?;
    push_number(line, u64::from(fu))?;
    push_all(line, b",\"fan\":")?;
    push_number(line, u64::from(han))?;
    push_all(line, b",\"hora_points\":")?;
    push_number(line, u64::from(value))?;
    Ok(())
}

// Writes what each seat gains, the points after it, the seats that win next, in the record alone, and the end of the line.
pub(crate) fn push_changes(
    line: &mut Vec<u8>,
    viewer: Viewer,
    deltas: [i32; 4],
    points: [i32; 4],
    rest: SeatList,
) -> Result<(), AllocError>
    ensures { OnOk result (Adds line.old.items line.new.items
        (codes ",\"deltas\":" ++ points_text deltas ++ codes ",\"scores\":"
        ++ points_text points
        ++ (in_record viewer (codes ",\"rest\":" ++ bracketed (map decimal rest))
        ++ codes "}\n"))) }
{
    push_all(line, b",\"deltas\":")?;
    push_points(line, deltas)?;
    push_all(line, b",\"scores\":")?;
    push_points(line, points)?;
    push_rest(line, viewer, rest)?;
    Ok(())
}

// Writes the seats that win next, in the record alone, and the end of the line.
#[inline(always)]
fn push_rest(line: &mut Vec<u8>, viewer: Viewer, rest: SeatList) -> Result<(), AllocError>
    ensures { OnOk result (Adds line.old.items line.new.items
        (in_record viewer (codes ",\"rest\":" ++ bracketed (map decimal rest)) ++ codes "}\n")) }
{
    match viewer {
        Viewer::Seat(_) => push_all(line, b"}\n"),
        Viewer::Record => {
            push_all(line, b",\"rest\":")?;
            push_seats(line, rest.as_slice())?;
            push_all(line, b"}\n")?;
            Ok(())
        }
    }
}

// Writes rows of the table of yaku with their numbers, in brackets.
fn push_rows(line: &mut Vec<u8>, rows: &[(u8, u8)]) -> Result<(), AllocError>
    ensures { OnOk result (Adds line.old.items line.new.items
        (bracketed (map row_text rows.now))) }
{
    push_all(line, b"[")?;
    push_joined_rows(line, rows)?;
    push_all(line, b"]")?;
    Ok(())
}

// Writes rows with their numbers, with commas between.
fn push_joined_rows(line: &mut Vec<u8>, rows: &[(u8, u8)]) -> Result<(), AllocError>
    ensures { OnOk result (Adds line.old.items line.new.items (joined (map row_text rows.now))) }
{
    match rows.split_first() {
        Some((first, others)) => {
            push_row(line, *first)?;
            push_later_rows(line, others)?;
            Ok(())
        }
        None => Ok(()),
    }
}

// Writes rows with their numbers, each after a comma.
fn push_later_rows(line: &mut Vec<u8>, rows: &[(u8, u8)]) -> Result<(), AllocError>
    ensures { OnOk result (Adds line.old.items line.new.items
        (flat_map (λ other. 44 ∷ other) (map row_text rows.now))) }
{
    for row in rows {
        push_all(line, b",")?;
        push_row(line, *row)?;
    }
    Ok(())
}

// Writes a row of the table of yaku with its number.
fn push_row(line: &mut Vec<u8>, row: (u8, u8)) -> Result<(), AllocError>
    ensures { OnOk result (Adds line.old.items line.new.items (row_text row)) }
{
    push_all(line, b"[")?;
    push_quoted(line, yaku_name(row.0))?;
    push_all(line, b",")?;
    push_number(line, u64::from(row.1))?;
    push_all(line, b"]")?;
    Ok(())
}

// Writes seats, in brackets.
fn push_seats(line: &mut Vec<u8>, seats: &[u8]) -> Result<(), AllocError>
    ensures { OnOk result (Adds line.old.items line.new.items
        (bracketed (map decimal seats.now))) }
{
    push_all(line, b"[")?;
    push_joined_seats(line, seats)?;
    push_all(line, b"]")?;
    Ok(())
}

// Writes seats, with commas between.
fn push_joined_seats(line: &mut Vec<u8>, seats: &[u8]) -> Result<(), AllocError>
    ensures { OnOk result (Adds line.old.items line.new.items (joined (map decimal seats.now))) }
{
    match seats.split_first() {
        Some((first, others)) => {
            push_number(line, u64::from(*first))?;
            push_later_seats(line, others)?;
            Ok(())
        }
        None => Ok(()),
    }
}

// Writes seats, each after a comma.
fn push_later_seats(line: &mut Vec<u8>, seats: &[u8]) -> Result<(), AllocError>
    ensures { OnOk result (Adds line.old.items line.new.items
        (flat_map (λ other. 44 ∷ other) (map decimal seats.now))) }
{
    for seat in seats {
        push_all(line, b",")?;
        push_number(line, u64::from(*seat))?;
    }
    Ok(())
}
