//! Which of many tables a join is for.

ghost use Rattle.std.specs.Prelude.{◌≡◌, IfOk, codes};
ghost use Rattle.serde_json.specs.View.{view};
ghost use Rattle.serde_json.specs.Find.{get};
ghost use Rattle.mj_forms.specs.AnswerForms.{picked_of, picked_in as picked_read, room_by, room_number as number_of_room};

use crate::join::join_in;
use crate::value::read_value;
use mj_ports::Picked;
use serde_json::Value;
use std::alloc::{AllocError, Global};

/// For which of so many tables a line is that wants a seat. The rooms are `room1`, `room2` and so on, at most `room8`; a
/// join that names no room, or the room `default`, is for the first. A line is looked at for its room only where it is a
/// join with a name and a key of the right form. The only error is running out of memory.
#[tactic(auto, unfolding(mj_forms::specs::AnswerForms::picked_of))]
pub fn read_room(alloc: Global, line: &[u8], rooms: u8) -> Result<Picked, AllocError>
    ensures { IfOk result (λ p. p ≡ picked_of rooms line.now) }
{
    match read_value(alloc, line)? {
        Some(value) => Ok(picked_in(&value, rooms)),
        None => Ok(Picked::BadName),
    }
}

// For which of so many tables a value is.
fn picked_in(value: &Value, rooms: u8) -> Picked
    ensures { result ≡ picked_read rooms (view value.now) }
{
    match join_in(value) {
        Some(_) => match room_in(value, rooms) {
            Some(table) => Picked::Table(table),
            None => Picked::NoRoom,
        },
        None => Picked::BadName,
    }
}

// The table whose room a value names, one of so many; none where there is no such room.
fn room_in(value: &Value, rooms: u8) -> Option<u8>
    ensures { result ≡ room_by rooms (get (codes "room") (view value.now)) }
{
    let Some(field) = value.get("room") else {
        return Some(0);
    };
    let table = room_number(field.as_str()?)?;
    if table < rooms {
        return Some(table);
    }
    None
}

// The table that a room's text names.
fn room_number(text: &str) -> Option<u8>
    ensures { result ≡ number_of_room text.now }
{
    match text {
        "default" => Some(0),
        "room1" => Some(0),
        "room2" => Some(1),
        "room3" => Some(2),
        "room4" => Some(3),
        "room5" => Some(4),
        "room6" => Some(5),
        "room7" => Some(6),
        "room8" => Some(7),
        _ => None,
    }
}
