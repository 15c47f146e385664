//! A log of seats that is standard error.

use mj_durable::{Rooms, SeatLog};
use mjai_answers::read_join;
use std::alloc::{AllocError, Global};
use std::io::Write;

/// Says on standard error which seats are taken, left and taken back, of several tables with the name of the room.
#[derive(Drop)]
pub(crate) struct StderrLog<'a> {
    rt: &'a HostRuntime,
    alloc: Global,
    rooms: Rooms,
}

impl<'a> StderrLog<'a> {
    /// A log of the seats at the tables of these rooms.
    pub(crate) fn new(rt: &'a HostRuntime, alloc: Global, rooms: Rooms) -> StderrLog<'a> {
        StderrLog { rt, alloc, rooms }
    }
}

impl SeatLog for StderrLog<'_> {
    fn taken(&self, table: usize, seat: u8, line: &[u8]) {
        if let Ok(taken) = taken_by(self.alloc, line) {
            say(self, table, seat, taken.as_str());
        }
    }

    fn taken_back(&self, table: usize, seat: u8) {
        say(self, table, seat, "taken back");
    }

    fn left(&self, table: usize, seat: u8) {
        say(self, table, seat, "left");
    }
}

// How the seat is taken for which this line asked: by its name, in which whatever isn't seen as it stands is escaped; without
// it where memory is wanting.
fn taken_by(alloc: Global, line: &[u8]) -> Result<String, AllocError> {
    if let Ok(Some(join)) = read_join(alloc, line) {
        if let Ok(name) = str::from_utf8(join.name.as_slice()) {
            return format!(in alloc; "taken by {name:?}");
        }
    }
    format!(in alloc; "taken")
}

fn say(log: &StderrLog<'_>, table: usize, seat: u8, what: &str) {
    let room = table.wrapping_add(1);
    let text = match log.rooms {
        Rooms::One => format!(in log.alloc; "seat {seat} is {what}\n"),
        Rooms::Many(_) => format!(in log.alloc; "room{room}: seat {seat} is {what}\n"),
    };
    if let Ok(text) = text {
        let _ = log.rt.stderr().write_all(text.as_bytes());
    }
}
