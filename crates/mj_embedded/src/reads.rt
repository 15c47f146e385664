//! What is read of a table.

ghost use Rattle.std.specs.Prelude.{◌≡◌, ◌<◌, None, IfOk};
ghost use Rattle.mj_core.specs.Calls.{line_of, pending_at, record_of};
ghost use Rattle.mj_embedded.specs.Calls.{OnGame, IsState, ReadsLine, ReadsPending, ReadsRecord, ReadsState, ReadsSeat};

use crate::answer::{DONE, NO_GAME, NO_LINE, NO_MEMORY, NO_SEAT};
use crate::handle::Table;
use crate::out::write_out;
use mj_stepped::Stepped;
use std::alloc::{AllocError, Global};

/// What stands on a table.
#[repr(C)]
#[derive(Clone, Copy)]
pub struct State {
    /// The number of deeds.
    pub deeds: u32,
    /// The number of the open window; where none is open, 2^32 - 1.
    pub window: u32,
    /// The number of entries.
    pub entries: u64,
    /// Whether the game has ended.
    pub is_over: bool,
}

/// What stands at a seat.
#[repr(C)]
#[derive(Clone, Copy)]
pub struct Seat {
    /// The number of the deed that its next line answers.
    pub due: u32,
    /// Its points.
    pub points: i32,
    /// Whether it is present.
    pub is_present: bool,
    /// Whether it may say a line now: it is present, and its due deed exists.
    pub may_say: bool,
}

impl Table {
    /// What stands on the table: DONE, or NO_GAME, and then `state` stays as it was.
    pub fn state(&mut self, alloc: Global, state: &mut State) -> u32
        ensures told { OnGame (ReadsState state.new) self.old.held.game self.new.held.game result }
        ensures without { self.old.held.game ≡ None → state.new ≡ state.old }
    {
        let Some(game) = self.take(alloc) else {
            return NO_GAME;
        };
        *state = state_of(&game);
        self.put(game);
        DONE
    }

    /// What stands at a seat, 0 to 3: DONE, or NO_GAME or NO_SEAT, and then `into` stays as it was.
    pub fn seat(&mut self, alloc: Global, seat: u32, into: &mut Seat) -> u32
        ensures told { OnGame (ReadsSeat seat into.old into.new) self.old.held.game self.new.held.game result }
        ensures without { self.old.held.game ≡ None → into.new ≡ into.old }
    {
        let Some(game) = self.take(alloc) else {
            return NO_GAME;
        };
        let answer = read_seat(&game, seat, into);
        self.put(game);
        answer
    }

    /// Line `k` of a seat, with its newline: DONE, NO_ROOM where it doesn't fit in `room`, or NO_LINE, NO_SEAT, NO_GAME or
    /// NO_MEMORY, and then the length is 0. Lines that were not asked for before are rendered first.
    pub fn line(
        &mut self,
        alloc: Global,
        seat: u32,
        k: u32,
        room: &mut [u8],
        length: &mut u64,
    ) -> u32
        ensures told { OnGame (ReadsLine seat k room.old room.new length.new) self.old.held.game self.new.held.game result }
        ensures without { self.old.held.game ≡ None → room.new ≡ room.old }
        ensures empty { self.old.held.game ≡ None → length.new ≡ 0 }
    {
        *length = 0;
        let Some(mut game) = self.take(alloc) else {
            return NO_GAME;
        };
        let answer = read_line(alloc, &mut game, seat, k, room, length);
        self.put(game);
        answer
    }

    /// What is still to be told to a seat: the line of its due deed as soon as that deed exists, unless an answer to it was
    /// refused; nothing where the seat isn't present. DONE, NO_ROOM, NO_SEAT, NO_GAME or NO_MEMORY.
    pub fn pending(&mut self, alloc: Global, seat: u32, room: &mut [u8], length: &mut u64) -> u32
        ensures told { OnGame (ReadsPending seat room.old room.new length.new) self.old.held.game self.new.held.game result }
        ensures without { self.old.held.game ≡ None → room.new ≡ room.old }
        ensures empty { self.old.held.game ≡ None → length.new ≡ 0 }
    {
        *length = 0;
        let Some(mut game) = self.take(alloc) else {
            return NO_GAME;
        };
        let answer = read_pending(alloc, &mut game, seat, room, length);
        self.put(game);
        answer
    }

    /// The record of the game so far: its header, its walls, and a line for each deed. DONE, NO_ROOM, NO_GAME or NO_MEMORY.
    pub fn record(&mut self, alloc: Global, room: &mut [u8], length: &mut u64) -> u32
        ensures told { OnGame (ReadsRecord room.old room.new length.new) self.old.held.game self.new.held.game result }
        ensures without { self.old.held.game ≡ None → room.new ≡ room.old }
        ensures empty { self.old.held.game ≡ None → length.new ≡ 0 }
    {
        *length = 0;
        let Some(game) = self.take(alloc) else {
            return NO_GAME;
        };
        let answer = match record_of(alloc, &game) {
            Ok(text) => write_out(text.as_slice(), room, length),
            Err(_) => NO_MEMORY,
        };
        self.put(game);
        answer
    }
}

fn state_of(game: &Stepped) -> State
    ensures { IsState result game.now }
{
    State {
        deeds: game.deeds(),
        window: game.open().unwrap_or(u32::MAX),
        entries: game.entries(),
        is_over: game.over(),
    }
}

fn read_seat(game: &Stepped, seat: u32, into: &mut Seat) -> u32
    ensures { ReadsSeat seat into.old into.new game.now game.now result }
{
    if seat > 3 {
        return NO_SEAT;
    }
    let points = game.table().points();
    let number = seat as u8;
    *into = Seat {
        due: game.due(number),
        points: points[seat as usize],
        is_present: game.present(number),
        may_say: game.may_say(number),
    };
    DONE
}

fn read_line(
    alloc: Global,
    game: &mut Stepped,
    seat: u32,
    k: u32,
    room: &mut [u8],
    length: &mut u64,
) -> u32
    requires { length.old ≡ 0 }
    ensures { ReadsLine seat k room.old room.new length.new game.old game.new result }
{
    if seat > 3 {
        return NO_SEAT;
    }
    if k >= game.deeds() {
        return NO_LINE;
    }
    match line_of(alloc, game, seat as u8, k) {
        Ok(text) => write_out(text.as_slice(), room, length),
        Err(_) => NO_MEMORY,
    }
}

pub(crate) fn line_of(
    alloc: Global,
    game: &mut Stepped,
    seat: u8,
    k: u32,
) -> Result<Vec<u8>, AllocError>
    requires { seat < 4 }
    ensures game { game.new ≡ game.old }
    ensures text { IfOk result (λ text. text.items ≡ line_of game.old seat k) }
{
    let mut text = Vec::new(alloc);
    game.line(alloc, seat, k, &mut text)?;
    Ok(text)
}

fn read_pending(
    alloc: Global,
    game: &mut Stepped,
    seat: u32,
    room: &mut [u8],
    length: &mut u64,
) -> u32
    requires { length.old ≡ 0 }
    ensures { ReadsPending seat room.old room.new length.new game.old game.new result }
{
    if seat > 3 {
        return NO_SEAT;
    }
    match pending_of(alloc, game, seat as u8) {
        Ok(text) => write_out(text.as_slice(), room, length),
        Err(_) => NO_MEMORY,
    }
}

fn pending_of(alloc: Global, game: &mut Stepped, seat: u8) -> Result<Vec<u8>, AllocError>
    ensures game { game.new ≡ game.old }
    ensures text { IfOk result (λ text. text.items ≡ pending_at game.old seat) }
{
    let mut text = Vec::new(alloc);
    game.pending(alloc, seat, &mut text)?;
    Ok(text)
}

fn record_of(alloc: Global, game: &Stepped) -> Result<Vec<u8>, AllocError>
    ensures { IfOk result (λ text. text.items ≡ record_of game.now) }
{
    let mut text = Vec::new(alloc);
    game.record(alloc, &mut text)?;
    Ok(text)
}
