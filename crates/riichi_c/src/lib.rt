//! The calls of `mj_embedded` for a program in another language, as a static library. Each is total but for what only its caller
//! can know, that a pointer holds what it says; what a number that is answered means stands in `answer` there.
#![tactic(auto)]

ghost use Rattle.std.specs.Prelude.{◌≡◌, None};
ghost use Rattle.mj_embedded.specs.Calls.{OnGame, Sits, Says, Leaves, Expires};
ghost use Rattle.mj_embedded.specs.Calls.{ReadsState, ReadsSeat, ReadsLine, ReadsPending, ReadsRecord};
ghost use Rattle.mj_embedded.specs.Opens.{Opens, OpensSeed, Closes};
ghost use Rattle.mj_embedded.specs.Runs.{RunsHere};
ghost use Rattle.mj_embedded.specs.Turns.{Turns, Plays, Counts};

use mj_embedded::{Seat, State, Table, Turn, run_here};
use std::alloc::Global;

/// Runs the command of these words, each with its newline, on this input. What it writes is written to `room` where it fits
/// there, and how much it is stands in `length`; what the program says of the ending on standard error goes to `told` and
/// `told_length` so, or nothing where memory is wanting. The result is the exit code. `serve`, `tables` and `keep`, words that
/// aren't UTF-8, and a last word without its newline are answered as faulty words are.
#[unsafe(no_mangle)]
pub extern "C" fn riichi_run(
    alloc: Global,
    words: &[u8],
    input: &[u8],
    room: &mut [u8],
    length: &mut u64,
    told: &mut [u8],
    told_length: &mut u64,
) -> u32
    ensures { RunsHere words.now input.now room.old room.new length.new told.old told.new told_length.new result }
{
    run_here(alloc, words, input, room, length, told, told_length)
}

/// A game is put on a table that has none, before its first arrival, by its setting: a line `game` with the rules, and 1 to 200
/// lines `wall`, each with its newline, as they begin a record. DONE, or IN_PLAY, BAD_SETTING or NO_MEMORY, and then nothing has
/// changed.
#[unsafe(no_mangle)]
pub extern "C" fn riichi_table_open(alloc: Global, table: &mut Table, setting: &[u8]) -> u32
    ensures { Opens setting.now table.old.held.game table.new.held.game result }
{
    table.open(alloc, setting)
}

/// A game is put on a table that has none, with the walls `first`, `first + 1`, and so on of a seed of 32 bytes, 1 to 200 of
/// them, the limit of a window, 1 to 3600000 milliseconds, and whether the draw reasons are in force and red fives are in the
/// walls. BAD_SETTING where one of these is out of its range.
#[unsafe(no_mangle)]
pub extern "C" fn riichi_table_open_seed(
    alloc: Global,
    table: &mut Table,
    seed: &[u8],
    first: u64,
    walls: u32,
    limit: u64,
    draws: bool,
    red: bool,
) -> u32
    ensures { OpensSeed seed.now first walls (record { limit = limit; draws = draws; red = red })
        table.old.held.game table.new.held.game result }
{
    table.open_seed(alloc, seed, first, walls, limit, draws, red)
}

/// The game is taken off the table, and its memory is given back: DONE, or NO_GAME.
#[unsafe(no_mangle)]
pub extern "C" fn riichi_table_close(alloc: Global, table: &mut Table) -> u32
    ensures { Closes table.old.held.game table.new.held.game result }
{
    table.close(alloc)
}

/// Somebody wants a seat by a line, `{"type":"join",..}`. DONE where the next seat is taken and BACK where a seat is taken back,
/// and `seat` says which; or a number from NOT_SEATED on, which says why none is given, and nothing has changed.
#[unsafe(no_mangle)]
pub extern "C" fn riichi_table_sit(
    alloc: Global,
    table: &mut Table,
    line: &[u8],
    seat: &mut u32,
) -> u32
    ensures told { OnGame (Sits line.now seat.old seat.new) table.old.held.game table.new.held.game result }
    ensures without { table.old.held.game ≡ None → seat.new ≡ seat.old }
{
    table.sit(alloc, line, seat)
}

/// A seat says a line, which answers its due deed. DONE where the answer is taken, LATE where the window of that deed is closed
/// already, REFUSED and CLOSING where it breaks a rule, and `rule` says which; else the seat may not say a line now, and nothing
/// has changed.
#[unsafe(no_mangle)]
pub extern "C" fn riichi_table_say(
    alloc: Global,
    table: &mut Table,
    seat: u32,
    line: &[u8],
    rule: &mut u32,
) -> u32
    ensures told { OnGame (Says seat line.now rule.old rule.new) table.old.held.game table.new.held.game result }
    ensures without { table.old.held.game ≡ None → rule.new ≡ rule.old }
{
    table.say(alloc, seat, line, rule)
}

/// A seat leaves: DONE, or NO_SEAT, NOT_PRESENT or NO_MEMORY, and then nothing has changed.
#[unsafe(no_mangle)]
pub extern "C" fn riichi_table_gone(alloc: Global, table: &mut Table, seat: u32) -> u32
    ensures { OnGame (Leaves seat) table.old.held.game table.new.held.game result }
{
    table.gone(alloc, seat)
}

/// The time of a window may have run out between two readings of a clock, in milliseconds: DONE where it is closed, STALE where
/// it isn't the open one, EARLY where less time than the limit has passed, or NO_MEMORY.
#[unsafe(no_mangle)]
pub extern "C" fn riichi_table_expire(
    alloc: Global,
    table: &mut Table,
    window: u32,
    t1: u64,
    t2: u64,
) -> u32
    ensures { OnGame (Expires window t1 t2) table.old.held.game table.new.held.game result }
{
    table.expire(alloc, window, t1, t2)
}

/// Each seat passes whose line lists a pass alone, until there is none, and then `turn` says whose turn it is. DONE; NO_GAME, and
/// then `turn` stays as it was; NO_MEMORY, and then some may have passed; or GO_ON where a
/// million looks at a seat were not enough.
#[unsafe(no_mangle)]
pub extern "C" fn riichi_table_turn(alloc: Global, table: &mut Table, turn: &mut Turn) -> u32
    ensures told { OnGame (Turns turn.new) table.old.held.game table.new.held.game result }
    ensures without { table.old.held.game ≡ None → turn.new ≡ turn.old }
{
    table.turn(alloc, turn)
}

/// A seat gives answer `k` of those that it may give to the newest deed, in the order in which its line lists them; then the
/// call does what `riichi_table_turn` does, and answers as that. Where the answer can't be given, or breaks a rule, it answers
/// as `riichi_table_say` does, NO_CHOICE where the list hasn't so many, and `turn` stays as it was.
#[unsafe(no_mangle)]
pub extern "C" fn riichi_table_choose(
    alloc: Global,
    table: &mut Table,
    seat: u32,
    k: u32,
    rule: &mut u32,
    turn: &mut Turn,
) -> u32
    ensures told { OnGame (Plays seat k rule.old rule.new turn.old turn.new) table.old.held.game table.new.held.game result }
    ensures without { table.old.held.game ≡ None → turn.new ≡ turn.old }
    ensures unbroken { table.old.held.game ≡ None → rule.new ≡ rule.old }
{
    table.choose(alloc, seat, k, rule, turn)
}

/// How many answers a seat may give to the newest deed: DONE, or NO_GAME, NO_SEAT or NO_MEMORY, and then `count` stays as it was.
#[unsafe(no_mangle)]
pub extern "C" fn riichi_table_choices(
    alloc: Global,
    table: &mut Table,
    seat: u32,
    count: &mut u64,
) -> u32
    ensures told { OnGame (Counts seat count.old count.new) table.old.held.game table.new.held.game result }
    ensures without { table.old.held.game ≡ None → count.new ≡ count.old }
{
    table.choices(alloc, seat, count)
}

/// What stands on the table: DONE, or NO_GAME, and then `state` stays as it was.
#[unsafe(no_mangle)]
pub extern "C" fn riichi_table_state(alloc: Global, table: &mut Table, state: &mut State) -> u32
    ensures told { OnGame (ReadsState state.new) table.old.held.game table.new.held.game result }
    ensures without { table.old.held.game ≡ None → state.new ≡ state.old }
{
    table.state(alloc, state)
}

/// What stands at a seat, 0 to 3: DONE, or NO_GAME or NO_SEAT, and then `into` stays as it was.
#[unsafe(no_mangle)]
pub extern "C" fn riichi_table_seat(
    alloc: Global,
    table: &mut Table,
    seat: u32,
    into: &mut Seat,
) -> u32
    ensures told { OnGame (ReadsSeat seat into.old into.new) table.old.held.game table.new.held.game result }
    ensures without { table.old.held.game ≡ None → into.new ≡ into.old }
{
    table.seat(alloc, seat, into)
}

/// Line `k` of a seat, with its newline: DONE, NO_ROOM where it doesn't fit in `room`, or NO_LINE, NO_SEAT, NO_GAME or
/// NO_MEMORY, and then the length is 0. Lines that were not asked for before are rendered first.
#[unsafe(no_mangle)]
pub extern "C" fn riichi_table_line(
    alloc: Global,
    table: &mut Table,
    seat: u32,
    k: u32,
    room: &mut [u8],
    length: &mut u64,
) -> u32
    ensures told { OnGame (ReadsLine seat k room.old room.new length.new) table.old.held.game table.new.held.game result }
    ensures without { table.old.held.game ≡ None → room.new ≡ room.old }
    ensures empty { table.old.held.game ≡ None → length.new ≡ 0 }
{
    table.line(alloc, seat, k, room, length)
}

/// What is still to be told to a seat: the line of its due deed as soon as that deed exists, unless an answer to it was refused;
/// nothing where the seat isn't present. DONE, NO_ROOM, NO_SEAT, NO_GAME or NO_MEMORY.
#[unsafe(no_mangle)]
pub extern "C" fn riichi_table_pending(
    alloc: Global,
    table: &mut Table,
    seat: u32,
    room: &mut [u8],
    length: &mut u64,
) -> u32
    ensures told { OnGame (ReadsPending seat room.old room.new length.new) table.old.held.game table.new.held.game result }
    ensures without { table.old.held.game ≡ None → room.new ≡ room.old }
    ensures empty { table.old.held.game ≡ None → length.new ≡ 0 }
{
    table.pending(alloc, seat, room, length)
}

/// The record of the game so far: its header, its walls, and a line for each deed. DONE, NO_ROOM, NO_GAME or NO_MEMORY.
#[unsafe(no_mangle)]
pub extern "C" fn riichi_table_record(
    alloc: Global,
    table: &mut Table,
    room: &mut [u8],
    length: &mut u64,
) -> u32
    ensures told { OnGame (ReadsRecord room.old room.new length.new) table.old.held.game table.new.held.game result }
    ensures without { table.old.held.game ≡ None → room.new ≡ room.old }
    ensures empty { table.old.held.game ≡ None → length.new ≡ 0 }
{
    table.record(alloc, room, length)
}
