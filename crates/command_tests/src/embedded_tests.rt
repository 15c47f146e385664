//! Each call once on a table without a game, and once on one with a game.

use mj_embedded::{Seat, State, Table, Turn, run_here};
use std::alloc::Global;

// What a join, a line, and a window that may have run out are answered.
fn answers_of_arrivals(alloc: Global, table: &mut Table) -> [u32; 3] {
    let mut number = 0;
    [
        table.sit(alloc, b"{\"type\":\"join\",\"name\":\"a\"}", &mut number),
        table.say(alloc, 0, b"{\"type\":\"none\"}", &mut number),
        table.expire(alloc, 0, 0, 0),
    ]
}

// What the calls about turns answer.
fn answers_of_turns(alloc: Global, table: &mut Table) -> [u32; 3] {
    let (mut number, mut count) = (0, 0);
    let mut turn = Turn {
        seat: 0,
        deeds: 0,
        is_over: false,
    };
    [
        table.turn(alloc, &mut turn),
        table.choices(alloc, 4, &mut count),
        table.choose(alloc, 0, 200, &mut number, &mut turn),
    ]
}

fn answer_of_state(alloc: Global, table: &mut Table) -> u32 {
    let mut state = State {
        deeds: 0,
        window: 0,
        entries: 0,
        is_over: false,
    };
    table.state(alloc, &mut state)
}

fn answer_of_seat(alloc: Global, table: &mut Table) -> u32 {
    let mut seat = Seat {
        due: 0,
        points: 0,
        is_present: false,
        may_say: false,
    };
    table.seat(alloc, 0, &mut seat)
}

// What the others answer, the last of which takes the game off the table.
fn answers_with_rooms(alloc: Global, table: &mut Table) -> [u32; 5] {
    let (mut room, mut length) = ([0; 8], 0);
    [
        table.line(alloc, 0, 0, &mut room, &mut length),
        table.pending(alloc, 0, &mut room, &mut length),
        table.record(alloc, &mut room, &mut length),
        table.gone(alloc, 0),
        table.close(alloc),
    ]
}

// Whether each call says that there is no game.
fn has_no_game(alloc: Global, table: &mut Table) -> bool {
    answers_of_arrivals(alloc, table) == [16; 3]
        && answers_of_turns(alloc, table) == [16; 3]
        && answer_of_state(alloc, table) == 16
        && answer_of_seat(alloc, table) == 16
        && answers_with_rooms(alloc, table) == [16; 5]
}

#[test]
fn a_table_without_a_game_says_so(rt: HostRuntime) {
    assert!(rt; has_no_game(rt.alloc(), &mut Table::empty()));
}

// Whether a game begins on a seed.
fn opens(alloc: Global, table: &mut Table) -> bool {
    table.open_seed(alloc, &[7; 32], 0, 1, 10, true, true) == 0
}

// Whether what is no game begins none, before a game and beside it.
fn begins(alloc: Global, table: &mut Table) -> bool {
    table.open(alloc, b"no game") == 19
        && opens(alloc, table)
        && table.open(alloc, b"no game") == 17
}

// Whether a game goes on and ends: a seat is taken, no deed is due, no window is open, nobody is asked, there is no seat 4, and
// no answer 200; there is no line yet, nothing is to be told, and a record has more than 8 bytes.
fn goes_on(alloc: Global, table: &mut Table) -> bool {
    answers_of_arrivals(alloc, table) == [0, 22, 5]
        && answers_of_turns(alloc, table) == [0, 20, 26]
        && answer_of_state(alloc, table) == 0
        && answer_of_seat(alloc, table) == 0
        && answers_with_rooms(alloc, table) == [23, 0, 25, 0, 0]
}

fn begins_and_ends(alloc: Global, table: &mut Table) -> bool {
    begins(alloc, table) && goes_on(alloc, table)
}

#[test]
fn a_game_begins_and_ends(rt: HostRuntime) {
    assert!(rt; begins_and_ends(rt.alloc(), &mut Table::empty()));
}

const JOINS: [&[u8]; 4] = [
    b"{\"type\":\"join\",\"name\":\"a\"}",
    b"{\"type\":\"join\",\"name\":\"b\"}",
    b"{\"type\":\"join\",\"name\":\"c\"}",
    b"{\"type\":\"join\",\"name\":\"d\"}",
];

fn four_sit(alloc: Global, table: &mut Table) -> bool {
    let mut seat = 0;
    let mut all = true;
    for line in &JOINS {
        all = all && table.sit(alloc, line, &mut seat) == 0;
    }
    all
}

// Whether a room of 9 bytes stays as it was, and is told how many it lacks.
fn lacks_room(alloc: Global, table: &mut Table) -> bool {
    let (mut room, mut length) = ([0; 9], 0);
    table.line(alloc, 3, 0, &mut room, &mut length) == 25
        && length > 9
        && length < 512
        && room == [0; 9]
}

// Whether the first line of seat 3 fits into a larger one, and there is no seat 4.
fn is_read(alloc: Global, table: &mut Table) -> bool {
    let (mut room, mut length) = ([0; 512], 0);
    table.line(alloc, 3, 0, &mut room, &mut length) == 0
        && room.starts_with(b"{\"type\":\"start_game\",\"id\":3,")
        && table.line(alloc, 4, 0, &mut room, &mut length) == 20
}

fn is_read_where_it_fits(alloc: Global, table: &mut Table) -> bool {
    opens(alloc, table)
        && four_sit(alloc, table)
        && lacks_room(alloc, table)
        && is_read(alloc, table)
        && table.close(alloc) == 0
}

#[test]
fn a_line_is_read_where_it_fits(rt: HostRuntime) {
    assert!(rt; is_read_where_it_fits(rt.alloc(), &mut Table::empty()));
}

fn are_faulty(alloc: Global, words: &[u8]) -> bool {
    let (mut room, mut length) = ([0; 8], 9);
    let (mut told, mut told_length) = ([0; 8], 9);
    run_here(
        alloc,
        words,
        b"",
        &mut room,
        &mut length,
        &mut told,
        &mut told_length,
    ) == 2
        && length == 0
        && told_length > 8
        && told == [0; 8]
}

#[test]
fn words_that_ask_for_no_command_are_faulty(rt: HostRuntime) {
    assert!(rt; are_faulty(rt.alloc(), b"keep\n"));
}
