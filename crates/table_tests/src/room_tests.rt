//! Games that are played side by side.

ghost use Rattle.std.specs.Prelude.{◌≡◌, [], All, IfOk, length};

use crate::games::shuffled_game;
use crate::running::{Met, TABLES, Wanted, comes_to, meets};
use mj_core::Core;
use mj_links::{Host, MemClock};
use mj_ports::{Picked, Picker, Seated};
use mj_tables::run_tables;
use std::alloc::{AllocError, Global};
use std::sync::Wait;
use std::thread::Threads;
use test_guests::{Crowd, Guest, Part, host_of};

// How long the line of a join is here, with its newline.
const JOIN: usize = 42;

// A link for a room that is not there, and then four players in each of two rooms.
const NINE: [Guest<'static>; 9] = [
    Guest(
        &[Part("{\"type\":\"join\",\"name\":\"a\",\"room\":\"x\"}\n", 1)],
        &[],
        &[],
    ),
    Guest(
        &[Part("{\"type\":\"join\",\"name\":\"a\",\"room\":\"room1\"}\n", 1)],
        &[],
        &[],
    ),
    Guest(
        &[Part("{\"type\":\"join\",\"name\":\"b\",\"room\":\"room1\"}\n", 1)],
        &[],
        &[],
    ),
    Guest(
        &[Part("{\"type\":\"join\",\"name\":\"c\",\"room\":\"room1\"}\n", 1)],
        &[],
        &[],
    ),
    Guest(
        &[Part("{\"type\":\"join\",\"name\":\"d\",\"room\":\"room1\"}\n", 1)],
        &[],
        &[],
    ),
    Guest(
        &[Part("{\"type\":\"join\",\"name\":\"a\",\"room\":\"room2\"}\n", 1)],
        &[],
        &[],
    ),
    Guest(
        &[Part("{\"type\":\"join\",\"name\":\"b\",\"room\":\"room2\"}\n", 1)],
        &[],
        &[],
    ),
    Guest(
        &[Part("{\"type\":\"join\",\"name\":\"c\",\"room\":\"room2\"}\n", 1)],
        &[],
        &[],
    ),
    Guest(
        &[Part("{\"type\":\"join\",\"name\":\"d\",\"room\":\"room2\"}\n", 1)],
        &[],
        &[],
    ),
];

#[test]
fn players_of_two_rooms_that_leave_are_served_a_game_each(rt: HostRuntime) {
    let alloc = rt.alloc();
    let crowd = Crowd(&NINE[1..], false, &[]);
    assert!(rt; comes_to(&rt, alloc, &TABLES, &["2"], crowd, Wanted::TwoGames));
}

#[test]
fn two_rooms_are_served_side_by_side_and_a_link_for_none_is_told_so(rt: HostRuntime) {
    let alloc = rt.alloc();
    let (eight, nine) = (
        Met(&TABLES, &["2"], 8, JOIN, 0),
        Met(&TABLES, &["2"], 8, JOIN, 1),
    );
    assert!(rt; meets(&rt, alloc, Crowd(&NINE[1..], false, &[]), eight));
    assert!(rt; meets(&rt, alloc, Crowd(&NINE, false, &[]), nine));
}

// The rooms and words more, and how the record of the second table begins and ends by them that has no deeds: with its header, with wall 200 of
// the seed, and with wall 399. A program of the shuffle over the cipher as it is published, which is no part of this one, gives
// these walls.
const SECOND: [(&[&str], &str, &str); 2] = [
    (
        &["2"],
        "game limit=1000 draws=0 red=0\nwall C 2p 2s S P 5m 1s E 9m 2m 5p C 2m 5p 4s 8s 1m F 6s 2p 7m 8p 5m N 6m 7s 4m 7p 3m 6m 1p P 4s 2p 8m 1m N S 5m 9m 7p 6p 7p 7s 1s 9p 8s 6s 4m F 8p 7m 1p E 5s E 3p 2m 9p P 8p 6p 4p 4p 1p 2m F N W 9s W 9p 6s 3p 3s 8m C W P 8s 3p 5s 4m 8m 3m 2s 3m 7m 3m 6s 6m W 3s 7p 4p N 4s 6m 4s 8p 7s 5p 1s 5s 6p 2s 7m 3s 4p 9s E 5m 1m 9s 2p 9s 4m 6p 1m 9m 7s S 1p 3p 8m 2s 5p C S 9p 5s 8s 9m 1s 3s F\n",
        "\nwall 6s 6p C C 5s 7m 8s W E 1p 9s 3s 1m 1s F 4p 4m 9p 3s 3s 9s 4s 1s 4s 8s 5m 3m 7p 9m 5s 7m W E 3m 6m 8m 8p 9m 3p 6p 2p 9m S E 2m 7s W 6m P 9p P C W 2s 5p 4m E 2s 6p 9p 3p 9s 5p N 4s 5m 2p 8p F 8s 2s 4m S 5s 2m P 1s 8p 5m 9p 1m 7m 3m 1m 9s 7s 7p C 2m S 4s 6s 3s 1m 4m 8p 2p P 6p 1p 8m N 2m 4p 5s 1s S 4p 3m 7s 7m 5m 9m 3p 3p 8m 5p 6s 6s 1p 7p 7s N 2s F 1p F 4p 8m 8s 7p 6m 5p N 6m 2p\n",
    ),
    (
        &["2", "--red"],
        "game limit=1000 draws=0 red=1\nwall C 2p 2s S P 5m 1s E 9m 2m 5p C 2m 5p 4s 8s 1m F 6s 2p 7m 8p 5m N 6m 7s 4m 7p 3m 6m 1p P 4s 2p 8m 1m N S 5m 9m 7p 6p 7p 7s 1s 9p 8s 6s 4m F 8p 7m 1p E 5s E 3p 2m 9p P 8p 6p 4p 4p 1p 2m F N W 9s W 9p 6s 3p 3s 8m C W P 8s 3p 5sr 4m 8m 3m 2s 3m 7m 3m 6s 6m W 3s 7p 4p N 4s 6m 4s 8p 7s 5p 1s 5s 6p 2s 7m 3s 4p 9s E 5mr 1m 9s 2p 9s 4m 6p 1m 9m 7s S 1p 3p 8m 2s 5pr C S 9p 5s 8s 9m 1s 3s F\n",
        "\nwall 6s 6p C C 5s 7m 8s W E 1p 9s 3s 1m 1s F 4p 4m 9p 3s 3s 9s 4s 1s 4s 8s 5m 3m 7p 9m 5s 7m W E 3m 6m 8m 8p 9m 3p 6p 2p 9m S E 2m 7s W 6m P 9p P C W 2s 5p 4m E 2s 6p 9p 3p 9s 5p N 4s 5m 2p 8p F 8s 2s 4m S 5s 2m P 1s 8p 5m 9p 1m 7m 3m 1m 9s 7s 7p C 2m S 4s 6s 3s 1m 4m 8p 2p P 6p 1p 8m N 2m 4p 5sr 1s S 4p 3m 7s 7m 5mr 9m 3p 3p 8m 5p 6s 6s 1p 7p 7s N 2s F 1p F 4p 8m 8s 7p 6m 5pr N 6m 2p\n",
    ),
];

// The numbers of the accepts by which a host fails each handler.
const ALL_FAIL: [u64; 10] = [1, 2, 3, 4, 5, 6, 7, 8, 9, 10];

#[test]
fn the_second_table_has_the_next_walls_of_the_seed(rt: HostRuntime) {
    let alloc = rt.alloc();
    for (more, front, end) in &SECOND {
        let crowd = Crowd(&[], false, &ALL_FAIL);
        assert!(rt;
            comes_to(
                &rt,
                alloc,
                &TABLES,
                more,
                crowd,
                Wanted::LeftTwo(front, end)
            )
        );
    }
}

#[test]
fn there_are_one_to_eight_rooms(rt: HostRuntime) {
    let alloc = rt.alloc();
    for rooms in ["0", "9", "01", "x"] {
        let crowd = Crowd(&[], true, &ALL_FAIL);
        assert!(rt; comes_to(&rt, alloc, &TABLES, &[rooms], crowd, Wanted::Refused));
    }
}

// Every line is for the first table.
#[derive(Drop)]
struct FirstTable;

impl Picker for FirstTable {
    ghost use Rattle.mj_ports.specs.declared.picking.Picked.TheVariants.{Table};

    ghost picks = { λ _ line. Table 0 };

    fn pick(&self, alloc: Global, line: &[u8]) -> Result<Picked, AllocError> {
        Ok(Picked::Table(0))
    }
}

// The games of two tables before their first entries.
fn two_games(alloc: Global) -> Result<Vec<Core>, AllocError>
    ensures two { IfOk result (λ games. length games.items ≡ 2) }
    ensures new { IfOk result (λ games. All (λ g. g.entries ≡ []) games.items) }
{
    let mut games = Vec::with_capacity(alloc, 2)?;
    games.push_reserved(shuffled_game(alloc)?);
    games.push_reserved(shuffled_game(alloc)?);
    Ok(games)
}

// Whether two games come back from a host that fails each of ten handlers.
fn come_back<G: Seated, H: Host, R: Threads + Wait + Sync>(
    rt: &R,
    alloc: Global,
    games: Vec<G>,
    host: &H,
) -> bool
    requires two { length games.items ≡ 2 }
    requires new { All (λ g. G.history g ≡ []) games.items }
{
    let mut clock = MemClock::new(0, 1000);
    match run_tables(rt, alloc, games, &FirstTable, host, &mut clock) {
        Ok(closed) => {
            closed.games.len() == 2 && closed.sessions.is_empty() && closed.ends.len() == 10
        }
        Err(_) => false,
    }
}

fn two_come_back<H: Host, R: Threads + Wait + Sync>(rt: &R, alloc: Global, host: &H) -> bool {
    match two_games(alloc) {
        Ok(games) => come_back(rt, alloc, games, host),
        Err(_) => false,
    }
}

fn come_back_from_nobody<R: Threads + Wait + Sync>(rt: &R, alloc: Global) -> bool {
    match host_of(alloc, Crowd(&[], false, &ALL_FAIL)) {
        Ok(host) => two_come_back(rt, alloc, &host),
        Err(_) => false,
    }
}

#[test]
fn games_come_back_where_the_host_fails_each_handler(rt: HostRuntime) {
    assert!(rt; come_back_from_nobody(&rt, rt.alloc()));
}
