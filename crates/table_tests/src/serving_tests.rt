//! Games that the command `serve` plays.

use crate::patient::{PatientClock, PatientHost};
use crate::running::{Met, SERVE, Wanted, comes_to, meets, run_on};
use mj_front::Status;
use mj_links::{MemHost, MemSink};
use std::alloc::Global;
use std::sync::Wait;
use std::sync::atomic::AtomicU32;
use std::thread::Threads;
use std::time;
use test_guests::{
    B, C, Crowd, Guest, JOIN_A, JOIN_B, JOIN_C, JOIN_D, JOIN_KEY, LINE_END, Part, host_of,
};

const FOUR: [Guest<'static>; 4] = [JOIN_A, JOIN_B, JOIN_C, JOIN_D];

// Seven workers are enough: of the second host the third accept fails.
#[test]
fn four_players_that_leave_are_served_a_game(rt: HostRuntime) {
    for fails in [0, 3] {
        let crowd = Crowd(&FOUR, false, &[fails]);
        assert!(rt; comes_to(&rt, rt.alloc(), &SERVE, &[], crowd, Wanted::Game));
    }
}

// Links that say nothing, no join, half a join, too much or what gets no seat, or that fail, among those of four players.
const GUESTS: [Guest<'static>; 14] = [
    Guest(&[], &[], &[]),
    Guest(&[Part("x\n", 3)], &[], &[]),
    JOIN_A,
    Guest(&[Part(" ", 4096)], &[], &[]),
    Guest(&[Part(B, 1), LINE_END], &[1], &[]),
    Guest(&[Part(B, 1), LINE_END], &[], &[1]),
    JOIN_B,
    Guest(&[Part(C, 1)], &[], &[]),
    JOIN_C,
    Guest(&[Part("\n", 4096)], &[], &[]),
    Guest(&[Part("[", 4095), LINE_END], &[], &[]),
    Guest(
        &[Part("{\"type\":\"join\",\"name\":\"\\\"\"}\n", 1)],
        &[],
        &[],
    ),
    JOIN_D,
    JOIN_KEY,
];

#[test]
fn links_that_get_no_seat_keep_nobody_from_playing(rt: HostRuntime) {
    let crowd = Crowd(&GUESTS, false, &[]);
    assert!(rt; comes_to(&rt, rt.alloc(), &SERVE, &[], crowd, Wanted::Game));
}

// The numbers of the accepts by which a host fails each worker.
const ALL_FAIL: [u64; 8] = [1, 2, 3, 4, 5, 6, 7, 8];

// The first wall of the seed, with red fives.
const RED_WALL: &str =
    "game limit=1000 draws=0 red=1\nwall 3s 1m 1m 1p 7s 6s C 3p 8s 4p 1p 9m 3m P 1m C 3p 4s 6m 7p 9p 3s 5m 3m 9m 2m 8s 2m 7p 7s 6m 5p 2s 9p 7p 2p 9p 8m 5m 4m 1m 7m 2s E 6m 4m W 9s 9s 8m 1s 4m 8m 5p 1p 7m 6p F 6s 9s 8p E P 2m 8p N 7m 6p 9p N 4s 3p 8s 1s E P 4p 3m 5sr 6p 2s 9m 4s 6s W F 6p S 4p 3p 5mr 8s S 7p 1s E F 2p 2p 5s 3s 9s W 2p 4s 5s N 2m 7m 5p C F 6m N 7s 4m 1s 9m 2s C 5m W 5s 7s 3m 3s 4p 5pr 1p 8p S 8m S 8p P 6s\n";

// Words more, and how the record begins by them: its header, and of the first wall of the seed some tiles or all. A program of
// the shuffle over the cipher as it is published, which is no part of this one, gives these walls.
const LEFT: [(&[&str], &str); 3] = [
    (
        &[],
        "game limit=1000 draws=0 red=0\nwall 3s 1m 1m 1p 7s 6s C 3p 8s 4p 1p 9m 3m P 1m ",
    ),
    (
        &["--draws"],
        "game limit=1000 draws=1 red=0\nwall 3s 1m 1m 1p ",
    ),
    (&["--red"], RED_WALL),
];

#[test]
fn a_host_that_fails_everybody_leaves_the_walls_and_a_port_unopened_nothing(rt: HostRuntime) {
    let alloc = rt.alloc();
    for (more, front) in &LEFT {
        let crowd = Crowd(&[], false, &ALL_FAIL);
        assert!(rt; comes_to(&rt, alloc, &SERVE, more, crowd, Wanted::Left(201, front)));
    }
    let crowd = Crowd(&[], true, &[]);
    assert!(rt; comes_to(&rt, alloc, &SERVE, &[], crowd, Wanted::Left(0, "")));
}

#[test]
fn four_links_are_served_side_by_side(rt: HostRuntime) {
    let met = Met(&SERVE, &[], 4, 27, 0);
    assert!(rt; meets(&rt, rt.alloc(), Crowd(&FOUR, false, &[]), met));
}

// Four players that come, leave, and come again by their keys.
const TWICE: [Guest<'static>; 8] = [KEY_A, KEY_B, KEY_C, JOIN_KEY, KEY_A, KEY_B, KEY_C, JOIN_KEY];

const KEY_A: Guest<'static> = Guest(
    &[Part("{\"type\":\"join\",\"name\":\"a\",\"key\":\"k\"}\n", 1)],
    &[],
    &[],
);

const KEY_B: Guest<'static> = Guest(
    &[Part("{\"type\":\"join\",\"name\":\"b\",\"key\":\"k\"}\n", 1)],
    &[],
    &[],
);

const KEY_C: Guest<'static> = Guest(
    &[Part("{\"type\":\"join\",\"name\":\"c\",\"key\":\"k\"}\n", 1)],
    &[],
    &[],
);

// Whether a patient host gets eight links back.
fn serves_all<R: Threads + Wait + time::Clock + Sync>(rt: &R, alloc: Global) -> bool {
    match host_of(alloc, Crowd(&TWICE, false, &[])) {
        Ok(links) => serves_all_over(rt, alloc, links),
        Err(_) => false,
    }
}

fn serves_all_over<R: Threads + Wait + time::Clock + Sync>(
    rt: &R,
    alloc: Global,
    links: MemHost,
) -> bool {
    let again = AtomicU32::new(0);
    let mut host = PatientHost::new(rt, &again, links);
    is_patient(rt, alloc, &mut host, &again)
}

fn is_patient<R: Threads + Wait + time::Clock + Sync>(
    rt: &R,
    alloc: Global,
    host: &mut PatientHost<'_, R>,
    again: &AtomicU32,
) -> bool {
    let mut clock = PatientClock::new(rt, again);
    let mut sink = MemSink::new(Vec::new(alloc));
    let status = run_on(rt, alloc, &SERVE, &[], host, &mut clock, &mut sink);
    status == Status::Done && host.returned() == 8
}

#[test]
fn no_link_of_any_worker_is_dropped_and_each_window_runs_out(rt: HostRuntime) {
    assert!(rt; serves_all(&rt, rt.alloc()));
}
