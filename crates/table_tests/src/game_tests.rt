//! Games that nine workers play.

ghost use Rattle.std.specs.Prelude.{◌≡◌, []};

use crate::games::shuffled_game;
use crate::meeting::{AskingClock, Meeting, MeetingHost, Sign};
use mj_links::{Clock, Host, MemHost};
use mj_ports::Seated;
use mj_seats::run_workers;
use std::alloc::Global;
use std::sync::Wait;
use std::thread::Threads;
use std::time;
use test_guests::{A, B, C, Crowd, D, Guest, LINE_END, PASS, Part, host_of};

// What is left of a game that workers played.
#[derive(Clone, Copy)]
struct Leftover {
    over: bool,
    sessions: usize,
    deeds: u32,
}

fn play<G: Seated, H: Host, K: Clock, R: Threads + Wait + Sync>(
    rt: &R,
    alloc: Global,
    game: G,
    host: &H,
    clock: &mut K,
) -> Option<Leftover>
    requires { G.history game ≡ [] }
{
    match run_workers(rt, alloc, game, host, clock) {
        Ok(closed) => Some(Leftover {
            over: closed.game.over(),
            sessions: closed.sessions.len(),
            deeds: closed.game.deeds(),
        }),
        Err(_) => None,
    }
}

// Whether so many readings are two for each window of so many deeds but the first, and one to three more.
fn are_pairs(deeds: u32, readings: u32) -> bool {
    let pairs = deeds.saturating_sub(2).saturating_mul(2);
    readings > pairs && readings <= pairs.saturating_add(3)
}

// Whether workers play a game over a host of four links, by two readings for each window but the first, and at most three before.
fn plays<R: Threads + Wait + time::Clock + Sync>(rt: &R, alloc: Global, busy: u32) -> bool {
    match host_of(alloc, Crowd(&PASSES, false, &[])) {
        Ok(links) => plays_over(rt, alloc, links, busy),
        Err(_) => false,
    }
}

fn plays_over<R: Threads + Wait + time::Clock + Sync>(
    rt: &R,
    alloc: Global,
    links: MemHost,
    busy: u32,
) -> bool {
    let meeting = Meeting::new(4, 27);
    let host = MeetingHost::new(rt, &meeting, Sign::Asked, links);
    let mut clock = AskingClock::new(rt, &meeting, busy);
    let left = play_anew(rt, alloc, &host, &mut clock);
    is_played(left, clock.made())
}

fn play_anew<H: Host, K: Clock, R: Threads + Wait + Sync>(
    rt: &R,
    alloc: Global,
    host: &H,
    clock: &mut K,
) -> Option<Leftover> {
    match shuffled_game(alloc) {
        Ok(game) => play(rt, alloc, game, host, clock),
        Err(_) => None,
    }
}

// Whether a game of four links was played to its end by so many readings.
fn is_played(left: Option<Leftover>, readings: u32) -> bool {
    match left {
        Some(left) => left.over && left.sessions == 4 && are_pairs(left.deeds, readings),
        None => false,
    }
}

// What those say who take a seat and pass once.
const PASSES: [Guest<'static>; 4] = [
    Guest(&[Part(A, 1), LINE_END, Part(PASS, 1), LINE_END], &[], &[]),
    Guest(&[Part(B, 1), LINE_END, Part(PASS, 1), LINE_END], &[], &[]),
    Guest(&[Part(C, 1), LINE_END, Part(PASS, 1), LINE_END], &[], &[]),
    Guest(&[Part(D, 1), LINE_END, Part(PASS, 1), LINE_END], &[], &[]),
];

// Each window but the first is closed by two readings, and the first one by answers while a reading is made.
#[test]
fn the_first_reading_for_a_window_is_made_once_it_was_seen_open(rt: HostRuntime) {
    for busy in [1, 2] {
        assert!(rt; plays(&rt, rt.alloc(), busy));
    }
}
