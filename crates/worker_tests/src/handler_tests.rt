//! The taking of links from a host.

ghost use Rattle.std.specs.Prelude.{◌≡◌, []};
ghost use Rattle.turn_lock.specs.Turns.{IsIdle};

use crate::hall::{shuffled_two, sorted_two};
use crate::lines::{START, are_made_of};
use crate::player::{GONE, Shown, Step, THREE, act_all, look};
use crate::tick_tests::tell_time;
use mj_links::{MemClock, MemFault, MemHost, MemLink, Numbered};
use mj_ports::Seated;
use mj_seats::{HandlerEnd, Room, Session, Ticked, handler};
use std::alloc::Global;
use std::sync::Wait;
use test_guests::{Crowd, Guest, HELLO, JOIN_A, JOIN_D, JOIN_KEY, Part, host_of};
use turn_lock::{Noted, Pass, Turn};

// Whether the other pass has done all that it was to do, how a handler ended, what others see then, and the sessions that it
// kept.
#[derive(Drop)]
struct Handled {
    done: bool,
    end: HandlerEnd<MemFault>,
    shown: Shown,
    sessions: Vec<Session<MemLink>>,
}

// Handles the links of a host by pass 1, once pass 0 has done all this.
fn handle<G: Seated, R: Wait>(
    turn: &Turn<Room<G, MemFault>>,
    rt: &R,
    alloc: Global,
    first: &mut Pass<Room<G, MemFault>>,
    second: &mut Pass<Room<G, MemFault>>,
    before: &[Step],
    host: &MemHost,
) -> Handled
    requires first { IsIdle ⟦<Room<G, MemFault> as Noted>⟧.setting turn.now first.old }
    requires second { IsIdle ⟦<Room<G, MemFault> as Noted>⟧.setting turn.now second.old }
{
    let done = act_all(turn, rt, alloc, first, before);
    let mut sessions = Vec::new(alloc);
    let end = take_links(turn, rt, second, host, &mut sessions);
    Handled {
        done,
        end,
        shown: look(turn, rt, first),
        sessions,
    }
}

// Takes the links of a host by a pass, as a handler does.
fn take_links<G: Seated, R: Wait>(
    turn: &Turn<Room<G, MemFault>>,
    rt: &R,
    pass: &mut Pass<Room<G, MemFault>>,
    host: &MemHost,
    sessions: &mut Vec<Session<MemLink>>,
) -> HandlerEnd<MemFault>
    requires idle { IsIdle ⟦<Room<G, MemFault> as Noted>⟧.setting turn.now pass.old }
    requires empty { sessions.old.items ≡ [] }
{
    handler(turn, rt, pass, host, sessions)
}

// Guests that come to a host whose accept of this number fails, and the sessions that are kept of them.
#[derive(Clone, Copy)]
struct Case {
    guests: &'static [Guest<'static>],
    fails: u64,
    entries: u64,
    kept: &'static [Kept],
}

// The place of a session, and what is written on its link.
#[derive(Clone, Copy)]
struct Kept(u64, &'static [Part]);

fn are_kept(sessions: &[Session<MemLink>], kept: &[Kept]) -> bool {
    let mut all = sessions.len() == kept.len();
    for (session, wanted) in sessions.iter().zip(kept) {
        all = all && is_kept(session, wanted);
    }
    all
}

fn is_kept(session: &Session<MemLink>, wanted: &Kept) -> bool {
    session.place == wanted.0 && are_made_of(session.link.written(), wanted.1)
}

// Whether a handler has ended with the fault of its host, which is kept, and with the sessions of the case.
fn is_as_wanted(handled: Handled, case: &Case) -> bool {
    let failed = match &handled.end {
        HandlerEnd::Host(fault) => fault.by() == 1,
        HandlerEnd::Over | HandlerEnd::NoMemory => false,
    };
    failed
        && handled.done
        && handled.shown.failed
        && handled.shown.entries == case.entries
        && are_kept(handled.sessions.as_slice(), case.kept)
}

fn holds<R: Wait>(rt: &R, alloc: Global, host: &MemHost, case: &Case) -> bool {
    match sorted_two(alloc) {
        Some(mut two) => {
            let (first, second) = (&mut two.first, &mut two.second);
            is_as_wanted(
                handle(&two.turn, rt, alloc, first, second, &THREE, host),
                case,
            )
        }
        None => false,
    }
}

fn case_holds<R: Wait>(rt: &R, alloc: Global, case: &Case) -> bool {
    match host_of(alloc, Crowd(case.guests, false, &[case.fails])) {
        Ok(host) => holds(rt, alloc, &host, case),
        Err(_) => false,
    }
}

const TOLD: Kept = Kept(3, &[Part(HELLO, 1), Part(START, 1)]);

const CASES: [Case; 4] = [
    Case {
        guests: &[],
        fails: 1,
        entries: 3,
        kept: &[],
    },
    Case {
        guests: &[JOIN_D, JOIN_D],
        fails: 2,
        entries: 5,
        kept: &[TOLD],
    },
    Case {
        guests: &[JOIN_A, NO_JOIN, JOIN_D],
        fails: 5,
        entries: 5,
        kept: &[TOLD],
    },
    Case {
        guests: &[JOIN_KEY, JOIN_A, JOIN_KEY],
        fails: 4,
        entries: 7,
        kept: &[
            TOLD,
            Kept(5, &[Part(HELLO, 1), Part(NONE_AGAIN, 1), Part(START, 1)]),
        ],
    },
];

const NO_JOIN: Guest<'static> = Guest(&[Part("x\n", 1)], &[], &[]);

const NONE_AGAIN: &str = "{\"type\":\"replay\",\"count\":0}\n";

#[test]
fn links_that_had_a_seat_are_kept_until_the_host_fails(rt: HostRuntime) {
    for case in &CASES {
        assert!(rt; case_holds(&rt, rt.alloc(), case));
    }
}

// Whether a handler ends at once that comes to a game which is over, at a host whose first accept fails.
fn handle_late<G: Seated, R: Wait>(
    turn: &Turn<Room<G, MemFault>>,
    rt: &R,
    alloc: Global,
    first: &mut Pass<Room<G, MemFault>>,
    second: &mut Pass<Room<G, MemFault>>,
    host: &MemHost,
) -> bool
    requires first { IsIdle ⟦<Room<G, MemFault> as Noted>⟧.setting turn.now first.old }
    requires second { IsIdle ⟦<Room<G, MemFault> as Noted>⟧.setting turn.now second.old }
{
    let done = act_all(turn, rt, alloc, first, &GONE);
    let mut clock = MemClock::new(0, 1000);
    let ticked = tell_time(turn, rt, alloc, first, &mut clock);
    let mut sessions = Vec::new(alloc);
    let end = take_links(turn, rt, second, host, &mut sessions);
    done && ticked == Ticked::Over && matches!(&end, HandlerEnd::Over)
}

fn ends_late<R: Wait>(rt: &R, alloc: Global, host: &MemHost) -> bool {
    match shuffled_two(alloc, &[]) {
        Some(mut two) => {
            let (first, second) = (&mut two.first, &mut two.second);
            handle_late(&two.turn, rt, alloc, first, second, host)
        }
        None => false,
    }
}

fn ends_late_over<R: Wait>(rt: &R, alloc: Global) -> bool {
    match host_of(alloc, Crowd(&[], false, &[1])) {
        Ok(host) => ends_late(rt, alloc, &host),
        Err(_) => false,
    }
}

#[test]
fn a_handler_asks_its_host_no_more_once_the_game_is_over(rt: HostRuntime) {
    assert!(rt; ends_late_over(&rt, rt.alloc()));
}
