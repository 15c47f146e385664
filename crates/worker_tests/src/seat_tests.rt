//! Links that are served.

ghost use Rattle.turn_lock.specs.Turns.{IsIdle};

use crate::hall::sorted_two;
use crate::lines::{HEAD, START, are_made_of};
use crate::player::{Shown, Step, THREE, act, act_all, act_often, look};
use crate::slow::SlowLink;
use mj_links::{Link, Numbered, Wire};
use mj_ports::{Seated, SitRefused};
use mj_seats::{Ended, Room, Served, serve_seat};
use std::alloc::Global;
use std::sync::Wait;
use test_guests::{A, B, C, D, Guest, HELLO, KEY, LINE_END, PASS, Part, bytes_of, link_of};
use turn_lock::{Noted, Pass, Turn};

const FOUR: [Step; 9] = [
    Step::Sits(A),
    Step::Sits(B),
    Step::Sits(C),
    Step::Sits(KEY),
    Step::Says(2, PASS),
    Step::Says(1, PASS),
    Step::Says(0, PASS),
    Step::Says(3, PASS),
    Step::Leaves(3),
];

// Three seats are taken, and one of them is left, which was taken without a key.
const KEYLESS: [Step; 4] = [Step::Sits(A), Step::Sits(B), Step::Sits(C), Step::Leaves(0)];

// Four seats are taken, and left again.
const ALONE: [Step; 8] = [
    Step::Sits(A),
    Step::Sits(B),
    Step::Sits(C),
    Step::Sits(KEY),
    Step::Leaves(0),
    Step::Leaves(1),
    Step::Leaves(2),
    Step::Leaves(3),
];

// A seat is taken back by its key, and left.
const ONCE_MORE: [Step; 2] = [Step::Sits(KEY), Step::Leaves(3)];

const E: &str = "{\"type\":\"join\",\"name\":\"e\"}";

const OTHER_KEY: &str = "{\"type\":\"join\",\"name\":\"d\",\"key\":\"x\"}";

// The beginning of a join.
const NAMED: &str = "{\"type\":\"join\",\"name\":\"";

// What comes after the hello line for a seat that came back before the first deed was answered.
const AGAIN: &str = "{\"type\":\"replay\",\"count\":0}\n";

const DEAL: &str =
    "{\"type\":\"start_kyoku\",\"bakaze\":\"E\",\"kyoku\":1,\"honba\":0,\"kyotaku\":0,\"oya\":0,\"dora_marker\":\"F\",\"tehais\":[[\"?\",\"?\",\"?\",\"?\",\"?\",\"?\",\"?\",\"?\",\"?\",\"?\",\"?\",\"?\",\"?\"],[\"?\",\"?\",\"?\",\"?\",\"?\",\"?\",\"?\",\"?\",\"?\",\"?\",\"?\",\"?\",\"?\"],[\"?\",\"?\",\"?\",\"?\",\"?\",\"?\",\"?\",\"?\",\"?\",\"?\",\"?\",\"?\",\"?\"],[\"1p\",\"2p\",\"2p\",\"2p\",\"2p\",\"3p\",\"3p\",\"3p\",\"3p\",\"4p\",\"4p\",\"4p\",\"4p\"]],\"possible_actions\":[{\"type\":\"none\"}]}\n";

const UNREADABLE: &str = "{\"type\":\"error\",\"rule\":1,\"message\":\"Unreadable\"}\n";

const FULL: &str = "{\"type\":\"error\",\"sit\":1,\"message\":\"Full\"}\n";

const WRONG_KEY: &str = "{\"type\":\"error\",\"sit\":3,\"message\":\"WrongKey\"}\n";

const NO_KEY: &str = "{\"type\":\"error\",\"sit\":4,\"message\":\"NoKey\"}\n";

const TOO_OFTEN: &str = "{\"type\":\"error\",\"sit\":5,\"message\":\"TooOften\"}\n";

const TAKEN: &str = "{\"type\":\"error\",\"sit\":2,\"message\":\"NameTaken\"}\n";

const NO_NAME: &str = "{\"type\":\"error\",\"sit\":7,\"message\":\"BadName\"}\n";

// A link that is served once another player has done something, and what comes of it.
#[derive(Clone, Copy)]
struct Case {
    before: &'static [Step],
    // How often then seat 3 is taken back by its key and left.
    returns: u32,
    guest: Guest<'static>,
    ended: Ended,
    place: Option<u64>,
    written: &'static [Part],
    entries: u64,
}

// Whether the other player has done all that it was to do, how the session of a link ended, what others see then, and whether
// the seat is taken by its key after it.
#[derive(Clone, Copy)]
struct Outcome {
    done: bool,
    served: Served,
    shown: Shown,
    taken: bool,
}

// Serves a link by the first pass, once the second one has done all this.
fn serve<G: Seated, F: Numbered, L: Link, R: Wait>(
    turn: &Turn<Room<G, F>>,
    rt: &R,
    alloc: Global,
    first: &mut Pass<Room<G, F>>,
    second: &mut Pass<Room<G, F>>,
    before: &[Step],
    returns: u32,
    wire: &mut Wire<L>,
) -> Outcome
    requires first { IsIdle ⟦<Room<G, F> as Noted>⟧.setting turn.now first.old }
    requires second { IsIdle ⟦<Room<G, F> as Noted>⟧.setting turn.now second.old }
{
    let done = act_all(turn, rt, alloc, second, before)
        && act_often(turn, rt, alloc, second, &ONCE_MORE, returns);
    let served = serve_wire(turn, rt, alloc, first, wire);
    let shown = look(turn, rt, second);
    Outcome {
        done,
        served,
        shown,
        taken: act(turn, rt, alloc, second, Step::Sits(KEY)),
    }
}

fn serve_wire<G: Seated, F: Numbered, L: Link, R: Wait>(
    turn: &Turn<Room<G, F>>,
    rt: &R,
    alloc: Global,
    pass: &mut Pass<Room<G, F>>,
    wire: &mut Wire<L>,
) -> Served
    requires { IsIdle ⟦<Room<G, F> as Noted>⟧.setting turn.now pass.old }
{
    serve_seat(turn, rt, alloc, pass, wire)
}

// Serves a link at a new game.
fn serve_anew<L: Link, R: Wait>(
    rt: &R,
    alloc: Global,
    before: &[Step],
    returns: u32,
    wire: &mut Wire<L>,
) -> Option<Outcome> {
    match sorted_two(alloc) {
        Some(mut two) => {
            let (first, second) = (&mut two.first, &mut two.second);
            Some(serve(&two.turn, rt, alloc, first, second, before, returns, wire))
        }
        None => None,
    }
}

// Whether all came as the case says, and the seat of the link is gone.
fn is_as_wanted(it: Outcome, written: &[u8], case: &Case) -> bool {
    it.done
        && it.served.ended == case.ended
        && it.served.place == case.place
        && are_made_of(written, case.written)
        && it.shown.entries == case.entries
        && !it.shown.present[3]
}

fn holds<R: Wait>(rt: &R, alloc: Global, mut wire: Wire<SlowLink>, case: &Case) -> bool {
    let outcome = serve_anew(rt, alloc, case.before, case.returns, &mut wire);
    let link = wire.into_link();
    match outcome {
        Some(it) => is_as_wanted(it, link.0.written(), case),
        None => false,
    }
}

// Whether a case holds with a link that may give a byte a read.
fn case_holds<R: Wait>(rt: &R, alloc: Global, case: &Case, slowly: bool) -> bool {
    match link_of(alloc, case.guest) {
        Ok(link) => holds(rt, alloc, Wire::new(SlowLink(link, slowly)), case),
        Err(_) => false,
    }
}

// Whether each case holds, and where no read is to fail also with links that give a byte a read, if those are asked.
fn all_hold<R: Wait>(rt: &R, alloc: Global, cases: &[Case], slowly: bool) -> bool {
    let mut all = true;
    for case in cases {
        all = all && case_holds(rt, alloc, case, false);
        if slowly && case.guest.1.is_empty() {
            all = all && case_holds(rt, alloc, case, true);
        }
    }
    all
}

// A session without a seat enters nothing.
const UNSEATED: [Case; 15] = [
    Case {
        before: &FOUR,
        returns: 0,
        guest: Guest(&[Part(E, 1), LINE_END], &[], &[]),
        ended: Ended::NotSeated(SitRefused::Full),
        place: None,
        written: &[Part(HELLO, 1), Part(FULL, 1)],
        entries: 9,
    },
    Case {
        before: &FOUR,
        returns: 0,
        guest: Guest(&[Part(OTHER_KEY, 1), LINE_END], &[], &[]),
        ended: Ended::NotSeated(SitRefused::WrongKey),
        place: None,
        written: &[Part(HELLO, 1), Part(WRONG_KEY, 1)],
        entries: 9,
    },
    Case {
        before: &FOUR,
        returns: 0,
        guest: Guest(&[Part(D, 1), LINE_END], &[], &[]),
        ended: Ended::NotSeated(SitRefused::WrongKey),
        place: None,
        written: &[Part(HELLO, 1), Part(WRONG_KEY, 1)],
        entries: 9,
    },
    Case {
        before: &KEYLESS,
        returns: 0,
        guest: Guest(&[Part(A, 1), LINE_END], &[], &[]),
        ended: Ended::NotSeated(SitRefused::NoKey),
        place: None,
        written: &[Part(HELLO, 1), Part(NO_KEY, 1)],
        entries: 4,
    },
    Case {
        before: &FOUR,
        returns: 64,
        guest: Guest(&[Part(KEY, 1), LINE_END], &[], &[]),
        ended: Ended::NotSeated(SitRefused::TooOften),
        place: None,
        written: &[Part(HELLO, 1), Part(TOO_OFTEN, 1)],
        entries: 137,
    },
    Case {
        before: &THREE,
        returns: 0,
        guest: Guest(
            &[Part("{\"type\":\"join\",\"name\":\"\\\"\"}\n", 1)],
            &[],
            &[],
        ),
        ended: Ended::NotSeated(SitRefused::BadName),
        place: None,
        written: &[Part(HELLO, 1), Part(NO_NAME, 1)],
        entries: 3,
    },
    Case {
        before: &THREE,
        returns: 0,
        guest: Guest(&[Part(NAMED, 1), Part("n", 65), Part("\"}\n", 1)], &[], &[]),
        ended: Ended::NotSeated(SitRefused::BadName),
        place: None,
        written: &[Part(HELLO, 1), Part(NO_NAME, 1)],
        entries: 3,
    },
    Case {
        before: &THREE,
        returns: 0,
        guest: Guest(&[], &[], &[]),
        ended: Ended::PeerEnded,
        place: None,
        written: &[Part(HELLO, 1)],
        entries: 3,
    },
    Case {
        before: &THREE,
        returns: 0,
        guest: Guest(&[Part(D, 1)], &[], &[]),
        ended: Ended::PeerEnded,
        place: None,
        written: &[Part(HELLO, 1)],
        entries: 3,
    },
    Case {
        before: &THREE,
        returns: 0,
        guest: Guest(&[Part(D, 1), LINE_END], &[1], &[]),
        ended: Ended::LinkFault,
        place: None,
        written: &[Part(HELLO, 1)],
        entries: 3,
    },
    Case {
        before: &THREE,
        returns: 0,
        guest: Guest(&[Part(D, 1), LINE_END], &[], &[1]),
        ended: Ended::LinkFault,
        place: None,
        written: &[],
        entries: 3,
    },
    Case {
        before: &THREE,
        returns: 0,
        guest: Guest(&[Part(" ", 4096)], &[], &[]),
        ended: Ended::LineTooLong,
        place: None,
        written: &[Part(HELLO, 1)],
        entries: 3,
    },
    Case {
        before: &THREE,
        returns: 0,
        guest: Guest(&[Part("x\n", 1)], &[], &[]),
        ended: Ended::NotSeated(SitRefused::BadName),
        place: None,
        written: &[Part(HELLO, 1), Part(NO_NAME, 1)],
        entries: 3,
    },
    Case {
        before: &THREE,
        returns: 0,
        guest: Guest(&[Part(A, 1), LINE_END], &[], &[]),
        ended: Ended::NotSeated(SitRefused::NameTaken),
        place: None,
        written: &[Part(HELLO, 1), Part(TAKEN, 1)],
        entries: 3,
    },
    Case {
        before: &THREE,
        returns: 0,
        guest: Guest(&[Part(A, 1), LINE_END], &[], &[2]),
        ended: Ended::NotSeated(SitRefused::NameTaken),
        place: None,
        written: &[Part(HELLO, 1)],
        entries: 3,
    },
];

// A session whose seat is gone at its end.
const SEATED: [Case; 9] = [
    Case {
        before: &ALONE,
        returns: 0,
        guest: Guest(
            &[
                Part(KEY, 1),
                LINE_END,
                Part("x\n", 15),
                Part(PASS, 1),
                LINE_END,
            ],
            &[],
            &[],
        ),
        ended: Ended::PeerEnded,
        place: Some(8),
        written: &[
            Part(HELLO, 1),
            Part(AGAIN, 1),
            Part(START, 1),
            Part(UNREADABLE, 15),
            Part(DEAL, 1),
        ],
        entries: 26,
    },
    Case {
        before: &ALONE,
        returns: 63,
        guest: Guest(&[Part(KEY, 1), LINE_END], &[], &[]),
        ended: Ended::PeerEnded,
        place: Some(134),
        written: &[Part(HELLO, 1), Part(AGAIN, 1), Part(START, 1)],
        entries: 136,
    },
    Case {
        before: &THREE,
        returns: 0,
        guest: Guest(&[Part(D, 1), LINE_END], &[], &[]),
        ended: Ended::PeerEnded,
        place: Some(3),
        written: &[Part(HELLO, 1), Part(START, 1)],
        entries: 5,
    },
    Case {
        before: &THREE,
        returns: 0,
        guest: Guest(
            &[Part(D, 1), Part(" ", 4069), LINE_END, Part("x\n", 1)],
            &[3],
            &[],
        ),
        ended: Ended::LinkFault,
        place: Some(3),
        written: &[Part(HELLO, 1), Part(START, 1), Part(UNREADABLE, 1)],
        entries: 6,
    },
    Case {
        before: &THREE,
        returns: 0,
        guest: Guest(&[Part(D, 1), LINE_END], &[], &[2]),
        ended: Ended::LinkFault,
        place: Some(3),
        written: &[Part(HELLO, 1)],
        entries: 5,
    },
    Case {
        before: &THREE,
        returns: 0,
        guest: Guest(&[Part(D, 1), LINE_END, Part("x\n", 1)], &[], &[3]),
        ended: Ended::LinkFault,
        place: Some(3),
        written: &[Part(HELLO, 1), Part(START, 1)],
        entries: 6,
    },
    Case {
        before: &THREE,
        returns: 0,
        guest: Guest(&[Part(D, 1), LINE_END, Part("x", 4096)], &[], &[]),
        ended: Ended::LineTooLong,
        place: Some(3),
        written: &[Part(HELLO, 1), Part(START, 1)],
        entries: 5,
    },
    Case {
        before: &THREE,
        returns: 0,
        guest: Guest(&[Part(D, 1), LINE_END, Part("x\n", 17)], &[], &[]),
        ended: Ended::TooManyRefusals,
        place: Some(3),
        written: &[Part(HELLO, 1), Part(START, 1), Part(UNREADABLE, 16)],
        entries: 20,
    },
    Case {
        before: &FOUR,
        returns: 0,
        guest: Guest(&[Part(KEY, 1), LINE_END], &[], &[]),
        ended: Ended::PeerEnded,
        place: Some(9),
        written: &[Part(HELLO, 1), Part(HEAD, 1), Part(START, 1), Part(DEAL, 1)],
        entries: 11,
    },
];

#[test]
fn a_link_that_is_given_no_seat_enters_nothing(rt: HostRuntime) {
    assert!(rt; all_hold(&rt, rt.alloc(), &UNSEATED, false));
}

// Where no read is to fail, it is all the same how many bytes come by each.
#[test]
fn a_seat_is_gone_once_its_link_has_ended_the_session(rt: HostRuntime) {
    assert!(rt; all_hold(&rt, rt.alloc(), &SEATED, true));
}

// What a link of many reads gives: the first one the join, and each later one a line that is refused.
const LONG: [Part; 25] = [
    Part(KEY, 1),
    Part(" ", 4059),
    LINE_END,
    Part("x", 4095),
    LINE_END,
    Part("x", 4095),
    LINE_END,
    Part("x", 4095),
    LINE_END,
    Part("x", 4095),
    LINE_END,
    Part("x", 4095),
    LINE_END,
    Part("x", 4095),
    LINE_END,
    Part("x", 4095),
    LINE_END,
    Part("x", 4095),
    LINE_END,
    Part("x", 4095),
    LINE_END,
    Part("x", 4095),
    LINE_END,
    Part("x", 4095),
    LINE_END,
];

// Whether bytes are a prefix of what a link is told whose reads and writes don't fail.
fn is_front(alloc: Global, written: &[u8]) -> bool {
    match bytes_of(
        alloc,
        &[Part(HELLO, 1), Part(START, 1), Part(UNREADABLE, 11)],
    ) {
        Ok(whole) => whole.as_slice().starts_with(written),
        Err(_) => false,
    }
}

// Whether a link ends its session by its fault, with a prefix of what it is told; and whether a seat that it had is taken back by
// its key.
fn breaks<R: Wait>(rt: &R, alloc: Global, mut wire: Wire<SlowLink>, seated: bool) -> bool {
    let outcome = serve_anew(rt, alloc, &THREE, 0, &mut wire);
    let link = wire.into_link();
    match outcome {
        Some(it) => {
            it.done
                && it.served.ended == Ended::LinkFault
                && it.served.place.is_some() == seated
                && is_front(alloc, link.0.written())
                && it.taken
        }
        None => false,
    }
}

fn breaks_at<R: Wait>(rt: &R, alloc: Global, reads: &[u64], writes: &[u64], seated: bool) -> bool {
    match link_of(alloc, Guest(&LONG, reads, writes)) {
        Ok(link) => breaks(rt, alloc, Wire::new(SlowLink(link, false)), seated),
        Err(_) => false,
    }
}

#[test]
fn a_seat_outlives_the_link_that_fails_at_any_read_or_write(rt: HostRuntime) {
    for k in 1..13u64 {
        assert!(rt; breaks_at(&rt, rt.alloc(), &[k], &[], k > 1));
        assert!(rt; breaks_at(&rt, rt.alloc(), &[], &[k], k > 1));
    }
}
