use crate::asking::{ask, ask_deeds};
use mj_deeds::{Answer, Deed, Four};
use mj_window::{Decision, Seats, Window, decide};
use std::alloc::Global;
use test_words::{
    Of, Question, answer, bid, field, is_as, is_none, name, number, number_or_none, parted, word,
};

/// The newest deed, the answers of the four seats (nothing for a pass), and what they decide.
const DECISIONS: &str = "\
cut 0 7m=||||pass
cut 0 7m=||pon 2 0 * * *||pass
cut 0 7m=|chi 1 0 7m 5m 6m|||call chi 1 0 7m 5m 6m
cut 0 7m=|chi 1 0 7m 5m 6m|pon 2 0 7m 7m 7m||call pon 2 0 7m 7m 7m
cut 0 7m=|chi 1 0 7m 5m 6m||open 3 0 7m 7m 7m 7m|call open 3 0 7m 7m 7m 7m
cut 0 7m=||pon 2 0 7m 7m 7m||call pon 2 0 7m 7m 7m
cut 0 7m=|chi 1 0 7m 5m *|||pass
draw 2 1p=|cut 1 9m|cut 2 1p||act cut 2 1p
draw 2 1p=||closed 2 1p 1p 1p 1p||act closed 2 1p 1p 1p 1p
pon 2 0 7m 7m 7m=|cut 1 9m|discard 2 1p||act discard 2 1p
chi 1 0 7m 5m 6m=|discard 1 9m|||act discard 1 9m
reach 3=cut 0 7m|||cut 3 7m|act cut 3 7m
cut 3 7m=|ron 1 3|pon 2 3 7m 7m 7m||rons 1
cut 3 7m=ron 0 3|ron 1 3|ron 2 3||rons 0 1 2
cut 0 7m=|ron 1 0||ron 3 0 7m|rons 1 3
cut 0 7m=|chi 1 0 7m 5m 6m||ron 3 0|rons 3
cut 1 7m=ron 0 1||||rons 0
added 2 7m 7m 7m 7m=ron 0 2|ron 1 2||ron 3 2|rons 3 0 1
added 2 7m 7m 7m 7m=|ron 1 2|||rons 1
added 2 7m 7m 7m 7m=||||pass
draw 2 1p=ron 0 2||ron 2 2|cut 3 1p|act ron 2 2
dora 1p=|cut 1 1p|||pass";

fn said(field: &str) -> Answer {
    if field.is_empty() {
        Answer::Pass { actor: None }
    } else {
        answer(field)
    }
}

/// A decision: `pass`, a call, the winners, or the act of the seat that its answer names.
fn decision(text: &str) -> Decision {
    let (name, line) = parted(text, ' ');
    match name {
        "call" => Decision::Call(bid(line)),
        "rons" => Decision::Rons(winners(line)),
        "act" => Decision::Act(number(word(line, 1)), answer(line)),
        _ => Decision::Pass,
    }
}

/// The seats that win.
fn winners(text: &str) -> Seats {
    Seats {
        first: number(word(text, 0)),
        second: number_or_none(word(text, 1)),
        third: number_or_none(word(text, 2)),
    }
}

struct Decided;

impl Of<Deed> for Decided {
    fn is_as(_alloc: Global, last: &Deed, told: &str) -> bool {
        let answers = Four {
            first: said(field(told, 0)),
            second: said(field(told, 1)),
            third: said(field(told, 2)),
            fourth: said(field(told, 3)),
        };
        decide(last, &answers) == decision(field(told, 4))
    }
}

#[test]
fn a_pon_or_a_kan_comes_before_a_chi_and_who_drew_acts(rt: HostRuntime) {
    ask_deeds::<HostRuntime, Decided>(&rt, rt.alloc(), DECISIONS);
}

const BIDS: &str = "\
chi 1 0 7m 5m 6m
pon 2 0 7m 7m 7m
open 3 0 7m 7m 7m 7m
none";

/// A bid becomes the deed of its word, and none becomes none.
struct Becomes;

impl Question for Becomes {
    fn holds(alloc: Global, line: &str) -> bool {
        match line {
            "none" => is_none(bid(line).deed()),
            _ => is_as::<Deed, Becomes>(alloc, bid(line).deed(), word(line, 0)),
        }
    }
}

impl Of<Deed> for Becomes {
    fn is_as(_alloc: Global, deed: &Deed, told: &str) -> bool {
        name(Some(deed)) == told
    }
}

#[test]
fn a_bid_becomes_its_call(rt: HostRuntime) {
    ask::<HostRuntime, Becomes>(&rt, rt.alloc(), BIDS);
}

/// A window that these seats have passed in.
fn passed_by(seats: [bool; 4]) -> Window {
    let mut window = Window::new();
    for seat in 0..4 {
        if seats[usize::from(seat)] && window.slot(seat).is_none() {
            window.fill(seat, Answer::Pass { actor: Some(seat) });
        }
    }
    window
}

/// Which seats hold an answer of their own.
fn held(window: &Window) -> [bool; 4] {
    let mut held = [false; 4];
    for seat in 0..4 {
        held[usize::from(seat)] = window.slot(seat) == Some(Answer::Pass { actor: Some(seat) });
    }
    held
}

/// Whether just these seats hold their answers, and with these seats present the window closes or not.
fn is_window(answered: [bool; 4], present: [bool; 4], closes: bool) -> bool {
    let window = passed_by(answered);
    held(&window) == answered && window.ready_to_close(present) == closes
}

fn are_windows(rows: &[([bool; 4], [bool; 4], bool)]) -> bool {
    let mut all = true;
    for (answered, present, closes) in rows {
        all = all && is_window(*answered, *present, *closes);
    }
    all
}

const NOBODY: [bool; 4] = [false; 4];

const FIRST: [bool; 4] = [true, false, false, false];

const TWO: [bool; 4] = [true, true, false, false];

const THREE: [bool; 4] = [true, true, true, false];

const ALL: [bool; 4] = [true; 4];

/// The seats that have answered, those that are present, and whether the window closes.
const WINDOWS: [([bool; 4], [bool; 4], bool); 11] = [
    (NOBODY, NOBODY, false),
    (NOBODY, FIRST, false),
    (FIRST, FIRST, true),
    (FIRST, TWO, false),
    (FIRST, NOBODY, false),
    (THREE, ALL, false),
    (THREE, THREE, true),
    (ALL, ALL, true),
    (ALL, TWO, true),
    ([false, false, true, false], ALL, false),
    ([true, false, false, true], FIRST, true),
];

#[test]
fn a_window_closes_once_each_present_seat_has_answered(rt: HostRuntime) {
    assert!(rt; are_windows(&WINDOWS));
}
