ghost use Rattle.std.specs.Prelude.{◌≡◌, [], IfSome};

use crate::lent::with;
use crate::record_tests::{all_refused, number_of_lines};
use mj_core::{Core, Expiry, Heard, Left, SitAnswer};
use mj_deeds::Rule;
use mj_ports::SitRefused;
use mj_tiles::Tile;
use mj_wall::{Rules, Wall};
use std::alloc::Global;

const PASS: &str = "{\"type\":\"none\"}";

// What is done with a game, and what comes of it, as is said beforehand.
#[derive(Clone, Copy)]
enum Step {
    // One that wants a seat says a line.
    Sits(&'static str, SitAnswer),
    // A seat says a line.
    Says(u8, &'static str, Heard),
    // All seats pass.
    AllPass,
    // A seat leaves.
    Leaves(u8, Left),
    // The time of a window may have run out between two readings of the clock.
    Expires(u32, u64, u64, Expiry),
    // The time of so many windows runs out, from the first on.
    RunOut(u32),
    // This is pending for a seat.
    IsTold(u8, &'static str),
    // This is the line of a seat with this number.
    HasLine(u8, u32, &'static str),
    // The record of the game is this after its header and its wall.
    IsRecorded(&'static str),
    // The record of the game has so many lines, and is refused once any of them is spoilt.
    IsGuarded(u32),
    // So many seats are held, all of them present, and the seats of these marks may say a line.
    Asks(u8, [bool; 4]),
    // A seat is gone.
    IsGone(u8),
    // A seat's next line answers this deed.
    IsDue(u8, u32),
    // There are so many deeds, this window is open, and so many entries were made.
    Counts(u32, Option<u32>, u64),
}

// A game on the wall in tile order, before its first entry.
pub(crate) fn before_all(alloc: Global) -> Option<Core>
    ensures { IfSome result (λ core. core.entries ≡ []) }
{
    let mut tiles = [Tile::at(0); 136];
    for place in 0..136u8 {
        tiles[usize::from(place)] = Tile::at(place / 4);
    }
    let Ok(wall) = Wall::read(&tiles, false) else {
        return None;
    };
    let rules = Rules {
        limit: 1000,
        draws: false,
        red: false,
    };
    Core::new(alloc, vec![in alloc; wall].ok()?, rules).ok()
}

// Whether a line that wants a seat is answered so, as is said beforehand.
fn sat(core: &mut Core, alloc: Global, line: &[u8], answer: SitAnswer) -> bool {
    core.would_sit(alloc, line) == answer && core.sit(alloc, 1, line) == answer
}

// Whether this comes of a window whose time may have run out, as is said beforehand.
fn expired(core: &mut Core, alloc: Global, window: u32, t1: u64, t2: u64, answer: Expiry) -> bool {
    core.would_expire(window, t1, t2) == answer && core.expire(alloc, 0, window, t1, t2) == answer
}

// What a seat is answered that may say a line.
fn said(core: &mut Core, alloc: Global, seat: u8, line: &str) -> Option<Heard> {
    if core.author(seat) == Some(1) && core.may_say(seat) {
        return Some(core.said(alloc, 1, seat, line.as_bytes()));
    }
    None
}

fn all_pass(core: &mut Core, alloc: Global) -> bool {
    let mut taken = true;
    for seat in 0..4 {
        taken = taken && said(core, alloc, seat, PASS) == Some(Heard::Taken);
    }
    taken
}

fn is_told(core: &Core, alloc: Global, seat: u8, line: &str) -> bool {
    let mut told = Vec::new(alloc);
    core.pending(seat, &mut told).is_ok() && told.as_slice() == line.as_bytes()
}

// Whether this is line `k` of a seat; an empty text where there is no such deed yet.
fn has_line(core: &Core, seat: u8, k: u32, line: &str) -> bool {
    if seat > 3 {
        return false;
    }
    match core.line(seat, k) {
        Some(kept) => kept == line.as_bytes(),
        None => line.is_empty(),
    }
}

// The record of a game; empty where memory is wanting.
fn record(core: &Core, alloc: Global) -> Vec<u8> {
    let mut text = Vec::new(alloc);
    let _written = core.record(alloc, &mut text);
    text
}

// Whether the record of the game is the header, the wall, and this.
fn is_recorded(core: &Core, alloc: Global, deeds: &str) -> bool {
    let text = record(core, alloc);
    text.as_slice().strip_prefix(HEAD.as_bytes()) == Some(deeds.as_bytes())
}

// Whether the record of so many lines is one, and is none once any of its lines is spoilt.
fn is_guarded(core: &Core, alloc: Global, lines: u32) -> bool {
    let text = record(core, alloc);
    number_of_lines(text.as_slice()) == lines && all_refused(alloc, text.as_slice(), lines)
}

// What comes of a present seat that leaves.
fn left(core: &mut Core, alloc: Global, seat: u8) -> Option<Left> {
    if core.author(seat) == Some(1) {
        return Some(core.gone(alloc, 1, seat));
    }
    None
}

// Whether the time of so many windows runs out, one after the other.
fn run_out(core: &mut Core, alloc: Global, windows: u32) -> bool {
    let mut closed = true;
    for window in 0..windows {
        closed = closed && core.expire(alloc, 0, window, 0, 1000) == Expiry::Closed;
    }
    closed
}

fn counts(core: &Core, deeds: u32, open: Option<u32>, entries: u64) -> bool {
    core.deeds() == deeds && core.open() == open && core.entries() == entries && !core.over()
}

fn asks(core: &Core, held: u8, asked: [bool; 4]) -> bool {
    let mut right = true;
    for (seat, may_say) in asked.iter().enumerate() {
        let seat = seat as u8;
        right = right && core.may_say(seat) == *may_say && core.present(seat) == (seat < held);
        right = right && core.author(seat).is_some() == (seat < held);
    }
    right
}

fn holds(core: &mut Core, alloc: Global, step: Step) -> bool {
    match step {
        Step::Sits(line, answer) => sat(core, alloc, line.as_bytes(), answer),
        Step::Says(seat, line, heard) => said(core, alloc, seat, line) == Some(heard),
        Step::AllPass => all_pass(core, alloc),
        Step::Leaves(seat, answer) => left(core, alloc, seat) == Some(answer),
        Step::Expires(window, t1, t2, answer) => expired(core, alloc, window, t1, t2, answer),
        Step::RunOut(windows) => run_out(core, alloc, windows),
        Step::IsTold(seat, line) => is_told(core, alloc, seat, line),
        Step::HasLine(seat, k, line) => has_line(core, seat, k, line),
        Step::IsRecorded(deeds) => is_recorded(core, alloc, deeds),
        Step::IsGuarded(lines) => is_guarded(core, alloc, lines),
        Step::Asks(held, asked) => asks(core, held, asked),
        Step::IsGone(seat) => !core.present(seat) && !core.may_say(seat),
        Step::IsDue(seat, due) => core.due(seat) == due,
        Step::Counts(deeds, open, entries) => counts(core, deeds, open, entries),
    }
}

fn follows(core: &mut Core, alloc: Global, steps: &[Step]) -> bool {
    let mut right = true;
    for step in steps {
        right = right && holds(core, alloc, *step);
    }
    right
}

// Whether all steps come as they say.
fn all_hold(alloc: Global, steps: &[Step]) -> bool {
    with(before_all(alloc), |core| follows(core, alloc, steps))
}

const A: &str = "{\"type\":\"join\",\"name\":\"a\",\"key\":\"k\"}";

const B: &str = "{\"type\":\"join\",\"name\":\"b\"}";

const C: &str = "{\"type\":\"join\",\"name\":\"c\"}";

const D: &str = "{\"type\":\"join\",\"name\":\"d\"}";

const FOUR_SEATS: [Step; 13] = [
    Step::Asks(0, [false, false, false, false]),
    Step::Sits(PASS, SitAnswer::Refused(SitRefused::BadName)),
    Step::Sits(A, SitAnswer::Sat(0)),
    Step::Sits(A, SitAnswer::Refused(SitRefused::NameTaken)),
    Step::Sits(B, SitAnswer::Sat(1)),
    Step::Sits(C, SitAnswer::Sat(2)),
    Step::Asks(3, [false, false, false, false]),
    Step::IsTold(0, ""),
    Step::Sits(D, SitAnswer::Sat(3)),
    Step::Sits(D, SitAnswer::Refused(SitRefused::NameTaken)),
    Step::Sits(
        "{\"type\":\"join\",\"name\":\"e\"}",
        SitAnswer::Refused(SitRefused::Full),
    ),
    Step::Asks(4, [true, true, true, true]),
    Step::IsTold(
        3,
        "{\"type\":\"start_game\",\"id\":3,\"names\":[\"a\",\"b\",\"c\",\"d\"],\"possible_actions\":[{\"type\":\"none\"}]}\n",
    ),
];

const HEAD: &str =
    "game limit=1000 draws=0 red=0\nwall 1m 1m 1m 1m 2m 2m 2m 2m 3m 3m 3m 3m 4m 4m 4m 4m 5m 5m 5m 5m 6m 6m 6m 6m 7m 7m 7m 7m 8m 8m 8m 8m 9m 9m 9m 9m 1p 1p 1p 1p 2p 2p 2p 2p 3p 3p 3p 3p 4p 4p 4p 4p 5p 5p 5p 5p 6p 6p 6p 6p 7p 7p 7p 7p 8p 8p 8p 8p 9p 9p 9p 9p 1s 1s 1s 1s 2s 2s 2s 2s 3s 3s 3s 3s 4s 4s 4s 4s 5s 5s 5s 5s 6s 6s 6s 6s 7s 7s 7s 7s 8s 8s 8s 8s 9s 9s 9s 9s E E E E S S S S W W W W N N N N P P P P F F F F C C C C\n";

const FIVE_DEEDS: &str =
    "{\"type\":\"start_game\",\"id\":0,\"names\":[\"a\",\"b\",\"c\",\"d\"]}\n{\"type\":\"start_kyoku\",\"bakaze\":\"E\",\"kyoku\":1,\"honba\":0,\"kyotaku\":0,\"oya\":0,\"dora_marker\":\"F\",\"tehais\":[[\"1m\",\"1m\",\"1m\",\"1m\",\"2m\",\"2m\",\"2m\",\"2m\",\"3m\",\"3m\",\"3m\",\"3m\",\"4m\"],[\"4m\",\"4m\",\"4m\",\"5m\",\"5m\",\"5m\",\"5m\",\"6m\",\"6m\",\"6m\",\"6m\",\"7m\",\"7m\"],[\"7m\",\"7m\",\"8m\",\"8m\",\"8m\",\"8m\",\"9m\",\"9m\",\"9m\",\"9m\",\"1p\",\"1p\",\"1p\"],[\"1p\",\"2p\",\"2p\",\"2p\",\"2p\",\"3p\",\"3p\",\"3p\",\"3p\",\"4p\",\"4p\",\"4p\",\"4p\"]]}\n{\"type\":\"tsumo\",\"actor\":0,\"pai\":\"5p\"}\n{\"type\":\"dahai\",\"actor\":0,\"pai\":\"1m\",\"tsumogiri\":false}\n{\"type\":\"tsumo\",\"actor\":1,\"pai\":\"5p\"}\n";

// What the seats are told of the first deeds, each with what it may answer.
const DRAW: &str =
    "{\"type\":\"tsumo\",\"actor\":0,\"pai\":\"?\",\"possible_actions\":[{\"type\":\"none\"}]}\n";

const DEALER_DRAWS: &str =
    "{\"type\":\"tsumo\",\"actor\":0,\"pai\":\"5p\",\"possible_actions\":[{\"type\":\"dahai\",\"actor\":0,\"pai\":\"1m\",\"tsumogiri\":false},{\"type\":\"dahai\",\"actor\":0,\"pai\":\"2m\",\"tsumogiri\":false},{\"type\":\"dahai\",\"actor\":0,\"pai\":\"3m\",\"tsumogiri\":false},{\"type\":\"dahai\",\"actor\":0,\"pai\":\"4m\",\"tsumogiri\":false},{\"type\":\"dahai\",\"actor\":0,\"pai\":\"5p\",\"tsumogiri\":true},{\"type\":\"ankan\",\"actor\":0,\"consumed\":[\"1m\",\"1m\",\"1m\",\"1m\"]},{\"type\":\"ankan\",\"actor\":0,\"consumed\":[\"2m\",\"2m\",\"2m\",\"2m\"]},{\"type\":\"ankan\",\"actor\":0,\"consumed\":[\"3m\",\"3m\",\"3m\",\"3m\"]},{\"type\":\"reach\",\"actor\":0}]}\n";

const DISCARDS: &str =
    "{\"type\":\"dahai\",\"actor\":0,\"pai\":\"1m\",\"tsumogiri\":false,\"possible_actions\":[{\"type\":\"none\"}]}\n";

const SECOND_DRAWS: &str =
    "{\"type\":\"tsumo\",\"actor\":1,\"pai\":\"5p\",\"possible_actions\":[{\"type\":\"dahai\",\"actor\":1,\"pai\":\"4m\",\"tsumogiri\":false},{\"type\":\"dahai\",\"actor\":1,\"pai\":\"5m\",\"tsumogiri\":false},{\"type\":\"dahai\",\"actor\":1,\"pai\":\"6m\",\"tsumogiri\":false},{\"type\":\"dahai\",\"actor\":1,\"pai\":\"7m\",\"tsumogiri\":false},{\"type\":\"dahai\",\"actor\":1,\"pai\":\"5p\",\"tsumogiri\":true},{\"type\":\"ankan\",\"actor\":1,\"consumed\":[\"5m\",\"5m\",\"5m\",\"5m\"]},{\"type\":\"ankan\",\"actor\":1,\"consumed\":[\"6m\",\"6m\",\"6m\",\"6m\"]},{\"type\":\"reach\",\"actor\":1}]}\n";

const FIRST_DISCARD: [Step; 26] = [
    Step::IsRecorded(""),
    Step::Sits(A, SitAnswer::Sat(0)),
    Step::Sits(B, SitAnswer::Sat(1)),
    Step::Sits(C, SitAnswer::Sat(2)),
    Step::Sits(D, SitAnswer::Sat(3)),
    Step::Says(2, PASS, Heard::Taken),
    Step::IsTold(2, ""),
    Step::Asks(4, [true, true, false, true]),
    Step::Says(0, PASS, Heard::Taken),
    Step::Says(1, PASS, Heard::Taken),
    Step::Says(3, PASS, Heard::Taken),
    Step::AllPass,
    Step::IsTold(0, DEALER_DRAWS),
    Step::IsTold(1, DRAW),
    Step::Says(3, PASS, Heard::Taken),
    Step::Says(
        0,
        "{\"type\":\"dahai\",\"actor\":0,\"pai\":\"9s\",\"tsumogiri\":false}",
        Heard::Refused(Rule::NotHeld),
    ),
    Step::IsTold(0, ""),
    Step::Asks(4, [true, true, true, false]),
    Step::Says(
        0,
        "{\"type\":\"dahai\",\"actor\":0,\"pai\":\"1m\",\"tsumogiri\":false}",
        Heard::Taken,
    ),
    Step::Says(1, PASS, Heard::Taken),
    Step::Says(2, PASS, Heard::Taken),
    Step::IsTold(3, DISCARDS),
    Step::Asks(4, [true, true, true, true]),
    Step::AllPass,
    Step::IsTold(1, SECOND_DRAWS),
    Step::IsRecorded(FIVE_DEEDS),
];

const START: &str =
    "{\"type\":\"start_game\",\"id\":0,\"names\":[\"a\",\"b\",\"c\",\"d\"],\"possible_actions\":[{\"type\":\"none\"}]}\n";

const WRONG_KEY: &str = "{\"type\":\"join\",\"name\":\"a\",\"key\":\"l\"}";

const A_RETURN: [Step; 33] = [
    Step::Expires(0, 0, 1000, Expiry::Stale),
    Step::Sits(A, SitAnswer::Sat(0)),
    Step::Sits(B, SitAnswer::Sat(1)),
    Step::Sits(C, SitAnswer::Sat(2)),
    Step::Counts(0, None, 3),
    Step::Sits(D, SitAnswer::Sat(3)),
    Step::Counts(1, Some(0), 4),
    Step::Expires(0, 1, 1000, Expiry::Early),
    Step::Expires(0, 1000, 0, Expiry::Early),
    Step::Expires(1, 0, 1000, Expiry::Stale),
    Step::Leaves(0, Left::Gone),
    Step::IsGone(0),
    Step::IsTold(0, ""),
    Step::Leaves(1, Left::Gone),
    Step::Sits(WRONG_KEY, SitAnswer::Refused(SitRefused::WrongKey)),
    Step::Sits(B, SitAnswer::Refused(SitRefused::NoKey)),
    Step::Says(2, PASS, Heard::Taken),
    Step::IsDue(2, 1),
    Step::Says(3, PASS, Heard::Taken),
    Step::Counts(2, Some(1), 8),
    Step::IsDue(0, 0),
    Step::Sits(A, SitAnswer::Back(0)),
    Step::IsDue(0, 1),
    Step::HasLine(0, 0, START),
    Step::HasLine(0, 2, ""),
    Step::Expires(1, 5, 1005, Expiry::Closed),
    Step::Counts(3, Some(2), 10),
    Step::HasLine(3, 2, DRAW),
    Step::Says(3, PASS, Heard::Late),
    Step::IsDue(3, 2),
    Step::IsTold(3, DRAW),
    Step::Says(3, PASS, Heard::Taken),
    Step::IsTold(3, ""),
];

const UNREADABLE: Step = Step::Says(0, "x", Heard::Refused(Rule::Unreadable));

const SIXTEEN_REFUSALS: [Step; 22] = [
    Step::Sits(A, SitAnswer::Sat(0)),
    Step::Sits(B, SitAnswer::Sat(1)),
    Step::Sits(C, SitAnswer::Sat(2)),
    Step::Sits(D, SitAnswer::Sat(3)),
    Step::Says(
        0,
        "{\"type\":\"ryukyoku\",\"actor\":0}",
        Heard::Refused(Rule::NotNow),
    ),
    UNREADABLE,
    UNREADABLE,
    UNREADABLE,
    UNREADABLE,
    UNREADABLE,
    UNREADABLE,
    UNREADABLE,
    UNREADABLE,
    UNREADABLE,
    UNREADABLE,
    UNREADABLE,
    UNREADABLE,
    UNREADABLE,
    UNREADABLE,
    Step::Says(0, "x", Heard::Closing(Rule::Unreadable)),
    Step::IsGone(0),
    Step::Sits(A, SitAnswer::Back(0)),
];

// The record of two hands.
const RECORDED: [Step; 6] = [
    Step::Sits(A, SitAnswer::Sat(0)),
    Step::Sits(B, SitAnswer::Sat(1)),
    Step::Sits(C, SitAnswer::Sat(2)),
    Step::Sits(D, SitAnswer::Sat(3)),
    Step::RunOut(290),
    Step::IsGuarded(293),
];

#[test]
fn four_seats_are_given_and_no_name_twice(rt: HostRuntime) {
    assert!(rt; all_hold(rt.alloc(), &FOUR_SEATS));
}

#[test]
fn a_deed_comes_once_all_four_have_answered_it_lawfully(rt: HostRuntime) {
    assert!(rt; all_hold(rt.alloc(), &FIRST_DISCARD));
}

#[test]
fn a_seat_that_is_gone_comes_back_by_its_key_and_windows_run_out(rt: HostRuntime) {
    assert!(rt; all_hold(rt.alloc(), &A_RETURN));
}

#[test]
fn the_sixteenth_answer_that_is_refused_makes_the_seat_gone(rt: HostRuntime) {
    assert!(rt; all_hold(rt.alloc(), &SIXTEEN_REFUSALS));
}

#[test]
fn each_spoilt_line_of_a_record_is_refused_where_it_stands(rt: HostRuntime) {
    assert!(rt; all_hold(rt.alloc(), &RECORDED));
}
