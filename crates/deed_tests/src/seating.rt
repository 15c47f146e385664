use crate::asking::ask;
use mj_ports::{JoinLine, Key, Name, SitRefused};
use mj_seating::{Desk, Placed};
use std::alloc::Global;
use test_words::{Question, field, number, parted, word};

/// What comes to an empty desk, what the last of it is answered, and the seats afterwards, `-` before one that is gone.
/// A join is a name, or a name and a key; `-1` says that seat 1 leaves; `63*a:k` that seat 0 leaves and `a:k` joins, 63
/// times.
const SITTINGS: &str = "\
a|sat 0|a
a b|sat 1|a b
a b c d|sat 3|a b c d
a b c d e|full|a b c d
a:k b c d -0 e:k|full|-a b c d
a a|taken|a
a:k a:k|taken|a
a:k a:q|taken|a
a b c d a|taken|a b c d
a -0 a|keyless|-a
a -0 a:k|keyless|-a
a b c d -2 c:k|keyless|a b -c d
a:k -0 a:q|other|-a
a:k -0 a|other|-a
a:k b c d -0 a|other|-a b c d
a:k -0 a:k|back 0|a
a:k 63*a:k -0 a:k|back 0|a
a:k 64*a:k -0 a:k|often|-a
a:k 64*a:k a:k|taken|a
a:k 64*a:k -0 a:q|other|-a
a:k 64*a:k b c d -0 a:k|often|-a b c d
a b:k c -1 b:k|back 1|a b c
a b:k -1 c b:k|back 1|a b c
a b:k -1 b:q b b:k|back 1|a b
a:k b:k c:k d:k -3 -0 d:k|back 3|-a b c d";

/// The join of a name, or of a name and a key, each of at most 64 bytes.
fn join(word: &str) -> Option<JoinLine> {
    let (name, key) = parted(word, ':');
    if name.len() > 64 || key.len() > 64 {
        return None;
    }
    let has_key = name.len() < word.len();
    Some(JoinLine {
        name: Name::of(name.as_bytes()),
        key: if has_key {
            Some(Key::of(key.as_bytes()))
        } else {
            None
        },
    })
}

/// A seat leaves, which nothing answers.
fn leaves(desk: &mut Desk, seat: u8) -> Option<Placed> {
    if desk.present(seat) {
        desk.leave(seat);
    }
    None
}

/// A join of this word.
fn sits(desk: &mut Desk, word: &str) -> Option<Placed> {
    match join(word) {
        Some(join) => Some(desk.sit(&join)),
        None => None,
    }
}

/// Seat 0 leaves and joins so many times.
fn returns(desk: &mut Desk, times: u8, word: &str) -> Option<Placed> {
    let mut last = None;
    for _ in 0..times {
        leaves(desk, 0);
        last = sits(desk, word);
    }
    last
}

/// What one word is answered.
fn step(desk: &mut Desk, word: &str) -> Option<Placed> {
    if let Some(seat) = word.strip_prefix("-") {
        return leaves(desk, number(seat));
    }
    match word.split_once('*') {
        None => sits(desk, word),
        Some((times, word)) => returns(desk, number(times), word),
    }
}

/// What an answer is called.
fn answer(text: &str) -> Option<Placed> {
    match parted(text, ' ') {
        ("sat", seat) => Some(Placed::Sat(number(seat))),
        ("back", seat) => Some(Placed::Back(number(seat))),
        ("full", _) => Some(Placed::Refused(SitRefused::Full)),
        ("taken", _) => Some(Placed::Refused(SitRefused::NameTaken)),
        ("keyless", _) => Some(Placed::Refused(SitRefused::NoKey)),
        ("other", _) => Some(Placed::Refused(SitRefused::WrongKey)),
        ("often", _) => Some(Placed::Refused(SitRefused::TooOften)),
        _ => None,
    }
}

fn is_named(desk: &Desk, seat: u8, name: &str) -> bool {
    match desk.name(seat) {
        Some(own) => own.as_slice() == name.as_bytes(),
        None => false,
    }
}

/// Whether a seat is as a word says: free for none, gone with `-` before its name.
fn is_seat(desk: &Desk, seat: u8, word: &str) -> bool {
    let is_held = seat < desk.held();
    match word.split_once('-') {
        Some((_, name)) => is_held && is_named(desk, seat, name) && !desk.present(seat),
        None if word.is_empty() => { !is_held && desk.name(seat).is_none() && !desk.present(seat) }
        None => is_held && is_named(desk, seat, word) && desk.present(seat),
    }
}

fn stands(desk: &Desk, seats: &str) -> bool {
    is_seat(desk, 0, word(seats, 0))
        && is_seat(desk, 1, word(seats, 1))
        && is_seat(desk, 2, word(seats, 2))
        && is_seat(desk, 3, word(seats, 3))
}

/// What the last of some words is answered.
fn steps(desk: &mut Desk, words: &str) -> Option<Placed> {
    let mut last = None;
    for word in words.split_whitespace() {
        last = step(desk, word);
    }
    last
}

struct Sitting;

impl Question for Sitting {
    fn holds(_alloc: Global, line: &str) -> bool {
        let mut desk = Desk::new();
        let last = steps(&mut desk, field(line, 0));
        last.is_some() && last == answer(field(line, 1)) && stands(&desk, field(line, 2))
    }
}

#[test]
fn a_join_is_answered_by_the_table_of_sitting(rt: HostRuntime) {
    ask::<HostRuntime, Sitting>(&rt, rt.alloc(), SITTINGS);
}
