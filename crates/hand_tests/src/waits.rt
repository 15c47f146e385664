use crate::words::ask;
use mj_tiles::{Counts, Kinds};
use mj_waits::{Facts, furiten, misses_some, ready, waits};
use std::alloc::Global;
use test_words::{Question, counts, field, kinds, number, yes};

/// Concealed tiles, those of melds, how many melds they are, and the waits; then own discards, kinds passed, kinds passed in riichi,
/// and whether that is furiten with the waits 2s and 5s.
const CASES: &str = "\
waits|123m 456p 789s EESS||0|ES
waits|19m 19p 19s ESWNPFC||0|19m 19p 19s ESWNPFC
waits|1112345678999p||0|123456789p
waits|223344m 556677p 8s||0|8s
waits|23s 55m 777p||2|14s
waits|C||4|C
waits|123m 456p 789s E|EEE|1|
waits|123m 456p 789s E|SSS|1|E
waits|23s 55m 777p|1111s 123p|2|4s
waits|123456789p 1111s||0|
furiten||||no
furiten|2s|||yes
furiten|1s|5s||yes
furiten||1s|2s 9m|yes
furiten|3s|1s|4s|no";

struct Case;

impl Question for Case {
    fn holds(_alloc: Global, line: &str) -> bool {
        match field(line, 0) {
            "waits" => is_told_waits(line),
            _ => is_told_furiten(line),
        }
    }
}

fn is_told_waits(line: &str) -> bool {
    has_waits(
        &counts(field(line, 1)),
        room_beside(&counts(field(line, 2))),
        number(field(line, 3)),
        kinds(field(line, 4)),
    )
}

fn is_told_furiten(line: &str) -> bool {
    is_furiten(
        kinds(field(line, 1)),
        kinds(field(line, 2)),
        kinds(field(line, 3)),
        yes(field(line, 4)),
    )
}

/// Whether a hand has these waits, and is ready where there are some.
fn has_waits(hand: &Counts, room: Option<Counts>, melds: u8, told: Kinds) -> bool {
    match room {
        Some(room) => {
            waits(hand, &room, melds) == told && ready(hand, &room, melds) != told.is_empty()
        }
        None => false,
    }
}

/// Four of each kind less the tiles of melds.
fn room_beside(melded: &Counts) -> Option<Counts> {
    let mut room = [4; 34];
    for (place, number) in melded.numbers().iter().enumerate() {
        room[place] = 4u8.saturating_sub(*number);
    }
    Counts::of(room)
}

/// Whether furiten is told so, also of a hand with these waits that are not found.
fn is_furiten(own: Kinds, passed: Kinds, passed_in_riichi: Kinds, told: bool) -> bool {
    let facts = Facts {
        waits: kinds("25s"),
        own,
        passed,
        passed_in_riichi,
    };
    let missed = misses_some(&counts("34s 55m 777p"), 2, own, passed, passed_in_riichi);
    furiten(&facts) == told && missed == told
}

#[test]
fn hands_have_their_waits_and_a_missed_one_makes_furiten(rt: HostRuntime) {
    ask::<HostRuntime, Case>(&rt, rt.alloc(), CASES);
}
