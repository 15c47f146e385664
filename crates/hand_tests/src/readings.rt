use crate::words::{ask, meld, reading};
use mj_readings::{
    Reading, completing, is_complete, is_complete_with, is_completed_by, reading_at, readings,
};
use mj_tiles::{Counts, Form, Kind, Kinds};
use std::alloc::Global;
use test_words::{Question, counts, field, kind, kinds, number, yes};

/// Concealed tiles, the number of melds, and whether they are a complete hand; such tiles and one more; the kinds that complete
/// such a hand; and tiles, the winning one, and the first reading beside a pon of P, or without melds.
const CASES: &str = "\
complete|123m 456p 789s EEESS|0|yes
complete|223344m 556677p 88s|0|yes
complete|1122m 3355p 7799s EE|0|yes
complete|119m 19p 19s ESWNPFC|0|yes
complete|1111m 3355p 7799s EE|0|no
complete|89m 1456p 789s EEESS|0|no
complete|ESW 456p 789s 11122m|0|no
complete|EE|4|yes
complete|EE|3|no
complete|EE|5|no
with C|C|4|yes
with P|C|4|no
completing|123m 456p 789s EESS|0|ES
completing|2233m 5566p 88s EEC|0|C
completing|119m 19p 19s ESWNPF|0|C
completing|123456789p 1111s|0|
completing|23s 55m 777p|2|14s
completing|C|5|
first|123m 456p 777s EE|5p|r1m r4p t7s TP E 1 5p
first|119m 19p 19s ESWNPFC|C|orphans 1m
first|1122m 3355p 7799s EE|E|pairs 12m 35p 79s E";

struct Case;

impl Question for Case {
    fn holds(_alloc: Global, line: &str) -> bool {
        match field(line, 0) {
            "complete" => is_told_complete(line),
            "with C" => is_told_with(line, Kind::at(33)),
            "with P" => is_told_with(line, Kind::at(31)),
            "completing" => is_told_completing(line),
            _ => is_told_first(line),
        }
    }
}

fn is_told_complete(line: &str) -> bool {
    is_complete(&counts(field(line, 1)), number(field(line, 2))) == yes(field(line, 3))
}

fn is_told_with(line: &str, more: Kind) -> bool {
    completes(&counts(field(line, 1)), more, number(field(line, 2))) == yes(field(line, 3))
}

fn is_told_completing(line: &str) -> bool {
    are_completing(
        &counts(field(line, 1)),
        number(field(line, 2)),
        kinds(field(line, 3)),
    )
}

fn is_told_first(line: &str) -> bool {
    is_read(
        &counts(field(line, 1)),
        kind(field(line, 2)),
        reading(field(line, 3)),
    )
}

/// Whether a tile more, of a kind of which fewer than four are held, completes a hand.
fn completes(held: &Counts, more: Kind, melds: u8) -> bool {
    held.get(more) < 4 && is_complete_with(held, more, melds)
}

/// Whether just these kinds complete the hand: each by itself is told to, no other is, and some kind of all these is.
fn are_completing(held: &Counts, melds: u8, told: Kinds) -> bool {
    let mut right = completing(held, melds) == told
        && is_completed_by(held, melds, told) != told.is_empty();
    for number in 0..34 {
        let kind = Kind::at(number);
        right = right && is_completed_by(held, melds, Kinds::none().with(kind)) == told.has(kind);
    }
    right
}

fn is_read(held: &Counts, win: Kind, told: Reading) -> bool {
    let pon = [meld(Form::Pon, "P")];
    match told {
        Reading::Standard { .. } => reading_at(held, &pon, win, 0) == Some(told),
        _ => reading_at(held, &[], win, 0) == Some(told),
    }
}

#[test]
fn hands_are_complete_and_read(rt: HostRuntime) {
    ask::<HostRuntime, Case>(&rt, rt.alloc(), CASES);
}

/// Tiles, the winning one, and the number of readings.
const READINGS: &str = "\
223344m 556677p 88s|8s|2
111222333m 789p EE|1m|2
111m 23m 456p 789s EEE|1m|2
119m 19p 19s ESWNPFC|1m|1
123m 456p 789s EEESW|E|0";

struct HasReadings;

impl Question for HasReadings {
    fn holds(alloc: Global, line: &str) -> bool {
        has_readings(
            alloc,
            &counts(field(line, 0)),
            kind(field(line, 1)),
            number(field(line, 2)),
        )
    }
}

/// Whether a hand has so many readings, each as it is read at its place, and none after them.
fn has_readings(alloc: Global, held: &Counts, win: Kind, told: u8) -> bool {
    match readings(alloc, held, &[], win) {
        Ok(found) => found.len() == usize::from(told) && are_read(held, win, found.as_slice()),
        Err(_) => false,
    }
}

fn are_read(held: &Counts, win: Kind, found: &[Reading]) -> bool {
    let mut right = reading_at(held, &[], win, found.len()).is_none();
    for (place, reading) in found.iter().enumerate() {
        right = right && reading_at(held, &[], win, place) == Some(*reading);
    }
    right
}

#[test]
fn hands_have_all_their_readings(rt: HostRuntime) {
    ask::<HostRuntime, HasReadings>(&rt, rt.alloc(), READINGS);
}
