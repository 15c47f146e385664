use crate::words::ask;
use mj_suits::{Split, SuitSet, SuitSets, SuitTable, nearest, partitions};
use std::alloc::Global;
use test_words::{Question, field, number};

/// A run from a number on.
const fn run(low: u8) -> SuitSet {
    SuitSet { run: true, low }
}

/// A triplet of a number.
const fn triplet(low: u8) -> SuitSet {
    SuitSet { run: false, low }
}

/// The numbers of a suit, whether it has runs, how many partitions there are, and one of them: its sets, `r` a run and `t` a triplet
/// from a number on, and its pair. Three of three in a row are runs or triplets; two pairs, two at the end and honours in a row have
/// none.
const PARTED: &str = "\
000000000|runs|1||
000020000|runs|1||4
311100000|runs|1|t0 r1|
311000000|runs|1|r0|0
411000000|runs|1|r0 t0|
222000000|runs|1|r0 r0|
303000000|no|1|t0 t2|
311121113|runs|1|t0 r1 r5 t8|4
333000000|runs|2|r0 r0 r0|
333000000|runs|2|t0 t1 t2|
310100000|runs|0||
200000002|runs|0||
000000011|runs|0||
111000000|no|0||";

/// The numbers of a suit by their digits.
fn suit(text: &str) -> [u8; 9] {
    let mut numbers = [0; 9];
    for (place, byte) in text.as_bytes().iter().enumerate() {
        if place < 9 {
            numbers[place] = byte.saturating_sub(b'0');
        }
    }
    numbers
}

struct HasWays;

impl Question for HasWays {
    fn holds(alloc: Global, line: &str) -> bool {
        match partitions(alloc, suit(field(line, 0)), field(line, 1) == "runs") {
            Ok(found) => are_told(found.as_slice(), line),
            Err(_) => false,
        }
    }
}

/// Whether a suit is parted so: in so many ways, and, where there is one, in this.
fn are_told(found: &[Split], line: &str) -> bool {
    found.len() == usize::from(number(field(line, 2)))
        && is_among(found, field(line, 3), field(line, 4).parse().ok()) != found.is_empty()
}

fn is_among(found: &[Split], sets: &str, pair: Option<u8>) -> bool {
    for split in found {
        if are_sets(split.sets.as_slice(), sets) && split.pair == pair {
            return true;
        }
    }
    false
}

fn are_sets(found: &[SuitSet], sets: &str) -> bool {
    let mut rest = found;
    for text in sets.split_whitespace() {
        match rest.split_first() {
            Some((first, others)) if is_set(first, text) => rest = others,
            _ => return false,
        }
    }
    rest.is_empty()
}

fn is_set(set: &SuitSet, text: &str) -> bool {
    match text.strip_prefix(if set.run { "r" } else { "t" }) {
        Some(low) => set.low == number(low),
        None => false,
    }
}

#[test]
fn counts_are_parted_in_all_ways(rt: HostRuntime) {
    ask::<HostRuntime, HasWays>(&rt, rt.alloc(), PARTED);
}

/// Whether the sets of a vector are these.
fn are_kept(alloc: Global, sets: &[SuitSet]) -> bool {
    match sets.to_vec(alloc) {
        Ok(vector) => SuitSets::from_vec(vector).as_slice() == sets,
        Err(_) => false,
    }
}

#[test]
fn sets_are_those_of_their_vector(rt: HostRuntime) {
    assert!(rt; are_kept(rt.alloc(), &[run(2), triplet(2)]));
}

/// The room of a suit of which no tile is seen.
const FULL: [u8; 9] = [4; 9];

/// The room of the honours, which have seven kinds, of which no tile is seen.
const HONOURS: [u8; 9] = [4, 4, 4, 4, 4, 4, 4, 0, 0];

/// Whether these targets of a suit are the nearest.
fn are_nearest() -> bool {
    let found = [
        nearest([0; 9], FULL, true, 0, false),
        nearest([0; 9], FULL, true, 1, false),
        nearest([2, 2, 2, 0, 0, 0, 0, 0, 0], FULL, true, 2, false),
        nearest([4, 0, 0, 0, 0, 0, 0, 0, 0], FULL, true, 2, false),
        nearest([4, 0, 0, 0, 0, 0, 0, 0, 0], FULL, true, 1, true),
        nearest([0, 0, 0, 0, 0, 0, 1, 1, 0], FULL, true, 1, false),
        nearest([1, 1, 1, 1, 0, 0, 0, 0, 0], FULL, true, 1, true),
    ];
    found
        == [
            Some((0, [0; 9])),
            Some((3, [3, 0, 0, 0, 0, 0, 0, 0, 0])),
            Some((0, [2, 2, 2, 0, 0, 0, 0, 0, 0])),
            Some((2, [4, 1, 1, 0, 0, 0, 0, 0, 0])),
            Some((2, [3, 2, 0, 0, 0, 0, 0, 0, 0])),
            Some((1, [0, 0, 0, 0, 0, 1, 1, 1, 0])),
            Some((1, [2, 1, 1, 1, 0, 0, 0, 0, 0])),
        ]
}

/// Whether these are within a room.
fn are_nearest_within() -> bool {
    let found = [
        nearest(
            [0, 0, 0, 0, 0, 0, 1, 1, 0],
            [4, 4, 4, 4, 4, 0, 4, 4, 4],
            true,
            1,
            false,
        ),
        nearest([1, 1, 0, 0, 0, 0, 0, 0, 0], HONOURS, false, 0, true),
        nearest([1, 1, 1, 0, 0, 0, 0, 0, 0], [2; 9], false, 1, false),
        nearest([1, 1, 1, 0, 0, 0, 0, 0, 0], [1; 9], true, 1, true),
    ];
    found
        == [
            Some((1, [0, 0, 0, 0, 0, 0, 1, 1, 1])),
            Some((1, [2, 0, 0, 0, 0, 0, 0, 0, 0])),
            None,
            None,
        ]
}

/// Whether a table of a suit knows each number of sets.
fn is_known_to_a_table() -> bool {
    let table = SuitTable::new([4, 0, 0, 0, 0, 0, 0, 0, 0], FULL, true);
    let honours = SuitTable::new([1, 1, 1, 0, 0, 0, 0, 0, 0], [2; 9], false);
    [table.best(2, false), honours.best(1, false)] == [Some((2, [4, 1, 1, 0, 0, 0, 0, 0, 0])), None]
        && [
            table.number(0, false),
            table.number(2, false),
            honours.number(1, false),
        ] == [Some(0), Some(2), None]
}

#[test]
fn suits_have_their_nearest_targets(rt: HostRuntime) {
    assert!(rt; are_nearest() && are_nearest_within());
    assert!(rt; is_known_to_a_table());
}
