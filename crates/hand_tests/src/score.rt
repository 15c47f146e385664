use crate::words::{ask, bit, case, meld, numbers};
use mj_score::{Extra, Score, worth};
use mj_tiles::Form;
use mj_yaku::is_closed;
use std::alloc::{AllocError, Global};
use test_words::{Question, counts, field, kind, number, word};

/// The worth of a hand without melds, or beside a pon of `1m`, with so many dora of the shown and hidden indicators and red fives.
fn score(
    alloc: Global,
    marks: &str,
    hand: &str,
    win: &str,
    dora: [u8; 3],
) -> Result<Option<Score>, AllocError> {
    let [dora, under, red] = dora;
    if dora > 20 || under > 20 || red > 3 {
        return Ok(None);
    }
    let (held, win) = (counts(hand), kind(win));
    let extra = Extra { dora, under, red };
    let mut case = case(marks);
    if marks.contains('o') {
        let melds = [meld(Form::Pon, "1m")];
        case.closed = is_closed(&melds);
        return worth(alloc, &held, &melds, win, &case, extra);
    }
    case.closed = is_closed(&[]);
    worth(alloc, &held, &[], win, &case, extra)
}

/// Whether the set of a score has just the rows of these numbers.
fn has_just(score: &Score, rows: u64) -> bool {
    for row in 0..46 {
        if score.yaku.has(row) != (rows & bit(row) != 0) {
            return false;
        }
    }
    true
}

/// Circumstances, tiles, the winning one, the dora of the three sorts, and the han, the fu, the base points in tens and all rows. As
/// triplets the third of these hands has 50 fu and as runs 30, both with 5 han. Both readings of the fifth have 3,000 base
/// points: two pairs of equal runs have 7 han, seven pairs 6. The last but one is both four concealed triplets and green; the last one
/// has 16 han and 30 fu as runs, 13 han and 50 fu as triplets.
const WORTH: &str = "\
d|234567m 456p 33678s|7m|0 0 0|3|20|64|3 4 6
|223344m 556677p 88s|8s|0 0 0|4|40|200|6 31
|222333444m 567p 88s|7p|2 0 0|5|50|200|6 18
|119m 19p 19s ESWNPFC|C|2 1 1|100|0|800|33
|223344556677m EE|E|1 0 0|7|40|300|26 31
d|234567m 456p 33678s|7m|0 0 1|4|20|128|3 4 6
d|234567m 456p 33678s|7m|0 0 3|6|20|300|3 4 6
d|234567m 456p 33678s|7m|4 4 2|13|20|800|3 4 6
d|222333444666s 88s|2s|0 0 0|100|0|800|34
|111222333m 789p 99s|9p|11 0 0|16|30|800|4 5 27";

/// Dora of each sort, and the han of a drawn closed hand with them.
const DORA: [([u8; 3], u8); 7] = [
    ([0, 0, 0], 3),
    ([1, 0, 0], 4),
    ([0, 1, 0], 4),
    ([0, 0, 1], 4),
    ([0, 0, 2], 5),
    ([0, 0, 3], 6),
    ([2, 3, 1], 9),
];

fn is_worth(score: &Score, line: &str) -> bool {
    [score.han, score.fu] == [number(field(line, 4)), number(field(line, 5))]
        && has_base(score.base, field(line, 6))
        && has_just(score, numbers(field(line, 7)))
}

fn has_base(base: u32, tens: &str) -> bool {
    tens.parse() == Ok(base / 10) && base % 10 == 0
}

/// Three numbers that spaces part.
fn three(text: &str) -> [u8; 3] {
    [
        number(word(text, 0)),
        number(word(text, 1)),
        number(word(text, 2)),
    ]
}

struct BestReading;

impl Question for BestReading {
    fn holds(alloc: Global, line: &str) -> bool {
        match score(
            alloc,
            field(line, 0),
            field(line, 1),
            field(line, 2),
            three(field(line, 3)),
        ) {
            Ok(Some(score)) => is_worth(&score, line),
            _ => false,
        }
    }
}

#[test]
fn hands_are_worth_their_best_reading(rt: HostRuntime) {
    ask::<HostRuntime, BestReading>(&rt, rt.alloc(), WORTH);
}

/// Whether dora alone is no yaku.
fn dora_is_no_yaku(alloc: Global) -> bool {
    matches!(
        score(alloc, "do", "234m 456p 78933s", "9s", [3, 0, 1]),
        Ok(None)
    )
}

/// Whether each dora of whatever sort is one han.
fn each_dora_counts(alloc: Global) -> bool {
    let mut right = true;
    for (dora, told) in DORA {
        right = right && han(alloc, dora) == Some(told);
    }
    right
}

/// The han of a drawn closed hand with these dora; None where it is worth nothing.
fn han(alloc: Global, dora: [u8; 3]) -> Option<u8> {
    match score(alloc, "d", "234567m 456p 33678s", "7m", dora) {
        Ok(Some(score)) => Some(score.han),
        _ => None,
    }
}

#[test]
fn each_dora_of_whatever_sort_is_one_han_beside_a_yaku(rt: HostRuntime) {
    assert!(rt; dora_is_no_yaku(rt.alloc()) && each_dora_counts(rt.alloc()));
}
