use crate::words::{ask, bit, case, meld, numbers, reading};
use mj_readings::{Case, is_complete};
use mj_tiles::{Counts, Form, Kind};
use mj_yaku::{YakuSet, complete_has_yaku, han_of, has_yaku, is_closed, yaku};
use std::alloc::Global;
use test_words::{Question, counts, field, kind, number, yes};

/// Of each row its han in a closed and in an open hand, 100 for a yakuman and 0 where it asks for a closed hand, a hand that has the
/// row, and one near to it that doesn't. A hand is its circumstances, or `-`, and its reading, with `q` for a concealed kan among its
/// melds.
const ROWS: &str = "\
0|1|0|r r2m r5p r3s r6s W 0 2m|- r2m r5p r3s r6s W 0 2m
1|2|0|R r2m r5p r3s r6s W 0 2m|r r2m r5p r3s r6s W 0 2m
2|1|0|ri r2m r5p r3s r6s W 0 2m|r r2m r5p r3s r6s W 0 2m
3|1|0|d r2m r5p r3s r6s W 0 2m|do r2m r5p r3s R6s W 0 2m
4|1|0|- r2m r5p r3s r6s W 0 2m|o r2m r5p r3s R6s W 0 2m
5|1|0|- r2m r2m r3s r6s W 0 2m|- r2m r2m r3s r3s W 0 2m
6|1|1|o r2m r5p r3s R6s 2p 0 2m|o r2m r5p r3s R7s 2p 0 2m
7|1|1|- r2m r5p r3s tS 2p 0 2m|- r2m r5p r3s tW 2p 0 2m
8|1|1|- r2m r5p r3s tE 2p 0 2m|- r2m r5p r3s tW 2p 0 2m
9|1|1|o r2m r5p r3s TP 2p 0 2m|o r2m r5p r3s TF 2p 0 2m
10|1|1|o r2m r5p r3s TF 2p 0 2m|o r2m r5p r3s TC 2p 0 2m
11|1|1|q r2m r5p r3s qC 2p 0 2m|q r2m r5p r3s qP 2p 0 2m
12|1|1|dl r2m r5p r3s r6s W 0 2m|dlk r2m r5p r3s r6s W 0 2m
13|1|1|l r2m r5p r3s r6s W 0 2m|lc r2m r5p r3s r6s W 0 2m
14|1|1|dk r2m r5p r3s r6s W 0 2m|d r2m r5p r3s r6s W 0 2m
15|1|1|c r2m r5p r3s r6s W 0 2m|- r2m r5p r3s r6s W 0 2m
16|2|0|- pairs 135m 7p 9s EC|- r2m r2m r3s r3s W 0 2m
17|2|2|o t2m t5p t3s T6s W 4 W|o t2m t5p t3s R6s W 4 W
18|2|2|- t2m t5p t3s r6s W 3 6s|- t2m t5p t3s r6s W 2 3s
19|2|2|o r6s Q2m Q5p Q3s W 4 W|o r6s T2m Q5p Q3s W 4 W
20|2|2|- t2m t2p t2s r6s W 3 6s|- t2m t2p t3s r6s W 3 6s
21|2|2|- pairs 19m 19p 1s EC|- pairs 19m 19p 2s EC
22|2|2|- r2m r5p tP tF C 0 2m|- r2m r5p tP tF W 0 2m
23|2|1|o r2m r2p r6s R2s W 0 2m|o r2m r2p r6s R3s W 0 2m
24|2|1|- r1m r4m r7m r3s W 0 2m|- r1m r4m r6m r3s W 0 2m
25|2|1|- r1m r7p t9s tE W 0 2m|- r1m r7p t1s t9s 9p 0 2m
26|3|2|- r1m r4m r6m tE W 0 2m|- r1m r4m r6m t9m 2m 0 2m
27|3|2|- r1m r7p t1s t9s 9p 0 2m|- r1m r7p t9s tE 9p 0 2m
31|3|0|- r2m r2m r3s r3s W 0 2m|- r2m r2m r3s r4s W 0 2m
32|6|5|o r1m r4m t9m R6m 2m 0 2m|o r1m r4m tE R6m 2m 0 2m
33|100|0|- orphans E|- pairs 19m 19p 19s E
34|100|0|d t2m t5p t3s t6s W 0 2m|- t2m t5p t3s t6s W 0 2m
35|100|100|- r2m tP tF tC W 0 2m|- r2m tE tP tF C 0 2m
36|100|100|- r2m tE tS tW N 0 2m|- r2m tE tS tW P 0 2m
37|100|100|o tE tS tW TN P 4 P|o t2m tE tS TW N 4 N
38|100|100|- pairs ESWNPFC|- pairs 1m ESWNPF
39|100|100|o t1m t9m t1p T9p 1s 4 1s|o t1m t9m t1p T9p E 4 E
40|100|100|o r2s t6s t8s TF 3s 0 2s|o r2s t6s t8s TC 3s 0 2s
41|100|0|- t1m r2m r5m t9m 8m 4 8m|q r2m r5m t9m q1m 8m 4 8m
42|100|100|o Q2m Q5p Q3s Q6s W 4 W|o t2m Q5p Q3s Q6s W 4 W
43|100|0|dfe r2m r5p r3s r6s W 0 2m|df r2m r5p r3s r6s W 0 2m
44|100|0|df r2m r5p r3s r6s W 0 2m|dfe r2m r5p r3s r6s W 0 2m";

/// The rows of a hand, which has a chi, a concealed kan or no meld, as its marks say.
pub(crate) fn yaku_of(hand: &str) -> YakuSet {
    let (marks, text) = match hand.split_once(' ') {
        Some(parts) => parts,
        None => ("", ""),
    };
    let case = case(marks);
    if marks.contains('o') {
        return yaku_beside(text, case, Form::Chi);
    }
    if marks.contains('q') {
        return yaku_beside(text, case, Form::ClosedKan);
    }
    yaku_closed(text, case)
}

fn yaku_beside(text: &str, mut case: Case, form: Form) -> YakuSet {
    let melds = [meld(form, "1m")];
    case.closed = is_closed(&melds);
    yaku(&reading(text), &melds, &case)
}

fn yaku_closed(text: &str, mut case: Case) -> YakuSet {
    case.closed = is_closed(&[]);
    yaku(&reading(text), &[], &case)
}

/// A line of a row tells its han, and the two hands apart.
struct Row;

impl Question for Row {
    fn holds(_alloc: Global, line: &str) -> bool {
        let row = number(field(line, 0));
        has_han(row, number(field(line, 1)), number(field(line, 2)))
            && yaku_of(field(line, 3)).has(row)
            && !yaku_of(field(line, 4)).has(row)
    }
}

fn has_han(row: u8, closed: u8, open: u8) -> bool {
    if row < 28 || (30 < row && row < 45) {
        return han_of(row, true) == closed && han_of(row, false) == open;
    }
    false
}

#[test]
fn each_row_has_its_han_and_its_hand_and_not_the_next(rt: HostRuntime) {
    ask::<HostRuntime, Row>(&rt, rt.alloc(), ROWS);
}

/// Hands and all their rows: a drawn closed pinfu without terminals or honours, equal runs, seven pairs, no row, a yakuman alone, and
/// the first of several. Then hands, whether they are closed, their han, and what their rows are. Then complete hands, the winning
/// tile, how it was won, whether a pon stands beside, and whether they have a yaku: by the draw, by twos to eights, by riichi, or by
/// nothing; and where the winning tile is none of theirs.
const CASES: &str = "\
rows|d r2m r5m r4p r6s 3s 1 7m|3 4 6
rows|- r2m r2m r5p r5p 8s 4 8s|6 31
rows|- pairs 234m 567p 8s|6 16
rows|o r2m r5p r3s R7s 2p 0 2m|
rows|r r2m tP tF tC W 0 2m|35
rows|d t1m t9m t1p t9p 1s 4 1s|34
rows|- orphans E|33
rows|o T1m T9p tW TN 9s 4 9s|17 21
rows|o T1m t9p t1s R7p 9s 4 9s|27
rows|o T1m T9p tW R7p 9s 4 9s|25
rows|- pairs 19m 19p 1s EC|16 21
rows|o tP tF TC TE W 4 W|35
rows|o tE tS tW TN P 4 P|37
rows|d t2s t3s t4s t6s F 4 F|34
rows|- r1m r1m r4m r7m 9m 0 1m|4 5 24 32
rows|o r2m r5p tP TF C 0 2m|9 10 22
rows|R t1m t1p t1s r7s 9m 0 1m|1 20 27
rows|- r2s r2s r6s tC F 0 2s|5 11 26
sum|d r2m r5m r4p r6s 3s 1 7m|closed|3|some
sum|- r2m r2m r5p r5p 8s 4 8s|closed|4|some
sum|- pairs 234m 567p 8s|closed|3|some
sum|o r2m r5p r3s R7s 2p 0 2m|open|0|none
sum|o r1m r4m t9m R6m 2m 0 2m|open|5|some
sum|- orphans E|closed|100|yakuman
complete|234567m 456p 33678s|7m|d|no|yes
complete|234567m 456p 33678s|7m|-|no|yes
complete|234567m 456p 33678s|9m|-|no|no
complete|123m 456p 234789s EE|2m|-|no|no
complete|123m 456p 234789s EE|2m|r|no|yes
complete|234m 456p 33789s|9s|d|pon|no
complete|234m 456p 33678s|8s|d|pon|no";

struct Hand;

impl Question for Hand {
    fn holds(_alloc: Global, line: &str) -> bool {
        match field(line, 0) {
            "rows" => has_just(yaku_of(field(line, 1)), numbers(field(line, 2))),
            "sum" => is_told_sum(line),
            _ => is_told_win(line),
        }
    }
}

fn is_told_sum(line: &str) -> bool {
    has_sum(
        yaku_of(field(line, 1)),
        field(line, 2) == "closed",
        number(field(line, 3)),
        field(line, 4),
    )
}

fn is_told_win(line: &str) -> bool {
    let (win, case) = (kind(field(line, 2)), case(field(line, 3)));
    match field(line, 4) {
        "pon" => wins_beside(&counts(field(line, 1)), win, case, yes(field(line, 5))),
        _ => wins_closed(&counts(field(line, 1)), win, case, yes(field(line, 5))),
    }
}

/// Whether a set has just the rows of these numbers.
fn has_just(found: YakuSet, rows: u64) -> bool {
    let mut right = true;
    for row in 0..46 {
        right = right && found.has(row) == (rows & bit(row) != 0);
    }
    right
}

fn has_sum(set: YakuSet, closed: bool, han: u8, rows: &str) -> bool {
    set.han(closed) == han
        && set.is_empty() == (rows == "none")
        && set.is_yakuman() == (rows == "yakuman")
}

/// Whether a hand is complete beside a pon, and has a yaku or none, whichever way that is asked.
fn wins_beside(held: &Counts, win: Kind, mut case: Case, told: bool) -> bool {
    let melds = [meld(Form::Pon, "1m")];
    case.closed = is_closed(&melds);
    is_complete(held, 1)
        && complete_has_yaku(held, &melds, win, &case) == told
        && has_yaku(held, &melds, win, &case) == told
}

/// Whether that is so of a hand without melds.
fn wins_closed(held: &Counts, win: Kind, mut case: Case, told: bool) -> bool {
    case.closed = is_closed(&[]);
    is_complete(held, 0)
        && complete_has_yaku(held, &[], win, &case) == told
        && has_yaku(held, &[], win, &case) == told
}

#[test]
fn hands_have_all_their_rows_and_a_yaku_or_none(rt: HostRuntime) {
    ask::<HostRuntime, Hand>(&rt, rt.alloc(), CASES);
}
