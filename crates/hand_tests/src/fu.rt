use crate::words::{ask, case, reading};
use mj_fu::{fu, is_concealed_at, is_dragon, is_pinfu, is_run};
use mj_readings::{Case, Reading, Set, SetForm};
use mj_tiles::Kind;
use std::alloc::Global;
use test_words::{Question, field, number};

/// Circumstances, a reading, its fu, and whether it is a pinfu. The third and the fourth have the pair of one wind of the two, and
/// that of both.
const FU: &str = "\
d|r2m r5p r3s r6s S 0 3m|30|no
de|r2m r5p r3s r6s E 0 3m|30|no
d|r2m t5p r3s r6s S 0 3m|30|no
de|r2m t5p r3s r6s E 0 3m|40|no
d|r2m r5p r3s r6s W 0 2m|20|pinfu
|r2m r5p r3s r6s W 0 2m|30|pinfu
o|r2m r5p r3s R6s W 0 2m|30|no
|r2m t5p r3s r6s W 1 5p|40|no
o|t1m t9p tE Q5s W 2 E|50|no
|qE qP q1m q9s C 4 C|170|no
|r2m t5p r6s tW N 1 5p|40|no
do|r2m r5p r3s Q5s N 0 2m|30|no
|r2m r5p r3s q5s N 0 2m|50|no
do|r2m r5p r3s Q9s N 0 2m|40|no
d|r2m r5p r3s qW N 0 2m|60|no
d|pairs 12m 35p 79s E|25|no
d|orphans E|0|no";

/// Rows whose sums are whole tens, and then rows whose sums are 2 above: of each form and place of a triplet and of a kan, of
/// each pair and wait, of each way to win.
const PARTS: &str = "\
o|T2m t9p r3s r6s W 2 5s|30|no
o|T2m t9p r3s r6s W 2 4s|40|no
do|t2m T9p r3s r6s W 2 5s|30|no
do|t2m T9p r3s r6s W 2 4s|40|no
do|t8m T1p r3s r6s W 2 5s|30|no
do|t8m T1p r3s r6s W 2 4s|40|no
do|t9p R2m r3s r6s W 2 5s|30|no
do|t9p R2m r3s r6s W 2 4s|40|no
do|t1s R2m r3s r6s W 2 5s|30|no
do|tN R2m r3s r6s 5p 2 5s|30|no
do|tN R2m r3s r6s 5p 2 4s|40|no
do|TC t2m r3s r6s 5p 2 5s|30|no
do|TC t2m r3s r6s 5p 2 4s|40|no
do|Q2m R2p r3s r6s W 2 5s|30|no
do|Q2m R2p r3s r6s W 2 4s|40|no
d|q2m r2p r3s r6s W 2 4s|40|no
d|q2m r2p r3s r6s P 2 4s|50|no
do|Q1m R2p r3s r6s W 2 4s|40|no
do|Q1m R2p r3s r6s P 2 4s|50|no
do|QF R2p r3s r6s W 2 4s|40|no
do|QF R2p r3s r6s P 2 4s|50|no
de|q9s r2p r3s r6s E 1 3p|60|no
d|q9s tC r3s r6m W 2 5s|70|no
de|qW r2p r3s r6s E 1 3p|60|no
d|qW tC r3s r6s 5m 2 5s|70|no
do|t2m r5p r3s R6s P 1 6p|30|no
|r2m r5p r3s r6s P 0 2m|40|no
do|t2m r5p r3s R6s F 1 6p|30|no
|r2m r5p r3s r6s F 0 2m|40|no
do|t2m r5p r3s R6s C 1 6p|30|no
|r2m r5p r3s r6s C 0 2m|40|no
do|t2m r5p r3s R6s S 1 6p|30|no
|r2m r5p r3s r6s S 0 2m|40|no
do|t2m r5p r3s R6s E 1 6p|30|no
|r2m r5p r3s r6s E 0 2m|40|no
dos|t2m r5p r3s R6s S 1 5p|30|no
dos|t2m r5p r3s R6s S 1 6p|40|no
des|t9m r5p r3s r6s N 1 5p|30|no
|r2m r5p r3s r6s N 0 2m|30|pinfu
|r2m r5p r3s r6s N 4 N|40|no
|r2m r5p r3s r6s N 0 3m|40|no
|r1m r5p r3s r6s N 0 3m|40|no
|r1m r5p r3s r6s N 0 1m|30|pinfu
|r7m r5p r3s r6s N 0 7m|40|no
|r7m r5p r3s r6s N 0 9m|30|pinfu
|r6p r5m r3s r6s N 0 6p|30|pinfu
do|t2m T9p r3s r6s W 0 2m|30|no
do|t7m T9p r3s r6s W 0 7m|30|no
o|t9p R2m r3s t2s W 3 2s|30|no
do|r2m r5p r3s R6s W 0 2m|30|no
d|r2m r5p r3s r6s W 0 3m|30|no
d|pairs 12m 35p 79s E|25|no
|pairs 12m 35p 79s E|25|no";

struct Row;

impl Question for Row {
    fn holds(_alloc: Global, line: &str) -> bool {
        has_fu(
            &reading(field(line, 1)),
            &case(field(line, 0)),
            number(field(line, 2)),
            field(line, 3),
        )
    }
}

fn has_fu(reading: &Reading, case: &Case, told: u8, pinfu: &str) -> bool {
    fu(reading, case) == told && is_pinfu(reading, case) == (pinfu == "pinfu")
}

#[test]
fn the_parts_of_a_hand_are_added_and_rounded_up(rt: HostRuntime) {
    ask::<HostRuntime, Row>(&rt, rt.alloc(), FU);
    ask::<HostRuntime, Row>(&rt, rt.alloc(), PARTS);
}

fn set(form: SetForm) -> Set {
    Set {
        form,
        low: Kind::at(13),
        shown: false,
    }
}

fn forms_are_apart() -> bool {
    let (run, triplet) = (set(SetForm::Run), set(SetForm::Triplet));
    let by_ron = case("");
    [
        is_concealed_at(1, 1, &by_ron, &triplet),
        is_concealed_at(0, 1, &by_ron, &triplet),
        is_run(&triplet),
        is_run(&run),
        is_dragon(Kind::at(30)),
        is_dragon(Kind::at(31)),
    ] == [false, true, false, true, false, true]
}

#[test]
fn forms_are_told_apart(rt: HostRuntime) {
    assert!(rt; forms_are_apart());
}
