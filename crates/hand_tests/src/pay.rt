use crate::words::ask;
use mj_pay::{base, deposit, draw_deltas, ron_deltas, tsumo_deltas};
use std::alloc::Global;
use test_words::{Question, field, number};

/// Han, fu and the base points in tens: below 5 han with the least fu, the most that stay below the limit, and the least that reach it.
const BASES: &str = "\
1|20|16
1|30|24
1|110|88
1|170|136
2|20|32
2|25|40
2|120|192
2|130|200
2|170|200
3|20|64
3|25|80
3|30|96
3|60|192
3|70|200
4|20|128
4|25|160
4|30|192
4|40|200
4|170|200
5|0|200
5|20|200
5|110|200
6|30|300
7|30|300
7|110|300
8|30|400
9|30|400
10|30|400
10|110|400
11|30|600
12|30|600
12|110|600
13|30|800
13|0|800
14|30|800
78|30|800
100|0|800";

struct Row;

impl Question for Row {
    fn holds(_alloc: Global, line: &str) -> bool {
        is_base(
            number(field(line, 0)),
            number(field(line, 1)),
            field(line, 2),
        )
    }
}

fn is_base(han: u8, fu: u8, tens: &str) -> bool {
    if han == 0 || fu > 170 || (han < 5 && fu < 20) {
        return false;
    }
    tens.parse() == Ok(base(han, fu) / 10) && base(han, fu) % 10 == 0
}

#[test]
fn base_points_follow_fu_below_five_han_and_the_limits_from_there(rt: HostRuntime) {
    ask::<HostRuntime, Row>(&rt, rt.alloc(), BASES);
}

/// Whether by ron the target alone pays.
fn targets_pay() -> bool {
    [
        ron_deltas(3, 2, 0, 1920, 0, 0),
        ron_deltas(2, 1, 0, 960, 1, 2),
        ron_deltas(0, 1, 0, 240, 0, 0),
        ron_deltas(2, 1, 3, 8000, 200, 4),
        ron_deltas(1, 0, 0, 2000, 0, 0),
        ron_deltas(3, 1, 3, 1280, 1, 0),
    ] == [
        [0, 0, -7700, 7700],
        [0, -4200, 6200, 0],
        [1500, -1500, 0, 0],
        [0, -92_000, 96_000, 0],
        [-8000, 8000, 0, 0],
        [0, -8000, 0, 8000],
    ]
}

/// Whether to a self-drawn win all others pay.
fn others_pay() -> bool {
    [
        tsumo_deltas(1, 0, 320, 0, 0),
        tsumo_deltas(1, 0, 640, 0, 0),
        tsumo_deltas(0, 0, 960, 2, 1),
        tsumo_deltas(1, 0, 1280, 0, 0),
        tsumo_deltas(3, 2, 8000, 0, 3),
        tsumo_deltas(2, 2, 240, 1, 0),
    ] == [
        [-700, 1500, -400, -400],
        [-1300, 2700, -700, -700],
        [7600, -2200, -2200, -2200],
        [-2600, 5200, -1300, -1300],
        [-8000, -8000, -16_000, 35_000],
        [-600, -600, 1800, -600],
    ]
}

/// Whether the unready pay the ready.
fn unready_pay() -> bool {
    [
        draw_deltas([true, false, false, false]),
        draw_deltas([true, true, false, false]),
        draw_deltas([true, true, true, false]),
        draw_deltas([false, true, false, false]),
        draw_deltas([false, true, false, true]),
        draw_deltas([false, true, true, true]),
        draw_deltas([false, false, false, false]),
        draw_deltas([true, true, true, true]),
    ] == [
        [3000, -1000, -1000, -1000],
        [1500, 1500, -1500, -1500],
        [1000, 1000, 1000, -3000],
        [-1000, 3000, -1000, -1000],
        [-1500, 1500, -1500, 1500],
        [-3000, 1000, 1000, 1000],
        [0, 0, 0, 0],
        [0, 0, 0, 0],
    ]
}

/// Whether a riichi costs its seat a thousand.
fn riichi_costs() -> bool {
    [deposit(0), deposit(1), deposit(2), deposit(3), deposit(4)]
        == [
            [-1000, 0, 0, 0],
            [0, -1000, 0, 0],
            [0, 0, -1000, 0],
            [0, 0, 0, -1000],
            [0, 0, 0, 0],
        ]
}

#[test]
fn each_pays_its_share(rt: HostRuntime) {
    assert!(rt; targets_pay() && others_pay());
    assert!(rt; unready_pay() && riichi_costs());
}
