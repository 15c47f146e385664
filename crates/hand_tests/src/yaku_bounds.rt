use crate::words::ask;
use crate::yaku::yaku_of;
use std::alloc::Global;
use test_words::{Question, field, number, yes};

/// A row, whether a hand has it, and the hand, as `yaku` has them: how a hand was won.
const WINS: &str = "\
0|yes|rq r2m r5p r3s q1m W 0 2m
0|no|R r2m r5p r3s r6s W 0 2m
0|no|ro r2m r5p r3s R6s W 0 2m
1|no|- r2m r5p r3s r6s W 0 2m
1|no|Ro r2m r5p r3s R6s W 0 2m
2|no|rio r2m r5p r3s R6s W 0 2m
3|yes|dq r2m r5p r3s q1m W 0 2m
3|no|- r2m r5p r3s r6s W 0 2m
12|yes|dlo r2m r5p r3s R6s W 0 2m
12|no|d r2m r5p r3s r6s W 0 2m
12|no|l r2m r5p r3s r6s W 0 2m
13|yes|lo r2m r5p r3s R6s W 0 2m
13|no|- r2m r5p r3s r6s W 0 2m
13|no|dl r2m r5p r3s r6s W 0 2m
14|yes|dko r2m r5p r3s R6s W 0 2m
14|no|k r2m r5p r3s r6s W 0 2m
15|yes|co r2m r5p r3s R6s W 0 2m
15|no|dc r2m r5p r3s r6s W 0 2m
43|no|fe r2m r5p r3s r6s W 0 2m
43|no|de r2m r5p r3s r6s W 0 2m
43|no|dfeo r2m r5p r3s R6s W 0 2m
44|yes|dfw r2m r5p r3s r6s W 0 2m
44|yes|dfn r2m r5p r3s r6s W 0 2m
44|no|f r2m r5p r3s r6s W 0 2m
44|no|d r2m r5p r3s r6s W 0 2m
44|no|dfo r2m r5p r3s R6s W 0 2m";

/// Pinfu: the form of each set, the value of the pair, and the wait; and equal runs.
const RUNS: &str = "\
4|yes|- r2m r5p r3s r6s W 0 4m
4|no|- r2m r5p r3s r6s W 0 3m
4|yes|- r2m r5p r3s r6s W 1 7p
4|yes|- r2m r5p r3s r6s W 2 5s
4|yes|- r2m r5p r3s r6s W 3 8s
4|no|- r2m r5p r3s r6s W 4 W
4|yes|- r1m r5p r3s r6s W 0 1m
4|no|- r1m r5p r3s r6s W 0 3m
4|yes|- r6m r5p r3s r6s W 0 6m
4|yes|- r6m r5p r3s r6s W 0 8m
4|no|- r7m r5p r3s r6s W 0 7m
4|yes|- r7m r5p r3s r6s W 0 9m
4|no|- r2m r1p r3s r6s W 1 3p
4|no|- r2m r5p r7s r6s W 2 7s
4|no|- t2m r5p r3s r6s W 1 5p
4|no|- r2m t5p r3s r6s W 0 2m
4|no|- r2m r5p t3s r6s W 0 2m
4|no|- r2m r5p r3s t6s W 0 2m
4|no|q r2m r5p r3s q1m W 0 2m
4|no|- pairs 135m 7p 9s EC
4|yes|- r2m r5p r3s r6s N 0 2m
4|no|- r2m r5p r3s r6s P 0 2m
4|no|- r2m r5p r3s r6s F 0 2m
4|no|- r2m r5p r3s r6s C 0 2m
4|no|- r2m r5p r3s r6s S 0 2m
4|no|- r2m r5p r3s r6s E 0 2m
4|yes|e r2m r5p r3s r6s S 0 2m
4|no|es r2m r5p r3s r6s S 0 2m
4|no|w r2m r5p r3s r6s W 0 2m
5|yes|- r2m r3s r6s r2m W 0 2m
5|yes|- r2m r2m r2m r6s W 0 2m
5|no|- r2m r2p r3s r6s W 0 2m
5|no|- r2m r2m r2m r2m W 0 2m
5|no|o r2m r2m r3s R6s W 0 2m
31|yes|- r2m r3s r3s r2m W 0 2m
31|yes|- r2m r2m r2m r2m W 0 2m
31|no|- r2m r2m r2m r6s W 0 2m
31|no|- r2m r2m t5p r3s W 0 2m
31|no|o r2m r2m r3s R3s W 0 2m";

/// Sets alike in three suits, and straights.
const SUITS: &str = "\
20|yes|- t1m t1p t1s r6s W 3 6s
20|yes|- t9m t9p t9s r6s W 3 6s
20|yes|o t2m t2p Q2s r6s W 3 6s
20|no|- t3m t2p t2s r6s W 3 6s
20|no|- t2m t3p t2s r6s W 3 6s
20|no|- t2m t3p t4s r6s W 3 6s
20|no|- t2m t2p r2s r6s W 3 6s
20|no|- tE tS tW r6s 2p 3 6s
23|yes|- r1m r1p r1s r6s W 3 6s
23|yes|- r7m r7p r7s r2s W 3 2s
23|no|- r3m r2p r2s r6s W 3 6s
23|no|- r2m r3p r2s r6s W 3 6s
23|no|- r2m r2p t2s r6s W 3 6s
24|yes|- r1p r4p r7p r3s W 3 3s
24|yes|- r1s r4s r7s r3m W 3 3m
24|no|- r2m r4m r7m r3s W 3 3s
24|no|- r1m r5m r7m r3s W 3 3s
24|no|- r1m r4p r7m r3s W 3 3s
24|no|- r1m r4p r7s r3s W 3 3s";

/// Tiles of one class in the whole hand: twos to eights, terminals, honours, green tiles, one suit.
const CLASSES: &str = "\
6|yes|- r2m r6m r2p r6p 8s 0 2m
6|yes|- t2m t8m r2p r6p 2s 2 2p
6|yes|o r2m r6m r2p Q8p 5s 0 2m
6|yes|- pairs 258m 28p 28s
6|no|- r1m r6m r2p r6p 8s 0 1m
6|no|- r2m r7m r2p r6p 8s 0 2m
6|no|- r2m r6m r1p r6p 8s 0 2m
6|no|- r2m r6m r2p r7p 8s 0 2m
6|no|- r2m r6m r2p r6p 1s 0 2m
6|no|- r2m r6m r2p r6p 9s 0 2m
6|no|- r2m r6m r2p r6p E 0 2m
6|no|- r2m r6m r2p r6p C 0 2m
6|no|- t9m r6m r2p r6p 8s 1 6m
6|no|- pairs 258m 28p 29s
6|no|- pairs 258m 28p 2s E
21|yes|o T1m T9p tW TN 9s 4 9s
21|no|o T1m T9p tW T2s 9s 4 9s
21|no|o T1m T9p tW TN 8s 4 8s
21|no|o T1m T9p tW R7p 9s 4 9s
26|yes|- r1p r4p r6p tE W 0 1p
26|yes|- r1s r4s r6s tE W 0 1s
26|yes|- r1m r4m r6m t9m W 0 1m
26|yes|- pairs 1359m ESW
26|no|- r1m r4m r6p tE W 0 1m
26|no|- pairs 135m 9p ESW
32|yes|- r1p r4p t9p r6p 2p 0 1p
32|yes|- pairs 2345678s
32|no|o r1m r4m t9m R6p 2m 0 1m
32|no|- r1m r4m t9m r6m W 0 1m
38|yes|o tE tS TN TF C 4 C
38|no|o tE tS TN T1m C 4 C
38|no|o tE tS TN TF 1m 4 1m
39|no|o t1m t9m t1p T9p 2s 4 2s
39|no|o t1m t9m t1p T8p 1s 4 1s
39|no|o t1m t9m t1p R7p 1s 4 1s
40|yes|o r2s t6s t8s T4s 3s 4 3s
40|yes|o t2s t3s T4s T6s 8s 4 8s
40|yes|o r2s t6s t8s T4s F 4 F
40|no|o r2s t6s t8s T5s 3s 4 3s
40|no|o r2s t6s t8s TF 5s 4 5s
40|no|o r3s t6s t8s TF 2s 4 2s
40|no|o r2s t6s t8s T1s 3s 4 3s
40|no|o r2s t6s t8s T7s 3s 4 3s
40|no|o r2s t6s t8s T9s 3s 4 3s
40|no|o r2s t6s t8s TP 3s 4 3s
40|no|o r2s t6s t8s TE 3s 4 3s
40|no|o r2m t6s t8s TF 3s 4 3s
40|no|o r2p t6s t8s TF 3s 4 3s
41|yes|- t1p r2p r5p t9p 8p 4 8p
41|yes|- t1s r2s r5s t9s 8s 4 8s
41|yes|- t1m r1m r4m r7m 9m 4 9m
41|no|- r1m r1m r4m r7m 9m 4 9m
41|no|- r1m r4m r7m r7m 1m 4 1m
41|no|- t1m r3m r6m t9m 3m 4 3m
41|no|- t1m r2m r6m t9m 4m 4 4m
41|no|- t1m r2m r5m t9m 7m 4 7m
41|no|- t1m r2m r5m t9m 8p 4 8p
41|no|o t1m r2m r5m T9m 8m 4 8m";

/// Terminals and honours in each set and the pair.
const ENDS: &str = "\
25|yes|- r1m r7p t9s t1s W 0 1m
25|no|- r2m r7p t9s tE W 0 2m
25|no|- r1m r6p t9s tE W 0 1m
25|no|- r1m r7p t8s tE W 0 1m
25|no|- r1m r7p t9s t5s W 0 1m
25|no|- r1m r7p t9s tE 5p 0 1m
25|no|o T1m T9p tW TN 9s 4 9s
25|no|o T1m T9p t9s TN W 4 W
25|no|- pairs 19m 19p 1s EC
27|yes|o T1m t9p t1s R7p 9s 4 9s
27|no|- r2m r7p t1s t9s 9p 0 2m
27|no|- r1m r6p t1s t9s 9p 0 1m
27|no|- r1m r7p t2s t9s 9p 0 1m
27|no|- r1m r7p t1s t8s 9p 0 1m
27|no|- r1m r7p t1s t9s 8p 0 1m
27|no|- r1m r7p t1s t9s W 0 1m";

/// Triplets, kans and pairs.
const SETS: &str = "\
7|yes|o r2m r5p r3s QS 2p 0 2m
7|yes|e r2m r5p r3s tE 2p 0 2m
7|yes|w r2m r5p r3s tW 2p 0 2m
7|yes|n r2m r5p r3s tN 2p 0 2m
7|no|e r2m r5p r3s tS 2p 0 2m
7|no|- r2m r5p r3s r6s S 0 2m
8|yes|es r2m r5p r3s tS 2p 0 2m
8|no|s r2m r5p r3s tE 2p 0 2m
8|no|- r2m r5p r3s tS 2p 0 2m
8|no|- r2m r5p r3s r6s E 0 2m
9|no|o r2m r5p r3s TC 2p 0 2m
9|no|- r2m r5p r3s r6s P 0 2m
10|no|o r2m r5p r3s TP 2p 0 2m
10|no|- r2m r5p r3s r6s F 0 2m
11|no|o r2m r5p r3s TF 2p 0 2m
11|no|- r2m r5p r3s r6s C 0 2m
16|no|o pairs 135m 7p 9s EC
17|yes|o Q2m t5p t3s T6s W 4 W
17|no|o r2m t5p t3s T6s W 4 W
17|no|o t2m r5p t3s T6s W 4 W
17|no|o t2m t5p r3s T6s W 4 W
17|no|- pairs 135m 7p 9s EC
18|yes|d t2m t5p t3s r6s W 2 3s
18|yes|q t2m t5p r6s q1m W 2 6s
18|yes|- t2m t5p t3s t6s W 0 2m
18|yes|o t2m t5p t3s T6s W 4 W
18|no|o t2m t5p T3s r6s W 3 6s
18|no|o t2m t5p t3s T6s W 0 2m
19|yes|q r6s q2m q5p q1m W 4 W
22|yes|- r2m r5p tP tC F 0 2m
22|yes|- r2m r5p tF tC P 0 2m
22|yes|o r2m r5p QP tF C 0 2m
22|no|- r2m r5p r3s tP C 0 2m
22|no|- r2m r5p r3s tP F 0 2m
22|no|- r2m r5p r3s tC P 0 2m
22|no|- r2m r5p tF tC 5s 0 2m
34|yes|- t2m t5p t3s t6s W 4 W
34|yes|q t2m t5p t3s q1m W 4 W
34|no|- t2m t5p t3s t6s W 1 5p
34|no|- t2m t5p t3s t6s W 2 3s
34|no|- t2m t5p t3s t6s W 3 6s
34|no|o t2m t5p t3s T6s W 4 W
35|yes|o r2m QP QF TC W 0 2m
35|no|- r2m tE tF tC P 0 2m
35|no|- r2m tP tE tC F 0 2m
36|yes|- r2m tE tS tN W 0 2m
36|yes|- r2m tE tW tN S 0 2m
36|yes|- r2m tS tW tN E 0 2m
36|no|- r2m t5p tE tS W 0 2m
37|no|o tE tS tW TP N 4 N
42|yes|o Q2m q5p q3s q6s W 4 W
42|no|o T2m Q5p Q3s Q6s W 4 W";

/// The hand has the row or not, as the line says.
struct Row;

impl Question for Row {
    fn holds(_alloc: Global, line: &str) -> bool {
        yaku_of(field(line, 2)).has(number(field(line, 0))) == yes(field(line, 1))
    }
}

const ALL: [&str; 6] = [WINS, RUNS, SUITS, CLASSES, ENDS, SETS];

#[test]
fn each_row_ends_where_its_rule_does(rt: HostRuntime) {
    for rows in ALL {
        ask::<HostRuntime, Row>(&rt, rt.alloc(), rows);
    }
}
