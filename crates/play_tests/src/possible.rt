use crate::play::ask_games;

/// The first draw of a wall in tile order: seat 0 holds four of three kinds, and the others may pass alone.
const FIRST: &str = "\
game
hand|F|1111222233334m|4445555666677m|7788889999m 111p|1222233334444p
draw 0 5p
possible 0? discard 0 1m, discard 0 2m, discard 0 3m, discard 0 4m, cut 0 5p, closed 0 1m 1m 1m 1m, closed 0 2m 2m 2m 2m, closed 0 3m 3m 3m 3m, reach 0
possible 1? pass
possible 2? pass
possible 3? pass
reach 0
possible 0? discard 0 1m, discard 0 4m, cut 0 5p";

/// A chi with three pairs of own tiles, and after it what swap calling leaves; a pon and a kan of the same discard.
const CALLS: &str = "\
game
hand|P|4m|12356m P|444m C|1p
discard 0 4m
possible 0? pass
possible 1? pass, chi 1 0 4m 2m 3m, chi 1 0 4m 3m 5m, chi 1 0 4m 5m 6m
possible 2? pass, pon 2 0 4m 4m 4m, open 2 0 4m 4m 4m 4m
possible 3? pass
chi 1 0 4m 2m 3m
possible 0? pass
possible 1? discard 1 5m, discard 1 6m, discard 1 P";

/// A pon with the red five and without, the kan of all four, and chis with the plain five and the red one.
const RED: &str = "\
game red
hand|P|5m 1s|1s|055m P|46m 1s
discard 0 5m
possible 1? pass
possible 2? pass, pon 2 0 5m 5m 5m, pon 2 0 5m 5m 5mr, open 2 0 5m 5m 5m 5mr
draw 2 P
discard 2 5mr
possible 3? pass, chi 3 2 5mr 4m 6m";

/// A discard of the drawn face unmarked and marked, where the seat holds another; the drawn tile alone marked.
const MARKS: &str = "\
game
hand|P|1155m|1p|1p|1p
draw 0 1m
possible 0? discard 0 1m, cut 0 1m, discard 0 5m
discard 0 5m
draw 0 5p
possible 0? discard 0 1m, discard 0 5m, cut 0 5p";

/// A seat in riichi discards what it drew, makes the kan that leaves its waits, and wins.
const RIICHI: &str = "\
game
hand|P|1p|123456m 11p 555s EE P|1s|1m
reach 1
discard 1 P
accepted|1|30000 29000 30000 30000
draw 1 9p
possible 1? cut 1 9p
cut 1 9p
draw 0 1m
discard 0 1m
possible 1? pass
draw 1 5s
possible 1? cut 1 5s, closed 1 5s 5s 5s 5s
cut 1 5s
draw 1 E
possible 1? cut 1 E, ron 1 1";

/// Nine kinds with the draw reasons, and without.
const NINE: &str = "\
game draws
hand|P|19m 19p 19s ESW 2222m|1s|1s|1s
draw 0 5p
possible 0? discard 0 1m, discard 0 2m, discard 0 9m, discard 0 1p, cut 0 5p, discard 0 9p, discard 0 1s, discard 0 9s, discard 0 E, discard 0 S, discard 0 W, closed 0 2m 2m 2m 2m, nine 0";

const NO_NINE: &str = "\
game
hand|P|19m 19p 19s ESW 2222m|1s|1s|1s
draw 0 5p
possible 0? discard 0 1m, discard 0 2m, discard 0 9m, discard 0 1p, cut 0 5p, discard 0 9p, discard 0 1s, discard 0 9s, discard 0 E, discard 0 S, discard 0 W, closed 0 2m 2m 2m 2m";

/// A tile that is added to a pon, and another seat's win on it.
const ROBBED: &str = "\
game
hand|P|3m 44m P|23m 234p 567p 88p 345s|1p|4m
discard 3 4m
pon 0 3 4m 4m 4m
discard 0 P
draw 1 1s
cut 1 1s
draw 0 4m
possible 0? discard 0 3m, cut 0 4m, added 0 4m 4m 4m 4m
added 0 4m 4m 4m 4m
possible 0? pass
possible 1? pass, ron 1 0
possible 2? pass";

/// A call that would leave nothing to discard isn't listed.
const STUCK: &str = "\
game
hand|P|3m|456m|1p|333m
discard 0 3m
possible 1? pass
possible 3? pass, open 3 0 3m 3m 3m 3m";

/// A ron is listed until a wait was let pass, and a chi all the while.
const FURITEN: &str = "\
game
hand|P|3366m|45m 234p 567p 88p 345s|1s|1p
discard 0 3m
possible 1? pass, chi 1 0 3m 4m 5m, ron 1 0
draw 1 1s
cut 1 1s
discard 0 6m
possible 1? pass, chi 1 0 6m 4m 5m, ron 1 0
discard 0 3m
possible 1? pass, chi 1 0 3m 4m 5m";

const GAMES: [&str; 10] = [
    FIRST, CALLS, RED, MARKS, RIICHI, NINE, NO_NINE, ROBBED, STUCK, FURITEN,
];

#[test]
fn the_possible_answers_are_the_lawful_ones_in_turn(rt: HostRuntime) {
    ask_games(&rt, rt.alloc(), &GAMES);
}
