use crate::play::ask_games;

/// Seat 0 holds 1m and 5m twice and draws 5p: lines, seats and tiles that are none, and the mark of the drawn tile.
const DRAWN: &str = "\
game
hand|P|1155m|1p|1p|1p
draw 0 5p
judge 1 unread? Unreadable
judge 1 pass 0? NotYours
judge 0 cut 1 5p? NotYours
judge 0 pass? NotNow
judge 1 discard 1 1p? NotNow
judge 0 discard 0 5mr? NoSuchTile
judge 0 cut 0 *? NoSuchTile
judge 0 discard 0 2m? NotHeld
judge 0 cut 0 1m? NotDrawn
judge 0 discard 0 5p? NotDrawn
judge 1 pass 1? lawful
judge 1 pass? lawful
judge 0 cut 0 5p? lawful
judge 0 discard 0 1m? lawful
default 0? cut 0 5p
default 1? pass";

/// A red five in a game that has it, and a drawn tile that the seat holds once more.
const RED: &str = "\
game red
hand|P|1105m|1p|1p|1p
draw 0 1m
judge 0 discard 0 5mr? lawful
judge 0 discard 0 5m? lawful
judge 0 discard 0 1m? lawful
judge 0 cut 0 1m? lawful
judge 0 cut 0 5mr? NotDrawn
default 0? cut 0 1m
discard 0 5m
judge 1 chi 1 0 5m 4m 5mr? NotHeld";

/// Seat 0 discards 3m, which seat 1 could take for a run and seat 2 for a triplet; seat 1 takes it, and may not
/// discard 6m.
const CALLED: &str = "\
game
hand|P|3m|456m S F|3345m|E
discard 0 3m
judge 1 chi 1 3 3m 4m 5m? WrongTarget
judge 1 chi 1 0 6m 4m 5m? WrongTarget
judge 1 chi 1 0 3m 4m 5mr? NoSuchTile
judge 1 chi 1 0 3m 4m 7m? NotHeld
judge 1 chi 1 0 3m 7m 8m? NotHeld
judge 1 chi 1 0 3m 4m F? BadSet
judge 2 chi 2 0 3m 4m 5m? NotLeft
judge 2 pon 2 0 3m 3m 4m? BadSet
judge 2 open 2 0 3m 3m 3m 3m? NotHeld
judge 0 open 0 0 3m 3m 3m 3m? NotNow
judge 1 chi 1 0 3m 4m 5m? lawful
judge 2 pon 2 0 3m 3m 3m? lawful
chi 1 0 3m 4m 5m
judge 1 discard 1 3m? NotHeld
judge 1 discard 1 6m? SwapCall
judge 1 cut 1 F? NotDrawn
judge 1 pass? NotNow
judge 2 pon 2 0 3m 3m 3m? NotNow
judge 1 discard 1 F? lawful
judge 1 discard 1 S? lawful
judge 0 pass? lawful
default 1? discard 1 F
default 2? pass";

/// Seat 1 takes 3m for a run, and the last of its tiles in order, 6m, is one that it may not discard.
const LAST_BANNED: &str = "\
game
hand|P|3m|14566m|1p|E
discard 0 3m
chi 1 0 3m 4m 5m
judge 1 discard 1 6m? SwapCall
judge 1 discard 1 1m? lawful
default 1? discard 1 1m";

/// What seat 1 could take 3m with leaves it nothing but 6m, and seat 3 would be left with 3m alone.
const STUCK: &str = "\
game
hand|P|3m|456m|1p|333m
discard 0 3m
judge 1 chi 1 0 3m 4m 5m? StuckCall
judge 3 pon 3 0 3m 3m 3m? StuckCall
judge 3 open 3 0 3m 3m 3m 3m? lawful";

/// The discard after the last live tile can't be called, and the one before it can.
const LAST_TILE: &str = "\
game
hand|P|33m|45m F|E|E
draws 69
discard 0 3m
judge 1 chi 1 0 3m 4m 5m? lawful
draw 3 C
live? 0
discard 0 3m
judge 1 chi 1 0 3m 4m 5m? LastTile
judge 1 chi 1 0 3m 4m 7m? LastTile
judge 1 pass? lawful";

/// A kan is of four tiles alike, or of a fourth tile and an own pon.
const ALIKE: &str = "\
game
hand|P|3m EEE|1p|1p|1p
draw 0 E
judge 0 closed 0 E E E E? lawful
judge 0 closed 0 E E E 3m? BadSet
judge 0 added 0 E E E E? BadSet
judge 0 added 0 4m E E E? NotHeld";

const ADDED: &str = "\
game
hand|P|3m EE|1p|1p|E
discard 3 E
pon 0 3 E E E
draw 0 E
judge 0 added 0 E E E E? lawful
judge 0 added 0 3m E E E? BadSet";

/// A kan wants a live tile.
const DRY: &str = "\
game
hand|P|EEEE|S|S|S
draws 68
draw 0 F
judge 0 closed 0 E E E E? lawful
draw 0 C
judge 0 closed 0 E E E E? KanDry";

/// Seat 3 has made four kans.
const FULL: &str = "\
game
hand|P|3m EEE|4m|333m C|1111222233334444p
closed 3 1p 1p 1p 1p
closed 3 2p 2p 2p 2p
closed 3 3p 3p 3p 3p
closed 3 4p 4p 4p 4p
draw 0 E
judge 0 closed 0 E E E E? KanFull
discard 0 3m
judge 2 open 2 0 3m 3m 3m 3m? KanFull
judge 2 pon 2 0 3m 3m 3m? lawful";

/// A seat in riichi discards the drawn tile alone, marked so, and calls nothing.
const LOCKED: &str = "\
game
hand|P|1p|123456m 11p 555s EE P|1s|1m
reach 1
discard 1 P
accepted|1|30000 29000 30000 30000
draw 1 9p
judge 1 discard 1 1m? Locked
judge 1 discard 1 9p? NotDrawn
judge 1 cut 1 1m? NotDrawn
judge 1 reach 1? NotNow
judge 1 nine 1? NotNow
judge 1 cut 1 9p? lawful
default 1? cut 1 9p
cut 1 9p
draw 0 1m
discard 0 1m
judge 1 chi 1 0 1m 2m 3m? Locked
judge 1 chi 1 0 1m 2m 9m? NotHeld
judge 1 pass? lawful
draw 1 5s
judge 1 closed 1 5s 5s 5s 5s? lawful
judge 1 closed 1 5s 5s 5s E? BadSet";

/// The kan of 5s would take a wait, and that of E leaves it.
const CHANGING: &str = "\
game
hand|P|1p|123m 11p 34555s EEE P|1s|1m
reach 1
discard 1 P
accepted|1|30000 29000 30000 30000
draw 1 5s
judge 1 closed 1 5s 5s 5s 5s? RiichiKan
cut 1 5s
draw 1 E
judge 1 closed 1 5s 5s 5s 5s? NotHeld
judge 1 closed 1 E E E E? lawful";

/// A reach wants a closed hand, and leaves it ready by its discard.
const REACHES: &str = "\
game
hand|P|1155m 5p|123456m 11p 355s EE|1s|1p
draw 0 5p
judge 0 reach 0? ReachUnready
judge 0 reach 1? NotYours
judge 1 reach 1? NotNow
draw 1 5s
judge 1 reach 1? lawful
reach 1
drawn 1? 5s
judge 1 discard 1 1m? ReachUnready
judge 1 discard 1 3s? lawful
judge 1 pass? NotNow
judge 0 pass? lawful
default 1? discard 1 3s
discard 1 3s
draw 2 E
discard 2 E
pon 1 2 E E E
draw 1 1p
judge 1 reach 1? ReachOpen";

/// A reach wants 1,000 points and four live tiles.
const POOR: &str = "\
game
hand|P|1p|123456m 11p 55s EEE|1s|1m
win|1|0|5p|-29500 29500 0 0|500 59500 30000 30000|2
win|2|1|5p|0 -58500 58500 0|500 1000 88500 30000
points? 500 1000 88500 30000
draw 1 9p
judge 1 reach 1? lawful
win|2|1|5p|0 -1 1 0|500 999 88501 30000
draw 1 9s
judge 1 reach 1? ReachPoor";

const LATE: &str = "\
game
hand|P|W|123456789m EEE F|W|N
draws 65
draw 1 S
live? 4
judge 1 reach 1? lawful
draw 1 S
live? 3
judge 1 reach 1? ReachLate";

/// A ron on 3m: the hand of seat 1 waits on 3m and 6m, that of seat 2 has no yaku, and seat 3 has none at all.
const RONS: &str = "\
game
hand|P|3366m|45m 234p 567p 88p 345s|45m 111p 567p 88p 345s|1p
discard 0 3m
judge 1 ron 1 0? lawful
judge 1 ron 1 0 3m? lawful
judge 1 ron 1 0 3m? lawful
judge 1 ron 1 1? WrongTarget
judge 1 ron 1 0 6m? WrongTarget
judge 1 ron 1 0 *? NoSuchTile
judge 2 ron 2 0? NoYaku
judge 3 ron 3 0? NotComplete
judge 0 ron 0 0? NotNow
draw 1 1s
judge 1 ron 1 1? NotComplete
cut 1 1s
discard 0 6m
judge 1 ron 1 0? lawful
discard 0 3m
judge 1 ron 1 0? Furiten
draw 1 3m
judge 1 ron 1 1 3m? lawful
judge 1 ron 1 0? WrongTarget
cut 1 3m
discard 0 6m
judge 1 ron 1 0? Furiten
judge 1 pass? lawful";

/// Furiten goes before the want of a yaku, and a tile that would have won without one counts.
const MISSED: &str = "\
game
hand|P|123m 456789p 34s EE|2s|5s|1p
draw 0 F
cut 0 F
draw 1 9s
discard 1 2s
judge 0 ron 0 1? NoYaku
judge 0 pass? lawful
draw 2 9s
discard 2 5s
judge 0 ron 0 2? Furiten";

/// In riichi a tile that was let pass bars others' tiles until the hand ends, and never the own draw.
const MISSED_IN_RIICHI: &str = "\
game
hand|P|9s|123456m 11p 555s EE P|1p|E
reach 1
discard 1 P
accepted|1|30000 29000 30000 30000
discard 2 1p
judge 1 ron 1 2? lawful
draw 1 9p
cut 1 9p
discard 3 E
judge 1 ron 1 3? Furiten
draw 1 E
judge 1 ron 1 1? lawful";

/// The first draw of a wall in tile order: a hand of four of a kind each is ready, and stays so by the drawn tile alone.
const DEALT: &str = "\
game
hand|F|1111222233334m|4445555666677m|7788889999m 111p|1222233334444p
draw 0 5p
judge 0 cut 0 *? NoSuchTile
judge 0 pass? NotNow
judge 0 cut 1 5p? NotYours
judge 0 cut 0 1m? NotDrawn
judge 0 ron 0 0? NotComplete
judge 0 discard 0 9s? NotHeld
judge 0 reach 0? lawful
reach 0
judge 0 discard 0 2m? ReachUnready
judge 0 cut 0 5p? lawful
cut 0 5p
judge 1 pass? lawful
accepted|0|29000 30000 30000 30000
default 0? pass";

/// Nine kinds are shown at one's first draw alone, where the rules have draw reasons.
const NINE: &str = "\
game draws
hand|P|19m 19p 19s ESW 2222m|19m 19p 19s ES 44455m|19m 19p 19s ESW 3333m|1p
draw 0 5p
judge 0 nine 0? lawful
judge 0 nine 1? NotYours
judge 1 nine 1? NotNow
default 0? cut 0 5p
discard 0 5p
judge 1 nine 1? NotNow
draw 1 5p
judge 1 nine 1? NotNine
discard 1 5p
draw 2 5p
judge 2 nine 2? lawful
closed 2 3m 3m 3m 3m
dora 1s
replace 2 6p
judge 2 nine 2? NotNine";

const GAMES: [&str; 20] = [
    DRAWN,
    RED,
    CALLED,
    LAST_BANNED,
    STUCK,
    LAST_TILE,
    ALIKE,
    ADDED,
    DRY,
    FULL,
    LOCKED,
    CHANGING,
    REACHES,
    POOR,
    LATE,
    RONS,
    MISSED,
    MISSED_IN_RIICHI,
    DEALT,
    NINE,
];

#[test]
fn an_answer_is_refused_by_the_first_rule_that_it_breaks(rt: HostRuntime) {
    ask_games(&rt, rt.alloc(), &GAMES);
}
