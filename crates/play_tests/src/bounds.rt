//! Games in which a rule holds to the one side of its bound and not to the other.

use crate::play::ask_games;

/// A riichi is double where the seat is in its first turn, whatever others discarded before.
const DOUBLE: &str = "\
game
hand|P|3m|4m|5m|123456789m EE 23p
draw 0 1s
discard 0 1s
draw 1 1s
discard 1 1s
draw 2 2s
discard 2 2s
draw 3 F
reach 3
marks 3? reached double
discard 3 F
marks 3? reached double
accepted|3|30000 30000 30000 29000
marks 3? reached accepted double ippatsu
marks 0?";

/// After a call by another it is a single one, and the calls before it don't end its turn.
const SINGLE_BEHIND_A_PON: &str = "\
game
hand|P|3m|123456789m EE 23p F|33m 9p|1p
discard 0 3m
pon 2 0 3m 3m 3m
discard 2 9p
draw 1 1s
reach 1
marks 1? reached
discard 1 F
accepted|1|30000 29000 30000 30000
marks 1? reached accepted ippatsu
case 1? S E closed single ippatsu";

const SINGLE_BEHIND_A_KAN: &str = "\
game
hand|P|1111s|123456789m EE 23p F|33m 9p|1p
closed 0 1s 1s 1s 1s
dora 9s
replace 0 2s
discard 0 2s
draw 1 1p
reach 1
marks 1? reached";

/// One turn is over with a chi, an open kan and a concealed kan of anybody.
const CHI_IN_ONE_TURN: &str = "\
game
hand|C|123456789m EE 23p F|1p|1m|23m
reach 0
discard 0 F
accepted|0|29000 30000 30000 30000
draw 1 1s
discard 1 1s
discard 2 1m
marks 0? reached accepted double ippatsu
chi 3 2 1m 2m 3m
marks 0? reached accepted double";

const OPEN_KAN_IN_ONE_TURN: &str = "\
game
hand|C|123456789m EE 23p F|1p|1s|111s
reach 0
discard 0 F
accepted|0|29000 30000 30000 30000
discard 2 1s
marks 0? reached accepted double ippatsu
open 3 2 1s 1s 1s 1s
marks 0? reached accepted double";

const CLOSED_KAN_IN_ONE_TURN: &str = "\
game
hand|C|123456789m EE 23p F|1p|1p|1111s
reach 0
discard 0 F
accepted|0|29000 30000 30000 30000
marks 0? reached accepted double ippatsu
closed 3 1s 1s 1s 1s
marks 0? reached accepted double";

/// An added kan ends it where it isn't robbed; its tile has passed then, and what passed before the reach is none of its riichi.
const ADDED_KAN_IN_ONE_TURN: &str = "\
game
hand|C|123456789m EE 23p F|P|1m|PP 1p
discard 1 P
passed 0?
pon 3 1 P P P
passed 0? P
discard 3 1p
passed 0? P
reach 0
passed 0? 1p P
since_reach 0?
discard 0 F
passed 0?
accepted|0|29000 30000 30000 30000
marks 0? reached accepted ippatsu
draw 3 P
added 3 P P P P
marks 0? reached accepted ippatsu
case 0? E E closed robbed single ippatsu
passed 0?
since_reach 0?
dora 9s
marks 0? reached accepted
case 0? E E closed single
passed 0? P
since_reach 0? P
replace 3 2p
case 0? E E closed draw replacement single
discard 3 2p
passed 0? P
draw 0 9s
passed 0? 2p P
since_reach 0? 2p P
case 0? E E closed draw single
cut 0 9s
passed 0?
since_reach 0? 2p P";

/// A tile of a concealed kan passes nobody, nor does an own discard.
const NO_OFFER: &str = "\
game
hand|C|1111m 5p|1p|1s|2s
closed 0 1m 1m 1m 1m
dora 9s
replace 0 5p
discard 0 5p
draw 1 2p
passed 0?
passed 1? 5p
passed 2? 5p
own 0? 5p
own 1?";

/// The winds of the seats and of the round, by the dealer.
const WINDS: &str = "\
game
hand|C|1m|1m|1m|1m
draw 0 5p
case 0? E E closed draw first
case 1? S E closed draw first
case 2? W E closed draw first
case 3? N E closed draw first
drawn|no no no no|0 0 0 0|30000 30000 30000 30000
end
deal|E 1 1 0|C|1m|1m|1m|1m
draw 1 5p
case 0? N E closed draw first
case 1? E E closed draw first
case 2? S E closed draw first
case 3? W E closed draw first
drawn|no no no no|0 0 0 0|30000 30000 30000 30000
end
deal|E 2 2 0|C|1m|1m|1m|1m
draw 2 5p
case 1? N E closed draw first
case 2? E E closed draw first
drawn|no no no no|0 0 0 0|30000 30000 30000 30000
end
deal|E 3 3 0|C|1m|1m|1m|1m
draw 3 5p
case 0? S E closed draw first
case 2? N E closed draw first
case 3? E E closed draw first
drawn|no no no no|0 0 0 0|30000 30000 30000 30000
end
fits deal|E 0 4 0|C|1m|1m|1m|1m? no
deal|S 0 4 0|C|1m|1m|1m|1m
draw 0 5p
case 0? E S closed draw first
case 3? N S closed draw first";

/// The last live tile, drawn, discarded and replaced.
const LAST: &str = "\
game
hand|P|33m|E|E|E
draws 69
live? 1
case 3? N E closed draw first
draw 3 C
live? 0
case 3? N E closed draw first last
discard 3 C
case 0? E E closed first last
case 3? N E closed last";

/// Kans take live tiles away, and melds but concealed kans open a hand.
const LAST_BY_A_KAN: &str = "\
game
hand|P|EEEE|S|S|33m
draws 69
live? 1
closed 0 E E E E
live? 0
dora N
replace 0 F
case 0? E E closed draw replacement last
case 3? N E closed draw replacement last
discard 0 F
case 3? N E closed last";

const OPENED: &str = "\
game
hand|P|3m|33m 9s|1p|1p
discard 0 3m
case 1? S E closed first
pon 1 0 3m 3m 3m
case 1? S E
case 2? W E closed";

/// The default is the drawn tile, and right after an own reach or call the last lawful one in tile order, a red five behind a plain
/// one; right after a kan it is a pass.
const DEFAULTS: &str = "\
game red
hand|P|1m 5m|1p 50s|550p 7m|333m
draw 0 5mr
default 0? cut 0 5mr
default 1? pass
discard 0 1m
default 0? pass
draw 1 5p
discard 1 5p
default 2? pass
pon 2 1 5p 5p 5p
default 2? discard 2 7m
default 1? pass
discard 2 7m
draw 1 3m
discard 1 3m
open 3 1 3m 3m 3m 3m
default 3? pass";

const LAST_OF_TWO_FACES: &str = "\
game red
hand|P|1p|1m 55p E|1s E|50s EE
draw 2 7p
discard 2 E
pon 3 2 E E E
default 3? discard 3 5sr";

/// What swap calling bans is a kind: of both faces.
const BANNED_FACES: &str = "\
game red
hand|P|2m|340m F|550p 1s|5p
discard 0 2m
judge 1 chi 1 0 2m 3m 4m? lawful
chi 1 0 2m 3m 4m
judge 1 discard 1 5mr? SwapCall
judge 1 discard 1 F? lawful
default 1? discard 1 F
discard 1 F
draw 3 9p
discard 3 5p
judge 2 pon 2 3 5p 5p 5p? lawful
pon 2 3 5p 5p 5p
judge 2 discard 2 5pr? SwapCall
judge 2 discard 2 1s? lawful
default 2? discard 2 1s";

/// Nothing but a red five of the banned kind would be left.
const STUCK_ON_A_RED_FIVE: &str = "\
game red
hand|P|2m|340m|1p|E
discard 0 2m
judge 1 chi 1 0 2m 3m 4m? StuckCall";

/// Red fives lie concealed, and in a meld no more.
const REDS: &str = "\
game red
hand|F|550p 1m|5p 0s|55s 1p|0m
reds 0? p
reds 1? s
reds 3? m
discard 1 5p
pon 0 1 5p 5p 5pr
reds 0?
meld 0 0? pon 5p 5p 5pr
holds 0? 1m 5p
discard 0 1m
draw 1 9p
discard 1 5sr
reds 1?
pon 2 1 5sr 5s 5s
reds 2?
holds 2? 1p
meld 2 0? pon 5s 5s 5sr";

/// A drawn five is the only one of its face beside one of the other face.
const DRAWN_FACES: &str = "\
game red
hand|P|1m 0p|5s|1p|1p
draw 0 5p
judge 0 discard 0 5p? NotDrawn
judge 0 cut 0 5p? lawful
judge 0 discard 0 5pr? lawful
judge 0 cut 0 5pr? NotDrawn
default 0? cut 0 5p
discard 0 5pr
draw 1 5sr
judge 1 discard 1 5sr? NotDrawn
judge 1 cut 1 5sr? lawful
judge 1 discard 1 5s? lawful
judge 1 cut 1 5s? NotDrawn
default 1? cut 1 5sr";

/// Thirteen orphans want each of the other twelve: where all four of one are seen, the others can't be won on so.
const ANOTHER_ORPHAN: &str = "\
game
hand|9p|1m EEE 88889999m|1p|2p|3p
draw 0 7p
sees 0 E? 3
safe 0 1 9m? none
discard 0 7p
draw 0 E
sees 0 E? 4
sees 0 9m? 4
safe 0 1 9m? blocked
safe 0 1 E? blocked
safe 0 1 8m? none
safe 0 1 1m? none";

const GAMES: [&str; 19] = [
    DOUBLE,
    SINGLE_BEHIND_A_PON,
    SINGLE_BEHIND_A_KAN,
    CHI_IN_ONE_TURN,
    OPEN_KAN_IN_ONE_TURN,
    CLOSED_KAN_IN_ONE_TURN,
    ADDED_KAN_IN_ONE_TURN,
    NO_OFFER,
    WINDS,
    LAST,
    LAST_BY_A_KAN,
    OPENED,
    DEFAULTS,
    LAST_OF_TWO_FACES,
    BANNED_FACES,
    STUCK_ON_A_RED_FIVE,
    REDS,
    DRAWN_FACES,
    ANOTHER_ORPHAN,
];

#[test]
fn a_rule_holds_to_one_side_of_its_bound(rt: HostRuntime) {
    ask_games(&rt, rt.alloc(), &GAMES);
}
