use crate::play::ask_games;

/// A win is wanted before all else: on the tile that another discards or adds, and on the own drawn one; but none that
/// is unlawful.
const WINS: &str = "\
game
hand|P|3366m|45m 234p 567p 88p 345s|45m 111p 567p 88p 345s|1p
choose 1? pass
discard 0 3m
choose 0? pass
choose 1? ron 1 0 3m
choose 2? pass
draw 1 6m
choose 0? pass
choose 1? ron 1 1 6m";

const ROBBED: &str = "\
game
hand|P|3m 5s|33m 4m|12m 456p 789p 11s 234s|1p
discard 0 3m
choose 2? pass
pon 1 0 3m 3m 3m
discard 1 4m
draw 2 E
cut 2 E
draw 1 3m
added 1 3m 3m 3m 3m
choose 2? ron 2 1 3m
choose 0? pass";

/// A reach is wanted as soon as it is lawful, and its discard is the one that leaves the hand ready.
const REACHES: &str = "\
game
hand|P|1p|123456m 11p 355s EE|1p|1m
draw 1 5s
choose 1? reach 1
choose 0? pass
reach 1
choose 1? discard 1 3s
choose 2? pass
discard 1 3s
accepted|1|30000 29000 30000 30000
draw 1 9p
choose 1? cut 1 9p";

/// Of the tiles that leave the least shanten the last goes, marked where it has the face of the drawn one.
const DISCARDS: &str = "\
game
hand|N|123m 456p 99s E F P 1p 9m|1m|1m|1m
draw 0 S
choose 0? discard 0 F
discard 0 F
draw 0 C
choose 0? cut 0 C
cut 0 C
draw 0 9m
choose 0? discard 0 P";

const FOURTH: &str = "\
game
hand|N|123m 456p PPP E 1p 58s|1m|1m|1m
draw 0 P
choose 0? cut 0 P";

/// The last tile of all is needed, and so the last of the others goes.
const NEEDED: &str = "\
game
hand|N|123m 456p CCC E 1p 58s|1m|1m|1m
draw 0 W
choose 0? cut 0 W
cut 0 W
draw 0 5s
choose 0? discard 0 E";

/// After a chi the tile at the other end would leave the hand ready, and may not go.
const CALLED: &str = "\
game
hand|P|3m|456m 123p 789p 99s 12s|1p|E
discard 0 3m
choose 1? pass
chi 1 0 3m 4m 5m
choose 1? discard 1 9s
choose 0? pass";

const FREE: &str = "\
game
hand|P|3m|456m 12399p 78s ESF|1p|E
discard 0 3m
chi 1 0 3m 4m 5m
choose 1? discard 1 F";

/// A dragon, the round wind and the own wind are taken for a pon, and no other tile.
const PONS: &str = "\
game
hand|1m|E S W N C 5m|EE NN C 55m|WW SS 4m|CC 1m
discard 0 E
choose 1? pon 1 0 E E E
choose 2? pass
draw 0 9s
discard 0 W
choose 1? pass
choose 2? pon 2 0 W W W
draw 0 8s
discard 0 N
choose 1? pass
choose 3? pass
draw 0 7s
discard 0 S
choose 2? pass
draw 0 6s
discard 0 C
choose 1? pass
choose 3? pon 3 0 C C C
draw 0 5s
discard 0 5m
choose 1? pass
choose 0? pass
pon 1 0 5m 5m 5m
choose 3? pass";

/// A pon that would leave no discard, and one of the last tile, are not lawful.
const STUCK: &str = "\
game
hand|1m|C|2m|CCC|3m
discard 0 C
choose 2? pass";

const LAST: &str = "\
game
hand|1m|CF|CC FF 1m|2m|3m
draws 69
discard 0 C
choose 1? pon 1 0 C C C
draw 3 2m
discard 0 F
choose 1? pass";

const GAMES: [&str; 11] = [
    WINS, ROBBED, REACHES, DISCARDS, FOURTH, NEEDED, CALLED, FREE, PONS, STUCK, LAST,
];

#[test]
fn the_player_answers_by_the_first_line_that_fits(rt: HostRuntime) {
    ask_games(&rt, rt.alloc(), &GAMES);
}
