use crate::play::{add, ask_games, follow, none_is_wrong, reason, rules};
use mj_deeds::{Deed, next_seat};
use mj_table::Table;
use std::alloc::Global;
use test_words::{Question, field, tile, wrong_row};

/// Before a game, and what fits where it begins. A first turn lasts from the start of the hand to the own discard.
const BEGINNING: &str = "\
newest? none
cause? none
indicator 0? none
kan_seat? none
live? 70
standing? E 0 0 0
own 0?
passed 0?
first 0? no
fits draw 0 1m? no
fits game? yes
game
first 0? no
fits game? no
hand|C|111m 123456p ESWN|23567m 789p 111s PF|228899m 11p 34566s|2233p 1s 7788s 9s W PP
newest? hand
standing? E 0 0 0
first 0? yes
first 3? yes
fits hand|C|1m|1m|1m|1m? no
fits game? no
draw 0 1m
cause? none
drawn 0? 1m
first 0? yes
fits dora 2s? no
fits chi 1 0 4m 2m 3m? no
fits discard 0 2m? no
fits discard 4 1p? no
fits added 0 1m 1m 1m 1m? no
fits discard 0 1p? yes
discard 0 1p
first 0? no
first 1? yes
first 2? yes
draw 1 2s
cut 1 2s
first 1? no
first 2? yes
riichi 2? no";

/// Three kans: of four 1m by the dealer, of a discarded 1s, and of a P added to a pon.
const KANS: &str = "\
game
hand|C|111m 123456p ESWN|23567m 789p 111s PF|228899m 11p 34566s|2233p 1s 7788s 9s W PP
draw 0 1m
closed 0 1m 1m 1m 1m
first 2? no
dora 9s
replace 0 4m
cut 0 4m
chi 1 0 4m 2m 3m
fits discard 2 6m? no
discard 1 P
fits draw 2 5mr? no
fits draw 2 1m? no
fits chi 2 1 P 5m 6m? no
pon 3 1 P P P
triplet 3 P P P P? yes
discard 3 1s
open 1 3 1s 1s 1s 1s
dora E
replace 1 F
discard 1 5m
draw 2 2s
cut 2 2s
draw 3 P
drawn 3? P
drawn 2? none
added 3 P P P P
cause? none
passed 2?
dora S
newest? dora
cause? added
drawn 3? none
passed 2? P
replace 3 4p
live? 64
live_drawn? 3
kans? 3
kan_seat? 3
shown? 4
deposits? 0
indicator 0? C
indicator 1? 9s
indicator 2? E
indicator 3? S
indicator 4? none
standing? E 0 0 0
melds 0? 1
meld 0 0? closed 1m 1m 1m 1m
melds 1? 2
meld 1 0? chi 2m 3m 4m
meld 1 1? open 1s 1s 1s 1s
melds 2? 0
melds 3? 1
meld 3 0? added P P P P
triplet 3 P P P P? no
holds 0? 123456p ESWN
holds 1? 67m 789p FF
held 1 F? 2
held 1 1s? 0
held 3 P? 0
held 3 4p? 1
own 0? 4m
own 1? 5m P
own 2? 2s
own 3? 1s
passed 0? 5m 12s P
passed 1? 2s P
passed 2? P
passed 3? 5m 2s
riichi 3? no";

/// A red five counts as a five.
const RED: &str = "\
game red
hand|F|1125m|1p||
reds 0?
draw 0 5mr
reds 0? m
discard 0 1m
holds 0? 1255m
draw 1 5pr
reds 1? p
reds 0? m
draw 0 5sr
reds 0? m s
discard 0 5mr
reds 0? s";

/// Any call ends the first turn of each seat: a chi, a pon, a kan; a draw and an indicator don't.
const CHI: &str = "\
game
hand|C|3m|45m|33m|1p
discard 0 3m
first 2? yes
draw 2 5p
first 2? yes
discard 2 5p
first 2? no
discard 2 3m
fits chi 1 2 3m 4m 5m? yes
first 3? yes
chi 1 2 3m 4m 5m
first 3? no";

const PON: &str = "\
game
hand|C|3m|45m|33m|1p
discard 0 3m
first 3? yes
pon 2 0 3m 3m 3m
first 3? no";

const OPEN: &str = "\
game
hand|C|3m|45m|333m|1p
discard 0 3m
first 3? yes
open 2 0 3m 3m 3m 3m
first 3? no
dora 1p
first 3? no";

/// Four first discards of one wind end the hand, unless a call stands before them.
const WINDS: &str = "\
game draws
hand|C|1111m 56789m 1p ESW|23456789p 12s ESW|3456789s 234m ESW|456789m 1234p ESW
reason? none
draw 0 F
discard 0 S
draw 1 F
discard 1 S
draw 2 F
discard 2 S
reason? none
draw 3 F
discard 3 S
reason? suufonrenta";

const CALL_BEFORE: &str = "\
game draws
hand|C|1111m E|E|E|E
closed 0 1m 1m 1m 1m
discard 0 E
discard 1 E
discard 2 E
discard 3 E
reason? none";

/// Four kans end the hand where they are of several seats.
const SEVERAL: &str = "\
game draws
hand|C|111122223333m 4m|55556666m|1p|1p
closed 0 1m 1m 1m 1m
closed 0 2m 2m 2m 2m
closed 1 5m 5m 5m 5m
reason? none
closed 1 6m 6m 6m 6m
reason? suukaikan";

const OF_ONE: &str = "\
game draws
hand|C|1111222233334444m|5m|1p|1p
closed 0 1m 1m 1m 1m
closed 0 2m 2m 2m 2m
closed 0 3m 3m 3m 3m
closed 0 4m 4m 4m 4m
kans? 4
reason? none";

/// Riichi: its marks, its deposit, and what passed since.
const RIICHI: &str = "\
game
hand|C|123456789m EE 23p|1s|2s|3s
draw 0 9p
marks 0?
reach 0
cause? none
drawn 0? 9p
marks 0? reached double
riichi 0? no
discard 0 9p
cause? reach
since_reach 0?
accepted|0|29000 30000 30000 30000
cause? discard
deposits? 1
points? 29000 30000 30000 30000
marks 0? reached accepted double ippatsu
riichi 0? yes
fits accepted|0|28000 30000 30000 30000? no
fits accepted|1|29000 30000 30000 30000? no
fits accepted|1|29000 29000 30000 30000? yes
draw 1 5s
case 1? S E closed draw first
discard 1 5s
since_reach 0?
draw 2 6s
since_reach 0? 5s
discard 2 6s
draw 3 7s
discard 3 7s
draw 0 1p
since_reach 0? 567s
passed 0? 567s
case 0? E E closed draw double ippatsu
cut 0 1p
marks 0? reached accepted double
passed 0?
since_reach 0? 567s
concealed 0? 1m 2m 3m 4m 5m 6m 7m 8m 9m 2p 3p E E
room 0 E? 4";

/// A reach after an own discard, a call that is kept, a kan that is robbed by two, and the hands that follow.
const WINS: &str = "\
game
hand|C|123456789m EE 23p F|PP|23p|3s
discard 0 F
reach 0
discard 0 1m
accepted|0|29000 30000 30000 30000|chi 1 0 1m 2m 3m
marks 0? reached accepted ippatsu
draw 3 P
discard 3 P
pon 1 3 P P P
marks 0? reached accepted
room 1 P? 1
reach 2
discard 2 2p
accepted|2|29000 30000 29000 30000
draw 1 P
added 1 P P P P
marks 2? reached accepted ippatsu
case 0? E E closed robbed single
case 2? W E closed robbed single ippatsu
winner? no
dealer_won? no
deposits? 2
win|2|1|P|0 -8000 10000 0|29000 22000 39000 30000|0
before_wins? added
cause? added
deposits? 0
winner? yes
dealer_won? no
marks 2? reached accepted
case 2? W E closed robbed single ippatsu
points? 29000 22000 39000 30000
win|0|1|P|1000 -1000 0 0|30000 21000 39000 30000|
before_wins? added
cause? added
dealer_won? yes
fits end? yes
end
cause? win
fits deal|E 1 0 0|C|1m|1m|1m|1m? no
fits deal|E 0 0 0|C|1m|1m|1m|1m? no
fits deal|E 0 1 1|C|1m|1m|1m|1m? no
fits deal|E 0 1 0|C|1m|1m|1m|1m? yes
deal|E 0 1 0|C|1m|1m|1m|1m
standing? E 0 1 1
points? 30000 21000 39000 30000
dealer_won? no
marks 2?
first 2? yes
drawn|no yes no no|-1000 3000 -1000 -1000|29000 24000 38000 29000
fits deal|E 1 2 0|C|1m|1m|1m|1m? no
end
cause? drawn
deal|E 1 2 0|C|1m|1m|1m|1m
standing? E 1 2 2
points? 29000 24000 38000 29000";

/// A fourth accepted reach ends the hand.
const RIICHIS: &str = "\
game draws
hand|C|1m|1m|1m|1m
accepted|0|29000 30000 30000 30000
accepted|1|29000 29000 30000 30000
accepted|2|29000 29000 29000 30000
reason? none
accepted|3|29000 29000 29000 29000
reason? suuchareach
deposits? 4";

/// How hands end: on nine kinds with a deposit, with the dealer ready, with no seat ready, won by another and won by
/// the dealer; and what follows each.
const ENDS: &str = "\
game draws
hand|C|1m|1m|1m|1m
fits end? no
accepted|1|30000 29000 30000 30000
drawn|no no no no|0 0 0 0|30000 29000 30000 30000|kyushukyuhai
ended? aborted
dealer_won? no
deposits? 1
default 0? pass
judge 0 nine 0? NotNow
judge 0 pass? lawful
end
cause? drawn
default 3? pass
judge 1 nine 1? NotNow
judge 2 pass? lawful
fits deal|E 1 1 1|C|1m|1m|1m|1m? no
fits deal|E 0 1 0|C|1m|1m|1m|1m? no
deal|E 0 1 1|C|1m|1m|1m|1m
standing? E 0 1 1
deposits? 1
drawn|yes no no no|3000 -1000 -1000 -1000|33000 28000 29000 29000
ended? ready
end
fits deal|E 1 2 1|C|1m|1m|1m|1m? no
deal|E 0 2 1|C|1m|1m|1m|1m
standing? E 0 2 2
drawn|no no no no|0 0 0 0|33000 28000 29000 29000
ended? not ready
end
fits deal|E 0 3 1|C|1m|1m|1m|1m? no
deal|E 1 3 1|C|1m|1m|1m|1m
standing? E 1 3 3
win|2|3|5p|0 0 2900 -1900|33000 28000 31900 27100|
ended? another won
deposits? 0
end
fits deal|E 2 4 0|C|1m|1m|1m|1m? no
deal|E 2 0 0|C|1m|1m|1m|1m
standing? E 2 0 4
win|2|3|5p|0 0 1500 -1500|33000 28000 33400 25600|
ended? dealer won
end
deal|E 2 1 0|C|1m|1m|1m|1m
standing? E 2 1 5
ended? another won";

/// A reach whose discard is won on lays no deposit.
const WON_AT_THE_REACH: &str = "\
game
hand|C|1m F|1m|1m|1m
reach 0
discard 0 F
win|1|0|F|-1000 1000 0 0|29000 31000 30000 30000|
deposits? 0
cause? discard
points? 29000 31000 30000 30000
end
deal|E 1 0 0|C|1m|1m|1m|1m
deposits? 0";

const GAMES: [&str; 15] = [
    BEGINNING,
    KANS,
    RED,
    CHI,
    PON,
    OPEN,
    WINDS,
    CALL_BEFORE,
    SEVERAL,
    OF_ONE,
    RIICHI,
    WINS,
    RIICHIS,
    ENDS,
    WON_AT_THE_REACH,
];

#[test]
fn a_table_tells_what_its_deeds_come_to(rt: HostRuntime) {
    ask_games(&rt, rt.alloc(), &GAMES);
}

/// The rules, the first discards of the four seats, and the reason that ends the hand after them.
const FIRST_DISCARDS: &str = "\
game draws|S S S S|suufonrenta
game|S S S S|none
game draws|S S S E|none
game draws|S W S S|none
game draws|F F F F|none";

struct Ending;

impl Question for Ending {
    fn holds(alloc: Global, line: &str) -> bool {
        match Table::new(rules(field(line, 0))) {
            Ok(mut table) => ends_so(alloc, &mut table, line),
            Err(_) => false,
        }
    }
}

fn ends_so(alloc: Global, table: &mut Table, line: &str) -> bool {
    follow(alloc, table, "game")
        && follow(alloc, table, "hand|C|ESWF|ESWF|ESWF|ESWF")
        && discard(table, field(line, 1))
        && reason(table) == field(line, 2)
}

/// Each seat discards one of these tiles in turn.
fn discard(table: &mut Table, tiles: &str) -> bool {
    let mut all = true;
    let mut seat = 0;
    for text in tiles.split_whitespace() {
        all = all
            && add(
                table,
                Deed::Discard {
                    seat,
                    tile: tile(text),
                    drawn: false,
                },
            );
        seat = next_seat(seat);
    }
    all
}

#[test]
fn four_first_discards_of_one_wind_end_the_hand(rt: HostRuntime) {
    none_is_wrong(&rt, wrong_row::<Ending>(rt.alloc(), FIRST_DISCARDS));
}

/// Whether a copy of an empty table has its rules and its points, and how many deeds each has once one was added to the
/// copy.
fn copied(alloc: Global) -> Option<(bool, u8, u8)> {
    match Table::new(rules("game red")) {
        Ok(table) => copied_from(alloc, &table),
        Err(_) => None,
    }
}

fn copied_from(alloc: Global, table: &Table) -> Option<(bool, u8, u8)> {
    match table.copy() {
        Ok(mut copy) => {
            let added = follow(alloc, &mut copy, "game");
            let same = copy.rules() == table.rules() && table.rules().red && added;
            Some((
                same && table.points() == [30_000; 4],
                number(table),
                number(&copy),
            ))
        }
        Err(_) => None,
    }
}

fn number(table: &Table) -> u8 {
    if table.newest().is_some() { 1 } else { 0 }
}

#[test]
fn a_copy_goes_its_own_way(rt: HostRuntime) {
    assert!(rt; copied(rt.alloc()) == Some((true, 0, 1)));
}
