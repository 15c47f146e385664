//! Which kinds are safe, and why, line by line on a table.

ghost use Rattle.std.specs.Prelude.{◌≤◌};

use crate::play::ask_games;
use mj_safe::{Reason, has_to_discard, safe};
use mj_table::Table;
use mj_tiles::Kind;

/// Four easts are held: another may yet have thirteen orphans but for them, and not beside a meld.
const ORPHANS: &str = "\
game
hand|9s|4m EEEE|56m 9p|2m|3m
draw 0 7p
sees 0 E? 4
safe 0 1 E? none
discard 0 4m
chi 1 0 4m 5m 6m
discard 1 9p
draw 2 1s
discard 2 1s
draw 3 1s
discard 3 1s
draw 0 2s
safe 0 1 E? blocked
safe 0 2 E? none";

/// Each run that has 5m wants a 4m or a 6m, which are all seen; 4m and 6m have a run that is open.
const RUNS: &str = "\
game
hand|9s|444455556m|1m|2m|3m
draw 0 6m
safe 0 1 5m? none
discard 0 6m
draw 1 6m
discard 1 6m
draw 2 6m
discard 2 6m
draw 3 7p
discard 3 7p
draw 0 8p
sees 0 4m? 4
sees 0 5m? 4
sees 0 6m? 4
safe 0 3 5m? blocked
safe 0 3 4m? none
safe 0 3 6m? none
safe 0 2 6m? own";

/// Of a kind of which three are seen another may have the last.
const THREE: &str = "\
game
hand|9s|4444555666m|1m|2m|3m
draw 0 6m
sees 0 5m? 3
safe 0 1 5m? none";

/// A discard that is called lies in its meld, once; with the tile that is added to it all are seen.
const CALLED: &str = "\
game
hand|9s|1m|2m|3m E|9m EEE
draw 0 1p
discard 0 1p
draw 1 1p
discard 1 1p
draw 2 2p
discard 2 E
sees 0 E? 1
pon 3 2 E E E
sees 0 E? 3
sees 3 E? 4
discard 3 9m
draw 0 1s
discard 0 1s
draw 1 1s
discard 1 1s
draw 2 2s
discard 2 2s
draw 3 3s
added 3 E E E E
sees 0 E? 4
sees 0 9s? 1";

/// A kind that a seat discarded, or let pass since its own last discard.
const PASSED: &str = "\
game
hand|9s|119m|11s|9m 9p|1p
draw 0 5m
discard 0 9m
draw 1 1m
safe 1 0 1m? none
discard 1 1m
draw 2 7p
safe 2 0 9m? own
safe 2 1 9m? none
safe 2 3 9m? passed
discard 2 9p
draw 3 1m
safe 3 0 1m? passed
safe 3 1 1m? own
safe 3 2 1m? none";

/// A seat in riichi can win on nothing that it let pass since its reach, also before its own last discard.
const SINCE_REACH: &str = "\
game
hand|9s|123456789m EE 23p|1s|2s|3s
draw 0 9p
reach 0
discard 0 9p
accepted|0|29000 30000 30000 30000
draw 1 5s
discard 1 5s
draw 2 6s
discard 2 6s
draw 3 5s
safe 3 0 5s? since reach
safe 3 2 5s? none
discard 3 5s
draw 0 1p
cut 0 1p
draw 1 6s
safe 1 0 6s? since reach
safe 1 2 6s? own
safe 1 3 6s? none";

/// The word for why a kind is safe for a seat against another, where the seat has to discard and holds the kind.
pub(crate) fn why(table: &Table, seat: u8, against: u8, kind: Kind) -> &'static str
    requires seat { seat ≤ 3 }
    requires against { against ≤ 3 }
{
    if against == seat {
        return "no other seat";
    }
    if !has_to_discard(table, seat) {
        return "not to discard";
    }
    let held = table.holds(seat);
    if held.numbers()[usize::from(kind.number())] == 0 {
        return "not held";
    }
    word(safe(table, seat, against, kind))
}

fn word(reason: Option<Reason>) -> &'static str {
    match reason {
        Some(Reason::OwnDiscard) => "own",
        Some(Reason::PassedInRiichi) => "since reach",
        Some(Reason::Passed) => "passed",
        Some(Reason::Blocked) => "blocked",
        None => "none",
    }
}

const GAMES: [&str; 6] = [ORPHANS, RUNS, THREE, CALLED, PASSED, SINCE_REACH];

#[test]
fn the_first_reason_is_given(rt: HostRuntime) {
    ask_games(&rt, rt.alloc(), &GAMES);
}
