use crate::asking::{ask, ask_deeds};
use mj_calls::{banned, chi_shape, riichi_kan, same_kind};
use mj_deeds::Deed;
use mj_tiles::{Counts, Form, Kind, Meld, Tile};
use std::alloc::Global;
use test_words::{Of, Question, counts, field, kind, kinds, tile, yes};

/// A deed, and the kinds that may not be discarded right after it.
const BANS: &str = "\
chi 1 0 3m 4m 5m=36m
chi 1 0 3m 4m 5mr=36m
chi 1 0 3m 1m 2m=3m
chi 1 0 4m 2m 3m=14m
chi 1 0 8s 7s 9s=8s
chi 1 0 2s 3s 4s=25s
chi 1 0 6s 7s 8s=69s
chi 1 0 6m 7m 8m=69m
chi 1 0 2m 3m 4m=25m
chi 1 0 3m 2m 4m=3m
chi 1 0 7m 8m 9m=7m
chi 1 0 9m 7m 8m=69m
chi 1 0 1p 2p 3p=14p
chi 1 0 5pr 3p 4p=25p
chi 1 0 3m 5m 4m=36m
chi 1 0 5pr 4p 3p=25p
chi 1 0 3m 4m 2m=3m
chi 1 0 7m 9m 8m=7m
pon 2 0 P P P=P
pon 2 0 5sr 5s 5s=5s
open 2 0 5m 5m 5m 5m=
draw 0 4m=";

struct Ban;

impl Of<Deed> for Ban {
    fn is_as(_alloc: Global, deed: &Deed, told: &str) -> bool {
        banned(deed) == kinds(told)
    }
}

#[test]
fn a_call_bans_its_tile_and_what_makes_its_run_anew(rt: HostRuntime) {
    ask_deeds::<HostRuntime, Ban>(&rt, rt.alloc(), BANS);
}

/// Three tiles, and whether they make a run; two tiles, and whether they are alike; the concealed tiles before a draw, `1p` where a
/// concealed kan of that was made, the drawn kind and that of the kan, and whether a seat in riichi may make it.
const SETS: &str = "\
run|1m|2m|3m|yes
run|3m|1m|2m|yes
run|8m|7m|9m|yes
run|4m|5mr|6m|yes
run|9s|7s|8s|yes
run|8m|9m|1p|no
run|9m|1p|2p|no
run|8s|9s|E|no
run|E|S|W|no
run|5m|5mr|6m|no
run|1m|2m|4m|no
run|5p|5mr|4p|no
alike|5m|5mr||yes
alike|5p|5mr||no
alike|E|E||yes
alike|1m|1p||no
kan|123456m 11p 555s EE||5s|5s|yes
kan|123456m 11p 555s EE||E|E|no
kan|123456m 11p 555s EE||5s|E|no
kan|123456m 55667s EEE||E|E|yes
kan|123456m 11p 34555s||5s|5s|no
kan|123456m 2223p EEE||E|E|yes
kan|123456m 2223p EEE||2p|2p|no
kan|123m 22233344p 55s||2p|2p|no
kan|111222333m 45p 99s||1m|1m|no
kan|2223334445556m||6m|6m|no
kan|123p 11m 77s EEE|1p|E|E|yes
kan|123456m 7p 555s EEE||5s|5s|yes
kan|123456m 7p 555s EEE||E|5s|no
kan|123456m 7p 555s EEE||5s|E|no";

struct Set;

impl Question for Set {
    fn holds(_alloc: Global, line: &str) -> bool {
        match field(line, 0) {
            "run" => is_told_run(line),
            "alike" => same_kind(tile(field(line, 1)), tile(field(line, 2))) == yes(field(line, 4)),
            _ => lawful(line) == Some(yes(field(line, 5))),
        }
    }
}

fn is_told_run(line: &str) -> bool {
    let (first, second) = (tile(field(line, 1)), tile(field(line, 2)));
    chi_shape(first, second, tile(field(line, 3))) == yes(field(line, 4))
}

/// Whether a seat in riichi may make the kan of a line.
fn lawful(line: &str) -> Option<bool> {
    let (drawn, kan) = (kind(field(line, 3)), kind(field(line, 4)));
    if field(line, 2).is_empty() {
        return is_lawful_alone(&counts(field(line, 1)), drawn, kan);
    }
    is_lawful_beside_a_kan(&counts(field(line, 1)), drawn, kan)
}

/// Without a meld.
fn is_lawful_alone(before: &Counts, drawn: Kind, kan: Kind) -> Option<bool> {
    let room = Counts::of([4; 34])?;
    Some(riichi_kan(before, &room, &[], drawn, kan))
}

/// Beside a concealed kan of 1p.
fn is_lawful_beside_a_kan(before: &Counts, drawn: Kind, kan: Kind) -> Option<bool> {
    let mut room = [4; 34];
    room[9] = 0;
    let room = Counts::of(room)?;
    let tile = Tile::at(9);
    let made = Meld {
        form: Form::ClosedKan,
        a: tile,
        b: tile,
        c: tile,
        d: Some(tile),
    };
    Some(riichi_kan(before, &room, &[made], drawn, kan))
}

#[test]
fn a_run_lies_within_one_suit_and_a_riichi_kan_changes_no_waits_or_readings(rt: HostRuntime) {
    ask::<HostRuntime, Set>(&rt, rt.alloc(), SETS);
}
