ghost use Rattle.std.specs.Prelude.{◌≡◌, ◌<◌, sum, length, replicate, IfSome};
ghost use Rattle.mj_tiles.specs.Counts.{NoFifth};
ghost use Rattle.mj_readings.specs.Tests.{one_more};
ghost use Rattle.mj_shanten.specs.Exchanges.{IsNearestOf};

use crate::words::ask;
use mj_shanten::{Nearest, Suits, exchange_path, shanten};
use mj_tiles::{Counts, Kind, Kinds};
use std::alloc::Global;
use test_words::{Question, counts, field, kinds, number};

// Hands with melds are those of `hand`.

/// What a hand of thirteen tiles without melds is nearest to.
fn nearest_closed(counts: &Counts) -> Option<Nearest>
    ensures { IfSome result (λ nearest. IsNearestOf counts.now nearest.number nearest.target) }
{
    let Some(room) = Counts::of([4; 34]) else {
        return None;
    };
    if tiles_among(counts) != 13 {
        return None;
    }
    Some(shanten(counts, &room, 0))
}

fn tiles_among(counts: &Counts) -> usize
    ensures total { result ≡ sum counts.now }
    ensures size { length counts.now ≡ 34 }
    ensures few { NoFifth counts.now }
{
    let numbers = counts.numbers();
    let mut total = 0;
    for number in numbers {
        total += *number as usize;
    }
    total
}

/// Hands, their shanten and their target: four of a kind are no two pairs, and triplets as near as seven pairs come first. Then
/// hands of fourteen tiles, the kinds that may be discarded, and the best discard: the one that leaves less shanten, and of several
/// the last in tile order; none where none is held.
const CASES: &str = "\
nearest|123m 456p 789s EESS|0|123m 456p 789s EEESS
nearest|19m 19p 19s ESWNPFC|0|119m 19p 19s ESWNPFC
nearest|123456789p 1111s|1|11m 123456789p 111s
nearest|1111m 2222p 3333s E|2|111123m 222p 333s EE
nearest|1111m 3355p 7799s E|2|111m 333555p 77799s
discard|123m 456p 789s EESSC|123456789m 456p 789s ESC|C
discard|123m 456p 789s EEESC|123m ESC|C
discard|123m 456p 789s EEESC|123m ES|S
discard|123m 456p 789s EEESS|19m ES|S
discard|123m 456p 789s EEESS|19m 6p|6p
discard|1112345678999m W|1m 9m|9m
discard|147m 258p 369s EESSC|147m 369s|9s
discard|123m 456p 789s EESSC|WNPF|";

struct Hand;

impl Question for Hand {
    fn holds(_alloc: Global, line: &str) -> bool {
        match field(line, 0) {
            "nearest" => is_told_nearest(line),
            _ => is_told_best(line),
        }
    }
}

fn is_told_nearest(line: &str) -> bool {
    is_nearest(
        &counts(field(line, 1)),
        number(field(line, 2)),
        &counts(field(line, 3)),
    )
}

fn is_told_best(line: &str) -> bool {
    is_best(
        &counts(field(line, 1)),
        kinds(field(line, 2)),
        kinds(field(line, 3)),
    )
}

/// Whether a hand has this shanten and target, and so has it with a tile more and without it again.
fn is_nearest(held: &Counts, shanten: u8, target: &Counts) -> bool {
    match (nearest_closed(held), nearest_again(held, Kind::at(33))) {
        (Some(nearest), Some(again)) => {
            nearest.number == shanten && nearest.target == *target && again == (shanten, nearest)
        }
        _ => false,
    }
}

/// Whether a hand has this best discard, also by the number of missing tiles, which is asked before.
fn is_best(held: &Counts, among: Kinds, told: Kinds) -> bool {
    best_discard(held, among) == Some(told) && best_discard_of(held, among) == Some(told)
}

/// The walked suits of a hand of so many tiles without melds.
fn walked_closed(counts: &Counts, tiles: usize) -> Option<Suits>
    ensures { IfSome result (λ suits. suits ≡ record { counts = counts.now; room = replicate 34 4 }) }
{
    let Some(room) = Counts::of([4; 34]) else {
        return None;
    };
    if tiles_among(counts) != tiles {
        return None;
    }
    Some(Suits::new(counts, &room))
}

/// The counts and one tile more of the kind; none where four are held.
fn with_one_more(counts: &Counts, kind: Kind) -> Option<Counts>
    ensures value { IfSome result (λ more. more ≡ one_more counts.now kind) }
    ensures within { kind < 34 }
{
    let place = kind.number() as usize;
    let mut numbers = *counts.numbers();
    numbers[place] += 1;
    Counts::of(numbers)
}

/// The number alone, and what the hand is nearest to, by its walked suits with one tile of the kind more and without it
/// again.
fn nearest_again(counts: &Counts, kind: Kind) -> Option<(u8, Nearest)> {
    if tiles_among(counts) != 13 {
        return None;
    }
    let Some(more) = with_one_more(counts, kind) else {
        return None;
    };
    let Some(suits) = walked_closed(&more, 14) else {
        return None;
    };
    let again = suits.without(kind);
    Some((again.number(0), again.shanten(0)))
}

/// The best discard as a set of one kind.
fn best_discard(counts: &Counts, among: Kinds) -> Option<Kinds> {
    let Some(suits) = walked_closed(counts, 14) else {
        return None;
    };
    match suits.best_discard(among, 0) {
        Some(kind) => Some(Kinds::none().with(kind)),
        None => Some(Kinds::none()),
    }
}

/// That by the number of missing tiles.
fn best_discard_of(counts: &Counts, among: Kinds) -> Option<Kinds> {
    let Some(suits) = walked_closed(counts, 14) else {
        return None;
    };
    let missing = suits.missing(0);
    match suits.best_discard_of(among, 0, missing) {
        Some(kind) => Some(Kinds::none().with(kind)),
        None => Some(Kinds::none()),
    }
}

#[test]
fn hands_have_their_shanten_and_best_discard(rt: HostRuntime) {
    ask::<HostRuntime, Hand>(&rt, rt.alloc(), CASES);
}

/// Whether these are the exchanges from a hand to the nearest complete one.
fn has_path(alloc: Global, held: &Counts, wanted: &[(Kind, Kind)]) -> bool {
    match nearest_closed(held) {
        Some(nearest) => match exchange_path(alloc, held, &nearest) {
            Ok(path) => path.as_slice() == wanted,
            Err(_) => false,
        },
        None => false,
    }
}

#[test]
fn the_path_exchanges_surplus_for_missing_tiles(rt: HostRuntime) {
    let wanted = [(Kind::at(10), Kind::at(1)), (Kind::at(20), Kind::at(2))];
    assert!(rt; has_path(rt.alloc(), &counts("1111m 2222p 3333s E"), &wanted));
}
