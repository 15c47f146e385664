use crate::words::ask;
use mj_tiles::{
    Counts, Form, Kind, Kinds, Meld, Melds, Tile, after, counts_of, number_among, push_times,
};
use std::alloc::{AllocError, Global};
use test_words::{Question, counts, field, kind, number};

/// A text, and the face and the kind of the tile that it names; `-` for none. Then an indicator and its dora.
const CASES: &str = "\
text|1m|0|0
text|9m|8|8
text|5p|13|13
text|9s|26|26
text|N|30|30
text|C|33|33
text|5mr|34|4
text|5pr|35|13
text|5sr|36|22
text|e|-
text|0m|-
text|1z|-
text|5mrr|-
text||-
dora|1m|2m
dora|9m|1m
dora|9p|1p
dora|9s|1s
dora|E|S
dora|N|E
dora|P|F
dora|C|P";

struct Case;

impl Question for Case {
    fn holds(_alloc: Global, line: &str) -> bool {
        match field(line, 0) {
            "dora" => after(kind(field(line, 1))) == kind(field(line, 2)),
            _ => names(field(line, 1), line),
        }
    }
}

/// Whether a text names the tile of a line, or none.
fn names(text: &str, line: &str) -> bool {
    match Tile::read(text.as_bytes()) {
        Some(tile) => is_tile(tile, line) && tile.text() == text.as_bytes(),
        None => field(line, 2) == "-",
    }
}

fn is_tile(tile: Tile, line: &str) -> bool {
    [tile.face(), tile.kind().number()] == [number(field(line, 2)), number(field(line, 3))]
}

#[test]
fn texts_name_tiles_and_the_dora_follows_its_indicator(rt: HostRuntime) {
    ask::<HostRuntime, Case>(&rt, rt.alloc(), CASES);
    assert!(rt; Tile::read(b"1m ").is_none());
}

fn numbers_name_tiles() -> bool {
    [Tile::of(37), Tile::of(36)] == [None, Some(Tile::at(36))]
        && [Kind::of(34), Kind::of(33)] == [None, Some(Kind::at(33))]
        && [Kind::at(33).number(), Kind::at(0).number()] == [33, 0]
}

/// Whether ones, nines, winds and dragons are terminals or honours, and the other tiles none of these.
fn terminals_are_apart() -> bool {
    let (outside, inside) = (
        counts("19m 19p 19s ESWNPFC"),
        counts("2345678m 2345678p 2345678s"),
    );
    let mut right = true;
    for number in 0..34 {
        let kind = Kind::at(number);
        let is_outside = outside.get(kind) > 0;
        right = right
            && is_outside != (inside.get(kind) > 0)
            && is_outside == kind.is_terminal_or_honour();
    }
    right
}

#[test]
fn kinds_and_tiles_are_known_by_numbers(rt: HostRuntime) {
    assert!(rt; numbers_name_tiles() && terminals_are_apart());
}

fn red_fives_count() -> bool {
    let (five, red, east) = (Tile::at(4), Tile::at(34), Tile::at(27));
    let tiles = [five, red, east, five, five, five];
    [counts_of(&tiles[..5]), counts_of(&tiles)] == [Some(counts("5555mE")), None]
        && [
            number_among(&tiles, five),
            number_among(&tiles, red),
            number_among(&tiles, Tile::at(13)),
        ] == [4, 1, 0]
}

/// Whether a hand has these numbers of fives of characters, of east winds and of ones of characters, and is made of its numbers.
fn has_numbers(held: &Counts, told: [u8; 3]) -> bool {
    let numbers = *held.numbers();
    [held.get(Kind::at(4)), held.get(Kind::at(27)), numbers[0]] == told
        && Counts::of(numbers) == Some(*held)
        && Counts::from_numbers(numbers) == *held
}

#[test]
fn a_red_five_counts_as_a_five_and_none_counts_five(rt: HostRuntime) {
    assert!(rt; red_fives_count() && has_numbers(&counts("5555mE"), [4, 1, 0]));
    assert!(rt; Counts::of([5; 34]).is_none());
}

fn has_kinds_put_in() -> bool {
    let set = Kinds::none().with(Kind::at(0)).with(Kind::at(33));
    [
        set.has(Kind::at(0)),
        set.has(Kind::at(33)),
        set.has(Kind::at(1)),
        set.is_empty(),
        Kinds::none().is_empty(),
    ] == [true, true, false, false, true]
}

fn white(form: Form, fourth: Option<Tile>) -> Meld {
    let white = Tile::at(31);
    Meld {
        form,
        a: white,
        b: white,
        c: white,
        d: fourth,
    }
}

fn are_kept(kan: Meld, pon: Meld) -> bool {
    let melds = [kan, pon];
    Melds::of(&melds).as_slice() == melds.as_slice()
}

fn melds_are_kept() -> bool {
    are_kept(
        white(Form::ClosedKan, Some(Tile::at(31))),
        white(Form::Pon, None),
    )
}

#[test]
fn kinds_and_melds_are_kept_in_order(rt: HostRuntime) {
    assert!(rt; has_kinds_put_in() && melds_are_kept());
}

fn three_easts(alloc: Global) -> Result<Vec<Kind>, AllocError> {
    let mut kinds = Vec::new(alloc);
    push_times(&mut kinds, Kind::at(0), 1)?;
    push_times(&mut kinds, Kind::at(5), 0)?;
    push_times(&mut kinds, Kind::at(27), 3)?;
    Ok(kinds)
}

/// Whether one 1m and three easts are added so.
fn are_added(alloc: Global, wanted: &[Kind]) -> bool {
    match three_easts(alloc) {
        Ok(kinds) => kinds.as_slice() == wanted,
        Err(_) => false,
    }
}

#[test]
fn a_kind_is_added_so_often(rt: HostRuntime) {
    let wanted = [Kind::at(0), Kind::at(27), Kind::at(27), Kind::at(27)];
    assert!(rt; are_added(rt.alloc(), &wanted));
}
