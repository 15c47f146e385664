//! Hands as texts, read for the tests. A case is a line, and bars part its fields.

ghost use Rattle.std.specs.Prelude.{◌<◌};

use mj_readings::{Case, Reading, Riichi, Set, SetForm};
use mj_tiles::{Form, Kind, Meld, Tile};
use std::alloc::Global;
use std::process::Abort;
use test_words::{Question, kind, kinds, number, word, wrong_row};

/// Asserts that each line of a table is as it says.
pub(crate) fn ask<R: Abort, Q: Question>(rt: &R, alloc: Global, lines: &str) {
    let wrong = wrong_row::<Q>(alloc, lines);
    assert!(rt; wrong.is_empty(), "{wrong}");
}

/// A list of numbers of a line, as a mask of bits: a number above 63 is none of it.
pub(crate) fn numbers(text: &str) -> u64 {
    let mut mask = 0;
    for word in text.split_whitespace() {
        mask |= bit(number(word));
    }
    mask
}

/// The bit of a number, none above 63.
pub(crate) fn bit(number: u8) -> u64 {
    if number < 64 { 1 << number } else { 0 }
}

/// A reading as its sets, pair, place of the winning tile and winning tile, as its pairs, or as the doubled one of its orphans.
/// A set is its lowest tile after `r` for a run, `t` for a triplet and `q` for a kan, in capital letters where it is shown.
pub(crate) fn reading(text: &str) -> Reading {
    if let Some(others) = text.strip_prefix("pairs ") {
        return Reading::Pairs {
            kinds: kinds(others),
        };
    }
    if let Some(double) = text.strip_prefix("orphans ") {
        return Reading::Orphans {
            double: kind(double),
        };
    }
    standard(text)
}

fn standard(text: &str) -> Reading {
    Reading::Standard {
        a: set(word(text, 0)),
        b: set(word(text, 1)),
        c: set(word(text, 2)),
        d: set(word(text, 3)),
        pair: kind(word(text, 4)),
        win: number(word(text, 5)),
        winning: kind(word(text, 6)),
    }
}

/// A set by its letter and its lowest tile.
fn set(text: &str) -> Set {
    match text.split_at_checked(1) {
        Some((letter, low)) => set_of(letter, low),
        None => set_of("", ""),
    }
}

fn set_of(letter: &str, low: &str) -> Set {
    Set {
        form: form(letter),
        low: kind(low),
        shown: is_shown(letter),
    }
}

fn form(letter: &str) -> SetForm {
    match letter {
        "r" | "R" => SetForm::Run,
        "t" | "T" => SetForm::Triplet,
        _ => SetForm::Kan,
    }
}

fn is_shown(letter: &str) -> bool {
    matches!(letter, "R" | "T" | "Q")
}

/// The circumstances of a win by their marks: `d` drawn, `o` open, `r` riichi, `R` double riichi, `i` ippatsu, `l` the last tile,
/// `k` a replacement, `c` a robbed kan, `f` the first turn; `e`, `w` and `n` seat wind E, W and N, else S; `s` round wind S, else E.
pub(crate) fn case(marks: &str) -> Case {
    let marks = marks.as_bytes();
    Case {
        seat_wind: Kind::at(seat_wind(marks)),
        round_wind: Kind::at(if marks.contains(&b's') { 28 } else { 27 }),
        by_draw: marks.contains(&b'd'),
        closed: !marks.contains(&b'o'),
        riichi: riichi(marks),
        ippatsu: marks.contains(&b'i'),
        last: marks.contains(&b'l'),
        rinshan: marks.contains(&b'k'),
        robbed: marks.contains(&b'c'),
        first: marks.contains(&b'f'),
    }
}

/// The number of the seat wind.
fn seat_wind(marks: &[u8]) -> u8
    ensures { result < 34 }
{
    if marks.contains(&b'e') {
        return 27;
    }
    if marks.contains(&b'w') {
        return 29;
    }
    if marks.contains(&b'n') {
        return 30;
    }
    28
}

fn riichi(marks: &[u8]) -> Riichi {
    if marks.contains(&b'r') {
        return Riichi::Single;
    }
    if marks.contains(&b'R') {
        return Riichi::Double;
    }
    Riichi::No
}

/// A meld of this form whose first tile is of the kind of the text.
pub(crate) fn meld(form: Form, text: &str) -> Meld {
    let tile = Tile::at(kind(text).number());
    Meld {
        form,
        a: tile,
        b: tile,
        c: tile,
        d: None,
    }
}
