use crate::asking::{ask_deeds, none_is_wrong};
use mj_deeds::{
    Deed, Four, Hands, Names, Pai, ShownHands, Tiles, YakuList, concealed, is_call, is_hand_start,
    is_kan, melds, next_seat, ordered, river, seat_of_kan,
};
use mj_ports::Name;
use mj_tiles::{Meld, Tile};
use std::alloc::{AllocError, Global};
use test_words::{
    Of, are, deed, hands, is_as, is_put, meld, names, number, number_or_none, tile, word, yes,
};

/// Deeds, whether they fit or not, and questions about those before.
const CALLS: &str = "\
hand|F|1125m|1p||
draw 0 5mr
discard 0 1m
draw 1 C
cut 1 C
draw 2 3s
concealed 0? 1m 2m 5m 5mr
river 1? C
river 2?
pon 2 0 1m 1m 1m
chi 0 3 3p 2p 5pr
pon 0 1 5mr 5m 5m
added 2 1m 1m 1m 1m
dora 1p
meld 2 0? added 1m 1m 1m 1m
meld 0 0? chi 2p 3p 5pr
meld 0 1? pon 5m 5m 5mr
meld 0 2? none
meld 3 0? none
concealed 0? 1m 2m 5mr";

/// The first line with a wrong answer or no deed; empty where there is none.
fn wrong_line<'a>(alloc: Global, game: &'a str) -> &'a str {
    let mut deeds = Vec::new(alloc);
    for line in game.lines() {
        if !follow(alloc, &mut deeds, line) {
            return line;
        }
    }
    ""
}

fn follow(alloc: Global, deeds: &mut Vec<Deed>, line: &str) -> bool {
    if let Some((question, told)) = line.split_once('?') {
        return tells(alloc, deeds.as_slice(), question, told.trim());
    }
    is_put(deeds, deed(alloc, line))
}

/// Whether deeds tell this to a question.
fn tells(alloc: Global, deeds: &[Deed], question: &str, told: &str) -> bool {
    let seat = number(word(question, 1));
    match word(question, 0) {
        "concealed" => has_concealed(alloc, deeds, seat, told),
        "river" => has_river(alloc, deeds, seat, told),
        _ => has_meld(alloc, deeds, seat, number(word(question, 2)), told),
    }
}

fn has_river(alloc: Global, deeds: &[Deed], seat: u8, told: &str) -> bool {
    match river(alloc, deeds, seat) {
        Ok(found) => are(found.as_slice(), told),
        Err(_) => false,
    }
}

/// Whether a seat has this meld at a place, the first one at 0, or none there.
fn has_meld(alloc: Global, deeds: &[Deed], seat: u8, place: u8, told: &str) -> bool {
    match melds(alloc, deeds, seat) {
        Ok(found) => stands_at(found.as_slice(), place, told),
        Err(_) => false,
    }
}

fn stands_at(melds: &[Meld], place: u8, told: &str) -> bool {
    let found = melds.get(usize::from(place)).copied();
    if told == "none" {
        return found.is_none();
    }
    found == Some(meld(told))
}

fn has_concealed(alloc: Global, deeds: &[Deed], seat: u8, told: &str) -> bool {
    match concealed(alloc, deeds, seat) {
        Ok(found) => are(found.as_slice(), told),
        Err(_) => false,
    }
}

#[test]
fn deeds_tell_what_a_seat_has(rt: HostRuntime) {
    none_is_wrong(&rt, wrong_line(rt.alloc(), CALLS));
}

/// Whether a list keeps tiles in their order, and stands so in tile order.
fn stand_so(alloc: Global, text: &str, wanted: &str) -> bool {
    let mut list = Tiles::new(alloc);
    push_words(&mut list, text).is_ok() && stands_so(alloc, list.as_slice(), text, wanted)
}

fn push_words(list: &mut Tiles, text: &str) -> Result<(), AllocError> {
    for word in text.split_whitespace() {
        list.push(tile(word))?;
    }
    Ok(())
}

fn stands_so(alloc: Global, tiles: &[Tile], text: &str, wanted: &str) -> bool {
    match Tiles::sorted(alloc, tiles) {
        Ok(sorted) => are(tiles, text) && are(sorted.as_slice(), wanted),
        Err(_) => false,
    }
}

#[test]
fn a_red_five_stands_behind_the_plain_ones(rt: HostRuntime) {
    let sorted = stand_so(rt.alloc(), "C 5pr 6m 5p 5mr 5m 5p", "5m 5mr 6m 5p 5p 5pr C");
    assert!(rt; sorted && ordered(5) == tile("5mr"));
}

/// Puts so many tiles of one face into a list, and one of another behind them.
fn put_alike(list: &mut Tiles, number: usize) -> Result<(), AllocError> {
    list.put_copies(Tile::at(0), number)?;
    list.push(Tile::at(31))
}

/// Whether there are so many tiles and one more, which is another.
fn are_so_many(tiles: &[Tile], number: usize) -> bool {
    tiles.len() == number.saturating_add(1) && tiles.get(number) == Some(&Tile::at(31))
}

/// Whether a list keeps so many tiles and one more behind them, and so do a copy of it and a list of its tiles.
fn keeps_so_many(alloc: Global, number: usize) -> bool {
    let mut list = Tiles::new(alloc);
    put_alike(&mut list, number).is_ok() && stay_so_many(alloc, &list, number)
}

fn stay_so_many(alloc: Global, list: &Tiles, number: usize) -> bool {
    are_so_many(list.as_slice(), number)
        && are_those(list.copy(), list.as_slice())
        && are_those(Tiles::of(alloc, list.as_slice()), list.as_slice())
}

/// Whether a list was made, of these tiles.
fn are_those(made: Result<Tiles, AllocError>, tiles: &[Tile]) -> bool {
    match made {
        Ok(made) => made.as_slice() == tiles,
        Err(_) => false,
    }
}

/// Whether these hands stand at their seats.
fn stand_at_their_seats(hands: &Hands, texts: [&str; 4]) -> bool {
    are(hands.at(0), texts[0])
        && are(hands.at(1), texts[1])
        && are(hands.at(2), texts[2])
        && are(hands.at(3), texts[3])
}

/// Four hands stand at their seats, and so do copies of them.
struct AtTheirSeats;

impl Of<Hands> for AtTheirSeats {
    fn is_as(alloc: Global, four: &Hands, told: &str) -> bool {
        stand_at_their_seats(four, TEXTS)
            && is_as::<Hands, CopyAtTheirSeats>(alloc, four.copy().ok(), told)
    }
}

struct CopyAtTheirSeats;

impl Of<Hands> for CopyAtTheirSeats {
    fn is_as(_alloc: Global, four: &Hands, _told: &str) -> bool {
        stand_at_their_seats(four, TEXTS)
    }
}

/// Whether the first hand and the last are shown, and of the others the numbers alone.
fn are_shown(shown: &ShownHands, texts: [&str; 4]) -> bool {
    let numbers = [
        shown.hidden(0),
        shown.hidden(1),
        shown.hidden(2),
        shown.hidden(3),
    ];
    numbers == [None, Some(13), Some(0), None]
        && are(shown.at(0), texts[0])
        && shown.at(1).is_empty()
        && shown.at(2).is_empty()
        && are(shown.at(3), texts[3])
}

fn keep_their_seats(alloc: Global) -> bool {
    is_as::<Hands, AtTheirSeats>(alloc, hands(alloc, TEXTS), "")
}

/// Hands are shown or hidden so, and so are copies of them.
struct AreShown;

impl Of<ShownHands> for AreShown {
    fn is_as(alloc: Global, shown: &ShownHands, told: &str) -> bool {
        are_shown(shown, TEXTS) && is_as::<ShownHands, CopyAreShown>(alloc, shown.copy().ok(), told)
    }
}

struct CopyAreShown;

impl Of<ShownHands> for CopyAreShown {
    fn is_as(_alloc: Global, shown: &ShownHands, _told: &str) -> bool {
        are_shown(shown, TEXTS)
    }
}

/// Hands of which the first and the last are shown.
fn shown(alloc: Global, four: Option<Hands>) -> Option<ShownHands> {
    let hidden = Four {
        first: None,
        second: Some(13),
        third: Some(0),
        fourth: None,
    };
    match four {
        Some(four) => ShownHands::of(alloc, four, hidden).ok(),
        None => None,
    }
}

fn stay_shown(alloc: Global) -> bool {
    is_as::<ShownHands, AreShown>(alloc, shown(alloc, hands(alloc, TEXTS)), "")
}

const TEXTS: [&str; 4] = ["1m 2m 3m", "5p 5p 6p", "", "E E S C"];

#[test]
fn each_seat_has_its_own_hand_shown_or_hidden(rt: HostRuntime) {
    assert!(rt; keep_their_seats(rt.alloc()) && stay_shown(rt.alloc()));
}

/// Whether each seat has its name.
fn are_named(names: &Names, four: &Four<Name>) -> bool {
    for seat in 0..4 {
        if names.four().at(seat) != four.at(seat) {
            return false;
        }
    }
    true
}

/// Whether four names stay at their seats, and so do copies of them.
fn stay_named(alloc: Global, four: Four<Name>) -> bool {
    match Names::of(alloc, four) {
        Ok(names) => match names.copy() {
            Ok(copied) => are_named(&names, &four) && are_named(&copied, &four),
            Err(_) => false,
        },
        Err(_) => false,
    }
}

/// Whether each seat has its own of four, and its next.
fn seats_are_four() -> bool {
    let four = Four {
        first: 10,
        second: 11,
        third: 12,
        fourth: 13,
    };
    [*four.at(0), *four.at(1), *four.at(2), *four.at(3)] == [10, 11, 12, 13]
        && [next_seat(0), next_seat(1), next_seat(2), next_seat(3)] == [1, 2, 3, 0]
}

#[test]
fn each_seat_has_its_own_name(rt: HostRuntime) {
    assert!(rt; stay_named(rt.alloc(), names()) && seats_are_four());
}

/// A deed, and whether it is a call, the seat that makes a kan by it, `-` for none, and whether it starts a hand.
const NAMED: &str = "\
chi 1 0 3m 4m 5m=yes - no
pon 1 0 3m 3m 3m=yes - no
open 3 0 3m 3m 3m 3m=yes 3 no
closed 2 1p 1p 1p 1p=yes 2 no
added 1 1p 1p 1p 1p=yes 1 no
cut 2 1p=no - no
dora 1p=no - no
hand|P|1m|1m|1m|1m=no - yes";

struct IsNamed;

impl Of<Deed> for IsNamed {
    fn is_as(alloc: Global, deed: &Deed, named: &str) -> bool {
        is_as::<Deed, CopyIsNamed>(alloc, deed.copy().ok(), named)
    }
}

struct CopyIsNamed;

impl Of<Deed> for CopyIsNamed {
    fn is_as(_alloc: Global, deed: &Deed, named: &str) -> bool {
        let kan = number_or_none(word(named, 1));
        seat_of_kan(deed) == kan
            && [is_call(deed), is_kan(deed), is_hand_start(deed)]
                == [yes(word(named, 0)), kan.is_some(), yes(word(named, 2))]
    }
}

#[test]
fn a_kan_is_a_call_of_its_seat(rt: HostRuntime) {
    ask_deeds::<HostRuntime, IsNamed>(&rt, rt.alloc(), NAMED);
}

#[test]
fn a_hidden_tile_is_not_known(rt: HostRuntime) {
    assert!(rt;
        [Pai::Known(tile("5pr")).known(), Pai::Hidden.known()] == [Some(tile("5pr")), None]
    );
}

/// Whether a list keeps the rows put in.
fn keeps_these(alloc: Global) -> bool {
    are_rows(YakuList::of(alloc, &[(3, 1), (28, 2)]), &[(3, 1), (28, 2)])
}

/// Whether a list was made, of these rows.
fn are_rows(made: Result<YakuList, AllocError>, rows: &[(u8, u8)]) -> bool {
    match made {
        Ok(made) => made.as_slice() == rows,
        Err(_) => false,
    }
}

/// Whether a list keeps so many rows, at most 45, and so does a copy of it.
fn keeps_rows(alloc: Global, number: u8) -> bool {
    let mut list = YakuList::new(alloc);
    let mut wanted = Vec::new(alloc);
    push_rows(&mut list, &mut wanted, number).is_ok() && stay_rows(&list, wanted.as_slice())
}

fn push_rows(
    list: &mut YakuList,
    wanted: &mut Vec<(u8, u8)>,
    number: u8,
) -> Result<(), AllocError> {
    for row in 0..45 {
        if row < number {
            list.push(row, 1)?;
            wanted.push((row, 1))?;
        }
    }
    Ok(())
}

fn stay_rows(list: &YakuList, wanted: &[(u8, u8)]) -> bool {
    list.as_slice() == wanted && are_rows(list.copy(), wanted)
}

/// Whether lists of tiles and of rows have no bound.
fn are_unbounded(alloc: Global) -> bool {
    let mut all = keeps_these(alloc);
    for number in [0, 12, 13, 14, 15, 40] {
        all = keeps_so_many(alloc, number) && all;
    }
    for number in [0, 6, 7, 8, 45] {
        all = keeps_rows(alloc, number) && all;
    }
    all
}

#[test]
fn a_list_of_tiles_or_rows_has_no_bound(rt: HostRuntime) {
    assert!(rt; are_unbounded(rt.alloc()));
}
