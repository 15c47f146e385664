//! Lines that are kept.

use crate::lent::with;
use mj_deeds::{Answers, Deed, Four, SeatList, Tiles, YakuList};
use mj_streams::Streams;
use mj_tiles::Tile;
use std::alloc::{AllocError, Global};

// The tile 5p.
fn five() -> Tile {
    Tile::at(13)
}

// Whether a draw of seat 2 is added.
fn push_draw(alloc: Global, streams: &mut Streams) -> bool {
    push(
        alloc,
        streams,
        Deed::Draw {
            seat: 2,
            tile: five(),
            replacement: false,
        },
    )
}

fn push_reach(alloc: Global, streams: &mut Streams, seat: u8) -> bool {
    push(alloc, streams, Deed::Reach { seat })
}

// Whether a deed is added to which each seat may only pass.
fn push(alloc: Global, streams: &mut Streams, deed: Deed) -> bool {
    with(Some(deed), |deed| push_lent(alloc, streams, deed))
}

fn push_lent(alloc: Global, streams: &mut Streams, deed: &Deed) -> bool {
    with(Some(passes()), |possible| {
        streams.push_alone(alloc, deed, possible).is_ok()
    })
}

fn passes() -> Four<Answers> {
    Four {
        first: Answers::pass_alone(),
        second: Answers::pass_alone(),
        third: Answers::pass_alone(),
        fourth: Answers::pass_alone(),
    }
}

// Whether a reach of each seat in turn is added so many times.
fn push_reaches(alloc: Global, streams: &mut Streams, rounds: u16) -> bool {
    let mut added = true;
    for _ in 0..rounds {
        for seat in 0..4u8 {
            added = push_reach(alloc, streams, seat) && added;
        }
    }
    added
}

// A seat, the number of a deed, and the line of it; none where there are no more deeds.
#[derive(Clone, Copy)]
struct Line(u8, u32, Option<&'static str>);

fn have(streams: &Streams, lines: &[Line]) -> bool {
    let mut right = true;
    for line in lines {
        let Line(seat, k, text) = *line;
        right = right && streams.line(seat % 4, k) == text.map(str::as_bytes);
    }
    right
}

const HIDDEN: &str =
    "{\"type\":\"tsumo\",\"actor\":2,\"pai\":\"?\",\"possible_actions\":[{\"type\":\"none\"}]}\n";

const DRAWN: &str =
    "{\"type\":\"tsumo\",\"actor\":2,\"pai\":\"5p\",\"possible_actions\":[{\"type\":\"none\"}]}\n";

const REACH: &str = "{\"type\":\"reach\",\"actor\":2,\"possible_actions\":[{\"type\":\"none\"}]}\n";

const FEW: [Line; 8] = [
    Line(0, 0, Some(HIDDEN)),
    Line(1, 0, Some(HIDDEN)),
    Line(2, 0, Some(DRAWN)),
    Line(3, 0, Some(HIDDEN)),
    Line(1, 1, Some(REACH)),
    Line(2, 1, Some(REACH)),
    Line(0, 2, None),
    Line(2, 2, None),
];

// Whether a draw and a reach of seat 2 are kept so.
fn few_are_kept(alloc: Global, streams: &mut Streams) -> bool {
    push_draw(alloc, streams) && push_reach(alloc, streams, 2) && have(streams, &FEW)
}

fn keep_few(alloc: Global) -> bool {
    with(
        Streams::new(alloc).ok(),
        |streams| few_are_kept(alloc, streams),
    )
}

#[test]
fn each_seat_has_its_line_of_each_deed_and_none_behind_the_last(rt: HostRuntime) {
    assert!(rt; keep_few(rt.alloc()));
}

// Whether a win is added that shows so many tiles.
fn push_win(alloc: Global, streams: &mut Streams, shown: usize) -> bool {
    match win(alloc, shown) {
        Ok(win) => push(alloc, streams, win),
        Err(_) => false,
    }
}

fn win(alloc: Global, shown: usize) -> Result<Deed, AllocError> {
    let mut hand = Tiles::new(alloc);
    hand.put_copies(five(), shown)?;
    Ok(Deed::Win {
        seat: 0,
        target: 0,
        tile: five(),
        unders: Tiles::new(alloc),
        hand,
        yaku: YakuList::new(alloc),
        fu: 30,
        han: 1,
        value: 1000,
        deltas: [0; 4],
        points: [0; 4],
        rest: SeatList::of(&[]),
    })
}

const FIRST_REACH: &str =
    "{\"type\":\"reach\",\"actor\":0,\"possible_actions\":[{\"type\":\"none\"}]}\n";

const LAST_REACH: &str =
    "{\"type\":\"reach\",\"actor\":3,\"possible_actions\":[{\"type\":\"none\"}]}\n";

const LONG: [Line; 5] = [
    Line(0, 0, Some(FIRST_REACH)),
    Line(0, 1023, Some(LAST_REACH)),
    Line(3, 1024, Some(FIRST_REACH)),
    Line(1, 2799, Some(LAST_REACH)),
    Line(2, 2801, Some(LAST_REACH)),
];

// Whether this is the line of the win: 20,000 quoted tiles with commas between, and what stands before and after them.
fn is_win(line: &[u8]) -> bool {
    line.len() == 83 + 99_999 + 124
        && line.starts_with(
            b"{\"type\":\"hora\",\"actor\":0,\"target\":0,\"pai\":\"5p\",\"uradora_markers\":[],\"hora_tehais\":[\"5p\",\"5p\",",
        )
        && line.ends_with(
            b"\"hora_points\":1000,\"deltas\":[0,0,0,0],\"scores\":[0,0,0,0],\"possible_actions\":[{\"type\":\"none\"}]}\n",
        )
}

// Whether 2,800 reaches of the seats in turn, a win that shows 20,000 tiles, and a reach of seat 3 are kept so.
fn many_are_kept(alloc: Global, streams: &mut Streams) -> bool {
    push_reaches(alloc, streams, 700)
        && push_win(alloc, streams, 20_000)
        && push_reach(alloc, streams, 3)
        && have(streams, &LONG)
        && match streams.line(1, 2800) {
            Some(line) => is_win(line),
            None => false,
        }
}

fn keep_many(alloc: Global) -> bool {
    with(
        Streams::new(alloc).ok(),
        |streams| many_are_kept(alloc, streams),
    )
}

// A page has 65,536 bytes, so it takes 1,024 lines of a reach, and the win has a page of its own.
#[test]
fn lines_stay_as_they_are_at_the_end_of_a_page_and_beside_one_longer_than_a_page(rt: HostRuntime) {
    assert!(rt; keep_many(rt.alloc()));
}
