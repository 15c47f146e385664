//! Deeds, answers and bids as lines, read for the tests: `game`; `hand|P|123m|..`, with the indicator and the tiles
//! of the four seats; `draw 0 1m` and `replace 0 1m`; `discard 0 1m`, and `cut 0 1m` for a drawn tile; `chi 1 0 3m 4m
//! 5m` by seat 1 of the tile of seat 0; `pon` and `open` likewise; `closed 0 1m 1m 1m 1m`; `added 0 E E E E`; `dora
//! 9p`; `reach 0`; `accepted|0|29000 30000 30000 30000`, with the call that is kept behind it; `win|1|0|5p|-1000 1000
//! 0 0|29000 31000 30000 30000|2`, with what each gains, the points, and the winners that follow, and after it the hand
//! where it is shown; `drawn|yes no no no|3000 -1000 -1000 -1000|33000 29000 29000 29000` at the last tile, with the reason
//! after it where there is another, the tiles of the dealer, and of how many tiles the other hands are; `end`;
//! `over|30000 30000 30000 30000|0`.

ghost use Rattle.std.specs.Prelude.{◌≤◌};

use crate::lent::{Of, is_as};
use crate::words::{
    field, kind, number, number_or_none, parted, points, tile, tile_or_none, tiles, truths, word,
};
use mj_deeds::{
    Answer, Bid, Deed, Four, Hands, Names, Pai, Reason, SeatList, ShownHands, Tiles, YakuList,
};
use mj_ports::Name;
use mj_tiles::{Form, Meld, Tile};
use std::alloc::Global;

/// The first line of a table whose deed isn't as the line says: the deed, `=`, and what is told of it; empty where there is none.
pub fn wrong_deed<'a, Q: Of<Deed>>(alloc: Global, lines: &'a str) -> &'a str {
    for line in lines.lines() {
        if !deed_is_as::<Q>(alloc, line) {
            return line;
        }
    }
    ""
}

/// Whether the deed of a line is as the line says.
fn deed_is_as<Q: Of<Deed>>(alloc: Global, line: &str) -> bool {
    let (text, told) = parted(line, '=');
    is_as::<Deed, Q>(alloc, deed(alloc, text), told)
}

/// The deed of a line.
pub fn deed(alloc: Global, line: &str) -> Option<Deed> {
    if line.contains('|') {
        return deed_of_fields(alloc, line);
    }
    match word(line, 0) {
        "game" => start_game(alloc),
        "chi" | "pon" | "open" => bid(line).deed(),
        _ => deed_by_itself(line),
    }
}

fn deed_of_fields(alloc: Global, line: &str) -> Option<Deed> {
    let (name, rest) = parted(line, '|');
    match name {
        "hand" => start_hand(alloc, "E 0 0 0", rest),
        "deal" => start_later(alloc, rest),
        "win" => win(alloc, line),
        "drawn" => drawn_hand(alloc, line),
        "accepted" => Some(Deed::ReachAccepted {
            seat: number(field(line, 1)),
            points: points(field(line, 2)),
            then: bid(field(line, 3)),
        }),
        _ => Some(Deed::EndGame {
            points: points(field(line, 1)),
            deposits: u32::from(number(field(line, 2))),
        }),
    }
}

fn win(alloc: Global, line: &str) -> Option<Deed> {
    let hand = tiles(alloc, field(line, 7))?;
    let yaku = yaku(alloc, field(line, 7))?;
    Some(win_with(alloc, line, hand, yaku))
}

fn win_with(alloc: Global, line: &str, hand: Tiles, yaku: YakuList) -> Deed {
    let (fu, han, value) = worth(field(line, 7));
    Deed::Win {
        seat: number(field(line, 1)),
        target: number(field(line, 2)),
        tile: tile(field(line, 3)),
        unders: Tiles::new(alloc),
        hand,
        yaku,
        fu,
        han,
        value,
        deltas: points(field(line, 4)),
        points: points(field(line, 5)),
        rest: seats(field(line, 6)),
    }
}

/// The fu, the han and the value of a hand that is shown, or of one that isn't.
fn worth(hand: &str) -> (u8, u8, u32) {
    if hand.is_empty() {
        (30, 1, 1000)
    } else {
        (20, 3, 2700)
    }
}

/// A hand that is shown was drawn and has pinfu and tanyao.
fn yaku(alloc: Global, hand: &str) -> Option<YakuList> {
    if hand.is_empty() {
        return Some(YakuList::new(alloc));
    }
    YakuList::of(alloc, &[(3, 1), (4, 1), (6, 1)]).ok()
}

/// At most two seats.
pub fn seats(text: &str) -> SeatList {
    match (number_or_none(word(text, 0)), number_or_none(word(text, 1))) {
        (Some(first), Some(second)) => SeatList::of(&[first, second]),
        (Some(first), None) => SeatList::of(&[first]),
        _ => SeatList::of(&[]),
    }
}

fn drawn_hand(alloc: Global, line: &str) -> Option<Deed> {
    let hands = hands(alloc, [field(line, 5), "", "", ""])?;
    match ShownHands::of(alloc, hands, hidden(field(line, 6))) {
        Ok(shown) => Some(drawn_with(line, shown)),
        Err(_) => None,
    }
}

fn drawn_with(line: &str, hands: ShownHands) -> Deed {
    Deed::DrawnHand {
        reason: reason(field(line, 4)),
        hands,
        ready: truths(field(line, 1)),
        deltas: points(field(line, 2)),
        points: points(field(line, 3)),
    }
}

/// Of how many tiles the hands are that aren't shown: those of all seats where there is no text.
fn hidden(text: &str) -> Four<Option<u8>> {
    if text.is_empty() {
        return Four {
            first: Some(13),
            second: Some(13),
            third: Some(13),
            fourth: Some(13),
        };
    }
    Four {
        first: None,
        second: number_or_none(word(text, 0)),
        third: number_or_none(word(text, 1)),
        fourth: number_or_none(word(text, 2)),
    }
}

/// The reason for a drawn hand.
fn reason(text: &str) -> Reason {
    match text {
        "kyushukyuhai" => Reason::Kyushukyuhai,
        "suufonrenta" => Reason::Suufonrenta,
        "suuchareach" => Reason::Suuchareach,
        "suukaikan" => Reason::Suukaikan,
        _ => Reason::Fanpai,
    }
}

/// The names of the four seats.
pub fn names() -> Four<Name> {
    Four {
        first: Name::of(b"a"),
        second: Name::of(b"b"),
        third: Name::of(b"c"),
        fourth: Name::of(b"d"),
    }
}

fn start_game(alloc: Global) -> Option<Deed> {
    match Names::of(alloc, names()) {
        Ok(names) => Some(Deed::StartGame { names }),
        Err(_) => None,
    }
}

/// A hand of another standing: its round, the number of its dealer, the honba and the deposits.
fn start_later(alloc: Global, line: &str) -> Option<Deed> {
    let (standing, rest) = parted(line, '|');
    start_hand(alloc, standing, rest)
}

/// A hand of a standing, the indicator and the tiles of the four seats.
fn start_hand(alloc: Global, standing: &str, line: &str) -> Option<Deed> {
    let texts = [
        field(line, 1),
        field(line, 2),
        field(line, 3),
        field(line, 4),
    ];
    match hands(alloc, texts) {
        Some(hands) => Some(start(standing, tile(field(line, 0)), hands)),
        None => None,
    }
}

fn start(standing: &str, indicator: Tile, hands: Hands) -> Deed {
    let dealer = number(word(standing, 1));
    Deed::StartHand {
        round: kind(word(standing, 0)),
        number: dealer.saturating_add(1),
        honba: u32::from(number(word(standing, 2))),
        deposits: u32::from(number(word(standing, 3))),
        dealer,
        indicator,
        hands,
    }
}

/// The tiles of the four seats, each told by a text.
pub fn hands(alloc: Global, texts: [&str; 4]) -> Option<Hands> {
    let mut hands = Vec::new(alloc);
    for text in texts {
        hands.push(tiles(alloc, text)?).ok()?;
    }
    match hands.as_slice() {
        [first, second, third, fourth] => Hands::of(
            alloc,
            first.as_slice(),
            second.as_slice(),
            third.as_slice(),
            fourth.as_slice(),
        )
        .ok(),
        _ => None,
    }
}

/// What a seat does by itself in a line's words, or another deed without fields.
fn deed_by_itself(line: &str) -> Option<Deed> {
    let seat = number(word(line, 1));
    let Four {
        first,
        second,
        third,
        fourth,
    } = tiles_from(line, 2);
    match word(line, 0) {
        "draw" => Some(Deed::Draw {
            seat,
            tile: first,
            replacement: false,
        }),
        "replace" => Some(Deed::Draw {
            seat,
            tile: first,
            replacement: true,
        }),
        "discard" => Some(Deed::Discard {
            seat,
            tile: first,
            drawn: false,
        }),
        "cut" => Some(Deed::Discard {
            seat,
            tile: first,
            drawn: true,
        }),
        "closed" => Some(Deed::ClosedKan {
            seat,
            a: first,
            b: second,
            c: third,
            d: fourth,
        }),
        "added" => Some(Deed::AddedKan {
            seat,
            tile: first,
            a: second,
            b: third,
            c: fourth,
        }),
        "dora" => Some(Deed::Dora {
            tile: tile(word(line, 1)),
        }),
        "reach" => Some(Deed::Reach { seat }),
        "end" => Some(Deed::EndHand),
        _ => None,
    }
}

/// The tiles of four words of a line, from a place on.
fn tiles_from(line: &str, place: usize) -> Four<Tile>
    requires { place ≤ 3 }
{
    Four {
        first: tile(word(line, place)),
        second: tile(word(line, place + 1)),
        third: tile(word(line, place + 2)),
        fourth: tile(word(line, place + 3)),
    }
}

/// The bid of a line: a chi, a pon or an open kan, or none.
pub fn bid(line: &str) -> Bid {
    let (seat, target) = (number(word(line, 1)), number(word(line, 2)));
    let Four {
        first: tile,
        second: a,
        third: b,
        fourth: c,
    } = tiles_from(line, 3);
    match word(line, 0) {
        "chi" => Bid::Chi {
            seat,
            target,
            tile,
            a,
            b,
        },
        "pon" => Bid::Pon {
            seat,
            target,
            tile,
            a,
            b,
        },
        "open" => Bid::OpenKan {
            seat,
            target,
            tile,
            a,
            b,
            c,
        },
        _ => Bid::NoBid,
    }
}

/// The answer of a line, which stands as a deed's, or is `pass`, or `pass 0` with its actor, `ron 1 0` or `ron 1 0 5p` by seat 1
/// on a tile of seat 0, or `nine 0`; `unread` and another word are an unread one. A hidden tile is `*`.
pub fn answer(line: &str) -> Answer {
    let actor = number(word(line, 1));
    match word(line, 0) {
        "pass" => Answer::Pass {
            actor: number_or_none(word(line, 1)),
        },
        "reach" => Answer::Reach { actor },
        "ron" => Answer::Win {
            actor,
            target: number(word(line, 2)),
            tile: pai_or_none(word(line, 3)),
        },
        "nine" => Answer::NineKinds { actor },
        "chi" | "pon" | "open" => answer_by_call(line, actor),
        _ => answer_by_itself(line, actor),
    }
}

/// The tile of a text, or a hidden one.
fn pai(text: &str) -> Pai {
    if text == "*" {
        Pai::Hidden
    } else {
        Pai::Known(tile(text))
    }
}

fn pai_or_none(text: &str) -> Option<Pai> {
    if text.is_empty() {
        None
    } else {
        Some(pai(text))
    }
}

/// The tiles of four words of a line, from a place on, known or hidden.
fn pais_from(line: &str, place: usize) -> Four<Pai>
    requires { place ≤ 3 }
{
    Four {
        first: pai(word(line, place)),
        second: pai(word(line, place + 1)),
        third: pai(word(line, place + 2)),
        fourth: pai(word(line, place + 3)),
    }
}

fn answer_by_itself(line: &str, actor: u8) -> Answer {
    let Four {
        first,
        second,
        third,
        fourth,
    } = pais_from(line, 2);
    match word(line, 0) {
        "discard" => Answer::Discard {
            actor,
            tile: first,
            drawn: false,
        },
        "cut" => Answer::Discard {
            actor,
            tile: first,
            drawn: true,
        },
        "closed" => Answer::ClosedKan {
            actor,
            a: first,
            b: second,
            c: third,
            d: fourth,
        },
        "added" => Answer::AddedKan {
            actor,
            tile: first,
            a: second,
            b: third,
            c: fourth,
        },
        _ => Answer::Unread,
    }
}

fn answer_by_call(line: &str, actor: u8) -> Answer {
    let target = number(word(line, 2));
    let Four {
        first: tile,
        second: a,
        third: b,
        fourth: c,
    } = pais_from(line, 3);
    match word(line, 0) {
        "chi" => Answer::Chi {
            actor,
            target,
            tile,
            a,
            b,
        },
        "pon" => Answer::Pon {
            actor,
            target,
            tile,
            a,
            b,
        },
        _ => Answer::OpenKan {
            actor,
            target,
            tile,
            a,
            b,
            c,
        },
    }
}

/// The word for a deed.
pub fn name(deed: Option<&Deed>) -> &'static str {
    match deed {
        None => "none",
        Some(Deed::StartGame { .. }) => "game",
        Some(Deed::StartHand { .. }) => "hand",
        Some(Deed::Draw { .. }) => "draw",
        Some(Deed::Discard { .. }) => "discard",
        Some(Deed::Chi { .. }) => "chi",
        Some(Deed::Pon { .. }) => "pon",
        Some(Deed::OpenKan { .. }) => "open",
        Some(Deed::ClosedKan { .. }) => "closed",
        Some(Deed::AddedKan { .. }) => "added",
        Some(Deed::Dora { .. }) => "dora",
        Some(Deed::Reach { .. }) => "reach",
        Some(Deed::ReachAccepted { .. }) => "accepted",
        Some(Deed::Win { .. }) => "win",
        Some(Deed::DrawnHand { .. }) => "drawn",
        Some(Deed::EndHand) => "end",
        Some(Deed::EndGame { .. }) => "over",
    }
}

/// A meld: its form and its tiles, as `chi 2m 3m 4m`.
pub fn meld(text: &str) -> Meld {
    Meld {
        form: form_of(word(text, 0)),
        a: tile(word(text, 1)),
        b: tile(word(text, 2)),
        c: tile(word(text, 3)),
        d: tile_or_none(word(text, 4)),
    }
}

fn form_of(word: &str) -> Form {
    match word {
        "chi" => Form::Chi,
        "pon" => Form::Pon,
        "open" => Form::OpenKan,
        "closed" => Form::ClosedKan,
        _ => Form::AddedKan,
    }
}
