use crate::asking::ask_deeds;
use mj_deeds::{Bid, Deed, Four, Reason, SeatList, ShownHands, Tiles, Token, Viewer};
use mj_ports::Name;
use mj_tiles::Tile;
use mj_view::{Masked, SeenHands, mask, token};
use std::alloc::Global;
use test_words::{
    Of, are, bid, field, is_as, number, number_or_none, parted, seats, tile, tile_or_none, word,
    yes,
};

/// A deed, a seat, and what the token of it says: a start of a game the names; a draw its seat and its tile or
/// `none`; a discard its seat and its tile, and whether it was drawn; a start of a hand the indicator and the own tiles; a win
/// its seat, its target and its tile; a drawn hand the tiles of the dealer, and of how many tiles the other hands are. Two
/// hands are told alike until the others' tiles are shown.
const TOKENS: &str = "\
draw 0 1m=0 0 1m
draw 0 1m=1 0 none
replace 2 5pr=2 2 5pr
draw 3 E=0 3 none
hand|C|13m|2p 5s|EE|=0 C|1m 3m
hand|C|13m|2p 5s|EE|=1 C|2p 5s
hand|C|13m|2p 5s|EE|=2 C|E E
hand|C|13m|2p 5s|EE|=3 C|
game=0 a b c d
hand|F|1111222233334m|4445555666677m|7788889999m 111p|1222233334444p=0 F|1m 1m 1m 1m 2m 2m 2m 2m 3m 3m 3m 3m 4m
hand|F|1111222233334m|4455556666777m|4788889999m 111p|1222233334444p=0 F|1m 1m 1m 1m 2m 2m 2m 2m 3m 3m 3m 3m 4m
hand|F|1111222233334m|4445555666677m|7788889999m 111p|1222233334444p=1 F|4m 4m 4m 5m 5m 5m 5m 6m 6m 6m 6m 7m 7m
hand|F|1111222233334m|4455556666777m|4788889999m 111p|1222233334444p=1 F|4m 4m 5m 5m 5m 5m 6m 6m 6m 6m 7m 7m 7m
draw 1 5p=0 1 none
draw 1 6p=0 1 none
cut 1 5p=0 1 5p yes
drawn|yes no no no|3000 -1000 -1000 -1000|33000 29000 29000 29000|fanpai|12m E|0 1 3=0 1m 2m E|0 1 3
drawn|yes no no no|3000 -1000 -1000 -1000|33000 29000 29000 29000|fanpai|13m E|0 1 3=0 1m 3m E|0 1 3
win|1|0|5p|-1000 1000 0 0|29000 31000 30000 30000|2=0 1 0 5p
win|1|0|5p|-1000 1000 0 0|29000 31000 30000 30000|=1 1 0 5p";

/// The viewer that a line of a table names, and what is told to it.
pub(crate) fn seen_by(told: &str) -> (Viewer, &str) {
    let (viewer, told) = parted(told, ' ');
    (viewer_of(viewer), told)
}

/// The seat of a number, or the record.
fn viewer_of(text: &str) -> Viewer {
    match number_or_none(text) {
        Some(seat) => Viewer::Seat(seat),
        None => Viewer::Record,
    }
}

struct HasToken;

impl Of<Deed> for HasToken {
    fn is_as(alloc: Global, deed: &Deed, told: &str) -> bool {
        match seen_by(told) {
            (Viewer::Seat(seat), told) => {
                is_as::<Token, IsToken>(alloc, token(alloc, seat, deed).ok(), told)
            }
            _ => false,
        }
    }
}

struct IsToken;

impl Of<Token> for IsToken {
    fn is_as(_alloc: Global, found: &Token, wanted: &str) -> bool {
        match found {
            Token::StartGame { names } => are_names(names, wanted),
            Token::Draw { seat, tile } => is_draw(*seat, *tile, wanted),
            Token::Discard { seat, tile, drawn } => is_discard(*seat, *tile, *drawn, wanted),
            Token::DrawnHand { reason, hands } => is_drawn_hand(*reason, hands, wanted),
            Token::StartHand { indicator, hand } => is_start(*indicator, hand, wanted),
            Token::Win {
                seat,
                target,
                tile,
                unders,
                hand,
            } => is_win(*seat, *target, *tile, wanted) && are_none(unders) && are_none(hand),
            _ => false,
        }
    }
}

fn is_draw(seat: u8, drawn: Option<Tile>, wanted: &str) -> bool {
    seat == number(word(wanted, 0)) && drawn == tile_or_none(word(wanted, 1))
}

fn is_start(indicator: Tile, hand: &Tiles, wanted: &str) -> bool {
    indicator == tile(field(wanted, 0)) && are(hand.as_slice(), field(wanted, 1))
}

fn are_names(names: &Four<Name>, wanted: &str) -> bool {
    is_name(&names.first, word(wanted, 0))
        && is_name(&names.second, word(wanted, 1))
        && is_name(&names.third, word(wanted, 2))
        && is_name(&names.fourth, word(wanted, 3))
}

fn is_name(name: &Name, wanted: &str) -> bool {
    name.as_slice() == wanted.as_bytes()
}

fn is_discard(seat: u8, discarded: Tile, drawn: bool, wanted: &str) -> bool {
    is_draw(seat, Some(discarded), wanted) && drawn == yes(word(wanted, 2))
}

fn is_drawn_hand(reason: Reason, hands: &ShownHands, wanted: &str) -> bool {
    reason == Reason::Fanpai
        && hands.hidden(0).is_none()
        && are(hands.at(0), field(wanted, 0))
        && have_hidden(hands, field(wanted, 1))
}

fn have_hidden(hands: &ShownHands, numbers: &str) -> bool {
    [hands.hidden(1), hands.hidden(2), hands.hidden(3)]
        == [
            number_or_none(word(numbers, 0)),
            number_or_none(word(numbers, 1)),
            number_or_none(word(numbers, 2)),
        ]
}

fn is_win(seat: u8, target: u8, won: Tile, wanted: &str) -> bool {
    [seat, target] == [number(word(wanted, 0)), number(word(wanted, 1))]
        && won == tile(word(wanted, 2))
}

fn are_none(tiles: &Tiles) -> bool {
    tiles.as_slice().is_empty()
}

#[test]
fn a_token_has_the_own_tiles_alone(rt: HostRuntime) {
    ask_deeds::<HostRuntime, HasToken>(&rt, rt.alloc(), TOKENS);
}

/// A deed, a seat or the record, and what it sees of it: of a draw its seat and its tile or `none`; of a start of a hand
/// the tiles of each seat, or `hidden` and their number; of an accepted reach the call that is kept, and of a win the
/// seats that win next, or `none`.
const MASKS: &str = "\
draw 0 1m=0 0 1m
draw 0 1m=1 0 none
draw 0 1m=record 0 1m
hand|C|13m|2p 5s|E|=0 1m 3m|hidden 2|hidden 1|hidden 0
hand|C|13m|2p 5s|E|=2 hidden 2|hidden 2|E|hidden 0
hand|C|13m|2p 5s|E|=record 1m 3m|2p 5s|E|
accepted|0|29000 30000 30000 30000|pon 1 0 E E E=1 none
accepted|0|29000 30000 30000 30000|pon 1 0 E E E=record pon 1 0 E E E
win|1|0|5p|-1000 1000 0 0|29000 31000 30000 30000|2=2 none
win|1|0|5p|-1000 1000 0 0|29000 31000 30000 30000|2=record 2";

struct HasMask;

impl Of<Deed> for HasMask {
    fn is_as(alloc: Global, deed: &Deed, told: &str) -> bool {
        let (viewer, told) = seen_by(told);
        is_as::<Masked, IsMask>(alloc, mask(alloc, viewer, deed).ok(), told)
    }
}

struct IsMask;

impl Of<Masked> for IsMask {
    fn is_as(_alloc: Global, found: &Masked, wanted: &str) -> bool {
        match found {
            Masked::Draw { seat, tile, .. } => is_draw(*seat, *tile, wanted),
            Masked::StartHand { hands, .. } => are_hands(hands, wanted),
            Masked::ReachAccepted { then, .. } => *then == seen_bid(wanted),
            Masked::Win { rest, .. } => *rest == seen_seats(wanted),
            _ => false,
        }
    }
}

/// The call that is seen, or `none`.
fn seen_bid(text: &str) -> Option<Bid> {
    match text {
        "none" => None,
        _ => Some(bid(text)),
    }
}

/// The seats that are seen, or `none`.
fn seen_seats(text: &str) -> Option<SeatList> {
    match text {
        "none" => None,
        _ => Some(seats(text)),
    }
}

fn are_hands(hands: &SeenHands, wanted: &str) -> bool {
    is_hand(hands.at(0), hands.hidden(0), field(wanted, 0))
        && is_hand(hands.at(1), hands.hidden(1), field(wanted, 1))
        && is_hand(hands.at(2), hands.hidden(2), field(wanted, 2))
        && is_hand(hands.at(3), hands.hidden(3), field(wanted, 3))
}

fn is_hand(seen: &[Tile], hidden: Option<usize>, wanted: &str) -> bool {
    match wanted.strip_prefix("hidden ") {
        Some(text) => seen.is_empty() && hidden == Some(usize::from(number(text))),
        None => hidden.is_none() && are(seen, wanted),
    }
}

#[test]
fn a_seat_sees_its_own_tiles_and_the_record_all(rt: HostRuntime) {
    ask_deeds::<HostRuntime, HasMask>(&rt, rt.alloc(), MASKS);
}
