//! The jobs: each goes through hands and sums up what a call answers.

ghost use Rattle.std.specs.Prelude.{◌≡◌, sum};
ghost use Rattle.mj_tiles.specs.Counts.{NoFifth};

use crate::hands::{Hand, Hands, ROOM, room_beside, without_first};
use mj_readings::{Case, Riichi, readings};
use mj_score::{Extra, worth};
use mj_shanten::{Suits, shanten};
use mj_suits::partitions;
use mj_tiles::{Counts, Form, Kind, Kinds, Meld, Tile};
use mj_waits::waits;
use mj_yaku::is_closed;
use std::alloc::{AllocError, Global};

/// What is timed.
#[derive(Clone, Copy)]
pub enum Job {
    Waits,
    WaitsOfReady,
    Readings,
    Partitions,
    Worth,
    Shanten,
    Number,
    BestDiscard,
    WaitsOfOpen,
    ReadingsOfOpen,
    WorthOfOpen,
}

/// All jobs with what they are called, in the order in which they are printed.
pub const JOBS: [(Job, &str); 11] = [
    (Job::Waits, "waits of 13 tiles, each sixteenth hand ready"),
    (Job::WaitsOfReady, "waits of a ready hand"),
    (Job::Readings, "readings of a complete hand"),
    (Job::Partitions, "partitions of one suit"),
    (Job::Worth, "worth of a drawn closed hand"),
    (Job::Shanten, "shanten of 13 tiles"),
    (Job::Number, "shanten of 13 tiles, the number alone"),
    (Job::BestDiscard, "best discard of 14 tiles"),
    (Job::WaitsOfOpen, "waits of a ready open hand"),
    (Job::ReadingsOfOpen, "readings of a complete open hand"),
    (Job::WorthOfOpen, "worth of an open hand"),
];

impl Job {
    /// Goes through so many hands, and answers a checksum. Where nothing is asked of them it only makes them, so that the time of
    /// making them can be taken off.
    pub fn run(self, alloc: Global, times: u32, asked: bool) -> Result<u64, AllocError> {
        let mut hands = Hands::new();
        let kinds = all_kinds();
        let mut sum = 0u64;
        for _ in 0..times {
            let hand = self.next_hand(&mut hands);
            let part = if asked {
                self.answer(alloc, &hand, kinds)?
            } else {
                u64::from(hand.numbers[0])
            };
            sum = sum.wrapping_mul(31).wrapping_add(part);
        }
        Ok(sum)
    }

    // A hand of which the job asks.
    fn next_hand(self, hands: &mut Hands) -> Hand {
        match self {
            Job::Waits => hands.mixed(),
            Job::WaitsOfReady => without_first(hands.complete()),
            Job::WaitsOfOpen => without_first(hands.open()),
            Job::Readings | Job::Partitions | Job::Worth => hands.complete(),
            Job::ReadingsOfOpen | Job::WorthOfOpen => hands.open(),
            Job::Shanten | Job::Number => hands.tiles(13),
            Job::BestDiscard => hands.tiles(14),
        }
    }

    // What the job asks of a hand, as a number.
    fn answer(self, alloc: Global, hand: &Hand, kinds: Kinds) -> Result<u64, AllocError> {
        match self {
            Job::Waits | Job::WaitsOfReady | Job::WaitsOfOpen => Ok(waits_of(hand)),
            Job::Readings | Job::ReadingsOfOpen => readings_of(alloc, hand),
            Job::Partitions => partitions_of(alloc, hand),
            Job::Worth | Job::WorthOfOpen => worth_of(alloc, hand),
            Job::Shanten => Ok(shanten_of(hand)),
            Job::Number => Ok(number_of(hand)),
            Job::BestDiscard => Ok(best_discard_of(hand, kinds)),
        }
    }
}

// How many kinds a hand waits on.
fn waits_of(hand: &Hand) -> u64 {
    let (Some(counts), Some(room)) = (
        Counts::of(hand.numbers),
        Counts::of(room_beside(hand.dragon)),
    ) else {
        return 0;
    };
    let kinds = waits(&counts, &room, u8::from(hand.dragon.is_some()));
    let mut found = 0u64;
    for number in 0..34 {
        if kinds.has(Kind::at(number)) {
            found = found.wrapping_add(1);
        }
    }
    found
}

// The shanten of a hand of thirteen tiles without melds, and where its nearest complete hand begins.
fn shanten_of(hand: &Hand) -> u64 {
    let (Some(counts), Some(room)) = (Counts::of(hand.numbers), Counts::of(ROOM)) else {
        return 0;
    };
    if tiles_among(&counts) != 13 {
        return 0;
    }
    let nearest = shanten(&counts, &room, 0);
    let first = first_kind(&nearest.target).map_or(0, |kind| kind.number());
    35 * u64::from(nearest.number) + u64::from(first)
}

// The shanten of a hand of thirteen tiles without melds, without its target.
fn number_of(hand: &Hand) -> u64 {
    let (Some(counts), Some(room)) = (Counts::of(hand.numbers), Counts::of(ROOM)) else {
        return 0;
    };
    if tiles_among(&counts) != 13 {
        return 0;
    }
    u64::from(Suits::new(&counts, &room).number(0))
}

// Which of the kinds is the best discard of a hand without melds; 34 where none is held.
fn best_discard_of(hand: &Hand, kinds: Kinds) -> u64 {
    let (Some(counts), Some(room)) = (Counts::of(hand.numbers), Counts::of(ROOM)) else {
        return 0;
    };
    if tiles_among(&counts) != 14 {
        return 0;
    }
    match Suits::new(&counts, &room).best_discard(kinds, 0) {
        Some(kind) => u64::from(kind.number()),
        None => 34,
    }
}

// The set of all kinds.
fn all_kinds() -> Kinds {
    let mut kinds = Kinds::none();
    for number in 0..34 {
        kinds = kinds.with(Kind::at(number));
    }
    kinds
}

// How many tiles there are.
fn tiles_among(counts: &Counts) -> usize
    ensures total { result ≡ sum counts.now }
    ensures few { NoFifth counts.now }
{
    let mut total = 0;
    for number in counts.numbers() {
        total += usize::from(*number);
    }
    total
}

// The first kind that stands among the tiles, for a winning tile.
fn first_kind(counts: &Counts) -> Option<Kind> {
    for number in 0..34 {
        let kind = Kind::at(number);
        if counts.get(kind) > 0 {
            return Some(kind);
        }
    }
    None
}

// The open triplet of a hand.
fn meld_of(hand: &Hand) -> Option<Meld> {
    let tile = Tile::at(hand.dragon?.number());
    Some(Meld {
        form: Form::Pon,
        a: tile,
        b: tile,
        c: tile,
        d: None,
    })
}

// How many readings a hand has.
fn readings_of(alloc: Global, hand: &Hand) -> Result<u64, AllocError> {
    let meld = meld_of(hand);
    let Some(counts) = Counts::of(hand.numbers) else {
        return Ok(0);
    };
    let Some(win) = first_kind(&counts) else {
        return Ok(0);
    };
    let found = readings(alloc, &counts, meld.as_slice(), win)?;
    Ok(found.len() as u64)
}

// In how many ways the first suit parts.
fn partitions_of(alloc: Global, hand: &Hand) -> Result<u64, AllocError> {
    let mut suit = [0u8; 9];
    for place in 0..9 {
        suit[place] = hand.numbers[place].min(4);
    }
    let found = partitions(alloc, suit, true)?;
    Ok(found.len() as u64)
}

// The base points of a hand in round east, won by the seat of wind south: drawn where it is closed, and else off a discard.
fn worth_of(alloc: Global, hand: &Hand) -> Result<u64, AllocError> {
    let meld = meld_of(hand);
    let Some(counts) = Counts::of(hand.numbers) else {
        return Ok(0);
    };
    let Some(win) = first_kind(&counts) else {
        return Ok(0);
    };
    let closed = is_closed(meld.as_slice());
    let case = Case {
        seat_wind: Kind::at(28),
        round_wind: Kind::at(27),
        by_draw: closed,
        closed,
        riichi: Riichi::No,
        ippatsu: false,
        last: false,
        rinshan: false,
        robbed: false,
        first: false,
    };
    let extra = Extra {
        dora: 0,
        under: 0,
        red: 0,
    };
    match worth(alloc, &counts, meld.as_slice(), win, &case, extra)? {
        Some(score) => Ok(u64::from(score.base)),
        None => Ok(0),
    }
}
