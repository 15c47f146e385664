//! The suits of a hand: one is walked after the other, from the characters to the honours, and each row says what is left
//! of the tiles of all suits up to its own. So without a tile only its suit and those after it are walked again.

ghost use Rattle.std.specs.Prelude.{◌≡◌, ◌≤◌, ◌<◌, true, false, Some, MatchBool, length, slice_index, take, drop};
ghost use Rattle.mj_suits.specs.Rows.{Holds, IsFew, start_lane};
ghost use Rattle.mj_suits.specs.Left.{LeavesMost};
ghost use Rattle.mj_suits.specs.Targets.{missing};
ghost use Rattle.mj_suits.specs.Improves.{AsGood, Improves};
ghost use Rattle.mj_tiles.specs.Counts.{NoFifth};
ghost use Rattle.mj_shanten.specs.Exchanges.{one_less};
ghost use Rattle.mj_shanten.specs.Room.{IsWithinRoom};
ghost use Rattle.mj_shanten.specs.Suits.{IsSuit, IsJoint, suit_from, suits_of, with_two};
ghost use Rattle.mj_shanten.specs.Walked.{Tiles, IsWide, IsRow, IsLeastOr};

use crate::nearest_sets::WideHand;
use mj_suits::{Row, with_suit};
use mj_tiles::{Counts, KINDS, Kind};
use std::cmp::Ordering;
use std::marker::Model;

// One suit: the tiles held, the room, and whether it has runs.
#[derive(Drop)]
pub(crate) struct Suit {
    pub(crate) counts: [u8; 9],
    pub(crate) room: [u8; 9],
    pub(crate) runs: bool,
}

/// The tiles of a hand, the room for them, and what each suit and those before it leave for each number of sets.
#[derive(Drop)]
pub struct Suits {
    held: [u8; 36],
    room: [u8; 36],
    start: Row,
    characters: Row,
    circles: Row,
    bamboo: Row,
    honours: Row,
}

impl Model for Suits {
    ghost use Rattle.std.specs.Prelude.{take};
    ghost use Rattle.mj_shanten.specs.Walked.{Tiles, AreWalked};

    ghost Value = { Tiles };

    ghost view = { λ suits. record { counts = take 34 suits.held; room = take 34 suits.room } };

    ghost invariant = { λ suits. AreWalked suits.held suits.room suits.start.lanes
        suits.characters.lanes suits.circles.lanes suits.bamboo.lanes suits.honours.lanes };
}

impl Suits {
    /// The suits of a hand with these counts and this room. Each count is at most its room.
    pub fn new(counts: &Counts, room: &Counts) -> Suits
        requires { IsWithinRoom counts.now room.now }
        ensures { result ≡ record { counts = counts.now; room = room.now } }
    {
        let held = with_room_for_two(counts);
        let room = with_room_for_two(room);
        from_characters(held, room, Row::start())
    }

    /// The suits of the hand with one tile less of the kind, and the same room. The kind is held.
    pub fn without(&self, kind: Kind) -> Suits
        requires { 0 < slice_index self.now.counts kind }
        ensures { result ≡ record { counts = one_less self.now.counts kind; room = self.now.room } }
    {
        let mut held = self.held;
        held[kind.number() as usize] -= 1;
        let room = self.room;
        let (start, characters) = (self.start, self.characters);
        let (circles, bamboo) = (self.circles, self.bamboo);
        match kind.number() / 9 {
            0 => from_characters(held, room, start),
            1 => from_circles(held, room, start, characters),
            2 => from_bamboo(held, room, start, characters, circles),
            _ => from_honours(held, room, start, characters, circles, bamboo),
        }
    }

    // The hand alone.
    pub(crate) fn hand(&self) -> WideHand
        ensures { result ≡ record { counts = self.now.counts; room = self.now.room } }
    {
        WideHand::of(self.held, self.room)
    }

    // The counts, and two numbers more, which no kind has.
    pub(crate) fn held(&self) -> &[u8; 36]
        ensures held { result.now ≡ with_two self.now.counts }
        ensures size { length self.now.counts ≡ 34 }
        ensures room_size { length self.now.room ≡ 34 }
    {
        &self.held
    }
}

// The suits of a hand with two numbers more, which no kind has.
#[inline(always)]
fn from_characters(held: [u8; 36], room: [u8; 36], start: Row) -> Suits
    requires wide { IsWide held room }
    requires start { Holds start.lanes start_lane }
    requires few { IsFew start.lanes }
    ensures { result ≡ record { counts = take 34 held; room = take 34 room } }
{
    let characters = row_of(start, &suit_at(&held, &room, 0, true));
    from_circles(held, room, start, characters)
}

// The suits of a wide hand whose row of the characters is known.
#[inline(always)]
fn from_circles(held: [u8; 36], room: [u8; 36], start: Row, characters: Row) -> Suits
    requires wide { IsWide held room }
    requires start { Holds start.lanes start_lane }
    requires few { IsFew start.lanes }
    requires first { IsRow (suit_from held room 0 true) start.lanes characters.lanes }
    ensures { result ≡ record { counts = take 34 held; room = take 34 room } }
{
    let circles = row_of(characters, &suit_at(&held, &room, 9, true));
    from_bamboo(held, room, start, characters, circles)
}

// The suits of a wide hand whose rows of characters and circles are known.
#[inline(always)]
fn from_bamboo(held: [u8; 36], room: [u8; 36], start: Row, characters: Row, circles: Row) -> Suits
    requires wide { IsWide held room }
    requires start { Holds start.lanes start_lane }
    requires few { IsFew start.lanes }
    requires first { IsRow (suit_from held room 0 true) start.lanes characters.lanes }
    requires second { IsRow (suit_from held room 9 true) characters.lanes circles.lanes }
    ensures { result ≡ record { counts = take 34 held; room = take 34 room } }
{
    let bamboo = row_of(circles, &suit_at(&held, &room, 18, true));
    from_honours(held, room, start, characters, circles, bamboo)
}

// The suits of a wide hand whose rows are known, all but that of the honours.
#[inline(always)]
fn from_honours(
    held: [u8; 36],
    room: [u8; 36],
    start: Row,
    characters: Row,
    circles: Row,
    bamboo: Row,
) -> Suits
    requires wide { IsWide held room }
    requires start { Holds start.lanes start_lane }
    requires few { IsFew start.lanes }
    requires first { IsRow (suit_from held room 0 true) start.lanes characters.lanes }
    requires second { IsRow (suit_from held room 9 true) characters.lanes circles.lanes }
    requires third { IsRow (suit_from held room 18 true) circles.lanes bamboo.lanes }
    ensures { result ≡ record { counts = take 34 held; room = take 34 room } }
{
    let honours = row_of(bamboo, &suit_at(&held, &room, 27, false));
    Suits {
        held,
        room,
        start,
        characters,
        circles,
        bamboo,
        honours,
    }
}

/// The row of a suit beside those of which `after` says what is left.
pub(crate) fn row_of(after: Row, suit: &Suit) -> Row
    requires suit { IsSuit suit.now }
    requires few { IsFew after.lanes }
    ensures { LeavesMost suit.now.counts suit.now.room suit.now.runs after.lanes result.lanes }
{
    with_suit(after, &suit.counts, &suit.room, suit.runs)
}

/// How many tiles the nearest hand of so many sets and a pair misses; fifteen where none fits.
pub(crate) fn missing_of_sets(suits: &Suits, sets: u8) -> u8
    requires { sets ≤ 4 }
    ensures few { result ≤ 15 }
    ensures least { IsLeastOr (with_two suits.now.counts)
        (IsJoint (suits_of (with_two suits.now.counts) (with_two suits.now.room)) sets true)
        result }
{
    15 - suits.honours.at(sets, 1)
}

/// The nine numbers from a place on as a suit.
pub(crate) fn suit_at(held: &[u8; 36], room: &[u8; 36], from: usize, runs: bool) -> Suit
    requires { from ≤ 27 }
    ensures { result ≡ suit_from held.now room.now from runs }
{
    Suit {
        counts: nine_from(held, from),
        room: nine_from(room, from),
        runs,
    }
}

// The nine numbers from a place on.
fn nine_from(numbers: &[u8; 36], from: usize) -> [u8; 9]
    requires { from ≤ 27 }
    ensures { result ≡ take 9 (drop from numbers.now) }
{
    let mut nine = [0; 9];
    for n in 0..9 {
        nine[n] = numbers[from + n];
    }
    nine
}

/// The numbers by kind, and two more that no kind has, so that four suits have nine numbers each.
pub(crate) fn with_room_for_two(counts: &Counts) -> [u8; 36]
    ensures value { result ≡ with_two counts.now }
    ensures size { length counts.now ≡ 34 }
    ensures few { NoFifth counts.now }
{
    let numbers = counts.numbers();
    let mut wide = [0; 36];
    for kind in 0..KINDS {
        wide[kind] = numbers[kind];
    }
    wide
}

/// Takes the target for the best hand where it is nearer.
pub(crate) fn keep_nearer(held: &[u8; 36], target: &[u8; 36], best: &mut Option<(u16, [u8; 36])>)
    ensures { Improves held.now (λ t. t ≡ target.now) best.old best.new }
{
    let number = missing_tiles(held, target);
    if is_as_good(best, number, target) {
        return;
    }
    *best = Some((number, *target));
}

// Whether the best hand misses fewer, or as few and is not lexicographically less.
#[tactic(auto, using(mj_lists::proofs::Order::not_less_back))]
fn is_as_good(best: &Option<(u16, [u8; 36])>, number: u16, target: &[u8; 36]) -> bool
    ensures { MatchBool result
        (AsGood best.now (Some (number, target.now)))
        (AsGood (Some (number, target.now)) best.now) }
{
    match best {
        Some(answer) => {
            if answer.0 != number {
                return answer.0 < number;
            }
            match target.cmp(&answer.1) {
                Ordering::Greater => false,
                Ordering::Less | Ordering::Equal => true,
            }
        }
        None => false,
    }
}

// How many of the target's tiles are not held.
pub(crate) fn missing_tiles(held: &[u8; 36], target: &[u8; 36]) -> u16
    ensures { result ≡ missing target.now held.now }
{
    let mut number = 0;
    for n in 0..36 {
        number += u16::from(target[n].saturating_sub(held[n]));
    }
    number
}
