//! The nearest hand of sets and a pair: its tiles are chosen suit by suit, the characters first. So the suits are walked
//! from the honours to the characters, and each row says what is left of the tiles of all suits from its own on. The walks
//! keep the rows of their numbers, from which the target is chosen.

ghost use Rattle.std.specs.Prelude.{◌≡◌, ◌≤◌, ◌<◌, ◌+◌, ◌++◌, ℕ, List, true, MatchOption, length, take};
ghost use Rattle.mj_suits.specs.Rows.{lane, IsFew};
ghost use Rattle.mj_suits.specs.Targets.{missing, IsNearest};
ghost use Rattle.mj_suits.specs.Improves.{Improves};
ghost use Rattle.mj_shanten.specs.Room.{IsWithinRoom};
ghost use Rattle.mj_shanten.specs.Suits.{IsSuit, IsJoint, suits_of, with_two};
ghost use Rattle.mj_shanten.specs.Walked.{IsWide, IsWalkOf, IsPart};

use crate::suits::{Suit, keep_nearer, suit_at, with_room_for_two};
use mj_suits::{Choice, Row, SuitWalk};
use mj_tiles::Counts;
use std::marker::Model;

/// The tiles of a hand and the room for them, with two numbers more, which no kind has.
#[derive(Drop)]
pub(crate) struct WideHand {
    held: [u8; 36],
    room: [u8; 36],
}

impl Model for WideHand {
    ghost use Rattle.std.specs.Prelude.{take};
    ghost use Rattle.mj_shanten.specs.Walked.{Tiles, IsWide};

    ghost Value = { Tiles };

    ghost view = { λ hand. record { counts = take 34 hand.held; room = take 34 hand.room } };

    ghost invariant = { λ hand. IsWide hand.held hand.room };
}

impl WideHand {
    /// The hand with these counts and this room. Each count is at most its room.
    pub(crate) fn new(counts: &Counts, room: &Counts) -> WideHand
        requires { IsWithinRoom counts.now room.now }
        ensures { result ≡ record { counts = counts.now; room = room.now } }
    {
        WideHand::of(with_room_for_two(counts), with_room_for_two(room))
    }

    /// The hand of these numbers, of which two are of no kind.
    pub(crate) fn of(held: [u8; 36], room: [u8; 36]) -> WideHand
        requires { IsWide held room }
        ensures { result ≡ record { counts = take 34 held; room = take 34 room } }
    {
        WideHand { held, room }
    }

    /// The counts, and two numbers more, which no kind has.
    pub(crate) fn held(&self) -> &[u8; 36]
        ensures held { result.now ≡ with_two self.now.counts }
        ensures size { length self.now.counts ≡ 34 }
        ensures room_size { length self.now.room ≡ 34 }
    {
        &self.held
    }
}

/// Takes into the best hand those of so many sets and a pair within the room.
pub(crate) fn take_sets(hand: &WideHand, sets: u8, best: &mut Option<(u16, [u8; 36])>)
    requires { sets ≤ 4 }
    ensures { Improves (with_two hand.now.counts)
        (IsJoint (suits_of (with_two hand.now.counts) (with_two hand.now.room)) sets true)
        best.old best.new }
{
    if let Some(target) = nearest_sets(hand, sets) {
        keep_nearer(&hand.held, &target, best);
    }
}

// The nearest hand of so many sets and a pair within the room; none where none fits.
fn nearest_sets(hand: &WideHand, sets: u8) -> Option<[u8; 36]>
    requires { sets ≤ 4 }
    ensures { MatchOption result
        ((target : List ℕ)
        → IsJoint (suits_of (with_two hand.now.counts) (with_two hand.now.room)) sets true target
        → ⊥)
        (λ target. IsNearest (with_two hand.now.counts)
        (IsJoint (suits_of (with_two hand.now.counts) (with_two hand.now.room)) sets true)
        (missing target (with_two hand.now.counts)) target) }
{
    let (held, room) = (&hand.held, &hand.room);
    let honours = walk_of(Row::start(), &suit_at(held, room, 27, false));
    let bamboo = walk_of(honours.row(), &suit_at(held, room, 18, true));
    let circles = walk_of(bamboo.row(), &suit_at(held, room, 9, true));
    let characters = walk_of(circles.row(), &suit_at(held, room, 0, true));
    if characters.row().at(sets, 1) == 0 {
        return None;
    }
    let first = part(&characters, sets, 1);
    let second = part(&circles, first.sets, first.pairs);
    let third = part(&bamboo, second.sets, second.pairs);
    let fourth = part(&honours, third.sets, third.pairs);
    let target = with_nine(&[0; 36], 0, &first.target);
    let target = with_nine(&target, 9, &second.target);
    let target = with_nine(&target, 18, &third.target);
    Some(with_nine(&target, 27, &fourth.target))
}

// The walk of a suit before those of which `after` says what is left.
fn walk_of(after: Row, suit: &Suit) -> SuitWalk
    requires suit { IsSuit suit.now }
    requires few { IsFew after.lanes }
    ensures { IsWalkOf suit.now after.lanes result }
{
    SuitWalk::new(after, &suit.counts, &suit.room, suit.runs)
}

// The suit's target that leaves the most for the suits after it.
fn part(walk: &SuitWalk, sets: u8, pairs: u8) -> Choice
    requires sets { sets < 8 }
    requires pairs { pairs < 2 }
    requires some { 0 < lane walk.now.row sets pairs }
    ensures { IsPart walk.now sets pairs result }
{
    match walk.choose(sets, pairs) {
        Some(choice) => choice,
        None => unreachable!(),
    }
}

// The target with a suit's numbers from a place on.
fn with_nine(target: &[u8; 36], from: usize, nine: &[u8; 9]) -> [u8; 36]
    requires { from ≤ 27 }
    ensures { take (from + 9) result ≡ take from target.now ++ nine.now }
{
    let mut more = *target;
    for n in 0..9 {
        more[from + n] = nine[n];
    }
    more
}
