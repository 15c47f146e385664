//! A hand by its suits, and which of its tiles may go.

ghost use Rattle.std.specs.Prelude.{◌≡◌, ◌<◌, ◌≤◌, ◌+◌, ◌-◌, ◌*◌, ◌/◌, ℕ, true, MatchOption, MatchBool, length, slice_index};
ghost use Rattle.mj_tiles.specs.Counts.{NoFifth};
ghost use Rattle.mj_suits.specs.Rows.{lane};
ghost use Rattle.mj_suits.specs.Tables.{IsLeast};
ghost use Rattle.mj_shanten.specs.Room.{IsRoom, IsWithinRoom};
ghost use Rattle.mj_shanten.specs.Shanten.{IsGoal};
ghost use Rattle.mj_shanten.specs.Discards.{IsDiscard, IsBestDiscard, LeavesAtMost, LeavesMore, MissesAtMost, MissesMore};
ghost use Rattle.mj_shanten.specs.Suits.{IsJoint, suits_of, with_two};
ghost use Rattle.mj_shanten.specs.Walked.{IsWide, IsLeastOr};
ghost use Rattle.mj_memory.specs.Joined.{joined};
ghost use Rattle.mj_memory.specs.Ways.{LeavesBest, OfPlace, Beside};

use crate::counting::{nine_of, with_pairs, without};
use crate::joining::joined;
use crate::known::Memory;
use mj_shanten::Suits;
use mj_suits::Row;
use mj_tiles::{Counts, Kind, Kinds};
use std::marker::Model;

/// The tiles of a hand, the room for them, what each suit leaves, and what all but the honours leave.
#[derive(Drop)]
pub struct Ways {
    counts: Counts,
    room: Counts,
    characters: Row,
    circles: Row,
    bamboo: Row,
    honours: Row,
    suited: Row,
}

impl Model for Ways {
    ghost use Rattle.mj_shanten.specs.Walked.{Tiles};
    ghost use Rattle.mj_memory.specs.Ways.{AreWays};

    ghost Value = { Tiles };

    ghost view = { λ ways. record { counts = ways.counts; room = ways.room } };

    ghost invariant = { λ ways. AreWays ways.counts ways.room ways.characters.lanes
        ways.circles.lanes ways.bamboo.lanes ways.honours.lanes ways.suited.lanes };
}

impl Ways {
    /// The suits of a hand with these counts and this room. Each count is at most its room.
    pub fn new(counts: &Counts, room: &Counts, memory: &mut Memory) -> Ways
        requires { IsWithinRoom counts.now room.now }
        ensures { result ≡ record { counts = counts.now; room = room.now } }
    {
        let characters = row_at(counts, room, 0, memory);
        let circles = row_at(counts, room, 1, memory);
        let bamboo = row_at(counts, room, 2, memory);
        let honours = row_at(counts, room, 3, memory);
        let others = joined(circles, bamboo);
        let suited = joined(characters, others);
        Ways {
            counts: *counts,
            room: *room,
            characters,
            circles,
            bamboo,
            honours,
            suited,
        }
    }

    /// How many tiles the nearest complete hand with so many melds misses, whatever the number of tiles of this hand.
    pub fn missing(&self, melds: u8) -> u8
        requires few { melds ≤ 4 }
        requires room { IsRoom self.now.room melds }
        ensures least { IsLeast self.now.counts (IsGoal self.now.room melds) result }
        ensures size { length self.now.counts ≡ 34 }
    {
        let sets = missing_of_sets(self.honours, self.suited, 4 - melds);
        least_missing(&self.counts, &self.room, sets, melds)
    }

    /// Of a set of kinds the held one that leaves the least shanten where a tile of it is discarded, and of several
    /// the last in tile order; none exactly where no kind of the set is held. It is asked of a hand that has drawn,
    /// whose tiles and three for each of so many melds are 14, and `missing` is what the nearest complete hand misses.
    pub fn best_discard_of(
        &self,
        kinds: Kinds,
        melds: u8,
        missing: u8,
        memory: &mut Memory,
    ) -> Option<Kind>
        requires few { melds ≤ 4 }
        requires room { IsRoom self.now.room melds }
        requires missing { IsLeast self.now.counts (IsGoal self.now.room melds) missing }
        requires size { length self.now.counts ≡ 34 }
        ensures { MatchOption result
            ((kind : ℕ) → IsDiscard self.now.counts kinds kind → ⊥)
            (λ kind. IsBestDiscard self.now.counts self.now.room melds kinds kind) }
    {
        let least = u16::from(missing);
        match self.last_within(kinds, melds, least, memory) {
            Some(kind) => Some(kind),
            None => self.last_within(kinds, melds, least + 1, memory),
        }
    }

    // The last kind of the set that is held and without which the hand misses at most so many tiles.
    fn last_within(&self, kinds: Kinds, melds: u8, most: u16, memory: &mut Memory) -> Option<Kind>
        requires few { melds ≤ 4 }
        requires room { IsRoom self.now.room melds }
        ensures { MatchOption result
            ((kind : ℕ) → IsDiscard self.now.counts kinds kind
            → LeavesMore self.now.counts self.now.room melds most kind)
            (λ kind. IsDiscard self.now.counts kinds kind
            × LeavesAtMost self.now.counts self.now.room melds most kind
            × ((other : ℕ) → kind < other → IsDiscard self.now.counts kinds other
            → LeavesMore self.now.counts self.now.room melds most other)) }
    {
        let mut suit = 4;
        while suit > 0 {
            suit -= 1;
            if let Some(kind) = self.last_of_suit(suit, kinds, melds, most, memory) {
                return Some(kind);
            }
        }
        None
    }

    // The last such kind of a suit.
    fn last_of_suit(
        &self,
        suit: u8,
        kinds: Kinds,
        melds: u8,
        most: u16,
        memory: &mut Memory,
    ) -> Option<Kind>
        requires suit { suit < 4 }
        requires few { melds ≤ 4 }
        requires room { IsRoom self.now.room melds }
        ensures { MatchOption result
            ((kind : ℕ) → 9 * suit ≤ kind → kind < 9 * suit + 9 → IsDiscard self.now.counts kinds kind
            → LeavesMore self.now.counts self.now.room melds most kind)
            (λ kind. IsDiscard self.now.counts kinds kind
            × LeavesAtMost self.now.counts self.now.room melds most kind
            × ((other : ℕ) → kind < other → other < 9 * suit + 9 → IsDiscard self.now.counts kinds other
            → LeavesMore self.now.counts self.now.room melds most other)) }
    {
        let others = self.beside(suit);
        let first = 9 * suit;
        let mut number = (first + 9).min(34);
        while number > first {
            number -= 1;
            let kind = Kind::at(number);
            if self.is_within(kind, others, kinds, melds, most, memory) {
                return Some(kind);
            }
        }
        None
    }

    // Whether the kind is one of the set, is held, and the hand without it misses at most so many tiles. The other suits
    // leave what is said.
    fn is_within(
        &self,
        kind: Kind,
        others: Row,
        kinds: Kinds,
        melds: u8,
        most: u16,
        memory: &mut Memory,
    ) -> bool
        requires few { melds ≤ 4 }
        requires room { IsRoom self.now.room melds }
        requires others { LeavesBest (Beside (with_two self.now.counts) (with_two self.now.room) (kind / 9)) others.lanes }
        ensures { MatchBool result
            (IsDiscard self.now.counts kinds kind
            × LeavesAtMost self.now.counts self.now.room melds most kind)
            (IsDiscard self.now.counts kinds kind
            → LeavesMore self.now.counts self.now.room melds most kind) }
    {
        if !kinds.has(kind) {
            return false;
        }
        if self.counts.get(kind) == 0 {
            return false;
        }
        self.leaves_at_most(kind, others, melds, most, memory)
    }

    // Whether the nearest complete hand misses at most so many tiles where a tile of the kind is discarded.
    fn leaves_at_most(
        &self,
        kind: Kind,
        others: Row,
        melds: u8,
        most: u16,
        memory: &mut Memory,
    ) -> bool
        requires few { melds ≤ 4 }
        requires room { IsRoom self.now.room melds }
        requires others { LeavesBest (Beside (with_two self.now.counts) (with_two self.now.room) (kind / 9)) others.lanes }
        ensures { MatchBool result
            (LeavesAtMost self.now.counts self.now.room melds most kind)
            (LeavesMore self.now.counts self.now.room melds most kind) }
    {
        let counts = without(&self.counts, kind);
        let own = row_at(&counts, &self.room, kind.number() / 9, memory);
        let sets = missing_of_sets(own, others, 4 - melds);
        misses_at_most(&counts, &self.room, sets, melds, most)
    }

    // What the suits but one leave: characters, circles, bamboo and honours are 0 to 3.
    fn beside(&self, suit: u8) -> Row
        requires { suit < 4 }
        ensures { LeavesBest (Beside (with_two self.now.counts) (with_two self.now.room) suit) result.lanes }
    {
        match suit {
            0 => {
                let others = joined(self.bamboo, self.honours);
                joined(self.circles, others)
            }
            1 => {
                let others = joined(self.bamboo, self.honours);
                joined(self.characters, others)
            }
            2 => {
                let others = joined(self.circles, self.honours);
                joined(self.characters, others)
            }
            _ => self.suited,
        }
    }
}

// What a suit of a hand leaves.
fn row_at(counts: &Counts, room: &Counts, suit: u8, memory: &mut Memory) -> Row
    requires suit { suit < 4 }
    requires within { IsWithinRoom counts.now room.now }
    ensures best { LeavesBest (OfPlace (with_two counts.now) (with_two room.now) suit) result.lanes }
    ensures size { length counts.now ≡ 34 }
    ensures room_size { length room.now ≡ 34 }
    ensures of_four { NoFifth room.now }
{
    let nine = nine_of(counts, suit);
    let room = nine_of(room, suit);
    memory.row(&nine, &room, suit < 3)
}

// How many tiles the nearest hand of so many sets and a pair misses, where one suit leaves so much and the others so much.
fn missing_of_sets(own: Row, others: Row, sets: u8) -> u8
    requires { sets ≤ 4 }
    ensures { result ≡ 15 - joined (lane own.lanes) (lane others.lanes) sets 1 }
{
    15u8.saturating_sub(joined(own, others).at(sets, 1))
}

// How many tiles the nearest complete hand misses, where those of sets and a pair miss so many at least.
fn least_missing(counts: &Counts, room: &Counts, sets: u8, melds: u8) -> u8
    requires few { melds ≤ 4 }
    requires room { IsRoom room.now melds }
    requires within { IsWithinRoom counts.now room.now }
    requires size { length counts.now ≡ 34 }
    requires room_size { length room.now ≡ 34 }
    requires bound { sets ≤ 15 }
    requires sets { IsLeastOr (with_two counts.now)
        (IsJoint (suits_of (with_two counts.now) (with_two room.now)) (4 - melds) true) sets }
    ensures { IsLeast counts.now (IsGoal room.now melds) result }
{
    if melds > 0 {
        return sets;
    }
    match with_pairs(counts, sets) {
        Some(number) => number,
        None => {
            let suits = Suits::new(counts, room);
            suits.missing(melds)
        }
    }
}

// Whether the nearest complete hand misses at most so many tiles. Where that of sets and a pair does, no other is asked.
fn misses_at_most(counts: &Counts, room: &Counts, sets: u8, melds: u8, most: u16) -> bool
    requires few { melds ≤ 4 }
    requires room { IsRoom room.now melds }
    requires within { IsWithinRoom counts.now room.now }
    requires size { length counts.now ≡ 34 }
    requires room_size { length room.now ≡ 34 }
    requires bound { sets ≤ 15 }
    requires sets { IsLeastOr (with_two counts.now)
        (IsJoint (suits_of (with_two counts.now) (with_two room.now)) (4 - melds) true) sets }
    ensures { MatchBool result
        (MissesAtMost counts.now room.now melds most)
        (MissesMore counts.now room.now melds most) }
{
    if u16::from(sets) <= most {
        return true;
    }
    let least = least_missing(counts, room, sets, melds);
    u16::from(least) <= most
}
