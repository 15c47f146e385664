//! Which tile to discard.

ghost use Rattle.std.specs.Prelude.{◌≡◌, ◌<◌, ◌≤◌, ℕ, MatchOption, MatchBool, length, slice_index};
ghost use Rattle.mj_suits.specs.Tables.{IsLeast};
ghost use Rattle.mj_shanten.specs.Room.{IsRoom};
ghost use Rattle.mj_shanten.specs.Shanten.{IsGoal};
ghost use Rattle.mj_shanten.specs.Discards.{IsDiscard, IsBestDiscard, LeavesAtMost, LeavesMore};

use crate::nearest_hand::{least_missing, misses_at_most};
use crate::suits::Suits;
use mj_tiles::{Kind, Kinds};

impl Suits {
    /// Of a set of kinds the held one that leaves the least shanten where a tile of it is discarded, and of several
    /// the last in tile order; none exactly where no kind of the set is held. It is asked of a hand that has drawn,
    /// whose tiles and three for each of so many melds are 14.
    ///
    /// One tile less misses as many tiles of a complete hand as all fourteen, or one more. So the kinds are asked from
    /// the last in tile order on, and the first that misses as many is the answer.
    pub fn best_discard(&self, kinds: Kinds, melds: u8) -> Option<Kind>
        requires few { melds ≤ 4 }
        requires room { IsRoom self.now.room melds }
        ensures { MatchOption result
            ((kind : ℕ) → IsDiscard self.now.counts kinds kind → ⊥)
            (λ kind. IsBestDiscard self.now.counts self.now.room melds kinds kind) }
    {
        let missing = least_missing(self, melds);
        self.best_discard_of(kinds, melds, missing)
    }

    /// The answer of `best_discard`, where it is known how many tiles the nearest complete hand misses. Conditions:
    /// `missing` is that number, the least of all; the tiles are counted by the 34 kinds; the melds are at most four, and
    /// the room is what they leave.
    pub fn best_discard_of(&self, kinds: Kinds, melds: u8, missing: u8) -> Option<Kind>
        requires few { melds ≤ 4 }
        requires room { IsRoom self.now.room melds }
        requires missing { IsLeast self.now.counts (IsGoal self.now.room melds) missing }
        requires size { length self.now.counts ≡ 34 }
        ensures { MatchOption result
            ((kind : ℕ) → IsDiscard self.now.counts kinds kind → ⊥)
            (λ kind. IsBestDiscard self.now.counts self.now.room melds kinds kind) }
    {
        let least = u16::from(missing);
        match last_within(self, kinds, melds, least) {
            Some(kind) => Some(kind),
            None => last_within(self, kinds, melds, least + 1),
        }
    }
}

// The last kind of the set that is held and without which the hand misses at most so many tiles.
fn last_within(suits: &Suits, kinds: Kinds, melds: u8, most: u16) -> Option<Kind>
    requires few { melds ≤ 4 }
    requires room { IsRoom suits.now.room melds }
    ensures { MatchOption result
        ((kind : ℕ) → IsDiscard suits.now.counts kinds kind
        → LeavesMore suits.now.counts suits.now.room melds most kind)
        (λ kind. IsDiscard suits.now.counts kinds kind
        × LeavesAtMost suits.now.counts suits.now.room melds most kind
        × ((other : ℕ) → kind < other → IsDiscard suits.now.counts kinds other
        → LeavesMore suits.now.counts suits.now.room melds most other)) }
{
    let mut number = 34;
    while number > 0 {
        number -= 1;
        let kind = Kind::at(number);
        if is_within(suits, kinds, melds, most, kind) {
            return Some(kind);
        }
    }
    None
}

// Whether the kind is one of the set, is held, and the hand without it misses at most so many tiles.
fn is_within(suits: &Suits, kinds: Kinds, melds: u8, most: u16, kind: Kind) -> bool
    requires few { melds ≤ 4 }
    requires room { IsRoom suits.now.room melds }
    ensures { MatchBool result
        (IsDiscard suits.now.counts kinds kind
        × LeavesAtMost suits.now.counts suits.now.room melds most kind)
        (IsDiscard suits.now.counts kinds kind
        → LeavesMore suits.now.counts suits.now.room melds most kind) }
{
    if !kinds.has(kind) {
        return false;
    }
    if suits.held()[kind.number() as usize] == 0 {
        return false;
    }
    leaves_at_most(suits, melds, most, kind)
}

// Whether the nearest complete hand misses at most so many tiles where a tile of the kind is discarded.
fn leaves_at_most(suits: &Suits, melds: u8, most: u16, kind: Kind) -> bool
    requires held { 0 < slice_index suits.now.counts kind }
    requires few { melds ≤ 4 }
    requires room { IsRoom suits.now.room melds }
    ensures { MatchBool result
        (LeavesAtMost suits.now.counts suits.now.room melds most kind)
        (LeavesMore suits.now.counts suits.now.room melds most kind) }
{
    misses_at_most(&suits.without(kind), melds, most)
}
