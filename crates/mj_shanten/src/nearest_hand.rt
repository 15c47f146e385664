ghost use Rattle.std.specs.Prelude.{◌≡◌, ◌<◌, ◌≤◌, ℕ, List, IsTrue, IsSomeAnd, MatchBool, take, length};
ghost use Rattle.mj_suits.specs.Targets.{missing};
ghost use Rattle.mj_suits.specs.Tables.{IsLeast};
ghost use Rattle.mj_tiles.specs.Counts.{IsCounts};
ghost use Rattle.mj_suits.specs.Improves.{Improves};
ghost use Rattle.mj_shanten.specs.Room.{IsHand, IsRoom};
ghost use Rattle.mj_shanten.specs.Shanten.{IsGoal, IsShanten};
ghost use Rattle.mj_shanten.specs.Discards.{MissesAtMost, MissesMore};
ghost use Rattle.mj_shanten.specs.Exchanges.{AreLeastExchanges};
ghost use Rattle.mj_shanten.specs.Inner.Special.{IsSpecial, IsLeastWith};

use crate::nearest_sets::{WideHand, take_sets};
use crate::orphans::{missing_of_orphans, take_orphans};
use crate::seven_pairs::{kinds_held, missing_of_pairs, take_pairs};
use crate::suits::{Suits, missing_of_sets, missing_tiles};
use mj_tiles::{Counts, KINDS};

/// Each terminal and honour once.
pub(crate) const EACH_ORPHAN: [u8; 36] = [
    1, 0, 0, 0, 0, 0, 0, 0, 1, 1, 0, 0, 0, 0, 0, 0, 0, 1, 1, 0, 0, 0, 0, 0, 0, 0, 1, 1, 1, 1, 1, 1,
    1, 1, 0, 0,
];

/// How near a hand is to being complete.
#[derive(Clone, Copy, Debug, PartialEq, Eq)]
pub struct Nearest {
    /// Shanten: the tiles of the target that are not held, less one. 0 is a ready hand.
    pub number: u8,
    /// The nearest complete hand: its concealed tiles alone. Of several it is the one whose sorted list of kinds is
    /// lexicographically least.
    pub target: Counts,
}

/// The shanten of a hand of concealed tiles with these counts and so many melds, and the nearest complete hand.
///
/// `room` is what the melds leave of the four tiles of each kind. The concealed tiles and three for each meld are 13,
/// and no kind stands more often than its room. A complete hand has the same melds, and no kind of it stands more often
/// than its room: it is four sets and a pair, where each meld is a set, or without melds seven pairs or thirteen
/// orphans.
///
/// The shanten is also the least number of exchanges after which the hand is ready, where each exchange takes one
/// tile out and puts one kind in, and in no hand between does a kind stand more often than its room: the surplus tiles
/// for the missing ones of the target are so many, and no fewer lead to a ready hand.
pub fn shanten(counts: &Counts, room: &Counts, melds: u8) -> Nearest
    requires { IsHand counts.now room.now melds }
    ensures nearest { IsShanten counts.now room.now melds result.number result.target }
    ensures exchanges { AreLeastExchanges counts.now room.now melds result.number result.target }
{
    nearest_of(&WideHand::new(counts, room), melds)
}

impl Suits {
    /// The shanten of a hand whose suits are walked, and the nearest complete hand: the concealed tiles and three for each
    /// of so many melds are 13, and the room is what the melds leave.
    pub fn shanten(&self, melds: u8) -> Nearest
        requires { IsHand self.now.counts self.now.room melds }
        ensures nearest { IsShanten self.now.counts self.now.room melds result.number
            result.target }
        ensures exchanges { AreLeastExchanges self.now.counts self.now.room melds result.number
            result.target }
    {
        nearest_of(&self.hand(), melds)
    }
}

// The shanten and the nearest complete hand of a hand with two numbers more, which no kind has.
fn nearest_of(hand: &WideHand, melds: u8) -> Nearest
    requires { IsHand hand.now.counts hand.now.room melds }
    ensures nearest { IsShanten hand.now.counts hand.now.room melds result.number result.target }
    ensures exchanges { AreLeastExchanges hand.now.counts hand.now.room melds result.number
        result.target }
{
    let mut best = None;
    take_sets(hand, 4 - melds, &mut best);
    take_special(hand.held(), melds, &mut best);
    match best {
        Some(answer) => Nearest {
            number: (answer.0 - 1) as u8,
            target: counts_among(&answer.1),
        },
        None => unreachable!(),
    }
}

impl Suits {
    /// The number that `shanten` answers, without its target.
    pub fn number(&self, melds: u8) -> u8
        requires { IsHand self.now.counts self.now.room melds }
        ensures { (number : ℕ) (target : List ℕ)
            → IsShanten self.now.counts self.now.room melds number target → result ≡ number }
    {
        least_missing(self, melds).saturating_sub(1)
    }

    /// How many tiles the nearest complete hand with so many melds misses, whatever the number of tiles of this hand.
    pub fn missing(&self, melds: u8) -> u8
        requires few { melds ≤ 4 }
        requires room { IsRoom self.now.room melds }
        ensures least { IsLeast self.now.counts (IsGoal self.now.room melds) result }
        ensures size { length self.now.counts ≡ 34 }
    {
        least_missing(self, melds)
    }
}

/// How many tiles the nearest complete hand misses.
pub(crate) fn least_missing(suits: &Suits, melds: u8) -> u8
    requires few { melds ≤ 4 }
    requires room { IsRoom suits.now.room melds }
    ensures least { IsLeast suits.now.counts (IsGoal suits.now.room melds) result }
    ensures size { length suits.now.counts ≡ 34 }
{
    let held = suits.held();
    let sets = missing_of_sets(suits, 4 - melds);
    if melds > 0 {
        return sets;
    }
    with_special(held, sets)
}

/// Whether the nearest complete hand misses at most so many tiles. Where that of sets and a pair does, no other is asked.
pub(crate) fn misses_at_most(suits: &Suits, melds: u8, most: u16) -> bool
    requires few { melds ≤ 4 }
    requires room { IsRoom suits.now.room melds }
    ensures { MatchBool result
        (MissesAtMost suits.now.counts suits.now.room melds most)
        (MissesMore suits.now.counts suits.now.room melds most) }
{
    let held = suits.held();
    let sets = missing_of_sets(suits, 4 - melds);
    if u16::from(sets) <= most {
        return true;
    }
    if melds > 0 {
        return false;
    }
    u16::from(with_special(held, sets)) <= most
}

// How many tiles the nearest of these hands misses: of sets and a pair, of which the nearest misses so many tiles, or of seven pairs or thirteen
// orphans.
fn with_special(held: &[u8; 36], sets: u8) -> u8
    requires { sets ≤ 15 }
    ensures { IsLeastWith held.now (IsSpecial 0) sets result }
{
    let nearest = sets.min(missing_of_pairs(held));
    if u16::from(nearest) <= missing_tiles(held, &EACH_ORPHAN) {
        return nearest;
    }
    u16::from(nearest).min(missing_of_orphans(held)) as u8
}

// Takes into the best hand the nearest seven pairs and thirteen orphans, where there are no melds.
fn take_special(held: &[u8; 36], melds: u8, best: &mut Option<(u16, [u8; 36])>)
    ensures { Improves held.now (IsSpecial melds) best.old best.new }
{
    if melds > 0 {
        return;
    }
    if is_nearer(best, least_of_special(held)) {
        return;
    }
    take_pairs(held, best);
    take_orphans(held, best);
}

/// Whether the best hand misses fewer tiles than so many.
pub(crate) fn is_nearer(best: &Option<(u16, [u8; 36])>, number: u16) -> bool
    ensures { IsTrue result → IsSomeAnd best.now (λ answer. answer.0 < number) }
{
    match best {
        Some(answer) => answer.0 < number,
        None => false,
    }
}

// What seven pairs and thirteen orphans miss at least: a tile for each pair beyond the kinds that are held twice, and one
// for each terminal and honour that is not held.
fn least_of_special(held: &[u8; 36]) -> u16
    ensures few { result ≤ 7 }
    ensures least { (melds : ℕ) (target : List ℕ) → IsSpecial melds target → result
        ≤ missing target held.now }
{
    let pairs = 7usize.saturating_sub(kinds_held(held, 2)) as u16;
    pairs.min(missing_tiles(held, &EACH_ORPHAN))
}

// The counts without the two numbers that no kind has.
fn counts_among(wide: &[u8; 36]) -> Counts
    requires { IsCounts (take 34 wide.now) }
    ensures { result ≡ take 34 wide.now }
{
    let mut numbers = [0; KINDS];
    for kind in 0..KINDS {
        numbers[kind] = wide[kind];
    }
    Counts::from_numbers(numbers)
}
