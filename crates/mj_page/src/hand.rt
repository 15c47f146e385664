//! A hand as a page says it.

ghost use Rattle.std.specs.Prelude.{◌≡◌, ◌≤◌, ◌<◌, ◌+◌, ◌*◌, ◌==◌, false, true, sum, length, MatchOption};
ghost use Rattle.mj_tiles.specs.Counts.{NoFifth};
ghost use Rattle.mj_page.specs.Hands.{left_by, is_few, is_within, is_hand, Says};

use crate::melds::{Meld, are_sets, melded};
use mj_tiles::{Counts, KINDS};

/// A hand whose melds are sets, and in which no kind stands more than four times.
#[derive(Clone, Copy)]
pub(crate) struct Hand {
    /// The concealed tiles.
    pub(crate) counts: Counts,
    /// Four of each kind less the tiles of the melds.
    pub(crate) room: Counts,
    /// How many melds there are, 0 to 4.
    pub(crate) melds: u8,
}

impl Hand {
    /// Whether its concealed tiles and three for each meld are so many.
    pub(crate) fn has(&self, tiles: u64) -> bool
        requires { self.now.melds ≤ 4 }
        ensures { result ≡ (sum self.now.counts + 3 * self.now.melds == tiles) }
    {
        total(&self.counts) + 3 * u64::from(self.melds) == tiles
    }
}

/// The hand of so many concealed tiles of each kind with these melds; none where that is no hand.
#[tactic(auto, using(crate::proofs::Hands::few_of, crate::proofs::Hands::four_melds))]
pub(crate) fn read_hand(held: &[u8], melds: &[Meld]) -> Option<Hand>
    ensures { MatchOption result (is_hand held.now melds.now ≡ false)
        (λ hand. Says hand held.now melds.now) }
{
    if !is_hand(held, melds) {
        return None;
    }
    Some(Hand {
        counts: counts_of(held),
        room: room_beside(melds),
        melds: melds.len() as u8,
    })
}

// There are numbers of the 34 kinds, the melds are sets, four at most, and no kind stands more than four times.
fn is_hand(held: &[u8], melds: &[Meld]) -> bool
    ensures { result ≡ is_hand held.now melds.now }
{
    melds.len() <= 4 && held.len() == KINDS && are_sets(melds) && are_within(held, melds)
}

// No kind stands more than four times.
fn are_within(held: &[u8], melds: &[Meld]) -> bool
    requires size { length held.now ≡ 34 }
    requires few { length melds.now ≤ 4 }
    ensures { result ≡ is_within held.now melds.now }
{
    for kind in 0..KINDS as u8 {
        if !is_few(held, melds, kind) {
            return false;
        }
    }
    true
}

// How often the kind stands in all is four at most.
fn is_few(held: &[u8], melds: &[Meld], kind: u8) -> bool
    requires size { length held.now ≡ 34 }
    requires few { length melds.now ≤ 4 }
    requires kind { kind < 34 }
    ensures { result ≡ is_few held.now melds.now kind }
{
    u16::from(held[usize::from(kind)]) + u16::from(melded(melds, kind)) <= 4
}

// The numbers as counts.
fn counts_of(held: &[u8]) -> Counts
    requires size { length held.now ≡ 34 }
    requires within { NoFifth held.now }
    ensures { result ≡ held.now }
{
    let mut numbers = [0; KINDS];
    numbers.copy_from_slice(held);
    Counts::from_numbers(numbers)
}

// Four of each kind less the tiles of the melds.
fn room_beside(melds: &[Meld]) -> Counts
    requires { length melds.now ≤ 4 }
    ensures { result ≡ left_by melds.now }
{
    let mut room = [0; KINDS];
    for kind in 0..KINDS {
        room[kind] = 4u8.saturating_sub(melded(melds, kind as u8));
    }
    Counts::from_numbers(room)
}

// How many tiles there are.
fn total(counts: &Counts) -> u64
    ensures value { result ≡ sum counts.now }
    ensures within { result ≤ 8670 }
{
    let mut total = 0;
    for number in counts.numbers() {
        total += u64::from(*number);
    }
    total
}
