//! The calls.

ghost use Rattle.std.specs.Prelude.{◌≡◌};
ghost use Rattle.mj_waits.specs.Furiten.{is_furiten};
ghost use Rattle.mj_page.specs.Answers.{AreWaitsOf, IsShantenOf, IsBestOf};

use crate::hand::read_hand;
use crate::melds::Meld;
use crate::sets::{bits_of, every_kind, kinds_of};
use mj_shanten::{Suits, shanten};
use mj_waits::{Facts, furiten, waits};

/// What is answered in place of a set of kinds where the numbers are no hand.
const NO_KINDS: u64 = u64::MAX;

/// What is answered in place of a number or a kind where there is none.
const NONE: u32 = 255;

/// The waits of a hand that holds so many concealed tiles of each of the 34 kinds, and has these melds: bit k for kind k. All 64
/// bits are one where the numbers are no hand: `held` hasn't 34, there are more than four melds, one of them is no run, triplet
/// or kan, or a kind stands more than four times in all.
#[tactic(auto, using(crate::proofs::Said::waits_said, crate::proofs::Said::waits_none))]
pub fn waits_of(held: &[u8], melds: &[Meld]) -> u64
    ensures { AreWaitsOf held.now melds.now result }
{
    match read_hand(held, melds) {
        Some(hand) => bits_of(waits(&hand.counts, &hand.room, hand.melds)),
        None => NO_KINDS,
    }
}

/// The shanten of such a hand, whose concealed tiles and three for each meld are 13, and in `target` how many tiles of each of
/// the 34 kinds the concealed tiles of the nearest complete hand have. It is 255, and `target` stays as it was, where the
/// numbers are no hand of 13 or `target` hasn't 34 places.
#[tactic(auto, using(crate::proofs::Said::measured, crate::proofs::Said::shanten_said, crate::proofs::Said::shanten_none, crate::proofs::Said::shanten_other))]
pub fn shanten_of(held: &[u8], melds: &[Meld], target: &mut [u8]) -> u32
    ensures { IsShantenOf held.now melds.now result target.old target.new }
{
    let Some(hand) = read_hand(held, melds) else {
        return NONE;
    };
    if !hand.has(13) || target.len() != 34 {
        return NONE;
    }
    let nearest = shanten(&hand.counts, &hand.room, hand.melds);
    target.copy_from_slice(nearest.target.numbers());
    u32::from(nearest.number)
}

/// The best discard of such a hand, whose concealed tiles and three for each meld are 14: the kind that leaves the least shanten,
/// and of several the last in tile order. It is 255 where the numbers are no hand of 14.
#[tactic(auto, using(crate::proofs::Said::within, crate::proofs::Said::room, crate::proofs::Said::best_said, crate::proofs::Said::best_none, crate::proofs::Said::best_other, crate::proofs::Said::best_lacking))]
pub fn best_discard_of(held: &[u8], melds: &[Meld]) -> u32
    ensures { IsBestOf held.now melds.now result }
{
    let Some(hand) = read_hand(held, melds) else {
        return NONE;
    };
    if !hand.has(14) {
        return NONE;
    }
    match Suits::new(&hand.counts, &hand.room).best_discard(every_kind(), hand.melds) {
        Some(kind) => u32::from(kind.number()),
        None => NONE,
    }
}

/// Whether a seat with these waits may not win on a discard: one of them is among its own discards of the hand, or was let pass
/// since its last discard or since its riichi. Each is a set of kinds, bit k for kind k; bits above 33 say nothing.
#[tactic(auto, using(crate::proofs::Said::furiten_said))]
pub fn is_in_furiten(waits: u64, own: u64, passed: u64, passed_in_riichi: u64) -> bool
    ensures { result ≡ is_furiten (record {
      waits = waits;
      own = own;
      passed = passed;
      passed_in_riichi = passed_in_riichi;
    }) }
{
    furiten(&Facts {
        waits: kinds_of(waits),
        own: kinds_of(own),
        passed: kinds_of(passed),
        passed_in_riichi: kinds_of(passed_in_riichi),
    })
}
