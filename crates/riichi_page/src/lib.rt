//! The calls of `mj_page` for a page, as a static library, built for a browser as for a machine.
#![tactic(auto)]

ghost use Rattle.std.specs.Prelude.{◌≡◌};
ghost use Rattle.mj_waits.specs.Furiten.{is_furiten};
ghost use Rattle.mj_page.specs.Answers.{AreWaitsOf, IsShantenOf, IsBestOf};

use mj_page::{Meld, best_discard_of, is_in_furiten, shanten_of, waits_of};

/// The waits of a hand that holds so many concealed tiles of each of the 34 kinds, and has these melds: bit k for kind k. All 64
/// bits are one where the numbers are no hand: `held` hasn't 34, there are more than four melds, one of them is no run, triplet
/// or kan, or a kind stands more than four times in all.
#[unsafe(no_mangle)]
pub extern "C" fn riichi_page_waits(held: &[u8], melds: &[Meld]) -> u64
    ensures { AreWaitsOf held.now melds.now result }
{
    waits_of(held, melds)
}

/// The shanten of such a hand, whose concealed tiles and three for each meld are 13, and in `target` how many tiles of each of
/// the 34 kinds the concealed tiles of the nearest complete hand have. It is 255, and `target` stays as it was, where the
/// numbers are no hand of 13 or `target` hasn't 34 places.
#[unsafe(no_mangle)]
pub extern "C" fn riichi_page_shanten(held: &[u8], melds: &[Meld], target: &mut [u8]) -> u32
    ensures { IsShantenOf held.now melds.now result target.old target.new }
{
    shanten_of(held, melds, target)
}

/// The best discard of such a hand, whose concealed tiles and three for each meld are 14: the kind that leaves the least shanten,
/// and of several the last in tile order. It is 255 where the numbers are no hand of 14.
#[unsafe(no_mangle)]
pub extern "C" fn riichi_page_best_discard(held: &[u8], melds: &[Meld]) -> u32
    ensures { IsBestOf held.now melds.now result }
{
    best_discard_of(held, melds)
}

/// Whether a seat with these waits may not win on a discard: one of them is among its own discards of the hand, or was let pass
/// since its last discard or since its riichi. Each is a set of kinds, bit k for kind k; bits above 33 say nothing.
#[unsafe(no_mangle)]
pub extern "C" fn riichi_page_furiten(
    waits: u64,
    own: u64,
    passed: u64,
    passed_in_riichi: u64,
) -> bool
    ensures { result ≡ is_furiten (record {
      waits = waits;
      own = own;
      passed = passed;
      passed_in_riichi = passed_in_riichi;
    }) }
{
    is_in_furiten(waits, own, passed, passed_in_riichi)
}
