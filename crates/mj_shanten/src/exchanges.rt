ghost use Rattle.std.specs.Prelude.{◌≡◌, ℕ, IfOk, length, List};
ghost use Rattle.std.specs.List.{zip};
ghost use Rattle.mj_shanten.specs.Room.{IsHand};
ghost use Rattle.mj_shanten.specs.Shanten.{IsShanten};
ghost use Rattle.mj_shanten.specs.Exchanges.{IsNearestOf, LeadsToReady, kinds_over, path_to};

use crate::nearest_hand::Nearest;
use mj_tiles::{Counts, KINDS, Kind, push_times};
use std::alloc::{AllocError, Global};

/// The exchanges that make the hand ready: the surplus tiles in tile order, each with the missing tile at the same place
/// in tile order. The first kind of a pair goes out, the second comes in. They are as many as the shanten, the hand after
/// them is ready, and in no hand between does a kind stand more often than its room.
///
/// `nearest` is what [`shanten`](crate::shanten) answers for these counts with some room and number of melds. Its target
/// has one missing tile more than there are surplus tiles: the last missing tile is left out.
pub fn exchange_path(
    alloc: Global,
    counts: &Counts,
    nearest: &Nearest,
) -> Result<Vec<(Kind, Kind)>, AllocError>
    requires { IsNearestOf counts.now nearest.now.number nearest.now.target }
    ensures value { IfOk result (λ path. path.items ≡ path_to counts.now nearest.now.target) }
    ensures law { IfOk result (λ path. (room : List ℕ) (melds : ℕ) → IsHand counts.now room melds
        → IsShanten counts.now room melds nearest.now.number nearest.now.target
        → LeadsToReady counts.now room melds nearest.now.number path.items) }
{
    let surplus = kinds_more(alloc, counts, &nearest.target)?;
    let missing = kinds_more(alloc, &nearest.target, counts)?;
    let path = paired(alloc, surplus.as_slice(), missing.as_slice())?;
    Ok(path)
}

// Each kind of the first list with the one at the same place of the second.
fn paired(alloc: Global, outs: &[Kind], puts: &[Kind]) -> Result<Vec<(Kind, Kind)>, AllocError>
    ensures { IfOk result (λ path. path.items ≡ zip outs.now puts.now) }
{
    outs.iter()
        .copied()
        .zip(puts.iter().copied())
        .collect(alloc)
}

// The kinds of which there are more tiles than in the other hand, each so often, in tile order.
fn kinds_more(alloc: Global, counts: &Counts, others: &Counts) -> Result<Vec<Kind>, AllocError>
    ensures size { length counts.now ≡ 34 }
    ensures value { IfOk result (λ kinds. kinds.items ≡ kinds_over counts.now others.now) }
{
    let numbers = counts.numbers();
    let mut kinds = Vec::new(alloc);
    for number in 0..KINDS as u8 {
        let Some(kind) = Kind::of(number) else {
            unreachable!()
        };
        let more = numbers[number as usize].saturating_sub(others.get(kind));
        push_times(&mut kinds, kind, more)?;
    }
    Ok(kinds)
}
