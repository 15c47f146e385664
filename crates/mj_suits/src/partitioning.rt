//! All ways of parting a suit's tiles into sets and at most one pair.
//!
//! The search goes through the numbers from the lowest on. At each it begins the run, then the triplet, then the pair,
//! each set as often as it fits, so that it comes to every way just once.

ghost use Rattle.std.specs.Prelude.{◌≡◌, ◌≤◌, ◌*◌, ◌+◌, IfOk, OnOk, MatchOption};
ghost use Rattle.mj_suits.specs.Each.{AreAll};
ghost use Rattle.mj_suits.specs.Sets.{IsPartition};
ghost use Rattle.mj_suits.specs.Inner.Search.{FoundFrom, Fits, IsLess, place};

use crate::sets::{Split, SuitSet, SuitSets};
use std::alloc::{AllocError, Global};

// The tiles still to be parted, whether the suit has runs, and the pair, where it is chosen.
#[derive(Clone, Copy)]
struct Rest {
    left: [u8; 9],
    runs: bool,
    pair: Option<u8>,
}

// The sets that a split begins with, and the splits found so far.
#[derive(Drop)]
struct Search {
    sets: Vec<SuitSet>,
    found: Vec<Split>,
}

/// All ways of parting the tiles of a suit into runs, triplets and at most one pair, each way once.
///
/// `counts` says how many tiles there are of each number. Honours make no runs: `runs` is false for them.
/// The only error is running out of memory.
pub fn partitions(alloc: Global, counts: [u8; 9], runs: bool) -> Result<Vec<Split>, AllocError>
    ensures { IfOk result (λ found. AreAll (IsPartition counts runs) found.items) }
{
    let first = SuitSet { run: true, low: 0 };
    let rest = Rest {
        left: counts,
        runs,
        pair: None,
    };
    let mut search = Search {
        sets: Vec::new(alloc),
        found: Vec::new(alloc),
    };
    sets_from(alloc, first, &rest, &mut search)?;
    Ok(search.found)
}

// The splits that go on with the set `next` or what comes after it.
#[cycle(search)]
fn sets_from(
    alloc: Global,
    next: SuitSet,
    rest: &Rest,
    search: &mut Search,
) -> Result<(), AllocError>
    requires { next.low ≤ 8 }
    ensures kept { OnOk result (search.new.sets.items ≡ search.old.sets.items) }
    ensures found { OnOk result (FoundFrom (place next) next.low rest.now search.old search.new) }
{
    match without(rest.left, next, rest.runs) {
        Some(left) => {
            let less = Rest {
                left,
                runs: rest.runs,
                pair: rest.pair,
            };
            search.sets.push(next)?;
            sets_from(alloc, next, &less, search)?;
            let _ = search.sets.pop();
            after_set(alloc, next, rest, search)
        }
        None => after_set(alloc, next, rest, search),
    }
}

// The splits that go on with what comes after the set `last`.
#[cycle(search)]
fn after_set(
    alloc: Global,
    last: SuitSet,
    rest: &Rest,
    search: &mut Search,
) -> Result<(), AllocError>
    requires { last.low ≤ 8 }
    ensures kept { OnOk result (search.new.sets.items ≡ search.old.sets.items) }
    ensures found { OnOk result
        (FoundFrom (place last + 1) last.low rest.now search.old search.new) }
{
    if last.run {
        let triplet = SuitSet {
            run: false,
            low: last.low,
        };
        return sets_from(alloc, triplet, rest, search);
    }
    pair_at(alloc, last.low, rest, search)
}

// The splits that go on with a pair of the number `low` or what comes after it.
#[cycle(search)]
fn pair_at(alloc: Global, low: u8, rest: &Rest, search: &mut Search) -> Result<(), AllocError>
    requires { low ≤ 8 }
    ensures kept { OnOk result (search.new.sets.items ≡ search.old.sets.items) }
    ensures found { OnOk result (FoundFrom (3 * low + 2) low rest.now search.old search.new) }
{
    if rest.pair.is_none() && rest.left[low as usize] >= 2 {
        let mut left = rest.left;
        left[low as usize] -= 2;
        let paired = Rest {
            left,
            runs: rest.runs,
            pair: Some(low),
        };
        next_number(alloc, low, &paired, search)?;
        return next_number(alloc, low, rest, search);
    }
    next_number(alloc, low, rest, search)
}

// The splits that go on above the number `low`.
#[cycle(search)]
fn next_number(alloc: Global, low: u8, rest: &Rest, search: &mut Search) -> Result<(), AllocError>
    requires { low ≤ 8 }
    ensures kept { OnOk result (search.new.sets.items ≡ search.old.sets.items) }
    ensures found { OnOk result (FoundFrom (3 * low + 3) low rest.now search.old search.new) }
{
    if rest.left[low as usize] > 0 {
        return Ok(());
    }
    if low == 8 {
        let items = Vec::from_slice(alloc, &search.sets)?;
        let sets = SuitSets::from_vec(items);
        search.found.push(Split {
            sets,
            pair: rest.pair,
        })?;
        return Ok(());
    }
    let run = SuitSet {
        run: true,
        low: low + 1,
    };
    sets_from(alloc, run, rest, search)
}

// The counts less the tiles of a set, where the suit has such a set and its tiles are among the counts.
fn without(left: [u8; 9], set: SuitSet, runs: bool) -> Option<[u8; 9]>
    requires { set.low ≤ 8 }
    ensures { MatchOption result (Fits left set runs → ⊥) (λ rest. IsLess left set runs rest) }
{
    let low = set.low as usize;
    if !set.run {
        if left[low] < 3 {
            return None;
        }
        let mut rest = left;
        rest[low] -= 3;
        return Some(rest);
    }
    if !runs || low > 6 {
        return None;
    }
    if left[low] == 0 || left[low + 1] == 0 || left[low + 2] == 0 {
        return None;
    }
    let mut rest = left;
    rest[low] -= 1;
    rest[low + 1] -= 1;
    rest[low + 2] -= 1;
    Some(rest)
}
