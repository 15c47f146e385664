ghost use Rattle.std.specs.Prelude.{slice_index, ◌≡◌, ◌∷◌, ℕ, ◌+◌, ◌-◌, ◌≤◌, ◌<◌, ◌↔◌, Bool, false, IsTrue, length, count_by, is_some, ◌==◌, ◌||◌, ◌&&◌, nat_le, not, true};
ghost use Rattle.std.specs.List.{list_all};
ghost use Rattle.mj_tiles.specs.Counts.{all_kinds};
ghost use Rattle.mj_readings.specs.Sets.{begins_run};
ghost use Rattle.mj_readings.specs.Complete.{IsComplete, is_seven_pairs};
ghost use Rattle.mj_readings.specs.Inner.Ways.{begins, has_way};
ghost use Rattle.mj_readings.specs.Tests.{complete, one_more, orphan_double};

use crate::sums::may_be_sets;
use mj_tiles::{Counts, EAST, Kind};

/// Whether concealed tiles with these counts and so many melds are a complete hand: four sets and a pair, each meld a
/// set, or without melds seven different pairs or thirteen orphans. False at any other number of tiles than 14 less 3
/// for each meld, and at more than four melds.
pub fn is_complete(counts: &Counts, melds: u8) -> bool
    ensures value { result ≡ complete counts.now melds }
    ensures law { IsTrue result ↔ IsComplete counts.now melds }
{
    completes_hand(counts.numbers(), melds)
}

/// Whether the hand is complete with one tile more of the kind. Condition: fewer than four of it are held.
pub fn is_complete_with(counts: &Counts, kind: Kind, melds: u8) -> bool
    requires { slice_index counts.now kind < 4 }
    ensures value { result ≡ complete (one_more counts.now kind) melds }
    ensures law { IsTrue result ↔ IsComplete (one_more counts.now kind) melds }
{
    let mut numbers = *counts.numbers();
    numbers[kind.number() as usize] += 1;
    completes_hand(&numbers, melds)
}

/// The test of a complete hand on the numbers of its tiles by kind.
#[tactic(auto, unfolding(crate::specs::Tests::complete))]
fn completes_hand(numbers: &[u8], melds: u8) -> bool
    requires { length numbers.now ≡ 34 }
    ensures { result ≡ complete numbers.now melds }
{
    is_standard(numbers, melds) || is_special(numbers, melds)
}

/// Whether the tiles are the sets that the melds leave to make, and a pair. Sums that are not those of any say no at once.
fn is_standard(numbers: &[u8], melds: u8) -> bool
    requires { length numbers.now ≡ 34 }
    ensures { result ≡ (nat_le melds 4 && has_way numbers.now 0 0 0 (4 - melds) false) }
{
    if melds > 4 {
        return false;
    }
    if !may_be_sets(numbers, 4 - melds) {
        return false;
    }
    are_sets(numbers, melds)
}

/// Whether the tiles are the sets that the melds leave to make, and a pair, set by set.
pub(crate) fn are_sets(numbers: &[u8], melds: u8) -> bool
    requires size { length numbers.now ≡ 34 }
    requires few { melds ≤ 4 }
    ensures { result ≡ has_way numbers.now 0 0 0 (4 - melds) false }
{
    let left = StillWanted {
        sets: 4 - melds,
        paired: false,
    };
    completes(numbers, 0, 0, 0, left)
}

/// Whether the tiles are seven pairs or thirteen orphans, where there are no melds.
pub(crate) fn is_special(numbers: &[u8], melds: u8) -> bool
    requires { length numbers.now ≡ 34 }
    ensures { result ≡ (melds == 0
        && (is_seven_pairs numbers.now || is_some (orphan_double numbers.now))) }
{
    melds == 0 && (are_seven_pairs(numbers) || double_of(numbers).is_some())
}

/// What is left to make: so many sets, and the pair where it isn't made.
#[derive(Clone, Copy, Debug)]
struct StillWanted {
    sets: u8,
    paired: bool,
}

/// Whether the kinds from this one on can be made into what is left to make, with so many runs under way that began two
/// kinds and one kind before.
#[cycle(completes)]
#[tactic(auto, unfolding(crate::specs::Inner::Ways::has_way))]
fn completes(numbers: &[u8], kind: u8, first: u8, second: u8, left: StillWanted) -> bool
    requires kinds { kind + length numbers.now ≤ 34 }
    requires first_few { first ≤ 4 }
    requires second_few { second ≤ 4 }
    requires few { left.sets ≤ 4 }
    ensures { result ≡ has_way numbers.now kind first second left.sets left.paired }
{
    let [count, others @ ..] = numbers else {
        return left.sets == 0 && left.paired;
    };
    if *count == 0 {
        if first + second > 0 {
            return false;
        }
        return completes(others, kind + 1, 0, 0, left);
    }
    completes_at(*count, others, kind, first, second, left)
}

/// Whether so many tiles of a kind and the tiles of those after it can be made into what is left to make.
#[cycle(completes)]
#[tactic(auto, unfolding(crate::specs::Inner::Ways::has_way))]
fn completes_at(
    count: u8,
    others: &[u8],
    kind: u8,
    first: u8,
    second: u8,
    left: StillWanted,
) -> bool
    requires kinds { kind + length others.now < 34 }
    requires first_few { first ≤ 4 }
    requires second_few { second ≤ 4 }
    requires few { left.sets ≤ 4 }
    ensures { result ≡ has_way (count ∷ others.now) kind first second left.sets left.paired }
{
    if count < first + second {
        return false;
    }
    let free = count - (first + second);
    if free < 2 {
        return goes_on(others, kind, second, free, 0, left);
    }
    completes_with_more(others, kind, second, free, left)
}

/// Whether what is left can be made, where two tiles of the kind or more are free to begin runs, or to be the triplet or the
/// pair.
#[cycle(completes)]
fn completes_with_more(others: &[u8], kind: u8, second: u8, free: u8, left: StillWanted) -> bool
    requires kinds { kind + length others.now < 34 }
    requires second_few { second ≤ 4 }
    requires more { 2 ≤ free }
    requires few { left.sets ≤ 4 }
    ensures { result ≡ (begins
        (λ runs sets paired. has_way others.now (kind + 1) second runs sets paired)
        kind free 0 left.sets left.paired
        || nat_le 3 free && begins
        (λ runs sets paired. has_way others.now (kind + 1) second runs sets paired)
        kind (free - 3) 1 left.sets left.paired
        || not left.paired && begins
        (λ runs sets paired. has_way others.now (kind + 1) second runs sets paired)
        kind (free - 2) 0 left.sets true) }
{
    let with_pair = StillWanted {
        sets: left.sets,
        paired: true,
    };
    goes_on(others, kind, second, free, 0, left)
        || free >= 3 && goes_on(others, kind, second, free - 3, 1, left)
        || !left.paired && goes_on(others, kind, second, free - 2, 0, with_pair)
}

/// Whether so many runs and triplets can begin at a kind, and the kinds after it be made into what is then left to make.
#[cycle(completes)]
fn goes_on(others: &[u8], kind: u8, second: u8, runs: u8, triplets: u8, left: StillWanted) -> bool
    requires kinds { kind + length others.now < 34 }
    requires second_few { second ≤ 4 }
    requires triplet { triplets ≤ 1 }
    requires few { left.sets ≤ 4 }
    ensures { result ≡ begins
        (λ runs sets paired. has_way others.now (kind + 1) second runs sets paired)
        kind runs triplets left.sets left.paired }
{
    if !can_begin(kind, runs, triplets, left.sets) {
        return false;
    }
    let next = StillWanted {
        sets: left.sets - (runs + triplets),
        paired: left.paired,
    };
    completes(others, kind + 1, second, runs, next)
}

/// Whether so many runs and triplets may begin at the kind, where so many sets are left to make.
pub(crate) fn can_begin(kind: u8, runs: u8, triplets: u8, left: u8) -> bool
    requires { triplets ≤ 1 }
    ensures { result ≡ ((runs == 0 || begins_run kind) && nat_le (runs + triplets) left) }
{
    (runs == 0 || may_begin_run(kind)) && triplets <= left && runs <= left - triplets
}

/// Whether the kind is the lowest of three neighbouring ones of one suit.
#[tactic(auto, unfolding(crate::specs::Sets::begins_run))]
fn may_begin_run(kind: u8) -> bool
    ensures { result ≡ begins_run kind }
{
    kind < EAST && kind % 9 < 7
}

/// Whether the counts are seven different kinds, two tiles of each.
#[tactic(auto, unfolding(crate::specs::Complete::is_seven_pairs))]
pub(crate) fn are_seven_pairs(numbers: &[u8]) -> bool
    ensures { result ≡ is_seven_pairs numbers.now }
{
    only_pairs(numbers) && pairs_among(numbers) == 7
}

fn only_pairs(numbers: &[u8]) -> bool
    ensures { result ≡ list_all (λ number. number == 0 || number == 2) numbers.now }
{
    numbers.iter().all(|number| *number == 0 || *number == 2)
}

fn pairs_among(numbers: &[u8]) -> usize
    ensures { result ≡ count_by (λ number. number == 2) numbers.now }
{
    numbers.iter().filter(|number| **number == 2).count()
}

/// The kind that stands twice in thirteen orphans; none where the counts are not those.
pub(crate) fn double_of(numbers: &[u8]) -> Option<Kind>
    requires { length numbers.now ≡ 34 }
    ensures { result ≡ orphan_double numbers.now }
{
    let mut double = None;
    for (place, number) in numbers.iter().enumerate() {
        let kind = Kind::at(place as u8);
        let orphan = kind.is_terminal_or_honour();
        if *number == orphan as u8 {
            continue;
        }
        if !orphan || *number != 2 || double.is_some() {
            return None;
        }
        double = Some(kind);
    }
    double
}
