ghost use Rattle.std.specs.Prelude.{slice_index, ◌≡◌, ℕ, List, ◌+◌, ◌*◌, ◌-◌, ◌<◌, ◌≤◌, ◌↔◌, false, true, IsTrue, length, count_by, is_some, ◌==◌, ◌&&◌, ◌||◌, nat_le, nat_lt};
ghost use Rattle.std.specs.List.{list_any};
ghost use Rattle.mj_tiles.specs.Counts.{all_kinds};
ghost use Rattle.mj_tiles.specs.Kinds.{has_kind, kinds_that};
ghost use Rattle.mj_readings.specs.Complete.{is_seven_pairs};
ghost use Rattle.mj_readings.specs.Completing.{IsCompleting, is_completing};
ghost use Rattle.mj_readings.specs.Inner.OneMore.{NoSpecial, has_company};
ghost use Rattle.mj_readings.specs.Inner.Suits.{IsKnown, NoneIn, completing_below};
ghost use Rattle.mj_readings.specs.Inner.Sums.{IsOver, tiles_from};
ghost use Rattle.mj_readings.specs.Inner.Ways.{has_way};
ghost use Rattle.mj_readings.specs.Tests.{complete, one_more, orphan_double};

use crate::complete::{are_sets, is_special};
use crate::sums::{Over, Pairless, tiles_from};
use mj_tiles::{Counts, EAST, KINDS, Kind, Kinds};

/// The kinds that complete a hand of concealed tiles with these counts and so many melds: those of which fewer than
/// four tiles are held and one tile more of which makes the hand complete.
pub fn completing(counts: &Counts, melds: u8) -> Kinds
    ensures value { result ≡ kinds_that (is_completing counts.now melds) }
    ensures law { (kind : ℕ) → kind < 34
        → (IsTrue (has_kind result kind) ↔ IsCompleting counts.now melds kind) }
{
    let over = Over::of(counts.numbers());
    let special = may_be_special(counts.numbers(), melds);
    if over.has_singles() && !special {
        return Kinds::none();
    }
    let known = Known::of(counts, melds, over, special);
    let mut kinds = Kinds::none();
    for suit in 0..4 {
        kinds = with_suit(counts, kinds, suit, &known);
    }
    kinds
}

/// Whether some kind of a set completes a hand of concealed tiles with these counts and so many melds, as `completing` says:
/// for whoever asks of few kinds, which alone are tried.
pub fn is_completed_by(counts: &Counts, melds: u8, among: Kinds) -> bool
    ensures { result ≡ list_any
        (λ kind. has_kind among kind && is_completing counts.now melds kind) all_kinds }
{
    if among.is_empty() {
        return false;
    }
    let over = Over::of(counts.numbers());
    let special = may_be_special(counts.numbers(), melds);
    if !special && over.has_singles() {
        return false;
    }
    let known = Known::of(counts, melds, over, special);
    for suit in 0..4 {
        if is_completed_in(counts, among, suit, &known) {
            return true;
        }
    }
    false
}

/// Whether the sums of a hand with these counts and so many melds say that no exchange of one tile completes it. True only
/// where the hand is not complete with one tile more of any kind, whichever of its tiles is taken away.
pub fn is_far(counts: &Counts, melds: u8) -> bool
    ensures { result ≡ true → (given : List ℕ) (kind : ℕ) → kind < 34
        → counts.now ≡ one_more given kind → (other : ℕ) → other < 34
        → complete (one_more given other) melds ≡ false }
{
    if !Over::of(counts.numbers()).has_more_singles() {
        return false;
    }
    if melds > 0 {
        return true;
    }
    is_far_from_special(counts.numbers())
}

/// Whether three kinds or more stand once and two tiles or more are characters from two to eight: then no exchange of one tile makes
/// the hand seven pairs or thirteen orphans.
fn is_far_from_special(numbers: &[u8]) -> bool
    requires { length numbers.now ≡ 34 }
    ensures { result ≡ (nat_lt 2 (count_by (λ number. number == 1) numbers.now)
        && nat_lt 1 (tiles_from numbers.now 1 7)) }
{
    single_kinds(numbers) > 2 && tiles_from(numbers, 1, 7) > 1
}

/// What is known of a hand before a tile is added to it: how many melds it has, what is over in it, which suits lack the pair,
/// and whether a tile more may make it seven pairs or thirteen orphans.
#[derive(Clone, Copy, Debug)]
struct Known {
    melds: u8,
    over: Over,
    pairless: Pairless,
    special: bool,
}

impl Known {
    /// What is known of the hand: which suits lack the pair is told by its counts and what is over.
    fn of(counts: &Counts, melds: u8, over: Over, special: bool) -> Known
        requires hand { IsOver counts.now over }
        requires other { special ≡ false → NoSpecial counts.now melds }
        ensures hand { IsKnown counts.now result }
        ensures melds { result.melds ≡ melds }
    {
        Known {
            melds,
            over,
            pairless: Pairless::of(counts.numbers(), &over),
            special,
        }
    }
}

/// The kinds that complete the hand in the suits up to this one, where those below it are given.
fn with_suit(counts: &Counts, below: Kinds, suit: u8, known: &Known) -> Kinds
    requires hand { IsKnown counts.now known.now }
    requires one { suit < 4 }
    requires below { below ≡ completing_below counts.now known.now.melds (9 * suit) }
    ensures { result ≡ completing_below counts.now known.now.melds (9 * suit + 9) }
{
    if refuses_suit(counts, suit, known) {
        return below;
    }
    let mut kinds = below;
    let end = end_of(suit);
    for number in 9 * suit..end {
        let kind = Kind::at(number);
        if completes_with(counts, kind, known) {
            kinds = kinds.with(kind);
        }
    }
    kinds
}

/// Whether some kind of the set and of the suit completes the hand.
fn is_completed_in(counts: &Counts, among: Kinds, suit: u8, known: &Known) -> bool
    requires hand { IsKnown counts.now known.now }
    requires one { suit < 4 }
    ensures some { result ≡ true → (kind : ℕ)
        × ((kind < 34) × ((has_kind among kind && is_completing counts.now known.now.melds kind) ≡ true)) }
    ensures none { result ≡ false → NoneIn suit
        (λ kind. has_kind among kind && is_completing counts.now known.now.melds kind) }
{
    if refuses_suit(counts, suit, known) {
        return false;
    }
    let end = end_of(suit);
    for number in 9 * suit..end {
        let kind = Kind::at(number);
        if completes_among(counts, among, kind, known) {
            return true;
        }
    }
    false
}

/// The first kind after those of a suit.
fn end_of(suit: u8) -> u8
    requires { suit < 4 }
    ensures from { 9 * suit ≤ result }
    ensures within { result ≤ 34 }
    ensures to { result ≤ 9 * suit + 9 }
    ensures last { (kind : ℕ) → kind < 34 → kind < 9 * suit + 9 → kind < result }
{
    if suit == 3 {
        return KINDS as u8;
    }
    9 * suit + 9
}

/// Whether it shows at once that no kind of the suit completes the hand: neither seven pairs nor orphans are in question, and
/// another suit lacks the pair, or the sums refuse a tile more in this one. Of an honour these are asked apart.
fn refuses_suit(counts: &Counts, suit: u8, known: &Known) -> bool
    requires hand { IsKnown counts.now known.now }
    requires one { suit < 4 }
    ensures { result ≡ true → NoneIn suit (is_completing counts.now known.now.melds) }
{
    if known.special {
        return false;
    }
    if known.pairless.has_other(suit) {
        return true;
    }
    if suit == 3 {
        return false;
    }
    !known.over.takes(counts.numbers(), Kind::at(9 * suit))
}

/// Whether the kind is one of the set and completes the hand, where the same is known.
fn completes_among(counts: &Counts, among: Kinds, kind: Kind, known: &Known) -> bool
    requires { IsKnown counts.now known.now }
    ensures { result ≡ (has_kind among kind && is_completing counts.now known.now.melds kind) }
{
    among.has(kind) && completes_with(counts, kind, known)
}

/// Whether the kind completes the hand.
fn completes_with(counts: &Counts, kind: Kind, known: &Known) -> bool
    requires { IsKnown counts.now known.now }
    ensures { result ≡ is_completing counts.now known.now.melds kind }
{
    if counts.get(kind) >= 4 {
        return false;
    }
    if is_standard_with(counts, kind, known) {
        return true;
    }
    if !known.special {
        return false;
    }
    is_special_with(counts, kind, known.melds)
}

/// Whether one tile more of the kind makes the hand sets and a pair.
fn is_standard_with(counts: &Counts, kind: Kind, known: &Known) -> bool
    requires hand { IsKnown counts.now known.now }
    requires few { slice_index counts.now kind < 4 }
    ensures { result ≡ (nat_le known.now.melds 4 && has_way (one_more counts.now kind) 0 0 0 (4 - known.now.melds) false) }
{
    if !has_company(counts.numbers(), kind) {
        return false;
    }
    are_sets_with(counts, kind, known)
}

/// Whether one tile more of the kind makes the hand sets and a pair, set by set where the sums do not refuse it.
#[inline(never)]
fn are_sets_with(counts: &Counts, kind: Kind, known: &Known) -> bool
    requires hand { IsKnown counts.now known.now }
    requires few { slice_index counts.now kind < 4 }
    ensures { result ≡ (nat_le known.now.melds 4 && has_way (one_more counts.now kind) 0 0 0 (4 - known.now.melds) false) }
{
    if known.melds > 4 {
        return false;
    }
    if !known.over.takes(counts.numbers(), kind) {
        return false;
    }
    are_sets(&with(counts, kind), known.melds)
}

/// Whether one tile more of the kind makes the hand seven pairs or thirteen orphans.
#[inline(never)]
fn is_special_with(counts: &Counts, kind: Kind, melds: u8) -> bool
    requires { slice_index counts.now kind < 4 }
    ensures { result ≡ (melds == 0
        && (is_seven_pairs (one_more counts.now kind) || is_some (orphan_double (one_more counts.now kind)))) }
{
    is_special(&with(counts, kind), melds)
}

/// Whether the kind is held, or two kinds are that make a run with it: else a tile more of it is in no set and no pair.
#[tactic(auto, unfolding(crate::specs::Inner::OneMore::has_company))]
fn has_company(numbers: &[u8], kind: Kind) -> bool
    requires { length numbers.now ≡ 34 }
    ensures { result ≡ has_company numbers.now kind }
{
    let place = usize::from(kind.number());
    if numbers[place] > 0 {
        return true;
    }
    if place >= usize::from(EAST) {
        return false;
    }
    let above = numbers[place + 1] > 0;
    let below = place > 0 && numbers[place - 1] > 0;
    above && below
        || above && numbers[place + 2] > 0
        || below && place > 1 && numbers[place - 2] > 0
}

/// The numbers of the hand with one tile more of the kind.
fn with(counts: &Counts, kind: Kind) -> [u8; KINDS]
    requires { slice_index counts.now kind < 4 }
    ensures value { result ≡ one_more counts.now kind }
    ensures size { length result ≡ 34 }
{
    let mut numbers = *counts.numbers();
    numbers[usize::from(kind.number())] += 1;
    numbers
}

/// Whether a tile more may make the hand seven pairs or thirteen orphans: false only where none does.
fn may_be_special(numbers: &[u8], melds: u8) -> bool
    requires { length numbers.now ≡ 34 }
    ensures { result ≡ false → NoSpecial numbers.now melds }
{
    if melds > 0 {
        return false;
    }
    single_kinds(numbers) <= 1 || !has_middle_character(numbers)
}

/// How many kinds stand once.
fn single_kinds(numbers: &[u8]) -> usize
    ensures { result ≡ count_by (λ number. number == 1) numbers.now }
{
    let mut many = 0;
    for number in numbers {
        many += (*number == 1) as usize;
    }
    many
}

/// Whether a character from two to eight is held.
fn has_middle_character(numbers: &[u8]) -> bool
    requires { length numbers.now ≡ 34 }
    ensures { result ≡ true → (kind : ℕ)
        × ((0 < kind) × (kind < 8) × (0 < slice_index numbers.now kind)) }
{
    for place in 1..8 {
        if numbers[place] > 0 {
            return true;
        }
    }
    false
}
