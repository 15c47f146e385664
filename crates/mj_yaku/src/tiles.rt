ghost use Rattle.std.specs.Prelude.{◌≡◌, ◌==◌, ◌&&◌, ◌||◌, ◌<◌, ◌+◌, not, count_by};
ghost use Rattle.mj_tiles.specs.Counts.{all_kinds};
ghost use Rattle.mj_tiles.specs.Kinds.{has_kind};
ghost use Rattle.mj_tiles.specs.Terminals.{is_terminal_or_honour};
ghost use Rattle.std.specs.List.{list_all, list_any};
ghost use Rattle.mj_readings.specs.Sets.{tiles_of_set};
ghost use Rattle.mj_fu.specs.Forms.{is_run as run};
ghost use Rattle.mj_yaku.specs.Hands.{tiles_of, has_triple as triple_of_sets, has_run as run_of_sets};
ghost use Rattle.mj_yaku.specs.Inner.Classes.{in_class};

use mj_fu::is_run;
use mj_readings::{Reading, Set, SetForm};
use mj_tiles::{EAST, KINDS, Kind, Kinds};

/// A class of kinds that yaku ask about.
#[derive(Clone, Copy)]
pub(crate) enum Class {
    /// Twos to eights.
    Simple,
    /// Terminals and honours.
    Outside,
    /// Ones and nines.
    Terminal,
    /// Winds and dragons.
    Honour,
    /// All kinds but honours.
    Number,
    /// The green tiles, 2s, 3s, 4s, 6s, 8s and F.
    Green,
    /// The suit with this lowest kind.
    Suit(u8),
    /// The suit with this lowest kind, and honours.
    SuitOrHonour(u8),
}

/// Whether the kind with this number is of the class.
#[tactic(auto, unfolding(mj_tiles::specs::Terminals::is_terminal_or_honour))]
pub(crate) fn is_in(class: Class, number: u8) -> bool
    ensures { result ≡ in_class class number }
{
    match class {
        Class::Simple => number < EAST && number % 9 != 0 && number % 9 != 8,
        Class::Outside => number >= EAST || number % 9 == 0 || number % 9 == 8,
        Class::Terminal => number < EAST && (number % 9 == 0 || number % 9 == 8),
        Class::Honour => number >= EAST,
        Class::Number => number < EAST,
        Class::Green => match number {
            19 | 20 | 21 | 23 | 25 | 32 => true,
            _ => false,
        },
        Class::Suit(suit) => number < EAST && number / 9 == suit / 9,
        Class::SuitOrHonour(suit) => number >= EAST || number / 9 == suit / 9,
    }
}

/// Whether all tiles of the hand are of the class.
#[tactic(auto, using(crate::proofs::TileTests::tests_of_pairs, crate::proofs::TileTests::tests_of_orphans), unfolding(crate::specs::Hands::tiles_of))]
pub(crate) fn all_tiles(reading: &Reading, class: Class) -> bool
    ensures { result ≡ list_all (in_class class) (tiles_of reading.now) }
{
    match reading {
        Reading::Standard {
            a,
            b,
            c,
            d,
            pair,
            ..
        } => {
            all_of_set(a, class)
                && all_of_set(b, class)
                && all_of_set(c, class)
                && all_of_set(d, class)
                && is_in(class, pair.number())
        }
        Reading::Pairs { kinds } => all_of_kinds(*kinds, class),
        Reading::Orphans { .. } => all_orphans(class),
    }
}

// Whether all tiles of the set are of the class.
fn all_of_set(set: &Set, class: Class) -> bool
    ensures { result ≡ list_all (in_class class) (tiles_of_set set.now) }
{
    let low = set.low.number();
    match set.form {
        SetForm::Run => is_in(class, low) && is_in(class, low + 1) && is_in(class, low + 2),
        SetForm::Triplet | SetForm::Kan => is_in(class, low),
    }
}

/// Whether some tile of the set is of the class.
pub(crate) fn any_of_set(set: &Set, class: Class) -> bool
    ensures { result ≡ list_any (in_class class) (tiles_of_set set.now) }
{
    let low = set.low.number();
    match set.form {
        SetForm::Run => is_in(class, low) || is_in(class, low + 1) || is_in(class, low + 2),
        SetForm::Triplet | SetForm::Kan => is_in(class, low),
    }
}

/// Whether the sets have a triplet or kan of the kind with this number.
pub(crate) fn has_triple(sets: &[Set], number: u8) -> bool
    ensures { result ≡ triple_of_sets number sets.now }
{
    sets.iter()
        .any(|set| !is_run(set) && set.low.number() == number)
}

/// Whether the sets have a run whose low tile is of the kind with this number.
pub(crate) fn has_run(sets: &[Set], number: u8) -> bool
    ensures { result ≡ run_of_sets number sets.now }
{
    sets.iter()
        .any(|set| is_run(set) && set.low.number() == number)
}

// Whether all kinds of a set of kinds are of the class.
fn all_of_kinds(kinds: Kinds, class: Class) -> bool
    ensures { result ≡ list_all (λ kind. not (has_kind kinds kind) || in_class class kind)
        all_kinds }
{
    for number in 0..KINDS as u8 {
        if has_number(kinds, number) && !is_in(class, number) {
            return false;
        }
    }
    true
}

// Whether all terminals and honours are of the class.
fn all_orphans(class: Class) -> bool
    ensures { result ≡ list_all (λ kind. not (is_terminal_or_honour kind) || in_class class kind)
        all_kinds }
{
    for number in 0..KINDS as u8 {
        if is_in(Class::Outside, number) && !is_in(class, number) {
            return false;
        }
    }
    true
}

// Whether a set of kinds has the kind with this number.
fn has_number(kinds: Kinds, number: u8) -> bool
    ensures { number < 34 → result ≡ has_kind kinds number }
{
    match Kind::of(number) {
        Some(kind) => kinds.has(kind),
        None => false,
    }
}
