ghost use Rattle.std.specs.Prelude.{◌≡◌, ◌↔◌, ◌<◌, ◌+◌, ◌*◌, ◌||◌, IsTrue, length, nat_lt, slice_index, true, false};
ghost use Rattle.std.specs.List.{list_all, list_any};
ghost use Rattle.mj_readings.specs.AllReadings.{readings_of};
ghost use Rattle.mj_readings.specs.Sets.{tiles_of_set, set_of_meld};
ghost use Rattle.mj_readings.specs.Tests.{complete};
ghost use Rattle.mj_yaku.specs.Hands.{are_concealed};
ghost use Rattle.mj_yaku.specs.Inner.Classes.{in_class};
ghost use Rattle.mj_yaku.specs.Inner.Plain.{won_with_yaku, HasNoOutside, AreSimple};
ghost use Rattle.mj_yaku.specs.SomeYaku.{gives_yaku, HasYaku};
ghost use Rattle.mj_yaku.specs.declared.tiles.Class.TheVariants as classes;

use crate::table::yaku;
use crate::tiles::{Class, is_in};
use crate::wins::{
    has_chankan, has_double_reach, has_haitei, has_houtei, has_menzen_tsumo, has_reach, has_rinshan,
};
use mj_readings::{Case, Reading, reading_at};
use mj_tiles::{Counts, Form, Kind, Meld};

/// Whether some reading of the hand has a yaku: of its concealed tiles, the winning tile among them, its melds, and the
/// kind of the winning tile. Condition: `closed` of the case is true exactly where all melds are concealed kans.
pub fn has_yaku(counts: &Counts, melds: &[Meld], win: Kind, case: &Case) -> bool
    requires { case.now.closed ≡ are_concealed melds.now }
    ensures value { result ≡ list_any (gives_yaku melds.now case.now)
        (readings_of counts.now melds.now win) }
    ensures law { IsTrue result ↔ HasYaku counts.now melds.now win case.now }
{
    let mut index = 0;
    while let Some(reading) = reading_at(counts, melds, win, index) {
        if is_worth_something(&reading, melds, case) {
            return true;
        }
        index += 1;
    }
    false
}

/// Whether a complete hand has a yaku: where the way in which it was won gives one, or all its tiles are twos to eights, it has
/// one by whatever reading, and none is looked for. Conditions: `closed` of the case is true exactly where all melds are
/// concealed kans, and the tiles are a complete hand with as many melds.
pub fn complete_has_yaku(counts: &Counts, melds: &[Meld], win: Kind, case: &Case) -> bool
    requires closed { case.now.closed ≡ are_concealed melds.now }
    requires complete { complete counts.now (length melds.now) ≡ true }
    ensures value { result ≡ list_any (gives_yaku melds.now case.now)
        (readings_of counts.now melds.now win) }
    ensures law { IsTrue result ↔ HasYaku counts.now melds.now win case.now }
{
    let numbers = counts.numbers();
    if counts.get(win) == 0 {
        return has_yaku(counts, melds, win, case);
    }
    if is_won_with_yaku(case) {
        return true;
    }
    if are_simple(numbers, melds) {
        return true;
    }
    has_yaku(counts, melds, win, case)
}

// Whether the way in which a hand was won is a yaku, however its tiles are read.
fn is_won_with_yaku(case: &Case) -> bool
    ensures { result ≡ won_with_yaku case.now }
{
    has_reach(case)
        || has_double_reach(case)
        || has_menzen_tsumo(case)
        || has_haitei(case)
        || has_houtei(case)
        || has_rinshan(case)
        || has_chankan(case)
}

// Whether concealed tiles with these numbers by kind and the tiles of the melds are all twos to eights.
fn are_simple(numbers: &[u8], melds: &[Meld]) -> bool
    requires { length numbers.now ≡ 34 }
    ensures { result ≡ true → AreSimple numbers.now melds.now }
{
    if has_outside(numbers) {
        return false;
    }
    are_simple_melds(melds)
}

// Whether the tiles of the melds are all twos to eights.
fn are_simple_melds(melds: &[Meld]) -> bool
    ensures { result ≡ list_all
        (λ meld. list_all (in_class classes.Simple) (tiles_of_set (set_of_meld meld))) melds.now }
{
    melds.iter().all(|meld| is_simple_meld(meld))
}

// Whether a terminal or an honour is among tiles with these numbers by kind.
fn has_outside(numbers: &[u8]) -> bool
    requires { length numbers.now ≡ 34 }
    ensures { result ≡ false → HasNoOutside numbers.now }
{
    for suit in 0..3 {
        if has_end(numbers, suit) {
            return true;
        }
    }
    for honour in 0..7 {
        if numbers[27 + honour] > 0 {
            return true;
        }
    }
    false
}

// Whether a one or a nine of a suit, 0 to 2, is among them.
fn has_end(numbers: &[u8], suit: usize) -> bool
    requires size { length numbers.now ≡ 34 }
    requires suit { suit < 3 }
    ensures { result ≡ (nat_lt 0 (slice_index numbers.now (9 * suit))
        || nat_lt 0 (slice_index numbers.now (9 * suit + 8))) }
{
    numbers[9 * suit] > 0 || numbers[9 * suit + 8] > 0
}

// Whether the tiles of a meld are all twos to eights.
fn is_simple_meld(meld: &Meld) -> bool
    ensures { result ≡ list_all (in_class classes.Simple) (tiles_of_set (set_of_meld meld.now)) }
{
    let low = meld.a.kind().number();
    match meld.form {
        Form::Chi => {
            is_in(Class::Simple, low)
                && is_in(Class::Simple, low + 1)
                && is_in(Class::Simple, low + 2)
        }
        Form::Pon | Form::OpenKan | Form::ClosedKan | Form::AddedKan => is_in(Class::Simple, low),
    }
}

// Whether the reading has a yaku.
fn is_worth_something(reading: &Reading, melds: &[Meld], case: &Case) -> bool
    requires { case.now.closed ≡ are_concealed melds.now }
    ensures { result ≡ gives_yaku melds.now case.now reading.now }
{
    !yaku(reading, melds, case).is_empty()
}
