//! The melds of a hand as a page names them.

ghost use Rattle.std.specs.Prelude.{◌≡◌, ◌≤◌, ◌*◌, ◌==◌, count_by, length};
ghost use Rattle.std.specs.List.{list_all};
ghost use Rattle.mj_readings.specs.Sets.{begins_run, tiles_of_form};
ghost use Rattle.mj_page.specs.Hands.{form_of, is_set, melded};

use mj_readings::SetForm;
use mj_tiles::{EAST, KINDS};

/// A meld by its form, 0 for a run, 1 for a triplet and any other number for four of a kind, and its lowest kind.
#[repr(C)]
#[derive(Clone, Copy)]
pub struct Meld {
    pub form: u8,
    pub low: u8,
}

/// Each meld is a run, a triplet or a kan of the 34 kinds.
pub(crate) fn are_sets(melds: &[Meld]) -> bool
    ensures { result ≡ list_all is_set melds.now }
{
    melds.iter().all(|meld| is_set(meld))
}

// The form that a number names.
fn form_of(number: u8) -> SetForm
    ensures { result ≡ form_of number }
{
    if number == 0 {
        return SetForm::Run;
    }
    if number == 1 {
        return SetForm::Triplet;
    }
    SetForm::Kan
}

#[tactic(auto, unfolding(mj_readings::specs::Sets::begins_run))]
fn is_set(meld: &Meld) -> bool
    ensures { result ≡ is_set meld.now }
{
    match form_of(meld.form) {
        SetForm::Run => meld.low < EAST && meld.low % 9 < 7,
        _ => meld.low < KINDS as u8,
    }
}

/// How often the kind stands in the melds, of which there are at most four.
pub(crate) fn melded(melds: &[Meld], kind: u8) -> u8
    requires { length melds.now ≤ 4 }
    ensures value { result ≡ melded melds.now kind }
    ensures within { result ≤ 4 * length melds.now }
{
    let mut number = 0;
    for meld in melds {
        number += times_in(meld, kind);
    }
    number
}

// How often the kind stands in a meld.
fn times_in(meld: &Meld, kind: u8) -> u8
    ensures value { result ≡ count_by (λ tile. tile == kind) (tiles_of_form (form_of meld.now.form)
        meld.now.low) }
    ensures within { result ≤ 4 }
{
    let (low, kind) = (u16::from(meld.low), u16::from(kind));
    match form_of(meld.form) {
        SetForm::Run => u8::from(low <= kind && kind < low + 3),
        SetForm::Triplet if kind == low => 3,
        SetForm::Triplet => 0,
        SetForm::Kan if kind == low => 4,
        SetForm::Kan => 0,
    }
}
