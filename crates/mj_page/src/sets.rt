//! Sets of kinds as bits.

ghost use Rattle.std.specs.Prelude.{◌≡◌, ◌<◌, ◌^◌, ℕ, true};
ghost use Rattle.mj_tiles.specs.Kinds.{has_kind, with_kind};

use mj_tiles::{KINDS, Kind, Kinds};

/// The set of all kinds.
pub(crate) fn every_kind() -> Kinds
    ensures { (kind : ℕ) → kind < 34 → has_kind result kind ≡ true }
{
    let mut kinds = Kinds::none();
    for number in 0..KINDS as u8 {
        kinds = kinds.with(Kind::at(number));
    }
    kinds
}

/// The kinds whose bits are one.
pub(crate) fn kinds_of(bits: u64) -> Kinds
    ensures { (kind : ℕ) → kind < 34 → has_kind result kind ≡ has_kind bits kind }
{
    let mut kinds = Kinds::none();
    for number in 0..KINDS as u8 {
        if has_bit(bits, number) {
            kinds = kinds.with(Kind::at(number));
        }
    }
    kinds
}

/// The set as bits: bit k for kind k.
pub(crate) fn bits_of(kinds: Kinds) -> u64
    ensures bits { (kind : ℕ) → kind < 34 → has_kind result kind ≡ has_kind kinds kind }
    ensures within { result < 2 ^ 34 }
{
    let mut bits = 0;
    for number in 0..KINDS as u8 {
        if kinds.has(Kind::at(number)) {
            bits = with_bit(bits, number);
        }
    }
    bits
}

#[tactic(auto, unfolding(mj_tiles::specs::Kinds::has_kind))]
fn has_bit(bits: u64, number: u8) -> bool
    requires { number < 34 }
    ensures { result ≡ has_kind bits number }
{
    bits >> number & 1 == 1
}

#[tactic(auto, unfolding(mj_tiles::specs::Kinds::with_kind))]
fn with_bit(bits: u64, number: u8) -> u64
    requires { number < 34 }
    ensures { result ≡ with_kind bits number }
{
    bits | 1 << number
}
