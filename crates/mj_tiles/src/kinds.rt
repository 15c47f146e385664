ghost use Rattle.std.specs.Prelude.{◌≡◌, ℕ, ◌<◌, ◌==◌, ◌^◌};
ghost use Rattle.mj_tiles.specs.Kinds.{has_kind, with_kind, no_kinds};

use crate::kind::Kind;
use std::marker::Model;

/// A set of kinds.
#[derive(Clone, Copy, Debug, PartialEq, Eq)]
pub struct Kinds {
    mask: u64,
}

impl Model for Kinds {
    ghost Value = { ℕ };

    ghost view = { λ k. k.mask };

    ghost invariant = { λ k. k.mask < 2 ^ 34 };

    ghost inverse = { λ n. record { mask = n } };
}

impl Kinds {
    /// The set without any kind.
    #[tactic(auto, unfolding(crate::specs::Kinds::no_kinds))]
    pub fn none() -> Kinds
        ensures { result ≡ no_kinds }
    {
        Kinds { mask: 0 }
    }

    /// This set and the kind.
    #[tactic(auto, unfolding(crate::specs::Kinds::with_kind))]
    pub fn with(self, kind: Kind) -> Kinds
        ensures { result ≡ with_kind self kind }
    {
        Kinds {
            mask: self.mask | 1 << kind.number(),
        }
    }

    /// Whether the kind is one of the set.
    #[tactic(auto, unfolding(crate::specs::Kinds::has_kind))]
    pub fn has(self, kind: Kind) -> bool
        ensures { result ≡ has_kind self kind }
    {
        self.mask >> kind.number() & 1 == 1
    }

    /// Whether the set has no kind.
    #[tactic(auto, unfolding(crate::specs::Kinds::no_kinds))]
    pub fn is_empty(self) -> bool
        ensures { result ≡ (self == no_kinds) }
    {
        self.mask == 0
    }
}
