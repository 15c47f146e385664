ghost use Rattle.std.specs.Prelude.{◌≡◌, ℕ, ◌<◌, ◌++◌, replicate, OnOk};
ghost use Rattle.std.specs.Option.{SomeIff};
ghost use Rattle.mj_tiles.specs.Faces.{after_kind};
ghost use Rattle.mj_tiles.specs.Terminals.{is_terminal_or_honour};

use crate::numbers::EAST;
use std::alloc::AllocError;
use std::marker::Model;

/// One of the 34 kinds of tile: 0 to 8 are `1m` to `9m`, 9 to 17 `1p` to `9p`, 18 to 26 `1s` to `9s`, then the winds
/// `E`, `S`, `W`, `N` and the dragons `P`, `F`, `C`.
#[derive(Clone, Copy, Debug, PartialEq, Eq)]
pub struct Kind {
    pub(crate) number: u8,
}

impl Model for Kind {
    ghost Value = { ℕ };

    ghost view = { λ k. k.number };

    ghost invariant = { λ k. k.number < 34 };

    ghost inverse = { λ n. record { number = n } };
}

impl Kind {
    /// The kind of that number; none exactly above 33.
    pub fn of(number: u8) -> Option<Kind>
        ensures { SomeIff result (number < 34) number }
    {
        if number < 34 {
            return Some(Kind { number });
        }
        None
    }

    /// The kind of that number. Condition: it is below 34.
    pub fn at(number: u8) -> Kind
        requires { number < 34 }
        ensures { result ≡ number }
    {
        Kind { number }
    }

    /// The number of the kind, 0 to 33.
    pub fn number(self) -> u8
        ensures value { result ≡ self }
        ensures within { result < 34 }
    {
        self.number
    }

    /// Whether the kind is a terminal, a one or a nine, or an honour, a wind or a dragon.
    #[tactic(auto, unfolding(crate::specs::Terminals::is_terminal_or_honour))]
    pub fn is_terminal_or_honour(self) -> bool
        ensures { result ≡ is_terminal_or_honour self }
    {
        self.number >= EAST || self.number % 9 == 0 || self.number % 9 == 8
    }
}

/// The kind that a dora indicator of this kind makes the dora: the next number within a suit, the next wind or the
/// next dragon, and from the last of them the first.
pub fn after(kind: Kind) -> Kind
    ensures { result ≡ after_kind kind }
{
    let number = match kind.number {
        8 | 17 | 26 => kind.number - 8,
        30 => 27,
        33 => 31,
        other => other + 1,
    };
    Kind { number }
}

/// Adds a kind so often after a list of kinds. `Err` is running out of memory.
pub fn push_times(kinds: &mut Vec<Kind>, kind: Kind, times: u8) -> Result<(), AllocError>
    ensures { OnOk result (kinds.new.items ≡ kinds.old.items ++ replicate times kind) }
{
    for _time in 0..times {
        kinds.push(kind)?;
    }
    Ok(())
}
