ghost use Rattle.std.specs.Prelude.{◌≡◌, IfOk};

use crate::four::Four;
use mj_ports::Name;
use std::alloc::{AllocError, Global};
use std::marker::Model;

/// The names of the four seats, in order of the seats 0 to 3, in one piece of memory.
#[derive(Drop)]
pub struct Names {
    names: Box<Four<Name>>,
}

impl Model for Names {
    ghost use Rattle.std.specs.Prelude.{ℕ, List};
    ghost use Rattle.mj_deeds.specs.declared.four.Four.{Four};

    ghost Value = { Four (List ℕ) };

    ghost view = { λ n. n.names.value };
}

impl Names {
    /// These names. `Err` is running out of memory.
    pub fn of(alloc: Global, names: Four<Name>) -> Result<Names, AllocError>
        ensures { IfOk result (λ n. n ≡ names) }
    {
        Ok(Names {
            names: Box::new(alloc, names)?,
        })
    }

    /// The names of the seats.
    pub fn four(&self) -> &Four<Name>
        ensures { result.now ≡ self.now }
    {
        self.names.as_ref()
    }

    /// A copy of the names. `Err` is running out of memory.
    pub fn copy(&self) -> Result<Names, AllocError>
        ensures { IfOk result (λ n. n ≡ self.now) }
    {
        Names::of(*Box::allocator(&self.names), *self.four())
    }
}
