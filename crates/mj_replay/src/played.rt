//! The deeds of a record, read.

ghost use Rattle.std.specs.Prelude.{◌≡◌, ◌≤◌, length, slice_get, option_copied};
ghost use Rattle.mj_replay.specs.Checks.{TellsPlayed};

use crate::checking::{Checked, walk};
use mj_deeds::Deed;
use mj_runs::Cause;
use std::alloc::Global;
use std::marker::Model;

/// The deeds of a record, in order.
#[derive(Drop)]
pub struct Deeds {
    list: Vec<Deed>,
}

impl Model for Deeds {
    ghost use Rattle.std.specs.Prelude.{List, length, ◌≤◌};
    ghost use Rattle.mj_deeds.specs.declared.deed.Deed.{Deed};

    ghost Value = { List Deed };

    ghost view = { λ d. d.list.items };

    // A number of 32 bits counts them.
    ghost invariant = { λ d. length d.list.items ≤ 4294967295 };
}

impl Deeds {
    // These deeds.
    fn of(list: Vec<Deed>) -> Deeds
        requires { length list.items ≤ 4294967295 }
        ensures { result ≡ list.items }
    {
        Deeds { list }
    }

    /// Deed k, counted from 0; None where there are at most k deeds.
    pub fn get(&self, k: u32) -> Option<&Deed>
        ensures { option_copied result ≡ slice_get self.now k }
    {
        self.list.get(k as usize)
    }
}

/// What a text is as a record of deeds.
#[derive(Drop)]
pub enum Played {
    /// It is the record of a game with these deeds.
    Good(Deeds),
    /// It is none, and this line, counted from 1, is the first that breaks its form.
    Bad(u32, Cause),
    /// Memory was wanting.
    NoMemory,
}

/// The deeds of the game of which a text is the record. It answers as `check` does, with the deeds in place of what they come to.
#[tactic(auto, using(crate::proofs::CheckLaws::told_played, crate::proofs::CheckLaws::kept_few))]
pub fn read_played(alloc: Global, text: &[u8]) -> Played
    ensures { TellsPlayed text.now result }
{
    let mut deeds = Vec::new(alloc);
    match walk(alloc, text, true, &mut deeds) {
        Ok(Checked::Good(_)) => Played::Good(Deeds::of(deeds)),
        Ok(Checked::Bad(line, cause)) => Played::Bad(line, cause),
        Ok(Checked::NoMemory) => Played::NoMemory,
        Err(_) => Played::NoMemory,
    }
}
