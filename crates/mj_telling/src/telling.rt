ghost use Rattle.std.specs.Prelude.{◌≡◌, ◌≤◌, ◌++◌, ◌∷◌, [], Some, length, IfOk, OnOk, OnErr, IsTrue};
ghost use Rattle.std.specs.List.{list_all};
ghost use Rattle.mj_deeds.specs.Facts.{newest};
ghost use Rattle.mj_deeds.specs.Fits.{fits};
ghost use Rattle.mj_table.specs.Plays.{Play};
ghost use Rattle.mj_wall.specs.Places.{is_wall};
ghost use Rattle.mj_rules.specs.Outcome.{outcome, goes_on};
ghost use Rattle.mj_rules.specs.Played.{IsPlayed, AllLawful};

use mj_deeds::{Answer, Deed, Four};
use mj_machine::next;
use mj_table::Table;
use mj_wall::{Rules, Wall};
use std::alloc::{AllocError, Global};
use std::marker::Model;

/// The table of a game in play, with what is told of its deeds as they come. Contracts see its rules and its deeds.
pub trait Telling: Drop + Send {
    ghost play: { Self → Play };

    /// The table.
    fn table(&self) -> &Table
        ensures { result.now ≡ play self.now };

    /// Adds a deed, which fits, and tells it. Where memory is wanting the table stays as it was.
    fn push(&mut self, alloc: Global, deed: &Deed) -> Result<(), AllocError>
        requires { IsTrue (fits (play self.old).rules.red (play self.old).deeds deed.now) }
        ensures ok { OnOk result (play self.new ≡ record {
          rules = (play self.old).rules;
          deeds = (play self.old).deeds ++ deed.now ∷ [];
        }) }
        ensures err { OnErr result (play self.new ≡ play self.old) };

    /// Adds the deed that follows by four lawful answers to the newest one, and tells it. Where memory is wanting the table
    /// stays as it was.
    fn next(
        &mut self,
        alloc: Global,
        walls: &[Wall],
        answers: &Four<Answer>,
    ) -> Result<Deed, AllocError>
        requires some { 1 ≤ length walls.now }
        requires few { length walls.now ≤ 200 }
        requires whole { IsTrue (list_all (is_wall (play self.old).rules.red) walls.now) }
        requires played { IsPlayed (play self.old).rules walls.now (play self.old).deeds }
        requires on { IsTrue (goes_on (newest (play self.old).deeds)) }
        requires lawful { AllLawful (play self.old).rules (play self.old).deeds answers.now }
        ensures follows { IfOk result (λ d. Some d
            ≡ outcome (play self.old).rules walls.now (play self.old).deeds answers.now) }
        ensures pushed { IfOk result (λ d. play self.new ≡ record {
          rules = (play self.old).rules;
          deeds = (play self.old).deeds ++ d ∷ [];
        }) }
        ensures err { OnErr result (play self.new ≡ play self.old) };
}

/// A table of which nothing is told.
#[derive(Drop)]
pub struct Untold {
    table: Box<Table>,
}

impl Model for Untold {
    ghost use Rattle.mj_table.specs.Plays.{Play};

    ghost Value = { Play };

    ghost view = { λ t. t.table.value };
}

impl Untold {
    /// The table of a game without a deed.
    pub fn new(alloc: Global, rules: Rules) -> Result<Untold, AllocError>
        ensures { IfOk result (λ t. t ≡ record { rules = rules; deeds = [] }) }
    {
        Ok(Untold {
            table: new_table(alloc, rules)?,
        })
    }
}

impl Telling for Untold {
    ghost play = { λ t. t };

    fn table(&self) -> &Table {
        &self.table
    }

    fn push(&mut self, _alloc: Global, deed: &Deed) -> Result<(), AllocError> {
        self.table.push(deed)
    }

    fn next(
        &mut self,
        alloc: Global,
        walls: &[Wall],
        answers: &Four<Answer>,
    ) -> Result<Deed, AllocError> {
        next(alloc, &mut self.table, walls, answers)
    }
}

/// A table without a deed, in a box.
pub fn new_table(alloc: Global, rules: Rules) -> Result<Box<Table>, AllocError>
    ensures { IfOk result (λ table. table.value ≡ record { rules = rules; deeds = [] }) }
{
    Ok(Box::new(alloc, Table::new(rules)?)?)
}
