ghost use Rattle.std.specs.Prelude.{◌≡◌, ◌≤◌, ◌<◌, ◌+◌, ◌^◌, ◌++◌, ◌∷◌, [], Some, length, IfOk, OnOk, OnErr, IsTrue};
ghost use Rattle.std.specs.List.{list_all};
ghost use Rattle.mj_bytes.specs.Adds.{Adds};
ghost use Rattle.mj_deeds.specs.Facts.{newest};
ghost use Rattle.mj_wall.specs.Places.{is_wall};
ghost use Rattle.mj_wall.specs.Shuffle.{shuffled_from};
ghost use Rattle.mj_forms.specs.RecordTexts.{record_text};
ghost use Rattle.mj_rules.specs.Outcome.{outcome, goes_on};
ghost use Rattle.mj_rules.specs.Played.{IsPlayed, AllLawful};

use crate::shuffled::Shuffled;
use crate::telling::Telling;
use mj_deeds::{Answer, Deed, Four};
use mj_wall::{Rules, Walls};
use mjai_lines::{Steps, write_record};
use std::alloc::{AllocError, Global};
use std::marker::Model;
use std::sync::ledger::Ledger;

/// What one game is played with. Contracts see its rules and all of its walls, which may be shuffled as hands begin.
#[derive(Drop)]
pub struct Supply {
    source: Source,
    rules: Rules,
}

// Where the walls come from: they are given, or a seed gives them.
#[derive(Drop)]
enum Source {
    Given(Walls),
    Seeded(Shuffled),
}

impl Model for Supply {
    ghost use Rattle.mj_wall.specs.declared.setting.Setting.{Setting};

    ghost Value = { Setting };

    ghost use Rattle.mj_telling.specs.Inner.Supplies.{all_walls};

    ghost view = { λ s. record { walls = all_walls s.source; rules = s.rules } };
}

impl Supply {
    /// These walls and rules.
    pub fn given(walls: Walls, rules: Rules) -> Supply
        ensures { result ≡ record { walls = walls; rules = rules } }
    {
        Supply {
            source: Source::Given(walls),
            rules,
        }
    }

    /// The walls of a seed of 32 bytes from wall `first` on, so many of them, and these rules. Each wall is shuffled as the hand before
    /// it begins. `first` and `number` together are below 2^64.
    pub fn seeded(alloc: Global, seed: [u8; 32], first: u64, number: u64, rules: Rules) -> Supply
        requires { first + number < 2 ^ 64 }
        ensures value { result
            ≡ record { walls = shuffled_from seed rules.red first number; rules = rules } }
        ensures many { length result.walls ≡ number }
        ensures whole { IsTrue (list_all (is_wall rules.red) result.walls) }
    {
        Supply {
            source: Source::Seeded(Shuffled::new(alloc, seed, first, number, rules.red)),
            rules,
        }
    }

    /// The rules.
    pub fn rules(&self) -> Rules
        ensures { result ≡ self.now.rules }
    {
        self.rules
    }

    /// Adds to a table the deed that follows, as its `next` does with all walls. Where memory is wanting the table stays as it was.
    pub fn next<T: Telling>(
        &mut self,
        alloc: Global,
        told: &mut T,
        answers: &Four<Answer>,
    ) -> Result<Deed, AllocError>
        requires some { 1 ≤ length self.old.walls }
        requires few { length self.old.walls ≤ 200 }
        requires whole { IsTrue (list_all (is_wall (T.play told.old).rules.red) self.old.walls) }
        requires played { IsPlayed (T.play told.old).rules self.old.walls
            (T.play told.old).deeds }
        requires on { IsTrue (goes_on (newest (T.play told.old).deeds)) }
        requires lawful { AllLawful (T.play told.old).rules (T.play told.old).deeds answers.now }
        ensures setting { self.new ≡ self.old }
        ensures follows { IfOk result (λ d. Some d
            ≡ outcome (T.play told.old).rules self.old.walls (T.play told.old).deeds
            answers.now) }
        ensures pushed { IfOk result (λ d. T.play told.new ≡ record {
          rules = (T.play told.old).rules;
          deeds = (T.play told.old).deeds ++ d ∷ [];
        }) }
        ensures err { OnErr result (T.play told.new ≡ T.play told.old) }
    {
        match &mut self.source {
            Source::Given(walls) => told.next(alloc, walls.as_slice(), answers),
            Source::Seeded(walls) => walls.next(alloc, told, answers),
        }
    }

    /// Writes the record of a game of these deeds after a text, as `write_record` does with all walls. Where memory is wanting the
    /// text stays as it was.
    pub fn write_record<L: Ledger>(
        &self,
        alloc: Global,
        deeds: &[Deed],
        into: &mut Vec<u8>,
        steps: &mut Steps<L>,
    ) -> Result<(), AllocError>
        ensures ok { OnOk result (Adds into.old.items into.new.items
            (record_text self.now.rules self.now.walls deeds.now)) }
        ensures err { OnErr result (into.new.items ≡ into.old.items) }
    {
        match &self.source {
            Source::Given(walls) => {
                write_record(alloc, self.rules, walls.as_slice(), deeds, into, steps)
            }
            Source::Seeded(walls) => {
                let all = walls.all(alloc)?;
                write_record(alloc, self.rules, all.as_slice(), deeds, into, steps)
            }
        }
    }
}
