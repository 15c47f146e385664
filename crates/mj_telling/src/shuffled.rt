ghost use Rattle.std.specs.Prelude.{◌≡◌, ◌≤◌, ◌<◌, ◌+◌, ◌^◌, ◌++◌, ◌∷◌, [], Some, length, min, IfOk, OnOk, OnErr, IsTrue};
ghost use Rattle.std.specs.List.{list_all};
ghost use Rattle.mj_deeds.specs.Facts.{newest};
ghost use Rattle.mj_wall.specs.Places.{is_wall};
ghost use Rattle.mj_wall.specs.Shuffle.{shuffled_from};
ghost use Rattle.mj_rules.specs.Outcome.{outcome, goes_on};
ghost use Rattle.mj_rules.specs.Played.{IsPlayed, AllLawful};
ghost use Rattle.mj_telling.specs.Inner.Firsts.{AreFirst};

use crate::telling::Telling;
use mj_deeds::{Answer, Deed, Four};
use mj_wall::{Wall, Walls};
use std::alloc::{AllocError, Global};
use std::marker::Model;

// So many walls of a seed, from wall `first` on, which are shuffled as hands begin. Contracts see all of them.
#[derive(Drop)]
pub struct Shuffled {
    seed: [u8; 32],
    first: u64,
    number: u64,
    red: bool,
    there: Vec<Wall>,
}

impl Model for Shuffled {
    ghost use Rattle.std.specs.Prelude.{ℕ, List};
    ghost use Rattle.mj_wall.specs.Shuffle.{shuffled_from};
    ghost use Rattle.mj_telling.specs.Inner.Firsts.{AreFirst};

    ghost Value = { List (List ℕ) };

    ghost view = { λ s. shuffled_from s.seed s.red s.first s.number };

    ghost invariant = { λ s. AreFirst s.seed s.red s.first s.number s.there.items };
}

impl Shuffled {
    // These walls, of which none is shuffled yet.
    pub fn new(alloc: Global, seed: [u8; 32], first: u64, number: u64, red: bool) -> Shuffled
        requires { first + number < 2 ^ 64 }
        ensures value { result ≡ shuffled_from seed red first number }
        ensures many { length result ≡ number }
        ensures whole { IsTrue (list_all (is_wall red) result) }
    {
        Shuffled {
            seed,
            first,
            number,
            red,
            there: Vec::new(alloc),
        }
    }

    // All of them, shuffled anew.
    pub fn all(&self, alloc: Global) -> Result<Walls, AllocError>
        ensures { IfOk result (λ walls. walls ≡ self.now) }
    {
        Walls::shuffled_from(alloc, self.seed, self.first, self.number, self.red)
    }

    // Adds to a table the deed that follows, as its `next` does with all walls.
    pub fn next<T: Telling>(
        &mut self,
        alloc: Global,
        told: &mut T,
        answers: &Four<Answer>,
    ) -> Result<Deed, AllocError>
        requires some { 1 ≤ length self.old }
        requires few { length self.old ≤ 200 }
        requires whole { IsTrue (list_all (is_wall (T.play told.old).rules.red) self.old) }
        requires played { IsPlayed (T.play told.old).rules self.old (T.play told.old).deeds }
        requires on { IsTrue (goes_on (newest (T.play told.old).deeds)) }
        requires lawful { AllLawful (T.play told.old).rules (T.play told.old).deeds answers.now }
        ensures walls { self.new ≡ self.old }
        ensures follows { IfOk result (λ d. Some d
            ≡ outcome (T.play told.old).rules self.old (T.play told.old).deeds answers.now) }
        ensures pushed { IfOk result (λ d. T.play told.new ≡ record {
          rules = (T.play told.old).rules;
          deeds = (T.play told.old).deeds ++ d ∷ [];
        }) }
        ensures err { OnErr result (T.play told.new ≡ T.play told.old) }
    {
        let needed = needed(told.table().standing().hand, self.number);
        shuffle_more(
            &mut self.there,
            self.seed,
            self.first,
            self.number,
            self.red,
            needed,
        )?;
        told.next(alloc, self.there.as_slice(), answers)
    }
}

// So many walls are needed for the hand of this number, counted from 0, and the next one: at most all.
fn needed(hand: u32, number: u64) -> u64
    ensures { result ≡ min (hand + 2) number }
{
    (u64::from(hand) + 2).min(number)
}

// Shuffles walls until so many are there. Where memory is wanting, those before stay.
fn shuffle_more(
    there: &mut Vec<Wall>,
    seed: [u8; 32],
    first: u64,
    number: u64,
    red: bool,
    needed: u64,
) -> Result<(), AllocError>
    requires first { AreFirst seed red first number there.old.items }
    requires needed { needed ≤ number }
    ensures first { AreFirst seed red first number there.new.items }
    ensures enough { OnOk result (needed ≤ length there.new.items) }
{
    while (there.len() as u64) < needed {
        let n = first + there.len() as u64;
        there.push(Wall::shuffled(seed, n, red))?;
    }
    Ok(())
}
