ghost use Rattle.std.specs.Prelude.{◌≡◌, ◌==◌, ◌<◌, ◌≤◌, ℕ, List, Some, None, is_some};
ghost use Rattle.mj_rules.specs.Broken.{broken_rule};
ghost use Rattle.mj_history.specs.After.{author_after, progress_after, verdict as verdict_for};
ghost use Rattle.mj_umpire.specs.Inner.States.{progress_of, player_of};
ghost use Rattle.mj_umpire.specs.Inner.Verdicts.{verdict_given};

use crate::verdict::Verdict;
use mj_deeds::Answer;
use mj_judge::judge;
use mj_table::Table;

// How many refusals of one prompt a connection outlives.
const REFUSALS: u8 = 15;

// A seat that is held, beside what the desk keeps of it: the author by whom it is present, where it is, the number of
// the deed that its next line answers, and how many answers to that deed were refused.
#[derive(Clone, Copy, Debug, Drop)]
pub struct Chair {
    author: Option<u8>,
    due: usize,
    refused: u8,
}

impl Chair {
    // A seat that has just been taken.
    pub fn new(author: u8) -> Chair
        ensures { result ≡ record { author = Some author; due = 0; refused = 0 } }
    {
        Chair {
            author: Some(author),
            due: 0,
            refused: 0,
        }
    }

    // The author by whom the seat is present.
    pub fn author(&self) -> Option<u8>
        ensures { result ≡ self.now.author }
    {
        self.author
    }

    // Whether the seat is present.
    pub fn is_present(&self) -> bool
        ensures { result ≡ is_some self.now.author }
    {
        self.author.is_some()
    }

    // The number of the deed that the seat answers next.
    pub fn due(&self) -> usize
        ensures { result ≡ self.now.due }
    {
        self.due
    }

    // Whether no answer to that deed was refused.
    pub fn is_fresh(&self) -> bool
        ensures { result ≡ (self.now.refused == 0) }
    {
        self.refused == 0
    }

    // The verdict on an answer of this seat, where there are so many deeds.
    pub fn verdict(&self, table: &Table, deeds: usize, seat: u8, answer: &Answer) -> Verdict
        requires seat { seat ≤ 3 }
        requires due { self.now.due < deeds }
        ensures { verdict_given result ≡ verdict_for self.now.due self.now.refused deeds
            (broken_rule table.now.rules table.now.deeds seat answer.now) }
    {
        if self.due + 1 < deeds {
            return Verdict::Late;
        }
        match judge(table, seat, answer) {
            Ok(()) => Verdict::Taken,
            Err(rule) => {
                if self.refused < REFUSALS {
                    Verdict::Refused(rule)
                } else {
                    Verdict::Closing(rule)
                }
            }
        }
    }

    // How far the seat has come with this verdict on its answer, whatever the lines of the deeds are.
    pub fn go_on(&mut self, verdict: &Verdict)
        requires due { self.old.due < usize.MAX }
        requires refused { self.old.refused ≤ 15 }
        ensures { (lines : List (List ℕ)) → self.new
            ≡ player_of (author_after (verdict_given verdict.now) self.old.author)
            (progress_after lines (verdict_given verdict.now) (progress_of self.old)) }
    {
        match verdict {
            Verdict::Refused(_) => {
                self.refused += 1;
                return;
            }
            Verdict::Closing(_) => {
                self.refused += 1;
                self.author = None;
                return;
            }
            _ => {}
        }
        self.due += 1;
        self.refused = 0;
    }

    // The seat leaves.
    pub fn leave(&mut self)
        ensures { self.new
            ≡ record { author = None; due = self.old.due; refused = self.old.refused } }
    {
        self.author = None;
    }

    // The seat is taken back by an author, with this due deed.
    pub fn come_back(&mut self, author: u8, due: usize)
        ensures { self.new ≡ record { author = Some author; due = due; refused = 0 } }
    {
        self.author = Some(author);
        self.due = due;
        self.refused = 0;
    }
}
