ghost use Rattle.std.specs.Prelude.{◌≡◌, ◌≤◌, [], IfOk, IfSome, OnOk};
ghost use Rattle.mj_rules.specs.Possible.{possible};
ghost use Rattle.mj_stepped.specs.Lists.{IsListed, AllListed};

use mj_core::Telling;
use mj_deeds::{Answer, Answers, Deed, Four};
use mj_judge::{may_pass, possible_over};
use mj_machine::next;
use mj_table::Table;
use mj_wall::{Rules, Wall};
use std::alloc::{AllocError, Global};
use std::marker::Model;

/// A table with the answers that each seat which may pass may give to its newest deed.
#[derive(Drop)]
pub struct Listed {
    table: Box<Table>,
    lists: Four<Answers>,
    // the lists of those seats are those of the newest deed; else memory was wanting for them, and they may be any
    is_listed: bool,
}

impl Model for Listed {
    ghost use Rattle.mj_table.specs.Plays.{Play};
    ghost use Rattle.mj_stepped.specs.Lists.{AreListed};

    ghost Value = { Play };

    ghost view = { λ t. t.table.value };

    ghost invariant = { λ t. AreListed t.is_listed t.table.value t.lists };
}

impl Listed {
    /// The table of a game without a deed.
    pub fn new(alloc: Global, rules: Rules) -> Result<Listed, AllocError>
        ensures { IfOk result (λ t. t ≡ record { rules = rules; deeds = [] }) }
    {
        let table = Box::new(alloc, Table::new(rules)?)?;
        Ok(Listed {
            table,
            lists: passes(),
            is_listed: false,
        })
    }

    /// The answers that a seat, 0 to 3, may give to the newest deed, as `possible` lists them; None of a seat that has to discard,
    /// before the first deed, and where memory was wanting for the lists of the newest one.
    pub fn list(&self, seat: u8) -> Option<&[Answer]>
        requires { seat ≤ 3 }
        ensures { IfSome result (λ list. list.now ≡ possible self.now.rules self.now.deeds seat) }
    {
        if !self.is_listed || !may_pass(&self.table, seat) {
            return None;
        }
        Some(self.lists.at(seat).as_slice())
    }
}

impl Telling for Listed {
    ghost play = { λ t. t };

    fn table(&self) -> &Table {
        &self.table
    }

    fn push(&mut self, alloc: Global, deed: &Deed) -> Result<(), AllocError> {
        self.is_listed = false;
        self.table.push(deed)?;
        self.is_listed = list_possible(alloc, &self.table, &mut self.lists).is_ok();
        Ok(())
    }

    fn next(
        &mut self,
        alloc: Global,
        walls: &[Wall],
        answers: &Four<Answer>,
    ) -> Result<Deed, AllocError> {
        self.is_listed = false;
        let deed = next(alloc, &mut self.table, walls, answers)?;
        self.is_listed = list_possible(alloc, &self.table, &mut self.lists).is_ok();
        Ok(deed)
    }
}

// The list of a pass alone, four times.
fn passes() -> Four<Answers> {
    Four {
        first: Answers::pass_alone(),
        second: Answers::pass_alone(),
        third: Answers::pass_alone(),
        fourth: Answers::pass_alone(),
    }
}

// What each of the four seats which may pass may answer to the newest deed of a table, in place of its list.
fn list_possible(alloc: Global, table: &Table, lists: &mut Four<Answers>) -> Result<(), AllocError>
    ensures { OnOk result (AllListed table.now lists.new) }
{
    list_one(alloc, table, 0, &mut lists.first)?;
    list_one(alloc, table, 1, &mut lists.second)?;
    list_one(alloc, table, 2, &mut lists.third)?;
    list_one(alloc, table, 3, &mut lists.fourth)?;
    Ok(())
}

// What a seat, 0 to 3, may answer, where it may pass.
fn list_one(alloc: Global, table: &Table, seat: u8, list: &mut Answers) -> Result<(), AllocError>
    requires { seat ≤ 3 }
    ensures { OnOk result (IsListed table.now seat list.new) }
{
    if may_pass(table, seat) {
        possible_over(alloc, table, seat, list)?;
    }
    Ok(())
}
