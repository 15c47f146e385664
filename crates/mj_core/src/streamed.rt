ghost use Rattle.std.specs.Prelude.{◌≡◌, ◌<◌, [], IfOk, OnOk, OnErr, option_copied, slice_get};
ghost use Rattle.mj_history.specs.After.{lines_for};
ghost use Rattle.mj_deeds.specs.Facts.{newest};
ghost use Rattle.mj_streams.specs.Streams.{with_deed};
ghost use Rattle.mj_core.specs.Inner.Streamed.{CanCatchUp, possible_of_all};

use mj_deeds::{Answer, Answers, Deed, Four};
use mj_streams::Streams;
use mj_table::Table;
use mj_umpire::{Telling, new_table, next, possible_over};
use mj_wall::{Rules, Wall};
use std::alloc::{AllocError, Global};
use std::marker::Model;
use std::mem;

/// A table with the lines that its four seats are told of its deeds.
//
// A second table stands by: a deed is added to it, made the same as the first, and they change places once the deed is told, since
// that may want memory. So it then lacks the newest deed alone, and becomes the same by that one.
#[derive(Drop)]
pub struct Streamed {
    table: Box<Table>,
    spare: Box<Table>,
    // the spare table lacks the newest deed alone; else it may have any deeds
    is_behind: bool,
    streams: Streams,
    // the answers that each seat may give to the deed that was told last, kept for their memory alone
    lists: Four<Answers>,
}

impl Model for Streamed {
    ghost use Rattle.mj_table.specs.Plays.{Play};
    ghost use Rattle.mj_core.specs.Inner.Streamed.{IsTold};

    ghost Value = { Play };

    ghost view = { λ t. t.table.value };

    ghost invariant = { λ t. IsTold t.table.value t.streams t.is_behind t.spare.value };
}

impl Streamed {
    /// The table of a game without a deed.
    pub fn new(alloc: Global, rules: Rules) -> Result<Streamed, AllocError>
        ensures { IfOk result (λ t. t ≡ record { rules = rules; deeds = [] }) }
    {
        Ok(Streamed {
            table: new_table(alloc, rules)?,
            spare: new_table(alloc, rules)?,
            is_behind: false,
            streams: Streams::new(alloc)?,
            lists: passes(),
        })
    }

    /// Line k of a seat, 0 to 3; None exactly where there is no deed k yet.
    pub fn line(&self, seat: u8, k: u32) -> Option<&[u8]>
        requires { seat < 4 }
        ensures { option_copied result ≡ slice_get (lines_for self.now.rules seat self.now.deeds) k }
    {
        self.streams.line(seat, k)
    }
}

impl Telling for Streamed {
    ghost play = { λ t. t };

    fn table(&self) -> &Table {
        &self.table
    }

    fn push(&mut self, alloc: Global, deed: &Deed) -> Result<(), AllocError> {
        self.is_behind = false;
        self.table.copy_over(&mut self.spare)?;
        self.spare.push(deed)?;
        tell(alloc, &self.spare, deed, &mut self.lists, &mut self.streams)?;
        mem::swap(&mut self.table, &mut self.spare);
        self.is_behind = true;
        Ok(())
    }

    fn next(
        &mut self,
        alloc: Global,
        walls: &[Wall],
        answers: &Four<Answer>,
    ) -> Result<Deed, AllocError> {
        let is_behind = self.is_behind;
        self.is_behind = false;
        catch_up(&self.table, &mut self.spare, is_behind)?;
        let next = next(alloc, &mut self.spare, walls, answers)?;
        let deed = told(alloc, &self.spare, next, &mut self.lists, &mut self.streams)?;
        mem::swap(&mut self.table, &mut self.spare);
        self.is_behind = true;
        Ok(deed)
    }
}

// The list of a pass alone, four times.
fn passes() -> Four<Answers> {
    Four {
        first: Answers::pass_alone(),
        second: Answers::pass_alone(),
        third: Answers::pass_alone(),
        fourth: Answers::pass_alone(),
    }
}

// Makes the spare table the same as the first: where it lacks the newest deed alone, that is added to it.
fn catch_up(table: &Table, spare: &mut Table, is_behind: bool) -> Result<(), AllocError>
    requires { CanCatchUp is_behind spare.old table.now (newest table.now.deeds) }
    ensures { OnOk result (spare.new ≡ table.now) }
{
    match table.newest() {
        Some(deed) if is_behind => spare.push(deed),
        _ => table.copy_over(spare),
    }
}

// Tells the four seats the newest deed of a table, as `tell` does, and gives it back.
#[inline(always)]
fn told(
    alloc: Global,
    table: &Table,
    deed: Deed,
    lists: &mut Four<Answers>,
    streams: &mut Streams,
) -> Result<Deed, AllocError>
    ensures deed { IfOk result (λ told. told ≡ deed) }
    ensures ok { OnOk result (streams.new ≡ with_deed streams.old deed
        (possible_of_all table.now.rules table.now.deeds)) }
    ensures err { OnErr result (streams.new ≡ streams.old) }
{
    tell(alloc, table, &deed, lists, streams)?;
    Ok(deed)
}

// Tells the four seats the newest deed of a table, in place of the lists of the deed before.
fn tell(
    alloc: Global,
    table: &Table,
    deed: &Deed,
    lists: &mut Four<Answers>,
    streams: &mut Streams,
) -> Result<(), AllocError>
    ensures ok { OnOk result (streams.new ≡ with_deed streams.old deed.now
        (possible_of_all table.now.rules table.now.deeds)) }
    ensures err { OnErr result (streams.new ≡ streams.old) }
{
    list_possible(alloc, table, lists)?;
    streams.push_alone(alloc, deed, lists)
}

// What each of the four seats may answer to the newest deed of a table, in place of four lists.
fn list_possible(alloc: Global, table: &Table, lists: &mut Four<Answers>) -> Result<(), AllocError>
    ensures { OnOk result (lists.new ≡ possible_of_all table.now.rules table.now.deeds) }
{
    possible_over(alloc, table, 0, &mut lists.first)?;
    possible_over(alloc, table, 1, &mut lists.second)?;
    possible_over(alloc, table, 2, &mut lists.third)?;
    possible_over(alloc, table, 3, &mut lists.fourth)?;
    Ok(())
}
