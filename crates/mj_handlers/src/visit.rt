//! What a handler does in one turn of a table.

ghost use Rattle.std.specs.Prelude.{◌≡◌, [], true};
ghost use Rattle.mj_handlers.specs.declared.visit.Finding.TheVariants as finding;
ghost use Rattle.mj_session.specs.Histories.{Enters};
ghost use Rattle.turn_lock.specs.Turns.{IsIdle};

use mj_session::{SharedGame, hold};
use std::sync::Wait;
use turn_lock::{Noted, Pass, Turn};

/// A link whose session with a seat is over, and the place of its Sat or Back among the entries.
#[derive(Drop)]
pub struct Session<L> {
    pub link: L,
    pub place: u64,
}

/// How a handler ended.
#[derive(Drop)]
pub enum HandlerEnd<F> {
    /// The game is over, or all of many games are.
    Over,
    /// The host failed this handler.
    Host(F),
    /// Memory was wanting, of this worker or of another one before.
    NoMemory,
}

// What a handler finds at a table.
#[derive(Clone, Copy)]
pub(crate) enum Finding {
    // The game goes on.
    GoesOn,
    // The game is over.
    Over,
    // Memory was wanting of some worker.
    NoMemory,
}

// Looks at the table in its turn: whether the game is over, or memory was wanting.
pub(crate) fn ask<T: SharedGame, R: Wait>(turn: &Turn<T>, rt: &R, pass: &mut Pass<T>) -> Finding
    requires { IsIdle T.Noted.setting turn.now pass.old }
    ensures idle { IsIdle T.Noted.setting turn.now pass.new × (pass.new.number ≡ pass.old.number) }
    ensures nothing { Enters pass.old.number pass.old.seen pass.new.seen [] }
    ensures legal { T.is_legal (T.Noted.setting turn.now.opening) pass.new.seen }
    ensures over { result ≡ finding.Over
        → (T.after (T.Noted.setting turn.now.opening) pass.new.seen).over ≡ true }
{
    let mut held = hold::take(turn, rt, pass);
    let found = finding_of(held.value());
    hold::give_unchanged(turn, pass, held, false);
    found
}

fn finding_of<T: SharedGame>(table: &mut T) -> Finding
    ensures same { table.new ≡ table.old }
    ensures over { result ≡ finding.Over
        → (T.after (T.Seated.setting table.old) (T.history table.old)).over ≡ true }
{
    if table.dry() {
        return Finding::NoMemory;
    }
    if table.over() {
        return Finding::Over;
    }
    Finding::GoesOn
}

// Keeps at the table the fault by which the host failed the handler, and says whether the game is over.
pub(crate) fn lose<T: SharedGame, R: Wait>(
    turn: &Turn<T>,
    rt: &R,
    pass: &mut Pass<T>,
    fault: T::Fault,
) -> bool
    requires { IsIdle T.Noted.setting turn.now pass.old }
    ensures idle { IsIdle T.Noted.setting turn.now pass.new × (pass.new.number ≡ pass.old.number) }
    ensures nothing { Enters pass.old.number pass.old.seen pass.new.seen [] }
    ensures legal { T.is_legal (T.Noted.setting turn.now.opening) pass.new.seen }
    ensures over { result ≡ (T.after (T.Noted.setting turn.now.opening) pass.new.seen).over }
{
    let mut held = hold::take(turn, rt, pass);
    let over = mark_lost(held.value(), fault);
    hold::give(turn, pass, held, false);
    over
}

fn mark_lost<T: SharedGame>(table: &mut T, fault: T::Fault) -> bool
    ensures setting { T.Seated.setting table.new ≡ T.Seated.setting table.old }
    ensures entries { T.history table.new ≡ T.history table.old }
    ensures over { result ≡ (T.after (T.Seated.setting table.old) (T.history table.old)).over }
{
    table.lose(fault);
    table.over()
}

// Marks that memory was wanting, and enters nothing.
pub(crate) fn give_up<T: SharedGame, R: Wait>(turn: &Turn<T>, rt: &R, pass: &mut Pass<T>)
    requires { IsIdle T.Noted.setting turn.now pass.old }
    ensures idle { IsIdle T.Noted.setting turn.now pass.new × (pass.new.number ≡ pass.old.number) }
    ensures nothing { Enters pass.old.number pass.old.seen pass.new.seen [] }
    ensures legal { T.is_legal (T.Noted.setting turn.now.opening) pass.new.seen }
{
    let held = hold::take(turn, rt, pass);
    hold::give(turn, pass, held, true);
}
