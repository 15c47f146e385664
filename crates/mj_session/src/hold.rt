//! A turn of a table, in words of its game.

ghost use Rattle.std.specs.Prelude.{◌≡◌, ◌<◌, ℕ, false, [], Some, All, length, if◌then◌else◌};
ghost use Rattle.mj_connection.specs.Seating.{LeftAlone};
ghost use Rattle.mj_ports.specs.Entries.{author_of};
ghost use Rattle.mj_session.specs.Histories.{Enters};
ghost use Rattle.mj_session.specs.Waits.{progress_of};
ghost use Rattle.turn_lock.specs.Notes.{Follows};
ghost use Rattle.turn_lock.specs.Turns.{IsIdle, IsBusy, IsSeenIn, taken, given};

use crate::shared_game::SharedGame;
use std::sync::Wait;
use turn_lock::{Held, Pass, Turn};

/// How far a game is, as those who wait for a change see it.
#[derive(Clone, Copy, PartialEq, Eq)]
pub struct Progress {
    pub deeds: u32,
    pub window: Option<u32>,
    pub over: bool,
}

/// Takes the table in its turn. Since the pass gave it back, others entered what they entered.
pub fn take<T: SharedGame, R: Wait>(turn: &Turn<T>, rt: &R, pass: &mut Pass<T>) -> Held<T>
    requires { IsIdle T.Noted.setting turn.now pass.old }
    ensures pass { pass.new ≡ taken pass.old (T.history result) }
    ensures setting { T.Seated.setting result ≡ T.Noted.setting turn.now.opening }
    ensures legal { T.is_legal (T.Noted.setting turn.now.opening) (T.history result) }
    ensures nothing { Enters pass.old.number pass.old.seen (T.history result) [] }
    ensures others { LeftAlone (T.after (T.Noted.setting turn.now.opening)) pass.old.number
        pass.old.seen (T.history result) }
{
    let mut held = turn.take(rt, pass);
    let _entries = held.value().entries();
    held
}

/// Gives the table back, with at most one entry more, of the pass's number, and marks it where memory was wanting.
pub fn give<T: SharedGame>(turn: &Turn<T>, pass: &mut Pass<T>, mut held: Held<T>, wanting: bool)
    requires busy { IsBusy T.Noted.setting turn.now pass.old }
    requires setting { T.Seated.setting held ≡ T.Noted.setting turn.now.opening }
    requires entries { Follows author_of pass.old.number pass.old.seen (T.history held) }
    ensures { pass.new ≡ given pass.old (T.history held) (if wanting then T.dried held else held) }
{
    mark(held.value(), wanting);
    turn.give(pass, held);
}

/// Gives the table back after a look, with the entries that it had, and marks it where memory was wanting. Nobody who waits
/// for a change is woken but by the mark.
pub fn give_unchanged<T: SharedGame>(
    turn: &Turn<T>,
    pass: &mut Pass<T>,
    held: Held<T>,
    wanting: bool,
)
    requires busy { IsBusy T.Noted.setting turn.now pass.old }
    requires setting { T.Seated.setting held ≡ T.Noted.setting turn.now.opening }
    requires entries { T.history held ≡ pass.old.seen }
    ensures { pass.new ≡ given pass.old (T.history held) (if wanting then T.dried held else held) }
{
    if wanting {
        give(turn, pass, held, true);
        return;
    }
    turn.give_unchanged(pass, held);
}

/// How far the game is now.
pub fn progress_of<T: SharedGame>(table: &T) -> Progress
    ensures { result ≡ progress_of (T.after (T.Seated.setting table.now) (T.history table.now)) }
{
    Progress {
        deeds: table.deeds(),
        window: table.open(),
        over: table.over(),
    }
}

/// Gives the table back as `give` does. Nobody who waits for a change is woken where nothing was changed that any of them
/// waits for, and memory wasn't wanting.
pub fn give_back<T: SharedGame>(
    turn: &Turn<T>,
    pass: &mut Pass<T>,
    held: Held<T>,
    wanting: bool,
    changed: bool,
)
    requires busy { IsBusy T.Noted.setting turn.now pass.old }
    requires setting { T.Seated.setting held ≡ T.Noted.setting turn.now.opening }
    requires entries { Follows author_of pass.old.number pass.old.seen (T.history held) }
    requires same { changed ≡ false
        → progress_of (T.after (T.Noted.setting turn.now.opening) (T.history held))
        ≡ progress_of (T.after (T.Noted.setting turn.now.opening) pass.old.seen) }
    ensures { pass.new ≡ given pass.old (T.history held) (if wanting then T.dried held else held) }
{
    if changed || wanting {
        give(turn, pass, held, wanting);
    } else {
        turn.give_quietly(pass, held);
    }
}

/// Ends the turn of a table, with all of its passes.
pub fn close<T: SharedGame>(turn: Turn<T>, passes: Vec<Pass<T>>) -> T
    requires all { length passes.items ≡ turn.passes }
    requires idle { All (IsIdle T.Noted.setting turn) passes.items }
    ensures setting { T.Seated.setting result ≡ T.Noted.setting turn.opening }
    ensures legal { T.is_legal (T.Noted.setting turn.opening) (T.history result) }
    ensures seen { All (IsSeenIn author_of (T.history result)) passes.items }
    ensures below { All (λ e. author_of e < turn.passes) (T.history result) }
{
    let table = turn.close(passes);
    let _entries = table.entries();
    table
}

fn mark<T: SharedGame>(table: &mut T, wanting: bool)
    ensures value { table.new ≡ (if wanting then T.dried table.old else table.old) }
    ensures setting { T.Seated.setting table.new ≡ T.Seated.setting table.old }
    ensures entries { T.history table.new ≡ T.history table.old }
    ensures lost { (k : ℕ) → T.lost table.new k ≡ T.lost table.old k }
{
    if wanting {
        table.run_dry();
    }
}
