//! Many games over one host.

ghost use Rattle.std.specs.Prelude.{◌≡◌, ◌==◌, ◌≤◌, ◌<◌, ◌++◌, ℕ, [], All, IfOk, OnOk, List, length, slice_get, Some, true, if◌then◌else◌};
ghost use Rattle.mj_handlers.specs.Handlers.{rows, link_state};
ghost use Rattle.mj_seats.specs.Tables.{IsOver, IsPlayedIn, AllEndWith, handlers_of};
ghost use Rattle.mj_handlers.specs.Picks.{IsBelow, at_table};
ghost use Rattle.mj_tables.specs.Tables.{sessions_at};

use crate::closed::{ClosedTables, TableSession};
use mj_links::{Clock, Host};
use mj_ports::{Picker, Seated};
use mj_seats::{Session, play_tables};
use std::alloc::{AllocError, Global};
use std::sync::Wait;
use std::thread::Threads;

/// What is left of the games that were played with this host.
pub type Tables<G, H> = ClosedTables<G, <H as Host>::Link, <H as Host>::Fault>;

/// Plays 1 to 8 games without entries, each at a table of its own, to their ends, or until the host has failed each handler.
/// There are two handlers more than four a table, numbered from 0: each takes links and serves them at the tables that their
/// first lines are for, as the picker says. The ticker, which has the number after theirs, closes windows whose time has run
/// out. Conditions: no game has an entry yet, and for each line the picker names one of their tables, or none. `Err` where
/// memory was wanting of a worker.
pub fn run_tables<G: Seated, H: Host, C: Clock, P: Picker, R: Threads + Wait + Sync>(
    rt: &R,
    alloc: Global,
    games: Vec<G>,
    picker: &P,
    host: &H,
    clock: &mut C,
) -> Result<Tables<G, H>, AllocError>
    requires some { 1 ≤ length games.items }
    requires few { length games.items ≤ 8 }
    requires new { All (λ g. G.history g ≡ []) games.items }
    requires picks { (line : List ℕ) → IsBelow (length games.items) (P.picks picker.now line) }
    ensures tables { IfOk result (λ c. length c.games.items ≡ length games.items) }
    ensures setting { IfOk result (λ c. (t : ℕ) (was game : G) → slice_get games.items t ≡ Some was
        → slice_get c.games.items t ≡ Some game → G.setting game ≡ G.setting was) }
    ensures legal { IfOk result (λ c. All (λ g. G.is_legal (G.setting g) (G.history g))
        c.games.items) }
    ensures played { IfOk result (λ c. (t : ℕ) (game : G) → slice_get c.games.items t ≡ Some game
        → IsPlayedIn (at_table G.Seated (P.picks picker.now) t) (G.setting game) (link_state H.Link.Link)
        (handlers_of (length games.items)) [] (G.history game) (sessions_at t c.sessions.items)
        (C.readings clock.old) (C.readings clock.new)) }
    ensures rooms { IfOk result (λ c. All (λ s. s.table < length games.items) c.sessions.items) }
    ensures ends { IfOk result (λ c. AllEndWith (All (IsOver G.Seated) c.games.items)
        (H.made_by host.now) H.Fault.number (handlers_of (length games.items)) c.ends.items) }
{
    let handlers = 4 * games.len() as u8 + 2;
    let mut games = games;
    let played = play_tables(rt, alloc, &mut games, handlers, picker, host, clock)?;
    Ok(ClosedTables {
        games,
        sessions: by_table(alloc, played.sessions)?,
        ends: played.ends,
    })
}

// The sessions of at most eight tables, those of one table after those of the one before it, each with the number of its
// table.
fn by_table<L: Drop>(
    alloc: Global,
    mut tables: Vec<Vec<Session<L>>>,
) -> Result<Vec<TableSession<L>>, AllocError>
    requires { length tables.items ≤ 8 }
    ensures each { IfOk result (λ all. (t : ℕ) (ss : List (Session L)) → slice_get (rows tables.items) t ≡ Some ss
        → sessions_at t all.items ≡ ss) }
    ensures rooms { IfOk result (λ all. All (λ s. s.table < length tables.items) all.items) }
{
    match tables.pop() {
        None => Ok(Vec::new(alloc)),
        Some(sessions) => {
            let table = tables.len() as u8;
            let mut all = by_table(alloc, tables)?;
            add(&mut all, table, sessions)?;
            Ok(all)
        }
    }
}

// Puts the sessions of one table after the others.
fn add<L: Drop>(
    all: &mut Vec<TableSession<L>>,
    table: u8,
    mut sessions: Vec<Session<L>>,
) -> Result<(), AllocError>
    ensures each { OnOk result ((t : ℕ) → sessions_at t all.new.items
        ≡ (if table == t then sessions_at t all.old.items ++ sessions.items else sessions_at t all.old.items)) }
    ensures rooms { OnOk result ((n : ℕ) → table < n → All (λ s. s.table < n) all.old.items
        → All (λ s. s.table < n) all.new.items) }
{
    let Some(session) = sessions.pop() else {
        return Ok(());
    };
    add(all, table, sessions)?;
    all.push(TableSession { table, session })?;
    Ok(())
}
