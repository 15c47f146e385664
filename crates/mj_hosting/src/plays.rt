//! How the games of a host's rooms are played by whoever connects, and what there is of them is written to a sink.

ghost use Rattle.std.specs.Prelude.{◌≡◌, ℕ, [], ◌∷◌, List, Option, IfOk};
ghost use Rattle.std.specs.Io.KnownBytes.{Appends};
ghost use Rattle.mj_words.specs.Asked.{ServedWith};
ghost use Rattle.mj_words.specs.Commands.{served_with};
ghost use Rattle.mj_hosting.specs.Plans.{table_setting};
ghost use Rattle.mj_hosting.specs.Plays.{PlaysBy, outside};
ghost use Rattle.mj_hosting.specs.Statuses.{serve_status};
ghost use Rattle.mj_hosting.specs.Rooms.{AreWithin, count_of, plan_for};
ghost use Rattle.mj_hosting.specs.Steps.{AreNew};
ghost use Rattle.mj_runs.specs.Faults.{CountsWriteFaults};

use crate::giving::give_all;
use crate::rooms::Rooms;
use crate::writing::write_games;
use mj_core::Core;
use mj_links::{Clock, Given, Host, Opened, Sink};
use mj_seats::{Played, play_tables};
use mj_wall::{Rules, Walls};
use mj_words::Serving;
use std::alloc::{AllocError, Global};
use std::sync::Wait;
use std::thread::{Threads, spawn};

/// How a command over a host ends.
#[derive(Clone, Copy)]
pub enum ServeEnd {
    /// Each game is over, and the records are written.
    Over,
    /// Some game goes on and the host failed each handler. The records are written.
    HostLost,
    /// The host was not opened. Nothing is written.
    NotOpened,
    /// A write failed. A part of the records is written.
    WriteFault,
    /// Memory was wanting. Nothing is written.
    NoMemory,
}

// The walls of a served game.
const WALLS: u64 = 200;

/// Plays the games of the rooms over the host, gives the links of their connections back, and writes what there is of them.
pub(crate) fn play_games<K: Sink, H: Host, C: Clock, R: Threads + Wait + Sync>(
    rt: &R,
    alloc: Global,
    rooms: Rooms,
    serving: &Serving,
    sink: &mut K,
    host: &mut H,
    clock: &mut C,
) -> ServeEnd
    requires { AreWithin rooms }
    ensures plays { PlaysBy H.Link.was_read H.Link.left H.Link.written H.Link.read_faults
        H.Link.write_faults (H.made_by host.new) H.Fault.number result
        (plan_for rooms (served_with serving.now))
        (outside (H.ports host.old) (H.open_faults host.old) (H.returned host.old) (C.readings clock.old) (K.written sink.old))
        (outside (H.ports host.new) (H.open_faults host.new) (H.returned host.new) (C.readings clock.new) (K.written sink.new)) }
    ensures writes { CountsWriteFaults (serve_status result) (K.write_faults sink.old)
        (K.write_faults sink.new) }
{
    if !has_thread(rt) {
        return ServeEnd::NoMemory;
    }
    let Ok(games) = new_games(alloc, rooms, serving) else {
        return ServeEnd::NoMemory;
    };
    match host.open(serving.port) {
        Opened::Ready => play(rt, alloc, games, rooms, sink, host, clock),
        Opened::Failed(_) => ServeEnd::NotOpened,
    }
}

/// Whether the system gives a thread. Without one the workers would come one after another, and no game would begin.
pub fn has_thread<R: Threads>(rt: &R) -> bool {
    match spawn(rt, || {}) {
        Ok(handle) => {
            handle.join(rt);
            true
        }
        Err(_) => false,
    }
}

/// The games of all rooms before their first entries.
pub fn new_games(alloc: Global, rooms: Rooms, serving: &Serving) -> Result<Vec<Core>, AllocError>
    ensures { IfOk result (λ games. AreNew (served_with serving.now) (count_of rooms) games.items) }
{
    let mut games = Vec::new(alloc);
    for table in 0..rooms.count() {
        let game = new_game(alloc, serving, table)?;
        games.push(game)?;
    }
    Ok(games)
}

// The game of a table before its first entry.
fn new_game(alloc: Global, serving: &Serving, table: u8) -> Result<Core, AllocError>
    ensures { IfOk result (λ core. core
        ≡ record { setting = table_setting (served_with serving.now) table; entries = [] }) }
{
    let rules = Rules {
        limit: serving.limit,
        draws: serving.draws,
        red: serving.red,
    };
    let first = WALLS * u64::from(table);
    let walls = Walls::shuffled_from(alloc, serving.seed, first, WALLS, serving.red)?;
    Core::with_walls(alloc, walls, rules)
}

// Plays the games to their ends over an open host, and gives back and writes what there is of them.
fn play<K: Sink, H: Host, C: Clock, R: Threads + Wait + Sync>(
    rt: &R,
    alloc: Global,
    mut games: Vec<Core>,
    rooms: Rooms,
    sink: &mut K,
    host: &mut H,
    clock: &mut C,
) -> ServeEnd
    requires within { AreWithin rooms }
    requires new { (s : ServedWith) × AreNew s (count_of rooms) games.items }
    ensures plays { (s : ServedWith) → (first : Option (List ℕ))
        → AreNew s (count_of rooms) games.items → Appends first (H.ports host.old) (s.port ∷ [])
        → PlaysBy H.Link.was_read H.Link.left H.Link.written H.Link.read_faults
        H.Link.write_faults (H.made_by host.new) H.Fault.number result (plan_for rooms s)
        (outside first (H.open_faults host.old) (H.returned host.old) (C.readings clock.old) (K.written sink.old))
        (outside (H.ports host.new) (H.open_faults host.new) (H.returned host.new) (C.readings clock.new) (K.written sink.new)) }
    ensures writes { CountsWriteFaults (serve_status result) (K.write_faults sink.old)
        (K.write_faults sink.new) }
{
    let handlers = rooms.handlers();
    let Ok(played) = play_tables(rt, alloc, &mut games, handlers, &rooms, host, clock) else {
        return ServeEnd::NoMemory;
    };
    let Played { sessions, ends: _ } = played;
    match give_all(host, sessions) {
        Given::Kept => write_games(alloc, rooms, games.as_slice(), sink),
        Given::NoMemory => ServeEnd::NoMemory,
    }
}
