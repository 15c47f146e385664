//! Games that workers play over one host: handlers, which serve links at the tables of the games, and one that tells the time.

ghost use Rattle.std.specs.Prelude.{◌≡◌, ◌≤◌, ◌<◌, ◌+◌, ℕ, List, [], All, IfOk, length, vec_capacity, vec_len};
ghost use Rattle.mj_ports.specs.Entries.{author_of};
ghost use Rattle.mj_ticker.specs.Beside.{Matches};
ghost use Rattle.mj_handlers.specs.Handlers.{rows, link_state};
ghost use Rattle.mj_seats.specs.Tables.{ComesBack, ArePlayed, AllEndWith, IsOver};
ghost use Rattle.mj_handlers.specs.Picks.{IsBelow};
ghost use Rattle.mj_workers.specs.Columns.{items_of};
ghost use Rattle.mj_handlers.specs.Hands.{IsLobby};
ghost use Rattle.mj_seats.specs.Inner.Opened.{IsOpened};
ghost use Rattle.mj_workers.specs.Staffs.{AreNewRows, IsReady, HasRoom, sessions_of};
ghost use Rattle.mj_ticker.specs.Watches.{AreWatched};
ghost use Rattle.mj_seats.specs.Inner.Ended.{HasEnded};

use crate::gather::gather;
use crate::open::{Opened, close_all, open_all};
use crate::rooms::{Reserved, leave, reserve, seat};
use mj_handlers::{Door, HandlerEnd, HostDoor, Lobby, Session};
use mj_links::{Clock, Host};
use mj_ports::{Picker, Seated};
use mj_session::SharedGame;
use mj_workers::{Back, Desk, Staff, StaffAt, fill_rows, take_column, work};
use std::alloc::{AllocError, Global};
use std::sync::Wait;
use std::thread::Threads;
use turn_lock::{Noted, Pass, Turn};

/// What handlers leave at the tables of games: the links of all sessions with a seat, for each table in order, and how each
/// handler ended, in the order of their numbers.
#[derive(Drop)]
pub struct Played<L, F> {
    pub sessions: Vec<Vec<Session<L>>>,
    pub ends: Vec<HandlerEnd<F>>,
}

/// What is left of games that were played with this host.
pub type PlayedBy<H> = Played<<H as Host>::Link, <H as Host>::Fault>;

/// Plays games, each at a table of its own, to their ends, or until the host has failed each handler. There are so many
/// handlers, numbered from 0: each takes links and serves them at the tables that their first lines are for, as the picker
/// says. The ticker, which has the number after theirs, closes windows whose time has run out. A game may have entries, of
/// authors up to the ticker, and goes on from there. For each line the picker names one of the tables, or none. `Err` where
/// memory was wanting of a worker. The games come back at each end.
pub fn play_tables<G: Seated, H: Host, C: Clock, P: Picker, R: Threads + Wait + Sync>(
    rt: &R,
    alloc: Global,
    games: &mut Vec<G>,
    handlers: u8,
    picker: &P,
    host: &H,
    clock: &mut C,
) -> Result<PlayedBy<H>, AllocError>
    requires some { 1 ≤ length games.old.items }
    requires few { handlers < 64 }
    requires below { All (λ g. All (λ e. author_of e < handlers + 1) (G.history g)) games.old.items }
    requires picks { (line : List ℕ) → IsBelow (length games.old.items) (P.picks picker.now line) }
    ensures games { Matches (ComesBack G.Seated) games.old.items games.new.items }
    ensures played { IfOk result (λ p. ArePlayed G.Seated (link_state H.Link.Link) (P.picks picker.now) handlers (C.readings clock.old)
        (C.readings clock.new) games.old.items games.new.items (rows p.sessions.items)) }
    ensures ends { IfOk result (λ p. AllEndWith (All (IsOver G.Seated) games.new.items)
        (H.made_by host.now) H.Fault.number handlers p.ends.items) }
{
    let lobby = Lobby::new(alloc, &games[0])?;
    let mut rooms = seat(alloc, games, handlers)?;
    let played = run_in(rt, alloc, &mut rooms, handlers, &lobby, picker, host, clock);
    leave(rooms, games);
    played
}

// Plays the games at any tables to their ends, or until the host has failed each handler.
fn run_in<
    T: SharedGame,
    H: Host<Fault = <T as SharedGame>::Fault>,
    C: Clock,
    P: Picker,
    R: Threads + Wait + Sync,
>(
    rt: &R,
    alloc: Global,
    tables: &mut Vec<T>,
    handlers: u8,
    lobby: &Lobby,
    picker: &P,
    host: &H,
    clock: &mut C,
) -> Result<PlayedBy<H>, AllocError>
    requires few { handlers < 64 }
    requires below { All (λ x. All (λ e. author_of e < handlers + 1) (T.history x)) tables.old.items }
    requires lobby { IsLobby T.says lobby.now }
    requires picks { (line : List ℕ) → IsBelow (length tables.old.items) (P.picks picker.now line) }
    ensures tables { Matches (ComesBack T.Seated) tables.old.items tables.new.items }
    ensures played { IfOk result (λ p. ArePlayed T.Seated (link_state H.Link.Link) (P.picks picker.now) handlers (C.readings clock.old)
        (C.readings clock.new) tables.old.items tables.new.items (rows p.sessions.items)) }
    ensures ends { IfOk result (λ p. AllEndWith (All (IsOver T.Seated) tables.new.items)
        (H.made_by host.now) T.Fault.number handlers p.ends.items) }
{
    let number = tables.len();
    let reserved = reserve(alloc, handlers, number)?;
    let Reserved {
        opened,
        desk,
        hands,
        back,
        rows,
    } = reserved;
    let opened = open_all(alloc, tables, handlers + 1, opened)?;
    let Opened {
        turns,
        rows: mut new,
    } = opened;
    let Desk { passes, sights } = desk;
    let passes = take_column(&mut new, passes);
    let desk = Desk { passes, sights };
    let staff = Staff {
        rows: new,
        hands,
        back,
    };
    let door = HostDoor { host, picker };
    let (kept, ends) = run_turns(
        turns, rt, alloc, lobby, &door, clock, handlers, staff, desk, rows, tables,
    );
    gather(alloc, number, kept, ends)
}

// Plays the games of these turns, and ends the turns.
fn run_turns<
    T: SharedGame,
    D: Door<Fault = <T as SharedGame>::Fault>,
    C: Clock,
    R: Threads + Wait + Sync,
>(
    turns: Vec<Turn<T>>,
    rt: &R,
    alloc: Global,
    lobby: &Lobby,
    door: &D,
    clock: &mut C,
    handlers: u8,
    staff: StaffAt<T, D>,
    desk: Desk<Pass<T>>,
    mut rows: Vec<Vec<Pass<T>>>,
    tables: &mut Vec<T>,
) -> (Vec<Vec<Vec<Session<D::Link>>>>, Vec<HandlerEnd<D::Fault>>)
    requires lobby { IsLobby T.says lobby.now }
    requires picks { (line : List ℕ) → IsBelow (length turns.items) (D.picks door.now line) }
    requires rows { AreNewRows T.Noted.setting T.history turns.items handlers (items_of staff.rows.items) }
    requires hands { (length staff.hands.items ≡ handlers)
        × All (IsReady (length turns.items)) staff.hands.items }
    requires back { HasRoom (handlers + 1) staff.back }
    requires desk { AreWatched T.Seated T.lost handlers T.Noted.setting handlers (λ t. T.history t.opening)
        (C.readings clock.old) (C.readings clock.old) turns.items desk.passes.items desk.sights.items }
    requires room { (length rows.items ≡ length turns.items)
        × All (λ row. (row.items ≡ []) × (handlers + 1 ≤ vec_capacity row)) rows.items }
    requires passes { All (λ t. t.passes ≡ handlers + 1) turns.items }
    requires tables { (tables.old.items ≡ []) × (vec_len turns ≤ vec_capacity tables.old) }
    ensures { HasEnded T.Seated T.lost T.Noted.setting (link_state D.Link.Link) (D.picks door.now) (D.made_by door.now) T.Fault.number
        handlers turns.items (C.readings clock.old) (C.readings clock.new) tables.new.items
        (sessions_of result.0.items) result.1.items }
{
    let (back, desk) = work(&turns, rt, alloc, lobby, door, clock, handlers, staff, desk);
    let Back {
        mut columns,
        kept,
        ends,
    } = back;
    columns.push_reserved(desk.passes);
    fill_rows(&mut columns, &mut rows);
    close_all(turns, rows, tables);
    (kept, ends)
}
