//! How the games of a host are played on to their ends, and what there is of them is written to a sink.

ghost use Rattle.std.specs.Prelude.{◌≡◌, ◌<◌, ◌≤◌, ℕ, [], ◌∷◌, List, Option, All, IfOk, length, vec_len, vec_capacity};
ghost use Rattle.std.specs.Io.KnownBytes.{Appends};
ghost use Rattle.mj_ticker.specs.Beside.{Matches};
ghost use Rattle.mj_words.specs.Asked.{ServedWith};
ghost use Rattle.mj_ports.specs.Entries.{author_of};
ghost use Rattle.mj_handlers.specs.Handlers.{rows, link_state};
ghost use Rattle.mj_seats.specs.Tables.{AllEndWith, ArePlayed, ComesBack, IsOver};
ghost use Rattle.mj_hosting.specs.Plays.{outside};
ghost use Rattle.mj_hosting.specs.Rooms.{AreWithin, count_of, handlers_for, picked_for};
ghost use Rattle.mj_durable.specs.Host.{Hosts, LosesNone, authors_for};
ghost use Rattle.mj_durable.specs.Inner.Steps.{AreOpenFor, AreBelow, AreOver, ArePlayedOn, IsSamePage, by_serving, written_as};
ghost use Rattle.mj_durable.specs.Statuses.{host_status};
ghost use Rattle.mj_runs.specs.Faults.{CountsWriteFaults};

use crate::hosting::HostEnd;
use crate::logged::play_logged;
use crate::opening::close_all;
use crate::resuming::{resume_all, stop_of};
use crate::seat_log::SeatLog;
use mj_core::Core;
use mj_hosting::{Rooms, ServeEnd, give_all, write_games};
use mj_journal::Disk;
use mj_links::{Clock, Given, Host, Sink};
use mj_ports::Left;
use mj_seats::{Played, PlayedBy};
use mj_written::{Foreseen, Stop, Written};
use std::alloc::{AllocError, Global};
use std::sync::Wait;
use std::thread::Threads;

/// Plays games over an open host, from where their journals ended, to their ends; puts their disks back, gives the links of all
/// connections back, and writes what there is of the games.
pub(crate) fn play_on<
    K: Sink,
    H: Host,
    C: Clock,
    D: Disk + Drop + Send,
    L: SeatLog + Sync,
    R: Threads + Wait + Sync,
>(
    rt: &R,
    alloc: Global,
    rooms: Rooms,
    mut games: Vec<Written<Core, D>>,
    cores: &mut Vec<Core>,
    disks: &mut Vec<D>,
    sink: &mut K,
    host: &mut H,
    clock: &mut C,
    log: &L,
) -> HostEnd
    requires within { AreWithin rooms }
    requires opened { (s : ServedWith) × (were : List D) × AreOpenFor D.told D.may_leave D.moment D.left_since D.secured_since D.disk_faults rooms s were games.items }
    requires empty { (cores.old.items ≡ []) × (disks.old.items ≡ []) }
    requires places { (vec_len games ≤ vec_capacity cores.old) × (vec_len games ≤ vec_capacity disks.old) }
    ensures hosts { (s : ServedWith) → (were : List D) → (first : Option (List ℕ))
        → AreOpenFor D.told D.may_leave D.moment D.left_since D.secured_since D.disk_faults rooms s were games.items
        → Appends first (H.ports host.old) (s.port ∷ [])
        → Hosts H.Link.was_read H.Link.left H.Link.written H.Link.read_faults
        H.Link.write_faults (H.made_by host.new) H.Fault.number
        D.told D.may_leave D.moment D.left_since D.secured_since D.disk_faults result rooms s
        (outside first (H.open_faults host.old) (H.returned host.old) (C.readings clock.old) (K.written sink.old))
        (outside (H.ports host.new) (H.open_faults host.new) (H.returned host.new) (C.readings clock.new) (K.written sink.new))
        were disks.new.items }
    ensures loses { (s : ServedWith) → (were : List D)
        → AreOpenFor D.told D.may_leave D.moment D.left_since D.secured_since D.disk_faults rooms s were games.items
        → LosesNone D.told D.may_leave D.moment D.left_since D.disk_faults s were disks.new.items }
    ensures writes { CountsWriteFaults (host_status result) (K.write_faults sink.old)
        (K.write_faults sink.new) }
{
    let played = play_all(rt, alloc, rooms, &mut games, host, clock, log);
    let stop = stop_of(games.as_slice());
    close_all(games, cores, disks);
    match stop {
        Some(Stop::DiskFault) => HostEnd::DiskFault,
        Some(Stop::NoMemory) => HostEnd::NoMemory,
        None => {
            let Ok(played) = played else {
                return HostEnd::NoMemory;
            };
            let Played { sessions, ends: _ } = played;
            match give_all(host, sessions) {
                Given::Kept => by_serving(write_games(alloc, rooms, cores.as_slice(), sink)),
                Given::NoMemory => HostEnd::NoMemory,
            }
        }
    }
}

// Plays games from where their journals ended.
fn play_all<H: Host, C: Clock, D: Disk + Drop + Send, L: SeatLog + Sync, R: Threads + Wait + Sync>(
    rt: &R,
    alloc: Global,
    rooms: Rooms,
    games: &mut Vec<Written<Core, D>>,
    host: &H,
    clock: &mut C,
    log: &L,
) -> Result<PlayedBy<H>, AllocError>
    requires within { AreWithin rooms }
    requires many { length games.old.items ≡ count_of rooms }
    requires below { AreBelow (authors_for rooms) games.old.items }
    ensures pages { Matches IsSamePage games.old.items games.new.items }
    ensures played { IfOk result (λ p. ArePlayedOn H.Link.was_read H.Link.left H.Link.written H.Link.read_faults
        H.Link.write_faults rooms (C.readings clock.old) (C.readings clock.new) games.old.items games.new.items (rows p.sessions.items)) }
    ensures ends { IfOk result (λ p. AllEndWith (AreOver games.new.items)
        (H.made_by host.now) H.Fault.number (handlers_for rooms) p.ends.items) }
{
    match resume_all(alloc, games) {
        Left::Gone => play_written(rt, alloc, rooms, games, host, clock, log),
        Left::NoMemory => Err(AllocError),
    }
}

// Plays written games, whatever these are.
fn play_written<
    G: Foreseen,
    H: Host,
    C: Clock,
    D: Disk + Drop + Send,
    L: SeatLog + Sync,
    R: Threads + Wait + Sync,
>(
    rt: &R,
    alloc: Global,
    rooms: Rooms,
    games: &mut Vec<Written<G, D>>,
    host: &H,
    clock: &mut C,
    log: &L,
) -> Result<PlayedBy<H>, AllocError>
    requires within { AreWithin rooms }
    requires many { length games.old.items ≡ count_of rooms }
    requires below { All (λ w. All (λ e. author_of e < authors_for rooms) (G.history w.game)) games.old.items }
    ensures games { Matches (ComesBack (written_as G.Seated)) games.old.items games.new.items }
    ensures played { IfOk result (λ p. ArePlayed (written_as G.Seated) (link_state H.Link.Link) (picked_for rooms)
        (handlers_for rooms) (C.readings clock.old) (C.readings clock.new) games.old.items games.new.items (rows p.sessions.items)) }
    ensures ends { IfOk result (λ p. AllEndWith (All (IsOver (written_as G.Seated)) games.new.items)
        (H.made_by host.now) H.Fault.number (handlers_for rooms) p.ends.items) }
{
    let handlers = rooms.handlers();
    play_logged(rt, alloc, games, handlers, &rooms, host, clock, log)
}

// The end of a command whose games are written, by that of one whose games are not.
fn by_serving(end: ServeEnd) -> HostEnd
    ensures { result ≡ by_serving end }
{
    match end {
        ServeEnd::Over => HostEnd::Over,
        ServeEnd::HostLost => HostEnd::HostLost,
        ServeEnd::NotOpened => HostEnd::NotOpened,
        ServeEnd::WriteFault => HostEnd::WriteFault,
        ServeEnd::NoMemory => HostEnd::NoMemory,
    }
}
