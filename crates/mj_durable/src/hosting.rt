//! The command `host`: games, each on a disk of its own, played over a host from where their journals end, and their records
//! written.

ghost use Rattle.std.specs.Prelude.{◌≡◌, ◌≤◌, [], List, length, vec_len, vec_capacity};
ghost use Rattle.mj_words.specs.Asked.{ServedWith};
ghost use Rattle.mj_words.specs.Commands.{served_with};
ghost use Rattle.mj_hosting.specs.Plays.{outside};
ghost use Rattle.mj_hosting.specs.Rooms.{AreWithin, count_of};
ghost use Rattle.mj_durable.specs.Host.{Hosts, LosesNone};
ghost use Rattle.mj_durable.specs.Inner.Steps.{AreOpenFor, by_reason};
ghost use Rattle.mj_durable.specs.Statuses.{host_status};
ghost use Rattle.mj_runs.specs.Faults.{CountsWriteFaults};

use crate::hosted::Hosted;
use crate::opening::{close_all, open_all};
use crate::playing::play_on;
use crate::seat_log::SeatLog;
use mj_core::Core;
use mj_hosting::{Rooms, has_thread, new_games};
use mj_journal::{Disk, NotOpened};
use mj_links::{Clock, Host, Opened, Sink};
use mj_written::Written;
use std::alloc::Global;
use std::sync::Wait;
use std::thread::Threads;

/// How the command `host` ends. What a journal kept before the run it still keeps, whatever the end.
#[derive(Clone, Copy)]
pub enum HostEnd {
    /// Each game is over, and the records are written.
    Over,
    /// Some game goes on and the host failed each handler. The records are written.
    HostLost,
    /// The host was not opened. Nothing is written, and each journal has the entries that it had.
    NotOpened,
    /// A write failed. A part of the records is written.
    WriteFault,
    /// A disk failed. Nothing is written.
    DiskFault,
    /// A journal is another game's: it has another tag, or an author that no worker has. Nothing is written, there or here.
    OtherGame,
    /// A journal is bad at this byte. Nothing is written, there or here.
    BadJournal(u64),
    /// Memory was wanting. Nothing is written.
    NoMemory,
}

/// Opens the journals of games, each on the disk in its place, plays the games from there on over the host, gives the links of
/// their connections back, and writes their records. A new journal begins its game. Of a game that isn't over each seat that
/// was present has left, and comes back by its name and key; one that is over stays over. The log is told of each seat that is
/// taken, left and taken back from then on, once its disk has that.
pub fn host_games<
    K: Sink,
    H: Host,
    C: Clock,
    D: Disk + Drop + Send,
    L: SeatLog + Sync,
    R: Threads + Wait + Sync,
>(
    rt: &R,
    alloc: Global,
    hosted: &Hosted,
    sink: &mut K,
    host: &mut H,
    clock: &mut C,
    disks: &mut Vec<D>,
    log: &L,
) -> HostEnd
    requires { length disks.old.items ≡ count_of hosted.now.rooms }
    ensures hosts { Hosts H.Link.was_read H.Link.left H.Link.written H.Link.read_faults
        H.Link.write_faults (H.made_by host.new) H.Fault.number
        D.told D.may_leave D.moment D.left_since D.secured_since D.disk_faults result
        hosted.now.rooms (served_with hosted.now.serving)
        (outside (H.ports host.old) (H.open_faults host.old) (H.returned host.old) (C.readings clock.old) (K.written sink.old))
        (outside (H.ports host.new) (H.open_faults host.new) (H.returned host.new) (C.readings clock.new) (K.written sink.new))
        disks.old.items disks.new.items }
    ensures loses { LosesNone D.told D.may_leave D.moment D.left_since D.disk_faults
        (served_with hosted.now.serving) disks.old.items disks.new.items }
    ensures writes { CountsWriteFaults (host_status result) (K.write_faults sink.old)
        (K.write_faults sink.new) }
{
    if !has_thread(rt) {
        return HostEnd::NoMemory;
    }
    let Ok(mut cores) = new_games(alloc, hosted.rooms, &hosted.serving) else {
        return HostEnd::NoMemory;
    };
    let Ok(games) = Vec::with_capacity(alloc, cores.len()) else {
        return HostEnd::NoMemory;
    };
    let authors = hosted.rooms.handlers() + 1;
    match open_all(alloc, authors, &mut cores, disks, games) {
        Ok(games) => {
            let port = hosted.serving.port;
            host_opened(
                rt,
                alloc,
                hosted.rooms,
                port,
                games,
                &mut cores,
                disks,
                sink,
                host,
                clock,
                log,
            )
        }
        Err(why) => by_reason(why),
    }
}

// Opens the host, and plays games over it whose journals are open.
fn host_opened<
    K: Sink,
    H: Host,
    C: Clock,
    D: Disk + Drop + Send,
    L: SeatLog + Sync,
    R: Threads + Wait + Sync,
>(
    rt: &R,
    alloc: Global,
    rooms: Rooms,
    port: u16,
    games: Vec<Written<Core, D>>,
    cores: &mut Vec<Core>,
    disks: &mut Vec<D>,
    sink: &mut K,
    host: &mut H,
    clock: &mut C,
    log: &L,
) -> HostEnd
    requires within { AreWithin rooms }
    requires opened { (s : ServedWith) × (were : List D) × AreOpenFor D.told D.may_leave D.moment D.left_since D.secured_since D.disk_faults rooms s were games.items }
    requires empty { (cores.old.items ≡ []) × (disks.old.items ≡ []) }
    requires places { (vec_len games ≤ vec_capacity cores.old) × (vec_len games ≤ vec_capacity disks.old) }
    ensures hosts { (s : ServedWith) → (were : List D)
        → AreOpenFor D.told D.may_leave D.moment D.left_since D.secured_since D.disk_faults rooms s were games.items
        → s.port ≡ port
        → Hosts H.Link.was_read H.Link.left H.Link.written H.Link.read_faults
        H.Link.write_faults (H.made_by host.new) H.Fault.number
        D.told D.may_leave D.moment D.left_since D.secured_since D.disk_faults result rooms s
        (outside (H.ports host.old) (H.open_faults host.old) (H.returned host.old) (C.readings clock.old) (K.written sink.old))
        (outside (H.ports host.new) (H.open_faults host.new) (H.returned host.new) (C.readings clock.new) (K.written sink.new))
        were disks.new.items }
    ensures loses { (s : ServedWith) → (were : List D)
        → AreOpenFor D.told D.may_leave D.moment D.left_since D.secured_since D.disk_faults rooms s were games.items
        → LosesNone D.told D.may_leave D.moment D.left_since D.disk_faults s were disks.new.items }
    ensures writes { CountsWriteFaults (host_status result) (K.write_faults sink.old)
        (K.write_faults sink.new) }
{
    match host.open(port) {
        Opened::Ready => play_on(
            rt, alloc, rooms, games, cores, disks, sink, host, clock, log,
        ),
        Opened::Failed(_) => {
            close_all(games, cores, disks);
            HostEnd::NotOpened
        }
    }
}

// The end where a journal isn't opened.
fn by_reason(why: NotOpened) -> HostEnd
    ensures { result ≡ by_reason why }
{
    match why {
        NotOpened::DiskFault => HostEnd::DiskFault,
        NotOpened::OtherGame => HostEnd::OtherGame,
        NotOpened::BadJournal(place) => HostEnd::BadJournal(place),
        NotOpened::NoMemory => HostEnd::NoMemory,
    }
}
