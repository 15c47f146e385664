//! The commands `serve` and `tables`: a game, or several side by side, played over a host, and their records written to a sink.

ghost use Rattle.mj_words.specs.Commands.{served_with};
ghost use Rattle.mj_hosting.specs.Plays.{outside};
ghost use Rattle.mj_hosting.specs.Serve.{Serves};
ghost use Rattle.mj_hosting.specs.Tables.{PlaysAll};
ghost use Rattle.mj_hosting.specs.Statuses.{serve_status};
ghost use Rattle.mj_runs.specs.Faults.{CountsWriteFaults};

use crate::plays::{ServeEnd, play_games};
use crate::rooms::Rooms;
use mj_links::{Clock, Host, Sink};
use mj_words::{Hosting, Serving};
use std::alloc::Global;
use std::sync::Wait;
use std::thread::Threads;

/// Plays a game over the host, gives the links of its connections back, and writes its record.
pub fn serve_game<K: Sink, H: Host, C: Clock, R: Threads + Wait + Sync>(
    rt: &R,
    alloc: Global,
    serving: &Serving,
    sink: &mut K,
    host: &mut H,
    clock: &mut C,
) -> ServeEnd
    ensures serves { Serves H.Link.was_read H.Link.left H.Link.written H.Link.read_faults
        H.Link.write_faults (H.made_by host.new) H.Fault.number result
        (served_with serving.now)
        (outside (H.ports host.old) (H.open_faults host.old) (H.returned host.old) (C.readings clock.old) (K.written sink.old))
        (outside (H.ports host.new) (H.open_faults host.new) (H.returned host.new) (C.readings clock.new) (K.written sink.new)) }
    ensures writes { CountsWriteFaults (serve_status result) (K.write_faults sink.old)
        (K.write_faults sink.new) }
{
    play_games(rt, alloc, Rooms::One, serving, sink, host, clock)
}

/// Plays the games of all tables over the host, gives the links of their connections back, and writes their records.
pub fn serve_tables<K: Sink, H: Host, C: Clock, R: Threads + Wait + Sync>(
    rt: &R,
    alloc: Global,
    hosting: &Hosting,
    sink: &mut K,
    host: &mut H,
    clock: &mut C,
) -> ServeEnd
    ensures plays { PlaysAll H.Link.was_read H.Link.left H.Link.written H.Link.read_faults
        H.Link.write_faults (H.made_by host.new) H.Fault.number result hosting.now.rooms
        (served_with hosting.now.serving)
        (outside (H.ports host.old) (H.open_faults host.old) (H.returned host.old) (C.readings clock.old) (K.written sink.old))
        (outside (H.ports host.new) (H.open_faults host.new) (H.returned host.new) (C.readings clock.new) (K.written sink.new)) }
    ensures writes { CountsWriteFaults (serve_status result) (K.write_faults sink.old)
        (K.write_faults sink.new) }
{
    let rooms = Rooms::Many(hosting.rooms);
    play_games(rt, alloc, rooms, &hosting.serving, sink, host, clock)
}
