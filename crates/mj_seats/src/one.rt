//! One game over a host.

ghost use Rattle.std.specs.Prelude.{◌≡◌, ◌<◌, [], IfOk, true};
ghost use Rattle.mj_handlers.specs.Handlers.{link_state};
ghost use Rattle.mj_seats.specs.Tables.{IsPlayedIn, AllEndWith};

use crate::play::play_tables;
use mj_handlers::{HandlerEnd, OneTable, Session};
use mj_links::{Clock, Host};
use mj_ports::Seated;
use std::alloc::{AllocError, Global};
use std::sync::Wait;
use std::thread::Threads;

/// What is left of a game that workers played: the game, the links of all sessions with a seat, and how each handler
/// ended, in the order of their numbers.
#[derive(Drop)]
pub struct ClosedGame<G, L, F> {
    pub game: G,
    pub sessions: Vec<Session<L>>,
    pub ends: Vec<HandlerEnd<F>>,
}

/// What is left of a game that was played with this host.
pub type Closed<G, H> = ClosedGame<G, <H as Host>::Link, <H as Host>::Fault>;

/// Plays a game without entries to its end, or until the host has failed each handler: eight handlers, numbered from 0 to
/// 7, take links and serve them, and the ticker, which has the number 8, closes windows whose time has run out.
/// Err where memory was wanting of a worker.
pub fn run_workers<G: Seated, H: Host, C: Clock, R: Threads + Wait + Sync>(
    rt: &R,
    alloc: Global,
    game: G,
    host: &H,
    clock: &mut C,
) -> Result<Closed<G, H>, AllocError>
    requires { G.history game ≡ [] }
    ensures setting { IfOk result (λ c. G.setting c.game ≡ G.setting game) }
    ensures legal { IfOk result (λ c. G.is_legal (G.setting game) (G.history c.game)) }
    ensures played { IfOk result (λ c. IsPlayedIn G.Seated (G.setting game) (link_state H.Link.Link) 8 [] (G.history c.game)
        c.sessions.items (C.readings clock.old) (C.readings clock.new)) }
    ensures ends { IfOk result (λ c. AllEndWith ((G.after (G.setting game) (G.history c.game)).over ≡ true)
        (H.made_by host.now) H.Fault.number 8 c.ends.items) }
{
    let mut games = Vec::with_capacity(alloc, 1)?;
    games.push_reserved(game);
    let played = play_tables(rt, alloc, &mut games, 8, &OneTable, host, clock)?;
    let mut sessions = played.sessions;
    Ok(ClosedGame {
        game: games.pop().unwrap(),
        sessions: sessions.pop().unwrap(),
        ends: played.ends,
    })
}
