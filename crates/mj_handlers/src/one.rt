//! A handler at one table.

ghost use Rattle.std.specs.Prelude.{◌≡◌, ◌++◌, [], IfOk, map};
ghost use Rattle.mj_handlers.specs.Handlers.{HandledIn, HandlerEnds, WantsMemory, link_state};
ghost use Rattle.mj_handlers.specs.Hands.{IsLobby};
ghost use Rattle.mj_session.specs.Histories.{Enters, places_of};
ghost use Rattle.turn_lock.specs.Turns.{IsIdle};

use crate::door::HostDoor;
use crate::hand::handle;
use crate::lobby::Lobby;
use crate::visit::{HandlerEnd, Session};
use mj_links::Host;
use mj_ports::{Picked, Picker};
use mj_session::{SharedGame, hold};
use std::alloc::{AllocError, Global};
use std::slice;
use std::sync::Wait;
use turn_lock::{Noted, Pass, Turn};

/// Each line is for the one table.
#[derive(Drop)]
pub struct OneTable;

impl Picker for OneTable {
    ghost use Rattle.mj_ports.specs.declared.picking.Picked.TheVariants.{Table};

    ghost picks = { λ _ line. Table 0 };

    fn pick(&self, alloc: Global, line: &[u8]) -> Result<Picked, AllocError> {
        Ok(Picked::Table(0))
    }
}

/// Takes links from the host, with the pass's number, and serves each to the end of its session, until the game is over,
/// the host fails, or memory is wanting. Each link is shut then, and kept where its session had a seat.
pub fn handler<T: SharedGame, H: Host<Fault = <T as SharedGame>::Fault>, R: Wait>(
    turn: &Turn<T>,
    rt: &R,
    pass: &mut Pass<T>,
    host: &H,
    sessions: &mut Vec<Session<H::Link>>,
) -> HandlerEnd<H::Fault>
    requires idle { IsIdle T.Noted.setting turn.now pass.old }
    requires empty { sessions.old.items ≡ [] }
    ensures idle { IsIdle T.Noted.setting turn.now pass.new × (pass.new.number ≡ pass.old.number) }
    ensures handled { HandledIn T.Seated (T.Noted.setting turn.now.opening) (link_state H.Link.Link) (WantsMemory result)
        pass.old.number pass.old.seen pass.new.seen sessions.new.items }
    ensures places { places_of pass.old.number pass.new.seen
        ≡ places_of pass.old.number pass.old.seen ++ map (λ s. s.place) sessions.new.items }
    ensures ended { HandlerEnds (T.after (T.Noted.setting turn.now.opening)) (H.made_by host.now)
        T.Fault.number result pass.old.number pass.new.seen }
{
    let alloc = *sessions.allocator();
    let Ok(lobby) = lobby_at(turn, rt, alloc, pass) else {
        return HandlerEnd::NoMemory;
    };
    let door = HostDoor {
        host,
        picker: &OneTable,
    };
    let number = pass.number();
    handle(
        slice::from_ref(turn),
        rt,
        alloc,
        &lobby,
        &door,
        number,
        slice::from_mut(pass),
        slice::from_mut(sessions),
    )
}

// The lines as the game of the turn writes them.
fn lobby_at<T: SharedGame, R: Wait>(
    turn: &Turn<T>,
    rt: &R,
    alloc: Global,
    pass: &mut Pass<T>,
) -> Result<Lobby, AllocError>
    requires { IsIdle T.Noted.setting turn.now pass.old }
    ensures idle { IsIdle T.Noted.setting turn.now pass.new × (pass.new.number ≡ pass.old.number) }
    ensures nothing { Enters pass.old.number pass.old.seen pass.new.seen [] }
    ensures lobby { IfOk result (λ l. IsLobby T.says l) }
{
    let mut held = hold::take(turn, rt, pass);
    let lobby = Lobby::new(alloc, held.value());
    hold::give_unchanged(turn, pass, held, lobby.is_err());
    lobby
}
