//! The session of a link whose first line was read before its table was known.

ghost use Rattle.std.specs.Prelude.{◌≡◌, [], ◌∷◌};
ghost use Rattle.mj_ports.specs.declared.answers.Control.TheVariants.{Hello};
ghost use Rattle.mj_session.specs.Sessions.{Session};
ghost use Rattle.mj_session.specs.Wires.{WireState, Took, Wrote, wire_state};
ghost use Rattle.turn_lock.specs.Turns.{IsIdle};

use crate::serve::join_on;
use crate::served::Served;
use crate::shared_game::SharedGame;
use crate::talk::Talk;
use mj_connection::Connection;
use mj_links::{Link, Wire};
use std::alloc::Global;
use std::sync::Wait;
use turn_lock::{Pass, Turn};

/// Serves a link to which the hello line is written, and whose first line was read, until its session ends, as `serve_seat`
/// does from there on. The line wants a seat at this table.
pub fn serve_joined<T: SharedGame, L: Link, R: Wait>(
    turn: &Turn<T>,
    rt: &R,
    alloc: Global,
    pass: &mut Pass<T>,
    wire: &mut Wire<L>,
    line: &[u8],
) -> Served
    requires { IsIdle T.Noted.setting turn.now pass.old }
    ensures idle { IsIdle T.Noted.setting turn.now pass.new × (pass.new.number ≡ pass.old.number) }
    ensures session { (x : WireState)
        → Took x (wire_state L.Link wire.old) (line.now ∷ []) []
        → Wrote x (wire_state L.Link wire.old) (T.says Hello)
        → Session T.Seated (T.Noted.setting turn.now.opening) pass.old.number pass.old.seen
        pass.new.seen x (wire_state L.Link wire.new) result }
{
    let mut talk = Talk {
        connection: Connection::Greeted,
        line: Vec::new(alloc),
        text: Vec::new(alloc),
    };
    let ended = join_on(turn, rt, pass, wire, line, &mut talk);
    Served {
        ended,
        place: talk.connection.place(),
    }
}
