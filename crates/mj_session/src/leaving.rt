// A connection that leaves its seat while nothing is asked of it.
ghost use Rattle.std.specs.Prelude.{◌≡◌, [], Some, IfNone};
ghost use Rattle.mj_links.specs.LineBuffers.{wire_held, wire_link};
ghost use Rattle.mj_session.specs.declared.talk.Doing.TheVariants.{Look};
ghost use Rattle.mj_session.specs.Inner.Talks.{CanDo, Goes};
ghost use Rattle.mj_session.specs.Wires.{wire_state};
ghost use Rattle.turn_lock.specs.Turns.{IsIdle};

use crate::served::Ended;
use crate::shared_game::SharedGame;
use crate::talk::{Doing, Talk, ended_of, in_turn};
use mj_links::{LineRead, Link, Wire};
use std::sync::Wait;
use turn_lock::{Noted, Pass, Turn};

// Lets a connection leave its seat where the end of its link, or a fault, comes next. Else nothing is read.
pub(crate) fn leave_if_ended<T: SharedGame, L: Link, R: Wait>(
    turn: &Turn<T>,
    rt: &R,
    pass: &mut Pass<T>,
    wire: &mut Wire<L>,
    talk: &mut Talk,
) -> Option<Ended>
    requires idle { IsIdle T.Noted.setting turn.now pass.old }
    requires can { CanDo Look talk.old.connection pass.old.number
        (T.after (T.Noted.setting turn.now.opening) pass.old.seen) }
    ensures idle { IsIdle T.Noted.setting turn.now pass.new × (pass.new.number ≡ pass.old.number) }
    ensures going { IfNone result (CanDo Look talk.new.connection pass.old.number
        (T.after (T.Noted.setting turn.now.opening) pass.new.seen)) }
    ensures goes { Goes T.Seated (T.Noted.setting turn.now.opening) pass.old.number result
        talk.old.connection talk.new.connection pass.old.seen pass.new.seen []
        (wire_state L.Link) wire.old wire.new }
{
    if wire.has_ended() {
        return Some(leave_early(turn, rt, pass, wire, talk));
    }
    None
}

// Reads the end of the link, or its fault, which comes next, and lets the connection leave its seat.
fn leave_early<T: SharedGame, L: Link, R: Wait>(
    turn: &Turn<T>,
    rt: &R,
    pass: &mut Pass<T>,
    wire: &mut Wire<L>,
    talk: &mut Talk,
) -> Ended
    requires idle { IsIdle T.Noted.setting turn.now pass.old }
    requires can { CanDo Look talk.old.connection pass.old.number
        (T.after (T.Noted.setting turn.now.opening) pass.old.seen) }
    requires ended { (wire_held wire.old ≡ []) × L.at_end (wire_link wire.old) }
    ensures idle { IsIdle T.Noted.setting turn.now pass.new × (pass.new.number ≡ pass.old.number) }
    ensures goes { Goes T.Seated (T.Noted.setting turn.now.opening) pass.old.number (Some result)
        talk.old.connection talk.new.connection pass.old.seen pass.new.seen []
        (wire_state L.Link) wire.old wire.new }
{
    match wire.read_line(&mut talk.line) {
        LineRead::Ended => {
            in_turn(turn, rt, pass, Doing::Lose, talk);
            let _sent = wire.send(talk.text.as_slice());
            ended_of(talk.connection, Ended::PeerEnded)
        }
        LineRead::Fault => {
            in_turn(turn, rt, pass, Doing::Lose, talk);
            let _sent = wire.send(talk.text.as_slice());
            ended_of(talk.connection, Ended::LinkFault)
        }
        LineRead::Line => unreachable!(),
        LineRead::TooLong => unreachable!(),
        LineRead::NoMemory => unreachable!(),
    }
}
