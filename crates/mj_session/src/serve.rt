//! The session of a link: it is greeted, its first line is given a seat, and the seat is played.

ghost use Rattle.std.specs.Prelude.{◌≡◌, [], ◌∷◌, Some, IfNone};
ghost use Rattle.mj_ports.specs.declared.answers.Control.TheVariants.{Hello};
ghost use Rattle.mj_connection.specs.declared.stage.Connection.TheVariants.{Greeted};
ghost use Rattle.mj_connection.specs.Stages.{Fits};
ghost use Rattle.mj_session.specs.declared.talk.Doing.TheVariants.{Look, Hear};
ghost use Rattle.mj_session.specs.Sessions.{Session};
ghost use Rattle.mj_session.specs.Inner.Talks.{CanDo, Ends, Goes};
ghost use Rattle.mj_session.specs.Wires.{WireState, Took, Wrote, wire_state};
ghost use Rattle.turn_lock.specs.Turns.{IsIdle};

use crate::leaving::leave_if_ended;
use crate::served::{Ended, Served};
use crate::shared_game::SharedGame;
use crate::talk::{Doing, Talk, ended_of, in_turn, turn_with};
use mj_connection::Connection;
use mj_links::{LineRead, Link, Sent, Wire};
use std::alloc::Global;
use std::sync::Wait;
use turn_lock::{Noted, Pass, Turn};

/// Serves a link until its session ends. It writes the hello line, reads the line that wants a seat, and plays the seat:
/// it writes each line of it once its deed is due and exists, and then reads the answer. A seat whose link ended the
/// session is entered as gone.
pub fn serve_seat<T: SharedGame, L: Link, R: Wait>(
    turn: &Turn<T>,
    rt: &R,
    alloc: Global,
    pass: &mut Pass<T>,
    wire: &mut Wire<L>,
) -> Served
    requires { IsIdle T.Noted.setting turn.now pass.old }
    ensures idle { IsIdle T.Noted.setting turn.now pass.new × (pass.new.number ≡ pass.old.number) }
    ensures session { Session T.Seated (T.Noted.setting turn.now.opening) pass.old.number
        pass.old.seen pass.new.seen (wire_state L.Link wire.old) (wire_state L.Link wire.new)
        result }
{
    let mut talk = Talk {
        connection: Connection::New,
        line: Vec::new(alloc),
        text: Vec::new(alloc),
    };
    let ended = play(turn, rt, pass, wire, &mut talk);
    Served {
        ended,
        place: talk.connection.place(),
    }
}

// Lets a connection that was greeted hear its first line, and then go on until its session ends.
pub(crate) fn join_on<T: SharedGame, L: Link, R: Wait>(
    turn: &Turn<T>,
    rt: &R,
    pass: &mut Pass<T>,
    wire: &mut Wire<L>,
    line: &[u8],
    talk: &mut Talk,
) -> Ended
    requires idle { IsIdle T.Noted.setting turn.now pass.old }
    requires greeted { talk.old.connection ≡ Greeted }
    ensures idle { IsIdle T.Noted.setting turn.now pass.new × (pass.new.number ≡ pass.old.number) }
    ensures ends { (x : WireState)
        → Took x (wire_state L.Link wire.old) (line.now ∷ []) []
        → Wrote x (wire_state L.Link wire.old) (T.says Hello)
        → Ends T.Seated (T.Noted.setting turn.now.opening) pass.old.number pass.old.seen result
        talk.new.connection pass.new.seen x (wire_state L.Link wire.new) }
{
    turn_with(
        turn,
        rt,
        pass,
        Doing::Hear,
        line,
        &mut talk.connection,
        &mut talk.text,
    );
    match send(turn, rt, pass, wire, talk) {
        None => play(turn, rt, pass, wire, talk),
        Some(ended) => ended,
    }
}

// Lets a connection that is open go on until its session ends.
fn play<T: SharedGame, L: Link, R: Wait>(
    turn: &Turn<T>,
    rt: &R,
    pass: &mut Pass<T>,
    wire: &mut Wire<L>,
    talk: &mut Talk,
) -> Ended
    requires idle { IsIdle T.Noted.setting turn.now pass.old }
    requires can { CanDo Look talk.old.connection pass.old.number
        (T.after (T.Noted.setting turn.now.opening) pass.old.seen) }
    ensures idle { IsIdle T.Noted.setting turn.now pass.new × (pass.new.number ≡ pass.old.number) }
    ensures goes { Goes T.Seated (T.Noted.setting turn.now.opening) pass.old.number (Some result)
        talk.old.connection talk.new.connection pass.old.seen pass.new.seen []
        (wire_state L.Link) wire.old wire.new }
{
    for _ in rt.forever() {
        if let Some(ended) = go_on(turn, rt, pass, wire, talk) {
            return ended;
        }
    }
    unreachable!()
}

// Lets a connection that is open do what it waits for: it hears its next line, or looks for what it is to be told. One that
// has a seat and nothing to answer looked in its last turn, and found nothing: it waits first until others have changed
// something.
fn go_on<T: SharedGame, L: Link, R: Wait>(
    turn: &Turn<T>,
    rt: &R,
    pass: &mut Pass<T>,
    wire: &mut Wire<L>,
    talk: &mut Talk,
) -> Option<Ended>
    requires idle { IsIdle T.Noted.setting turn.now pass.old }
    requires can { CanDo Look talk.old.connection pass.old.number
        (T.after (T.Noted.setting turn.now.opening) pass.old.seen) }
    ensures idle { IsIdle T.Noted.setting turn.now pass.new × (pass.new.number ≡ pass.old.number) }
    ensures going { IfNone result (CanDo Look talk.new.connection pass.old.number
        (T.after (T.Noted.setting turn.now.opening) pass.new.seen)) }
    ensures goes { Goes T.Seated (T.Noted.setting turn.now.opening) pass.old.number result
        talk.old.connection talk.new.connection pass.old.seen pass.new.seen []
        (wire_state L.Link) wire.old wire.new }
{
    match talk.connection {
        Connection::Greeted => hear_next(turn, rt, pass, wire, talk),
        Connection::Asked(_) => hear_next(turn, rt, pass, wire, talk),
        Connection::Free(_) => {
            turn.await_change(rt, pass);
            look_on(turn, rt, pass, wire, talk)
        }
        _ => look_on(turn, rt, pass, wire, talk),
    }
}

// Looks for what a connection that is open is to be told, and writes it. One that still has nothing to answer leaves its seat
// where its link has ended.
fn look_on<T: SharedGame, L: Link, R: Wait>(
    turn: &Turn<T>,
    rt: &R,
    pass: &mut Pass<T>,
    wire: &mut Wire<L>,
    talk: &mut Talk,
) -> Option<Ended>
    requires idle { IsIdle T.Noted.setting turn.now pass.old }
    requires can { CanDo Look talk.old.connection pass.old.number
        (T.after (T.Noted.setting turn.now.opening) pass.old.seen) }
    ensures idle { IsIdle T.Noted.setting turn.now pass.new × (pass.new.number ≡ pass.old.number) }
    ensures going { IfNone result (CanDo Look talk.new.connection pass.old.number
        (T.after (T.Noted.setting turn.now.opening) pass.new.seen)) }
    ensures goes { Goes T.Seated (T.Noted.setting turn.now.opening) pass.old.number result
        talk.old.connection talk.new.connection pass.old.seen pass.new.seen []
        (wire_state L.Link) wire.old wire.new }
{
    in_turn(turn, rt, pass, Doing::Look, talk);
    match talk.connection {
        Connection::Free(_) => leave_if_ended(turn, rt, pass, wire, talk),
        _ => send(turn, rt, pass, wire, talk),
    }
}

// Reads the next line of a connection that waits for one, and lets it be heard.
fn hear_next<T: SharedGame, L: Link, R: Wait>(
    turn: &Turn<T>,
    rt: &R,
    pass: &mut Pass<T>,
    wire: &mut Wire<L>,
    talk: &mut Talk,
) -> Option<Ended>
    requires idle { IsIdle T.Noted.setting turn.now pass.old }
    requires can { CanDo Hear talk.old.connection pass.old.number
        (T.after (T.Noted.setting turn.now.opening) pass.old.seen) }
    ensures idle { IsIdle T.Noted.setting turn.now pass.new × (pass.new.number ≡ pass.old.number) }
    ensures going { IfNone result (CanDo Look talk.new.connection pass.old.number
        (T.after (T.Noted.setting turn.now.opening) pass.new.seen)) }
    ensures goes { Goes T.Seated (T.Noted.setting turn.now.opening) pass.old.number result
        talk.old.connection talk.new.connection pass.old.seen pass.new.seen []
        (wire_state L.Link) wire.old wire.new }
{
    match wire.read_line(&mut talk.line) {
        LineRead::Line => {
            in_turn(turn, rt, pass, Doing::Hear, talk);
            send(turn, rt, pass, wire, talk)
        }
        LineRead::Ended => {
            in_turn(turn, rt, pass, Doing::Lose, talk);
            Some(ended_of(talk.connection, Ended::PeerEnded))
        }
        LineRead::Fault => {
            in_turn(turn, rt, pass, Doing::Lose, talk);
            Some(ended_of(talk.connection, Ended::LinkFault))
        }
        LineRead::TooLong => {
            in_turn(turn, rt, pass, Doing::Lose, talk);
            Some(ended_of(talk.connection, Ended::LineTooLong))
        }
        LineRead::NoMemory => {
            in_turn(turn, rt, pass, Doing::Cut, talk);
            Some(Ended::NoMemory)
        }
    }
}

// Writes what the last turn told, and says how the session ended by it: its connection is over, or a write failed.
fn send<T: SharedGame, L: Link, R: Wait>(
    turn: &Turn<T>,
    rt: &R,
    pass: &mut Pass<T>,
    wire: &mut Wire<L>,
    talk: &mut Talk,
) -> Option<Ended>
    requires idle { IsIdle T.Noted.setting turn.now pass.old }
    requires fits { Fits talk.old.connection pass.old.number
        (T.after (T.Noted.setting turn.now.opening) pass.old.seen) }
    ensures idle { IsIdle T.Noted.setting turn.now pass.new × (pass.new.number ≡ pass.old.number) }
    ensures going { IfNone result (CanDo Look talk.new.connection pass.old.number
        (T.after (T.Noted.setting turn.now.opening) pass.new.seen)) }
    ensures goes { Goes T.Seated (T.Noted.setting turn.now.opening) pass.old.number result
        talk.old.connection talk.new.connection pass.old.seen pass.new.seen talk.old.text.items
        (wire_state L.Link) wire.old wire.new }
{
    match talk.connection.end() {
        Some(_) => {
            let _sent = wire.send(talk.text.as_slice());
            Some(ended_of(talk.connection, Ended::LinkFault))
        }
        None => match wire.send(talk.text.as_slice()) {
            Sent::Whole => None,
            Sent::Failed => {
                in_turn(turn, rt, pass, Doing::Lose, talk);
                Some(ended_of(talk.connection, Ended::LinkFault))
            }
        },
    }
}
