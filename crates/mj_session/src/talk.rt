// A turn of a session: the table is taken, the connection does one thing, and the table is given back.
ghost use Rattle.std.specs.Prelude.{◌≡◌, [], ◌∷◌};
ghost use Rattle.mj_connection.specs.Seating.{AddsOne};
ghost use Rattle.mj_connection.specs.Spoken.{Takes, IsQuiet};
ghost use Rattle.mj_connection.specs.Stages.{Fits, Listens};
ghost use Rattle.mj_connection.specs.declared.stage.Connection.TheVariants.{Greeted};
ghost use Rattle.mj_ports.specs.Entries.{author_of};
ghost use Rattle.mj_session.specs.Inner.Talks.{CanDo, Leaves, heard_by, ended_of};
ghost use Rattle.turn_lock.specs.Notes.{Follows};
ghost use Rattle.turn_lock.specs.Turns.{IsIdle};

use crate::hold;
use crate::served::Ended;
use crate::shared_game::SharedGame;
use mj_connection::{Connection, End};
use std::sync::Wait;
use turn_lock::{Pass, Turn};

// A session on its way: its connection, the line that was read last, and what the last turn told.
#[derive(Drop)]
pub(crate) struct Talk {
    pub connection: Connection,
    pub line: Vec<u8>,
    pub text: Vec<u8>,
}

// What a connection does in a turn.
#[derive(Clone, Copy)]
pub(crate) enum Doing {
    Look,
    Hear,
    Lose,
    Cut,
}

// Does one thing in its turn. The line that is heard is the one that was read last.
pub(crate) fn in_turn<T: SharedGame, R: Wait>(
    turn: &Turn<T>,
    rt: &R,
    pass: &mut Pass<T>,
    doing: Doing,
    talk: &mut Talk,
)
    requires idle { IsIdle T.Noted.setting turn.now pass.old }
    requires can { CanDo doing talk.old.connection pass.old.number
        (T.after (T.Noted.setting turn.now.opening) pass.old.seen) }
    ensures idle { IsIdle T.Noted.setting turn.now pass.new × (pass.new.number ≡ pass.old.number) }
    ensures takes { Takes T.Seated (T.Noted.setting turn.now.opening) pass.old.number
        talk.old.connection talk.new.connection pass.old.seen pass.new.seen
        [] talk.new.text.items (heard_by doing talk.old.line.items) }
    ensures leaves { Leaves (T.after (T.Noted.setting turn.now.opening)) pass.old.number doing
        talk.old.connection talk.new.connection pass.new.seen [] talk.new.text.items }
    ensures fits { Fits talk.new.connection pass.old.number
        (T.after (T.Noted.setting turn.now.opening) pass.new.seen) }
{
    let line = talk.line.as_slice();
    turn_with(
        turn,
        rt,
        pass,
        doing,
        line,
        &mut talk.connection,
        &mut talk.text,
    );
}

// Does one thing in its turn, with the line that is heard. The table is marked where memory ran out.
#[tactic(auto, using(crate::proofs::Turning::can_on))]
pub(crate) fn turn_with<T: SharedGame, R: Wait>(
    turn: &Turn<T>,
    rt: &R,
    pass: &mut Pass<T>,
    doing: Doing,
    line: &[u8],
    connection: &mut Connection,
    text: &mut Vec<u8>,
)
    requires idle { IsIdle T.Noted.setting turn.now pass.old }
    requires can { CanDo doing connection.old pass.old.number
        (T.after (T.Noted.setting turn.now.opening) pass.old.seen) }
    ensures idle { IsIdle T.Noted.setting turn.now pass.new × (pass.new.number ≡ pass.old.number) }
    ensures takes { Takes T.Seated (T.Noted.setting turn.now.opening) pass.old.number
        connection.old connection.new pass.old.seen pass.new.seen
        [] text.new.items (heard_by doing line.now) }
    ensures leaves { Leaves (T.after (T.Noted.setting turn.now.opening)) pass.old.number doing
        connection.old connection.new pass.new.seen [] text.new.items }
    ensures fits { Fits connection.new pass.old.number
        (T.after (T.Noted.setting turn.now.opening) pass.new.seen) }
{
    let number = pass.number();
    let mut held = hold::take(turn, rt, pass);
    let before = hold::progress_of(held.value());
    text.clear();
    *connection = act(held.value(), number, doing, *connection, line, text);
    let wanting = matches!(ended_of(*connection, Ended::GameOver), Ended::NoMemory);
    let changed = hold::progress_of(held.value()) != before;
    hold::give_back(turn, pass, held, wanting, changed);
}

// Does one thing, which tells something after what the text has. A table that is marked cuts the connection off.
fn act<T: SharedGame>(
    table: &mut T,
    author: u8,
    doing: Doing,
    connection: Connection,
    line: &[u8],
    text: &mut Vec<u8>,
) -> Connection
    requires can { CanDo doing connection author
        (T.after (T.Seated.setting table.old) (T.history table.old)) }
    ensures setting { T.Seated.setting table.new ≡ T.Seated.setting table.old }
    ensures entries { Follows author_of author (T.history table.old) (T.history table.new) }
    ensures takes { Takes T.Seated (T.Seated.setting table.old) author connection result
        (T.history table.old) (T.history table.new) text.old.items text.new.items
        (heard_by doing line.now) }
    ensures leaves { Leaves (T.after (T.Seated.setting table.old)) author doing connection
        result (T.history table.new) text.old.items text.new.items }
{
    if table.dry() {
        return connection.cut();
    }
    match doing {
        Doing::Look => connection.look(table, text),
        Doing::Hear => hear_on(table, author, connection, line, text),
        Doing::Lose => connection.lose(table, author, text),
        Doing::Cut => connection.cut(),
    }
}

// Lets a line be heard, and then looks at once for what is to be told, where nothing else is waited for.
fn hear_on<T: SharedGame>(
    table: &mut T,
    author: u8,
    connection: Connection,
    line: &[u8],
    text: &mut Vec<u8>,
) -> Connection
    requires listens { Listens connection }
    requires fits { Fits connection author
        (T.after (T.Seated.setting table.old) (T.history table.old)) }
    ensures setting { T.Seated.setting table.new ≡ T.Seated.setting table.old }
    ensures adds { AddsOne author (T.history table.old) (T.history table.new) }
    ensures takes { Takes T.Seated (T.Seated.setting table.old) author connection result
        (T.history table.old) (T.history table.new) text.old.items text.new.items (line.now ∷ []) }
    ensures quiet { IsQuiet (connection ≡ Greeted) result text.old.items text.new.items }
{
    let heard = connection.hear(table, author, line, text);
    match heard {
        Connection::Free(_) => heard.look(table, text),
        _ => heard,
    }
}

// How a session ended by its connection, whose link was lost so, if it was lost.
pub(crate) fn ended_of(connection: Connection, lost: Ended) -> Ended
    ensures { result ≡ ended_of connection lost }
{
    match connection {
        Connection::New => lost,
        Connection::Greeted => lost,
        Connection::Free(_) => lost,
        Connection::Asked(_) => lost,
        Connection::Ended(how) => match how {
            End::Refused(why) => Ended::NotSeated(why),
            End::Over(_) => Ended::GameOver,
            End::Closed(_) => Ended::TooManyRefusals,
            End::Left(_) => lost,
            End::Dry => Ended::NoMemory,
            End::Cut(_) => Ended::NoMemory,
        },
    }
}
