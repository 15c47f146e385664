//! The top calls: one run of any command, and one of a command that waits for nobody.

ghost use Rattle.std.specs.Prelude.{◌≡◌, false, map};
ghost use Rattle.std.specs.String.{string_bytes};
ghost use Rattle.mj_words.specs.Asked.{asked_by};
ghost use Rattle.mj_words.specs.Commands.{asked_by_command};
ghost use Rattle.mj_front.specs.Run.{Runs, RunsAny, RunsDisk, MeetsReadFaults, LeavesAlone, begins_with, is_waiting, IsAlone};
ghost use Rattle.mj_hosting.specs.Serve.{Serves, outside};
ghost use Rattle.mj_hosting.specs.Tables.{PlaysAll};
ghost use Rattle.mj_runs.specs.Faults.{CountsReadFaults, CountsWriteFaults};

use crate::hand::write_hand;
use crate::self_game::write_self_play;
use crate::status::{status_of_hand, status_of_self_play};
use mj_checking::{observe_of, replay_of, status_of_replay};
use mj_hosting::{serve_game, serve_tables, status_of_serve};
use mj_journal::Disk;
use mj_links::{Clock, Host, Sink, Source};
use mj_refereeing::{Question, keep_of, referee_of, status_of_keep, status_of_referee};
use mj_runs::Status;
use mj_words::{Command, command_of, serving_of, tables_of};
use std::alloc::Global;
use std::sync::Wait;
use std::thread::Threads;

/// Runs the command that the words ask for, which leave out the program's name. It is `run_alone` for every command that waits
/// for nobody, and for words that ask for nothing.
///
/// `serve --seed HEX`, with 64 hex digits, plays one game with the 200 walls that the seed shuffles over the host: it opens the
/// port that `--port` says, 1 to 65535 and else 11600, takes links, and gives each that asks for a seat one as the table of sitting
/// says. Each window closes by its answers or once `--limit`, 1 to 3600000 and else 10000 milliseconds, has run out. `--draws` puts
/// the draw reasons in force. Once the game is over, or the host has failed each handler, the links of all connections are given
/// back to the host, each with the place of its connection among the entries, and the record is written. The source is left as it
/// was. It may wait for others for ever.
///
/// `tables` has the words of `serve`, and `--rooms`, 1 to 8: so many games are played side by side over the one host, each at a
/// table of its own with 200 walls of its own, the next ones of the seed. A join sits at the table whose room it names, `room1` and so
/// on, and at the first where it names none or `default`. Before the record of each game stands a line with the number of its
/// table.
#[tactic(auto, using(crate::proofs::WaitLaws::any_of, crate::proofs::WaitLaws::left_alone, crate::proofs::WordLaws::unread))]
pub fn run<S: Source, K: Sink, H: Host, C: Clock, D: Disk, R: Threads + Wait + Sync>(
    rt: &R,
    alloc: Global,
    words: &[String],
    source: &mut S,
    sink: &mut K,
    host: &mut H,
    clock: &mut C,
    disk: &mut D,
) -> Status
    ensures run { RunsAny (λ end s. Serves H.Link.was_read H.Link.left H.Link.written
        H.Link.read_faults H.Link.write_faults (H.made_by host.new) H.Fault.number end s
        (outside (H.ports host.old) (H.open_faults host.old) (H.returned host.old) (C.readings clock.old) (K.written sink.old))
        (outside (H.ports host.new) (H.open_faults host.new) (H.returned host.new) (C.readings clock.new) (K.written sink.new)))
        (λ end rooms s. PlaysAll H.Link.was_read H.Link.left H.Link.written
        H.Link.read_faults H.Link.write_faults (H.made_by host.new) H.Fault.number end rooms s
        (outside (H.ports host.old) (H.open_faults host.old) (H.returned host.old) (C.readings clock.old) (K.written sink.old))
        (outside (H.ports host.new) (H.open_faults host.new) (H.returned host.new) (C.readings clock.new) (K.written sink.new)))
        (asked_by (map string_bytes words.now)) result (S.left source.old) (S.left source.new)
        (K.written sink.old) (K.written sink.new) }
    ensures reads { CountsReadFaults result (S.read_faults source.old) (S.read_faults source.new) }
    ensures unread { MeetsReadFaults (asked_by (map string_bytes words.now))
        (S.read_faults source.old) (S.read_faults source.new) }
    ensures writes { CountsWriteFaults result (K.write_faults sink.old) (K.write_faults sink.new) }
    ensures disk { RunsDisk D.told D.may_leave D.moment D.secured_since D.disk_faults (asked_by (map string_bytes words.now)) result
        (S.left source.old) (S.left source.new) (K.written sink.old) (K.written sink.new) disk.old
        disk.new }
    ensures host { LeavesAlone (asked_by (map string_bytes words.now)) (host.new ≡ host.old) }
    ensures clock { LeavesAlone (asked_by (map string_bytes words.now)) (clock.new ≡ clock.old) }
{
    if !is_for_waiting(words) {
        return run_alone(alloc, words, source, sink, disk);
    }
    if begins_with(words, "serve") {
        return match serving_of(alloc, words) {
            Ok(Some(serving)) => status_of_serve(serve_game(
                rt, alloc, &serving, sink, host, clock,
            )),
            Ok(None) => Status::Words,
            Err(_) => Status::NoMemory,
        };
    }
    match tables_of(alloc, words) {
        Ok(Some(hosting)) => status_of_serve(serve_tables(rt, alloc, &hosting, sink, host, clock)),
        Ok(None) => Status::Words,
        Err(_) => Status::NoMemory,
    }
}

/// Whether the first word is that of a command that waits for others: `serve` or `tables`.
pub fn is_for_waiting(words: &[String]) -> bool
    ensures { result ≡ is_waiting (map string_bytes words.now) }
{
    begins_with(words, "serve") || begins_with(words, "tables")
}

// Whether the first word is this one.
fn begins_with(words: &[String], word: &str) -> bool
    ensures { result ≡ begins_with word.now (map string_bytes words.now) }
{
    match words {
        [first, ..] => first.as_str() == word,
        [] => false,
    }
}

/// Runs the command that the words ask for, which leave out the program's name, where it waits for nobody. What ends the run otherwise than well, the
/// status says. Words that ask for no command, or that clap refuses, change nothing.
///
/// `referee SEAT`, with a seat from `0` to `3`, reads the arrivals of a game to their end and then writes what the game tells
/// the connection of that seat. Bytes are written only once all was read.
///
/// `replay` reads a record to its end and then writes how many deeds it has, and the points and the deposits after them, each
/// on a line. Nothing is written of a text that is no record.
///
/// `hand WORDS`, with words that name a hand of thirteen tiles, writes its shanten, its target and its waits, each on a line.
/// Other words are refused. The source is left as it was.
///
/// `selfplay N`, with a decimal number below 2^64 without a leading zero, plays a whole game of four built-in players with the
/// 200 walls that the number shuffles, and writes what it comes to on six lines. The source is left as it was.
///
/// `observe` reads a record to its end and then writes its public view: what a watcher without tiles may see, and each hand in full
/// once it has ended. Nothing is written of a text that is no record.
///
/// `keep SEAT` is `referee SEAT` over a game whose entries stand in a journal on the disk, after the header and the walls
/// that the input has. It goes on where the journal ends, puts the entry of each arrival on the disk before it hears the
/// next one, and then writes what the whole game tells the seat. Nothing else touches the disk.
///
/// `safe SEAT`, with a seat from `0` to `3`, reads arrivals as `referee` does, with its endings. Where the seat has to discard, the
/// newest deed being its draw, reach, chi or pon, it writes a line for each other seat, `against` and its number, and then the
/// kinds that the seat holds and that this one can't win on, as far as the seat can know, or `-`. Elsewhere it writes `not to
/// discard`.
#[tactic(auto, using(crate::proofs::WordLaws::unheard, crate::proofs::WordLaws::untouched, crate::proofs::WordLaws::unread, crate::proofs::WaitLaws::alone_of, crate::proofs::WaitLaws::alone_as))]
pub fn run_alone<S: Source, K: Sink, D: Disk>(
    alloc: Global,
    words: &[String],
    source: &mut S,
    sink: &mut K,
    disk: &mut D,
) -> Status
    requires { is_waiting (map string_bytes words.now) ≡ false }
    ensures run { Runs (asked_by (map string_bytes words.now)) result (S.left source.old)
        (S.left source.new) (K.written sink.old) (K.written sink.new) }
    ensures reads { CountsReadFaults result (S.read_faults source.old) (S.read_faults source.new) }
    ensures unread { MeetsReadFaults (asked_by (map string_bytes words.now))
        (S.read_faults source.old) (S.read_faults source.new) }
    ensures writes { CountsWriteFaults result (K.write_faults sink.old) (K.write_faults sink.new) }
    ensures disk { RunsDisk D.told D.may_leave D.moment D.secured_since D.disk_faults (asked_by (map string_bytes words.now)) result
        (S.left source.old) (S.left source.new) (K.written sink.old) (K.written sink.new) disk.old
        disk.new }
{
    match command_of(alloc, words) {
        Ok(command) => run_command(alloc, &command, source, sink, disk),
        Err(_) => Status::NoMemory,
    }
}

// Runs a command.
fn run_command<S: Source, K: Sink, D: Disk>(
    alloc: Global,
    command: &Command,
    source: &mut S,
    sink: &mut K,
    disk: &mut D,
) -> Status
    requires { IsAlone (asked_by_command command.now) }
    ensures run { Runs (asked_by_command command.now) result (S.left source.old)
        (S.left source.new) (K.written sink.old) (K.written sink.new) }
    ensures reads { CountsReadFaults result (S.read_faults source.old) (S.read_faults source.new) }
    ensures unread { MeetsReadFaults (asked_by_command command.now) (S.read_faults source.old)
        (S.read_faults source.new) }
    ensures writes { CountsWriteFaults result (K.write_faults sink.old) (K.write_faults sink.new) }
    ensures disk { RunsDisk D.told D.may_leave D.moment D.secured_since D.disk_faults (asked_by_command command.now) result
        (S.left source.old) (S.left source.new) (K.written sink.old) (K.written sink.new) disk.old
        disk.new }
{
    match command {
        Command::Referee(seat) => {
            status_of_referee(referee_of(alloc, Question::Script, *seat, source, sink))
        }
        Command::Serve(_) => unreachable!(),
        Command::Tables(_) => unreachable!(),
        Command::Replay => status_of_replay(replay_of(alloc, source, sink)),
        Command::Hand(words) => status_of_hand(write_hand(alloc, words.as_slice(), sink)),
        Command::SelfPlay(number) => status_of_self_play(write_self_play(alloc, *number, sink)),
        Command::Observe => status_of_replay(observe_of(alloc, source, sink)),
        Command::Keep(seat) => status_of_keep(keep_of(alloc, *seat, source, sink, disk)),
        Command::Safe(seat) => {
            status_of_referee(referee_of(alloc, Question::SafeKinds, *seat, source, sink))
        }
        Command::Unknown => Status::Words,
    }
}
