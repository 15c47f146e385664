//! A table and a referee for four-player riichi mahjong over mjai: `riichi_table referee SEAT` reads the arrivals of a game from
//! standard input and writes what the game tells the connection of that seat; `riichi_table serve --seed HEX` plays a game with
//! whoever connects to a port of this machine, and writes its record; `riichi_table tables --seed HEX --rooms N` plays several
//! games side by side, each at a table of its own, and writes their records; `riichi_table replay` reads a record from
//! standard input and writes what it comes to; `riichi_table hand WORDS` writes the shanten,
//! the target and the waits of the hand that the words name; `riichi_table selfplay N` writes what the game of four built-in
//! players with the walls of a number comes to; `riichi_table observe` reads a record and writes what a watcher without tiles is
//! told of it; `riichi_table keep SEAT` is `referee SEAT` over a game whose entries stand in the file `riichi.journal`, and goes on
//! where that ends; `riichi_table safe SEAT` reads arrivals and writes which tiles the seat may discard that can't be won on;
//! `riichi_table host --seed HEX` is `serve`, or with `--rooms N` is `tables`, over games whose entries stand in the files of
//! journals, and goes on where these end; `riichi_table record` reads a journal and writes the record of its game so far.
#![tactic(auto)]

ghost use Rattle.std.specs.Prelude.{◌≡◌, IfOk, length};
ghost use Rattle.mj_durable.specs.Rooms.{AreWithin, count_of};

mod announced;
mod stderr_log;

use announced::Announced;
use mj_durable::{Hosted, Rooms, host_games, hosted_of, is_for_host, status_of_host};
use mj_front::{Status, exit_code, run, status_text};
use mj_journal::FileDisk;
use mj_links::{MachineClock, ReaderSource, TcpHost, WriterSink};
use mj_record::{is_for_record, run_record};
use mj_words::{serving_of, tables_of};
use std::alloc::{AllocError, Global};
use std::env;
use std::io::{ErrorKind, Write};
use std::process::ExitCode;
use stderr_log::StderrLog;

// How the program is called with the words that `run` doesn't know.
const USAGE: &[u8] =
    b"usage: riichi_table host --seed HEX [--limit MS] [--port N] [--draws] [--red] [--rooms N] | record\n";

fn main(rt: HostRuntime) -> ExitCode {
    let alloc = rt.alloc();
    let source = &mut ReaderSource::new(rt.stdin());
    let sink = &mut WriterSink::new(rt.stdout());
    let clock = &mut MachineClock::new(&rt);
    let status = match asked_by(&rt, alloc) {
        Ok(Asked::Host(hosted)) => match disks_for(&rt, alloc, hosted.rooms) {
            Ok(mut disks) => {
                let host = TcpHost::new(&rt, hosted.serving.limit);
                let mut host = Announced::new(&rt, alloc, host);
                let log = StderrLog::new(&rt, alloc, hosted.rooms);
                let end = host_games(
                    &rt, alloc, &hosted, sink, &mut host, clock, &mut disks, &log,
                );
                status_of_host(end)
            }
            Err(_) => Status::NoMemory,
        },
        Ok(Asked::Record(words)) => run_record(alloc, words.as_slice(), source, sink),
        Ok(Asked::Other(words)) => run(
            &rt,
            alloc,
            words.as_slice(),
            source,
            sink,
            &mut TcpHost::new(&rt, limit_of(alloc, words.as_slice())),
            clock,
            &mut FileDisk::new(&rt),
        ),
        Err(_) => Status::NoMemory,
    };
    if let Ok(text) = status_text(alloc, &status) {
        let _ = rt.stderr().write_all(text.as_slice());
    }
    if let Status::Words = status {
        let _ = rt.stderr().write_all(USAGE);
    }
    ExitCode::from(exit_code(&status))
}

// What the words after the program's name ask for.
#[derive(Drop)]
enum Asked {
    // Games that are hosted.
    Host(Hosted),
    // The record of a journal, by words whose first is `record`.
    Record(Vec<String>),
    // Another command, or none.
    Other(Vec<String>),
}

fn asked_by(rt: &HostRuntime, alloc: Global) -> Result<Asked, AllocError> {
    let words = words(rt)?;
    if is_for_host(words.as_slice()) {
        return match hosted_of(alloc, words.as_slice())? {
            Some(hosted) => Ok(Asked::Host(hosted)),
            None => Ok(Asked::Other(words)),
        };
    }
    if is_for_record(words.as_slice()) {
        return Ok(Asked::Record(words));
    }
    Ok(Asked::Other(words))
}

// A file for the journal of each table.
fn disks_for(
    rt: &HostRuntime,
    alloc: Global,
    rooms: Rooms,
) -> Result<Vec<FileDisk<&HostRuntime>>, AllocError>
    requires { AreWithin rooms }
    ensures { IfOk result (λ disks. length disks.items ≡ count_of rooms) }
{
    let mut disks = Vec::new(alloc);
    if rooms.count() == 1 {
        disks.push(FileDisk::new(rt))?;
        return Ok(disks);
    }
    for table in 0..rooms.count() {
        disks.push(FileDisk::of_table(rt, table))?;
    }
    Ok(disks)
}

// How many milliseconds a player of the games that the words ask for has for an answer; 0 where they ask for none.
fn limit_of(alloc: Global, words: &[String]) -> u64 {
    if let Ok(Some(serving)) = serving_of(alloc, words) {
        return serving.limit;
    }
    match tables_of(alloc, words) {
        Ok(Some(hosting)) => hosting.serving.limit,
        Ok(None) | Err(_) => 0,
    }
}

// The words after the program's name. Where one of them is no text there are none, for no command has such a word.
fn words(rt: &HostRuntime) -> Result<Vec<String>, AllocError> {
    let mut words = Vec::new(rt.alloc());
    match env::args(rt) {
        Ok(args) => {
            for word in args.skip(1) {
                words.push(word)?;
            }
            Ok(words)
        }
        Err(error) if error.kind() == ErrorKind::OutOfMemory => Err(AllocError),
        Err(_) => Ok(words),
    }
}
