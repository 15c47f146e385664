//! How what there is of games is written to a sink.

ghost use Rattle.std.specs.Prelude.{◌≡◌, ◌<◌, ◌+◌, ◌^◌, OnOk, length};
ghost use Rattle.mj_bytes.specs.Adds.{Adds};
ghost use Rattle.mj_hosting.specs.Plans.{record_of_one, records_from};
ghost use Rattle.mj_hosting.specs.Statuses.{serve_status};
ghost use Rattle.mj_hosting.specs.Rooms.{text_for};
ghost use Rattle.mj_hosting.specs.Steps.{WritesGames, all_over};
ghost use Rattle.mj_runs.specs.Faults.{CountsWriteFaults};

use crate::plays::ServeEnd;
use crate::rooms::Rooms;
use mj_bytes::{push_all, push_number};
use mj_core::Core;
use mj_links::{Sink, WriteAll, write_all};
use std::alloc::{AllocError, Global};

/// Writes what there is of the games of the rooms: the record of the one, or the records of many, in order.
pub fn write_games<K: Sink>(alloc: Global, rooms: Rooms, games: &[Core], sink: &mut K) -> ServeEnd
    ensures games { WritesGames result (text_for rooms) games.now (K.written sink.old) (K.written sink.new) }
    ensures writes { CountsWriteFaults (serve_status result) (K.write_faults sink.old)
        (K.write_faults sink.new) }
{
    let mut text = Vec::new(alloc);
    if add_text(alloc, rooms, games, &mut text).is_err() {
        return ServeEnd::NoMemory;
    }
    match write_all(sink, text.as_slice()) {
        WriteAll::Whole if all_over(games) => ServeEnd::Over,
        WriteAll::Whole => ServeEnd::HostLost,
        WriteAll::Failed => ServeEnd::WriteFault,
    }
}

fn add_text(
    alloc: Global,
    rooms: Rooms,
    games: &[Core],
    text: &mut Vec<u8>,
) -> Result<(), AllocError>
    ensures { OnOk result (Adds text.old.items text.new.items (text_for rooms games.now)) }
{
    match rooms {
        Rooms::One => add_record(alloc, games, text),
        Rooms::Many(_) => add_records(alloc, games, 0, text),
    }
}

// Adds the record of the one game.
fn add_record(alloc: Global, games: &[Core], text: &mut Vec<u8>) -> Result<(), AllocError>
    ensures { OnOk result (Adds text.old.items text.new.items (record_of_one games.now)) }
{
    match games {
        [game, ..] => game.record(alloc, text),
        [] => Ok(()),
    }
}

// Adds the records of games, each behind a line that says its table's number, from this one on.
#[tactic(auto, unfolding(crate::specs::Plans::records_from))]
fn add_records(
    alloc: Global,
    games: &[Core],
    table: u64,
    text: &mut Vec<u8>,
) -> Result<(), AllocError>
    requires { table + length games.now < 2 ^ 64 }
    ensures { OnOk result (Adds text.old.items text.new.items (records_from games.now table)) }
{
    let [game, others @ ..] = games else {
        return Ok(());
    };
    push_all(text, b"table ")?;
    push_number(text, table)?;
    push_all(text, b"\n")?;
    game.record(alloc, text)?;
    add_records(alloc, others, table + 1, text)
}

// Whether all games are over.
fn all_over(games: &[Core]) -> bool
    ensures { result ≡ all_over games.now }
{
    games.iter().all(|game| game.over())
}
