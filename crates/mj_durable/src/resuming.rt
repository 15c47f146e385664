//! How games go on from where their journals ended.

ghost use Rattle.std.specs.Prelude.{◌≡◌, vec_capacity};
ghost use Rattle.mj_ticker.specs.Beside.{Matches};
ghost use Rattle.mj_durable.specs.Inner.Steps.{Resumes, GoesOn, written_as, stop_in, worse};

use mj_core::Core;
use mj_journal::Disk;
use mj_ports::{Left, Seated};
use mj_written::{Foreseen, Stop, Written, vacate};
use std::alloc::Global;

/// In each game that isn't over each seat that is present leaves, since its connection is gone.
pub(crate) fn resume_all<D: Disk + Drop + Send>(
    alloc: Global,
    games: &mut Vec<Written<Core, D>>,
) -> Left
    ensures games { Matches (Resumes result) games.old.items games.new.items }
    ensures room { vec_capacity games.new ≡ vec_capacity games.old }
{
    let Some(mut game) = games.pop() else {
        return Left::Gone;
    };
    match resume_all(alloc, games) {
        Left::Gone => {
            let left = resume(alloc, &mut game);
            games.push_reserved(game);
            left
        }
        Left::NoMemory => {
            games.push_reserved(game);
            Left::NoMemory
        }
    }
}

fn resume<G: Foreseen, D: Disk + Drop + Send>(alloc: Global, game: &mut Written<G, D>) -> Left
    ensures { GoesOn (written_as G.Seated) result game.old game.new }
{
    if game.over() {
        return Left::Gone;
    }
    vacate(game, alloc)
}

/// Why some of the games are stopped, a fault of a disk before want of memory; None where all go on.
pub(crate) fn stop_of<D: Disk + Drop + Send>(games: &[Written<Core, D>]) -> Option<Stop>
    ensures { result ≡ stop_in games.now }
{
    let [game, others @ ..] = games else {
        return None;
    };
    worse(game.stopped(), stop_of(others))
}

fn worse(one: Option<Stop>, other: Option<Stop>) -> Option<Stop>
    ensures { result ≡ worse one other }
{
    match one {
        Some(Stop::DiskFault) => Some(Stop::DiskFault),
        Some(Stop::NoMemory) => match other {
            Some(Stop::DiskFault) => Some(Stop::DiskFault),
            Some(Stop::NoMemory) => Some(Stop::NoMemory),
            None => Some(Stop::NoMemory),
        },
        None => other,
    }
}
