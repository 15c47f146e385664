//! Games in a room, before their first entry.

ghost use Rattle.std.specs.Prelude.{◌≡◌, [], true, false, IfOk, IfSome};
ghost use Rattle.mj_wall.specs.Places.{is_wall};
ghost use Rattle.turn_lock.specs.Turns.{IsIdle};

use mj_core::Core;
use mj_links::{Came, Host, MemFault, Numbered};
use mj_ports::Seated;
use mj_seats::{Lost, Room};
use mj_tiles::Tile;
use mj_wall::{Rules, Wall};
use std::alloc::{AllocError, Global};
use test_guests::{Crowd, host_of};
use turn_lock::{Noted, Pass, Turn};

// A room with the core of a game.
type Hall = Room<Core, MemFault>;

/// So many places, with a fault of each of these numbers.
pub fn lost(alloc: Global, places: u8, numbers: &[u8]) -> Result<Lost<MemFault>, AllocError> {
    let host = host_of(alloc, Crowd(&[], false, &[1, 2, 3, 4, 5, 6, 7, 8]))?;
    let mut lost = Lost::new(alloc, places)?;
    for number in numbers {
        if let Came::Failed(fault) = host.accept(*number) {
            lost.set(fault);
        }
    }
    Ok(lost)
}

// A room with a game on a wall, before its first entry, with a limit of 1000.
fn hall_on(alloc: Global, wall: Wall, lost: Lost<MemFault>) -> Result<Hall, AllocError>
    requires { is_wall false wall ≡ true }
    ensures { IfOk result (λ hall. hall.game.entries ≡ []) }
{
    Ok(Room {
        game: game_on(alloc, wall)?,
        lost,
        dry: false,
    })
}

fn game_on(alloc: Global, wall: Wall) -> Result<Core, AllocError>
    requires { is_wall false wall ≡ true }
    ensures { IfOk result (λ game. game.entries ≡ []) }
{
    let rules = Rules {
        limit: 1000,
        draws: false,
        red: false,
    };
    Core::new(alloc, vec![in alloc; wall]?, rules)
}

// The wall in tile order. No text names an error for it, since its tiles are right.
fn sorted_wall() -> Result<Wall, AllocError>
    ensures { IfOk result (λ wall. is_wall false wall ≡ true) }
{
    let mut tiles = [Tile::at(0); 136];
    for place in 0..136u8 {
        tiles[usize::from(place)] = Tile::at(place / 4);
    }
    match Wall::read(&tiles, false) {
        Ok(wall) => Ok(wall),
        Err(_) => Err(AllocError),
    }
}

// A room with a game on the wall in tile order, which default answers go on with for very long.
fn sorted_hall(alloc: Global) -> Result<Hall, AllocError>
    ensures { IfOk result (λ hall. hall.game.entries ≡ []) }
{
    let wall = sorted_wall()?;
    hall_on(alloc, wall, Lost::new(alloc, 8)?)
}

// A room with a game on a shuffled wall, which default answers end after some hands, and with faults of these numbers.
fn shuffled_hall(alloc: Global, numbers: &[u8]) -> Result<Hall, AllocError>
    ensures { IfOk result (λ hall. hall.game.entries ≡ []) }
{
    let lost = lost(alloc, 8, numbers)?;
    hall_on(alloc, Wall::shuffled([7; 32], 0, false), lost)
}

/// A turn of a room, and its two passes.
#[derive(Drop)]
pub struct Two<G: Seated, F: Numbered> {
    pub turn: Turn<Room<G, F>>,
    pub first: Pass<Room<G, F>>,
    pub second: Pass<Room<G, F>>,
}

fn two_in<G: Seated, F: Numbered>(alloc: Global, room: Room<G, F>) -> Option<Two<G, F>>
    requires { G.history room.game ≡ [] }
    ensures { IfSome result (λ two. IsIdle ⟦<Room<G, F> as Noted>⟧.setting two.turn two.first
        × IsIdle ⟦<Room<G, F> as Noted>⟧.setting two.turn two.second) }
{
    let Ok((turn, mut passes)) = Turn::new(alloc, room, 2) else {
        return None;
    };
    let second = passes.pop().unwrap();
    let first = passes.pop().unwrap();
    Some(Two {
        turn,
        first,
        second,
    })
}

/// A turn of a room with a game on the wall in tile order.
pub fn sorted_two(alloc: Global) -> Option<Two<Core, MemFault>>
    ensures { IfSome result (λ two. IsIdle ⟦<Room<Core, MemFault> as Noted>⟧.setting two.turn two.first
        × IsIdle ⟦<Room<Core, MemFault> as Noted>⟧.setting two.turn two.second) }
{
    match sorted_hall(alloc) {
        Ok(hall) => two_in(alloc, hall),
        Err(_) => None,
    }
}

/// A turn of a room with a game on a shuffled wall, and with faults of these numbers.
pub fn shuffled_two(alloc: Global, numbers: &[u8]) -> Option<Two<Core, MemFault>>
    ensures { IfSome result (λ two. IsIdle ⟦<Room<Core, MemFault> as Noted>⟧.setting two.turn two.first
        × IsIdle ⟦<Room<Core, MemFault> as Noted>⟧.setting two.turn two.second) }
{
    match shuffled_hall(alloc, numbers) {
        Ok(hall) => two_in(alloc, hall),
        Err(_) => None,
    }
}
