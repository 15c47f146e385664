//! A host in memory to which players come.

ghost use Rattle.std.specs.Prelude.{None};

use crate::board::Board;
use crate::guests::Guests;
use crate::player::PlayerLink;
use mj_links::{Came, FaultCount, Given, Host, Numbered, Opened};
use std::alloc::Global;
use std::sync::atomic::{AtomicU32, Ordering};
use std::time::Duration;
use std::{thread, time};

/// A fault of a host, with the number of the worker that asked.
#[derive(Clone, Copy)]
pub struct Missed {
    by: u8,
}

impl Numbered for Missed {
    ghost number = { λ f. f.by };

    fn by(&self) -> u8 {
        self.by
    }
}

/// A host to which players come, each of whom is told on a board. It tells nothing for proofs.
#[derive(Drop)]
pub struct GuestHost<'a, R> {
    rt: &'a R,
    alloc: Global,
    board: &'a Board,
    guests: Guests,
    given: AtomicU32,
    open_faults: FaultCount,
}

impl<'a, R> GuestHost<'a, R> {
    /// A host to which nobody came yet.
    pub fn new(rt: &'a R, alloc: Global, board: &'a Board, guests: Guests) -> GuestHost<'a, R> {
        GuestHost {
            rt,
            alloc,
            board,
            guests,
            given: AtomicU32::new(0),
            open_faults: FaultCount::new(),
        }
    }

    // Who comes next.
    fn next(&self) -> Option<u32> {
        let player = self.given.fetch_add(1, Ordering::SeqCst);
        if player < self.guests.players {
            self.board.come(player);
            return Some(player);
        }
        self.board.next()
    }
}

impl<'a, R: time::Clock + Sync> Host for GuestHost<'a, R> {
    type Link = PlayerLink<'a, R>;

    type Fault = Missed;

    ghost ports = { λ _. None };

    ghost returned = { λ _. None };

    ghost made_by = { λ _ _. Unit {0} };

    ghost open_faults = { λ h. h.open_faults.count };

    fn open(&mut self, port: u16) -> Opened<Missed> {
        if self.guests.shut {
            self.open_faults = self.open_faults.more();
            return Opened::Failed(Missed { by: u8::MAX });
        }
        Opened::Ready
    }

    fn accept(&self, by: u8) -> Came<PlayerLink<'a, R>, Missed> {
        if let Some(player) = self.next() {
            return match PlayerLink::new(self.rt, self.alloc, self.board, player, self.guests) {
                Ok(link) => Came::Link(link),
                Err(_) => Came::Nothing,
            };
        }
        if self.guests.fails {
            return Came::Failed(Missed { by });
        }
        thread::sleep(self.rt, Duration::from_millis(1));
        Came::Nothing
    }

    fn give_back(&mut self, link: PlayerLink<'a, R>, place: u64) -> Given {
        Given::Kept
    }
}
