//! What players were told, as a test sees it after a run, however that ended, and what they tell each other in the run.

use mj_durable::SeatLog;
use std::alloc::{AllocError, Global};
use std::sync::Mutex;
use std::sync::atomic::{AtomicU32, Ordering};
use std::time::Duration;
use std::{thread, time};

/// What each of some players was told of its game, on its links of this run: the lines of deeds, from the first one on; and how
/// often seats were taken, taken back and left.
#[derive(Drop)]
pub struct Board {
    players: u32,
    told: Vec<Mutex<Vec<u8>>>,
    seats_taken: AtomicU32,
    seats_back: AtomicU32,
    seats_left: AtomicU32,
    // How many links were told of their game.
    back: AtomicU32,
    // How many deeds there were when a player answered first; 0 where none has.
    kept: AtomicU32,
    // How often a player was told something wrong.
    wrong: AtomicU32,
    // The players who have links, and those who are wanted, as bits, and the player of each seat, as a byte.
    here: AtomicU32,
    wanted: AtomicU32,
    seats: AtomicU32,
}

fn bit(player: u32) -> u32 {
    1u32.wrapping_shl(player)
}

fn lines(text: &[u8]) -> u32 {
    let mut count = 0u32;
    for byte in text {
        if *byte == b'\n' {
            count = count.saturating_add(1);
        }
    }
    count
}

impl Board {
    /// For so many players, none of whom was told anything.
    pub fn new(alloc: Global, players: u32) -> Result<Board, AllocError> {
        let mut told = Vec::new(alloc);
        for _ in 0..players {
            told.push(Mutex::new(Vec::new(alloc)))?;
        }
        Ok(Board {
            players,
            told,
            seats_taken: AtomicU32::new(0),
            seats_back: AtomicU32::new(0),
            seats_left: AtomicU32::new(0),
            back: AtomicU32::new(0),
            kept: AtomicU32::new(0),
            wrong: AtomicU32::new(0),
            here: AtomicU32::new(0),
            wanted: AtomicU32::new(0),
            seats: AtomicU32::new(0),
        })
    }

    /// Whether seats were so often taken, taken back and left.
    pub fn has_seen(&self, taken: u32, back: u32, left: u32) -> bool {
        self.seats_taken.load(Ordering::SeqCst) == taken
            && self.seats_back.load(Ordering::SeqCst) == back
            && self.seats_left.load(Ordering::SeqCst) == left
    }

    /// Puts a line at a place of what a player was told, or finds it there; else the player is told something wrong. Each
    /// player's link is one thread's at a time.
    pub fn add(&self, player: u32, place: usize, line: &[u8]) {
        if !self.has_put(player, place, line) {
            self.tell_wrong();
        }
    }

    fn has_put(&self, player: u32, place: usize, line: &[u8]) -> bool {
        let Some(told) = self.told.get(player as usize) else {
            return false;
        };
        let Some(mut told) = told.try_lock() else {
            return false;
        };
        if told.len() == place {
            return told.extend_from_slice(line).is_ok();
        }
        match told.get(place..) {
            Some(rest) => rest.starts_with(line),
            None => false,
        }
    }

    /// A player was told something wrong.
    pub fn tell_wrong(&self) {
        self.wrong.fetch_add(1, Ordering::SeqCst);
    }

    /// Whether no player was told anything wrong.
    pub fn is_right(&self) -> bool {
        self.wrong.load(Ordering::SeqCst) == 0
    }

    /// A link was told of its game.
    pub fn come_back(&self) {
        self.back.fetch_add(1, Ordering::SeqCst);
    }

    /// Waits until as many links as there are players were told of their game, for so many pauses of a tenth of a millisecond.
    pub fn await_all<R: time::Clock>(&self, rt: &R, pauses: u32) {
        for _ in 0..pauses {
            if self.back.load(Ordering::SeqCst) >= self.players {
                return;
            }
            thread::sleep(rt, Duration::from_micros(100));
        }
    }

    /// A player answers, who was told so many deeds.
    pub fn answer(&self, deeds: u32) {
        if self.kept.load(Ordering::SeqCst) == 0 {
            self.kept.store(deeds, Ordering::SeqCst);
        }
    }

    /// A player has a link.
    pub fn come(&self, player: u32) {
        self.here.fetch_or(bit(player), Ordering::SeqCst);
    }

    /// A player has this seat, of 0 to 3.
    pub fn sit(&self, player: u32, seat: u32) {
        let byte = player.wrapping_shl(seat.wrapping_mul(8));
        self.seats.fetch_or(byte, Ordering::SeqCst);
    }

    /// A player's link ends, since the one with this seat is to answer, who comes where it has no link.
    pub fn leave(&self, player: u32, seat: u32) {
        let seats = self.seats.load(Ordering::SeqCst);
        let other = bit(seats.wrapping_shr(seat.wrapping_mul(8)) & 255);
        let here = self.here.fetch_and(!bit(player), Ordering::SeqCst);
        self.wanted.fetch_or(other & !here, Ordering::SeqCst);
    }

    /// The player who is wanted, and has a link from now on.
    pub fn next(&self) -> Option<u32> {
        let wanted = self.wanted.load(Ordering::SeqCst);
        self.here.fetch_or(wanted, Ordering::SeqCst);
        let taken = self.wanted.fetch_and(!wanted, Ordering::SeqCst) & wanted;
        if taken == 0 {
            return None;
        }
        Some(taken.trailing_zeros())
    }

    /// Whether a player was told all this, and perhaps more, and all of it was there when a player answered first; or it was
    /// told nothing at all, since the others have played to the end before it was back.
    pub fn goes_on(&self, player: u32, before: &Board) -> bool {
        let (Some(told), Some(was)) = (
            self.told.get(player as usize),
            before.told.get(player as usize),
        ) else {
            return false;
        };
        match (told.try_lock(), was.try_lock()) {
            (Some(told), Some(was)) => {
                self.has_kept(lines(was.as_slice()))
                    && (told.is_empty() || told.starts_with(was.as_slice()))
            }
            _ => false,
        }
    }

    // Whether there were so many deeds when a player answered first, if any has.
    fn has_kept(&self, deeds: u32) -> bool {
        let kept = self.kept.load(Ordering::SeqCst);
        kept == 0 || deeds <= kept
    }
}

impl SeatLog for Board {
    fn taken(&self, table: usize, seat: u8, line: &[u8]) {
        self.seats_taken.fetch_add(1, Ordering::SeqCst);
    }

    fn taken_back(&self, table: usize, seat: u8) {
        self.seats_back.fetch_add(1, Ordering::SeqCst);
    }

    fn left(&self, table: usize, seat: u8) {
        self.seats_left.fetch_add(1, Ordering::SeqCst);
    }
}
