//! A host in memory that gives a link to each of eight workers, and fails once it was asked for very long, and a clock that
//! waits for the sessions of these links.

ghost use Rattle.std.specs.Prelude.{◌≡◌, None};
ghost use Rattle.mj_links.specs.Hosts.{ComesFresh};

use crate::meeting::{Missed, await_count, pause};
use mj_links::{Came, Clock, Given, Host, Link, MemFault, MemHost, MemLink, Opened, Sink, Source};
use std::sync::atomic::{AtomicU32, Ordering};
use std::time;

/// How often no link comes before the host fails.
const NOTHINGS: u32 = 4000;

/// The workers that take the first links, and all workers, as bits.
const FIRST: u32 = 15;

const ALL: u32 = 255;

/// A host with the links of one in memory, which gives one to each worker: to the first four at once, and to the others once
/// those four came again. It waits 20 milliseconds where it gives none, and each accept fails from the 4,000th time on.
#[derive(Drop)]
pub struct PatientHost<'a, R> {
    host: MemHost,
    rt: &'a R,
    served: AtomicU32,
    again: &'a AtomicU32,
    nothings: AtomicU32,
}

impl<'a, R> PatientHost<'a, R> {
    /// A host that notes in `again`, which is 0, the bit of each worker that came again after its link.
    pub fn new(rt: &'a R, again: &'a AtomicU32, host: MemHost) -> PatientHost<'a, R> {
        PatientHost {
            host,
            rt,
            served: AtomicU32::new(0),
            again,
            nothings: AtomicU32::new(0),
        }
    }

    /// How many links were given back.
    pub fn returned(&self) -> usize {
        self.host.returned().len()
    }

    // A link, where one is this worker's.
    fn next(&self, by: u8) -> Came<MemLink, MemFault>
        ensures { ComesFresh ⟦<MemLink as Link>⟧.was_read ⟦<MemLink as Sink>⟧.written
            ⟦<MemLink as Source>⟧.read_faults ⟦<MemLink as Sink>⟧.write_faults result }
    {
        let bit = 1u32.wrapping_shl(u32::from(by));
        if self.served.load(Ordering::SeqCst) & bit != 0 {
            self.again.fetch_or(bit, Ordering::SeqCst);
            return Came::Nothing;
        }
        if bit > FIRST && self.again.load(Ordering::SeqCst) & FIRST != FIRST {
            return Came::Nothing;
        }
        let came = self.host.accept(by);
        if let Came::Link(_) = &came {
            self.served.fetch_or(bit, Ordering::SeqCst);
        }
        came
    }
}

impl<'a, R: time::Clock + Sync> Host for PatientHost<'a, R> {
    type Link = MemLink;

    type Fault = Missed;

    ghost ports = { λ h. ⟦<MemHost as Host>⟧.ports h.host };

    ghost returned = { λ h. ⟦<MemHost as Host>⟧.returned h.host };

    ghost made_by = { λ _ _. Unit {0} };

    ghost open_faults = { λ h. ⟦<MemHost as Host>⟧.open_faults h.host };

    fn open(&mut self, port: u16) -> Opened<Missed> {
        match self.host.open(port) {
            Opened::Ready => Opened::Ready,
            Opened::Failed(_) => Opened::Failed(Missed { by: u8::MAX }),
        }
    }

    fn accept(&self, by: u8) -> Came<MemLink, Missed> {
        if self.nothings.load(Ordering::SeqCst) >= NOTHINGS {
            return Came::Failed(Missed { by });
        }
        match self.next(by) {
            Came::Link(link) => Came::Link(link),
            Came::Nothing => {
                self.nothings.fetch_add(1, Ordering::SeqCst);
                pause(self.rt);
                Came::Nothing
            }
            Came::Failed(_) => Came::Failed(Missed { by }),
        }
    }

    fn give_back(&mut self, link: MemLink, place: u64) -> Given {
        self.host.give_back(link, place)
    }
}

/// A clock that goes on by 1000 at each reading, and makes none until each worker has taken a link and come again.
#[derive(Drop)]
pub struct PatientClock<'a, R> {
    rt: &'a R,
    again: &'a AtomicU32,
    made: u64,
}

impl<'a, R> PatientClock<'a, R> {
    /// A clock that waits until a host has noted all workers in `again`.
    pub fn new(rt: &'a R, again: &'a AtomicU32) -> PatientClock<'a, R> {
        PatientClock { rt, again, made: 0 }
    }
}

impl<'a, R: time::Clock + Sync> Clock for PatientClock<'a, R> {
    ghost readings = { λ _. None };

    fn now(&mut self) -> u64 {
        let _came = await_count(self.rt, self.again, ALL);
        self.made = self.made.saturating_add(1);
        self.made.saturating_mul(1000)
    }
}
