//! A host whose links wait for one another and for a clock, and that clock.

ghost use Rattle.std.specs.Prelude.{◌≡◌, None};
ghost use Rattle.mj_links.specs.Links.{ReadingStays, WritingStays};

use mj_links::{
    Came, Clock, FaultCount, Given, Got, Host, Link, MemHost, MemLink, Numbered, Opened, Put, Sink,
    Source,
};
use std::sync::atomic::{AtomicU32, Ordering};
use std::time::Duration;
use std::{thread, time};
use test_guests::HELLO;

// What is told to a join that names a room of which there is none.
const NO_ROOM: &str = "{\"type\":\"error\",\"sit\":8,\"message\":\"NoRoom\"}\n";

/// How many turns of a millisecond each waits at most.
const TURNS: u32 = 10_000;

/// What a link waits for.
#[derive(Clone, Copy)]
pub enum Sign {
    /// The host has given out all links.
    AllGiven,
    /// All links were told the first deed.
    AllStarted,
    /// The clock makes the reading that the meeting waits for.
    Asked,
}

/// How far a meeting of so many links has come, each of which has the line of a join of so many bytes with its newline.
#[derive(Drop)]
pub struct Meeting {
    links: u32,
    join: usize,
    given: AtomicU32,
    started: AtomicU32,
    dealt: AtomicU32,
    asked: AtomicU32,
    missed: AtomicU32,
    refused: AtomicU32,
}

impl Meeting {
    pub fn new(links: u32, join: usize) -> Meeting {
        Meeting {
            links,
            join,
            given: AtomicU32::new(0),
            started: AtomicU32::new(0),
            dealt: AtomicU32::new(0),
            asked: AtomicU32::new(0),
            missed: AtomicU32::new(0),
            refused: AtomicU32::new(0),
        }
    }

    /// How many links were told the hello line and that there is no such room, and nothing else before.
    pub fn refused(&self) -> u32 {
        self.refused.load(Ordering::SeqCst)
    }

    // Waits for a sign; false, and noted, where the wait has run out.
    fn awaits<R: time::Clock>(&self, rt: &R, sign: Sign) -> bool {
        let came = match sign {
            Sign::AllGiven => await_count(rt, &self.given, self.links),
            Sign::AllStarted => await_count(rt, &self.started, self.links),
            Sign::Asked => await_count(rt, &self.asked, 1),
        };
        if !came {
            self.missed.store(1, Ordering::SeqCst);
        }
        came
    }

    // Counts what is written on a link, on which there is all this now.
    fn note(&self, piece: &[u8], written: &[u8]) {
        if piece.starts_with(b"{\"type\":\"start_game\"") {
            self.started.fetch_add(1, Ordering::SeqCst);
        }
        if piece.starts_with(b"{\"type\":\"start_kyoku\"") {
            self.dealt.fetch_add(1, Ordering::SeqCst);
        }
        if written.strip_prefix(HELLO.as_bytes()) == Some(NO_ROOM.as_bytes()) {
            self.refused.fetch_add(1, Ordering::SeqCst);
        }
    }
}

/// Waits as long as a host waits for a link.
pub fn pause<R: time::Clock>(rt: &R) {
    thread::sleep(rt, Duration::from_millis(20));
}

/// Whether a count comes so far before 10,000 turns of a millisecond have run out.
pub fn await_count<R: time::Clock>(rt: &R, count: &AtomicU32, wanted: u32) -> bool {
    for _ in 0..TURNS {
        if count.load(Ordering::SeqCst) >= wanted {
            return true;
        }
        thread::sleep(rt, Duration::from_millis(1));
    }
    false
}

/// A link in memory which hands out at most as many bytes a read as the line of a join has, and whose first read and later
/// ones wait for a sign. Where a wait runs out, the read fails. It tells nothing for proofs.
#[derive(Drop)]
pub struct MeetingLink<'a, R> {
    link: MemLink,
    rt: &'a R,
    meeting: &'a Meeting,
    sign: Sign,
    later: Sign,
    read_faults: FaultCount,
    write_faults: FaultCount,
}

impl<'a, R: time::Clock> Source for MeetingLink<'a, R> {
    ghost left = { λ _. None };

    ghost read_faults = { λ l. l.read_faults.count };

    ghost also_reads = { λ _ _ old new.
        WritingStays None None old.write_faults.count new.write_faults.count };

    fn read(&mut self, into: &mut [u8]) -> Got {
        if !self.meeting.awaits(self.rt, self.sign) {
            self.read_faults = self.read_faults.more();
            return Got::Failed;
        }
        self.sign = self.later;
        let room = into.len().min(self.meeting.join.max(1));
        match self.link.read(&mut into[..room]) {
            Got::Bytes(count) => Got::Bytes(count),
            Got::End => Got::End,
            Got::Failed => {
                self.read_faults = self.read_faults.more();
                Got::Failed
            }
        }
    }
}

impl<'a, R> Sink for MeetingLink<'a, R> {
    ghost written = { λ _. None };

    ghost write_faults = { λ l. l.write_faults.count };

    ghost also_writes = { λ _ _ old new.
        ReadingStays None None None None old.read_faults.count new.read_faults.count };

    fn write(&mut self, piece: &[u8]) -> Put {
        match self.link.write(piece) {
            Put::Took(count) => {
                self.meeting.note(piece, self.link.written());
                Put::Took(count)
            }
            Put::Failed => {
                self.write_faults = self.write_faults.more();
                Put::Failed
            }
        }
    }
}

impl<'a, R: time::Clock> Link for MeetingLink<'a, R> {
    ghost was_read = { λ _. None };

    ghost at_end = { λ _. ⊥ };

    fn shut(&mut self) {
        self.link.shut();
    }

    fn has_ended(&mut self) -> bool {
        false
    }

    ghost reads_apart = { λ got into old new h. (tt, h) };

    ghost ends = { λ got into old new h none. absurd none };

    ghost untold = { λ link none. absurd none };

    ghost writes_apart = { λ put piece old new h. h };
}

/// A fault of a host, with the number of the worker that asked.
#[derive(Clone, Copy)]
pub struct Missed {
    pub by: u8,
}

impl Numbered for Missed {
    ghost number = { λ f. f.by };

    fn by(&self) -> u8 {
        self.by
    }
}

/// A host of links that meet, whose first read waits until all were given out and whose later ones wait for a sign. It
/// pauses where it has no link, and fails once a wait has run out.
#[derive(Drop)]
pub struct MeetingHost<'a, R> {
    host: MemHost,
    rt: &'a R,
    meeting: &'a Meeting,
    later: Sign,
}

impl<'a, R> MeetingHost<'a, R> {
    /// A host with the links of another one.
    pub fn new(rt: &'a R, meeting: &'a Meeting, later: Sign, host: MemHost) -> MeetingHost<'a, R> {
        MeetingHost {
            host,
            rt,
            meeting,
            later,
        }
    }

    /// How many links were given back.
    pub fn returned(&self) -> usize {
        self.host.returned().len()
    }
}

impl<'a, R: time::Clock + Sync> Host for MeetingHost<'a, R> {
    type Link = MeetingLink<'a, R>;

    type Fault = Missed;

    ghost ports = { λ _. None };

    ghost returned = { λ _. None };

    ghost made_by = { λ _ _. Unit {0} };

    ghost open_faults = { λ h. ⟦<MemHost as Host>⟧.open_faults h.host };

    fn open(&mut self, port: u16) -> Opened<Missed> {
        match self.host.open(port) {
            Opened::Ready => Opened::Ready,
            Opened::Failed(_) => Opened::Failed(Missed { by: u8::MAX }),
        }
    }

    fn accept(&self, by: u8) -> Came<MeetingLink<'a, R>, Missed> {
        if self.meeting.missed.load(Ordering::SeqCst) != 0 {
            return Came::Failed(Missed { by });
        }
        match self.host.accept(by) {
            Came::Link(link) => {
                self.meeting.given.fetch_add(1, Ordering::SeqCst);
                Came::Link(MeetingLink {
                    link,
                    rt: self.rt,
                    meeting: self.meeting,
                    sign: Sign::AllGiven,
                    later: self.later,
                    read_faults: FaultCount::new(),
                    write_faults: FaultCount::new(),
                })
            }
            Came::Nothing => {
                pause(self.rt);
                Came::Nothing
            }
            Came::Failed(_) => Came::Failed(Missed { by }),
        }
    }

    fn give_back(&mut self, link: MeetingLink<'a, R>, place: u64) -> Given {
        self.host.give_back(link.link, place)
    }
}

/// A clock that goes on by 1000 at each reading. One of them is asked for by the meeting, and made once all links were
/// told the deed that the answers to the first one bring.
#[derive(Drop)]
pub struct AskingClock<'a, R> {
    rt: &'a R,
    meeting: &'a Meeting,
    busy: u32,
    made: u32,
}

impl<'a, R> AskingClock<'a, R> {
    /// A clock that was not read yet, and whose readings are counted from 1.
    pub fn new(rt: &'a R, meeting: &'a Meeting, busy: u32) -> AskingClock<'a, R> {
        AskingClock {
            rt,
            meeting,
            busy,
            made: 0,
        }
    }

    /// How many readings were made.
    pub fn made(&self) -> u32 {
        self.made
    }
}

impl<'a, R: time::Clock + Sync> Clock for AskingClock<'a, R> {
    ghost readings = { λ _. None };

    fn now(&mut self) -> u64 {
        self.made = self.made.saturating_add(1);
        if self.made == self.busy {
            self.meeting.asked.store(1, Ordering::SeqCst);
            let _came = await_count(self.rt, &self.meeting.dealt, self.meeting.links);
        }
        u64::from(self.made).saturating_mul(1000)
    }
}
