//! A link over TCP.

ghost use Rattle.std.specs.Prelude.{◌≡◌, None, IfSome, refl};
ghost use Rattle.std.specs.Io.{ReadsAtMost, WritesAtMost};
ghost use Rattle.mj_links.specs.Links.{ReadingStays, WritingStays, GivesNone};
ghost use Rattle.mj_links.specs.TcpLinks.{IsStop};

use crate::faults::FaultCount;
use crate::link::Link;
use crate::machine_clock::reading;
use crate::sink::{Put, Sink};
use crate::source::{Got, Source};
use std::io;
use std::io::{ErrorKind, Read, Write};
use std::net::{Shutdown, TcpStream};
use std::thread::yield_now;
use std::time::{Clock, Duration};

/// How long a link waits for its first line, in milliseconds.
const JOIN_MS: u64 = 5_000;

/// How much longer than a window lasts a link waits for a later line, and how long for its peer to take what is written, in
/// milliseconds.
const GRACE_MS: u64 = 30_000;

// How often a read looks for bytes, and lets other threads run, before it waits for some. What a peer sends at once is read so
// without a wait, which costs more than some looks, since a thread has to be woken from it.
const LOOKS: u32 = 50;

// How often a call that the system broke off is made in all.
const TRIES: u32 = 1000;

// How many times 4,096 bytes that nobody wants are read off a stream before it is closed.
const LEFTOVERS: u32 = 16;

// What comes next from a stream, as far as a look at it showed.
#[derive(Clone, Copy)]
pub(crate) enum Ahead {
    Unknown,
    End,
    Fault,
}

/// A link over a TCP stream, with a clock. It tells nothing of the bytes, and each error of the system is a fault. It has
/// patience for a line: reading fails 5 seconds after the last write on it where no line has come yet, and later once the limit
/// of a window and 30 seconds have gone by since then, however many bytes have come. A write fails for which the peer makes
/// room in none of 30 seconds.
#[derive(Drop)]
pub struct TcpLink<'a, R> {
    pub(crate) rt: &'a R,
    // None once the link is shut.
    pub(crate) stream: Option<TcpStream>,
    // Whether calls on the stream wait, as those on a new one do.
    pub(crate) waits: bool,
    // The limit of a window in milliseconds.
    pub(crate) limit: u64,
    // When the last write ended, or the link came.
    pub(crate) since: u64,
    // Whether a line has come.
    pub(crate) joined: bool,
    // How long a read of the stream waits, in milliseconds; 0 where that was not set.
    pub(crate) patience: u64,
    pub(crate) ahead: Ahead,
    pub(crate) read_faults: FaultCount,
    pub(crate) write_faults: FaultCount,
}

/// Has writes on a stream wait no longer than the patience for them. Lines are short, so they are sent as they come. A stream
/// that refuses one of these settings is taken as it is.
pub(crate) fn set_up(stream: &TcpStream) {
    let _ = stream.set_write_timeout(Some(Duration::from_millis(GRACE_MS)));
    let _ = stream.set_nodelay(true);
}

impl<'a, R: Clock> Source for TcpLink<'a, R> {
    ghost left = { λ _. None };

    ghost read_faults = { λ l. l.read_faults.count };

    ghost also_reads = { λ got _ old new.
        WritingStays None None old.write_faults.count new.write_faults.count
        × (IsStop old.ahead → GivesNone got × IsStop new.ahead) };

    fn read(&mut self, into: &mut [u8]) -> Got {
        match self.ahead {
            Ahead::Unknown => {}
            Ahead::End => return Got::End,
            Ahead::Fault => {
                self.read_faults = self.read_faults.more();
                return Got::Failed;
            }
        }
        let patience = if self.joined {
            self.limit.saturating_add(GRACE_MS)
        } else {
            JOIN_MS
        };
        let until = self.since.saturating_add(patience);
        let read = match read_soon(&self.stream, &mut self.waits, into) {
            Some(read) => read,
            None => read_until(
                self.rt,
                &self.stream,
                &mut self.waits,
                until,
                &mut self.patience,
                into,
            ),
        };
        match read {
            Ok(0) => Got::End,
            Ok(count) => {
                self.joined = self.joined | into[..count].contains(&b'\n');
                Got::Bytes(count)
            }
            Err(_) => {
                self.read_faults = self.read_faults.more();
                Got::Failed
            }
        }
    }
}

impl<'a, R: Clock> Sink for TcpLink<'a, R> {
    ghost written = { λ _. None };

    ghost write_faults = { λ l. l.write_faults.count };

    ghost also_writes = { λ _ _ old new.
        ReadingStays None None None None old.read_faults.count new.read_faults.count };

    fn write(&mut self, piece: &[u8]) -> Put {
        match write_some(&self.stream, &mut self.waits, piece) {
            Ok(0) | Err(_) => {
                self.write_faults = self.write_faults.more();
                Put::Failed
            }
            Ok(count) => {
                self.since = reading(self.rt).unwrap_or(self.since);
                Put::Took(count)
            }
        }
    }
}

impl<'a, R: Clock> Link for TcpLink<'a, R> {
    ghost was_read = { λ _. None };

    ghost at_end = { λ l. IsStop l.ahead };

    fn shut(&mut self) {
        close(self.stream.take());
    }

    fn has_ended(&mut self) -> bool {
        if let Ahead::Unknown = self.ahead {
            self.ahead = look_ahead(&self.stream, &mut self.waits);
        }
        match self.ahead {
            Ahead::Unknown => false,
            Ahead::End | Ahead::Fault => true,
        }
    }

    ghost reads_apart = { λ got into old new h. (tt, h.0) };

    ghost ends = { λ got into old new h. h.1 };

    ghost untold = { λ link stop. refl };

    ghost writes_apart = { λ put piece old new h. h };
}

// Has calls on a stream wait, or not.
fn set_waiting(stream: &TcpStream, waits: &mut bool, wanted: bool) -> io::Result<()> {
    if *waits != wanted {
        stream.set_nonblocking(!wanted)?;
        *waits = wanted;
    }
    Ok(())
}

// Reads bytes off a stream that have come, or that come while other threads run for a little. None where there are none, and
// where the stream can't be read so.
fn read_soon(
    stream: &Option<TcpStream>,
    waits: &mut bool,
    into: &mut [u8],
) -> Option<io::Result<usize>>
    ensures { IfSome result (λ r. ReadsAtMost r into.new) }
{
    let Some(stream) = stream else {
        return None;
    };
    if set_waiting(stream, waits, false).is_err() {
        return None;
    }
    let mut stream = stream;
    for _ in 0..LOOKS {
        let read = stream.read(into);
        if !has_failed_by(&read, ErrorKind::WouldBlock)
            && !has_failed_by(&read, ErrorKind::Interrupted)
        {
            return Some(read);
        }
        yield_now();
    }
    None
}

// Reads some bytes off a stream, and waits for them no longer than until the clock shows this. What has come by then is read
// even later.
fn read_until<R: Clock>(
    rt: &R,
    stream: &Option<TcpStream>,
    waits: &mut bool,
    until: u64,
    patience: &mut u64,
    into: &mut [u8],
) -> io::Result<usize>
    ensures { ReadsAtMost result into.new }
{
    let Some(stream) = stream else {
        return Err(io::Error::from(ErrorKind::NotConnected));
    };
    set_waiting(stream, waits, true)?;
    for _ in 1..TRIES {
        let read = read_once(rt, stream, until, patience, into);
        if !is_ended_early(rt, &read, until) {
            return read;
        }
        *patience = 0;
    }
    read_once(rt, stream, until, patience, into)
}

// Reads once. A stream that would wait too long is told how long it may; one that has less patience keeps it, which costs no
// call of the system before the read.
fn read_once<R: Clock>(
    rt: &R,
    mut stream: &TcpStream,
    until: u64,
    patience: &mut u64,
    into: &mut [u8],
) -> io::Result<usize>
    ensures { ReadsAtMost result into.new }
{
    let left = until.saturating_sub(reading(rt).unwrap_or(0)).max(1);
    if *patience == 0 || left < *patience {
        let _ = stream.set_read_timeout(Some(Duration::from_millis(left)));
        *patience = left;
    }
    stream.read(into)
}

// Looks what comes next from a stream, without waiting. An error that a read would have met is met here, and kept.
fn look_ahead(stream: &Option<TcpStream>, waits: &mut bool) -> Ahead {
    let Some(stream) = stream else {
        return Ahead::Fault;
    };
    if set_waiting(stream, waits, false).is_err() {
        return Ahead::Unknown;
    }
    let mut byte = [0; 1];
    match stream.peek(&mut byte) {
        Ok(0) => Ahead::End,
        Ok(_) => Ahead::Unknown,
        Err(error) => match error.kind() {
            ErrorKind::WouldBlock | ErrorKind::Interrupted => Ahead::Unknown,
            _ => Ahead::Fault,
        },
    }
}

// Whether a read was broken off by the system, or ended by the stream's own patience before the clock shows this.
fn is_ended_early<R: Clock>(rt: &R, read: &io::Result<usize>, until: u64) -> bool {
    match read {
        Ok(_) => false,
        Err(error) => match error.kind() {
            ErrorKind::Interrupted => true,
            ErrorKind::WouldBlock => reading(rt).unwrap_or(until) < until,
            _ => false,
        },
    }
}

// Writes some bytes of a piece, and waits for room where there is none.
fn write_some(stream: &Option<TcpStream>, waits: &mut bool, piece: &[u8]) -> io::Result<usize>
    ensures { WritesAtMost result piece.now }
{
    let Some(stream) = stream else {
        return Err(io::Error::from(ErrorKind::NotConnected));
    };
    let mut stream = stream;
    for _ in 1..TRIES {
        let written = stream.write(piece);
        if has_failed_by(&written, ErrorKind::WouldBlock) && !*waits {
            set_waiting(stream, waits, true)?;
        } else if !has_failed_by(&written, ErrorKind::Interrupted) {
            return written;
        }
    }
    stream.write(piece)
}

// Whether a call failed by this. The system breaks calls off, as Interrupted, where a process is stopped and goes on.
fn has_failed_by(done: &io::Result<usize>, kind: ErrorKind) -> bool {
    match done {
        Ok(_) => false,
        Err(error) => error.kind() == kind,
    }
}

// Ends a stream, and lets its descriptor go. Bytes that came and weren't read are read off first, since with them there the
// system would take back what was written. An error here means that the peer is gone already.
fn close(stream: Option<TcpStream>) {
    let Some(mut stream) = stream else {
        return;
    };
    let _ = stream.shutdown(Shutdown::Write);
    let _ = stream.set_nonblocking(true);
    let mut rest = [0; 4096];
    for _ in 0..LEFTOVERS {
        match stream.read(&mut rest) {
            Ok(0) | Err(_) => return,
            Ok(_) => {}
        }
    }
}
