//! A host that listens on a port of this machine.

ghost use Rattle.std.specs.Prelude.{None};

use crate::faults::FaultCount;
use crate::host::{Came, Given, Host, Numbered, Opened};
use crate::machine_clock::reading;
use crate::pause::pause;
use crate::tcp_link::{Ahead, TcpLink, set_up};
use std::io;
use std::io::ErrorKind;
use std::net::{Ipv4Addr, Net, TcpListener, TcpStream};
use std::time::Clock;

/// A fault of a host that listens. Its number is that which the failed `accept` was given, and 255 for
/// `open`.
#[derive(Clone, Copy, PartialEq, Eq, Debug)]
pub struct TcpFault {
    by: u8,
}

impl Numbered for TcpFault {
    ghost number = { λ f. f.by };

    fn by(&self) -> u8 {
        self.by
    }
}

/// A host that listens on a port of 127.0.0.1. For proofs it counts its failed openings and tells nothing
/// else, and a link that is given back is closed.
#[derive(Drop)]
pub struct TcpHost<'a, R> {
    rt: &'a R,
    limit: u64,
    listener: Option<TcpListener>,
    open_faults: FaultCount,
}

impl<'a, R: Net<Listener = TcpListener, Stream = TcpStream> + Clock + Sync> TcpHost<'a, R> {
    /// A host that does not listen yet, so no connection comes. Its links are patient with players who have so many
    /// milliseconds for an answer.
    pub fn new(rt: &'a R, limit: u64) -> TcpHost<'a, R> {
        TcpHost {
            rt,
            limit,
            listener: None,
            open_faults: FaultCount::new(),
        }
    }
}

impl<'a, R: Net<Listener = TcpListener, Stream = TcpStream> + Clock + Sync> Host
    for TcpHost<'a, R> {
    type Link = TcpLink<'a, R>;

    type Fault = TcpFault;

    ghost ports = { λ _. None };

    ghost returned = { λ _. None };

    // what the system did is not known to a proof
    ghost made_by = { λ _ _. Unit {0} };

    ghost open_faults = { λ h. h.open_faults.count };

    fn open(&mut self, port: u16) -> Opened<TcpFault> {
        match listen(self.rt, port) {
            Ok(listener) => {
                self.listener = Some(listener);
                Opened::Ready
            }
            Err(_) => {
                self.open_faults = self.open_faults.more();
                Opened::Failed(TcpFault { by: u8::MAX })
            }
        }
    }

    fn accept(&self, by: u8) -> Came<TcpLink<'a, R>, TcpFault> {
        match next(&self.listener) {
            Ok(Some(stream)) => Came::Link(TcpLink {
                rt: self.rt,
                stream: Some(stream),
                waits: true,
                limit: self.limit,
                since: reading(self.rt).unwrap_or(0),
                joined: false,
                patience: 0,
                ahead: Ahead::Unknown,
                read_faults: FaultCount::new(),
                write_faults: FaultCount::new(),
            }),
            Ok(None) => {
                pause(self.rt);
                Came::Nothing
            }
            Err(_) => Came::Failed(TcpFault { by }),
        }
    }

    fn give_back(&mut self, _link: TcpLink<'a, R>, _place: u64) -> Given {
        Given::Kept
    }
}

// A listener on a port of this machine, which does not block.
fn listen<R: Net<Listener = TcpListener, Stream = TcpStream>>(
    rt: &R,
    port: u16,
) -> io::Result<TcpListener> {
    let listener = TcpListener::bind(rt, (Ipv4Addr::LOCALHOST, port))?;
    listener.set_nonblocking(true)?;
    Ok(listener)
}

// The next connection of a listener that does not block; none where there is no listener, and where the error may pass.
fn next(listener: &Option<TcpListener>) -> io::Result<Option<TcpStream>> {
    let Some(listener) = listener else {
        return Ok(None);
    };
    match listener.accept() {
        Ok((stream, _)) => {
            set_up(&stream);
            Ok(Some(stream))
        }
        Err(error) if may_pass(&error) => Ok(None),
        Err(error) => Err(error),
    }
}

// Whether an error of `accept` says nothing of later calls: no connection waits, or it was given up or broken before it was
// taken, or the system has no room for it now.
fn may_pass(error: &io::Error) -> bool {
    match error.kind() {
        ErrorKind::WouldBlock
        | ErrorKind::Interrupted
        | ErrorKind::ConnectionAborted
        | ErrorKind::PermissionDenied
        | ErrorKind::OutOfMemory
        | ErrorKind::NetworkDown
        | ErrorKind::NetworkUnreachable
        | ErrorKind::HostUnreachable => true,
        _ => match error.raw_os_error() {
            Some(code) => PASSING.contains(&code),
            None => false,
        },
    }
}

// The codes of such errors that have no kind: the system and the process have no descriptors left (23 and 24), the peer is
// off the network (64) or broke the protocol (71 and 92), there are no buffers (105), the peer's machine is down (112).
const PASSING: [i32; 7] = [23, 24, 64, 71, 92, 105, 112];
