//! Where links come from, and for which of many tables they are.

ghost use Rattle.mj_links.specs.Hosts.{ComesFresh, CameFault};

use mj_links::{Came, Host, Link, Numbered};
use mj_ports::{Picked, Picker};
use std::alloc::{AllocError, Global};

/// A host together with what picks the tables for its links, as one value, for threads that need both.
pub trait Door: Picker {
    /// A connection that it hands on.
    type Link: Link + Send + Drop;

    /// Why it failed a handler.
    type Fault: Numbered;

    ghost made_by: { Self → Self.Fault → Type 0 };

    /// Asks for a connection, as the host does.
    fn accept(&self, by: u8) -> Came<Self::Link, Self::Fault>
        ensures fresh { ComesFresh Self.Link.was_read Self.Link.written
            Self.Link.read_faults Self.Link.write_faults result }
        ensures fault { CameFault (made_by self.now) Self.Fault.number by result };
}

/// The door of a host and a picker.
#[derive(Drop)]
pub struct HostDoor<'a, H, P> {
    pub host: &'a H,
    pub picker: &'a P,
}

impl<'a, H: Host, P: Picker> Picker for HostDoor<'a, H, P> {
    ghost picks = { λ d. P.picks d.picker.now };

    fn pick(&self, alloc: Global, line: &[u8]) -> Result<Picked, AllocError> {
        self.picker.pick(alloc, line)
    }
}

impl<'a, H: Host, P: Picker> Door for HostDoor<'a, H, P> {
    type Link = H::Link;

    type Fault = H::Fault;

    ghost made_by = { λ d. H.made_by d.host.now };

    fn accept(&self, by: u8) -> Came<H::Link, H::Fault> {
        self.host.accept(by)
    }
}
