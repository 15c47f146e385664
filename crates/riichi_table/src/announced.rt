//! A host that says on standard error what becomes of its port.

ghost use Rattle.std.specs.Prelude.{◌≡◌};

use mj_links::{Came, Given, Host, Opened};
use std::alloc::Global;
use std::io::Write;
use std::net::{Ipv4Addr, TcpListener};

/// A host on a port of this machine, which is said once it is open; and where it isn't opened, why another opening fails.
#[derive(Drop)]
pub(crate) struct Announced<'a, H> {
    rt: &'a HostRuntime,
    alloc: Global,
    host: H,
}

impl<'a, H: Host> Announced<'a, H> {
    /// A host over this one.
    pub(crate) fn new(rt: &'a HostRuntime, alloc: Global, host: H) -> Announced<'a, H> {
        Announced { rt, alloc, host }
    }
}

// Says on standard error that a port was opened, or why it wasn't.
fn say(rt: &HostRuntime, alloc: Global, port: u16, opened: bool) {
    let text = if opened {
        format!(in alloc; "listening on port {port}\n")
    } else {
        match TcpListener::bind(rt, (Ipv4Addr::LOCALHOST, port)) {
            Ok(_) => format!(in alloc; "port {port} was not opened\n"),
            Err(e) => format!(in alloc; "port {port}: {e}\n"),
        }
    };
    if let Ok(text) = text {
        let _ = rt.stderr().write_all(text.as_bytes());
    }
}

impl<'a, H: Host> Host for Announced<'a, H> {
    type Link = H::Link;

    type Fault = H::Fault;

    ghost ports = { λ a. H.ports a.host };

    ghost returned = { λ a. H.returned a.host };

    ghost made_by = { λ a. H.made_by a.host };

    ghost open_faults = { λ a. H.open_faults a.host };

    fn open(&mut self, port: u16) -> Opened<H::Fault> {
        let opened = self.host.open(port);
        match opened {
            Opened::Ready => say(self.rt, self.alloc, port, true),
            Opened::Failed(_) => say(self.rt, self.alloc, port, false),
        }
        opened
    }

    fn accept(&self, by: u8) -> Came<H::Link, H::Fault> {
        self.host.accept(by)
    }

    fn give_back(&mut self, link: H::Link, place: u64) -> Given {
        self.host.give_back(link, place)
    }
}
