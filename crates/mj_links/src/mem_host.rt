//! A host in memory, some of whose accepts fail as planned.

ghost use Rattle.std.specs.Prelude.{◌≡◌, ℕ, [], All, Some};
ghost use Rattle.mj_links.specs.MemHosts.{host_ports, host_returned, host_open_fails, host_accepts, failed_openings, IsMadeBy};

use crate::faults::FaultCount;
use crate::host::{Came, Given, Host, Opened};
use crate::mem_fault::{FailedCall, MemFault};
use crate::mem_link::MemLink;
use crate::waiting::Waiting;
use std::sync::Mutex;
use std::sync::atomic::{AtomicU64, Ordering};

/// A host in memory. Its links come in their order, and then none does. Accepts are counted from 1, and
/// an accept whose number is in the list fails. An `open` that finds no memory fails too.
#[derive(Drop)]
pub struct MemHost {
    waiting: Mutex<Waiting>,
    accepted: AtomicU64,
    accepts: Vec<u64>,
    open_fails: bool,
    failed: FaultCount,
    ports: Vec<u16>,
    returned: Vec<(MemLink, u64)>,
}

impl MemHost {
    ghost use Rattle.mj_links.specs.FreshLinks.{IsFreshLink};

    /// A host with these links, on which nothing was read and nothing is written, whose `open` fails or
    /// does not, and whose accepts of these numbers fail. No port is opened and no link returned yet.
    pub fn new(links: Vec<MemLink>, open_fails: bool, accepts: Vec<u64>) -> MemHost
        requires { All IsFreshLink links.items }
        ensures ports { ⟦<MemHost as Host>⟧.ports result ≡ Some [] }
        ensures returned { ⟦<MemHost as Host>⟧.returned result ≡ Some [] }
        ensures open_fails { host_open_fails result ≡ open_fails }
        ensures accepts { host_accepts result ≡ accepts.items }
        ensures failed { failed_openings result ≡ 0 }
    {
        let alloc = *accepts.allocator();
        MemHost {
            waiting: Mutex::new(Waiting::new(links)),
            accepted: AtomicU64::new(0),
            accepts,
            open_fails,
            failed: FaultCount::new(),
            ports: Vec::new(alloc),
            returned: Vec::new(alloc),
        }
    }

    /// The ports that were to be opened, oldest first.
    pub fn ports(&self) -> &[u16]
        ensures { ⟦<MemHost as Host>⟧.ports self.now ≡ Some result.now }
    {
        &self.ports
    }

    /// The links that were given back, each with the place of its connection, oldest first.
    pub fn returned(&self) -> &[(MemLink, u64)]
        ensures { ⟦<MemHost as Host>⟧.returned self.now ≡ Some result.now }
    {
        &self.returned
    }
}

impl Host for MemHost {
    ghost use Rattle.std.specs.Prelude.{◌∷◌, List};
    ghost use Rattle.mj_links.specs.Hosts.{OpensPort, OpenFault, CountsOpenFault, GivesBack};
    ghost use Rattle.mj_links.specs.MemFaults.{fault_number};
    ghost use Rattle.mj_links.specs.MemHosts.{OpensAsPlanned, KeepsPlan};
    ghost use Rattle.mj_links.specs.declared.mem_fault.MemFault.{MemFault};

    type Link = MemLink;

    type Fault = MemFault;

    ghost ports = { λ h. Some (host_ports h) };

    ghost returned = { λ h. Some (host_returned h) };

    ghost made_by = { IsMadeBy };

    ghost open_faults = { failed_openings };

    fn open(&mut self, port: u16) -> Opened<MemFault>
        ensures ports { OpensPort result (Some (host_ports self.old)) (Some (host_ports self.new)) port }
        ensures fault { OpenFault (IsMadeBy self.new) fault_number result }
        ensures counted { CountsOpenFault result (failed_openings self.old) (failed_openings self.new) }
        ensures returned { Some (host_returned self.new) ≡ Some (host_returned self.old) }
        ensures made { (f : MemFault) → IsMadeBy self.old f → IsMadeBy self.new f }
        ensures exact { OpensAsPlanned result (host_open_fails self.old) (host_ports self.old)
            (host_ports self.new) port }
        ensures plan { KeepsPlan self.old self.new }
    {
        if self.ports.push(port).is_ok() && !self.open_fails {
            return Opened::Ready;
        }
        self.failed = self.failed.more();
        Opened::Failed(MemFault {
            call: FailedCall::Open,
        })
    }

    fn accept(&self, by: u8) -> Came<MemLink, MemFault> {
        let before = self.accepted.fetch_add(1, Ordering::SeqCst);
        let count = before.wrapping_add(1);
        if self.accepts.contains(&count) {
            return Came::Failed(MemFault {
                call: FailedCall::Accept { by, count },
            });
        }
        match self.waiting.try_lock() {
            Some(mut waiting) => match waiting.next() {
                Some(link) => Came::Link(link),
                None => Came::Nothing,
            },
            // Another thread is just taking a link.
            None => Came::Nothing,
        }
    }

    fn give_back(&mut self, link: MemLink, place: u64) -> Given
        ensures links { GivesBack result (Some (host_returned self.old))
            (Some (host_returned self.new)) (link, place) }
        ensures ports { Some (host_ports self.new) ≡ Some (host_ports self.old) }
        ensures openings { failed_openings self.new ≡ failed_openings self.old }
        ensures made { (f : MemFault) → IsMadeBy self.old f → IsMadeBy self.new f }
        ensures plan { KeepsPlan self.old self.new }
    {
        match self.returned.push((link, place)) {
            Ok(()) => Given::Kept,
            Err(_) => Given::NoMemory,
        }
    }
}
