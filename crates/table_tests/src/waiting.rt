//! A host in memory that waits where it has no link, so that those who ask it leave the processors to others.

use crate::meeting::pause;
use mj_links::{Came, Given, Host, MemFault, MemHost, MemLink, Opened};
use std::time;

/// A host with the links of one in memory, which waits 20 milliseconds where it has none.
#[derive(Drop)]
pub struct WaitingHost<'a, R> {
    rt: &'a R,
    host: MemHost,
}

impl<'a, R> WaitingHost<'a, R> {
    /// A host with the links of another one.
    pub fn new(rt: &'a R, host: MemHost) -> WaitingHost<'a, R> {
        WaitingHost { rt, host }
    }

    /// The other one, as it is now.
    pub fn host(&self) -> &MemHost {
        &self.host
    }
}

impl<'a, R: time::Clock + Sync> Host for WaitingHost<'a, R> {
    type Link = MemLink;

    type Fault = MemFault;

    ghost ports = { λ h. ⟦<MemHost as Host>⟧.ports h.host };

    ghost returned = { λ h. ⟦<MemHost as Host>⟧.returned h.host };

    ghost made_by = { λ h. ⟦<MemHost as Host>⟧.made_by h.host };

    ghost open_faults = { λ h. ⟦<MemHost as Host>⟧.open_faults h.host };

    fn open(&mut self, port: u16) -> Opened<MemFault> {
        self.host.open(port)
    }

    fn accept(&self, by: u8) -> Came<MemLink, MemFault> {
        let came = self.host.accept(by);
        if let Came::Nothing = &came {
            pause(self.rt);
        }
        came
    }

    fn give_back(&mut self, link: MemLink, place: u64) -> Given {
        self.host.give_back(link, place)
    }
}
