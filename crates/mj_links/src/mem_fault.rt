//! The faults of a host in memory.

ghost use Rattle.mj_links.specs.MemFaults.{fault_number};

use crate::host::Numbered;

/// A fault of a host in memory. Its number is that which the failed `accept` was given, and 255 for
/// `open`.
#[derive(Clone, Copy, PartialEq, Eq, Debug)]
pub struct MemFault {
    pub(crate) call: FailedCall,
}

/// The call that failed.
#[derive(Clone, Copy, PartialEq, Eq, Debug)]
pub(crate) enum FailedCall {
    /// The opening of a port.
    Open,
    /// An accept on behalf of the worker with this number. The accepts of a host are counted from 1.
    Accept { by: u8, count: u64 },
}

impl Numbered for MemFault {
    ghost number = { fault_number };

    fn by(&self) -> u8 {
        match self.call {
            FailedCall::Open => u8::MAX,
            FailedCall::Accept { by, count: _ } => by,
        }
    }
}
