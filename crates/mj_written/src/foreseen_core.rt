ghost use Rattle.mj_written.specs.Hearing.{present_is_heard};

use crate::foreseen::Foreseen;
use mj_core::Core;
use mj_ports::{Expiry, SitAnswer};
use std::alloc::Global;

// A game of riichi says beforehand what a call on it would come to.
impl Foreseen for Core {
    fn would_sit(&self, alloc: Global, line: &[u8]) -> SitAnswer {
        Core::would_sit(self, alloc, line)
    }

    fn would_expire(&self, window: u32, t1: u64, t2: u64) -> Expiry {
        Core::would_expire(self, window, t1, t2)
    }

    ghost is_heard = { λ setting entries author seat answer here.
        present_is_heard setting entries author seat answer here };
}
