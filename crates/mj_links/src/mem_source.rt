//! A source in memory, some of whose reads fail as planned.

ghost use Rattle.std.specs.Prelude.{◌≡◌, ◌<◌, ◌≤◌, ◌++◌, [], length, min, take, Some};

use crate::faults::FaultCount;
use crate::plan::Plan;
use crate::source::{Got, Source};

/// A source in memory. A read gives as many bytes as are left and fit. Reads are counted from 1, and a
/// read whose number is in the list fails.
#[derive(Drop)]
pub struct MemSource {
    bytes: Vec<u8>,
    at: usize,
    plan: Plan,
    faults: FaultCount,
    ghost within: { at ≤ length bytes.items },
}

impl MemSource {
    ghost use Rattle.mj_links.specs.Memory.{IsNewPlan};
    ghost use Rattle.mj_links.specs.MemObjects.{gone, read_plan};

    /// A source of these bytes, whose reads of these numbers fail.
    pub fn new(bytes: Vec<u8>, reads: Vec<u64>) -> MemSource
        ensures left { ⟦<MemSource as Source>⟧.left result ≡ Some bytes.items }
        ensures faults { ⟦<MemSource as Source>⟧.read_faults result ≡ 0 }
        ensures gone { gone result ≡ [] }
        ensures planned { IsNewPlan (read_plan result) reads.items }
    {
        MemSource {
            bytes,
            at: 0,
            plan: Plan::new(reads),
            faults: FaultCount::new(),
        }
    }
}

impl Source for MemSource {
    ghost use Rattle.mj_links.specs.Memory.{CountsCall, mem_read, next_fails};
    ghost use Rattle.mj_links.specs.MemObjects.{unread, gone, read_plan, source_faults};
    ghost use Rattle.mj_links.specs.Sources.{Reads, CountsReadFault, got_bytes};

    ghost left = { λ s. Some (unread s) };

    ghost read_faults = { source_faults };

    #[tactic(auto, using(crate::proofs::MemoryLaws::moving))]
    fn read(&mut self, into: &mut [u8]) -> Got
        requires { 0 < length into.old }
        ensures bytes { Reads result (Some (unread self.old)) (Some (unread self.new)) into.new }
        ensures faults { CountsReadFault result (source_faults self.old) (source_faults self.new) }
        ensures exact { result ≡ mem_read (next_fails (read_plan self.old)) (unread self.old)
            (length into.old) }
        ensures counted { CountsCall (read_plan self.old) (read_plan self.new) }
        ensures gone { gone self.new ≡ gone self.old ++ got_bytes result into.new }
    {
        if self.plan.next_fails() {
            self.faults = self.faults.more();
            return Got::Failed;
        }
        let rest = &self.bytes[self.at..];
        if rest.is_empty() {
            return Got::End;
        }
        let count = copy_front(rest, into);
        self.at += count;
        Got::Bytes(count)
    }
}

// Copies as many bytes as fit to the front of a buffer, and says how many.
#[tactic(auto, using(crate::proofs::MemoryLaws::front_copied))]
fn copy_front(from: &[u8], into: &mut [u8]) -> usize
    ensures count { result ≡ min (length into.old) (length from.now) }
    ensures copied { take result into.new ≡ take result from.now }
    ensures kept { length into.new ≡ length into.old }
{
    let count = into.len().min(from.len());
    into[..count].copy_from_slice(&from[..count]);
    count
}
