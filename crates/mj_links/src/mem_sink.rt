//! A sink in memory, some of whose writes fail as planned.

ghost use Rattle.std.specs.Prelude.{◌≡◌, ◌<◌, [], length, Some};
ghost use Rattle.mj_links.specs.MemObjects.{written_bytes, sink_faults, write_plan};
ghost use Rattle.mj_links.specs.Memory.{CountsCall, IsNewPlan, TakesWhole, next_fails};
ghost use Rattle.mj_links.specs.Sinks.{Writes, CountsWriteFault};

use crate::faults::FaultCount;
use crate::plan::Plan;
use crate::sink::{Put, Sink};

/// A sink in memory. A write takes its whole piece. Writes are counted from 1, and a write whose number
/// is in the list fails; one that finds no memory fails too.
#[derive(Drop)]
pub struct MemSink {
    bytes: Vec<u8>,
    plan: Plan,
    faults: FaultCount,
}

impl MemSink {
    /// A sink on which nothing is written yet, whose writes of these numbers fail.
    pub fn new(writes: Vec<u64>) -> MemSink
        ensures written { ⟦<MemSink as Sink>⟧.written result ≡ Some [] }
        ensures faults { ⟦<MemSink as Sink>⟧.write_faults result ≡ 0 }
        ensures planned { IsNewPlan (write_plan result) writes.items }
    {
        MemSink {
            bytes: Vec::new(*writes.allocator()),
            plan: Plan::new(writes),
            faults: FaultCount::new(),
        }
    }

    /// All that is written, oldest first.
    pub fn written(&self) -> &[u8]
        ensures { ⟦<MemSink as Sink>⟧.written self.now ≡ Some result.now }
    {
        &self.bytes
    }
}

impl Sink for MemSink {
    ghost written = { λ s. Some (written_bytes s) };

    ghost write_faults = { sink_faults };

    fn write(&mut self, piece: &[u8]) -> Put
        requires { 0 < length piece.now }
        ensures bytes { Writes result (Some (written_bytes self.old))
            (Some (written_bytes self.new)) piece.now }
        ensures faults { CountsWriteFault result (sink_faults self.old) (sink_faults self.new) }
        ensures whole { TakesWhole result (next_fails (write_plan self.old)) piece.now }
        ensures counted { CountsCall (write_plan self.old) (write_plan self.new) }
    {
        if self.plan.next_fails() || self.bytes.extend_from_slice(piece).is_err() {
            self.faults = self.faults.more();
            return Put::Failed;
        }
        Put::Took(piece.len())
    }
}
