//! A game that says beforehand what a call on it would come to.

ghost use Rattle.std.specs.Prelude.{◌≡◌, ◌≢◌, ◌<◌, ℕ, List, Some};
ghost use Rattle.mj_ports.specs.declared.answers.Heard.TheVariants.{NoMemory};
ghost use Rattle.mj_ports.specs.declared.entry.Entry.{Entry};
ghost use Rattle.mj_core.specs.Calls.{Foresees};

use mj_ports::{Expiry, Seated, SitAnswer};
use std::alloc::Global;

/// A seated game that says beforehand whether a call would add an entry, if memory is had. This is asked of a line that wants a
/// seat and of a window: what a present seat says is entered whatever it is, and so is that it leaves.
pub trait Foreseen: Seated {
    /// What a line that wants a seat would be answered, if memory is had.
    fn would_sit(&self, alloc: Global, line: &[u8]) -> SitAnswer
        ensures { Foresees result (Self.sits (Self.setting self.now) (Self.history self.now) line.now)
            (Self.joins line.now) };

    /// What would come of the window between two readings of the clock.
    fn would_expire(&self, window: u32, t1: u64, t2: u64) -> Expiry
        ensures { result ≡ Self.expires (Self.setting self.now) (Self.history self.now) window t1 t2 };

    // What a present seat says is heard.
    ghost is_heard: { (s : Self.Setting) (es : List (Entry Self.Answer)) (author seat : ℕ)
        (answer : Self.Answer) → (Self.after s es).present seat ≡ Some author
        → Self.hears s es author seat answer ≢ NoMemory };
}
