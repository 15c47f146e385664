ghost use Rattle.std.specs.Prelude.{◌≡◌, ℕ, ◌<◌, ◌↔◌, IsTrue, nat_lt, slice_index, ◌&&◌, length};
ghost use Rattle.mj_tiles.specs.Kinds.{has_kind, kinds_that};
ghost use Rattle.mj_waits.specs.Waits.{IsWait, is_wait, is_ready};

use mj_readings::completing;
use mj_tiles::{Counts, KINDS, Kind, Kinds};

/// The waits of a hand of concealed tiles with these counts and so many melds: the kinds of which the hand has fewer
/// than its room, four of each kind less the tiles of its melds, and that complete it. A fifth tile of a kind is no
/// wait.
pub fn waits(counts: &Counts, room: &Counts, melds: u8) -> Kinds
    ensures value { result ≡ kinds_that (is_wait counts.now room.now melds) }
    ensures law { (kind : ℕ) → kind < 34
        → (IsTrue (has_kind result kind) ↔ IsWait counts.now room.now melds kind) }
{
    let complete = completing(counts, melds);
    let most = room.numbers();
    if complete.is_empty() {
        return complete;
    }
    let mut kinds = Kinds::none();
    for number in 0..KINDS as u8 {
        let kind = Kind::at(number);
        if waits_on(counts, most, complete, kind) {
            kinds = kinds.with(kind);
        }
    }
    kinds
}

/// Whether the hand has a wait.
pub fn ready(counts: &Counts, room: &Counts, melds: u8) -> bool
    ensures value { result ≡ is_ready counts.now room.now melds }
    ensures law { IsTrue result ↔ ((kind : ℕ)
        × ((kind < 34) × IsWait counts.now room.now melds kind)) }
{
    !waits(counts, room, melds).is_empty()
}

/// Whether the kind is one of those that complete the hand, and the hand has fewer tiles of it than the most by kind.
fn waits_on(counts: &Counts, most: &[u8], complete: Kinds, kind: Kind) -> bool
    requires { length most.now ≡ 34 }
    ensures { result ≡ (nat_lt (slice_index counts.now kind) (slice_index most.now kind)
        && has_kind complete kind) }
{
    complete.has(kind) && counts.get(kind) < most[usize::from(kind.number())]
}
