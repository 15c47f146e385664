ghost use Rattle.std.specs.Prelude.{◌≡◌, ◌≤◌, ◌<◌, ◌+◌, ◌*◌, ◌==◌, ℕ, IsTrue, false, true, length, map, sum};
ghost use Rattle.mj_readings.specs.Sets.{set_of_meld};
ghost use Rattle.mj_judge.specs.Measured.{is_measured};
ghost use Rattle.mj_judge.specs.Inner.Ready.{leaves_ready};

use crate::counting::without;
use crate::measure::is_measured;
use crate::scattered::is_scattered;
use mj_readings::is_far;
use mj_shanten::Suits;
use mj_tiles::{Counts, KINDS, Kind, Meld};
use mj_waits::ready;

// Whether some discard leaves the hand ready: told by kinds that stand alone, by its sums, or by how many tiles are missing of
// the nearest complete hand, and else tried kind by kind.
pub(crate) fn leaves_some_ready(counts: &Counts, room: &Counts, melds: &[Meld]) -> bool
    requires { length melds.now ≤ 4 }
    ensures no { result ≡ false → (kind : ℕ) → kind < 34
        → leaves_ready counts.now room.now (length melds.now) kind ≡ false }
    ensures yes { result ≡ true → (kind : ℕ)
        × ((kind < 34) × (leaves_ready counts.now room.now (length melds.now) kind ≡ true)) }
{
    if is_scattered(counts) {
        return false;
    }
    if is_far(counts, melds.len() as u8) {
        return false;
    }
    if !is_measured(counts, room, melds) {
        return some_kind_does(counts, room, melds.len() as u8);
    }
    if is_two_away(counts, room, melds) {
        return false;
    }
    if has_fourteen(counts, melds) {
        return true;
    }
    some_kind_does(counts, room, melds.len() as u8)
}

// The nearest complete hand misses two tiles or more of a hand that shanten is said of: no discard leaves it ready; and
// where it misses fewer of fourteen tiles, one does.
fn is_two_away(counts: &Counts, room: &Counts, melds: &[Meld]) -> bool
    requires few { length melds.now ≤ 4 }
    requires measured { IsTrue (is_measured counts.now room.now (map set_of_meld melds.now)) }
    ensures far { IsTrue result → (kind : ℕ) → kind < 34
        → leaves_ready counts.now room.now (length melds.now) kind ≡ false }
    ensures near { result ≡ false → sum counts.now + 3 * length melds.now ≡ 14 → (kind : ℕ)
        × ((kind < 34) × (leaves_ready counts.now room.now (length melds.now) kind ≡ true)) }
{
    Suits::new(counts, room).missing(melds.len() as u8) > 1
}

// The concealed tiles and three for each meld are fourteen.
fn has_fourteen(counts: &Counts, melds: &[Meld]) -> bool
    requires { length melds.now ≤ 4 }
    ensures { result ≡ (sum counts.now + 3 * length melds.now == 14) }
{
    tiles_of(counts) + 3 * melds.len() as u32 == 14
}

// How many tiles there are.
fn tiles_of(counts: &Counts) -> u32
    ensures value { result ≡ sum counts.now }
    ensures within { result ≤ 8670 }
{
    let mut tiles: u32 = 0;
    for number in counts.numbers() {
        tiles += u32::from(*number);
    }
    tiles
}

// Whether some discard leaves the hand ready, asked of each kind.
fn some_kind_does(counts: &Counts, room: &Counts, melds: u8) -> bool
    ensures no { result ≡ false → (kind : ℕ) → kind < 34
        → leaves_ready counts.now room.now melds kind ≡ false }
    ensures yes { result ≡ true → (kind : ℕ)
        × ((kind < 34) × (leaves_ready counts.now room.now melds kind ≡ true)) }
{
    for number in 0..KINDS as u8 {
        let kind = Kind::at(number);
        if leaves_ready(counts, room, melds, kind) {
            return true;
        }
    }
    false
}

// A tile of the kind is held, and the hand is ready once one is discarded.
fn leaves_ready(counts: &Counts, room: &Counts, melds: u8, kind: Kind) -> bool
    ensures { result ≡ leaves_ready counts.now room.now melds kind }
{
    counts.get(kind) > 0 && ready(&without(counts, kind), room, melds)
}
