ghost use Rattle.std.specs.Prelude.{◌≡◌, ◌≤◌, ◌<◌, ◌∷◌, [], slice_index};
ghost use Rattle.mj_tiles.specs.Faces.{less};
ghost use Rattle.mj_tiles.specs.Counts.{kind_counts};
ghost use Rattle.mj_calls.specs.RiichiKans.{fewer};
ghost use Rattle.mj_readings.specs.Tests.{one_more};
ghost use Rattle.mj_deeds.specs.Facts.{concealed_tiles};
ghost use Rattle.mj_deeds.specs.Hand.{hand};

use mj_table::Table;
use mj_tiles::{Counts, Kind, Tile};

// How often each kind stands among the concealed tiles of a seat less a tile, where that is among them.
pub(crate) fn counts_without(table: &Table, seat: u8, tile: Tile) -> Counts
    requires { seat ≤ 3 }
    ensures { result ≡ kind_counts (less (concealed_tiles (hand table.now.deeds) seat)
        (tile ∷ [])) }
{
    let held = table.holds(seat);
    if table.held_count(seat, tile) == 0 {
        return held;
    }
    without(&held, tile.kind())
}

// The counts with one tile fewer of a kind, or none of it where there is none.
pub(crate) fn without(counts: &Counts, kind: Kind) -> Counts
    ensures { result ≡ fewer counts.now kind 1 }
{
    let mut numbers = *counts.numbers();
    let place = usize::from(kind.number());
    numbers[place] = numbers[place].saturating_sub(1);
    Counts::from_numbers(numbers)
}

// The counts with one tile more of a kind, of which there are fewer than four.
pub(crate) fn with(counts: &Counts, kind: Kind) -> Counts
    requires { slice_index counts.now kind < 4 }
    ensures { result ≡ one_more counts.now kind }
{
    let mut numbers = *counts.numbers();
    numbers[usize::from(kind.number())] += 1;
    Counts::from_numbers(numbers)
}
