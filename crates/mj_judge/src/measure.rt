ghost use Rattle.std.specs.Prelude.{◌≡◌, ◌≤◌, ◌<◌, ◌==◌, ◌*◌, count_by, flat_map, length, map};
ghost use Rattle.std.specs.List.{list_all};
ghost use Rattle.mj_readings.specs.Sets.{set_of_meld, tiles_of_set, begins_run};
ghost use Rattle.mj_shanten.specs.Room.{is_meld};
ghost use Rattle.mj_tiles.specs.Counts.{all_kinds};
ghost use Rattle.mj_judge.specs.Measured.{is_kind_within, is_measured};

use mj_tiles::{Counts, EAST, Form, KINDS, Kind, Meld};

/// Whether shanten is said of a hand of these concealed tiles, with the room that its melds leave, at most four: its melds
/// are sets, which with the room are four of each kind, and no kind stands more often than its room.
#[tactic(auto, unfolding(crate::specs::Measured::is_measured))]
pub fn is_measured(counts: &Counts, room: &Counts, melds: &[Meld]) -> bool
    requires { length melds.now ≤ 4 }
    ensures { result ≡ is_measured counts.now room.now (map set_of_meld melds.now) }
{
    if !are_sets(melds) {
        return false;
    }
    all_within(counts, room, melds)
}

// Each meld is a run, a triplet or a kan.
fn are_sets(melds: &[Meld]) -> bool
    ensures { result ≡ list_all (λ meld. is_meld (set_of_meld meld)) melds.now }
{
    melds.iter().all(|meld| is_set(meld))
}

// The meld is a run, a triplet or a kan by its form and its first tile.
#[tactic(auto, unfolding(mj_readings::specs::Sets::begins_run))]
fn is_set(meld: &Meld) -> bool
    ensures { result ≡ is_meld (set_of_meld meld.now) }
{
    let low = meld.a.kind().number();
    match meld.form {
        Form::Chi => low < EAST && low % 9 < 7,
        _ => true,
    }
}

// The sets of the melds and the room are four of each kind, and no kind stands more often than its room.
fn all_within(counts: &Counts, room: &Counts, melds: &[Meld]) -> bool
    requires { length melds.now ≤ 4 }
    ensures { result ≡ list_all
        (is_kind_within counts.now room.now (map set_of_meld melds.now))
        all_kinds }
{
    for number in 0..KINDS as u8 {
        if !is_kind_within(counts, room, melds, Kind::at(number)) {
            return false;
        }
    }
    true
}

fn is_kind_within(counts: &Counts, room: &Counts, melds: &[Meld], kind: Kind) -> bool
    requires { length melds.now ≤ 4 }
    ensures { result ≡ is_kind_within counts.now room.now (map set_of_meld melds.now) kind }
{
    let left = room.get(kind);
    left + melded(melds, kind) == 4 && counts.get(kind) <= left
}

// How often the kind stands in the sets of the melds.
fn melded(melds: &[Meld], kind: Kind) -> u8
    requires { length melds.now ≤ 4 }
    ensures value { result ≡ count_by (λ tile. tile == kind)
        (flat_map tiles_of_set (map set_of_meld melds.now)) }
    ensures within { result ≤ 4 * length melds.now }
{
    let mut number = 0;
    for meld in melds {
        number += times_in(meld, kind);
    }
    number
}

// How often the kind stands in the set of a meld.
fn times_in(meld: &Meld, kind: Kind) -> u8
    ensures value { result ≡ count_by (λ tile. tile == kind)
        (tiles_of_set (set_of_meld meld.now)) }
    ensures within { result ≤ 4 }
{
    let (low, number) = (meld.a.kind().number(), kind.number());
    match meld.form {
        Form::Chi => u8::from(low <= number && number < low + 3),
        Form::Pon if number == low => 3,
        Form::Pon => 0,
        _ if number == low => 4,
        _ => 0,
    }
}
