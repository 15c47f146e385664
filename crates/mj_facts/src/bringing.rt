ghost use Rattle.std.specs.Prelude.{◌≡◌, ◌≤◌, ◌<◌, ◌+◌, ◌++◌, ◌∷◌, ℕ, false, nat_le, option_to_list, slice_index};
ghost use Rattle.std.specs.List.{list_all};
ghost use Rattle.mj_tiles.specs.Counts.{all_kinds, number_of};
ghost use Rattle.mj_deeds.specs.Fits.{brought_by};
ghost use Rattle.mj_deeds.specs.Hand.{is_hand_start};

use mj_deeds::{Deed, Hands, brought, is_hand_start};
use mj_tiles::{KINDS, Tile};

// Brings the tiles of a deed into a hand, of which so many of each kind were brought in; a number above 255 counts as
// 255.
pub(crate) fn bring(brought: &mut [u8; KINDS], deed: &Deed)
    ensures { (kind : ℕ) → slice_index brought.old kind + number_of (brought_by deed.now) kind
        ≤ 255 → slice_index brought.new kind ≡ slice_index brought.old kind
        + number_of (brought_by deed.now) kind }
{
    match deed {
        Deed::StartHand {
            indicator,
            hands,
            ..
        } => bring_start(brought, *indicator, hands),
        Deed::Draw { tile, .. } => bring_tiles(brought, &[*tile]),
        Deed::Dora { tile } => bring_tiles(brought, &[*tile]),
        _ => {}
    }
}

// Brings in the first indicator and the tiles of all hands.
fn bring_start(brought: &mut [u8; KINDS], indicator: Tile, hands: &Hands)
    ensures { (kind : ℕ) → slice_index brought.old kind + number_of (indicator
        ∷ hands.now.first ++ hands.now.second ++ hands.now.third ++ hands.now.fourth) kind ≤ 255
        → slice_index brought.new kind ≡ slice_index brought.old kind + number_of (indicator
        ∷ hands.now.first ++ hands.now.second ++ hands.now.third ++ hands.now.fourth) kind }
{
    bring_tiles(brought, &[indicator]);
    bring_tiles(brought, hands.at(0));
    bring_tiles(brought, hands.at(1));
    bring_tiles(brought, hands.at(2));
    bring_tiles(brought, hands.at(3));
}

// Brings in some tiles.
fn bring_tiles(brought: &mut [u8; KINDS], tiles: &[Tile])
    ensures { (kind : ℕ) → slice_index brought.old kind + number_of tiles.now kind ≤ 255
        → slice_index brought.new kind ≡ slice_index brought.old kind
        + number_of tiles.now kind }
{
    for tile in tiles {
        let place = usize::from(tile.kind().number());
        brought[place] = brought[place].saturating_add(1);
    }
}

// Whether no kind is brought in a fifth time by a deed, where so many tiles of each kind were before, four at most.
pub(crate) fn keeps_kinds(before: &[u8; KINDS], deed: &Deed) -> bool
    ensures { ((kind : ℕ) → kind < 34 → slice_index before.now kind ≤ 4) → result
        ≡ list_all (λ kind. nat_le
        (slice_index before.now kind + number_of (brought_by deed.now) kind) 4) all_kinds }
{
    if is_hand_start(deed) {
        return keeps_each_kind(before, deed);
    }
    match tile_brought(deed) {
        Some(tile) => before[usize::from(tile.kind().number())] < 4,
        None => true,
    }
}

// The tile that a deed brings in, where it starts no hand.
fn tile_brought(deed: &Deed) -> Option<Tile>
    ensures { is_hand_start deed.now ≡ false → option_to_list result ≡ brought_by deed.now }
{
    match deed {
        Deed::Draw { tile, .. } => Some(*tile),
        Deed::Dora { tile } => Some(*tile),
        _ => None,
    }
}

// Whether no kind is brought in a fifth time by a deed, tested kind after kind.
fn keeps_each_kind(before: &[u8; KINDS], deed: &Deed) -> bool
    ensures { result ≡ list_all (λ kind. nat_le
        (slice_index before.now kind + number_of (brought_by deed.now) kind) 4) all_kinds }
{
    for kind in 0..KINDS as u8 {
        let number = usize::from(before[usize::from(kind)]);
        if number.saturating_add(brought(deed, kind)) > 4 {
            return false;
        }
    }
    true
}
