ghost use Rattle.std.specs.Prelude.{◌≡◌, ◌≤◌, ◌<◌, ◌++◌, ◌∷◌, [], ℕ, List, length, map, flat_map, option_to_list};
ghost use Rattle.std.specs.List.{list_any};
ghost use Rattle.mj_deeds.specs.declared.deed.Deed.{Deed};
ghost use Rattle.mj_deeds.specs.Facts.{adds_by, with_added, seat_melds};
ghost use Rattle.mj_deeds.specs.Fits.{is_triplet_of};
ghost use Rattle.mj_facts.specs.Few.{Lists};

use crate::few_tiles::FewTiles;
use mj_deeds::{Deed, added, is_triplet_of, made, with_one_added};
use mj_tiles::{Meld, Melds, Tile};

// Takes the melds of a seat a deed further, with the tiles that it had added before.
pub(crate) fn meld(melds: &mut Melds, tiles: &FewTiles, seat: u8, deed: &Deed)
    ensures { (before : List Deed) → length (seat_melds (before ++ deed.now ∷ []) seat) ≤ 4
        → length (flat_map (adds_by seat) before) ≤ 5
        → Lists tiles.now (flat_map (adds_by seat) before) → melds.old ≡ seat_melds before seat
        → melds.new ≡ seat_melds (before ++ deed.now ∷ []) seat }
{
    match made(deed, seat) {
        Some(meld) => *melds = with_meld(*melds, with_added(meld, tiles)),
        None => match added(deed, seat) {
            Some(tile) => *melds = each_with(*melds, tile),
            None => {}
        },
    }
}

// Melds and one more, as long as they are at most three.
fn with_meld(melds: Melds, meld: Meld) -> Melds
    ensures { length melds < 4 → result ≡ melds ++ meld ∷ [] }
{
    match melds.as_slice() {
        [] => Melds::of(&[meld]),
        [a] => Melds::of(&[*a, meld]),
        [a, b] => Melds::of(&[*a, *b, meld]),
        [a, b, c] => Melds::of(&[*a, *b, *c, meld]),
        _ => melds,
    }
}

// What each of the melds becomes by a tile that its seat adds.
fn each_with(melds: Melds, tile: Tile) -> Melds
    ensures { result ≡ map (λ meld. with_added meld (tile ∷ [])) melds }
{
    match melds.as_slice() {
        [] => melds,
        [a] => Melds::of(&[with_one_added(*a, tile)]),
        [a, b] => Melds::of(&[with_one_added(*a, tile), with_one_added(*b, tile)]),
        [a, b, c] => Melds::of(&[
            with_one_added(*a, tile),
            with_one_added(*b, tile),
            with_one_added(*c, tile),
        ]),
        [a, b, c, d, ..] => Melds::of(&[
            with_one_added(*a, tile),
            with_one_added(*b, tile),
            with_one_added(*c, tile),
            with_one_added(*d, tile),
        ]),
    }
}

// What a meld becomes by the tiles that its seat has added.
fn with_added(meld: Meld, tiles: &FewTiles) -> Meld
    ensures { (added : List ℕ) → length added ≤ 5 → Lists tiles.now added → result
        ≡ with_added meld added }
{
    let meld = with_some_added(meld, tiles.first);
    let meld = with_some_added(meld, tiles.second);
    let meld = with_some_added(meld, tiles.third);
    let meld = with_some_added(meld, tiles.fourth);
    with_some_added(meld, tiles.fifth)
}

// What a meld becomes by a tile that its seat adds, where there is one.
#[tactic(auto, unfolding(mj_deeds::specs::Facts::with_added))]
fn with_some_added(meld: Meld, tile: Option<Tile>) -> Meld
    ensures { result ≡ with_added meld (option_to_list tile) }
{
    match tile {
        Some(tile) => with_one_added(meld, tile),
        None => meld,
    }
}

/// Whether one of the melds is a pon that no tile was added to, of these tiles and of the kind of the tile.
pub fn has_triplet(melds: &Melds, tile: Tile, a: Tile, b: Tile, c: Tile) -> bool
    ensures { result ≡ list_any (is_triplet_of tile a b c) melds.now }
{
    melds
        .as_slice()
        .iter()
        .any(|meld| is_triplet_of(*meld, tile, a, b, c))
}
