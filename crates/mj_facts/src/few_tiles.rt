ghost use Rattle.std.specs.Prelude.{◌≡◌, ◌≤◌, ◌++◌, ◌∷◌, [], ℕ, List, Some, if◌then◌else◌, length, option_to_list};
ghost use Rattle.mj_facts.specs.Few.{tile_at, Lists};

use crate::counted::counted;
use mj_tiles::Tile;

/// Up to five tiles in order, and how many they are.
#[derive(Clone, Copy)]
pub struct FewTiles {
    pub number: u8,
    pub first: Option<Tile>,
    pub second: Option<Tile>,
    pub third: Option<Tile>,
    pub fourth: Option<Tile>,
    pub fifth: Option<Tile>,
}

impl FewTiles {
    /// The tile at a place, the first one at 0.
    pub fn at(&self, place: u8) -> Option<Tile>
        ensures { result ≡ tile_at self.now place }
    {
        match place {
            0 => self.first,
            1 => self.second,
            2 => self.third,
            3 => self.fourth,
            4 => self.fifth,
            _ => None,
        }
    }

    // Adds a tile, where there is one.
    pub(crate) fn add(&mut self, tile: Option<Tile>)
        ensures { (tiles : List ℕ) → length (tiles ++ option_to_list tile) ≤ 5
            → Lists self.old tiles → Lists self.new (tiles ++ option_to_list tile) }
    {
        match tile {
            Some(tile) => self.push(tile),
            None => {}
        }
    }

    // Adds a tile.
    fn push(&mut self, tile: Tile)
        ensures { (tiles : List ℕ) → length (tiles ++ tile ∷ []) ≤ 5 → Lists self.old tiles
            → Lists self.new (tiles ++ tile ∷ []) }
    {
        self.first = placed(self.first, self.number == 0, tile);
        self.second = placed(self.second, self.number == 1, tile);
        self.third = placed(self.third, self.number == 2, tile);
        self.fourth = placed(self.fourth, self.number == 3, tile);
        self.fifth = placed(self.fifth, self.number == 4, tile);
        self.number = counted(self.number, true);
    }
}

// No tile.
pub(crate) fn no_tiles() -> FewTiles
    ensures { Lists result [] }
{
    FewTiles {
        number: 0,
        first: None,
        second: None,
        third: None,
        fourth: None,
        fifth: None,
    }
}

// What stands in a place, into which a further tile comes where it is the next one.
fn placed(kept: Option<Tile>, is_next: bool, tile: Tile) -> Option<Tile>
    ensures { result ≡ (if is_next then Some tile else kept) }
{
    if is_next { Some(tile) } else { kept }
}
