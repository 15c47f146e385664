ghost use Rattle.std.specs.Prelude.{◌≡◌};
ghost use Rattle.mj_calls.specs.Shapes.{makes_run, is_run_of, are_alike, is_among};

use mj_tiles::{EAST, Kind, Tile};

/// Whether three tiles make a run, in any order: three numbers in a row of one suit, a red five as a five.
pub fn chi_shape(tile: Tile, a: Tile, b: Tile) -> bool
    ensures { result ≡ makes_run tile a b }
{
    is_run(tile.kind(), a.kind(), b.kind())
}

/// Whether two tiles are of one kind, a red five as a five of its suit.
pub fn same_kind(a: Tile, b: Tile) -> bool
    ensures { result ≡ are_alike a b }
{
    a.kind().number() == b.kind().number()
}

// Three kinds make a run.
#[tactic(auto, unfolding(crate::specs::Shapes::is_run_of))]
pub(crate) fn is_run(x: Kind, y: Kind, z: Kind) -> bool
    ensures { result ≡ is_run_of x y z }
{
    let x = x.number();
    let y = y.number();
    let z = z.number();
    let low = x.min(y.min(z));
    low < EAST && low % 9 < 7 && is_among(low + 1, x, y, z) && is_among(low + 2, x, y, z)
}

// The kind is one of the three.
fn is_among(kind: u8, x: u8, y: u8, z: u8) -> bool
    ensures { result ≡ is_among kind x y z }
{
    kind == x || kind == y || kind == z
}
