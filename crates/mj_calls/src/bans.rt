ghost use Rattle.std.specs.Prelude.{◌≡◌};
ghost use Rattle.mj_tiles.specs.Kinds.{set_of};
ghost use Rattle.mj_calls.specs.Bans.{banned_kinds, run_kinds};

use crate::shapes::is_run;
use mj_deeds::Deed;
use mj_tiles::{KINDS, Kind, Kinds};

/// The kinds that may not be discarded right after a call: after a chi the called kind, and every kind that makes a
/// run with the two consumed tiles; after a pon the called kind. Any other deed bans nothing.
#[tactic(auto, unfolding(crate::specs::Bans::banned_by_chi))]
pub fn banned(call: &Deed) -> Kinds
    ensures { result ≡ set_of (banned_kinds call.now) }
{
    match call {
        Deed::Chi { tile, a, b, .. } => run_kinds(a.kind(), b.kind()).with(tile.kind()),
        Deed::Pon { tile, .. } => Kinds::none().with(tile.kind()),
        _ => Kinds::none(),
    }
}

// The kinds that make a run with the two.
fn run_kinds(a: Kind, b: Kind) -> Kinds
    ensures { result ≡ set_of (run_kinds a b) }
{
    let mut kinds = Kinds::none();
    for number in (0..KINDS as u8).rev() {
        let Some(kind) = Kind::of(number) else {
            unreachable!()
        };
        if is_run(kind, a, b) {
            kinds = kinds.with(kind);
        }
    }
    kinds
}
