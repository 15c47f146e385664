ghost use Rattle.std.specs.Prelude.{◌≡◌};
ghost use Rattle.mj_deeds.specs.Riichi.{is_reach_by};

use mj_deeds::Deed;

// Whether a deed is the reach of a seat.
pub(crate) fn is_reach_by(deed: &Deed, seat: u8) -> bool
    ensures { result ≡ is_reach_by seat deed.now }
{
    match deed {
        Deed::Reach { seat: who } => *who == seat,
        _ => false,
    }
}
