ghost use Rattle.std.specs.Prelude.{◌≡◌};
ghost use Rattle.mj_deeds.specs.Points.{is_win};

use mj_deeds::Deed;

/// Whether a deed is a win.
pub fn is_win(deed: &Deed) -> bool
    ensures { result ≡ is_win deed.now }
{
    matches!(deed, Deed::Win { .. })
}
