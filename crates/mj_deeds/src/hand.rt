ghost use Rattle.std.specs.Prelude.{◌≡◌};
ghost use Rattle.mj_deeds.specs.Hand.{is_hand_start};

use crate::deed::Deed;

/// Whether a deed starts a hand.
pub fn is_hand_start(deed: &Deed) -> bool
    ensures { result ≡ is_hand_start deed.now }
{
    matches!(deed, Deed::StartHand { .. })
}
