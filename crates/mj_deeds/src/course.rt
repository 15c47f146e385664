ghost use Rattle.std.specs.Prelude.{◌≡◌, option_to_list};
ghost use Rattle.mj_deeds.specs.Facts.{is_call, is_kan, kan_seats_by};

use crate::deed::Deed;

/// Whether a deed is a call: a chi, a pon or a kan.
pub fn is_call(deed: &Deed) -> bool
    ensures { result ≡ is_call deed.now }
{
    matches!(deed, Deed::Chi { .. } | Deed::Pon { .. }) || is_kan(deed)
}

/// The seat that makes a kan by a deed; none where the deed is no kan.
pub fn seat_of_kan(deed: &Deed) -> Option<u8>
    ensures { option_to_list result ≡ kan_seats_by deed.now }
{
    match deed {
        Deed::OpenKan { seat, .. } => Some(*seat),
        Deed::ClosedKan { seat, .. } => Some(*seat),
        Deed::AddedKan { seat, .. } => Some(*seat),
        _ => None,
    }
}

/// Whether a deed is a kan.
pub fn is_kan(deed: &Deed) -> bool
    ensures { result ≡ is_kan deed.now }
{
    matches!(
        deed,
        Deed::OpenKan { .. } | Deed::ClosedKan { .. } | Deed::AddedKan { .. }
    )
}
