ghost use Rattle.std.specs.Prelude.{◌≡◌, ◌≤◌, ◌+◌, min, if◌then◌else◌};

// A number, and one more where there is one more; 255 at most.
pub(crate) fn counted(number: u8, more: bool) -> u8
    ensures few { number + (if more then 1 else 0) ≤ 255 → result
        ≡ number + (if more then 1 else 0) }
    ensures many { result ≡ min (number + (if more then 1 else 0)) 255 }
{
    if more {
        number.saturating_add(1)
    } else {
        number
    }
}
