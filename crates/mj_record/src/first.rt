//! The first record of a journal.

ghost use Rattle.std.specs.Prelude.{◌≡◌, None, MatchOption};
ghost use Rattle.mj_journal.specs.Founding.{HasFirst};
ghost use Rattle.mj_journal.specs.Journals.{first_record};

/// The payload of the first record; None where no open gate stands first, or its record isn't whole.
pub(crate) fn first_payload(journal: &[u8]) -> Option<&[u8]>
    ensures { MatchOption result (first_record journal.now ≡ None)
        (λ payload. HasFirst payload.now journal.now) }
{
    let [1, a, b, c, d, behind @ ..] = journal else {
        return None;
    };
    let count = u32::from_be_bytes([*a, *b, *c, *d]) as usize;
    if count < behind.len() {
        Some(&behind[..count])
    } else {
        None
    }
}
