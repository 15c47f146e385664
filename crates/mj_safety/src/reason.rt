/// Why a kind is safe against another seat, in the order in which the reasons are asked.
#[derive(Clone, Copy, Debug, PartialEq, Eq)]
pub enum Reason {
    /// The other seat discarded the kind itself, so it is furiten where it waits for it.
    OwnDiscard,
    /// The other seat reached, and let the kind pass since.
    PassedInRiichi,
    /// The other seat let the kind pass since its own last discard, or since the start of the hand where it has none.
    Passed,
    /// All four tiles of the kind are seen, so nothing but a run or thirteen orphans could be completed by it; and each of its
    /// runs wants another kind of which all four are seen, and so would the orphans, or the other seat has a meld.
    Blocked,
}
