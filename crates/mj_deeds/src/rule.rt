/// The rules that an answer can break, in the order in which they are looked at; an answer is refused by the first.
/// The number of a rule is its place in this list, from 1 on.
#[derive(Clone, Copy, Debug, PartialEq, Eq)]
pub enum Rule {
    /// The line is no answer.
    Unreadable = 1,
    /// The answer names another seat as its actor.
    NotYours = 2,
    /// Such an answer is not open to the seat in this window.
    NotNow = 3,
    /// A named tile is hidden, or a red five in a game without them.
    NoSuchTile = 4,
    /// The target or the tile is not the one in question.
    WrongTarget = 5,
    /// A discard is called with no live tile left.
    LastTile = 6,
    /// The named tiles are not all among the concealed ones.
    NotHeld = 7,
    /// The mark for the drawn tile is wrong.
    NotDrawn = 8,
    /// After an accepted riichi nothing but the drawn tile is discarded, and no discard is called.
    Locked = 9,
    /// The tiles make no such meld.
    BadSet = 10,
    /// A run is called from another than the seat before.
    NotLeft = 11,
    /// The discard swaps the called tile for its like.
    SwapCall = 12,
    /// Every discard after the call would be forbidden.
    StuckCall = 13,
    /// Four kans stand already.
    KanFull = 14,
    /// There is no live tile left for a kan.
    KanDry = 15,
    /// The kan would change the hand of a riichi.
    RiichiKan = 16,
    /// A riichi with an open meld.
    ReachOpen = 17,
    /// A riichi with fewer than 1,000 points.
    ReachPoor = 18,
    /// A riichi with fewer than four live tiles left.
    ReachLate = 19,
    /// A riichi with a hand that is not ready.
    ReachUnready = 20,
    /// The hand is not complete.
    NotComplete = 21,
    /// A win by another's tile while furiten.
    Furiten = 22,
    /// No reading of the hand has a yaku.
    NoYaku = 23,
    /// Not nine kinds of terminals and honours at an undisturbed first draw.
    NotNine = 24,
}
