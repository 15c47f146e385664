/// Why a hand ends without a winner.
#[derive(Clone, Copy, Debug, PartialEq, Eq)]
pub enum Reason {
    /// No live tile is left.
    Fanpai,
    /// A seat shows nine kinds of terminals and honours at its first draw.
    Kyushukyuhai,
    /// The first four discards of the hand are one wind, and no call stands before.
    Suufonrenta,
    /// All four seats are in riichi.
    Suuchareach,
    /// Four kans were made, and not all by one seat.
    Suukaikan,
}
