/// What stands of a seat's riichi and of its first turn in a hand.
#[derive(Clone, Copy, Debug, PartialEq, Eq)]
pub struct Marks {
    /// The seat has declared riichi.
    pub reached: bool,
    /// Its riichi is accepted: nobody won on the tile that it discarded, and its deposit is paid.
    pub accepted: bool,
    /// Its riichi is double: it declared in its first turn.
    pub double: bool,
    /// It is within one turn of its accepted riichi: since that discard it has not discarded, and no chi, pon or kan
    /// was made; an added kan that is the newest deed may yet be robbed, and doesn't count.
    pub ippatsu: bool,
    /// It is in its first turn: a hand has begun, the seat has not discarded in it, and no seat made a chi, pon or
    /// kan.
    pub first: bool,
}
