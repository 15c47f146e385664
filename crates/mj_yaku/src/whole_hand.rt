ghost use Rattle.std.specs.Prelude.{◌≡◌};
ghost use Rattle.mj_yaku.specs.WholeHand.{tanyao, honroutou, honitsu, chinitsu, tsuuiisou, chinroutou, ryuuiisou, no_honour, is_one_suit};

use crate::tiles::{Class, all_tiles};
use mj_readings::Reading;

/// Tanyao: no terminal and no honour.
#[tactic(auto, unfolding(crate::specs::WholeHand::tanyao))]
pub(crate) fn has_tanyao(reading: &Reading) -> bool
    ensures { result ≡ tanyao reading.now }
{
    all_tiles(reading, Class::Simple)
}

/// Honroutou: terminals and honours alone.
#[tactic(auto, unfolding(crate::specs::WholeHand::honroutou))]
pub(crate) fn has_honroutou(reading: &Reading) -> bool
    ensures { result ≡ honroutou reading.now }
{
    all_tiles(reading, Class::Outside)
}

/// Honitsu: one suit and honours, both there.
#[tactic(auto, unfolding(crate::specs::WholeHand::honitsu))]
pub(crate) fn has_honitsu(reading: &Reading) -> bool
    ensures { result ≡ honitsu reading.now }
{
    let one_suit = all_tiles(reading, Class::SuitOrHonour(0))
        || all_tiles(reading, Class::SuitOrHonour(9))
        || all_tiles(reading, Class::SuitOrHonour(18));
    one_suit && !has_no_honour(reading) && !all_tiles(reading, Class::Honour)
}

/// Chinitsu: one suit, no honour.
#[tactic(auto, unfolding(crate::specs::WholeHand::chinitsu))]
pub(crate) fn has_chinitsu(reading: &Reading) -> bool
    ensures { result ≡ chinitsu reading.now }
{
    is_of_one_suit(reading)
}

/// Tsuuiisou: honours alone.
#[tactic(auto, unfolding(crate::specs::WholeHand::tsuuiisou))]
pub(crate) fn has_tsuuiisou(reading: &Reading) -> bool
    ensures { result ≡ tsuuiisou reading.now }
{
    all_tiles(reading, Class::Honour)
}

/// Chinroutou: terminals alone.
#[tactic(auto, unfolding(crate::specs::WholeHand::chinroutou))]
pub(crate) fn has_chinroutou(reading: &Reading) -> bool
    ensures { result ≡ chinroutou reading.now }
{
    all_tiles(reading, Class::Terminal)
}

/// Ryuuiisou: green tiles alone.
#[tactic(auto, unfolding(crate::specs::WholeHand::ryuuiisou))]
pub(crate) fn has_ryuuiisou(reading: &Reading) -> bool
    ensures { result ≡ ryuuiisou reading.now }
{
    all_tiles(reading, Class::Green)
}

/// Whether all tiles are of one suit.
pub(crate) fn is_of_one_suit(reading: &Reading) -> bool
    ensures { result ≡ is_one_suit reading.now }
{
    all_tiles(reading, Class::Suit(0))
        || all_tiles(reading, Class::Suit(9))
        || all_tiles(reading, Class::Suit(18))
}

/// Whether no tile is an honour.
pub(crate) fn has_no_honour(reading: &Reading) -> bool
    ensures { result ≡ no_honour reading.now }
{
    all_tiles(reading, Class::Number)
}
