ghost use Rattle.std.specs.Prelude.{◌≡◌, ◌==◌};
ghost use Rattle.mj_yaku.specs.Wins.{reach, double_reach, is_ippatsu, menzen_tsumo, haitei, houtei, is_rinshan, chankan, is_first_draw, tenhou, chiihou};

use mj_readings::{Case, Riichi};
use mj_tiles::EAST;

/// Reach: a closed hand in riichi.
#[tactic(auto, unfolding(crate::specs::Wins::reach))]
pub(crate) fn has_reach(case: &Case) -> bool
    ensures { result ≡ reach case.now }
{
    match case.riichi {
        Riichi::Single => case.closed,
        Riichi::No | Riichi::Double => false,
    }
}

/// Double reach: a closed hand in riichi from its first discard on, before any call.
#[tactic(auto, unfolding(crate::specs::Wins::double_reach))]
pub(crate) fn has_double_reach(case: &Case) -> bool
    ensures { result ≡ double_reach case.now }
{
    match case.riichi {
        Riichi::Double => case.closed,
        Riichi::No | Riichi::Single => false,
    }
}

/// Ippatsu: a closed hand won within a turn of its riichi, without a call in between.
#[tactic(auto, unfolding(crate::specs::Wins::is_ippatsu))]
pub(crate) fn has_ippatsu(case: &Case) -> bool
    ensures { result ≡ is_ippatsu case.now }
{
    case.closed && case.ippatsu
}

/// Menzen tsumo: a closed hand won by a drawn tile.
#[tactic(auto, unfolding(crate::specs::Wins::menzen_tsumo))]
pub(crate) fn has_menzen_tsumo(case: &Case) -> bool
    ensures { result ≡ menzen_tsumo case.now }
{
    case.closed && case.by_draw
}

/// Haitei: won by the last live tile, drawn, and no replacement.
#[tactic(auto, unfolding(crate::specs::Wins::haitei))]
pub(crate) fn has_haitei(case: &Case) -> bool
    ensures { result ≡ haitei case.now }
{
    case.by_draw && case.last && !case.rinshan
}

/// Houtei: won by the discard after the last live tile.
#[tactic(auto, unfolding(crate::specs::Wins::houtei))]
pub(crate) fn has_houtei(case: &Case) -> bool
    ensures { result ≡ houtei case.now }
{
    !case.by_draw && case.last && !case.robbed
}

/// Rinshan: won by a replacement draw.
#[tactic(auto, unfolding(crate::specs::Wins::is_rinshan))]
pub(crate) fn has_rinshan(case: &Case) -> bool
    ensures { result ≡ is_rinshan case.now }
{
    case.by_draw && case.rinshan
}

/// Chankan: won by the tile of a robbed added kan.
#[tactic(auto, unfolding(crate::specs::Wins::chankan))]
pub(crate) fn has_chankan(case: &Case) -> bool
    ensures { result ≡ chankan case.now }
{
    !case.by_draw && case.robbed
}

/// Tenhou: the dealer, whose wind is east, wins a closed hand by its first draw, with no chi, pon or kan before.
#[tactic(auto, unfolding(crate::specs::Wins::tenhou))]
pub(crate) fn has_tenhou(case: &Case) -> bool
    ensures { result ≡ tenhou case.now }
{
    wins_by_first_draw(case) && is_dealer(case)
}

/// Chiihou: another seat wins a closed hand by its first draw, with no chi, pon or kan before.
#[tactic(auto, unfolding(crate::specs::Wins::chiihou))]
pub(crate) fn has_chiihou(case: &Case) -> bool
    ensures { result ≡ chiihou case.now }
{
    wins_by_first_draw(case) && !is_dealer(case)
}

// Whether a closed hand was won by the winner's first draw, with no call before.
fn wins_by_first_draw(case: &Case) -> bool
    ensures { result ≡ is_first_draw case.now }
{
    case.closed && case.by_draw && case.first
}

// Whether the winner is the dealer, whose wind is east.
fn is_dealer(case: &Case) -> bool
    ensures { result ≡ (case.now.seat_wind == 27) }
{
    case.seat_wind.number() == EAST
}
