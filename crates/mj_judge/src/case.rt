ghost use Rattle.std.specs.Prelude.{◌≡◌, ◌≤◌, option_copied};
ghost use Rattle.mj_deeds.specs.Course.{before_wins};
ghost use Rattle.mj_deeds.specs.Hand.{hand};
ghost use Rattle.mj_deeds.specs.Standings.{standing};
ghost use Rattle.mj_rules.specs.Wins.{case_of, seat_wind, riichi_of, is_draw, is_replacement, is_added};

use mj_deeds::Deed;
use mj_readings::{Case, Riichi};
use mj_table::Table;
use mj_tiles::{EAST, Kind};
use mj_yaku::is_closed;

/// The circumstances of a win of a seat, 0 to 3, by the newest deed of the hand that is no win: it gives the tile.
/// The seat's wind and that of the round, whether the tile is drawn, a replacement or a robbed one, whether the hand
/// is closed, the seat's riichi, and whether no live tile is left and the seat is in its first turn.
#[tactic(auto, unfolding(mj_rules::specs::Wins::case_of))]
pub fn case_of(table: &Table, seat: u8) -> Case
    requires { seat ≤ 3 }
    ensures { result ≡ case_of (standing table.now.deeds) (before_wins (hand table.now.deeds))
        seat }
{
    let standing = table.standing();
    let giving = table.before_wins();
    Case {
        seat_wind: seat_wind(standing.dealer, seat),
        round_wind: standing.round,
        by_draw: is_draw(giving),
        closed: is_closed(table.melds(seat).as_slice()),
        riichi: riichi_of(table, seat),
        ippatsu: table.ippatsu_before_wins(seat),
        last: table.live() == 0,
        rinshan: is_replacement(giving),
        robbed: is_added(giving),
        first: table.is_first(seat),
    }
}

/// The wind of a seat, 0 to 3: the dealer's is east, and the others' follow in turn order.
pub fn seat_wind(dealer: u8, seat: u8) -> Kind
    ensures { result ≡ seat_wind dealer seat }
{
    let turns = (u32::from(seat) + 4).saturating_sub(u32::from(dealer)) % 4;
    Kind::at(EAST + turns as u8)
}

// The riichi of a seat.
fn riichi_of(table: &Table, seat: u8) -> Riichi
    requires { seat ≤ 3 }
    ensures { result ≡ riichi_of (hand table.now.deeds) seat }
{
    if !table.is_in_riichi(seat) {
        return Riichi::No;
    }
    if table.marks(seat).double {
        return Riichi::Double;
    }
    Riichi::Single
}

fn is_draw(giving: Option<&Deed>) -> bool
    ensures { result ≡ is_draw (option_copied giving.entry) }
{
    matches!(giving, Some(Deed::Draw { .. }))
}

fn is_replacement(giving: Option<&Deed>) -> bool
    ensures { result ≡ is_replacement (option_copied giving.entry) }
{
    match giving {
        Some(Deed::Draw { replacement, .. }) => *replacement,
        _ => false,
    }
}

fn is_added(giving: Option<&Deed>) -> bool
    ensures { result ≡ is_added (option_copied giving.entry) }
{
    matches!(giving, Some(Deed::AddedKan { .. }))
}
