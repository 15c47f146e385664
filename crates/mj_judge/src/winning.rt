ghost use Rattle.std.specs.Prelude.{◌≡◌, ◌<◌, ◌≤◌, drop, option_copied, ◌&&◌, ◌||◌, ◌++◌, ◌∷◌, [], ℕ, true, List, Some, nat_lt, not, option_map, option_to_list, length, slice_index};
ghost use Rattle.std.specs.List.{list_all};
ghost use Rattle.std.specs.Result.{result_err};
ghost use Rattle.mj_tiles.specs.Faces.{kind_of};
ghost use Rattle.mj_tiles.specs.Counts.{kind_counts};
ghost use Rattle.mj_waits.specs.Furiten.{is_furiten};
ghost use Rattle.mj_deeds.specs.Facts.{newest};
ghost use Rattle.mj_deeds.specs.declared.answer.Answer.TheVariants as answers;
ghost use Rattle.mj_deeds.specs.declared.rule.Rule.TheVariants as refusal;
ghost use Rattle.mj_readings.specs.Tests.{complete};
ghost use Rattle.mj_rules.specs.Broken.{questions, offered_in, won_tiles, is_not_complete, is_furiten_win, winning_kinds, has_no_yaku, is_no_yaku, first_broken};
ghost use Rattle.mj_rules.specs.View.{view_of, turn_by, turn_in, concealed};
ghost use Rattle.mj_table.specs.Offers.{offered_tile};
ghost use Rattle.mj_judge.specs.Inner.Missed.{facts_of, is_missing_out};

use crate::case::case_of;
use crate::counting::with;
use crate::holding::names_no_tile;
use crate::questions::{is_win, misses_winning};
use crate::verdict::refuse_if;
use mj_deeds::{Answer, Deed, Pai, Rule};
use mj_readings::{Case, is_complete, is_complete_with};
use mj_table::Table;
use mj_tiles::{Counts, Kind, Meld, Tile};
use mj_waits::{Facts, furiten, misses_some, waits};
use mj_yaku::complete_has_yaku;

// Refuses a win by the first rule of wins that it breaks: the tiles are not complete, it is on the tile of another
// seat while furiten, or no reading of the hand has a yaku. Any other answer breaks none of them.
pub(crate) fn judge_win(table: &Table, seat: u8, answer: &Answer) -> Result<(), Rule>
    requires { seat ≤ 3 }
    ensures { let view = view_of table.now.deeds seat in
        result_err result ≡ first_broken ((
          is_not_complete view answer.now,
          refusal.NotComplete,
        ) ∷ (is_furiten_win view answer.now, refusal.Furiten)
        ∷ (is_no_yaku view answer.now, refusal.NoYaku) ∷ []) }
{
    if !is_win(answer) {
        return Ok(());
    }
    judge_tiles(table, seat)
}

// Refuses a win that is open to the seat by the first rule of wins that it breaks: there is no such tile, it names another
// seat or tile than the ones in question, or the tiles are refused.
#[tactic(auto, unfolding(mj_rules::specs::View::view_of))]
pub(crate) fn judge_winning(
    table: &Table,
    seat: u8,
    target: u8,
    tile: Option<&Pai>,
) -> Result<(), Rule>
    requires { seat ≤ 3 }
    ensures { let view = view_of table.now.deeds seat in
        (actor : ℕ) → result_err result ≡ first_broken (drop 3 (questions table.now.rules seat view
        (answers.Win actor target (option_copied tile.entry)))) }
{
    refuse_if(names_no_tile(table.rules().red, tile), Rule::NoSuchTile)?;
    refuse_if(misses_winning(table, seat, target, tile), Rule::WrongTarget)?;
    judge_tiles(table, seat)
}

// Refuses a win with the tiles of a seat by the first rule of wins that it breaks.
#[tactic(auto, unfolding(mj_rules::specs::View::view_of))]
fn judge_tiles(table: &Table, seat: u8) -> Result<(), Rule>
    requires { seat ≤ 3 }
    ensures { let view = view_of table.now.deeds seat in
        result_err result ≡ first_broken ((
          not (complete (kind_counts (won_tiles view)) (length view.melds)),
          refusal.NotComplete,
        ) ∷ (is_missing_out view, refusal.Furiten)
        ∷ (list_all (has_no_yaku view) (winning_kinds view), refusal.NoYaku) ∷ []) }
{
    let held = table.holds(seat);
    let melds = table.melds(seat);
    let melds = melds.as_slice();
    refuse_if(
        !is_won(&held, offered(table), melds.len() as u8),
        Rule::NotComplete,
    )?;
    refuse_if(is_missing_out(table, seat, &held, melds), Rule::Furiten)?;
    let won = won_counts(&held, offered(table));
    refuse_if(has_no_yaku(table, seat, &won, melds), Rule::NoYaku)
}

// Whether the concealed tiles with the one that is won on, where another seat gives it, and so many melds are complete.
fn is_won(held: &Counts, offered: Option<Tile>, melds: u8) -> bool
    requires { (tile : ℕ) → offered ≡ Some tile → slice_index held.now (kind_of tile) < 4 }
    ensures { (tiles : List ℕ) → held.now ≡ kind_counts tiles → result
        ≡ complete (kind_counts (tiles ++ option_to_list offered)) melds }
{
    match offered {
        Some(tile) => is_complete_with(held, tile.kind(), melds),
        None => is_complete(held, melds),
    }
}

// The tile of another seat that may be won on in the window on the newest deed.
fn offered(table: &Table) -> Option<Tile>
    ensures told { result ≡ offered_tile table.now.deeds }
    ensures in_turn { option_to_list result ≡ offered_in
        (turn_in (option_map turn_by (newest table.now.deeds))) }
{
    match table.newest() {
        Some(Deed::Discard { tile, .. }) => Some(*tile),
        Some(Deed::AddedKan { tile, .. }) => Some(*tile),
        _ => None,
    }
}

// How often each kind stands among the concealed tiles with the one that is won on, where another seat gives it.
fn won_counts(held: &Counts, offered: Option<Tile>) -> Counts
    requires { (tile : ℕ) → offered ≡ Some tile → slice_index held.now (kind_of tile) < 4 }
    ensures { (tiles : List ℕ) → held.now ≡ kind_counts tiles → result
        ≡ kind_counts (tiles ++ option_to_list offered) }
{
    match offered {
        Some(tile) => with(held, tile.kind()),
        None => *held,
    }
}

// The tile of another seat is offered, and the seat may not win on it.
#[tactic(auto, unfolding(mj_rules::specs::View::view_of))]
fn is_missing_out(table: &Table, seat: u8, held: &Counts, melds: &[Meld]) -> bool
    requires seat { seat ≤ 3 }
    requires few { length melds.now ≤ 4 }
    requires held { held.now ≡ kind_counts (concealed (view_of table.now.deeds seat)) }
    requires melds { melds.now ≡ (view_of table.now.deeds seat).melds }
    ensures { result ≡ is_missing_out (view_of table.now.deeds seat) }
{
    offered(table).is_some() && is_furiten(table, seat, held, melds)
}

// The seat may not win on the tile of another: a wait is among its own discards or was let pass.
fn is_furiten(table: &Table, seat: u8, held: &Counts, melds: &[Meld]) -> bool
    requires seat { seat ≤ 3 }
    requires few { length melds.now ≤ 4 }
    requires held { held.now ≡ kind_counts (concealed (view_of table.now.deeds seat)) }
    requires melds { melds.now ≡ (view_of table.now.deeds seat).melds }
    ensures { result ≡ is_furiten (facts_of (view_of table.now.deeds seat)) }
{
    let own = table.own(seat);
    let passed = table.passed(seat);
    let passed_in_riichi = table.passed_in_riichi(seat);
    if !misses_some(held, melds.len() as u8, own, passed, passed_in_riichi) {
        return false;
    }
    let room = table.room(seat);
    furiten(&Facts {
        waits: waits(held, &room, melds.len() as u8),
        own,
        passed,
        passed_in_riichi,
    })
}

// No reading of a complete hand, won on the tile in question, has a yaku.
#[tactic(auto, unfolding(mj_rules::specs::Broken::has_no_yaku))]
fn has_no_yaku(table: &Table, seat: u8, won: &Counts, melds: &[Meld]) -> bool
    requires seat { seat ≤ 3 }
    requires won { won.now ≡ kind_counts (won_tiles (view_of table.now.deeds seat)) }
    requires melds { melds.now ≡ (view_of table.now.deeds seat).melds }
    requires complete { complete won.now (length melds.now) ≡ true }
    ensures { let view = view_of table.now.deeds seat in
        result ≡ list_all (has_no_yaku view) (winning_kinds view) }
{
    match winning_kind(table, seat) {
        Some(winning) => !complete_has_yaku(won, melds, winning, &case_now(table, seat)),
        None => true,
    }
}

// The circumstances of the win where there is a tile to be won on: the newest deed gives it, and is no win.
fn case_now(table: &Table, seat: u8) -> Case
    requires seat { seat ≤ 3 }
    requires wins { nat_lt 0 (length (winning_kinds (view_of table.now.deeds seat))) ≡ true }
    ensures { result ≡ (view_of table.now.deeds seat).case }
{
    case_of(table, seat)
}

// The kind of the tile that is won on: the drawn one, or that of the other seat.
fn winning_kind(table: &Table, seat: u8) -> Option<Kind>
    ensures { option_to_list result ≡ winning_kinds (view_of table.now.deeds seat) }
{
    match table.drawn(seat) {
        Some(tile) => Some(tile.kind()),
        None => match offered(table) {
            Some(tile) => Some(tile.kind()),
            None => None,
        },
    }
}
