ghost use Rattle.std.specs.Prelude.{◌≡◌, ◌≤◌, ◌∷◌, [], Some, IsTrue, option_to_list};
ghost use Rattle.mj_deeds.specs.declared.answer.Answer.TheVariants as answers;
ghost use Rattle.mj_deeds.specs.declared.answer.Pai.TheVariants as pais;
ghost use Rattle.mj_fu.specs.Forms.{has_value};
ghost use Rattle.mj_rules.specs.View.{view_of};
ghost use Rattle.mj_bot.specs.Choice.{win_in, pon_in, first_lawful, IsChoice};
ghost use Rattle.mj_bot.specs.Inner.Turns.{has_say, IsNeverReady, IsIncomplete};

use crate::discards::{best_discard, has_drawn};
use mj_deeds::{Answer, Deed, Pai};
use mj_fu::is_dragon;
use mj_judge::{discard, judge, seat_wind};
use mj_memory::Memory;
use mj_table::Table;
use mj_tiles::{Kind, Tile};

/// What the built-in player answers for a seat, 0 to 3, in the window on the newest deed, by the first of these that
/// fits: a lawful win, with its target and tile; at its own draw a lawful reach; at its own draw, or right after its
/// own reach, chi or pon, of the lawful discards the one that leaves the least shanten, and of several the last in tile
/// order, marked exactly where the tile has the face of the drawn one; a lawful pon of a dragon, its own wind or the
/// round wind; a pass.
///
/// It is lawful as long as some discard right after the seat's own reach, chi or pon is. What is remembered changes no answer.
pub fn choose(table: &Table, seat: u8, memory: &mut Memory) -> Answer
    requires { seat ≤ 3 }
    ensures { IsChoice table.now.rules table.now.deeds seat result }
{
    if !has_say(table, seat) {
        return Answer::Pass { actor: None };
    }
    let best = best_discard(table, seat, memory);
    if let Some(win) = lawful_win(table, seat, best.incomplete, memory) {
        return win;
    }
    if let Some(reach) = lawful_reach(table, seat, best.unready) {
        return reach;
    }
    if let Some(tile) = best.tile {
        return discard(table, seat, tile);
    }
    match lawful_pon(table, seat) {
        Some(pon) => pon,
        None => Answer::Pass { actor: None },
    }
}

// Another answer than a pass is open to the seat in the window on the newest deed.
#[tactic(auto, unfolding(mj_rules::specs::View::view_of))]
fn has_say(table: &Table, seat: u8) -> bool
    ensures { result ≡ has_say seat (view_of table.now.deeds seat).turn }
{
    match table.newest() {
        Some(Deed::Draw { seat: who, .. }) => *who == seat,
        Some(Deed::Discard { seat: who, .. }) => *who != seat,
        Some(Deed::AddedKan { seat: who, .. }) => *who != seat,
        Some(Deed::Reach { seat: who }) => *who == seat,
        Some(Deed::Chi { seat: who, .. }) => *who == seat,
        Some(Deed::Pon { seat: who, .. }) => *who == seat,
        _ => false,
    }
}

// The win on the tile in question, where it is lawful: it isn't where it is known that the tiles aren't complete.
fn lawful_win(table: &Table, seat: u8, incomplete: bool, memory: &Memory) -> Option<Answer>
    requires seat { seat ≤ 3 }
    requires incomplete { IsTrue incomplete → IsIncomplete (view_of table.now.deeds seat) }
    ensures { let view = view_of table.now.deeds seat in
        result ≡ first_lawful table.now.rules seat view (win_in seat view view.turn) }
{
    if incomplete {
        return None;
    }
    if is_far(table, seat, memory) {
        return None;
    }
    match win(table, seat) {
        Some(win) => if_lawful(table, seat, &win),
        None => None,
    }
}

// Whether it is known that the newest deed discards a tile that doesn't complete the seat's hand.
#[tactic(auto, unfolding(mj_rules::specs::View::view_of))]
fn is_far(table: &Table, seat: u8, memory: &Memory) -> bool
    requires { seat ≤ 3 }
    ensures { IsTrue result → IsIncomplete (view_of table.now.deeds seat) }
{
    match table.newest() {
        Some(Deed::Discard { tile, .. }) => {
            let melds = table.melds(seat);
            let number = melds.as_slice().len() as u8;
            memory.is_far(seat, &table.holds(seat), number, tile.kind())
        }
        _ => false,
    }
}

// A reach, where it is lawful: it isn't out of the seat's own draw, nor where it is known that no discard leaves the hand
// ready.
fn lawful_reach(table: &Table, seat: u8, unready: bool) -> Option<Answer>
    requires seat { seat ≤ 3 }
    requires unready { IsTrue unready → IsNeverReady (view_of table.now.deeds seat) }
    ensures { result ≡ first_lawful table.now.rules seat (view_of table.now.deeds seat)
        (answers.Reach seat ∷ []) }
{
    if unready {
        return None;
    }
    if !has_drawn(table, seat) {
        return None;
    }
    if_lawful(table, seat, &Answer::Reach { actor: seat })
}

// The pon of a dragon, the seat's wind or that of the round, where it is lawful.
fn lawful_pon(table: &Table, seat: u8) -> Option<Answer>
    requires { seat ≤ 3 }
    ensures { let view = view_of table.now.deeds seat in
        result ≡ first_lawful table.now.rules seat view (pon_in seat view view.turn) }
{
    match pon(table, seat) {
        Some(pon) => if_lawful(table, seat, &pon),
        None => None,
    }
}

// The answer, where it breaks no rule.
fn if_lawful(table: &Table, seat: u8, answer: &Answer) -> Option<Answer>
    requires { seat ≤ 3 }
    ensures { result ≡ first_lawful table.now.rules seat (view_of table.now.deeds seat)
        (answer.now ∷ []) }
{
    match judge(table, seat, answer) {
        Ok(()) => Some(*answer),
        Err(_) => None,
    }
}

// The win on the tile that the seat has drawn, or on the one that the newest deed offers.
#[tactic(auto, unfolding(mj_rules::specs::View::view_of))]
fn win(table: &Table, seat: u8) -> Option<Answer>
    ensures { let view = view_of table.now.deeds seat in
        option_to_list result ≡ win_in seat view view.turn }
{
    match table.newest() {
        Some(Deed::Draw { .. }) => match table.drawn(seat) {
            Some(tile) => Some(win_on(seat, seat, tile)),
            None => None,
        },
        Some(
            Deed::Discard {
                seat: who,
                tile,
                ..
            },
        ) => Some(win_on(seat, *who, *tile)),
        Some(
            Deed::AddedKan {
                seat: who,
                tile,
                ..
            },
        ) => Some(win_on(seat, *who, *tile)),
        _ => None,
    }
}

// The win of a seat on a tile of the target.
fn win_on(seat: u8, target: u8, tile: Tile) -> Answer
    ensures { result ≡ answers.Win seat target (Some (pais.Known tile)) }
{
    Answer::Win {
        actor: seat,
        target,
        tile: Some(Pai::Known(tile)),
    }
}

// The pon of the tile that the newest deed discards, where it is a dragon, the seat's wind or that of the round.
#[tactic(auto, unfolding(mj_rules::specs::View::view_of))]
fn pon(table: &Table, seat: u8) -> Option<Answer>
    ensures { let view = view_of table.now.deeds seat in
        option_to_list result ≡ pon_in seat view view.turn }
{
    match table.newest() {
        Some(
            Deed::Discard {
                seat: who,
                tile,
                ..
            },
        ) if has_value(table, seat, tile.kind()) => {
            Some(Answer::Pon {
                actor: seat,
                target: *who,
                tile: Pai::Known(*tile),
                a: Pai::Known(*tile),
                b: Pai::Known(*tile),
            })
        }
        _ => None,
    }
}

// The kind is a dragon, the seat's wind or that of the round.
#[tactic(auto, unfolding(mj_rules::specs::View::view_of, mj_rules::specs::Wins::case_of))]
fn has_value(table: &Table, seat: u8, kind: Kind) -> bool
    ensures { result ≡ has_value (view_of table.now.deeds seat).case kind }
{
    let standing = table.standing();
    is_dragon(kind) || kind == seat_wind(standing.dealer, seat) || kind == standing.round
}
