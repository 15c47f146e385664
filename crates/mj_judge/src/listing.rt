ghost use Rattle.std.specs.Prelude.{◌≡◌, ◌≤◌, ◌++◌, ◌∷◌, [], true, not, ◌&&◌, None, IfOk, OnOk, OnErr, option_map};
ghost use Rattle.mj_deeds.specs.declared.answer.Answer.TheVariants as answers;
ghost use Rattle.mj_deeds.specs.Facts.{newest};
ghost use Rattle.mj_rules.specs.Broken.{is_reach_open, is_reach_poor, is_reach_late, is_reach_unready};
ghost use Rattle.mj_rules.specs.View.{view_of, turn_by, turn_in};
ghost use Rattle.mj_rules.specs.Possible.{possible, is_lawful, all_discards, all_calls, all_closed_kans, all_added_kans, triplets, all_wins};
ghost use Rattle.mj_judge.specs.Inner.Tried.{lawful_among, is_winning};

use crate::apart::is_of_no_use;
use crate::calling::push_calls;
use crate::nine::is_not_nine;
use crate::riichi::{is_reach_late, is_reach_open, is_reach_poor, is_reach_unready};
use crate::turning::{
    is_discarding, is_own_draw, may_pass, may_win, push_added_kans, push_closed_kans, push_discards,
};
use crate::verdict::is_lawful;
use crate::winning::judge_winning;
use mj_deeds::{Answer, Answers, Deed};
use mj_table::Table;
use std::alloc::{AllocError, Global};

// For so many answers there is room where a list has new memory.
const ANSWERS: usize = 32;

/// The answers that a seat, 0 to 3, may give in the window on the newest deed: all that are in form, break no rule and name
/// no more than they have to. They stand by type in the order pass, discard, chi, pon, open kan, concealed kan, added kan,
/// reach, win, nine kinds, within a type by their tiles in tile order, and a discard unmarked before it is marked. A pass
/// alone takes no memory.
pub fn possible(alloc: Global, table: &Table, seat: u8) -> Result<Answers, AllocError>
    requires { seat ≤ 3 }
    ensures { IfOk result (λ list. list ≡ possible table.now.rules table.now.deeds seat) }
{
    let mut list = Answers::pass_alone();
    possible_over(alloc, table, seat, &mut list)?;
    Ok(list)
}

/// Puts the answers that `possible` lists in place of another list, whose memory they take. The only error is running out of
/// memory, and then the list stays as it was.
pub fn possible_over(
    alloc: Global,
    table: &Table,
    seat: u8,
    list: &mut Answers,
) -> Result<(), AllocError>
    requires { seat ≤ 3 }
    ensures ok { OnOk result (list.new ≡ possible table.now.rules table.now.deeds seat) }
    ensures err { OnErr result (list.new ≡ list.old) }
{
    if passes_alone(table, seat) {
        set_pass_alone(alloc, list);
        return Ok(());
    }
    let mut items = spare_memory(alloc, list)?;
    push_discards(table, seat, &mut items)?;
    push_calls(table, seat, &mut items)?;
    push_closed_kans(table, seat, &mut items)?;
    push_added_kans(table, seat, &mut items)?;
    push_reach(table, seat, &mut items)?;
    push_win(table, seat, &mut items)?;
    push_nine_kinds(table, seat, &mut items)?;
    set_after_pass(table, seat, items, list)?;
    Ok(())
}

// The turn is another's and offers the seat no win, or it is about a discard that is of no use to the seat: then it passes.
fn passes_alone(table: &Table, seat: u8) -> bool
    requires { seat ≤ 3 }
    ensures { result ≡ true → answers.Pass None ∷ [] ≡ possible table.now.rules table.now.deeds seat }
{
    if !is_discarding(table, seat) && !may_win(table, seat) {
        return true;
    }
    is_of_no_use(table, seat)
}

// Lists a pass alone; the memory of another list is kept for the next one.
fn set_pass_alone(alloc: Global, list: &mut Answers)
    ensures { list.new ≡ answers.Pass None ∷ [] }
{
    if !is_pass_alone(list) {
        let memory = list.take(alloc);
        list.set_pass(memory);
    }
}

// The memory that a pass alone keeps for the next list, as a vector without items. Another list is not touched: it has to stand
// until the next one is whole, so that one has new memory.
fn spare_memory(alloc: Global, list: &mut Answers) -> Result<Vec<Answer>, AllocError>
    ensures empty { IfOk result (λ memory. memory.items ≡ []) }
    ensures same { list.new ≡ list.old }
{
    if !is_pass_alone(list) {
        return Vec::with_capacity(alloc, ANSWERS);
    }
    let memory = list.take(alloc);
    *list = Answers::pass_alone();
    Ok(memory)
}

// Whether the list is a pass alone, which names no actor.
fn is_pass_alone(list: &Answers) -> bool
    ensures { result ≡ true → list.now ≡ answers.Pass None ∷ [] }
{
    matches!(list.as_slice(), [Answer::Pass { actor: None }])
}

// Lists the answers after a pass, where a pass is lawful.
fn set_after_pass(
    table: &Table,
    seat: u8,
    items: Vec<Answer>,
    list: &mut Answers,
) -> Result<(), AllocError>
    requires { seat ≤ 3 }
    ensures ok { OnOk result (list.new
        ≡ lawful_among table.now.rules table.now.deeds seat (answers.Pass None ∷ [])
        ++ items.items) }
    ensures err { OnErr result (list.new ≡ list.old) }
{
    let mut items = items;
    if !may_pass(table, seat) {
        *list = Answers::from_vec(items);
        return Ok(());
    }
    if items.is_empty() {
        list.set_pass(items);
        return Ok(());
    }
    items.insert(0, Answer::Pass { actor: None })?;
    *list = Answers::from_vec(items);
    Ok(())
}

// Adds a reach where it is lawful.
fn push_reach(table: &Table, seat: u8, items: &mut Vec<Answer>) -> Result<(), AllocError>
    requires { seat ≤ 3 }
    ensures { OnOk result (items.new.items ≡ items.old.items
        ++ lawful_among table.now.rules table.now.deeds seat (answers.Reach seat ∷ [])) }
{
    if !may_reach(table, seat) {
        return Ok(());
    }
    push_lawful(table, seat, &[Answer::Reach { actor: seat }], items)?;
    Ok(())
}

// A reach is lawful: at the own draw of a hand that isn't in riichi, where it breaks no rule of reaches.
#[tactic(auto, using(crate::proofs::Drawn::reach_judged), unfolding(mj_rules::specs::View::view_of))]
fn may_reach(table: &Table, seat: u8) -> bool
    requires { seat ≤ 3 }
    ensures { result ≡ is_lawful table.now.rules seat (view_of table.now.deeds seat)
        (answers.Reach seat) }
{
    is_own_draw(table, seat) && !table.is_in_riichi(seat) && keeps_reach_rules(table, seat)
}

// The hand is closed, the points and the live tiles are enough, and some discard leaves it ready.
fn keeps_reach_rules(table: &Table, seat: u8) -> bool
    requires { seat ≤ 3 }
    ensures { let view = view_of table.now.deeds seat in
        let reach = answers.Reach seat in
        result ≡ (not (is_reach_open view reach) && (not (is_reach_poor view reach)
        && (not (is_reach_late view reach) && not (is_reach_unready view reach)))) }
{
    let reach = Answer::Reach { actor: seat };
    !is_reach_open(table, seat, &reach)
        && !is_reach_poor(table, seat, &reach)
        && !is_reach_late(table, seat, &reach)
        && !is_reach_unready(table, seat, &reach)
}

// Adds nine kinds where they are lawful: at the own draw alone, of a hand that has them.
fn push_nine_kinds(table: &Table, seat: u8, items: &mut Vec<Answer>) -> Result<(), AllocError>
    requires { seat ≤ 3 }
    ensures { OnOk result (items.new.items ≡ items.old.items
        ++ lawful_among table.now.rules table.now.deeds seat (answers.NineKinds seat ∷ [])) }
{
    if !is_own_draw(table, seat) {
        return Ok(());
    }
    let nine = Answer::NineKinds { actor: seat };
    if is_not_nine(table, seat, &nine) {
        return Ok(());
    }
    push_lawful(table, seat, &[nine], items)?;
    Ok(())
}

// Adds the win that the turn offers, where it is lawful: at the own draw, or on a tile of another seat.
#[tactic(auto, using(crate::proofs::Tried::nothing_added))]
fn push_win(table: &Table, seat: u8, items: &mut Vec<Answer>) -> Result<(), AllocError>
    requires { seat ≤ 3 }
    ensures { OnOk result (items.new.items ≡ items.old.items
        ++ lawful_among table.now.rules table.now.deeds seat
        (all_wins seat (turn_in (option_map turn_by (newest table.now.deeds))))) }
{
    if !may_win(table, seat) {
        return Ok(());
    }
    match table.newest() {
        Some(Deed::Draw { seat: who, .. }) => {
            push_win_from(table, seat, *who, items)?;
            Ok(())
        }
        Some(Deed::Discard { seat: who, .. }) => {
            push_win_from(table, seat, *who, items)?;
            Ok(())
        }
        Some(Deed::AddedKan { seat: who, .. }) => {
            push_win_from(table, seat, *who, items)?;
            Ok(())
        }
        _ => Ok(()),
    }
}

// Adds the win on the tile of this seat, drawn by it or given, where it is lawful.
fn push_win_from(
    table: &Table,
    seat: u8,
    target: u8,
    items: &mut Vec<Answer>,
) -> Result<(), AllocError>
    requires seat { seat ≤ 3 }
    requires offered { is_winning seat (turn_in (option_map turn_by (newest table.now.deeds))) ≡ true }
    ensures { OnOk result (items.new.items ≡ items.old.items
        ++ lawful_among table.now.rules table.now.deeds seat
        (answers.Win seat target None ∷ [])) }
{
    let win = Answer::Win {
        actor: seat,
        target,
        tile: None,
    };
    if judge_winning(table, seat, target, None).is_err() {
        return Ok(());
    }
    push_lawful(table, seat, &[win], items)?;
    Ok(())
}

// Adds those of some answers that are lawful.
#[tactic(auto, unfolding(crate::specs::Inner::Tried::lawful_among))]
pub(crate) fn push_lawful(
    table: &Table,
    seat: u8,
    tried: &[Answer],
    items: &mut Vec<Answer>,
) -> Result<(), AllocError>
    requires { seat ≤ 3 }
    ensures { OnOk result (items.new.items ≡ items.old.items
        ++ lawful_among table.now.rules table.now.deeds seat tried.now) }
{
    for answer in tried {
        if is_lawful(table, seat, answer) {
            items.push(*answer)?;
        }
    }
    Ok(())
}
