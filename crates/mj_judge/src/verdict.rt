ghost use Rattle.std.specs.Prelude.{◌≡◌, ◌≤◌, ◌∷◌, [], ℕ, drop, take, if◌then◌else◌, Some, None};
ghost use Rattle.std.specs.Result.{result_err};
ghost use Rattle.mj_deeds.specs.declared.rule.Rule.TheVariants as refusal;
ghost use Rattle.mj_rules.specs.Broken.{broken_rule, questions, first_broken, is_not_complete, is_furiten_win, is_no_yaku, is_not_nine};
ghost use Rattle.mj_rules.specs.View.{view_of};
ghost use Rattle.mj_rules.specs.Possible.{is_lawful};

use crate::discarding::judge_discard;
use crate::holding::{is_no_such_tile, is_not_drawn, is_not_held};
use crate::nine::is_not_nine;
use crate::questions::{
    is_kan_dry, is_kan_full, is_last_tile, is_not_left, is_not_now, is_not_yours, is_unreadable,
    is_wrong_target,
};
use crate::riichi::{
    is_locked, is_reach_late, is_reach_open, is_reach_poor, is_reach_unready, is_riichi_kan_broken,
};
use crate::sets::is_bad_set;
use crate::swap::{is_stuck_call, is_swap_call};
use crate::turning::{is_discarding, may_pass, may_win};
use crate::winning::{judge_win, judge_winning};
use mj_deeds::{Answer, Rule, is_in_form};
use mj_table::Table;

/// Whether an answer of a seat, 0 to 3, is lawful in the window on the newest deed: it is in form and breaks no rule.
#[tactic(auto, unfolding(mj_rules::specs::Possible::is_lawful))]
pub fn is_lawful(table: &Table, seat: u8, answer: &Answer) -> bool
    requires { seat ≤ 3 }
    ensures { result ≡ is_lawful table.now.rules seat (view_of table.now.deeds seat) answer.now }
{
    match answer {
        Answer::Pass { actor: None } => may_pass(table, seat),
        Answer::Discard { .. } => is_in_form(answer) && judge(table, seat, answer).is_ok(),
        Answer::Win { .. } => is_in_form(answer) && judge(table, seat, answer).is_ok(),
        _ => is_in_form(answer) && judge_in_order(table, seat, answer).is_ok(),
    }
}

/// Whether an answer of a seat, 0 to 3, breaks no rule in the window on the newest deed; the error is the first rule in the
/// order of refusal that it breaks.
#[tactic(auto, unfolding(mj_rules::specs::Broken::broken_by))]
pub fn judge(table: &Table, seat: u8, answer: &Answer) -> Result<(), Rule>
    requires { seat ≤ 3 }
    ensures { result_err result ≡ broken_rule table.now.rules table.now.deeds seat answer.now }
{
    match answer {
        Answer::Pass { actor: None } if may_pass(table, seat) => Ok(()),
        Answer::Discard { actor, tile, drawn } if *actor == seat && is_discarding(table, seat) => {
            judge_discard(table, seat, tile, *drawn)
        }
        Answer::Win {
            actor,
            target,
            tile,
        } if *actor == seat && may_win(table, seat) => {
            judge_winning(table, seat, *target, tile.as_ref())
        }
        _ => judge_in_order(table, seat, answer),
    }
}

// Judges an answer by all rules in their order, whatever it is: a pass, a discard and a win that are open to the seat are
// asked rules of their own alone.
#[tactic(auto, unfolding(mj_rules::specs::Broken::broken_by))]
fn judge_in_order(table: &Table, seat: u8, answer: &Answer) -> Result<(), Rule>
    requires { seat ≤ 3 }
    ensures { result_err result ≡ broken_rule table.now.rules table.now.deeds seat answer.now }
{
    refuse_if(is_unreadable(answer), Rule::Unreadable)?;
    refuse_if(is_not_yours(seat, answer), Rule::NotYours)?;
    refuse_if(is_not_now(table, seat, answer), Rule::NotNow)?;
    judge_act(table, seat, answer)
}

// Judges an answer that is open to the seat, by the rules after the first three.
fn judge_act(table: &Table, seat: u8, answer: &Answer) -> Result<(), Rule>
    requires { seat ≤ 3 }
    ensures { result_err result ≡ first_broken (drop 3 (questions table.now.rules seat
        (view_of table.now.deeds seat) answer.now)) }
{
    refuse_if(is_no_such_tile(table, answer), Rule::NoSuchTile)?;
    refuse_if(is_wrong_target(table, seat, answer), Rule::WrongTarget)?;
    refuse_if(is_last_tile(table, seat, answer), Rule::LastTile)?;
    refuse_if(is_not_held(table, seat, answer), Rule::NotHeld)?;
    refuse_if(is_not_drawn(table, seat, answer), Rule::NotDrawn)?;
    refuse_if(is_locked(table, seat, answer), Rule::Locked)?;
    judge_sets(table, seat, answer)
}

// Judges it by the rules of sets, of swap calling and of kans, and those after them.
#[inline(always)]
fn judge_sets(table: &Table, seat: u8, answer: &Answer) -> Result<(), Rule>
    requires { seat ≤ 3 }
    ensures { result_err result ≡ first_broken (drop 9 (questions table.now.rules seat
        (view_of table.now.deeds seat) answer.now)) }
{
    refuse_if(is_bad_set(table, seat, answer), Rule::BadSet)?;
    refuse_if(is_not_left(table, seat, answer), Rule::NotLeft)?;
    refuse_if(is_swap_call(table, seat, answer), Rule::SwapCall)?;
    refuse_if(is_stuck_call(table, seat, answer), Rule::StuckCall)?;
    refuse_if(is_kan_full(table, seat, answer), Rule::KanFull)?;
    refuse_if(is_kan_dry(table, seat, answer), Rule::KanDry)?;
    refuse_if(is_riichi_kan_broken(table, seat, answer), Rule::RiichiKan)?;
    judge_reach(table, seat, answer)
}

// Judges it by the rules of a reach, and those after them.
#[inline(always)]
fn judge_reach(table: &Table, seat: u8, answer: &Answer) -> Result<(), Rule>
    requires { seat ≤ 3 }
    ensures { result_err result ≡ first_broken (drop 16 (questions table.now.rules seat
        (view_of table.now.deeds seat) answer.now)) }
{
    refuse_if(is_reach_open(table, seat, answer), Rule::ReachOpen)?;
    refuse_if(is_reach_poor(table, seat, answer), Rule::ReachPoor)?;
    refuse_if(is_reach_late(table, seat, answer), Rule::ReachLate)?;
    refuse_if(is_reach_unready(table, seat, answer), Rule::ReachUnready)?;
    judge_end(table, seat, answer)
}

// Refuses an answer that would end the hand, a win or nine kinds, by the first rule of these that it breaks.
fn judge_end(table: &Table, seat: u8, answer: &Answer) -> Result<(), Rule>
    requires { seat ≤ 3 }
    ensures { let view = view_of table.now.deeds seat in
        result_err result ≡ first_broken ((
          is_not_complete view answer.now,
          refusal.NotComplete,
        ) ∷ (is_furiten_win view answer.now, refusal.Furiten) ∷ (
          is_no_yaku view answer.now,
          refusal.NoYaku,
        ) ∷ (is_not_nine view answer.now, refusal.NotNine) ∷ []) }
{
    judge_win(table, seat, answer)?;
    refuse_if(is_not_nine(table, seat, answer), Rule::NotNine)
}

// Refuses an answer by a rule that it breaks.
pub(crate) fn refuse_if(is_broken: bool, rule: Rule) -> Result<(), Rule>
    ensures { result_err result ≡ (if is_broken then Some rule else None) }
{
    if is_broken { Err(rule) } else { Ok(()) }
}
