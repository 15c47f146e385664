//! The built-in player: what it answers in the window on the newest deed of a table. No call takes memory.
#![tactic(auto)]

ghost use Rattle.mj_bot.specs.Laws.{ChoiceIsLawful, ChoiceIsOne};

mod choosing;
mod discards;

pub use choosing::choose;

/// What the built-in player answers for a seat is lawful: it is in form and breaks no rule. So it is where each deed fits
/// after those before it, as long as some discard right after the seat's own reach, chi or pon breaks none.
pub fn choice_is_lawful()
    ensures { ChoiceIsLawful }
{}

/// There is one choice: two that the built-in player might give for a seat in the window on the same deeds are the same
/// answer, for only one discard is the best.
pub fn choice_is_one()
    ensures { ChoiceIsOne }
{}
