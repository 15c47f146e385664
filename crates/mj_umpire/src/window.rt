ghost use Rattle.std.specs.Prelude.{◌≡◌, ◌≤◌, unwrap_or};
ghost use Rattle.mj_deeds.specs.Four.{at_seat};
ghost use Rattle.mj_rules.specs.Default.{default_answer};
ghost use Rattle.mj_history.specs.After.{answers_in};

use mj_deeds::{Answer, Four};
use mj_judge::default;
use mj_table::Table;
use mj_window::Window;

// The four answers: in a slot that is empty stands the default answer.
pub fn answers_in(table: &Table, window: &Window) -> Four<Answer>
    ensures { result ≡ answers_in table.now.rules table.now.deeds window.now }
{
    Four {
        first: answer_in(table, window, 0),
        second: answer_in(table, window, 1),
        third: answer_in(table, window, 2),
        fourth: answer_in(table, window, 3),
    }
}

// The answer of a seat, or else its default answer.
fn answer_in(table: &Table, window: &Window, seat: u8) -> Answer
    requires { seat ≤ 3 }
    ensures { result ≡ unwrap_or (at_seat window.now seat)
        (default_answer table.now.rules table.now.deeds seat) }
{
    match window.slots().at(seat) {
        Some(answer) => *answer,
        None => default(table, seat),
    }
}
