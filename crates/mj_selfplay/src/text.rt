//! What is written of a self-played game.

ghost use Rattle.std.specs.Prelude.{◌≡◌, IfOk};
ghost use Rattle.mj_selfplay.specs.Text.{summary_text};

use crate::tally::Summary;
use mj_runs::{push_line, push_result};
use std::alloc::{AllocError, Global};

/// The six lines of a summary, each a name and its numbers in plain decimal, negative points with `-`: `hands`, `wins`,
/// `draws`, `deeds`, `points` of the four seats in their order, and `deposits`.
pub fn summary_lines(alloc: Global, summary: &Summary) -> Result<Vec<u8>, AllocError>
    ensures { IfOk result (λ text. text.items ≡ summary_text summary.now) }
{
    let mut text = Vec::new(alloc);
    push_line(&mut text, b"hands", summary.hands)?;
    push_line(&mut text, b"wins", summary.wins)?;
    push_line(&mut text, b"draws", summary.draws)?;
    push_result(&mut text, summary.deeds, summary.points, summary.deposits)?;
    Ok(text)
}
