//! What founds a kept game: the header and the walls of an input, and the tag of its journal, which is their bytes.

ghost use Rattle.std.specs.Prelude.{◌≡◌, ◌≤◌, ◌<◌, ◌+◌, ◌-◌, ◌++◌, ◌∷◌, take, ◌==◌, true, false, [], List, ℕ, length, Some, None, IfOk, IsTrue};
ghost use Rattle.std.specs.List.{list_all};
ghost use Rattle.mj_bytes.specs.Parts.{whole_lines, unfinished};
ghost use Rattle.mj_wall.specs.Places.{is_wall};
ghost use Rattle.mj_runs.specs.Inputs.{longest};
ghost use Rattle.mj_refereeing.specs.Keep.{base_of};
ghost use Rattle.mj_history.specs.Arrivals.{Intake, at_end, form_of, Header, input_of};
ghost use Rattle.mj_refereeing.specs.Referee.{ending};
ghost use Rattle.mj_refereeing.specs.Bases.{IsFounded};
ghost use Rattle.mj_refereeing.specs.Inner.Bases.{IsWalled, end_without};
ghost use Rattle.mj_wall.specs.declared.setting.Rules.{Rules};

use crate::form::{ArrivalForm, read_form};
use crate::intake::{End, end_at, next_wall};
use mj_bytes::split_line;
use mj_wall::{Rules, Wall};
use std::alloc::{AllocError, Global};

/// What founds a kept game: its rules and walls, the tag of its journal, and what stands after these, with the number of
/// its first line.
#[derive(Drop)]
pub struct Base<'a> {
    pub rules: Rules,
    pub walls: Vec<Wall>,
    pub tag: &'a [u8],
    pub rest: &'a [u8],
    pub number: u32,
}

/// What an input founds.
#[derive(Drop)]
pub enum Founded<'a> {
    /// Nothing, since it has no header with a wall after it. It ends so.
    Nothing(End),
    /// A game.
    Game(Base<'a>),
}

/// What an input, of at most 67,108,864 bytes, founds.
pub fn read_base(alloc: Global, input: &[u8]) -> Result<Founded<'_>, AllocError>
    requires { length input.now ≤ longest }
    ensures { IfOk result (λ founded. IsFounded founded input.now) }
{
    let Some((line, others)) = split_line(input) else {
        return Ok(Founded::Nothing(end_at(input, 1)));
    };
    match read_form(alloc, line)? {
        ArrivalForm::Header(rules) => {
            let base = read_walls(alloc, rules, input, others)?;
            Ok(founded_by(base))
        }
        _ => Ok(Founded::Nothing(End::Bad(1))),
    }
}

// The base, where it has a wall.
fn founded_by(base: Base<'_>) -> Founded<'_>
    ensures { (input first others : List ℕ) (rules : Rules) → whole_lines input ≡ first ∷ whole_lines others
        → unfinished input ≡ unfinished others → form_of first ≡ Header rules
        → IsWalled base.entry rules first others → IsFounded result input }
{
    if base.walls.is_empty() {
        return Founded::Nothing(end_after_header(base.rest));
    }
    Founded::Game(base)
}

// How an input ends whose line 2 is no wall in its place.
fn end_after_header(rest: &[u8]) -> End
    ensures { ending result ≡ end_without (whole_lines rest.now) (unfinished rest.now) }
{
    match split_line(rest) {
        Some(_) => End::Bad(2),
        None => end_at(rest, 2),
    }
}

// The walls after a header, each in its place, up to the first other line.
fn read_walls<'a>(
    alloc: Global,
    rules: Rules,
    input: &'a [u8],
    others: &'a [u8],
) -> Result<Base<'a>, AllocError>
    requires shortest { 1 ≤ rules.limit }
    requires longest { rules.limit ≤ 3600000 }
    requires fits { length input.now ≤ longest }
    requires within { length others.now < length input.now }
    ensures { IfOk result (λ base. (first : List ℕ) → input.now ≡ first ++ 10 ∷ others.now
        → IsWalled base rules first others.now) }
{
    let mut walls = Vec::new(alloc);
    let mut rest = others;
    let mut number = 2;
    while let Some((line, next)) = split_line(rest) {
        let ArrivalForm::Wall(tiles) = read_form(alloc, line)? else {
            return Ok(base_at(rules, walls, input, rest, number));
        };
        let Some(wall) = next_wall(rules.red, walls.len(), tiles.as_slice()) else {
            return Ok(base_at(rules, walls, input, rest, number));
        };
        walls.push(wall)?;
        rest = next;
        number += 1;
    }
    Ok(base_at(rules, walls, input, rest, number))
}

// The base whose tag is all of an input but its rest.
fn base_at<'a>(
    rules: Rules,
    walls: Vec<Wall>,
    input: &'a [u8],
    rest: &'a [u8],
    number: u32,
) -> Base<'a>
    requires { length rest.now ≤ length input.now }
    ensures rules { result.rules ≡ rules }
    ensures walls { result.walls.items ≡ walls.items }
    ensures tag { result.tag.now ≡ take (length input.now - length rest.now) input.now }
    ensures rest { result.rest.now ≡ rest.now }
    ensures number { result.number ≡ number }
{
    Base {
        rules,
        walls,
        tag: &input[..input.len() - rest.len()],
        rest,
        number,
    }
}
