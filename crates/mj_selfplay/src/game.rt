ghost use Rattle.std.specs.Prelude.{◌≡◌, ◌≤◌, ◌∷◌, ◌++◌, [], false, IfOk, OnOk, IsTrue, length};
ghost use Rattle.std.specs.List.{list_all};
ghost use Rattle.mj_deeds.specs.Facts.{newest};
ghost use Rattle.mj_wall.specs.Places.{is_wall};
ghost use Rattle.mj_rules.specs.Outcome.{goes_on};
ghost use Rattle.mj_rules.specs.Played.{IsPlayed};
ghost use Rattle.mj_selfplay.specs.SelfGame.{AreChoices, IsChosen, IsSummary, IsSelfSummary, self_rules, self_start, seed_of};
ghost use Rattle.mj_selfplay.specs.Inner.Supplies.{game_walls};

use crate::supply::{enough_walls, first_walls};
use crate::tally::{Summary, Tally};
use mj_bot::choose;
use mj_deeds::{Answer, Deed, Four, Names};
use mj_machine::next;
use mj_memory::Memory;
use mj_ports::Name;
use mj_table::Table;
use mj_wall::{Rules, Walls};
use std::alloc::{AllocError, Global};

/// Plays the whole game of a number and says what it comes to: four built-in players, by the names of a, b, c and d, play
/// with the first 200 walls of the seed that has the number in its first eight bytes, the lowest first, and then zeros,
/// without red fives and without the draw reasons.
pub fn self_play(alloc: Global, number: u64) -> Result<Summary, AllocError>
    ensures { IfOk result (λ summary. IsSelfSummary number summary) }
{
    play(alloc, seed(number))
}

// The seed of a number.
#[tactic(auto, unfolding(crate::specs::SelfGame::seed_of))]
fn seed(number: u64) -> [u8; 32]
    ensures { result ≡ seed_of number }
{
    let mut seed = [0; 32];
    seed[..8].copy_from_slice(&number.to_le_bytes());
    seed
}

// What the game with the walls of a seed comes to.
fn play(alloc: Global, seed: [u8; 32]) -> Result<Summary, AllocError>
    ensures { IfOk result (λ summary. IsSummary self_rules (game_walls seed) summary) }
{
    let mut table = started(alloc)?;
    play_on(alloc, seed, &mut table)
}

// Plays it on the table, on which it has started. More walls are shuffled only where its hands go on.
fn play_on(alloc: Global, seed: [u8; 32], table: &mut Table) -> Result<Summary, AllocError>
    requires { table.old ≡ record { rules = self_rules; deeds = self_start ∷ [] } }
    ensures { IfOk result (λ summary. IsSummary self_rules (game_walls seed) summary) }
{
    let mut walls = first_walls(alloc, seed)?;
    let begun = start(alloc)?;
    let mut tally = Tally::none().with(begun);
    let mut memory = Memory::new(alloc)?;
    while goes_on(table) {
        walls = enough_walls(alloc, seed, walls, tally.hands)?;
        let deed = step(alloc, table, &walls, &mut memory)?;
        tally = tally.with(deed);
    }
    Ok(tally.summary(table))
}

// A table on which the game has started.
fn started(alloc: Global) -> Result<Table, AllocError>
    ensures { IfOk result (λ table. table
        ≡ record { rules = self_rules; deeds = self_start ∷ [] }) }
{
    let mut table = Table::new(rules())?;
    push_start(alloc, &mut table)?;
    Ok(table)
}

// Pushes the start of the game on its table.
#[inline(always)]
fn push_start(alloc: Global, table: &mut Table) -> Result<(), AllocError>
    requires { table.old ≡ record { rules = self_rules; deeds = [] } }
    ensures { OnOk result (table.new ≡ record { rules = self_rules; deeds = self_start ∷ [] }) }
{
    let begun = start(alloc)?;
    table.push(&begun)?;
    Ok(())
}

// The deed that the choices of the four seats give, which is pushed on the table.
fn step(
    alloc: Global,
    table: &mut Table,
    walls: &Walls,
    memory: &mut Memory,
) -> Result<Deed, AllocError>
    requires some { 1 ≤ length walls.now }
    requires few { length walls.now ≤ 200 }
    requires whole { IsTrue (list_all (is_wall table.old.rules.red) walls.now) }
    requires played { IsPlayed table.old.rules walls.now table.old.deeds }
    requires on { IsTrue (goes_on (newest table.old.deeds)) }
    ensures chosen { IfOk result (λ d. IsChosen table.old.rules walls.now table.old.deeds d) }
    ensures pushed { IfOk result (λ d. table.new
        ≡ record { rules = table.old.rules; deeds = table.old.deeds ++ d ∷ [] }) }
    ensures played { IfOk result (λ d. IsPlayed table.old.rules walls.now table.new.deeds) }
{
    let answers = choices(table, memory);
    next(alloc, table, walls.as_slice(), &answers)
}

// What each of the four seats answers.
fn choices(table: &Table, memory: &mut Memory) -> Four<Answer>
    ensures { AreChoices table.now.rules table.now.deeds result }
{
    Four {
        first: choose(table, 0, memory),
        second: choose(table, 1, memory),
        third: choose(table, 2, memory),
        fourth: choose(table, 3, memory),
    }
}

// The game isn't over.
fn goes_on(table: &Table) -> bool
    ensures { result ≡ goes_on (newest table.now.deeds) }
{
    match table.newest() {
        None => false,
        Some(Deed::EndGame { .. }) => false,
        Some(_) => true,
    }
}

// The rules of the game.
#[tactic(auto, unfolding(crate::specs::SelfGame::self_rules))]
fn rules() -> Rules
    ensures { result ≡ self_rules }
{
    Rules {
        limit: 10000,
        draws: false,
        red: false,
    }
}

// The start of the game.
#[tactic(auto, unfolding(crate::specs::SelfGame::self_start))]
fn start(alloc: Global) -> Result<Deed, AllocError>
    ensures { IfOk result (λ deed. deed ≡ self_start) }
{
    let names = Four {
        first: Name::of(b"a"),
        second: Name::of(b"b"),
        third: Name::of(b"c"),
        fourth: Name::of(b"d"),
    };
    Ok(Deed::StartGame {
        names: Names::of(alloc, names)?,
    })
}
