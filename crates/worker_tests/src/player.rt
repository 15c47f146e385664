//! What players enter by a pass of their own, and what they see.

ghost use Rattle.std.specs.Prelude.{◌≡◌};
ghost use Rattle.mj_ports.specs.Entries.{author_of};
ghost use Rattle.turn_lock.specs.Notes.{Follows};
ghost use Rattle.turn_lock.specs.Turns.{IsIdle};

use mj_links::Numbered;
use mj_ports::{Heard, Left, Seated, SitAnswer};
use mj_seats::Room;
use std::alloc::Global;
use std::sync::Wait;
use test_guests::{A, B, C, D};
use turn_lock::{Noted, Pass, Turn};

/// Three seats are taken.
pub const THREE: [Step; 3] = [Step::Sits(A), Step::Sits(B), Step::Sits(C)];

/// Four seats are taken, and left again.
pub const GONE: [Step; 8] = [
    Step::Sits(A),
    Step::Sits(B),
    Step::Sits(C),
    Step::Sits(D),
    Step::Leaves(0),
    Step::Leaves(1),
    Step::Leaves(2),
    Step::Leaves(3),
];

/// What a player does.
#[derive(Clone, Copy)]
pub enum Step {
    /// It takes a seat by this line.
    Sits(&'static str),
    /// It says a line at a seat, which is taken.
    Says(u8, &'static str),
    /// It leaves a seat.
    Leaves(u8),
}

/// What is seen of a game, and whether a fault of number 1 is kept beside it.
#[derive(Clone, Copy)]
pub struct Shown {
    pub entries: u64,
    pub deeds: u32,
    pub over: bool,
    pub present: [bool; 4],
    pub failed: bool,
}

// Whether a player has done this.
fn enter<G: Seated>(game: &mut G, alloc: Global, author: u8, step: Step) -> bool
    ensures setting { G.setting game.new ≡ G.setting game.old }
    ensures entries { Follows author_of author (G.history game.old) (G.history game.new) }
{
    match step {
        Step::Sits(line) => match game.sit(alloc, author, line.as_bytes()) {
            SitAnswer::Sat(_) => true,
            SitAnswer::Back(_) => true,
            SitAnswer::Refused(_) => false,
            SitAnswer::NoMemory => false,
        },
        Step::Says(seat, line) => say(game, alloc, author, seat, line.as_bytes()),
        Step::Leaves(seat) => leave(game, alloc, author, seat),
    }
}

fn say<G: Seated>(game: &mut G, alloc: Global, author: u8, seat: u8, line: &[u8]) -> bool
    ensures setting { G.setting game.new ≡ G.setting game.old }
    ensures entries { Follows author_of author (G.history game.old) (G.history game.new) }
{
    if seat >= 4 || game.author(seat) != Some(author) || game.due(seat) >= game.deeds() {
        return false;
    }
    match game.said(alloc, author, seat, line) {
        Heard::Taken => true,
        Heard::Late => false,
        Heard::Refused(_) => false,
        Heard::Closing(_) => false,
        Heard::NoMemory => false,
    }
}

fn leave<G: Seated>(game: &mut G, alloc: Global, author: u8, seat: u8) -> bool
    ensures setting { G.setting game.new ≡ G.setting game.old }
    ensures entries { Follows author_of author (G.history game.old) (G.history game.new) }
{
    if seat >= 4 || game.author(seat) != Some(author) {
        return false;
    }
    match game.gone(alloc, author, seat) {
        Left::Gone => true,
        Left::NoMemory => false,
    }
}

/// Whether a player has done this in its turn.
pub fn act<G: Seated, F: Numbered, R: Wait>(
    turn: &Turn<Room<G, F>>,
    rt: &R,
    alloc: Global,
    pass: &mut Pass<Room<G, F>>,
    step: Step,
) -> bool
    requires { IsIdle ⟦<Room<G, F> as Noted>⟧.setting turn.now pass.old }
    ensures { IsIdle ⟦<Room<G, F> as Noted>⟧.setting turn.now pass.new }
{
    let number = pass.number();
    let mut held = turn.take(rt, pass);
    let done = enter(held.value(), alloc, number, step);
    turn.give(pass, held);
    done
}

/// Whether a player has done all this, one step after the other.
pub fn act_all<G: Seated, F: Numbered, R: Wait>(
    turn: &Turn<Room<G, F>>,
    rt: &R,
    alloc: Global,
    pass: &mut Pass<Room<G, F>>,
    steps: &[Step],
) -> bool
    requires { IsIdle ⟦<Room<G, F> as Noted>⟧.setting turn.now pass.old }
    ensures { IsIdle ⟦<Room<G, F> as Noted>⟧.setting turn.now pass.new }
{
    let mut all = true;
    for step in steps {
        all = act(turn, rt, alloc, pass, *step) && all;
    }
    all
}

/// Whether a player has done all this so many times.
pub fn act_often<G: Seated, F: Numbered, R: Wait>(
    turn: &Turn<Room<G, F>>,
    rt: &R,
    alloc: Global,
    pass: &mut Pass<Room<G, F>>,
    steps: &[Step],
    times: u32,
) -> bool
    requires { IsIdle ⟦<Room<G, F> as Noted>⟧.setting turn.now pass.old }
    ensures { IsIdle ⟦<Room<G, F> as Noted>⟧.setting turn.now pass.new }
{
    let mut all = true;
    for _ in 0..times {
        all = act_all(turn, rt, alloc, pass, steps) && all;
    }
    all
}

fn shown_by<G: Seated, F: Numbered>(room: &Room<G, F>) -> Shown {
    let game = &room.game;
    Shown {
        entries: game.entries(),
        deeds: game.deeds(),
        over: game.over(),
        present: [
            game.present(0),
            game.present(1),
            game.present(2),
            game.present(3),
        ],
        failed: room.lost.has(1),
    }
}

/// Looks at the game once.
pub fn look<G: Seated, F: Numbered, R: Wait>(
    turn: &Turn<Room<G, F>>,
    rt: &R,
    pass: &mut Pass<Room<G, F>>,
) -> Shown
    requires { IsIdle ⟦<Room<G, F> as Noted>⟧.setting turn.now pass.old }
    ensures { IsIdle ⟦<Room<G, F> as Noted>⟧.setting turn.now pass.new }
{
    let mut held = turn.take(rt, pass);
    let shown = shown_by(held.value());
    turn.give(pass, held);
    shown
}
