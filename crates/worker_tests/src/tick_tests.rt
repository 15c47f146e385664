//! The telling of the time.

ghost use Rattle.turn_lock.specs.Turns.{IsIdle};

use crate::hall::shuffled_two;
use crate::player::{GONE, Shown, Step, act_all, look};
use mj_links::{Clock, MemClock, Numbered};
use mj_ports::Seated;
use mj_seats::{Room, Ticked, tick};
use std::alloc::Global;
use std::sync::Wait;
use turn_lock::{Noted, Pass, Turn};

// Whether the other pass has done all that it was to do, how the telling of the time ended, what others see then, and the next
// reading of the clock.
#[derive(Clone, Copy)]
struct Told {
    done: bool,
    ticked: Ticked,
    shown: Shown,
    next: u64,
}

// Tells the time by the second pass, once the first one has done all this.
fn tell<G: Seated, F: Numbered, R: Wait>(
    turn: &Turn<Room<G, F>>,
    rt: &R,
    alloc: Global,
    first: &mut Pass<Room<G, F>>,
    second: &mut Pass<Room<G, F>>,
    before: &[Step],
    step: u64,
) -> Told
    requires first { IsIdle ⟦<Room<G, F> as Noted>⟧.setting turn.now first.old }
    requires second { IsIdle ⟦<Room<G, F> as Noted>⟧.setting turn.now second.old }
{
    let done = act_all(turn, rt, alloc, first, before);
    let mut clock = MemClock::new(0, step);
    let ticked = tell_time(turn, rt, alloc, second, &mut clock);
    Told {
        done,
        ticked,
        shown: look(turn, rt, first),
        next: clock.now(),
    }
}

/// Tells the time by a pass until the game is over or all have lost their host.
pub fn tell_time<G: Seated, F: Numbered, R: Wait>(
    turn: &Turn<Room<G, F>>,
    rt: &R,
    alloc: Global,
    pass: &mut Pass<Room<G, F>>,
    clock: &mut MemClock,
) -> Ticked
    requires { IsIdle ⟦<Room<G, F> as Noted>⟧.setting turn.now pass.old }
{
    tick(turn, rt, alloc, pass, clock)
}

// What comes of a clock that goes on by this step, at a game whose seats are all gone, beside faults of these numbers.
fn told_beside<R: Wait>(rt: &R, alloc: Global, numbers: &[u8], step: u64) -> Option<Told> {
    match shuffled_two(alloc, numbers) {
        Some(mut two) => Some(tell(
            &two.turn,
            rt,
            alloc,
            &mut two.first,
            &mut two.second,
            &GONE,
            step,
        )),
        None => None,
    }
}

// The step of a clock, and by how many readings it closes a window.
const STEPS: [(u64, u64); 4] = [(1000, 2), (999, 3), (334, 4), (5000, 2)];

fn closes_by(told: Option<Told>, step: u64, readings: u64) -> bool {
    let Some(told) = told else {
        return false;
    };
    let expired = told.shown.entries.saturating_sub(8);
    told.done
        && told.ticked == Ticked::Over
        && told.shown.over
        && expired > 500
        && u64::from(told.shown.deeds) == expired.saturating_add(1)
        && told.next == expired.saturating_mul(readings).saturating_mul(step)
}

// The numbers of those that have lost their host, and how the telling of the time ends.
const LOST: [(&[u8], Ticked); 3] = [
    (&[0, 1, 2, 3, 4, 5, 6, 7], Ticked::HostGone),
    (&[0, 1, 2, 3, 4, 5, 6], Ticked::Over),
    (&[1, 2, 3, 4, 5, 6, 7], Ticked::Over),
];

fn ends_so(told: Option<Told>, wanted: Ticked) -> bool {
    match told {
        Some(told) => {
            told.done && told.ticked == wanted && told.shown.over == (wanted == Ticked::Over)
        }
        None => false,
    }
}

#[test]
fn each_window_is_closed_by_readings_that_are_the_limit_apart_until_all_eight_have_lost_their_host(
    rt: HostRuntime,
) {
    for (step, readings) in STEPS {
        assert!(rt; closes_by(told_beside(&rt, rt.alloc(), &[], step), step, readings));
    }
    for (numbers, wanted) in LOST {
        assert!(rt; ends_so(told_beside(&rt, rt.alloc(), numbers, 1000), wanted));
    }
}
