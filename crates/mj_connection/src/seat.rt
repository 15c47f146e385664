// What single calls of a game do to a connection.
ghost use Rattle.std.specs.Prelude.{◌≡◌, ◌⊎◌, ℕ, ◌<◌, ◌≤◌, ◌++◌, [], ◌∷◌, List, IfOk, OnOk, OnErr};
ghost use Rattle.mj_ports.specs.declared.entry.Entry.TheVariants.{Gone};
ghost use Rattle.mj_ports.specs.Seats.{hello, replay};
ghost use Rattle.mj_connection.specs.declared.stage.End.TheVariants as over;
ghost use Rattle.mj_connection.specs.declared.stage.Connection.TheVariants.{Greeted, Free, Asked, Ended};
ghost use Rattle.mj_connection.specs.Seating.{AddsOne};
ghost use Rattle.mj_connection.specs.Stages.{Fits, Stands};
ghost use Rattle.mj_connection.specs.Spoken.{Takes, Hears, Told, IsQuiet, IsShort, FindsDue};

use crate::stage::{Connection, End, SeatAt};
use mj_ports::{Control, Heard, Left, Seated, SitAnswer};
use std::alloc::{AllocError, Global};

// Gives the first line a seat, and writes what it is told after the hello line, or the line of its refusal.
pub(crate) fn sit_down<G: Seated>(
    game: &mut G,
    author: u8,
    line: &[u8],
    into: &mut Vec<u8>,
) -> Connection
    ensures setting { G.setting game.new ≡ G.setting game.old }
    ensures adds { AddsOne author (G.history game.old) (G.history game.new) }
    ensures takes { Takes G.Seated (G.setting game.old) author Greeted result
        (G.history game.old) (G.history game.new) into.old.items into.new.items (line.now ∷ []) }
    ensures quiet { IsQuiet (Greeted ≡ Greeted) result into.old.items into.new.items }
{
    let alloc = *into.allocator();
    let place = game.entries();
    match game.sit(alloc, author, line) {
        SitAnswer::Sat(seat) => {
            let _entries = game.entries();
            Connection::Free(SeatAt { seat, place })
        }
        SitAnswer::Back(seat) => {
            let _entries = game.entries();
            match tell_again(game, seat, into) {
                Ok(()) => Connection::Free(SeatAt { seat, place }),
                Err(_) => Connection::Ended(End::Cut(SeatAt { seat, place })),
            }
        }
        SitAnswer::Refused(why) => match game.control(alloc, &Control::SitRefused(why), into) {
            Ok(()) => Connection::Ended(End::Refused(why)),
            Err(_) => Connection::Ended(End::Dry),
        },
        SitAnswer::NoMemory => Connection::Ended(End::Dry),
    }
}

// The replay head and the lines before the due deed of the seat, after the hello line at the end of `into`.
#[tactic(auto, using(crate::proofs::Replays::replay_start, crate::proofs::Replays::replay_more, crate::proofs::Replays::replay_whole, crate::proofs::Replays::replay_none, crate::proofs::Replays::replay_part))]
fn tell_again<G: Seated>(game: &G, seat: u8, into: &mut Vec<u8>) -> Result<(), AllocError>
    requires seat { seat < 4 }
    requires due { (G.after (G.setting game.now) (G.history game.now)).due seat
        ≤ (G.after (G.setting game.now) (G.history game.now)).deeds }
    ensures ok { OnOk result ((before : List ℕ) → before ++ into.old.items ≡ hello G.says
        → before ++ into.new.items
        ≡ replay G.says (G.after (G.setting game.now) (G.history game.now)) seat) }
    ensures err { OnErr result ((before : List ℕ) → before ++ into.old.items ≡ hello G.says
        → (more : List ℕ) × (replay G.says (G.after (G.setting game.now) (G.history game.now)) seat
        ≡ (before ++ into.new.items) ++ more)) }
{
    let alloc = *into.allocator();
    let due = game.due(seat);
    game.control(alloc, &Control::Head(due), into)?;
    for k in 0..due {
        let Some(text) = game.line(seat, k) else {
            unreachable!()
        };
        into.extend_from_slice(text)?;
    }
    Ok(())
}

// Enters what a line says, and writes the error line where it is refused.
pub(crate) fn say<G: Seated>(
    game: &mut G,
    author: u8,
    at: SeatAt,
    line: &[u8],
    into: &mut Vec<u8>,
) -> Connection
    requires fits { Fits (Asked at) author (G.after (G.setting game.old) (G.history game.old)) }
    ensures setting { G.setting game.new ≡ G.setting game.old }
    ensures adds { AddsOne author (G.history game.old) (G.history game.new) }
    ensures fits { Fits result author (G.after (G.setting game.old) (G.history game.new)) }
    ensures hears { Hears G.Seated (G.setting game.old) author (Asked at) result
        (G.history game.old) (G.history game.new) (line.now ∷ []) }
    ensures tells { Told G.Seated (G.setting game.old) author (Asked at) result
        (G.history game.old) (G.history game.new) into.old.items into.new.items }
    ensures quiet { IsQuiet ⊥ result into.old.items into.new.items }
{
    let alloc = *into.allocator();
    let heard = game.said(alloc, author, at.seat, line);
    let _entries = game.entries();
    match heard {
        Heard::Taken => Connection::Free(at),
        Heard::Late => Connection::Free(at),
        Heard::Refused(rule) => match game.control(alloc, &Control::Refused(rule), into) {
            Ok(()) => Connection::Asked(at),
            Err(_) => Connection::Ended(End::Cut(at)),
        },
        Heard::Closing(rule) => match game.control(alloc, &Control::Refused(rule), into) {
            Ok(()) => Connection::Ended(End::Closed(at)),
            Err(_) => Connection::Ended(End::Cut(at)),
        },
        Heard::NoMemory => Connection::Ended(End::Cut(at)),
    }
}

// Looks for the due deed of the seat of a connection that waits for it, and writes its line after what stands in `into`; or
// finds that the game is over.
#[tactic(auto, using(crate::proofs::Scripts::script_due, crate::proofs::Scripts::script_none_due))]
pub(crate) fn look_for<G: Seated>(game: &G, at: SeatAt, into: &mut Vec<u8>) -> Connection
    requires fits { (author : ℕ)
        × Fits (Free at) author (G.after (G.setting game.now) (G.history game.now)) }
    ensures takes { (author : ℕ)
        → Fits (Free at) author (G.after (G.setting game.now) (G.history game.now))
        → Takes G.Seated (G.setting game.now) author (Free at) result
        (G.history game.now) (G.history game.now) into.old.items into.new.items [] }
    ensures quiet { IsQuiet ⊥ result into.old.items into.new.items }
{
    match tell_due(game, at.seat, into) {
        Ok(true) => Connection::Asked(at),
        Ok(false) => {
            if game.over() {
                Connection::Ended(End::Over(at))
            } else {
                Connection::Free(at)
            }
        }
        Err(_) => Connection::Ended(End::Cut(at)),
    }
}

// Writes the line of the due deed of the seat after what stands in `into`; false where there is no such deed yet.
fn tell_due<G: Seated>(game: &G, seat: u8, into: &mut Vec<u8>) -> Result<bool, AllocError>
    requires { seat < 4 }
    ensures ok { IfOk result (λ found. FindsDue found
        (G.after (G.setting game.now) (G.history game.now)) seat into.old.items into.new.items) }
    ensures err { OnErr result (into.new.items ≡ into.old.items) }
{
    let Some(text) = game.line(seat, game.due(seat)) else {
        return Ok(false);
    };
    into.extend_from_slice(text)?;
    Ok(true)
}

// Writes the line of the due deed of the seat after what stands in `into`, if there is one, and enters that the seat is gone.
#[tactic(auto, using(crate::proofs::Scripts::script_due, crate::proofs::Scripts::script_none_due))]
pub(crate) fn leave_told<G: Seated>(
    game: &mut G,
    author: u8,
    at: SeatAt,
    into: &mut Vec<u8>,
) -> Connection
    requires { Fits (Free at) author (G.after (G.setting game.old) (G.history game.old)) }
    ensures setting { G.setting game.new ≡ G.setting game.old }
    ensures adds { AddsOne author (G.history game.old) (G.history game.new) }
    ensures parts { ((result ≡ Ended (over.Left at)) × (G.history game.new
        ≡ G.history game.old ++ Gone author at.seat ∷ [])) ⊎ IsShort result }
    ensures takes { Takes G.Seated (G.setting game.old) author (Free at) result
        (G.history game.old) (G.history game.new) into.old.items into.new.items [] }
{
    let alloc = *into.allocator();
    match tell_due(game, at.seat, into) {
        Ok(true) => leave(game, alloc, author, at),
        Ok(false) => leave(game, alloc, author, at),
        Err(_) => Connection::Ended(End::Cut(at)),
    }
}

// Enters that the seat is gone. What its connection is to be told stays the same by it.
#[tactic(auto, using(crate::proofs::Scripts::told_whole))]
pub(crate) fn leave<G: Seated>(game: &mut G, alloc: Global, author: u8, at: SeatAt) -> Connection
    requires { Stands (G.after (G.setting game.old) (G.history game.old)) author at }
    ensures setting { G.setting game.new ≡ G.setting game.old }
    ensures adds { AddsOne author (G.history game.old) (G.history game.new) }
    ensures parts { ((result ≡ Ended (over.Left at)) × (G.history game.new
        ≡ G.history game.old ++ Gone author at.seat ∷ [])) ⊎ IsShort result }
    ensures takes { (before : List ℕ) → Takes G.Seated (G.setting game.old) author (Asked at) result
        (G.history game.old) (G.history game.new) before before [] }
{
    let left = game.gone(alloc, author, at.seat);
    let _entries = game.entries();
    match left {
        Left::Gone => Connection::Ended(End::Left(at)),
        Left::NoMemory => Connection::Ended(End::Cut(at)),
    }
}
