//! A handler at tables: it takes links from the host, and serves each at the table that its first line is for.

ghost use Rattle.std.specs.Prelude.{◌≡◌, ◌<◌, ◌≤◌, ◌+◌, ℕ, List, All, true, false, IfSome, IfOk, IsSomeAnd, length, vec_len, vec_capacity};
ghost use Rattle.mj_links.specs.Hosts.{IsFresh, ComesFresh, CameFault};
ghost use Rattle.mj_ports.specs.declared.answers.Control.TheVariants.{Hello};
ghost use Rattle.mj_ports.specs.declared.picking.Picked.{Picked};
ghost use Rattle.mj_ports.specs.declared.picking.Picked.TheVariants.{Table};
ghost use Rattle.mj_handlers.specs.declared.visit.Finding.TheVariants as finding;
ghost use Rattle.mj_handlers.specs.Handlers.{WantsMemory, rows, link_state};
ghost use Rattle.mj_handlers.specs.Picks.{IsBelow};
ghost use Rattle.mj_ticker.specs.Idle.{AllIdle};
ghost use Rattle.mj_handlers.specs.Hands.{AllLegal, AreOver, SomeGoesOn, HandEnds, IsLobby, Handles};
ghost use Rattle.mj_handlers.specs.Inner.Receipts.{WasReceived};
ghost use Rattle.mj_handlers.specs.Inner.Steps.{AllQuiet, HandEndsTo};
ghost use Rattle.mj_session.specs.Sessions.{IsExcused};
ghost use Rattle.mj_session.specs.Wires.{wire_state};

use crate::door::Door;
use crate::lobby::{Lobby, Received, receive};
use crate::visit::{Finding, HandlerEnd, Session, ask, give_up, lose};
use mj_links::{Came, Link, Wire};
use mj_ports::Picker;
use mj_session::{Ended, SharedGame, serve_joined};
use std::alloc::{AllocError, Global};
use std::sync::Wait;
use turn_lock::{Noted, Pass, Turn};

/// Takes links from the host and serves each to the end of its session, until all games are over, the host fails, or memory
/// is wanting. A link is kept where its session had a seat, with those of its table. The passes and the lists of sessions are
/// those of the turns, in this order.
pub fn handle<T: SharedGame, D: Door<Fault = <T as SharedGame>::Fault>, R: Wait>(
    turns: &[Turn<T>],
    rt: &R,
    alloc: Global,
    lobby: &Lobby,
    door: &D,
    number: u8,
    passes: &mut [Pass<T>],
    kept: &mut [Vec<Session<D::Link>>],
) -> HandlerEnd<D::Fault>
    requires lobby { IsLobby T.says lobby.now }
    requires picks { (line : List ℕ) → IsBelow (length turns.now) (D.picks door.now line) }
    requires many { (length passes.old ≡ length turns.now) × (length kept.old ≡ length turns.now) }
    requires idle { AllIdle T.Noted.setting turns.now passes.old }
    ensures many { (length passes.new ≡ length turns.now) × (length kept.new ≡ length turns.now) }
    ensures idle { AllIdle T.Noted.setting turns.now passes.new }
    ensures legal { AllLegal T.Seated T.Noted.setting turns.now passes.new }
    ensures hand { Handles T.Seated T.Noted.setting (link_state D.Link.Link) (D.picks door.now) (WantsMemory result) number turns.now
        passes.old (rows kept.old) passes.new (rows kept.new) }
    ensures ended { HandEnds T.Seated T.Noted.setting turns.now (D.made_by door.now) T.Fault.number result
        number passes.new }
{
    for _ in rt.forever() {
        if let Some(end) = handle_once(turns, rt, alloc, lobby, door, number, passes, kept) {
            return end;
        }
    }
    unreachable!()
}

// Takes one link, and serves it.
fn handle_once<T: SharedGame, D: Door<Fault = <T as SharedGame>::Fault>, R: Wait>(
    turns: &[Turn<T>],
    rt: &R,
    alloc: Global,
    lobby: &Lobby,
    door: &D,
    number: u8,
    passes: &mut [Pass<T>],
    kept: &mut [Vec<Session<D::Link>>],
) -> Option<HandlerEnd<D::Fault>>
    requires lobby { IsLobby T.says lobby.now }
    requires picks { (line : List ℕ) → IsBelow (length turns.now) (D.picks door.now line) }
    requires many { (length passes.old ≡ length turns.now) × (length kept.old ≡ length turns.now) }
    requires idle { AllIdle T.Noted.setting turns.now passes.old }
    ensures many { (length passes.new ≡ length turns.now) × (length kept.new ≡ length turns.now) }
    ensures idle { AllIdle T.Noted.setting turns.now passes.new }
    ensures legal { IfSome result (λ _. AllLegal T.Seated T.Noted.setting turns.now passes.new) }
    ensures hand { Handles T.Seated T.Noted.setting (link_state D.Link.Link) (D.picks door.now) (IsSomeAnd result WantsMemory) number turns.now
        passes.old (rows kept.old) passes.new (rows kept.new) }
    ensures ended { HandEndsTo T.Seated T.Noted.setting turns.now (D.made_by door.now) T.Fault.number result
        number passes.new }
{
    match ask_all(turns, rt, passes) {
        Finding::Over => Some(HandlerEnd::Over),
        Finding::NoMemory => Some(HandlerEnd::NoMemory),
        Finding::GoesOn => match make_room(kept) {
            Ok(()) => take_link(turns, rt, alloc, lobby, door, number, passes, kept),
            Err(_) => {
                give_up_all(turns, rt, passes);
                Some(HandlerEnd::NoMemory)
            }
        },
    }
}

// Takes a link, for whose session there is room, and serves it.
fn take_link<T: SharedGame, D: Door<Fault = <T as SharedGame>::Fault>, R: Wait>(
    turns: &[Turn<T>],
    rt: &R,
    alloc: Global,
    lobby: &Lobby,
    door: &D,
    number: u8,
    passes: &mut [Pass<T>],
    kept: &mut [Vec<Session<D::Link>>],
) -> Option<HandlerEnd<D::Fault>>
    requires lobby { IsLobby T.says lobby.now }
    requires picks { (line : List ℕ) → IsBelow (length turns.now) (D.picks door.now line) }
    requires many { (length passes.old ≡ length turns.now) × (length kept.old ≡ length turns.now) }
    requires idle { AllIdle T.Noted.setting turns.now passes.old }
    requires room { All (λ v. vec_len v + 1 ≤ vec_capacity v) kept.old }
    ensures many { (length passes.new ≡ length turns.now) × (length kept.new ≡ length turns.now) }
    ensures idle { AllIdle T.Noted.setting turns.now passes.new }
    ensures legal { IfSome result (λ _. AllLegal T.Seated T.Noted.setting turns.now passes.new) }
    ensures hand { Handles T.Seated T.Noted.setting (link_state D.Link.Link) (D.picks door.now) (IsSomeAnd result WantsMemory) number turns.now
        passes.old (rows kept.old) passes.new (rows kept.new) }
    ensures ended { HandEndsTo T.Seated T.Noted.setting turns.now (D.made_by door.now) T.Fault.number result
        number passes.new }
{
    match next_link(turns, rt, number, passes, door) {
        Came::Link(link) => serve_link(turns, rt, alloc, lobby, door, link, number, passes, kept),
        Came::Nothing => None,
        Came::Failed(fault) => {
            if lose_all(turns, rt, passes, fault) {
                return Some(HandlerEnd::Over);
            }
            Some(HandlerEnd::Host(fault))
        }
    }
}

// Asks the host until it has a link or fails, or until a table has changed since it was seen.
fn next_link<T: SharedGame, D: Door<Fault = <T as SharedGame>::Fault>, R: Wait>(
    turns: &[Turn<T>],
    rt: &R,
    number: u8,
    passes: &[Pass<T>],
    door: &D,
) -> Came<D::Link, D::Fault>
    requires many { length passes.now ≡ length turns.now }
    requires idle { AllIdle T.Noted.setting turns.now passes.now }
    ensures fresh { ComesFresh D.Link.was_read D.Link.written D.Link.read_faults
        D.Link.write_faults result }
    ensures fault { CameFault (D.made_by door.now) T.Fault.number number result }
{
    for _ in rt.forever() {
        match door.accept(number) {
            Came::Link(link) => return Came::Link(link),
            Came::Failed(fault) => return Came::Failed(fault),
            Came::Nothing => {
                if any_changed(turns, passes) {
                    return Came::Nothing;
                }
            }
        }
    }
    unreachable!()
}

fn any_changed<T: SharedGame>(turns: &[Turn<T>], passes: &[Pass<T>]) -> bool
    requires many { length passes.now ≡ length turns.now }
    requires idle { AllIdle T.Noted.setting turns.now passes.now }
{
    for t in 0..turns.len() {
        if turns[t].has_changed(&passes[t]) {
            return true;
        }
    }
    false
}

// Receives a link, serves it at its table to the end of its session, and shuts it.
fn serve_link<T: SharedGame, L: Link + Drop, F, P: Picker, R: Wait>(
    turns: &[Turn<T>],
    rt: &R,
    alloc: Global,
    lobby: &Lobby,
    picker: &P,
    link: L,
    number: u8,
    passes: &mut [Pass<T>],
    kept: &mut [Vec<Session<L>>],
) -> Option<HandlerEnd<F>>
    requires lobby { IsLobby T.says lobby.now }
    requires picks { (line : List ℕ) → IsBelow (length turns.now) (P.picks picker.now line) }
    requires many { (length passes.old ≡ length turns.now) × (length kept.old ≡ length turns.now) }
    requires idle { AllIdle T.Noted.setting turns.now passes.old }
    requires room { All (λ v. vec_len v + 1 ≤ vec_capacity v) kept.old }
    requires fresh { IsFresh (L.was_read link) (L.written link) (L.read_faults link)
        (L.write_faults link) }
    ensures many { (length passes.new ≡ length turns.now) × (length kept.new ≡ length turns.now) }
    ensures idle { AllIdle T.Noted.setting turns.now passes.new }
    ensures legal { IfSome result (λ _. AllLegal T.Seated T.Noted.setting turns.now passes.new) }
    ensures hand { Handles T.Seated T.Noted.setting (link_state L.Link) (P.picks picker.now) (IsSomeAnd result WantsMemory) number turns.now
        passes.old (rows kept.old) passes.new (rows kept.new) }
    ensures ended { IfSome result WantsMemory }
{
    let mut wire = Wire::new(link);
    match receive(alloc, lobby, picker, &mut wire) {
        Received::At(table, line) => {
            let t = usize::from(table);
            let ended = play_link(turns, rt, wire, t, line, number, passes, kept);
            end_after(turns, rt, ended, passes)
        }
        Received::Nowhere => {
            wire.into_link().shut();
            None
        }
        Received::NoMemory => {
            wire.into_link().shut();
            give_up_all(turns, rt, passes);
            Some(HandlerEnd::NoMemory)
        }
    }
}

// Serves a link that was received at its table to the end of its session, and shuts it. It is kept where its session had a
// seat.
fn play_link<T: SharedGame, L: Link + Drop, R: Wait>(
    turns: &[Turn<T>],
    rt: &R,
    mut wire: Wire<L>,
    t: usize,
    line: Vec<u8>,
    number: u8,
    passes: &mut [Pass<T>],
    kept: &mut [Vec<Session<L>>],
) -> Ended
    requires table { t < length turns.now }
    requires many { (length passes.old ≡ length turns.now) × (length kept.old ≡ length turns.now) }
    requires idle { AllIdle T.Noted.setting turns.now passes.old }
    requires room { All (λ v. vec_len v + 1 ≤ vec_capacity v) kept.old }
    requires received { WasReceived (link_state L.Link) (T.says Hello) line.items (wire_state L.Link wire) }
    ensures many { (length passes.new ≡ length turns.now) × (length kept.new ≡ length turns.now) }
    ensures idle { AllIdle T.Noted.setting turns.now passes.new }
    ensures hand { (picks : List ℕ → Picked) → picks line.items ≡ Table t
        → Handles T.Seated T.Noted.setting (link_state L.Link) picks (IsExcused result) number turns.now
        passes.old (rows kept.old) passes.new (rows kept.new) }
{
    let alloc = *line.allocator();
    let first = line.as_slice();
    let served = serve_joined(&turns[t], rt, alloc, &mut passes[t], &mut wire, first);
    let mut link = wire.into_link();
    link.shut();
    match served.place {
        Some(place) => {
            kept[t].push_reserved(Session { link, place });
            served.ended
        }
        None => served.ended,
    }
}

// How a handler ends after a session: not at all, but where memory was wanting, which all tables are told.
fn end_after<T: SharedGame, F, R: Wait>(
    turns: &[Turn<T>],
    rt: &R,
    ended: Ended,
    passes: &mut [Pass<T>],
) -> Option<HandlerEnd<F>>
    requires many { length passes.old ≡ length turns.now }
    requires idle { AllIdle T.Noted.setting turns.now passes.old }
    ensures quiet { AllQuiet T.Noted.setting turns.now passes.old passes.new }
    ensures legal { IfSome result (λ _. AllLegal T.Seated T.Noted.setting turns.now passes.new) }
    ensures excuses { IsExcused ended → IsSomeAnd result WantsMemory }
    ensures ended { IfSome result WantsMemory }
{
    match ended {
        Ended::NoMemory => {
            give_up_all(turns, rt, passes);
            Some(HandlerEnd::NoMemory)
        }
        Ended::GameOver => None,
        Ended::PeerEnded => None,
        Ended::LinkFault => None,
        Ended::LineTooLong => None,
        Ended::TooManyRefusals => None,
        Ended::NotSeated(_) => None,
    }
}

// Looks at all tables, each in its turn: whether all games are over, or memory was wanting at one.
fn ask_all<T: SharedGame, R: Wait>(turns: &[Turn<T>], rt: &R, passes: &mut [Pass<T>]) -> Finding
    requires many { length passes.old ≡ length turns.now }
    requires idle { AllIdle T.Noted.setting turns.now passes.old }
    ensures quiet { AllQuiet T.Noted.setting turns.now passes.old passes.new }
    ensures legal { AllLegal T.Seated T.Noted.setting turns.now passes.new }
    ensures over { result ≡ finding.Over
        → AreOver T.Seated T.Noted.setting turns.now (length turns.now) passes.new }
{
    let mut all = Finding::Over;
    for t in 0..turns.len() {
        let found = ask(&turns[t], rt, &mut passes[t]);
        all = and_also(all, found);
    }
    all
}

// What two findings come to.
fn and_also(before: Finding, found: Finding) -> Finding
    ensures { result ≡ finding.Over → (before ≡ finding.Over) × (found ≡ finding.Over) }
{
    match before {
        Finding::NoMemory => Finding::NoMemory,
        Finding::Over => found,
        Finding::GoesOn => match found {
            Finding::NoMemory => Finding::NoMemory,
            Finding::Over => Finding::GoesOn,
            Finding::GoesOn => Finding::GoesOn,
        },
    }
}

// Keeps at all tables the fault by which the host failed the handler, and says whether all games are over.
fn lose_all<T: SharedGame, R: Wait>(
    turns: &[Turn<T>],
    rt: &R,
    passes: &mut [Pass<T>],
    fault: T::Fault,
) -> bool
    requires many { length passes.old ≡ length turns.now }
    requires idle { AllIdle T.Noted.setting turns.now passes.old }
    ensures quiet { AllQuiet T.Noted.setting turns.now passes.old passes.new }
    ensures legal { AllLegal T.Seated T.Noted.setting turns.now passes.new }
    ensures over { result ≡ true → AreOver T.Seated T.Noted.setting turns.now (length turns.now) passes.new }
    ensures on { result ≡ false → SomeGoesOn T.Seated T.Noted.setting turns.now (length turns.now) passes.new }
{
    let mut over = true;
    for t in 0..turns.len() {
        over &= lose(&turns[t], rt, &mut passes[t], fault);
    }
    over
}

// Marks at all tables that memory was wanting.
fn give_up_all<T: SharedGame, R: Wait>(turns: &[Turn<T>], rt: &R, passes: &mut [Pass<T>])
    requires many { length passes.old ≡ length turns.now }
    requires idle { AllIdle T.Noted.setting turns.now passes.old }
    ensures quiet { AllQuiet T.Noted.setting turns.now passes.old passes.new }
    ensures legal { AllLegal T.Seated T.Noted.setting turns.now passes.new }
{
    for t in 0..turns.len() {
        give_up(&turns[t], rt, &mut passes[t]);
    }
}

// Makes room for one session at each table.
fn make_room<L: Link + Drop>(kept: &mut [Vec<Session<L>>]) -> Result<(), AllocError>
    ensures many { length kept.new ≡ length kept.old }
    ensures same { rows kept.new ≡ rows kept.old }
    ensures room { IfOk result (λ u. All (λ v. vec_len v + 1 ≤ vec_capacity v) kept.new) }
{
    for t in 0..kept.len() {
        kept[t].reserve(1)?;
    }
    Ok(())
}
