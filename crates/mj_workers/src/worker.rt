//! Handlers side by side, and the ticker beside them.

ghost use Rattle.std.specs.Prelude.{◌≡◌, ◌<◌, ℕ, List, All, ◌∷◌, ◌++◌, [], length, vec_len, vec_capacity};
ghost use Rattle.std.specs.Thread.{IsSync};
ghost use Rattle.mj_handlers.specs.Handlers.{rows, link_state};
ghost use Rattle.mj_handlers.specs.Picks.{IsBelow};
ghost use Rattle.mj_workers.specs.Columns.{items_of};
ghost use Rattle.mj_handlers.specs.Hands.{IsLobby};
ghost use Rattle.mj_workers.specs.Staffs.{AreNewRows, AreNewPasses, AreEmpty, IsReady, HasRoom, HasRoomOf, IsDone, AllDone, sessions_of};
ghost use Rattle.mj_ticker.specs.Watches.{AreWatched};

use crate::columns::take_column;
use mj_handlers::{Door, HandlerEnd, Lobby, Session, handle};
use mj_links::Clock;
use mj_session::SharedGame;
use mj_ticker::{Sight, tick_all};
use std::alloc::Global;
use std::sync::Wait;
use std::thread::{Threads, join};
use turn_lock::{Noted, Pass, Turn};

/// What a worker has at tables: a pass of each, and the sessions with a seat that it served at each.
#[derive(Drop)]
pub struct Hand<P, L> {
    pub passes: Vec<P>,
    pub kept: Vec<Vec<Session<L>>>,
}

/// What is left of handlers, in the order of their numbers: the passes of each, its sessions, and how it ended.
#[derive(Drop)]
pub struct Back<P, L, F> {
    pub columns: Vec<Vec<P>>,
    pub kept: Vec<Vec<Vec<Session<L>>>>,
    pub ends: Vec<HandlerEnd<F>>,
}

/// What handlers begin with.
#[derive(Drop)]
pub struct Staff<P, L, F> {
    /// A row of passes for each table.
    pub rows: Vec<Vec<P>>,
    /// Room for what each handler has at the tables.
    pub hands: Vec<Hand<P, L>>,
    /// Room for what is left of them.
    pub back: Back<P, L, F>,
}

/// What the ticker has at tables: a pass of each, and what it knows of each.
#[derive(Drop)]
pub struct Desk<P> {
    pub passes: Vec<P>,
    pub sights: Vec<Sight>,
}

// What is left of a handler at tables and a door: what it has there, and how it ended.
type DoneAt<T, D> = (
    Hand<Pass<T>, <D as Door>::Link>,
    HandlerEnd<<D as Door>::Fault>,
);

/// What is left of handlers at tables and a door.
pub type BackAt<T, D> = Back<Pass<T>, <D as Door>::Link, <D as Door>::Fault>;

/// What handlers begin with at tables and a door.
pub type StaffAt<T, D> = Staff<Pass<T>, <D as Door>::Link, <D as Door>::Fault>;

/// Handles links with each column of the passes, and tells the time at the desk, all side by side.
pub fn work<
    T: SharedGame,
    D: Door<Fault = <T as SharedGame>::Fault>,
    C: Clock,
    R: Threads + Wait + Sync,
>(
    turns: &Vec<Turn<T>>,
    rt: &R,
    alloc: Global,
    lobby: &Lobby,
    door: &D,
    clock: &mut C,
    handlers: u8,
    staff: StaffAt<T, D>,
    desk: Desk<Pass<T>>,
) -> (BackAt<T, D>, Desk<Pass<T>>)
    requires lobby { IsLobby T.says lobby.now }
    requires picks { (line : List ℕ) → IsBelow (length turns.now.items) (D.picks door.now line) }
    requires rows { AreNewRows T.Noted.setting T.history turns.now.items (length staff.hands.items)
        (items_of staff.rows.items) }
    requires hands { All (IsReady (length turns.now.items)) staff.hands.items }
    requires few { length staff.hands.items < 256 }
    requires back { HasRoom (length staff.hands.items) staff.back }
    requires desk { AreWatched T.Seated T.lost handlers T.Noted.setting handlers (λ t. T.history t.opening)
        (C.readings clock.old) (C.readings clock.old) turns.now.items desk.passes.items desk.sights.items }
    ensures done { AllDone T.Seated T.Noted.setting (link_state D.Link.Link) (D.picks door.now) (D.made_by door.now) T.Fault.number
        turns.now.items (length staff.hands.items) (items_of result.0.columns.items)
        (sessions_of result.0.kept.items) result.0.ends.items }
    ensures room { HasRoomOf staff.back result.0 }
    ensures ticks { AreWatched T.Seated T.lost handlers T.Noted.setting handlers (λ t. T.history t.opening)
        (C.readings clock.old) (C.readings clock.new) turns.now.items result.1.passes.items
        result.1.sights.items }
{
    let (back, (desk, clock)) = join(
        rt,
        move || -> BackAt<T, D>
            requires { IsLobby T.says lobby.now
                × ((line : List ℕ) → IsBelow (length turns.now.items) (D.picks door.now line))
                × AreNewRows T.Noted.setting T.history turns.now.items (length staff.hands.items)
                (items_of staff.rows.items)
                × All (IsReady (length turns.now.items)) staff.hands.items
                × (length staff.hands.items < 256) × HasRoom (length staff.hands.items) staff.back
                × IsSync R.row }
            ensures { AllDone T.Seated T.Noted.setting (link_state D.Link.Link) (D.picks door.entry.now) (D.made_by door.entry.now) T.Fault.number
                turns.entry.now.items (length staff.hands.items) (items_of result.columns.items)
                (sessions_of result.kept.items) result.ends.items × HasRoomOf staff.back result }
        { handle_all(turns, rt, alloc, lobby, door, staff) },
        move || -> (Desk<Pass<T>>, &mut C)
            requires { AreWatched T.Seated T.lost handlers T.Noted.setting handlers (λ t. T.history t.opening)
                (C.readings clock.now) (C.readings clock.now) turns.now.items desk.passes.items
                desk.sights.items × IsSync R.row }
            ensures { (result.1.ghost_name ≡ clock.entry.ghost_name)
                × AreWatched T.Seated T.lost handlers T.Noted.setting handlers (λ t. T.history t.opening)
                (C.readings clock.entry.now) (C.readings result.1.now) turns.entry.now.items
                result.0.passes.items result.0.sights.items }
        { tick_at(turns, rt, alloc, handlers, desk, clock) },
    );
    take_back(clock);
    (back, desk)
}

// Handles links with each column of the passes, side by side: the last one here, the others in a thread beside it.
#[cycle(handling)]
fn handle_all<T: SharedGame, D: Door<Fault = <T as SharedGame>::Fault>, R: Threads + Wait + Sync>(
    turns: &Vec<Turn<T>>,
    rt: &R,
    alloc: Global,
    lobby: &Lobby,
    door: &D,
    mut staff: StaffAt<T, D>,
) -> BackAt<T, D>
    requires lobby { IsLobby T.says lobby.now }
    requires picks { (line : List ℕ) → IsBelow (length turns.now.items) (D.picks door.now line) }
    requires rows { AreNewRows T.Noted.setting T.history turns.now.items (length staff.hands.items)
        (items_of staff.rows.items) }
    requires hands { All (IsReady (length turns.now.items)) staff.hands.items }
    requires few { length staff.hands.items < 256 }
    requires back { HasRoom (length staff.hands.items) staff.back }
    ensures done { AllDone T.Seated T.Noted.setting (link_state D.Link.Link) (D.picks door.now) (D.made_by door.now) T.Fault.number
        turns.now.items (length staff.hands.items) (items_of result.columns.items)
        (sessions_of result.kept.items) result.ends.items }
    ensures room { HasRoomOf staff.back result }
{
    let Some(hand) = staff.hands.pop() else {
        return staff.back;
    };
    let number = staff.hands.len() as u8;
    let Hand { passes, kept } = hand;
    let passes = take_column(&mut staff.rows, passes);
    let (mut back, (hand, end)) = join(
        rt,
        move || -> BackAt<T, D>
            requires { IsLobby T.says lobby.now
                × ((line : List ℕ) → IsBelow (length turns.now.items) (D.picks door.now line))
                × AreNewRows T.Noted.setting T.history turns.now.items (length staff.hands.items)
                (items_of staff.rows.items)
                × All (IsReady (length turns.now.items)) staff.hands.items
                × (length staff.hands.items < 256) × HasRoom (length staff.hands.items) staff.back
                × IsSync R.row }
            ensures { AllDone T.Seated T.Noted.setting (link_state D.Link.Link) (D.picks door.entry.now) (D.made_by door.entry.now) T.Fault.number
                turns.entry.now.items (length staff.hands.items) (items_of result.columns.items)
                (sessions_of result.kept.items) result.ends.items × HasRoomOf staff.back result }
        { handle_all(turns, rt, alloc, lobby, door, staff) },
        move || -> DoneAt<T, D>
            requires { IsLobby T.says lobby.now
                × ((line : List ℕ) → IsBelow (length turns.now.items) (D.picks door.now line))
                × AreNewPasses T.Noted.setting T.history turns.now.items number passes.items
                × AreEmpty (length turns.now.items) kept.items × IsSync R.row }
            ensures { IsDone T.Seated T.Noted.setting (link_state D.Link.Link) (D.picks door.entry.now) (D.made_by door.entry.now) T.Fault.number
                turns.entry.now.items number result.0.passes.items (rows result.0.kept.items) result.1 }
        { handle_one(turns, rt, alloc, lobby, door, number, passes, kept) },
    );
    add_done(&mut back, hand, end);
    back
}

// Handles links with these new passes.
fn handle_one<T: SharedGame, D: Door<Fault = <T as SharedGame>::Fault>, R: Wait>(
    turns: &Vec<Turn<T>>,
    rt: &R,
    alloc: Global,
    lobby: &Lobby,
    door: &D,
    number: u8,
    mut passes: Vec<Pass<T>>,
    mut kept: Vec<Vec<Session<D::Link>>>,
) -> DoneAt<T, D>
    requires lobby { IsLobby T.says lobby.now }
    requires picks { (line : List ℕ) → IsBelow (length turns.now.items) (D.picks door.now line) }
    requires passes { AreNewPasses T.Noted.setting T.history turns.now.items number passes.items }
    requires kept { AreEmpty (length turns.now.items) kept.items }
    ensures { IsDone T.Seated T.Noted.setting (link_state D.Link.Link) (D.picks door.now) (D.made_by door.now) T.Fault.number
        turns.now.items number result.0.passes.items (rows result.0.kept.items) result.1 }
{
    let end = handle(
        turns.as_slice(),
        rt,
        alloc,
        lobby,
        door,
        number,
        passes.as_mut_slice(),
        kept.as_mut_slice(),
    );
    (Hand { passes, kept }, end)
}

// Puts what is left of one handler more after the others.
fn add_done<P, L, F>(back: &mut Back<P, L, F>, hand: Hand<P, L>, end: HandlerEnd<F>)
    requires columns { vec_len back.old.columns < vec_capacity back.old.columns }
    requires kept { vec_len back.old.kept < vec_capacity back.old.kept }
    requires ends { vec_len back.old.ends < vec_capacity back.old.ends }
    ensures columns { back.new.columns.items ≡ back.old.columns.items ++ hand.passes ∷ [] }
    ensures kept { back.new.kept.items ≡ back.old.kept.items ++ hand.kept ∷ [] }
    ensures ends { back.new.ends.items ≡ back.old.ends.items ++ end ∷ [] }
    ensures room { HasRoomOf back.old back.new }
{
    back.columns.push_reserved(hand.passes);
    back.kept.push_reserved(hand.kept);
    back.ends.push_reserved(end);
}

// Tells the time at tables.
fn tick_at<'a, T: SharedGame, C: Clock, R: Wait>(
    turns: &Vec<Turn<T>>,
    rt: &R,
    alloc: Global,
    handlers: u8,
    desk: Desk<Pass<T>>,
    clock: &'a mut C,
) -> (Desk<Pass<T>>, &'a mut C)
    requires { AreWatched T.Seated T.lost handlers T.Noted.setting handlers (λ t. T.history t.opening)
        (C.readings clock.now) (C.readings clock.now) turns.now.items desk.passes.items
        desk.sights.items }
    ensures { (result.1.ghost_name ≡ clock.entry.ghost_name)
        × AreWatched T.Seated T.lost handlers T.Noted.setting handlers (λ t. T.history t.opening)
        (C.readings clock.entry.now) (C.readings result.1.now) turns.now.items
        result.0.passes.items result.0.sights.items }
{
    let Desk {
        mut passes,
        mut sights,
    } = desk;
    tick_all(
        turns.as_slice(),
        rt,
        alloc,
        handlers,
        passes.as_mut_slice(),
        sights.as_mut_slice(),
        clock,
    );
    (Desk { passes, sights }, clock)
}

// Does nothing, but this use of a returned reference is what ties it, for the borrow checker, to the parameter that lent it.
fn take_back<T>(x: &mut T)
    ensures { x.new ≡ x.old }
{}
