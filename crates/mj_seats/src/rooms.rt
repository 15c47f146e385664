// Games in their rooms, and what is reserved before workers play.
ghost use Rattle.std.specs.Prelude.{◌≡◌, ◌≤◌, ◌<◌, ◌+◌, [], All, IfOk, IfErr, length, map, vec_len, vec_capacity};
ghost use Rattle.mj_ticker.specs.declared.ticker.Sight.TheVariants.{Nothing};
ghost use Rattle.mj_workers.specs.Staffs.{IsReady, HasRoom};

use crate::gather::empty_lists;
use crate::open::Opened;
use mj_links::Numbered;
use mj_ports::Seated;
use mj_session::{Lost, Room};
use mj_ticker::Sight;
use mj_workers::{Back, Desk, Hand};
use std::alloc::{AllocError, Global};
use turn_lock::{Noted, Pass, Turn};

// A room for each game, in this order, with places for the faults of so many handlers. Where memory is wanting, the games
// stay.
pub(crate) fn seat<G: Seated, F: Numbered>(
    alloc: Global,
    games: &mut Vec<G>,
    handlers: u8,
) -> Result<Vec<Room<G, F>>, AllocError>
    ensures ok { IfOk result (λ rs. (map (λ r. r.game) rs.items ≡ games.old.items)
        × (games.new.items ≡ [])) }
    ensures err { IfErr result (λ e. games.new.items ≡ games.old.items) }
    ensures room { vec_capacity games.new ≡ vec_capacity games.old }
{
    let number = games.len();
    let losts = losts_for(alloc, number, handlers)?;
    let rooms = Vec::with_capacity(alloc, number)?;
    Ok(seat_all(games, losts, rooms))
}

fn losts_for<F: Numbered>(
    alloc: Global,
    number: usize,
    handlers: u8,
) -> Result<Vec<Lost<F>>, AllocError>
    ensures { IfOk result (λ ls. length ls.items ≡ number) }
{
    let mut losts = Vec::with_capacity(alloc, number)?;
    for _ in 0..number {
        losts.push_reserved(Lost::new(alloc, handlers)?);
    }
    Ok(losts)
}

fn seat_all<G: Seated, F: Numbered>(
    games: &mut Vec<G>,
    mut losts: Vec<Lost<F>>,
    rooms: Vec<Room<G, F>>,
) -> Vec<Room<G, F>>
    requires many { length losts.items ≡ length games.old.items }
    requires empty { rooms.items ≡ [] }
    requires room { vec_len games.old ≤ vec_capacity rooms }
    ensures games { map (λ r. r.game) result.items ≡ games.old.items }
    ensures left { games.new.items ≡ [] }
    ensures kept { vec_capacity games.new ≡ vec_capacity games.old }
    ensures room { vec_capacity result ≡ vec_capacity rooms }
{
    let Some(game) = games.pop() else {
        return rooms;
    };
    let lost = losts.pop().unwrap();
    let mut rooms = seat_all(games, losts, rooms);
    rooms.push_reserved(Room {
        game,
        lost,
        dry: false,
    });
    rooms
}

// Puts the games of rooms back, in this order.
pub(crate) fn leave<G: Seated, F: Numbered>(mut rooms: Vec<Room<G, F>>, games: &mut Vec<G>)
    requires empty { games.old.items ≡ [] }
    requires room { vec_len rooms ≤ vec_capacity games.old }
    ensures games { games.new.items ≡ map (λ r. r.game) rooms.items }
    ensures room { vec_capacity games.new ≡ vec_capacity games.old }
{
    let Some(room) = rooms.pop() else {
        return;
    };
    leave(rooms, games);
    games.push_reserved(room.game);
}

// Room for the turns of tables and for what workers have at them.
#[derive(Drop)]
pub(crate) struct Reserved<T: Noted, L, F> {
    pub opened: Opened<T>,
    pub desk: Desk<Pass<T>>,
    pub hands: Vec<Hand<Pass<T>, L>>,
    pub back: Back<Pass<T>, L, F>,
    pub rows: Vec<Vec<Pass<T>>>,
}

// Room for so many handlers and a ticker at so many tables.
pub(crate) fn reserve<T: Noted, L: Drop, F: Drop>(
    alloc: Global,
    handlers: u8,
    tables: usize,
) -> Result<Reserved<T, L, F>, AllocError>
    requires { handlers < 64 }
    ensures empty { IfOk result (λ r. (r.opened.turns.items ≡ []) × (r.opened.rows.items ≡ [])) }
    ensures turns { IfOk result (λ r. (tables ≤ vec_capacity r.opened.turns)
        × (tables ≤ vec_capacity r.opened.rows)) }
    ensures desk { IfOk result (λ r. (r.desk.passes.items ≡ []) × (tables ≤ vec_capacity r.desk.passes)
        × (length r.desk.sights.items ≡ tables) × All (λ s. s ≡ Nothing) r.desk.sights.items) }
    ensures hands { IfOk result (λ r. (length r.hands.items ≡ handlers)
        × All (IsReady tables) r.hands.items) }
    ensures back { IfOk result (λ r. HasRoom (handlers + 1) r.back) }
    ensures rows { IfOk result (λ r. (length r.rows.items ≡ tables)
        × All (λ row. (row.items ≡ []) × (handlers + 1 ≤ vec_capacity row)) r.rows.items) }
{
    let count = usize::from(handlers) + 1;
    Ok(Reserved {
        opened: opened_for(alloc, tables)?,
        desk: desk_for(alloc, tables)?,
        hands: hands_for(alloc, handlers, tables)?,
        back: back_for(alloc, count)?,
        rows: rows_for(alloc, tables, count)?,
    })
}

fn opened_for<T: Noted>(alloc: Global, tables: usize) -> Result<Opened<T>, AllocError>
    ensures empty { IfOk result (λ o. (o.turns.items ≡ []) × (o.rows.items ≡ [])) }
    ensures room { IfOk result (λ o. (tables ≤ vec_capacity o.turns) × (tables ≤ vec_capacity o.rows)) }
{
    Ok(Opened {
        turns: Vec::with_capacity(alloc, tables)?,
        rows: Vec::with_capacity(alloc, tables)?,
    })
}

fn desk_for<P: Drop>(alloc: Global, tables: usize) -> Result<Desk<P>, AllocError>
    ensures { IfOk result (λ d. (d.passes.items ≡ []) × (tables ≤ vec_capacity d.passes)
        × (length d.sights.items ≡ tables) × All (λ s. s ≡ Nothing) d.sights.items) }
{
    Ok(Desk {
        sights: sights_for(alloc, tables)?,
        passes: Vec::with_capacity(alloc, tables)?,
    })
}

// Room for what is left of so many.
fn back_for<P: Drop, L: Drop, F: Drop>(
    alloc: Global,
    count: usize,
) -> Result<Back<P, L, F>, AllocError>
    ensures { IfOk result (HasRoom count) }
{
    Ok(Back {
        columns: Vec::with_capacity(alloc, count)?,
        kept: Vec::with_capacity(alloc, count)?,
        ends: Vec::with_capacity(alloc, count)?,
    })
}

fn sights_for(alloc: Global, tables: usize) -> Result<Vec<Sight>, AllocError>
    ensures many { IfOk result (λ ss. length ss.items ≡ tables) }
    ensures nothing { IfOk result (λ ss. All (λ s. s ≡ Nothing) ss.items) }
{
    let mut sights = Vec::with_capacity(alloc, tables)?;
    for _ in 0..tables {
        sights.push_reserved(Sight::Nothing);
    }
    Ok(sights)
}

fn hands_for<P: Drop, L: Drop>(
    alloc: Global,
    handlers: u8,
    tables: usize,
) -> Result<Vec<Hand<P, L>>, AllocError>
    ensures many { IfOk result (λ hs. length hs.items ≡ handlers) }
    ensures ready { IfOk result (λ hs. All (IsReady tables) hs.items) }
{
    let mut hands = Vec::with_capacity(alloc, usize::from(handlers))?;
    for _ in 0..handlers {
        hands.push_reserved(hand_for(alloc, tables)?);
    }
    Ok(hands)
}

fn hand_for<P: Drop, L: Drop>(alloc: Global, tables: usize) -> Result<Hand<P, L>, AllocError>
    ensures { IfOk result (IsReady tables) }
{
    Ok(Hand {
        passes: Vec::with_capacity(alloc, tables)?,
        kept: empty_lists(alloc, tables)?,
    })
}

// Rows for so many tables, each with room for so many passes.
fn rows_for<P: Drop>(alloc: Global, tables: usize, count: usize) -> Result<Vec<Vec<P>>, AllocError>
    ensures many { IfOk result (λ rs. length rs.items ≡ tables) }
    ensures room { IfOk result (λ rs. All (λ r. (r.items ≡ []) × (count ≤ vec_capacity r)) rs.items) }
{
    let mut rows = Vec::with_capacity(alloc, tables)?;
    for _ in 0..tables {
        rows.push_reserved(Vec::with_capacity(alloc, count)?);
    }
    Ok(rows)
}
