// How turns of tables are made, and how they end.
ghost use Rattle.std.specs.Prelude.{◌≡◌, ◌≤◌, ◌<◌, ◌+◌, ◌++◌, [], ◌∷◌, All, IfOk, IfErr, List, length, vec_len, vec_capacity};
ghost use Rattle.mj_ports.specs.Entries.{author_of};
ghost use Rattle.mj_ticker.specs.Beside.{Matches};
ghost use Rattle.mj_seats.specs.Tables.{ComesBack};
ghost use Rattle.mj_workers.specs.Columns.{items_of};
ghost use Rattle.mj_seats.specs.Inner.Opened.{IsOpened, Opens, IsFullRow, AllClosed};
ghost use Rattle.mj_workers.specs.Staffs.{IsNewRow};

use mj_session::{SharedGame, hold};
use std::alloc::{AllocError, Global};
use turn_lock::{Noted, Pass, Turn};

// A turn for each table, and a row of its passes.
#[derive(Drop)]
pub(crate) struct Opened<T: Noted> {
    pub turns: Vec<Turn<T>>,
    pub rows: Vec<Vec<Pass<T>>>,
}

// A turn with so many passes for each of these tables, in this order, for which there is room. Where memory is wanting,
// the tables come back.
pub(crate) fn open_all<T: SharedGame>(
    alloc: Global,
    tables: &mut Vec<T>,
    passes: u8,
    room: Opened<T>,
) -> Result<Opened<T>, AllocError>
    requires passes { (0 < passes) × (passes ≤ 64) }
    requires below { All (λ x. All (λ e. author_of e < passes) (T.history x)) tables.old.items }
    requires empty { (room.turns.items ≡ []) × (room.rows.items ≡ []) }
    requires room { (vec_len tables.old ≤ vec_capacity room.turns)
        × (vec_len tables.old ≤ vec_capacity room.rows) }
    ensures turns { IfOk result (λ o. Matches (IsOpened passes) tables.old.items o.turns.items) }
    ensures rows { IfOk result (λ o. Matches (IsNewRow T.Noted.setting T.history passes) o.turns.items
        (items_of o.rows.items)) }
    ensures room { IfOk result (λ o. (vec_capacity o.turns ≡ vec_capacity room.turns)
        × (vec_capacity o.rows ≡ vec_capacity room.rows)) }
    ensures ok { IfOk result (λ o. tables.new.items ≡ []) }
    ensures err { IfErr result (λ e. Matches (ComesBack T.Seated) tables.old.items tables.new.items) }
    ensures tables { vec_capacity tables.new ≡ vec_capacity tables.old }
{
    let Some(table) = tables.pop() else {
        return Ok(room);
    };
    match open_all(alloc, tables, passes, room) {
        Ok(opened) => open_one(alloc, tables, table, passes, opened),
        Err(_) => {
            tables.push_reserved(table);
            Err(AllocError)
        }
    }
}

// A turn for one table more. Where memory is wanting, all tables come back.
fn open_one<T: SharedGame>(
    alloc: Global,
    tables: &mut Vec<T>,
    table: T,
    passes: u8,
    mut opened: Opened<T>,
) -> Result<Opened<T>, AllocError>
    requires passes { (0 < passes) × (passes ≤ 64) }
    requires below { All (λ e. author_of e < passes) (T.history table) }
    requires made { All (λ turn. turn.passes ≡ passes) opened.turns.items }
    requires rows { Matches (IsNewRow T.Noted.setting T.history passes) opened.turns.items
        (items_of opened.rows.items) }
    requires room { (vec_len opened.turns + 1 ≤ vec_capacity opened.turns)
        × (vec_len opened.rows + 1 ≤ vec_capacity opened.rows) }
    requires empty { tables.old.items ≡ [] }
    requires tables { vec_len opened.turns + 1 ≤ vec_capacity tables.old }
    ensures turns { IfOk result (λ o. Opens passes table opened.turns.items o.turns.items) }
    ensures rows { IfOk result (λ o. Matches (IsNewRow T.Noted.setting T.history passes) o.turns.items
        (items_of o.rows.items)) }
    ensures room { IfOk result (λ o. (vec_capacity o.turns ≡ vec_capacity opened.turns)
        × (vec_capacity o.rows ≡ vec_capacity opened.rows)) }
    ensures ok { IfOk result (λ o. tables.new.items ≡ []) }
    ensures err { IfErr result (λ e. (before : List T) → Matches (IsOpened passes) before opened.turns.items
        → Matches (ComesBack T.Seated) (before ++ table ∷ []) tables.new.items) }
    ensures tables { vec_capacity tables.new ≡ vec_capacity tables.old }
{
    match Turn::resume(alloc, table, passes) {
        Ok((turn, row)) => {
            opened.turns.push_reserved(turn);
            opened.rows.push_reserved(row);
            Ok(opened)
        }
        Err(table) => {
            close_all(opened.turns, opened.rows, tables);
            tables.push_reserved(table);
            Err(AllocError)
        }
    }
}

// Ends the turn of each table, with the row of its passes, and puts the tables after those that are there, in this order.
pub(crate) fn close_all<T: SharedGame>(
    mut turns: Vec<Turn<T>>,
    mut rows: Vec<Vec<Pass<T>>>,
    tables: &mut Vec<T>,
)
    requires rows { Matches (IsFullRow T.Noted.setting) turns.items (items_of rows.items) }
    requires empty { tables.old.items ≡ [] }
    requires room { vec_len turns ≤ vec_capacity tables.old }
    ensures closed { AllClosed T.Seated T.Noted.setting turns.items (items_of rows.items) tables.new.items }
    ensures room { vec_capacity tables.new ≡ vec_capacity tables.old }
{
    let Some(turn) = turns.pop() else {
        return;
    };
    let row = rows.pop().unwrap();
    close_all(turns, rows, tables);
    tables.push_reserved(hold::close(turn, row));
}
