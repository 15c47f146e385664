//! Rows of passes, one row for each turn, and their columns, one for each number of a pass.

ghost use Rattle.std.specs.Prelude.{◌≡◌, ◌≤◌, ◌<◌, [], All, length, vec_capacity, vec_len};
ghost use Rattle.mj_workers.specs.Columns.{IsTaken, AreRows, AreColumns, items_of};

/// Takes the last value of each row into a column, which has room for them.
pub fn take_column<P>(rows: &mut Vec<Vec<P>>, column: Vec<P>) -> Vec<P>
    requires empty { column.items ≡ [] }
    requires room { vec_len rows.old ≤ vec_capacity column }
    requires some { All (λ row. 0 < vec_len row) rows.old.items }
    ensures taken { IsTaken (items_of rows.old.items) (items_of rows.new.items) result.items }
    ensures rows { vec_capacity rows.new ≡ vec_capacity rows.old }
    ensures column { vec_capacity result ≡ vec_capacity column }
{
    let Some(mut row) = rows.pop() else {
        return column;
    };
    let mut column = take_column(rows, column);
    column.push_reserved(row.pop().unwrap());
    rows.push_reserved(row);
    column
}

/// Puts the values of columns, each of which has one for each row, back into their rows, which are empty and have room.
pub fn fill_rows<P>(columns: &mut Vec<Vec<P>>, rows: &mut Vec<Vec<P>>)
    requires columns { AreColumns (length rows.old.items) (items_of columns.old.items) }
    requires rows { All (λ row. (row.items ≡ []) × (vec_len columns.old ≤ vec_capacity row)) rows.old.items }
    ensures filled { AreRows (length rows.old.items) (items_of columns.old.items) (items_of rows.new.items) }
    ensures room { vec_capacity rows.new ≡ vec_capacity rows.old }
{
    let Some(row) = rows.pop() else {
        return;
    };
    let row = take_column(columns, row);
    fill_rows(columns, rows);
    rows.push_reserved(row);
}
