//! The rows of the table of yaku by their names.

ghost use Rattle.std.specs.Prelude.{◌≡◌, ◌≤◌, IfSome};
ghost use Rattle.mj_records.specs.Inner.Lists.{row_of};

use mj_yaku::ROWS;
use mjai_lines::yaku_name;

/// The row of the table of yaku that has a name.
pub(crate) fn row_of(name: &[u8]) -> Option<u8>
    ensures value { result ≡ row_of name.now }
    ensures within { IfSome result (λ row. row ≤ 44) }
{
    for row in 0..ROWS {
        if yaku_name(row) == name {
            return Some(row);
        }
    }
    None
}
