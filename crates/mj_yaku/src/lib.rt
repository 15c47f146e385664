//! Yaku of riichi mahjong: which rows of the table of yaku a reading of a complete hand has, and their han.
#![tactic(auto)]

mod han;
mod limits;
mod numbers;
mod rows;
mod set_forms;
mod some_yaku;
mod table;
mod tiles;
mod whole_hand;
mod wins;
mod yaku_set;

pub use han::han_of;
pub use rows::{DORA, RED_DORA, ROWS, UNDER_DORA, YAKUMAN};
pub use some_yaku::{complete_has_yaku, has_yaku};
pub use table::{is_closed, yaku};
pub use yaku_set::YakuSet;
