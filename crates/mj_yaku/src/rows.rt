/// How many rows the table of yaku has.
pub const ROWS: u8 = 45;

/// The row of the dora, which are no yaku.
pub const DORA: u8 = 28;

/// The row of the dora under the indicators, which count for a winner in riichi.
pub const UNDER_DORA: u8 = 29;

/// The row of the red fives.
pub const RED_DORA: u8 = 30;

/// The first of the rows of yakuman, which are the last of the table.
pub const YAKUMAN: u8 = 33;
