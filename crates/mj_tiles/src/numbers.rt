/// How many kinds of tile there are. They are numbered from 0, the kinds of the suits first.
pub const KINDS: usize = 34;

/// How many faces tiles have: one of each kind, with its number, and after these the red fives `5mr`, `5pr` and `5sr`.
pub const FACES: usize = 37;

/// The face of the first red five.
pub const RED: u8 = 34;

/// The kind of the east wind, the first of the honours. The next three are south, west and north.
pub const EAST: u8 = 27;

/// The kind of the south wind.
pub const SOUTH: u8 = 28;

/// The kind of the white dragon. The next two are the green and the red one.
pub const WHITE: u8 = 31;
