ghost use Rattle.std.specs.Prelude.{◌≤◌};

/// What a game is served with.
#[derive(Clone, Copy, Debug, PartialEq, Eq)]
pub struct Serving {
    /// What its walls are shuffled by.
    pub seed: [u8; 32],
    /// The limit of a window, 1 to 3,600,000 milliseconds.
    pub limit: u64,
    /// Where the table listens, 1 to 65535.
    pub port: u16,
    /// Whether the four draw reasons and the draw of nine kinds are in force.
    pub draws: bool,
    /// Whether one five of each suit is red.
    pub red: bool,
    ghost within: { (1 ≤ limit) × (limit ≤ 3600000) },
}

/// What the games of some rooms are served with.
#[derive(Clone, Copy, Debug, PartialEq, Eq)]
pub struct Hosting {
    /// How many rooms there are, 1 to 8, with a game in each.
    pub rooms: u8,
    /// What each game is served with.
    pub serving: Serving,
    ghost within: { (1 ≤ rooms) × (rooms ≤ 8) },
}
