//! Where it is noted who takes the seats of games, and who leaves them.

/// A log of the seats of games, each at a table; tables are numbered from 0, and a seat is 0 to 3. It is told once the game has
/// the entry, by the thread that entered it, which has the game until the log returns.
pub trait SeatLog {
    /// A seat is taken by who sent this line.
    fn taken(&self, table: usize, seat: u8, line: &[u8]);

    /// A seat that was left is taken back.
    fn taken_back(&self, table: usize, seat: u8);

    /// A seat is left.
    fn left(&self, table: usize, seat: u8);
}
