use mj_ports::SitRefused;

/// A seat, 0 to 3, and the place of the Sat or Back among the entries by which its connection began.
#[derive(Clone, Copy)]
pub struct SeatAt {
    pub seat: u8,
    pub place: u64,
}

/// How a connection ended.
#[derive(Clone, Copy)]
pub enum End {
    /// Its first line was given no seat.
    Refused(SitRefused),
    /// The game is over, and its seat has answered all of its deeds.
    Over(SeatAt),
    /// An answer was refused one time too many.
    Closed(SeatAt),
    /// Its link is lost, and its seat is entered as gone.
    Left(SeatAt),
    /// Memory ran out before it had a seat.
    Dry,
    /// Memory ran out once it had a seat; the end of what it is to be told may be missing.
    Cut(SeatAt),
}

/// Where a connection stands, and so what it waits for: a line, a look, or nothing more.
#[derive(Clone, Copy)]
pub enum Connection {
    /// It is to be told the hello line: it waits for a look.
    New,
    /// It was told the hello line, and waits for the line that wants a seat.
    Greeted,
    /// It waits for the deed that its next line answers: for a look.
    Free(SeatAt),
    /// It was told the line of its due deed, or the error line of its last answer, and waits for a line.
    Asked(SeatAt),
    Ended(End),
}
