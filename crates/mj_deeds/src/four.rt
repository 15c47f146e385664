ghost use Rattle.std.specs.Prelude.{◌≡◌, ◌≤◌};
ghost use Rattle.mj_deeds.specs.Four.{at_seat, next_seat};

/// One thing for each seat, in order of the seats 0 to 3.
#[derive(Clone, Copy, Debug, Drop)]
pub struct Four<T> {
    pub first: T,
    pub second: T,
    pub third: T,
    pub fourth: T,
}

impl<T> Four<T> {
    /// The one of a seat, 0 to 3.
    pub fn at(&self, seat: u8) -> &T
        requires { seat ≤ 3 }
        ensures { result.now ≡ at_seat self.now seat }
    {
        match seat {
            0 => &self.first,
            1 => &self.second,
            2 => &self.third,
            _ => &self.fourth,
        }
    }
}

/// The seat, 0 to 3, whose turn comes after that of a seat: after seat 3 comes seat 0.
pub fn next_seat(seat: u8) -> u8
    ensures { result ≡ next_seat seat }
{
    (seat % 4 + 1) % 4
}
