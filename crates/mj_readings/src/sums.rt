//! What the sums of the suits say of a hand before any set is tried: in sets and a pair a suit or an honour has no
//! tile over its threes, or the two of the pair.

ghost use Rattle.std.specs.Prelude.{◌≡◌, ◌≤◌, ◌<◌, ◌+◌, ◌%◌, ◌==◌, ◌||◌, ◌&&◌, not, true, false, length, nat_lt};
ghost use Rattle.mj_readings.specs.Inner.Sums.{
  tiles_from,
  single_over,
  single_honours,
  singles,
  tiles_beside,
  IsOver,
  LacksPair,
  ArePairless,
};
ghost use Rattle.mj_readings.specs.Inner.Ways.{has_way};
ghost use Rattle.mj_readings.specs.Tests.{one_more};

use mj_tiles::{EAST, Kind};

/// How many tiles of each suit are over its threes, 0 to 2, how many suits and honours have a single one over, and how many
/// tiles there are.
#[derive(Clone, Copy, Debug)]
pub(crate) struct Over {
    characters: u8,
    dots: u8,
    bamboos: u8,
    singles: u8,
    tiles: u32,
}

impl Over {
    /// What is over in a hand with these numbers of tiles by kind.
    #[tactic(auto, using(crate::proofs::SumLaws::tiles_together), unfolding(crate::specs::Inner::Sums::singles))]
    pub(crate) fn of(numbers: &[u8]) -> Over
        requires { length numbers.now ≡ 34 }
        ensures { IsOver numbers.now result }
    {
        let characters = tiles_from(numbers, 0, 9);
        let dots = tiles_from(numbers, 9, 9);
        let bamboos = tiles_from(numbers, 18, 9);
        let honours = tiles_from(numbers, usize::from(EAST), 7);
        let singles = single_over(characters) + single_over(dots) + single_over(bamboos);
        Over {
            characters: (characters % 3) as u8,
            dots: (dots % 3) as u8,
            bamboos: (bamboos % 3) as u8,
            singles: singles + single_honours(numbers),
            tiles: characters + dots + bamboos + honours,
        }
    }

    /// Whether more than one suit or honour has a single tile over: then no tile more makes the hand sets and a pair.
    pub(crate) fn has_singles(&self) -> bool
        ensures { result ≡ nat_lt 1 self.now.singles }
    {
        self.singles > 1
    }

    /// Whether more than two have: then no exchange of one tile makes the hand sets and a pair.
    pub(crate) fn has_more_singles(&self) -> bool
        ensures { result ≡ nat_lt 2 self.now.singles }
    {
        self.singles > 2
    }

    /// Whether no suit and no honour has a single tile over once a tile of the kind is added to the hand.
    pub(crate) fn takes(&self, numbers: &[u8], kind: Kind) -> bool
        requires size { length numbers.now ≡ 34 }
        requires hand { IsOver numbers.now self.now }
        ensures { result ≡ (singles (one_more numbers.now kind) == 0) }
    {
        let over = self.beside(numbers, kind);
        if over == 0 {
            return false;
        }
        if over == 1 {
            return self.singles == 1;
        }
        self.singles == 0
    }

    /// How many tiles are over in the suit of the kind, or of the honour.
    #[tactic(auto, unfolding(crate::specs::Inner::Sums::tiles_beside))]
    fn beside(&self, numbers: &[u8], kind: Kind) -> u8
        requires size { length numbers.now ≡ 34 }
        requires hand { IsOver numbers.now self.now }
        ensures { result ≡ tiles_beside numbers.now kind % 3 }
    {
        let place = usize::from(kind.number());
        if place < 9 {
            return self.characters;
        }
        if place < 18 {
            return self.dots;
        }
        if place < 27 {
            return self.bamboos;
        }
        numbers[place] % 3
    }
}

/// Which suits lack the pair: they are two tiles over their threes, though no kind of them stands twice. With a tile more in
/// another suit the hand is not sets and a pair.
#[derive(Clone, Copy, Debug)]
pub(crate) struct Pairless {
    characters: bool,
    dots: bool,
    bamboos: bool,
}

impl Pairless {
    /// The suits that lack the pair in a hand with these numbers, where it is known what is over in it.
    pub(crate) fn of(numbers: &[u8], over: &Over) -> Pairless
        requires size { length numbers.now ≡ 34 }
        requires hand { IsOver numbers.now over.now }
        ensures { ArePairless numbers.now result }
    {
        Pairless {
            characters: lacks_pair(numbers, 0, over.characters),
            dots: lacks_pair(numbers, 9, over.dots),
            bamboos: lacks_pair(numbers, 18, over.bamboos),
        }
    }

    /// Whether another suit than this one lacks the pair. The suits are 0 to 2, and the honours are the suit 3.
    pub(crate) fn has_other(&self, suit: u8) -> bool
        ensures { result ≡ (self.now.characters && not (suit == 0) || self.now.dots && not (suit == 1)
            || self.now.bamboos && not (suit == 2)) }
    {
        self.characters && suit != 0 || self.dots && suit != 1 || self.bamboos && suit != 2
    }
}

/// Whether tiles with these numbers may be so many sets and a pair by their sums: false only where they are not.
pub(crate) fn may_be_sets(numbers: &[u8], sets: u8) -> bool
    requires size { length numbers.now ≡ 34 }
    requires few { sets ≤ 4 }
    ensures { result ≡ false → has_way numbers.now 0 0 0 sets false ≡ false }
{
    let over = Over::of(numbers);
    if over.singles > 0 {
        return false;
    }
    over.tiles == 3 * u32::from(sets) + 2
}

/// Whether the suit from this kind on, with so many tiles over its threes, has two over though no kind of it stands twice.
fn lacks_pair(numbers: &[u8], from: usize, over: u8) -> bool
    requires inside { from + 9 ≤ length numbers.now }
    requires suit { over ≡ tiles_from numbers.now from 9 % 3 }
    ensures { result ≡ true → LacksPair numbers.now from }
{
    if over != 2 {
        return false;
    }
    for place in 0..9 {
        if numbers[from + place] > 1 {
            return false;
        }
    }
    true
}

/// How many tiles stand among so many kinds from one on.
#[tactic(auto, unfolding(crate::specs::Inner::Sums::tiles_from, crate::specs::Inner::Sums::sum_below))]
pub(crate) fn tiles_from(numbers: &[u8], from: usize, many: usize) -> u32
    requires inside { from + many ≤ length numbers.now }
    requires few { many ≤ 34 }
    ensures value { result ≡ tiles_from numbers.now from many }
    ensures within { result ≤ 8670 }
{
    let mut tiles: u32 = 0;
    for place in 0..many {
        tiles += u32::from(numbers[from + place]);
    }
    tiles
}

/// One where a single one of the tiles is over when threes are taken away, else none.
#[tactic(auto, unfolding(crate::specs::Inner::Sums::single_over))]
fn single_over(tiles: u32) -> u8
    ensures value { result ≡ single_over tiles }
    ensures within { result ≤ 1 }
{
    if tiles % 3 == 1 {
        return 1;
    }
    0
}

/// How many honours have a single tile over.
#[tactic(auto, unfolding(crate::specs::Inner::Sums::single_honours, crate::specs::Inner::Sums::sum_below))]
fn single_honours(numbers: &[u8]) -> u8
    requires { length numbers.now ≡ 34 }
    ensures value { result ≡ single_honours numbers.now 7 }
    ensures within { result ≤ 7 }
{
    let mut singles = 0;
    for honour in 0..7 {
        singles += single_over(u32::from(numbers[usize::from(EAST) + honour]));
    }
    singles
}
