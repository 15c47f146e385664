//! Hands out of a shuffled wall, the same at every run.

ghost use Rattle.std.specs.Prelude.{◌<◌, max};

use mj_tiles::Kind;
use rand_core::utils::NextWord;
use rand_pcg::Pcg32;

/// A source of hands.
#[derive(Drop)]
pub struct Hands {
    words: Pcg32,
}

/// A hand: how often each kind stands among its concealed tiles, and the dragon of its open triplet where it has one.
#[derive(Clone, Copy)]
pub struct Hand {
    pub numbers: [u8; 34],
    pub dragon: Option<Kind>,
}

/// Four tiles of each kind.
pub const ROOM: [u8; 34] = [4; 34];

impl Hands {
    /// The source, at its beginning.
    pub fn new() -> Hands {
        Hands {
            words: Pcg32::new(42, 54),
        }
    }

    // A number below a bound, and 0 for no bound.
    fn below(&mut self, bound: u32) -> u32
        ensures { result < max bound 1 }
    {
        self.words.next_word() % bound.max(1)
    }

    /// So many tiles of a shuffled wall.
    pub fn tiles(&mut self, tiles: u32) -> Hand {
        let mut wall = [0u8; 136];
        for place in 0..136u8 {
            wall[usize::from(place)] = place / 4;
        }
        let mut numbers = [0u8; 34];
        for taken in 0..tiles.min(136) {
            let other = taken + self.below(136 - taken);
            wall.swap(taken as usize, other as usize);
            add(&mut numbers, wall[taken as usize], 1);
        }
        Hand {
            numbers,
            dragon: None,
        }
    }

    /// Thirteen tiles of a shuffled wall, and each sixteenth time a ready hand.
    pub fn mixed(&mut self) -> Hand {
        if self.below(16) == 0 {
            return without_first(self.complete());
        }
        self.tiles(13)
    }

    /// A complete hand of four sets and a pair.
    pub fn complete(&mut self) -> Hand {
        Hand {
            numbers: self.sets_and_pair(4, &ROOM),
            dragon: None,
        }
    }

    /// A complete hand with an open triplet of a dragon.
    pub fn open(&mut self) -> Hand {
        let dragon = Kind::at(31 + self.below(3) as u8);
        Hand {
            numbers: self.sets_and_pair(3, &room_beside(Some(dragon))),
            dragon: Some(dragon),
        }
    }

    // How often each kind stands in so many sets and a pair for which there is room.
    fn sets_and_pair(&mut self, sets: u8, room: &[u8; 34]) -> [u8; 34] {
        for _ in 0..100 {
            let mut numbers = [0u8; 34];
            for _ in 0..sets {
                let low = self.below(34) as u8;
                if low < 27 && low % 9 < 7 && self.below(2) == 0 {
                    add(&mut numbers, low, 1);
                    add(&mut numbers, low + 1, 1);
                    add(&mut numbers, low + 2, 1);
                } else {
                    add(&mut numbers, low, 3);
                }
            }
            add(&mut numbers, self.below(34) as u8, 2);
            if are_within(&numbers, room) {
                return numbers;
            }
        }
        [0; 34]
    }
}

/// The hand with one tile less of the first kind that stands among its tiles.
pub fn without_first(hand: Hand) -> Hand {
    let mut fewer = hand;
    for number in fewer.numbers.iter_mut() {
        if *number > 0 {
            *number -= 1;
            break;
        }
    }
    fewer
}

/// How many tiles of each kind an open triplet of a dragon leaves.
pub fn room_beside(dragon: Option<Kind>) -> [u8; 34] {
    let mut room = ROOM;
    if let Some(kind) = dragon {
        room[kind.number() as usize] = 1;
    }
    room
}

// Whether no kind stands more often among the tiles than there is room for it.
fn are_within(numbers: &[u8; 34], room: &[u8; 34]) -> bool {
    for kind in 0..34 {
        if numbers[kind] > room[kind] {
            return false;
        }
    }
    true
}

// So many tiles more of a kind.
fn add(numbers: &mut [u8; 34], kind: u8, tiles: u8) {
    if let Some(number) = numbers.get_mut(usize::from(kind)) {
        *number = number.saturating_add(tiles);
    }
}
