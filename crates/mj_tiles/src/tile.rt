ghost use Rattle.std.specs.Prelude.{◌≡◌, ℕ, ◌<◌, IfSome};
ghost use Rattle.std.specs.Option.{SomeIff};
ghost use Rattle.mj_tiles.specs.Faces.{kind_of, text_of, face_of, number_in};
ghost use Rattle.mj_tiles.specs.Inner.Spelled.{suit_of, honour_of, plain_of, red_of};

use crate::kind::Kind;
use std::marker::Model;

/// A tile, known by its face: faces 0 to 33 are the plain kinds, 34, 35 and 36 the red fives `5mr`, `5pr` and `5sr`.
#[derive(Clone, Copy, Debug, PartialEq, Eq)]
pub struct Tile {
    pub(crate) face: u8,
}

impl Model for Tile {
    ghost Value = { ℕ };

    ghost view = { λ t. t.face };

    ghost invariant = { λ t. t.face < 37 };

    ghost inverse = { λ n. record { face = n } };
}

impl Tile {
    /// The tile of that face; none exactly above 36.
    pub fn of(face: u8) -> Option<Tile>
        ensures { SomeIff result (face < 37) face }
    {
        if face < 37 {
            return Some(Tile { face });
        }
        None
    }

    /// The tile of that face. Condition: it is below 37.
    pub fn at(face: u8) -> Tile
        requires { face < 37 }
        ensures { result ≡ face }
    {
        Tile { face }
    }

    /// The face of the tile, 0 to 36.
    pub fn face(self) -> u8
        ensures value { result ≡ self }
        ensures within { result < 37 }
    {
        self.face
    }

    /// The kind of the tile: a red five is a five of its suit.
    pub fn kind(self) -> Kind
        ensures { result ≡ kind_of self }
    {
        match self.face {
            34 => Kind { number: 4 },
            35 => Kind { number: 13 },
            36 => Kind { number: 22 },
            plain => Kind { number: plain },
        }
    }

    /// The tile that the text names, as `1m`, `E` or `5pr`; none exactly where the text is none of the 37.
    #[inline(always)]
    #[tactic(auto, using(crate::proofs::Spelled::spelled))]
    pub fn read(text: &[u8]) -> Option<Tile>
        ensures { result ≡ face_of text.now }
    {
        match text {
            [] => None,
            [letter] => honour(*letter),
            [digit, letter] => plain(*digit, *letter),
            [digit, letter, mark] => red(*digit, *letter, *mark),
            [_, _, _, _, ..] => None,
        }
    }

    /// The text of the tile in mjai: a number and the letter of its suit with `r` for a red five, or the letter of an
    /// honour.
    #[tactic(auto, unfolding(crate::specs::Faces::text_of, crate::specs::Faces::texts))]
    pub fn text(self) -> &'static [u8]
        ensures { result.now ≡ text_of self }
    {
        match self.face {
            0 => b"1m",
            1 => b"2m",
            2 => b"3m",
            3 => b"4m",
            4 => b"5m",
            5 => b"6m",
            6 => b"7m",
            7 => b"8m",
            8 => b"9m",
            9 => b"1p",
            10 => b"2p",
            11 => b"3p",
            12 => b"4p",
            13 => b"5p",
            14 => b"6p",
            15 => b"7p",
            16 => b"8p",
            17 => b"9p",
            18 => b"1s",
            19 => b"2s",
            20 => b"3s",
            21 => b"4s",
            22 => b"5s",
            23 => b"6s",
            24 => b"7s",
            25 => b"8s",
            26 => b"9s",
            27 => b"E",
            28 => b"S",
            29 => b"W",
            30 => b"N",
            31 => b"P",
            32 => b"F",
            33 => b"C",
            34 => b"5mr",
            35 => b"5pr",
            _ => b"5sr",
        }
    }
}

// The suit of a letter: 0 for characters, 1 for circles, 2 for bamboo.
fn suit(letter: u8) -> Option<u8>
    ensures value { result ≡ suit_of letter }
    ensures within { IfSome result (λ suit. suit < 3) }
{
    match letter {
        b'm' => Some(0),
        b'p' => Some(1),
        b's' => Some(2),
        _ => None,
    }
}

// The honour of a letter.
fn honour(letter: u8) -> Option<Tile>
    ensures { result ≡ honour_of letter }
{
    let face = match letter {
        b'E' => 27,
        b'S' => 28,
        b'W' => 29,
        b'N' => 30,
        b'P' => 31,
        b'F' => 32,
        b'C' => 33,
        _ => return None,
    };
    Some(Tile { face })
}

// The tile of a digit and the letter of a suit.
fn plain(digit: u8, letter: u8) -> Option<Tile>
    ensures { result ≡ plain_of digit letter }
{
    if digit < b'1' || digit > b'9' {
        return None;
    }
    let suit = suit(letter)?;
    Some(Tile {
        face: 9 * suit + (digit - b'1'),
    })
}

// The red five of the letter of a suit, after a 5 and before an `r`.
fn red(digit: u8, letter: u8, mark: u8) -> Option<Tile>
    ensures { result ≡ red_of digit letter mark }
{
    if digit != b'5' || mark != b'r' {
        return None;
    }
    let suit = suit(letter)?;
    Some(Tile { face: 34 + suit })
}

/// How often the face of a tile stands among tiles.
pub fn number_among(tiles: &[Tile], tile: Tile) -> usize
    ensures { result ≡ number_in tiles.now tile }
{
    let face = tile.face();
    tiles.iter().filter(|other| other.face() == face).count()
}
