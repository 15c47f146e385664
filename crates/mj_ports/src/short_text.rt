ghost use Rattle.std.specs.Prelude.{◌≡◌, ◌≤◌, ◌++◌, drop, length};

use std::marker::{Model, PhantomData};

/// A text of at most 64 bytes that takes no memory; `K` says what it is the text of.
#[derive(Clone, Copy, Debug, PartialEq, Eq)]
pub struct ShortText<K> {
    places: [u8; 64],
    len: u8,
    of: PhantomData<K>,
}

impl<K> Model for ShortText<K> {
    ghost use Rattle.std.specs.Prelude.{ℕ, List, length, take};
    ghost use Rattle.mj_lists.specs.Padded.{padded, IsPadded};
    ghost use Rattle.std.proofs.Common.{arith, length-take-le};

    ghost Value = { List ℕ };

    ghost view = { λ t. take t.len t.places };

    ghost invariant = { λ t. IsPadded 64 0 t.places t.len };

    ghost inverse = { λ v. record { places = padded 64 0 v; len = length v; of = record {} } };

    ghost inverse_ok = { λ t h i. record {
      places = h.rest i;
      len = length-take-le t.len t.places (omega (arith, h.size, h.within)) i;
      of = t.of;
    } };
}

impl<K> ShortText<K> {
    /// The text of these bytes, of which there are at most 64.
    pub fn of(bytes: &[u8]) -> ShortText<K>
        requires { length bytes.now ≤ 64 }
        ensures { result ≡ bytes.now }
    {
        let mut places = [0; 64];
        put(&mut places, bytes);
        ShortText {
            places,
            len: bytes.len() as u8,
            of: PhantomData,
        }
    }

    /// Its bytes, at most 64.
    pub fn as_slice(&self) -> &[u8]
        ensures items { result.now ≡ self.now }
        ensures fits { length self.now ≤ 64 }
    {
        &self.places[..usize::from(self.len)]
    }
}

/// What a name is the text of.
#[derive(Clone, Copy, Debug, PartialEq, Eq)]
pub struct OfName;

/// What a key is the text of.
#[derive(Clone, Copy, Debug, PartialEq, Eq)]
pub struct OfKey;

/// The name of a player: at most 64 bytes of text.
pub type Name = ShortText<OfName>;

/// The key by which a seat that is gone can be taken back: at most 64 bytes of text.
pub type Key = ShortText<OfKey>;

// Writes the bytes over the front of the places.
fn put(places: &mut [u8], bytes: &[u8])
    requires { length bytes.now ≤ length places.old }
    ensures { places.new ≡ bytes.now ++ drop (length bytes.now) places.old }
{
    places[..bytes.len()].copy_from_slice(bytes);
}
