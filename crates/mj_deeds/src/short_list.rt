ghost use Rattle.std.specs.Prelude.{◌≡◌, ◌<◌, ◌++◌, ◌∷◌, [], false, length};

use std::marker::Model;

// A list that takes no memory: at most `N` items, and no more than 255.
#[derive(Drop)]
pub(crate) struct ShortList<T, const N: usize> {
    places: [T; N],
    len: u8,
}

impl<T, const N: usize> Model for ShortList<T, N> {
    ghost use Rattle.std.specs.Prelude.{List, take, ◌≤◌};

    ghost Value = { List T };

    ghost view = { λ l. take l.len l.places };

    ghost invariant = { λ l. l.len ≤ N };
}

impl<T: Copy + Drop, const N: usize> ShortList<T, N> {
    // No item; the blank stands in its places.
    pub(crate) fn new(blank: T) -> ShortList<T, N>
        ensures { result ≡ [] }
    {
        ShortList {
            places: [blank; N],
            len: 0,
        }
    }

    // A copy of the list.
    pub(crate) fn again(&self) -> ShortList<T, N>
        ensures { result ≡ self.now }
    {
        ShortList {
            places: self.places,
            len: self.len,
        }
    }

    // Whether there is room for no more.
    pub(crate) fn is_full(&self) -> bool
        ensures places { result ≡ false → length self.now < N }
        ensures number { result ≡ false → length self.now < 255 }
    {
        usize::from(self.len) >= N || self.len == u8::MAX
    }

    // Adds an item, for which there is room.
    pub(crate) fn push(&mut self, item: T)
        requires place { length self.old < N }
        requires number { length self.old < 255 }
        ensures { self.new ≡ self.old ++ item ∷ [] }
    {
        self.places[usize::from(self.len)] = item;
        self.len += 1;
    }

    // The items, in order.
    pub(crate) fn as_slice(&self) -> &[T]
        ensures { result.now ≡ self.now }
    {
        &self.places[..usize::from(self.len)]
    }
}
