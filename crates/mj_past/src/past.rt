ghost use Rattle.std.specs.Prelude.{◌≡◌, List, [], ◌∷◌, ◌++◌};
ghost use Rattle.std.specs.Borrow.{ftrue};

use std::marker::{Model, PhantomData};

/// What happened so far, oldest first, of which nothing is kept: the list is there for proofs alone.
///
/// It lets a struct that keeps a few facts of a list stand for the whole list.
#[derive(Drop)]
pub struct Past<E> {
    of: PhantomData<E>,
    pub ghost items: { List E },
}

impl<E> Model for Past<E> {
    ghost also_owns = { λ _. ftrue };
}

// It owns nothing.
unsafe impl<E> Send for Past<E> {}

// It has nothing to share.
unsafe impl<E> Sync for Past<E> {}

impl<E> Past<E> {
    /// Nothing yet.
    pub fn new() -> Past<E>
        ensures { result.items ≡ [] }
    {
        Past { of: PhantomData }
    }

    /// What happened so far, and then this item.
    pub fn and(&self, item: &E) -> Past<E>
        ensures { result.items ≡ self.now.items ++ item.now ∷ [] }
    {
        Past { of: PhantomData }
    }

    /// What happened so far, once more.
    pub fn again(&self) -> Past<E>
        ensures { result.items ≡ self.now.items }
    {
        Past { of: PhantomData }
    }
}
