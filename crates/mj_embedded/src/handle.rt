//! What a program in another language holds of a table.

ghost use Rattle.std.specs.Prelude.{◌≡◌, true, Option, Some, None, is_some, IsTrue, MatchOption};
ghost use Rattle.mj_stepped.specs.contracts.stepped.Stepped.{the_row};
ghost use Rattle.mj_history.specs.Legal.{Game};
ghost use Rattle.mj_embedded.specs.Owned.{held_owns, loose_owns};

use mj_stepped::Stepped;
use std::alloc::Global;
use std::marker::Model;
use std::mem::replace;
use std::ptr::null_mut;

/// A pointer to a game on the heap, or none.
#[repr(C)]
#[derive(Drop)]
pub struct Held {
    at: *mut u8,
    pub ghost game: { Option Game },
}

impl Model for Held {
    ghost also_owns = { λ held. held_owns the_row held.at held.game };
}

// A pointer to a value on the heap.
struct Loose<T> {
    at: *mut T,
    ghost value: { T },
}

impl<T> Model for Loose<T> {
    ghost also_owns = { λ loose. loose_owns T.row loose.at loose.value };
}

impl<T: Drop> Loose<T> {
    fn of(value: Box<T>) -> Loose<T>
        ensures { result.value ≡ value.value }
    {
        Loose {
            at: Box::into_raw(value),
        }
    }
}

impl Held {
    fn of(game: Loose<Stepped>) -> Held
        ensures { result.game ≡ Some game.value }
    {
        let Loose { at } = game;
        Held {
            at: at.cast::<u8>(),
        }
    }

    fn empty() -> Held
        ensures { result.game ≡ None }
    {
        Held { at: null_mut() }
    }

    fn into_box(self, alloc: Global) -> Box<Stepped>
        requires { IsTrue (is_some self.game) }
        ensures { Some result.value ≡ self.game }
    {
        let Held { at } = self;
        unsafe { Box::from_raw(alloc, at.cast::<Stepped>()) }
    }
}

/// A table. One whose bytes are all zero has no game.
#[repr(C)]
#[derive(Drop)]
pub struct Table {
    pub is_open: bool,
    pub held: Held,
    ghost is_tied: { is_open ≡ is_some held.game },
}

impl Table {
    /// The game of the table is taken away; none exactly where it has none.
    pub(crate) fn take(&mut self, alloc: Global) -> Option<Box<Stepped>>
        ensures game { MatchOption result (self.old.held.game ≡ None)
            (λ core. self.old.held.game ≡ Some core.value) }
        ensures left { self.new.held.game ≡ None }
    {
        let Table { is_open, held } = replace(self, Table::empty());
        if is_open {
            return Some(held.into_box(alloc));
        }
        None
    }

    /// A game is put on the table, which has none.
    pub(crate) fn put(&mut self, game: Box<Stepped>)
        requires { self.old.held.game ≡ None }
        ensures { self.new.held.game ≡ Some game.value }
    {
        *self = Table {
            is_open: true,
            held: Held::of(Loose::of(game)),
        };
    }

    /// A table without a game.
    pub fn empty() -> Table
        ensures { result.held.game ≡ None }
    {
        Table {
            is_open: false,
            held: Held::empty(),
        }
    }
}
