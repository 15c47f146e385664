ghost use Rattle.std.specs.Prelude.{◌≡◌, ℕ, ◌<◌, Some, None, IfOk, replicate, length, set, if◌then◌else◌, nat_lt};
ghost use Rattle.mj_session.specs.Faults.{holds_fault};

use mj_links::Numbered;
use std::alloc::{AllocError, Global};
use std::marker::Model;

/// The faults that a host made, at most one of each number below the number of places.
#[derive(Drop)]
pub struct Lost<F: Numbered> {
    pub(crate) places: Vec<Option<F>>,
}

impl<F: Numbered> Model for Lost<F> {
    ghost use Rattle.std.specs.Prelude.{List, Option};
    ghost use Rattle.mj_session.specs.Faults.{AreNumbered};

    ghost Value = { List (Option F) };

    ghost view = { λ l. l.places.items };

    ghost invariant = { λ l. AreNumbered F.number l.places.items };
}

impl<F: Numbered> Lost<F> {
    /// So many places, without a fault.
    pub fn new(alloc: Global, places: u8) -> Result<Lost<F>, AllocError>
        ensures { IfOk result (λ l. l ≡ replicate places None) }
    {
        let mut empty = Vec::with_capacity(alloc, usize::from(places))?;
        for _ in 0..places {
            empty.push_reserved(None);
        }
        Ok(Lost { places: empty })
    }

    /// Keeps a fault whose number is below the places, in place of one with its number. Another changes nothing.
    pub fn set(&mut self, fault: F)
        ensures { self.new ≡ set self.old (F.number fault) (Some fault) }
    {
        keep(&mut self.places, fault.by(), fault);
    }

    /// Whether a fault with this number is kept.
    pub fn has(&self, number: u8) -> bool
        ensures { result ≡ holds_fault self.now number }
    {
        is_kept(&self.places, number)
    }
}

// The two steps at a plain list, which a room takes on its own list too: an impl of a trait that goes to other threads
// can't hand its bounds on.
pub(crate) fn keep<F: Copy>(places: &mut Vec<Option<F>>, number: u8, fault: F)
    ensures { places.new.items ≡ set places.old.items number (Some fault) }
{
    let number = usize::from(number);
    if number < places.len() {
        places[number] = Some(fault);
    }
}

pub(crate) fn is_kept<F>(places: &Vec<Option<F>>, number: u8) -> bool
    ensures { result ≡ holds_fault places.now.items number }
{
    match places.get(usize::from(number)) {
        Some(place) => place.is_some(),
        None => false,
    }
}
