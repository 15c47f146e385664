ghost use Rattle.std.specs.Prelude.{◌≡◌, ◌<◌, ◌≤◌, ◌++◌, [], ◌∷◌, length, true, option_map, slice_get, slice_set};
ghost use Rattle.mj_seating.specs.Sitting.{placed, seated, changed_at, gone, is_present_at, new_held, came_back, at_held};
ghost use Rattle.mj_seating.specs.Inner.Places.{free, CanTake, returns_at};

use mj_ports::{JoinLine, Key, Name, SitRefused};
use std::marker::Model;

/// What becomes of a join.
#[derive(Clone, Copy, Debug, PartialEq, Eq)]
pub enum Placed {
    /// The next seat, 0 to 3, is taken.
    Sat(u8),
    /// The seat, which was gone, is taken back.
    Back(u8),
    /// No seat is given, and nothing has changed.
    Refused(SitRefused),
}

/// The seats of a game that are held, four at most, in the order in which they were taken.
#[derive(Clone, Copy, Debug)]
pub struct Desk {
    places: [Occupant; 4],
    len: u8,
}

impl Model for Desk {
    ghost use Rattle.std.specs.Prelude.{List, length, take};
    ghost use Rattle.std.proofs.Common.{arith, length-take-le};
    ghost use Rattle.mj_lists.specs.Padded.{padded, IsPadded};
    ghost use Rattle.mj_seating.specs.Sitting.{Occupant as Occupied};
    ghost use Rattle.mj_seating.specs.Inner.Places.{free};

    ghost Value = { List Occupied };

    ghost view = { λ d. take d.len d.places };

    ghost invariant = { λ d. IsPadded 4 free d.places d.len };

    ghost inverse = { λ held. record { places = padded 4 free held; len = length held } };

    ghost inverse_ok = { λ d h i. record {
      places = h.rest i;
      len = length-take-le d.len d.places (omega (arith, h.size, h.within)) i;
    } };
}

// A seat that is held.
#[derive(Clone, Copy, Debug)]
struct Occupant {
    present: bool,
    name: Name,
    key: Option<Key>,
    returns: u8,
}

impl Model for Occupant {
    ghost use Rattle.mj_seating.specs.Sitting.{Occupant as Occupied};

    ghost Value = { Occupied };

    ghost view = { λ h. record { present = h.present; name = h.name; key = h.key; returns = h.returns } };

    ghost inverse = { λ s. record { present = s.present; name = s.name; key = s.key; returns = s.returns } };
}

impl Desk {
    /// A desk with all four seats free.
    pub fn new() -> Desk
        ensures { result ≡ [] }
    {
        Desk {
            places: [free(), free(), free(), free()],
            len: 0,
        }
    }

    /// A join: the next seat is taken under its name and key, or a gone seat of its name is taken back by its key; the
    /// first refusal that holds answers: a present seat has the name, it was taken without a key, with another key, it
    /// was taken back 64 times, or no seat has the name and all four are held.
    pub fn sit(&mut self, join: &JoinLine) -> Placed
        ensures answer { result ≡ placed self.old join.now }
        ensures desk { self.new ≡ seated self.old join.now result }
    {
        let place = place_of(self.taken(), join);
        match place {
            Placed::Sat(_) => self.push(new_held(join)),
            Placed::Back(seat) => self.come_back(seat),
            Placed::Refused(_) => {}
        }
        place
    }

    /// A seat that is present leaves.
    pub fn leave(&mut self, seat: u8)
        requires { is_present_at self.old seat ≡ true }
        ensures { self.new ≡ changed_at self.old seat gone }
    {
        if let Some(held) = self.at(seat) {
            self.put(seat, gone(&held));
        }
    }

    /// Whether a seat is present; one that isn't held is not.
    pub fn present(&self, seat: u8) -> bool
        ensures { result ≡ is_present_at self.now seat }
    {
        match self.taken().get(usize::from(seat)) {
            Some(held) => held.present,
            None => false,
        }
    }

    /// How many seats are held, present or gone: at most four.
    pub fn held(&self) -> u8
        ensures number { result ≡ length self.now }
        ensures within { result ≤ 4 }
    {
        self.len
    }

    /// The name of a seat; none exactly where it isn't held.
    pub fn name(&self, seat: u8) -> Option<Name>
        ensures { result ≡ option_map (λ held. held.name) (slice_get self.now seat) }
    {
        match self.at(seat) {
            Some(held) => Some(held.name),
            None => None,
        }
    }

    // The seats that are held, in order.
    fn taken(&self) -> &[Occupant]
        ensures items { result.now ≡ self.now }
        ensures within { length self.now ≤ 4 }
    {
        &self.places[..usize::from(self.len)]
    }

    // A seat, where it is held.
    fn at(&self, seat: u8) -> Option<Occupant>
        ensures { result ≡ slice_get self.now seat }
    {
        self.taken().get(usize::from(seat)).copied()
    }

    // The next seat is held.
    fn push(&mut self, held: Occupant)
        requires { length self.old < 4 }
        ensures { self.new ≡ self.old ++ held ∷ [] }
    {
        self.places[usize::from(self.len)] = held;
        self.len += 1;
    }

    // Puts another in place of a seat that is held.
    fn put(&mut self, seat: u8, held: Occupant)
        requires { seat < length self.old }
        ensures { self.new ≡ slice_set self.old seat held }
    {
        self.places[usize::from(seat)] = held;
    }

    // A seat that came back fewer than 64 times is taken back.
    fn come_back(&mut self, seat: u8)
        requires { returns_at self.old seat < 64 }
        ensures { self.new ≡ changed_at self.old seat came_back }
    {
        if let Some(held) = self.at(seat) {
            self.put(seat, came_back(&held));
        }
    }
}

// What becomes of a join.
#[tactic(auto, unfolding(crate::specs::Sitting::placed))]
fn place_of(taken: &[Occupant], join: &JoinLine) -> Placed
    requires { length taken.now ≤ 4 }
    ensures answer { result ≡ placed taken.now join.now }
    ensures room { CanTake taken.now result }
{
    let mut seat = 0;
    for held in taken {
        if held.name.as_slice() == join.name.as_slice() {
            return at_held(seat, held, join);
        }
        seat += 1;
    }
    if seat == 4 {
        Placed::Refused(SitRefused::Full)
    } else {
        Placed::Sat(seat)
    }
}

// What becomes of a join whose name a seat has.
fn at_held(seat: u8, held: &Occupant, join: &JoinLine) -> Placed
    ensures { result ≡ at_held seat held.now join.now.key }
{
    if held.present {
        return Placed::Refused(SitRefused::NameTaken);
    }
    let Some(key) = &held.key else {
        return Placed::Refused(SitRefused::NoKey);
    };
    let Some(said) = &join.key else {
        return Placed::Refused(SitRefused::WrongKey);
    };
    if said.as_slice() != key.as_slice() {
        return Placed::Refused(SitRefused::WrongKey);
    }
    if held.returns >= 64 {
        return Placed::Refused(SitRefused::TooOften);
    }
    Placed::Back(seat)
}

// What stands in the place of a seat that isn't held.
fn free() -> Occupant
    ensures { result ≡ free }
{
    Occupant {
        present: false,
        name: Name::of(&[]),
        key: None,
        returns: 0,
    }
}

// A seat that has just been taken.
fn new_held(join: &JoinLine) -> Occupant
    ensures { result ≡ new_held join.now }
{
    Occupant {
        present: true,
        name: join.name,
        key: join.key,
        returns: 0,
    }
}

// A seat that is taken back.
fn came_back(held: &Occupant) -> Occupant
    requires { held.now.returns < 64 }
    ensures { result ≡ came_back held.now }
{
    Occupant {
        present: true,
        name: held.name,
        key: held.key,
        returns: held.returns + 1,
    }
}

// A seat that leaves.
fn gone(held: &Occupant) -> Occupant
    ensures { result ≡ gone held.now }
{
    Occupant {
        present: false,
        name: held.name,
        key: held.key,
        returns: held.returns,
    }
}
