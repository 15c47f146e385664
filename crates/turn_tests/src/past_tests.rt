//! Lists that are kept for proofs.

ghost use Rattle.std.specs.Prelude.{◌≡◌, [], ◌∷◌, ◌++◌, ◌<◌, length, nat_lt};
ghost use Rattle.std.specs.List.{list_any};

use mj_past::Past;
use std::marker::Model;
use std::mem::size_of;
use std::test::Fail;

// The numbers that came, of which is kept how many they are and whether any was above nine.
#[derive(Drop)]
struct Numbers {
    count: u8,
    high: bool,
    past: Past<u8>,
}

impl Model for Numbers {
    ghost use Rattle.std.specs.Prelude.{◌≡◌, ℕ, List, length, nat_lt};
    ghost use Rattle.std.specs.List.{list_any};

    ghost Value = { List ℕ };

    ghost view = { λ n. n.past.items };

    ghost invariant = { λ n. (n.count ≡ length n.past.items)
        × (n.high ≡ list_any (nat_lt 9) n.past.items) };
}

impl Numbers {
    fn new() -> Numbers
        ensures { result ≡ [] }
    {
        Numbers {
            count: 0,
            high: false,
            past: Past::new(),
        }
    }

    fn push(&mut self, number: u8)
        requires { length self.old < 9 }
        ensures { self.new ≡ self.old ++ number ∷ [] }
    {
        self.count += 1;
        self.high |= number > 9;
        self.past = self.past.and(&number);
    }

    fn copy(&self) -> Numbers
        ensures { result ≡ self.now }
    {
        Numbers {
            count: self.count,
            high: self.high,
            past: self.past.again(),
        }
    }

    fn count(&self) -> u8
        ensures { result ≡ length self.now }
    {
        self.count
    }

    fn has_high(&self) -> bool
        ensures { result ≡ list_any (nat_lt 9) self.now }
    {
        self.high
    }
}

// A value that threads may be given and may share.
fn crosses<T: Send + Sync>(_value: &T) -> bool {
    true
}

#[test]
fn a_past_has_no_bytes(rt: HostRuntime) -> Result<(), Fail> {
    prove!(size_of::<Past<u8>>() == 0);
    prove!(size_of::<Past<Vec<u64>>>() == 0);
    let past: Past<Vec<u64>> = Past::new();
    assert!(rt; crosses(&past));
    Ok(())
}

#[test]
fn kept_facts_stand_for_all_that_came(rt: HostRuntime) -> Result<(), Fail> {
    let mut numbers = Numbers::new();
    numbers.push(3);
    let early = numbers.copy();
    numbers.push(12);
    assert_eq!(rt; numbers.count(), 2);
    assert!(rt; numbers.has_high());
    assert!(rt; !early.has_high());
    Ok(())
}
