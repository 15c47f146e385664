ghost use Rattle.std.specs.Prelude.{◌≡◌, ◌≤◌, Option, None};
ghost use Rattle.mj_deeds.specs.Four.{at_seat};
ghost use Rattle.mj_deeds.specs.declared.four.Four.{Four};
ghost use Rattle.mj_deeds.specs.declared.answer.Answer.{Answer};
ghost use Rattle.mj_window.specs.Slots.{empty_slots, put_at, emptied_at, closes, is_waited_for};

use mj_deeds::{Answer, Four};
use std::marker::Model;

/// The window on a deed: one slot for the answer of each seat, 0 to 3.
#[derive(Clone, Copy, Debug)]
pub struct Window {
    slots: Four<Option<Answer>>,
}

impl Model for Window {
    ghost use Rattle.std.specs.Prelude.{Option};
    ghost use Rattle.mj_deeds.specs.declared.four.Four.{Four};
    ghost use Rattle.mj_deeds.specs.declared.answer.Answer.{Answer};

    ghost Value = { Four (Option Answer) };

    ghost view = { λ w. w.slots };

    ghost inverse = { λ slots. record { slots = slots } };
}

impl Window {
    /// A window that nobody has answered.
    pub fn new() -> Window
        ensures { result ≡ empty_slots }
    {
        Window {
            slots: Four {
                first: None,
                second: None,
                third: None,
                fourth: None,
            },
        }
    }

    /// Puts the answer of a seat, 0 to 3, into its slot, which is empty.
    pub fn fill(&mut self, seat: u8, answer: Answer)
        requires { at_seat self.old seat ≡ None }
        ensures { self.new ≡ put_at self.old seat answer }
    {
        match seat {
            0 => self.slots.first = Some(answer),
            1 => self.slots.second = Some(answer),
            2 => self.slots.third = Some(answer),
            _ => self.slots.fourth = Some(answer),
        }
    }

    /// Empties the slot of a seat, 0 to 3.
    #[tactic(auto, using(crate::proofs::Emptied::emptied_again))]
    pub fn clear(&mut self, seat: u8)
        ensures cleared { self.new ≡ emptied_at self.old seat }
        ensures back { (slots : Four (Option Answer)) (answer : Answer) → at_seat slots seat ≡ None
            → self.old ≡ put_at slots seat answer → self.new ≡ slots }
    {
        match seat {
            0 => self.slots.first = None,
            1 => self.slots.second = None,
            2 => self.slots.third = None,
            _ => self.slots.fourth = None,
        }
    }

    /// Empties all four slots.
    pub fn clear_all(&mut self)
        ensures { self.new ≡ empty_slots }
    {
        self.slots.first = None;
        self.slots.second = None;
        self.slots.third = None;
        self.slots.fourth = None;
    }

    /// The answer of a seat, 0 to 3; None exactly where its slot is empty.
    pub fn slot(&self, seat: u8) -> Option<Answer>
        requires { seat ≤ 3 }
        ensures { result ≡ at_seat self.now seat }
    {
        *self.slots.at(seat)
    }

    /// The four slots.
    pub fn slots(&self) -> &Four<Option<Answer>>
        ensures { result.now ≡ self.now }
    {
        &self.slots
    }

    /// Whether the window closes, where `present` says which seats are present: some seat is, and each that is has
    /// answered.
    pub fn ready_to_close(&self, present: [bool; 4]) -> bool
        ensures { result ≡ closes self.now present }
    {
        let some = present[0] || present[1] || present[2] || present[3];
        let waits = is_waited_for(present[0], &self.slots.first)
            || is_waited_for(present[1], &self.slots.second)
            || is_waited_for(present[2], &self.slots.third)
            || is_waited_for(present[3], &self.slots.fourth);
        some && !waits
    }
}

// A seat keeps the window open while it is present and has not answered.
fn is_waited_for(present: bool, slot: &Option<Answer>) -> bool
    ensures { result ≡ is_waited_for present slot.now }
{
    present && slot.is_none()
}
