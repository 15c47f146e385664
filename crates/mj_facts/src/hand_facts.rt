ghost use Rattle.std.specs.Prelude.{◌≡◌, ◌≤◌, ◌++◌, ◌∷◌, [], ◌-◌, List};
ghost use Rattle.mj_deeds.specs.declared.deed.Deed.{Deed};
ghost use Rattle.mj_deeds.specs.Facts.{is_live_draw};
ghost use Rattle.mj_facts.specs.Hands.{hand_with};
ghost use Rattle.mj_facts.specs.Hands.{Knows, Few};

use crate::bringing::bring;
use crate::counted::counted;
use crate::course_facts::{CourseFacts, follow, no_course};
use crate::seat_facts::{SeatFacts, keep_each, no_seats};
use mj_deeds::{Deed, Four, is_hand_start, is_kan};
use mj_tiles::KINDS;

/// What is kept of the deeds of one hand.
#[derive(Clone, Copy)]
pub struct HandFacts {
    /// whether it has begun
    pub begun: bool,
    /// how many live tiles were drawn, and how many kans were made
    pub drawn: u8,
    pub kans: u8,
    /// how many tiles of each kind were brought in
    pub brought: [u8; KINDS],
    pub course: CourseFacts,
    pub seats: Four<SeatFacts>,
}

impl HandFacts {
    /// How many live tiles are left.
    pub fn live(&self) -> u8
        ensures value { result ≡ 70 - self.now.drawn - self.now.kans }
        ensures within { result ≤ 70 }
    {
        70_u8.saturating_sub(self.drawn).saturating_sub(self.kans)
    }
}

/// What is kept of a hand without a deed.
pub fn no_facts() -> HandFacts
    ensures { Knows [] result }
{
    HandFacts {
        begun: false,
        drawn: 0,
        kans: 0,
        brought: [0; KINDS],
        course: no_course(),
        seats: no_seats(),
    }
}

/// Learns a deed more of the newest hand, or the first one of a hand that it starts.
pub fn learn(facts: &mut HandFacts, deed: &Deed)
    ensures { (before : List Deed) → Few (hand_with before deed.now) → Knows before facts.old
        → Knows (hand_with before deed.now) facts.new }
{
    if is_hand_start(deed) {
        *facts = no_facts();
        learn_more(facts, deed);
        return;
    }
    if facts.begun {
        learn_more(facts, deed);
        return;
    }
}

// Learns a deed of the same hand more.
fn learn_more(facts: &mut HandFacts, deed: &Deed)
    ensures { (before : List Deed) → Few (before ++ deed.now ∷ []) → Knows before facts.old → Knows (before ++ deed.now ∷ []) facts.new }
{
    facts.begun = true;
    facts.drawn = counted(facts.drawn, is_live_draw(deed));
    facts.kans = counted(facts.kans, is_kan(deed));
    bring(&mut facts.brought, deed);
    follow(&mut facts.course, deed);
    keep_each(&mut facts.seats, deed);
}

// Whether a deed draws a live tile.
fn is_live_draw(deed: &Deed) -> bool
    ensures { result ≡ is_live_draw deed.now }
{
    match deed {
        Deed::Draw { replacement, .. } => !*replacement,
        _ => false,
    }
}
