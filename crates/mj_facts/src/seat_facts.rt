ghost use Rattle.std.specs.Prelude.{◌≡◌, ◌==◌, ◌||◌, ◌++◌, ◌∷◌, [], ℕ, Bool, List, true, false, if◌then◌else◌, option_to_list};
ghost use Rattle.std.specs.List.{list_any};
ghost use Rattle.mj_deeds.specs.declared.deed.Deed.{Deed};
ghost use Rattle.mj_deeds.specs.declared.deed.Deed.TheVariants as deeds;
ghost use Rattle.mj_deeds.specs.Ends.{winners_by};
ghost use Rattle.mj_deeds.specs.Passed.{kinds_among};
ghost use Rattle.mj_facts.specs.Hands.{Few};
ghost use Rattle.mj_deeds.specs.Facts.{is_discard};
ghost use Rattle.mj_facts.specs.Inner.Passing.{OnlyOffers};
ghost use Rattle.mj_facts.specs.Seats.{Keeps, AllKeep};

use crate::few_tiles::{FewTiles, no_tiles};
use crate::mark_facts::{MarkFacts, mark, no_marks};
use crate::meld_steps::meld;
use crate::passed::{offered_by, with_tile};
use mj_deeds::{Deed, Four, added};
use mj_tiles::{Kinds, Melds, Tile};

/// What is kept of one seat of the deeds of one hand.
#[derive(Clone, Copy)]
pub struct SeatFacts {
    /// the kinds of its discards
    pub own: Kinds,
    /// the kinds that were offered to it since its last discard, with and without the tile of the newest deed
    pub offered: Kinds,
    pub passed: Kinds,
    /// those that were offered to it since its reach, with and without the tile of the newest deed
    pub offered_in_riichi: Kinds,
    pub passed_in_riichi: Kinds,
    /// its melds, and the tiles that it added to them
    pub melds: Melds,
    pub added: FewTiles,
    pub marks: MarkFacts,
    /// it has won
    pub won: bool,
}

// What is kept of the seats of a hand without a deed.
pub(crate) fn no_seats() -> Four<SeatFacts>
    ensures { AllKeep [] result }
{
    Four {
        first: nothing(),
        second: nothing(),
        third: nothing(),
        fourth: nothing(),
    }
}

// Keeps a deed of the same hand more of each seat.
pub(crate) fn keep_each(facts: &mut Four<SeatFacts>, deed: &Deed)
    ensures { (before : List Deed) → Few (before ++ deed.now ∷ []) → AllKeep before facts.old
        → AllKeep (before ++ deed.now ∷ []) facts.new }
{
    match deed {
        Deed::Draw { .. } => let_all_pass(facts),
        Deed::Discard { seat, tile, .. } => discard_among(facts, *seat, *tile),
        _ => keep_others(facts, deed),
    }
}

// Lets each seat pass what was offered to it, by a deed that offers nothing.
fn let_all_pass(facts: &mut Four<SeatFacts>)
    ensures { (before : List Deed) → (deed : Deed) → ((seat : ℕ) → OnlyOffers deed seat [])
        → AllKeep before facts.old → AllKeep (before ++ deed ∷ []) facts.new }
{
    facts.first.let_pass();
    facts.second.let_pass();
    facts.third.let_pass();
    facts.fourth.let_pass();
}

// Keeps a discard of a seat, which offers its tile to all others.
fn discard_among(facts: &mut Four<SeatFacts>, from: u8, tile: Tile)
    ensures { (before : List Deed) → (drawn : Bool) → AllKeep before facts.old
        → AllKeep (before ++ deeds.Discard from tile drawn ∷ []) facts.new }
{
    facts.first.see_discard(from == 0, tile);
    facts.second.see_discard(from == 1, tile);
    facts.third.see_discard(from == 2, tile);
    facts.fourth.see_discard(from == 3, tile);
}

// Keeps a deed of each seat that is no draw and no discard.
fn keep_others(facts: &mut Four<SeatFacts>, deed: &Deed)
    ensures { (before : List Deed) → is_discard deed.now ≡ false
        → Few (before ++ deed.now ∷ []) → AllKeep before facts.old
        → AllKeep (before ++ deed.now ∷ []) facts.new }
{
    keep(&mut facts.first, 0, deed);
    keep(&mut facts.second, 1, deed);
    keep(&mut facts.third, 2, deed);
    keep(&mut facts.fourth, 3, deed);
}

// What is kept of a seat of a hand without a deed.
fn nothing() -> SeatFacts
    ensures { (seat : ℕ) → Keeps [] seat result }
{
    let none = Kinds::none();
    SeatFacts {
        own: none,
        offered: none,
        passed: none,
        offered_in_riichi: none,
        passed_in_riichi: none,
        melds: Melds::of(&[]),
        added: no_tiles(),
        marks: no_marks(),
        won: false,
    }
}

impl SeatFacts {
    // Lets pass what was offered to the seat.
    fn let_pass(&mut self)
        ensures { (before : List Deed) → (deed : Deed) → (who : ℕ) → OnlyOffers deed who []
            → Keeps before who self.old → Keeps (before ++ deed ∷ []) who self.new }
    {
        self.passed = self.offered;
        self.passed_in_riichi = self.offered_in_riichi;
        self.marks.go_on();
    }

    // Offers a tile to the seat, which lets pass what was offered to it before.
    fn be_offered(&mut self, tile: Tile)
        ensures { (before : List Deed) → (deed : Deed) → (who : ℕ) → OnlyOffers deed who (tile ∷ [])
            → Keeps before who self.old → Keeps (before ++ deed ∷ []) who self.new }
    {
        self.passed = self.offered;
        self.passed_in_riichi = self.offered_in_riichi;
        self.offered = with_tile(self.offered, Some(tile));
        self.offered_in_riichi = since_reach(
            self.offered_in_riichi,
            self.marks.reached,
            Some(tile),
        );
        self.marks.go_on();
    }

    // Keeps a discard, which is the seat's own, or offers its tile to the seat.
    fn see_discard(&mut self, own: bool, tile: Tile)
        ensures { (before : List Deed) → (from who : ℕ) → (drawn : Bool) → (from == who) ≡ own
            → Keeps before who self.old
            → Keeps (before ++ deeds.Discard from tile drawn ∷ []) who self.new }
    {
        if own {
            self.discard(tile);
            return;
        }
        self.be_offered(tile);
    }

    // Discards a tile of the seat, by which its turn ends.
    fn discard(&mut self, tile: Tile)
        ensures { (before : List Deed) → (from who : ℕ) → (drawn : Bool) → (from == who) ≡ true
            → Keeps before who self.old
            → Keeps (before ++ deeds.Discard from tile drawn ∷ []) who self.new }
    {
        self.own = with_tile(self.own, Some(tile));
        let none = Kinds::none();
        self.offered = none;
        self.passed = none;
        self.passed_in_riichi = self.offered_in_riichi;
        self.marks.discard();
    }
}

// Keeps a deed of a seat that is no discard.
fn keep(facts: &mut SeatFacts, seat: u8, deed: &Deed)
    ensures { (before : List Deed) → is_discard deed.now ≡ false → Few (before ++ deed.now ∷ [])
        → Keeps before seat facts.old → Keeps (before ++ deed.now ∷ []) seat facts.new }
{
    facts.passed = facts.offered;
    facts.passed_in_riichi = facts.offered_in_riichi;
    facts.offered = with_tile(facts.offered, offered_by(deed, seat));
    facts.offered_in_riichi = since_reach(
        facts.offered_in_riichi,
        facts.marks.reached,
        offered_by(deed, seat),
    );
    meld(&mut facts.melds, &facts.added, seat, deed);
    facts.added.add(added(deed, seat));
    mark(&mut facts.marks, deed, seat);
    facts.won = has_won(facts.won, deed, seat);
}

// Whether a seat has won, a deed further.
fn has_won(won: bool, deed: &Deed, seat: u8) -> bool
    ensures { result ≡ (won || list_any (λ who. who == seat) (winners_by deed.now)) }
{
    won || wins_by(deed, seat)
}

// Whether a seat wins by a deed.
fn wins_by(deed: &Deed, seat: u8) -> bool
    ensures { result ≡ list_any (λ who. who == seat) (winners_by deed.now) }
{
    match deed {
        Deed::Win { seat: who, .. } => *who == seat,
        _ => false,
    }
}

// The kinds that were offered to a seat since its reach, and that of a tile more, where there is one.
fn since_reach(offered: Kinds, reached: bool, tile: Option<Tile>) -> Kinds
    ensures { (tiles : List ℕ) → offered ≡ kinds_among tiles → result
        ≡ kinds_among (if reached then tiles ++ option_to_list tile else []) }
{
    if reached {
        return with_tile(offered, tile);
    }
    Kinds::none()
}
