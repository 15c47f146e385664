ghost use Rattle.std.specs.Prelude.{◌≡◌, ◌≤◌, ◌<◌, ◌==◌, ◌-◌, ◌++◌, [], ◌∷◌, ℕ, Some, IfOk, OnOk, OnErr, IsTrue, length, not, min, flat_map, option_copied, slice_get, slice_index};
ghost use Rattle.std.specs.List.{list_any};
ghost use Rattle.mj_tiles.specs.Faces.{number_in, kind_of};
ghost use Rattle.mj_tiles.specs.Counts.{kind_counts, room_beside};
ghost use Rattle.mj_tiles.specs.Melds.{tiles_of_meld};
ghost use Rattle.mj_deeds.specs.Facts.{newest, concealed_tiles, reds, tiles_gained, tiles_lost, drawn_tile, seat_melds, kans, kan_seats, indicators, live_draws, live_tiles};
ghost use Rattle.mj_deeds.specs.Firsts.{is_first};
ghost use Rattle.mj_deeds.specs.Fits.{fits, fits_in, ground_of, has_points, is_in_place, is_triplet_of};
ghost use Rattle.mj_deeds.specs.Course.{cause, before_wins};
ghost use Rattle.mj_deeds.specs.Ends.{dealer_won, winners, end_of};
ghost use Rattle.mj_deeds.specs.Passed.{own_kinds, passed_kinds, passed_in_riichi};
ghost use Rattle.mj_deeds.specs.Points.{points, deposits};
ghost use Rattle.mj_deeds.specs.Riichi.{is_in_riichi, is_ippatsu};
ghost use Rattle.mj_deeds.specs.Reasons.{reason};
ghost use Rattle.mj_sights.specs.Seen.{seen_tiles};
ghost use Rattle.mj_facts.specs.Marks.{marks};
ghost use Rattle.mj_table.specs.Offers.{offered_tile};
ghost use Rattle.mj_facts.specs.Seats.{Keeps};
ghost use Rattle.mj_deeds.specs.Hand.{before_in, hand, starts};
ghost use Rattle.mj_deeds.specs.Standings.{standing};

use crate::counting::{kinds_held, tiles_held};
use crate::course::{before_wins, cause, drawn, taken};
use crate::held::{move_tiles, nothing_held};
use crate::latest::{Latest, copy_of};
use crate::room::room_beside;
use crate::seeing::kinds_seen;
use crate::standing::stand;
use mj_deeds::{
    Deed, Four, Reason, Tiles, deposits_after, has_points, is_hand_start, is_in_place, points_after,
};
use mj_facts::{
    HandFacts, Marks, SeatFacts, fits_in, hand_end, has_triplet, learn, no_facts, reason,
};
use mj_past::Past;
use mj_rounds::{HandEnd, Standing, first};
use mj_tiles::{Counts, FACES, Kinds, Melds, Tile};
use mj_wall::Rules;
use std::alloc::{AllocError, Global};
use std::marker::Model;

/// A game as far as it was played: its rules, and its deeds so far, each of which fits after those before it. It
/// says each fact of these deeds. No call but `push`, `copy`, `copy_over` and `concealed` takes memory. Condition wherever a seat is asked for: it is 0 to 3.
#[derive(Drop)]
pub struct Table {
    rules: Rules,
    // the newest deed, and the one before it in its hand, before wins the newest that is none
    latest: Latest,
    standing: Standing,
    // the points of the seats and the deposits on the table
    points: [i32; 4],
    deposits: u32,
    // how many concealed tiles of each face the seats hold
    held: Four<[u8; FACES]>,
    // the facts of the newest hand
    facts: HandFacts,
    // all deeds, which are not kept
    past: Past<Deed>,
}

impl Model for Table {
    ghost use Rattle.mj_table.specs.Plays.{Play};
    ghost use Rattle.mj_table.specs.Inner.Kept.{Stands};
    ghost use Rattle.mj_table.specs.Inner.Latest.{newest_of, previous_of};

    ghost Value = { Play };

    ghost view = { λ t. record { rules = t.rules; deeds = t.past.items } };

    ghost invariant = { λ t. Stands t.rules t.past.items (newest_of t.latest)
        (previous_of t.latest) t.standing t.points t.deposits t.held t.facts };
}

impl Table {
    /// The table of a game without a deed.
    pub fn new(rules: Rules) -> Result<Table, AllocError>
        ensures { IfOk result (λ table. table ≡ record { rules = rules; deeds = [] }) }
    {
        Ok(Table {
            rules,
            latest: Latest::none(),
            standing: first(),
            points: [30_000; 4],
            deposits: 0,
            held: nothing_held(),
            facts: no_facts(),
            past: Past::new(),
        })
    }

    /// Adds a deed, which fits after the deeds so far; `fits` tells whether it does. Where memory is wanting nothing
    /// changes.
    pub fn push(&mut self, deed: &Deed) -> Result<(), AllocError>
        requires { IsTrue (fits self.old.rules.red self.old.deeds deed.now) }
        ensures ok { OnOk result (self.new
            ≡ record { rules = self.old.rules; deeds = self.old.deeds ++ deed.now ∷ [] }) }
        ensures err { OnErr result (self.new ≡ self.old) }
    {
        let number = self.next_number();
        self.latest.add(self.facts.begun, deed)?;
        stand(&mut self.standing, number, deed);
        self.points = points_after(self.points, deed);
        self.deposits = deposits_after(self.deposits, deed);
        move_tiles(&mut self.held, deed);
        learn(&mut self.facts, deed);
        self.past = self.past.and(deed);
        Ok(())
    }

    /// A table of the same rules and the same deeds.
    pub fn copy(&self) -> Result<Table, AllocError>
        ensures { IfOk result (λ table. table ≡ self.now) }
    {
        let mut table = Table::new(self.rules)?;
        self.copy_over(&mut table)?;
        Ok(table)
    }

    /// Makes another table the same: of the same rules and the same deeds. Where memory is wanting the other stays as it was.
    pub fn copy_over(&self, other: &mut Table) -> Result<(), AllocError>
        ensures ok { OnOk result (other.new ≡ self.now) }
        ensures err { OnErr result (other.new ≡ other.old) }
    {
        let first = copy_of(self.latest.first.as_ref())?;
        let second = copy_of(self.latest.second.as_ref())?;
        other.rules = self.rules;
        other.latest = Latest {
            first,
            second,
            turned: self.latest.turned,
        };
        other.standing = self.standing;
        other.points = self.points;
        other.deposits = self.deposits;
        other.held = self.held;
        other.facts = self.facts;
        other.past = self.past.again();
        Ok(())
    }

    // The number of a hand that begins next, counted from 0.
    fn next_number(&self) -> u32
        ensures { result ≡ length (starts self.now.deeds) }
    {
        if self.facts.begun {
            return self.standing.hand + 1;
        }
        0
    }

    // What is kept of a seat.
    fn kept(&self, seat: u8) -> &SeatFacts
        requires { seat ≤ 3 }
        ensures { Keeps (hand self.now.deeds) seat result.now }
    {
        self.facts.seats.at(seat)
    }

    /// Whether a deed fits after the deeds so far: it stands in its place, its seats are 0 to 3, tiles that are put
    /// down are held, a tile is added to an own pon, each tile is one that the game has, a red five only in a game with
    /// them, there is no fifth tile of a kind, no fifth meld of a seat, no fifth kan, a live tile is left for a live draw
    /// or a kan, a seat's reach is accepted once, and the points that it says are those before it, changed as it says.
    #[tactic(auto, unfolding(mj_deeds::specs::Fits::fits_behind, mj_deeds::specs::Fits::ground_of))]
    pub fn fits(&self, deed: &Deed) -> bool
        ensures { result ≡ fits self.now.rules.red self.now.deeds deed.now }
    {
        self.is_in_place(deed) && self.fits_in(deed) && self.has_points(deed)
    }

    // Whether a deed fits after the deeds before it in its own hand.
    fn fits_in(&self, deed: &Deed) -> bool
        ensures { result ≡ fits_in self.now.rules.red
            (before_in (hand self.now.deeds) deed.now) deed.now }
    {
        if is_hand_start(deed) {
            return fits_in(self.rules.red, &nothing_held(), &no_facts(), deed);
        }
        fits_in(self.rules.red, &self.held, &self.facts, deed)
    }

    // Whether a deed says the points that stand after it.
    fn has_points(&self, deed: &Deed) -> bool
        ensures { result ≡ has_points (points self.now.deeds) deed.now }
    {
        has_points(self.points, deed)
    }

    // Whether a deed stands in its place after the deeds so far.
    fn is_in_place(&self, deed: &Deed) -> bool
        ensures { result ≡ is_in_place (ground_of self.now.deeds) deed.now }
    {
        let newest = self.latest.newest();
        is_in_place(
            newest,
            taken(newest, self.latest.previous()),
            self.hand_end(),
            &self.standing,
            self.deposits,
            deed,
        )
    }

    /// The rules of the game.
    pub fn rules(&self) -> Rules
        ensures { result ≡ self.now.rules }
    {
        self.rules
    }

    /// The newest deed; none exactly before the first.
    pub fn newest(&self) -> Option<&Deed>
        ensures { option_copied result ≡ newest self.now.deeds }
    {
        self.latest.newest()
    }

    /// The deed that the newest one comes of: the reach before a discard, the discard before an accepted reach, the
    /// discard or the added kan that was won on, the kan before an indicator, and the win or the drawn hand before
    /// the end of a hand. None after every other deed.
    pub fn cause(&self) -> Option<&Deed>
        ensures { option_copied result ≡ cause self.now.deeds }
    {
        cause(self.latest.newest(), self.latest.previous())
    }

    /// The points of the four seats: 30,000 each at the start.
    pub fn points(&self) -> [i32; 4]
        ensures { result ≡ points self.now.deeds }
    {
        self.points
    }

    /// How many deposits of 1,000 points lie on the table.
    pub fn deposits(&self) -> u32
        ensures { result ≡ deposits self.now.deeds }
    {
        self.deposits
    }

    /// How many live tiles are left, 70 at most: those are there when the dealer draws first, and each kan takes one
    /// away.
    pub fn live(&self) -> u8
        ensures value { result ≡ live_tiles (hand self.now.deeds) }
        ensures within { result ≤ 70 }
    {
        self.facts.live()
    }

    /// How many live tiles were drawn.
    pub fn live_drawn(&self) -> usize
        ensures { result ≡ live_draws (hand self.now.deeds) }
    {
        usize::from(self.facts.drawn)
    }

    /// How many kans were made, by all seats: four at most.
    pub fn kans(&self) -> u8
        ensures value { result ≡ kans (hand self.now.deeds) }
        ensures within { result ≤ 4 }
    {
        self.facts.kans
    }

    /// The seat of the newest kan; none exactly where there is no kan.
    pub fn kan_seat(&self) -> Option<u8>
        ensures { result ≡ slice_get (kan_seats (hand self.now.deeds))
            (length (kan_seats (hand self.now.deeds)) - 1) }
    {
        self.facts.course.newest_kan
    }

    /// The standing of the newest hand; before the first hand that of hand 0: round east, dealer 0, no honba.
    pub fn standing(&self) -> Standing
        ensures { result ≡ standing self.now.deeds }
    {
        self.standing
    }

    /// The indicator at a place of those that are shown, the first one at 0; none exactly where at most so many are
    /// shown.
    pub fn indicator(&self, k: u8) -> Option<Tile>
        ensures { result ≡ slice_get (indicators (hand self.now.deeds)) k }
    {
        self.facts.course.shown.at(k)
    }

    /// How many indicators are shown.
    pub fn shown(&self) -> usize
        ensures { result ≡ length (indicators (hand self.now.deeds)) }
    {
        usize::from(self.facts.course.shown.number)
    }

    /// How often each kind stands among the concealed tiles of a seat: the kind of a tile that the newest deed offers
    /// to be won on at most three times.
    pub fn holds(&self, seat: u8) -> Counts
        requires { seat ≤ 3 }
        ensures value { result ≡ kind_counts (concealed_tiles (hand self.now.deeds) seat) }
        ensures spare { (tile : ℕ) → offered_tile self.now.deeds ≡ Some tile
            → slice_index result (kind_of tile) < 4 }
    {
        kinds_held(self.held.at(seat))
    }

    /// How often each kind stands among the tiles that a seat sees: its own concealed ones, and those that lie open, each once, in
    /// a meld, as a discard that wasn't called, or as an indicator.
    pub fn seen(&self, seat: u8) -> Counts
        requires { seat ≤ 3 }
        ensures { result ≡ kind_counts (seen_tiles (hand self.now.deeds) seat) }
    {
        kinds_seen(&self.facts.brought, &self.held, seat)
    }

    /// How many concealed tiles of the face of a tile a seat holds, four at most.
    pub fn held_count(&self, seat: u8, tile: Tile) -> usize
        requires { seat ≤ 3 }
        ensures { result ≡ min (number_in (tiles_gained (hand self.now.deeds) seat) tile - number_in
            (tiles_lost (hand self.now.deeds) seat) tile) 4 }
    {
        usize::from(self.held.at(seat)[tile.face() as usize])
    }

    /// Whether a seat has a red five among its concealed tiles: of characters, of circles and of bamboo.
    pub fn reds(&self, seat: u8) -> [bool; 3]
        requires { seat ≤ 3 }
        ensures { result ≡ reds (hand self.now.deeds) seat }
    {
        let held = self.held.at(seat);
        [held[34] > 0, held[35] > 0, held[36] > 0]
    }

    /// The tile that a seat has drawn and holds as drawn; none exactly where the newest deed isn't its draw, or its
    /// reach after it.
    pub fn drawn(&self, seat: u8) -> Option<Tile>
        ensures { result ≡ drawn_tile self.now.deeds seat }
    {
        drawn(self.latest.newest(), self.latest.previous(), seat)
    }

    /// The melds of a seat, in the order in which they were made; a pon that a tile was added to is an added kan.
    pub fn melds(&self, seat: u8) -> Melds
        requires { seat ≤ 3 }
        ensures { result ≡ seat_melds (hand self.now.deeds) seat }
    {
        self.kept(seat).melds
    }

    /// The room that the melds of a seat leave of four tiles of each kind.
    pub fn room(&self, seat: u8) -> Counts
        requires { seat ≤ 3 }
        ensures { result ≡ room_beside
            (flat_map tiles_of_meld (seat_melds (hand self.now.deeds) seat)) }
    {
        room_beside(self.melds(seat).as_slice())
    }

    /// Whether a seat has a pon that no tile was added to, of the tiles `a`, `b` and `c` in tile order, and of the
    /// kind of the tile.
    pub fn has_triplet(&self, seat: u8, tile: Tile, a: Tile, b: Tile, c: Tile) -> bool
        requires { seat ≤ 3 }
        ensures { result ≡ list_any (is_triplet_of tile a b c)
            (seat_melds (hand self.now.deeds) seat) }
    {
        has_triplet(&self.melds(seat), tile, a, b, c)
    }

    /// The kinds of the discards of a seat, called ones included.
    pub fn own(&self, seat: u8) -> Kinds
        requires { seat ≤ 3 }
        ensures { result ≡ own_kinds (hand self.now.deeds) seat }
    {
        self.kept(seat).own
    }

    /// The kinds that a seat let pass: those of the tiles that others discarded, or added to a triplet, since its own
    /// last discard, or since the start of the hand where it has none. The tile of the newest deed isn't counted.
    pub fn passed(&self, seat: u8) -> Kinds
        requires { seat ≤ 3 }
        ensures { result ≡ passed_kinds (hand self.now.deeds) seat }
    {
        self.kept(seat).passed
    }

    /// The kinds that a seat let pass since its reach: those of the tiles that others discarded, or added to a
    /// triplet, since then; none of a seat that has not reached. The tile of the newest deed isn't counted.
    pub fn passed_in_riichi(&self, seat: u8) -> Kinds
        requires { seat ≤ 3 }
        ensures { result ≡ passed_in_riichi (hand self.now.deeds) seat }
    {
        self.kept(seat).passed_in_riichi
    }

    /// How the newest hand ended, as far as the next one depends on it: by its draw, or else by its wins.
    pub fn hand_end(&self) -> HandEnd
        ensures { result ≡ end_of (hand self.now.deeds) (standing self.now.deeds).dealer }
    {
        let dealer = self.standing.dealer;
        hand_end(self.facts.course.draw, dealer, self.kept(dealer).won)
    }

    /// Whether the dealer is among the winners of the hand.
    pub fn dealer_won(&self) -> bool
        ensures { result ≡ dealer_won (hand self.now.deeds) (standing self.now.deeds).dealer }
    {
        self.kept(self.standing.dealer).won
    }

    /// Whether a seat has won in the hand.
    pub fn has_winner(&self) -> bool
        ensures { result ≡ not (length (winners (hand self.now.deeds)) == 0) }
    {
        self.facts.course.won
    }

    /// The newest deed of the hand that is no win: where there are winners, the one that gave the tile that was won
    /// on.
    pub fn before_wins(&self) -> Option<&Deed>
        ensures { option_copied result ≡ newest (before_wins (hand self.now.deeds)) }
    {
        before_wins(
            self.facts.begun,
            self.latest.newest(),
            self.latest.previous(),
        )
    }

    /// Whether a seat was within one turn of its riichi when the tile was given that `before_wins` gives: an added
    /// kan that gives it doesn't count.
    pub fn ippatsu_before_wins(&self, seat: u8) -> bool
        requires { seat ≤ 3 }
        ensures { result ≡ is_ippatsu (before_wins (hand self.now.deeds)) seat }
    {
        self.kept(seat).marks.given
    }

    /// The first reason for a drawn hand before its live tiles are drawn, in a game whose rules have such draws: the
    /// first four discards of the hand are one wind and no call stands before, four reaches were accepted, or four
    /// kans stand and not all are one seat's. None exactly where none holds.
    pub fn reason(&self) -> Option<Reason>
        ensures { result ≡ reason self.now.rules.draws (hand self.now.deeds) }
    {
        reason(self.rules.draws, self.facts.kans, &self.facts.course)
    }

    /// Whether a seat is in its first turn: a hand has begun, the seat has not discarded in it, and no seat made a
    /// chi, pon or kan.
    pub fn is_first(&self, seat: u8) -> bool
        requires { seat ≤ 3 }
        ensures { result ≡ is_first (hand self.now.deeds) seat }
    {
        self.kept(seat).marks.is_first()
    }

    /// Whether a seat is in riichi: its reach in the hand was accepted.
    pub fn is_in_riichi(&self, seat: u8) -> bool
        requires { seat ≤ 3 }
        ensures { result ≡ is_in_riichi (hand self.now.deeds) seat }
    {
        self.kept(seat).marks.accepted
    }

    /// The concealed tiles of a seat, in tile order.
    pub fn concealed(&self, alloc: Global, seat: u8) -> Result<Tiles, AllocError>
        requires { seat ≤ 3 }
        ensures { IfOk result (λ t. t ≡ concealed_tiles (hand self.now.deeds) seat) }
    {
        tiles_held(alloc, self.held.at(seat))
    }

    /// The marks of a seat in its hand, all false before a hand has begun.
    pub fn marks(&self, seat: u8) -> Marks
        requires { seat ≤ 3 }
        ensures { result ≡ marks (hand self.now.deeds) seat }
    {
        self.kept(seat).marks.told()
    }
}
