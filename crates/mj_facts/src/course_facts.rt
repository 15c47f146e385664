ghost use Rattle.std.specs.Prelude.{◌≡◌, ◌≤◌, ◌||◌, ◌==◌, ◌++◌, ◌∷◌, [], ℕ, Bool, List, if◌then◌else◌, length, option_map, option_to_list};
ghost use Rattle.std.specs.Option.{option_or};
ghost use Rattle.mj_deeds.specs.declared.deed.Deed.{Deed};
ghost use Rattle.mj_deeds.specs.declared.deed.Deed.TheVariants as deeds;
ghost use Rattle.mj_deeds.specs.Ends.{draws_by};
ghost use Rattle.mj_deeds.specs.Facts.{indicators, indicators_by};
ghost use Rattle.mj_deeds.specs.Four.{at_seat};
ghost use Rattle.mj_deeds.specs.Points.{is_deposit};
ghost use Rattle.mj_deeds.specs.Reasons.{is_turn, discarded_kind};
ghost use Rattle.mj_facts.specs.Courses.{Follows, end_by, is_another};

use crate::counted::counted;
use crate::draw_reasons::{discarded_kind, is_turn};
use crate::few_tiles::{FewTiles, no_tiles};
use crate::winning::is_win;
use mj_deeds::{Deed, Four, Reason, seat_of_kan};
use mj_tiles::{Kind, Tile};

/// How a hand was drawn: for what reason, and which seats were ready.
#[derive(Clone, Copy)]
pub struct HandDraw {
    pub reason: Reason,
    pub ready: [bool; 4],
}

/// What is kept of the course of one hand.
#[derive(Clone, Copy)]
pub struct CourseFacts {
    /// the indicators that are shown
    pub shown: FewTiles,
    /// the seats of the first and of the newest kan, and whether the kans are not all one seat's
    pub first_kan: Option<u8>,
    pub newest_kan: Option<u8>,
    pub several: bool,
    /// how many discards and calls were made, 255 at most, and the kinds that the first four of them discarded
    pub turns: u8,
    pub kinds: Four<Option<Kind>>,
    /// how many reaches were accepted, 255 at most
    pub riichis: u8,
    /// whether a seat has won, and the first draw of the hand
    pub won: bool,
    pub draw: Option<HandDraw>,
}

// What is kept of a hand without a deed.
pub(crate) fn no_course() -> CourseFacts
    ensures { Follows [] result }
{
    CourseFacts {
        shown: no_tiles(),
        first_kan: None,
        newest_kan: None,
        several: false,
        turns: 0,
        kinds: Four {
            first: None,
            second: None,
            third: None,
            fourth: None,
        },
        riichis: 0,
        won: false,
        draw: None,
    }
}

// Follows the course by a deed of the same hand more.
pub(crate) fn follow(course: &mut CourseFacts, deed: &Deed)
    ensures { (before : List Deed) → length (indicators (before ++ deed.now ∷ [])) ≤ 5
        → Follows before course.old → Follows (before ++ deed.now ∷ []) course.new }
{
    match deed {
        Deed::Draw { .. } => {}
        Deed::Discard { .. } => take_turn(course, deed),
        _ => follow_other(course, deed),
    }
}

// Follows the course by a deed that is a discard.
fn take_turn(course: &mut CourseFacts, deed: &Deed)
    ensures { (before : List Deed) → (from tile : ℕ) → (drawn : Bool)
        → deed.now ≡ deeds.Discard from tile drawn → Follows before course.old
        → Follows (before ++ deed.now ∷ []) course.new }
{
    put_kind(&mut course.kinds, course.turns, deed);
    course.turns = counted(course.turns, true);
}

// Follows the course by a deed that is no draw and no discard.
fn follow_other(course: &mut CourseFacts, deed: &Deed)
    ensures { (before : List Deed) → length (indicators (before ++ deed.now ∷ [])) ≤ 5
        → Follows before course.old → Follows (before ++ deed.now ∷ []) course.new }
{
    let kan = seat_of_kan(deed);
    course.shown.add(shown_by(deed));
    course.several = either(course.several, is_another(course.first_kan, kan));
    course.first_kan = course.first_kan.or(kan);
    course.newest_kan = kan.or(course.newest_kan);
    put_kind(&mut course.kinds, course.turns, deed);
    course.turns = counted(course.turns, is_turn(deed));
    course.riichis = counted(course.riichis, is_deposit(deed));
    course.won = either(course.won, is_win(deed));
    keep_first(&mut course.draw, draw_by(deed));
}

// The first is so, or the second.
fn either(first: bool, second: bool) -> bool
    ensures { result ≡ (first || second) }
{
    first || second
}

// Whether a further kan is another seat's than the first one.
fn is_another(first: Option<u8>, kan: Option<u8>) -> bool
    ensures { result ≡ is_another first kan }
{
    match first {
        Some(first) => match kan {
            Some(seat) => seat != first,
            None => false,
        },
        None => false,
    }
}

// Puts the kind that a deed discards to those of the first four discards and calls, where it is one and comes after so
// many of them.
fn put_kind(kinds: &mut Four<Option<Kind>>, turns: u8, deed: &Deed)
    ensures { (place : ℕ) → place ≤ 3 → at_seat kinds.new place
        ≡ (if turns == place then (if is_turn deed.now then discarded_kind deed.now else
        at_seat kinds.old place) else at_seat kinds.old place) }
{
    put_at(&mut kinds.first, turns == 0, deed);
    put_at(&mut kinds.second, turns == 1, deed);
    put_at(&mut kinds.third, turns == 2, deed);
    put_at(&mut kinds.fourth, turns == 3, deed);
}

// Puts the kind that a deed discards to a place, at which it stands where it is the next discard or call.
fn put_at(kind: &mut Option<Kind>, is_next: bool, deed: &Deed)
    ensures { kind.new ≡ (if is_next then (if is_turn deed.now then discarded_kind deed.now else
        kind.old) else kind.old) }
{
    if is_next {
        if is_turn(deed) {
            *kind = discarded_kind(deed);
            return;
        }
        return;
    }
}

// Keeps the draw before, or else the one now.
fn keep_first(draw: &mut Option<HandDraw>, now: Option<HandDraw>)
    ensures { draw.new ≡ option_or draw.old now }
{
    match draw {
        Some(_) => {}
        None => *draw = now,
    }
}

// How a deed draws the hand.
fn draw_by(deed: &Deed) -> Option<HandDraw>
    ensures { (dealer : ℕ) → option_to_list (option_map (end_by dealer) result)
        ≡ draws_by dealer deed.now }
{
    match deed {
        Deed::DrawnHand { reason, ready, .. } => Some(HandDraw {
            reason: *reason,
            ready: *ready,
        }),
        _ => None,
    }
}

// Whether a deed accepts a reach, by which a deposit is laid down.
fn is_deposit(deed: &Deed) -> bool
    ensures { result ≡ is_deposit deed.now }
{
    matches!(deed, Deed::ReachAccepted { .. })
}

// The indicator that a deed shows.
fn shown_by(deed: &Deed) -> Option<Tile>
    ensures { option_to_list result ≡ indicators_by deed.now }
{
    match deed {
        Deed::StartHand { indicator, .. } => Some(*indicator),
        Deed::Dora { tile } => Some(*tile),
        _ => None,
    }
}
