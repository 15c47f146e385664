//! The walk of a suit from its highest number down: for each number of sets and pairs at once how many of fifteen tiles
//! are left when the missing ones are paid for.

ghost use Rattle.std.specs.Prelude.{◌≡◌, ◌-◌, ◌*◌, ◌<◌, ◌≤◌, ◌∷◌, [], ℕ, List, true, false, max, drop, replicate, slice_index, EachIndex, IsTrue};
ghost use Rattle.mj_suits.specs.Rows.{Holds, lane, most_left, walked, IsFew};
ghost use Rattle.mj_suits.specs.Left.{LeavesMost};
ghost use Rattle.mj_suits.specs.Inner.Walked.{AreCosts, AreBegun, begun_lanes, cost_lanes, row_at, AreRows, seven_full};

use crate::row::Row;

// What one to four tiles of a number cost.
#[derive(Clone, Copy)]
struct Costs {
    one: Row,
    two: Row,
    three: Row,
    four: Row,
}

// The costs of a number of which so many are held, where there is room for so many.
#[inline(always)]
fn costs_of(held: u8, room: u8) -> Costs
    requires { room ≤ 4 }
    ensures { AreCosts held room result }
{
    let held = Row::all(held);
    let room = Row::all(16 * room);
    Costs {
        one: cost_of(1, held, room),
        two: cost_of(2, held, room),
        three: cost_of(3, held, room),
        four: cost_of(4, held, room),
    }
}

// What so many tiles cost.
#[inline(always)]
fn cost_of(tiles: u8, held: Row, room: Row) -> Row
    requires { tiles ≤ 4 }
    ensures { Holds result.lanes (λ s p. max (tiles - lane held.lanes s p)
        (16 * tiles - lane room.lanes s p)) }
{
    let missing = Row::all(tiles).less(held);
    let over = Row::all(16 * tiles).less(room);
    missing.greater(over)
}

// The costs of a number of which so many are held, where there is room for four.
#[inline(always)]
fn costs_in_full_room(held: u8) -> Costs
    ensures { AreCosts held 4 result }
{
    let held = Row::all(held);
    Costs {
        one: Row::all(1).less(held),
        two: Row::all(2).less(held),
        three: Row::all(3).less(held),
        four: Row::all(4).less(held),
    }
}

// What is left where none to four tiles begin at a number.
#[derive(Clone, Copy)]
struct Begun {
    none: Row,
    one: Row,
    two: Row,
    three: Row,
    four: Row,
}

// What is left where none to four tiles begin at a number, by what is left after it with no run, one and two runs from it.
#[inline(always)]
fn begin(none: Row, one: Row, two: Row) -> Begun
    ensures { AreBegun none.lanes one.lanes two.lanes result }
{
    let run = one.more_set();
    let runs = two.more_set().more_set();
    Begun {
        none,
        one: run,
        two: runs.greater(none.more_pair()),
        three: none.more_set().greater(run.more_pair()),
        four: run.more_set().greater(runs.more_pair()),
    }
}

impl Begun {
    // What is left where no tile of earlier runs stands at the number.
    #[inline(always)]
    fn alone(&self, costs: &Costs) -> Row
        ensures { Holds result.lanes
            (λ s p. most_left (begun_lanes self.now s p) (cost_lanes costs.now s p)) }
    {
        let four = self.four.less(costs.four);
        let three = self.three.less(costs.three).greater(four);
        let two = self.two.less(costs.two).greater(three);
        let one = self.one.less(costs.one).greater(two);
        self.none.greater(one)
    }

    // What is left where one tile of earlier runs stands at the number.
    #[inline(always)]
    fn beside_one(&self, costs: &Costs) -> Row
        ensures { Holds result.lanes
            (λ s p. most_left (begun_lanes self.now s p) (drop 1 (cost_lanes costs.now s p))) }
    {
        let three = self.three.less(costs.four);
        let two = self.two.less(costs.three).greater(three);
        let one = self.one.less(costs.two).greater(two);
        self.none.less(costs.one).greater(one)
    }

    // What is left where two tiles of earlier runs stand at the number.
    #[inline(always)]
    fn beside_two(&self, costs: &Costs) -> Row
        ensures { Holds result.lanes
            (λ s p. most_left (begun_lanes self.now s p) (drop 2 (cost_lanes costs.now s p))) }
    {
        let two = self.two.less(costs.four);
        let one = self.one.less(costs.three).greater(two);
        self.none.less(costs.two).greater(one)
    }

    // What is left where three tiles of earlier runs stand at the number.
    #[inline(always)]
    fn beside_three(&self, costs: &Costs) -> Row
        ensures { Holds result.lanes
            (λ s p. most_left (begun_lanes self.now s p) (drop 3 (cost_lanes costs.now s p))) }
    {
        let one = self.one.less(costs.four);
        self.none.less(costs.three).greater(one)
    }

    // What is left where four tiles of earlier runs stand at the number.
    #[inline(always)]
    fn beside_four(&self, costs: &Costs) -> Row
        ensures { Holds result.lanes
            (λ s p. most_left (begun_lanes self.now s p) (drop 4 (cost_lanes costs.now s p))) }
    {
        self.none.less(costs.four)
    }
}

// A row for each number of runs that began one number before: none, one and two.
#[derive(Clone, Copy)]
pub(crate) struct ByRuns {
    none: Row,
    one: Row,
    two: Row,
}

// A row for each number of runs that began one number and two numbers before: none, one and two of each.
#[derive(Clone, Copy)]
pub(crate) struct Rows {
    none: ByRuns,
    one: ByRuns,
    two: ByRuns,
}

impl Rows {
    // The row where so many runs began one number and two numbers before.
    #[inline(always)]
    pub(crate) fn at(&self, before: u8, earlier: u8) -> Row
        ensures { result.lanes ≡ row_at self.now before earlier }
    {
        let rows = match earlier {
            0 => &self.none,
            1 => &self.one,
            _ => &self.two,
        };
        match before {
            0 => rows.none,
            1 => rows.one,
            _ => rows.two,
        }
    }
}

// The rows past the highest number: no run may be under way.
#[inline(always)]
pub(crate) fn rows_past(after: Row) -> Rows
    ensures { AreRows (lane after.lanes) [] [] result }
{
    rows_of(after)
}

// This row where no run is under way, and none where one is.
#[inline(always)]
pub(crate) fn rows_of(row: Row) -> Rows
    ensures alone { result.none.none ≡ row }
    ensures none { (before earlier : ℕ) → (before ≡ 0 → earlier ≡ 0 → ⊥)
        → Holds (row_at result before earlier) (λ s p. 0) }
{
    let none = Row::all(0);
    let under_way = ByRuns {
        none,
        one: none,
        two: none,
    };
    Rows {
        none: ByRuns {
            none: row,
            one: none,
            two: none,
        },
        one: under_way,
        two: under_way,
    }
}

// The rows from a number on, of which so many are held and for so many of which there is room, by those after it.
#[inline(always)]
pub(crate) fn rows_before(next: &Rows, held: u8, room: u8) -> Rows
    requires { room ≤ 4 }
    ensures { (after : ℕ → ℕ → ℕ) (rooms counts : List ℕ)
        → AreRows after rooms counts next.now
        → AreRows after (room ∷ rooms) (held ∷ counts) result }
{
    rows_at_cost(next, &costs_of(held, room))
}

// The rows from a number on, of which so many are held and four may be, by those after it.
#[inline(always)]
fn rows_in_full_room(next: &Rows, held: u8) -> Rows
    ensures { (after : ℕ → ℕ → ℕ) (rooms counts : List ℕ)
        → AreRows after rooms counts next.now
        → AreRows after (4 ∷ rooms) (held ∷ counts) result }
{
    rows_at_cost(next, &costs_in_full_room(held))
}

// The rows from a number on, whose tiles cost so much, by those after it.
#[inline(always)]
fn rows_at_cost(next: &Rows, costs: &Costs) -> Rows
    ensures { (after : ℕ → ℕ → ℕ) (rooms counts : List ℕ) (held room : ℕ)
        → AreCosts held room costs.now
        → AreRows after rooms counts next.now
        → AreRows after (room ∷ rooms) (held ∷ counts) result }
{
    let none = begin(next.none.none, next.none.one, next.none.two);
    let one = begin(next.one.none, next.one.one, next.one.two);
    let two = begin(next.two.none, next.two.one, next.two.two);
    Rows {
        none: ByRuns {
            none: none.alone(costs),
            one: one.beside_one(costs),
            two: two.beside_two(costs),
        },
        one: ByRuns {
            none: none.beside_one(costs),
            one: one.beside_two(costs),
            two: two.beside_three(costs),
        },
        two: ByRuns {
            none: none.beside_two(costs),
            one: one.beside_three(costs),
            two: two.beside_four(costs),
        },
    }
}

// The row of honours, which have no runs, from a number on, by the row after it.
#[inline(always)]
pub(crate) fn honours_before(next: Row, held: u8, room: u8) -> Row
    requires { room ≤ 4 }
    ensures { (after : ℕ → ℕ → ℕ) (rooms counts : List ℕ)
        → Holds next.lanes (walked false after rooms counts 0 0)
        → Holds result.lanes (walked false after (room ∷ rooms) (held ∷ counts) 0 0) }
{
    honours_at_cost(next, &costs_of(held, room))
}

// The row of honours from a number on, of which so many are held and four may be, by the row after it.
#[inline(always)]
fn honours_in_full_room(next: Row, held: u8) -> Row
    ensures { (after : ℕ → ℕ → ℕ) (rooms counts : List ℕ)
        → Holds next.lanes (walked false after rooms counts 0 0)
        → Holds result.lanes (walked false after (4 ∷ rooms) (held ∷ counts) 0 0) }
{
    honours_at_cost(next, &costs_in_full_room(held))
}

// The row of honours from a number on, whose tiles cost so much, by the row after it.
#[inline(always)]
fn honours_at_cost(next: Row, costs: &Costs) -> Row
    ensures { (after : ℕ → ℕ → ℕ) (rooms counts : List ℕ) (held room : ℕ)
        → AreCosts held room costs.now
        → Holds next.lanes (walked false after rooms counts 0 0)
        → Holds result.lanes (walked false after (room ∷ rooms) (held ∷ counts) 0 0) }
{
    let triplet = next.more_set().less(costs.three);
    let pair = next.more_pair().less(costs.two);
    next.greater(pair.greater(triplet))
}

// The row of a suit with runs: most often there is room for four of each number.
fn with_runs(after: Row, counts: &[u8; 9], room: &[u8; 9]) -> Row
    requires { EachIndex room.now (λ n. slice_index room.now n ≤ 4) }
    ensures { Holds result.lanes (walked true (lane after.lanes) room.now counts.now 0 0) }
{
    if is_full(room) {
        return runs_in_full_room(after, counts);
    }
    runs_within(after, counts, room)
}

// Whether there is room for four of each number.
fn is_full(room: &[u8; 9]) -> bool
    ensures { IsTrue result → room.now ≡ replicate 9 4 }
{
    room.iter().all(|number| *number == 4)
}

// The row of a suit with runs within this room.
fn runs_within(after: Row, counts: &[u8; 9], room: &[u8; 9]) -> Row
    requires { EachIndex room.now (λ n. slice_index room.now n ≤ 4) }
    ensures { Holds result.lanes (walked true (lane after.lanes) room.now counts.now 0 0) }
{
    let past = rows_past(after);
    let ninth = rows_before(&past, counts[8], room[8]);
    let eighth = rows_before(&ninth, counts[7], room[7]);
    let seventh = rows_before(&eighth, counts[6], room[6]);
    let sixth = rows_before(&seventh, counts[5], room[5]);
    let fifth = rows_before(&sixth, counts[4], room[4]);
    let fourth = rows_before(&fifth, counts[3], room[3]);
    let third = rows_before(&fourth, counts[2], room[2]);
    let second = rows_before(&third, counts[1], room[1]);
    let first = rows_before(&second, counts[0], room[0]);
    first.none.none
}

// The row of a suit with runs where there is room for four of each number.
fn runs_in_full_room(after: Row, counts: &[u8; 9]) -> Row
    ensures { Holds result.lanes (walked true (lane after.lanes) (replicate 9 4) counts.now 0 0) }
{
    let past = rows_past(after);
    let ninth = rows_in_full_room(&past, counts[8]);
    let eighth = rows_in_full_room(&ninth, counts[7]);
    let seventh = rows_in_full_room(&eighth, counts[6]);
    let sixth = rows_in_full_room(&seventh, counts[5]);
    let fifth = rows_in_full_room(&sixth, counts[4]);
    let fourth = rows_in_full_room(&fifth, counts[3]);
    let third = rows_in_full_room(&fourth, counts[2]);
    let second = rows_in_full_room(&third, counts[1]);
    let first = rows_in_full_room(&second, counts[0]);
    first.none.none
}

// The row of honours: most often there is room for four of each of the seven kinds, and none for the two numbers past
// them.
fn with_honours(after: Row, counts: &[u8; 9], room: &[u8; 9]) -> Row
    requires room { EachIndex room.now (λ n. slice_index room.now n ≤ 4) }
    requires few { IsFew after.lanes }
    ensures { Holds result.lanes (walked false (lane after.lanes) room.now counts.now 0 0) }
{
    if has_seven_full(room) {
        return seven_in_full_room(after, counts);
    }
    honours_within(after, counts, room)
}

// Whether there is room for four of each of the first seven numbers, and none for the other two.
fn has_seven_full(room: &[u8; 9]) -> bool
    ensures { IsTrue result → room.now ≡ seven_full }
{
    matches!(room, [4, 4, 4, 4, 4, 4, 4, 0, 0])
}

// The row of honours in such room.
fn seven_in_full_room(after: Row, counts: &[u8; 9]) -> Row
    requires { IsFew after.lanes }
    ensures { Holds result.lanes (walked false (lane after.lanes) seven_full counts.now 0 0) }
{
    let seventh = honours_in_full_room(after, counts[6]);
    let sixth = honours_in_full_room(seventh, counts[5]);
    let fifth = honours_in_full_room(sixth, counts[4]);
    let fourth = honours_in_full_room(fifth, counts[3]);
    let third = honours_in_full_room(fourth, counts[2]);
    let second = honours_in_full_room(third, counts[1]);
    honours_in_full_room(second, counts[0])
}

// The row of honours within any room.
fn honours_within(after: Row, counts: &[u8; 9], room: &[u8; 9]) -> Row
    requires { EachIndex room.now (λ n. slice_index room.now n ≤ 4) }
    ensures { Holds result.lanes (walked false (lane after.lanes) room.now counts.now 0 0) }
{
    let ninth = honours_before(after, counts[8], room[8]);
    let eighth = honours_before(ninth, counts[7], room[7]);
    let seventh = honours_before(eighth, counts[6], room[6]);
    let sixth = honours_before(seventh, counts[5], room[5]);
    let fifth = honours_before(sixth, counts[4], room[4]);
    let fourth = honours_before(fifth, counts[3], room[3]);
    let third = honours_before(fourth, counts[2], room[2]);
    let second = honours_before(third, counts[1], room[1]);
    honours_before(second, counts[0], room[0])
}

/// What is left of fifteen tiles for each number of sets and pairs where this suit's are among them: the most that some
/// target of the suit leaves of what is left after it. `room` says how many of each number there may be, at most 4.
#[tactic(auto, using(crate::proofs::Nine::leaves_most))]
pub fn with_suit(after: Row, counts: &[u8; 9], room: &[u8; 9], runs: bool) -> Row
    requires room { EachIndex room.now (λ n. slice_index room.now n ≤ 4) }
    requires few { IsFew after.lanes }
    ensures { LeavesMost counts.now room.now runs after.lanes result.lanes }
{
    if runs {
        with_runs(after, counts, room)
    } else {
        with_honours(after, counts, room)
    }
}
