ghost use Rattle.std.specs.Prelude.{◌≡◌, ◌<◌, ◌≤◌, ◌==◌, ◌&&◌, ℕ, [], true, Some, not, IsTrue, MatchOption, filter, is_none, length, map, option_map, slice_index};
ghost use Rattle.std.specs.Option.{option_map_or};
ghost use Rattle.mj_tiles.specs.Faces.{kind_of};
ghost use Rattle.mj_tiles.specs.Counts.{kind_counts};
ghost use Rattle.mj_tiles.specs.Kinds.{has_kind, set_of};
ghost use Rattle.mj_rules.specs.Broken.{broken_by};
ghost use Rattle.mj_readings.specs.Sets.{set_of_meld};
ghost use Rattle.mj_rules.specs.View.{view_of, concealed, room};
ghost use Rattle.mj_rules.specs.Default.{discard_of, lawful_faces, last_face};
ghost use Rattle.mj_judge.specs.Measured.{is_measured};
ghost use Rattle.mj_bot.specs.Choice.{IsBest, lawful_of};
ghost use Rattle.mj_bot.specs.Inner.Measured.{IsMeasuredHand, IsLockedDiscard};
ghost use Rattle.mj_bot.specs.Inner.Turns.{is_own_turn, is_own_draw, is_free, is_among, IsNeverReady, IsIncomplete};

use mj_deeds::{Deed, is_face, ordered};
use mj_judge::{discard, is_measured, judge};
use mj_memory::{Memory, Ways};
use mj_table::Table;
use mj_tiles::{Counts, FACES, KINDS, Kind, Kinds, Meld, Tile};

// The best discard of a seat, whether it is known that a reach would leave the hand unready, and whether that the tiles aren't
// complete.
#[derive(Clone, Copy)]
pub(crate) struct Best {
    pub(crate) tile: Option<Tile>,
    pub(crate) unready: bool,
    pub(crate) incomplete: bool,
}

// Of the tiles whose discard breaks no rule the one that leaves the least shanten, and of several the last in tile order;
// none exactly where no discard is lawful. Unready is said only where no discard, lawful or not, leaves the hand ready, and
// incomplete only where no win would be with complete tiles.
pub(crate) fn best_discard(table: &Table, seat: u8, memory: &mut Memory) -> Best
    requires { seat ≤ 3 }
    ensures tile { let rules = table.now.rules in
        let view = view_of table.now.deeds seat in
        MatchOption result.tile (lawful_faces rules seat view ≡ []) (IsBest rules seat view) }
    ensures unready { IsTrue result.unready → IsNeverReady (view_of table.now.deeds seat) }
    ensures incomplete { IsTrue result.incomplete → IsIncomplete (view_of table.now.deeds seat) }
{
    if !has_turn(table, seat) {
        return Best {
            tile: None,
            unready: false,
            incomplete: false,
        };
    }
    let melds = table.melds(seat);
    let melds = melds.as_slice();
    if let Some(tile) = locked_discard(table, seat) {
        return Best {
            tile: Some(tile),
            unready: false,
            incomplete: false,
        };
    }
    let counts = table.holds(seat);
    let room = table.room(seat);
    if !is_measured(&counts, &room, melds) {
        let kinds = lawful_kinds(table, seat);
        return Best {
            tile: last_lawful(table, seat, kinds),
            unready: false,
            incomplete: false,
        };
    }
    measured_discard(table, seat, &counts, &room, melds, memory)
}

// The tile that a seat in riichi has drawn, where its discard breaks no rule: then no other may go.
#[tactic(auto, unfolding(mj_rules::specs::View::view_of))]
fn locked_discard(table: &Table, seat: u8) -> Option<Tile>
    requires { seat ≤ 3 }
    ensures { (tile : ℕ) → result ≡ Some tile
        → IsLockedDiscard table.now.rules seat (view_of table.now.deeds seat) tile }
{
    if !table.is_in_riichi(seat) {
        return None;
    }
    match table.drawn(seat) {
        Some(tile) => if_lawful(table, seat, tile),
        None => None,
    }
}

// The tile, where its discard breaks no rule.
fn if_lawful(table: &Table, seat: u8, tile: Tile) -> Option<Tile>
    requires { seat ≤ 3 }
    ensures { (lawful : ℕ) → result ≡ Some lawful → (lawful ≡ tile) × ((lawful < 37)
        × IsTrue (is_none (broken_by table.now.rules seat (view_of table.now.deeds seat)
        (discard_of seat (view_of table.now.deeds seat) tile)))) }
{
    if is_lawful(table, seat, false, tile) {
        Some(tile)
    } else {
        None
    }
}

// The best discard where shanten is said of the hand: unready where the nearest complete hand misses two tiles or more.
fn measured_discard(
    table: &Table,
    seat: u8,
    counts: &Counts,
    left: &Counts,
    melds: &[Meld],
    memory: &mut Memory,
) -> Best
    requires seat { seat ≤ 3 }
    requires turn { is_own_turn seat (view_of table.now.deeds seat).turn ≡ true }
    requires counts { counts.now ≡ kind_counts (concealed (view_of table.now.deeds seat)) }
    requires left { left.now ≡ room (view_of table.now.deeds seat) }
    requires melds { melds.now ≡ (view_of table.now.deeds seat).melds }
    requires few { length melds.now ≤ 4 }
    requires measured { IsTrue (is_measured counts.now left.now (map set_of_meld melds.now)) }
    ensures tile { let rules = table.now.rules in
        let view = view_of table.now.deeds seat in
        MatchOption result.tile (lawful_faces rules seat view ≡ []) (IsBest rules seat view) }
    ensures unready { IsTrue result.unready → IsNeverReady (view_of table.now.deeds seat) }
    ensures incomplete { IsTrue result.incomplete → IsIncomplete (view_of table.now.deeds seat) }
{
    let number = melds.len() as u8;
    let suits = Ways::new(counts, left, memory);
    let missing = suits.missing(number);
    if missing > 1 {
        memory.keep_far(seat, counts, left, number, missing);
    }
    Best {
        tile: nearest_discard(table, seat, &suits, number, missing, memory),
        unready: missing > 1,
        incomplete: missing > 0,
    }
}

// Of the tiles whose discard breaks no rule the one that leaves the least shanten, and of several the last in tile order;
// none exactly where no discard is lawful. Most often each held tile may go, so the best of all of them is asked first.
fn nearest_discard(
    table: &Table,
    seat: u8,
    suits: &Ways,
    number: u8,
    missing: u8,
    memory: &mut Memory,
) -> Option<Tile>
    requires seat { seat ≤ 3 }
    requires hand { IsMeasuredHand (view_of table.now.deeds seat) suits.now.counts suits.now.room
        number missing }
    ensures { let rules = table.now.rules in
        let view = view_of table.now.deeds seat in
        MatchOption result (lawful_faces rules seat view ≡ []) (IsBest rules seat view) }
{
    if let Some(tile) = best_held(table, seat, suits, number, missing, memory) {
        return Some(tile);
    }
    best_lawful(table, seat, suits, number, missing, memory)
}

// The best of all held tiles, where a discard of its kind breaks no rule.
fn best_held(
    table: &Table,
    seat: u8,
    suits: &Ways,
    number: u8,
    missing: u8,
    memory: &mut Memory,
) -> Option<Tile>
    requires seat { seat ≤ 3 }
    requires hand { IsMeasuredHand (view_of table.now.deeds seat) suits.now.counts suits.now.room
        number missing }
    ensures { (tile : ℕ) → result ≡ Some tile
        → IsBest table.now.rules seat (view_of table.now.deeds seat) tile }
{
    match suits.best_discard_of(every_kind(), number, missing, memory) {
        Some(kind) => last_of(table, seat, kind),
        None => None,
    }
}

// The best of the tiles whose discard breaks no rule.
fn best_lawful(
    table: &Table,
    seat: u8,
    suits: &Ways,
    number: u8,
    missing: u8,
    memory: &mut Memory,
) -> Option<Tile>
    requires seat { seat ≤ 3 }
    requires hand { IsMeasuredHand (view_of table.now.deeds seat) suits.now.counts suits.now.room
        number missing }
    ensures { let rules = table.now.rules in
        let view = view_of table.now.deeds seat in
        MatchOption result (lawful_faces rules seat view ≡ []) (IsBest rules seat view) }
{
    let kinds = lawful_kinds(table, seat);
    match suits.best_discard_of(kinds, number, missing, memory) {
        Some(kind) => last_of(table, seat, kind),
        None => None,
    }
}

// The set of all kinds.
fn every_kind() -> Kinds
    ensures { (kind : ℕ) → kind < 34 → IsTrue (has_kind result kind) }
{
    let mut kinds = Kinds::none();
    for number in 0..KINDS as u8 {
        kinds = kinds.with(Kind::at(number));
    }
    kinds
}

// The newest deed is the seat's own draw, or its reach, chi or pon.
#[tactic(auto, unfolding(mj_rules::specs::View::view_of))]
fn has_turn(table: &Table, seat: u8) -> bool
    ensures { result ≡ is_own_turn seat (view_of table.now.deeds seat).turn }
{
    match table.newest() {
        Some(Deed::Draw { seat: who, .. }) => *who == seat,
        Some(Deed::Reach { seat: who }) => *who == seat,
        Some(Deed::Chi { seat: who, .. }) => *who == seat,
        Some(Deed::Pon { seat: who, .. }) => *who == seat,
        _ => false,
    }
}

// The seat has drawn and isn't in riichi: each tile that it holds may go.
#[tactic(auto, unfolding(mj_rules::specs::View::view_of))]
fn is_free(table: &Table, seat: u8) -> bool
    requires { seat ≤ 3 }
    ensures { let view = view_of table.now.deeds seat in
        result ≡ is_free view.accepted seat view.turn }
{
    !table.is_in_riichi(seat) && has_drawn(table, seat)
}

// The newest deed is the seat's own draw.
#[tactic(auto, unfolding(mj_rules::specs::View::view_of))]
pub(crate) fn has_drawn(table: &Table, seat: u8) -> bool
    ensures { result ≡ is_own_draw seat (view_of table.now.deeds seat).turn }
{
    match table.newest() {
        Some(Deed::Draw { seat: who, .. }) => *who == seat,
        _ => false,
    }
}

// The kinds of the tiles whose discard breaks no rule.
#[tactic(auto, unfolding(mj_rules::specs::Default::lawful_faces))]
fn lawful_kinds(table: &Table, seat: u8) -> Kinds
    requires { seat ≤ 3 }
    ensures { result ≡ set_of (map kind_of (lawful_faces table.now.rules seat
        (view_of table.now.deeds seat))) }
{
    let free = is_free(table, seat);
    let mut kinds = Kinds::none();
    let mut place = 37;
    while place > 0 {
        place -= 1;
        let tile = ordered(place);
        if is_lawful(table, seat, free, tile) {
            kinds = kinds.with(tile.kind());
        }
    }
    kinds
}

// The last tile in tile order, of these kinds, whose discard breaks no rule.
#[tactic(auto, unfolding(mj_rules::specs::Default::lawful_faces))]
fn last_lawful(table: &Table, seat: u8, kinds: Kinds) -> Option<Tile>
    requires { seat ≤ 3 }
    ensures { result ≡ last_face (filter (is_among kinds) (lawful_faces table.now.rules seat
        (view_of table.now.deeds seat))) }
{
    let free = is_free(table, seat);
    let mut last = None;
    for place in 0..FACES {
        let tile = ordered(place);
        if is_wanted(table, seat, free, kinds, tile) {
            last = Some(tile);
        }
    }
    last
}

// The last tile in tile order of this kind whose discard breaks no rule. No tile of the kind stands more than three
// places past its number.
fn last_of(table: &Table, seat: u8, kind: Kind) -> Option<Tile>
    requires { seat ≤ 3 }
    ensures { result ≡ last_face (lawful_of table.now.rules seat (view_of table.now.deeds seat)
        kind) }
{
    let free = is_free(table, seat);
    let mut place = (kind.number() as usize + 4).min(FACES);
    while place > 0 {
        place -= 1;
        let tile = ordered(place);
        if is_lawful_of(table, seat, free, kind, tile) {
            return Some(tile);
        }
    }
    None
}

// The tile is of the kind, and its discard breaks no rule.
fn is_lawful_of(table: &Table, seat: u8, free: bool, kind: Kind, tile: Tile) -> bool
    requires seat { seat ≤ 3 }
    requires free { let view = view_of table.now.deeds seat in
        IsTrue free → IsTrue (is_free view.accepted seat view.turn) }
    ensures { let view = view_of table.now.deeds seat in
        result ≡ ((kind_of tile == kind) && is_none (broken_by table.now.rules seat view
        (discard_of seat view tile))) }
{
    tile.kind() == kind && is_lawful(table, seat, free, tile)
}

// The tile is of one of these kinds, and its discard breaks no rule.
fn is_wanted(table: &Table, seat: u8, free: bool, kinds: Kinds, tile: Tile) -> bool
    requires seat { seat ≤ 3 }
    requires free { let view = view_of table.now.deeds seat in
        IsTrue free → IsTrue (is_free view.accepted seat view.turn) }
    ensures { let view = view_of table.now.deeds seat in
        result ≡ (is_among kinds tile && is_none (broken_by table.now.rules seat view
        (discard_of seat view tile))) }
{
    kinds.has(tile.kind()) && is_lawful(table, seat, free, tile)
}

// The discard of the tile breaks no rule: it is held, and where not each tile may go it is judged.
fn is_lawful(table: &Table, seat: u8, free: bool, tile: Tile) -> bool
    requires seat { seat ≤ 3 }
    requires free { let view = view_of table.now.deeds seat in
        IsTrue free → IsTrue (is_free view.accepted seat view.turn) }
    ensures { let view = view_of table.now.deeds seat in
        result ≡ is_none (broken_by table.now.rules seat view (discard_of seat view tile)) }
{
    if table.held_count(seat, tile) == 0 {
        return false;
    }
    if free && is_face(table.rules().red, tile) {
        return true;
    }
    judge(table, seat, &discard(table, seat, tile)).is_ok()
}
