ghost use Rattle.std.specs.Prelude.{◌≡◌, ◌≤◌, ◌||◌, true, not, option_map, option_copied};
ghost use Rattle.std.specs.Option.{option_map_or};
ghost use Rattle.mj_deeds.specs.Facts.{newest, drawn_tile};
ghost use Rattle.mj_deeds.specs.Hand.{hand};
ghost use Rattle.mj_deeds.specs.Riichi.{is_in_riichi};
ghost use Rattle.mj_rules.specs.Broken.{is_unreadable, actor_of, is_another, is_not_yours, is_own_act, is_discard, is_pass, is_win, is_pass_or_call};
ghost use Rattle.mj_rules.specs.Broken.{is_open, is_not_now, is_call_answer, is_kan_answer, is_own_kan, misses_discard, misses_winning, is_other_tile};
ghost use Rattle.mj_rules.specs.Broken.{is_wrong_target, is_tile, is_last_tile, is_before, is_not_left, is_kan_full, is_kan_dry};
ghost use Rattle.mj_rules.specs.View.{view_of, turn_by, turn_in};

use mj_deeds::{Answer, Deed, Pai, next_seat};
use mj_table::Table;
use mj_tiles::Tile;

// The line is no answer.
pub(crate) fn is_unreadable(answer: &Answer) -> bool
    ensures { result ≡ is_unreadable answer.now }
{
    matches!(answer, Answer::Unread)
}

// The answer names an actor, and another than the seat.
pub(crate) fn is_not_yours(seat: u8, answer: &Answer) -> bool
    ensures { result ≡ is_not_yours seat answer.now }
{
    match actor_of(answer) {
        Some(actor) => actor != seat,
        None => false,
    }
}

// Such an answer is not open to the seat in this window.
#[tactic(auto, unfolding(mj_rules::specs::View::view_of))]
pub(crate) fn is_not_now(table: &Table, seat: u8, answer: &Answer) -> bool
    requires { seat ≤ 3 }
    ensures { result ≡ is_not_now table.now.rules seat (view_of table.now.deeds seat) answer.now }
{
    match table.newest() {
        Some(Deed::Draw { seat: who, .. }) if *who == seat => !is_own_act(table, seat, answer),
        Some(Deed::Discard { seat: who, .. }) if *who != seat => !is_pass_or_call(answer),
        Some(Deed::AddedKan { seat: who, .. }) if *who != seat => !is_pass_or_win(answer),
        Some(Deed::Reach { seat: who }) if *who == seat => !is_discard(answer),
        Some(Deed::Chi { seat: who, .. }) if *who == seat => !is_discard(answer),
        Some(Deed::Pon { seat: who, .. }) if *who == seat => !is_discard(answer),
        _ => !is_pass(answer),
    }
}

// A call names another than the discarder, or another tile than the one that was discarded; a win another than the
// seat that gave the tile, or another tile.
#[tactic(auto, unfolding(mj_rules::specs::View::view_of))]
pub(crate) fn is_wrong_target(table: &Table, seat: u8, answer: &Answer) -> bool
    ensures { result ≡ is_wrong_target seat (view_of table.now.deeds seat) answer.now }
{
    match answer {
        Answer::Chi { target, tile, .. } => misses_discard(table, *target, tile),
        Answer::Pon { target, tile, .. } => misses_discard(table, *target, tile),
        Answer::OpenKan { target, tile, .. } => misses_discard(table, *target, tile),
        Answer::Win { target, tile, .. } => misses_winning(table, seat, *target, tile.as_ref()),
        _ => false,
    }
}

// A discard is called with no live tile left.
#[tactic(auto, unfolding(mj_rules::specs::View::view_of))]
pub(crate) fn is_last_tile(table: &Table, seat: u8, answer: &Answer) -> bool
    ensures { result ≡ is_last_tile (view_of table.now.deeds seat) answer.now }
{
    is_call_answer(answer) && table.live() == 0
}

// A run is called from another seat than the one before.
#[tactic(auto, unfolding(mj_rules::specs::View::view_of))]
pub(crate) fn is_not_left(table: &Table, seat: u8, answer: &Answer) -> bool
    ensures { result ≡ is_not_left seat (view_of table.now.deeds seat).turn answer.now }
{
    match answer {
        Answer::Chi { .. } => !is_before(table, seat),
        _ => false,
    }
}

// A kan where four stand already.
#[tactic(auto, unfolding(mj_rules::specs::View::view_of))]
pub(crate) fn is_kan_full(table: &Table, seat: u8, answer: &Answer) -> bool
    ensures { result ≡ is_kan_full (view_of table.now.deeds seat) answer.now }
{
    is_kan_answer(answer) && table.kans() >= 4
}

// A kan at one's own draw with no live tile left.
#[tactic(auto, unfolding(mj_rules::specs::View::view_of))]
pub(crate) fn is_kan_dry(table: &Table, seat: u8, answer: &Answer) -> bool
    ensures { result ≡ is_kan_dry (view_of table.now.deeds seat) answer.now }
{
    is_own_kan(answer) && table.live() == 0
}

// The tile is known and has that face.
pub(crate) fn is_tile(tile: Tile, pai: &Pai) -> bool
    ensures { result ≡ is_tile tile pai.now }
{
    match pai {
        Pai::Known(other) => other.face() == tile.face(),
        Pai::Hidden => false,
    }
}

// The seat that an answer names as its actor.
fn actor_of(answer: &Answer) -> Option<u8>
    ensures { result ≡ actor_of answer.now }
{
    match answer {
        Answer::Unread => None,
        Answer::Pass { actor } => *actor,
        Answer::Discard { actor, .. } => Some(*actor),
        Answer::Chi { actor, .. } => Some(*actor),
        Answer::Pon { actor, .. } => Some(*actor),
        Answer::OpenKan { actor, .. } => Some(*actor),
        Answer::ClosedKan { actor, .. } => Some(*actor),
        Answer::AddedKan { actor, .. } => Some(*actor),
        Answer::Reach { actor } => Some(*actor),
        Answer::Win { actor, .. } => Some(*actor),
        Answer::NineKinds { actor } => Some(*actor),
    }
}

// Who drew may discard, reach unless it is in riichi already, make a kan, win, and where the rules have draw reasons
// show nine kinds.
fn is_own_act(table: &Table, seat: u8, answer: &Answer) -> bool
    requires { seat ≤ 3 }
    ensures { result ≡ is_own_act table.now.rules (is_in_riichi (hand table.now.deeds) seat)
        answer.now }
{
    match answer {
        Answer::Discard { .. } => true,
        Answer::Reach { .. } => !table.is_in_riichi(seat),
        Answer::ClosedKan { .. } => true,
        Answer::AddedKan { .. } => true,
        Answer::Win { .. } => true,
        Answer::NineKinds { .. } => table.rules().draws,
        _ => false,
    }
}

fn is_discard(answer: &Answer) -> bool
    ensures { result ≡ is_discard answer.now }
{
    matches!(answer, Answer::Discard { .. })
}

fn is_pass(answer: &Answer) -> bool
    ensures { result ≡ is_pass answer.now }
{
    matches!(answer, Answer::Pass { .. })
}

pub(crate) fn is_call_answer(answer: &Answer) -> bool
    ensures { result ≡ is_call_answer answer.now }
{
    matches!(
        answer,
        Answer::Chi { .. } | Answer::Pon { .. } | Answer::OpenKan { .. }
    )
}

pub(crate) fn is_win(answer: &Answer) -> bool
    ensures { result ≡ is_win answer.now }
{
    matches!(answer, Answer::Win { .. })
}

fn is_pass_or_win(answer: &Answer) -> bool
    ensures { result ≡ (is_pass answer.now || is_win answer.now) }
{
    is_pass(answer) || is_win(answer)
}

fn is_pass_or_call(answer: &Answer) -> bool
    ensures { result ≡ is_pass_or_call answer.now }
{
    is_pass_or_win(answer) || is_call_answer(answer)
}

// A kan of concealed tiles, or by a tile added to a pon.
fn is_own_kan(answer: &Answer) -> bool
    ensures { result ≡ is_own_kan answer.now }
{
    matches!(answer, Answer::ClosedKan { .. } | Answer::AddedKan { .. })
}

fn is_kan_answer(answer: &Answer) -> bool
    ensures { result ≡ is_kan_answer answer.now }
{
    is_own_kan(answer) || matches!(answer, Answer::OpenKan { .. })
}

// The newest deed is no discard of that tile by the target.
fn misses_discard(table: &Table, target: u8, tile: &Pai) -> bool
    ensures { result ≡ misses_discard (turn_in (option_map turn_by (newest table.now.deeds))) target
        tile.now }
{
    match table.newest() {
        Some(
            Deed::Discard {
                seat: who,
                tile: discarded,
                ..
            },
        ) => !(target == *who && is_tile(*discarded, tile)),
        _ => true,
    }
}

// A win in the window on the newest deed names another than the seat that gave the tile, at its own draw another than
// itself, or another tile.
pub(crate) fn misses_winning(table: &Table, seat: u8, target: u8, tile: Option<&Pai>) -> bool
    ensures { result ≡ misses_winning seat (view_of table.now.deeds seat) target
        (option_copied tile.entry) (turn_in (option_map turn_by (newest table.now.deeds))) }
{
    match table.newest() {
        Some(Deed::Draw { .. }) => target != seat || misses_drawn(table, seat, tile),
        Some(
            Deed::Discard {
                seat: who,
                tile: given,
                ..
            },
        ) => target != *who || is_other_tile(*given, tile),
        Some(
            Deed::AddedKan {
                seat: who,
                tile: given,
                ..
            },
        ) => target != *who || is_other_tile(*given, tile),
        _ => true,
    }
}

// The tile is another than the one that the seat has drawn, or it has drawn none.
fn misses_drawn(table: &Table, seat: u8, tile: Option<&Pai>) -> bool
    ensures { result ≡ option_map_or
        (λ drawn. is_other_tile drawn (option_copied tile.entry)) (drawn_tile table.now.deeds seat)
        true }
{
    match table.drawn(seat) {
        Some(drawn) => is_other_tile(drawn, tile),
        None => true,
    }
}

// A tile is named, and it is another than this one.
fn is_other_tile(tile: Tile, named: Option<&Pai>) -> bool
    ensures { result ≡ is_other_tile tile (option_copied named.entry) }
{
    match named {
        Some(pai) => !is_tile(tile, pai),
        None => false,
    }
}

// The newest deed is a discard of the seat before this one.
pub(crate) fn is_before(table: &Table, seat: u8) -> bool
    ensures { result ≡ is_before (turn_in (option_map turn_by (newest table.now.deeds))) seat }
{
    match table.newest() {
        Some(Deed::Discard { seat: who, .. }) => next_seat(*who) == seat,
        _ => false,
    }
}
