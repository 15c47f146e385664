ghost use Rattle.std.specs.Prelude.{◌≡◌, ◌≤◌, ◌&&◌, nat_lt, slice_index};
ghost use Rattle.mj_tiles.specs.Terminals.{is_terminal_or_honour};
ghost use Rattle.mj_rules.specs.Broken.{is_nine, outer_kinds, is_not_nine};
ghost use Rattle.mj_rules.specs.View.{view_of};

use mj_deeds::Answer;
use mj_table::Table;
use mj_tiles::{Counts, KINDS, Kind};

// Nine kinds are shown otherwise than in one's first turn while no chi, pon or kan stands, or they are fewer.
#[tactic(auto, unfolding(mj_rules::specs::View::view_of, mj_rules::specs::Wins::case_of))]
pub(crate) fn is_not_nine(table: &Table, seat: u8, answer: &Answer) -> bool
    requires { seat ≤ 3 }
    ensures { result ≡ is_not_nine (view_of table.now.deeds seat) answer.now }
{
    is_nine(answer) && !(table.is_first(seat) && outer_kinds(table, seat) >= 9)
}

fn is_nine(answer: &Answer) -> bool
    ensures { result ≡ is_nine answer.now }
{
    matches!(answer, Answer::NineKinds { .. })
}

// How many kinds of terminals and honours a seat holds.
fn outer_kinds(table: &Table, seat: u8) -> u8
    requires { seat ≤ 3 }
    ensures value { result ≡ outer_kinds (view_of table.now.deeds seat) }
    ensures within { result ≤ 34 }
{
    let counts = table.holds(seat);
    let mut held = 0;
    for number in 0..KINDS as u8 {
        if holds_outer(&counts, Kind::at(number)) {
            held += 1;
        }
    }
    held
}

// A tile of the kind, a terminal or an honour, is held.
fn holds_outer(counts: &Counts, kind: Kind) -> bool
    ensures { result ≡ (is_terminal_or_honour kind && nat_lt 0 (slice_index counts.now kind)) }
{
    kind.is_terminal_or_honour() && counts.get(kind) > 0
}
