ghost use Rattle.std.specs.Prelude.{◌≡◌, ◌&&◌, ◌==◌, List};
ghost use Rattle.mj_deeds.specs.declared.deed.Deed.{Deed};
ghost use Rattle.mj_deeds.specs.Facts.{kans};
ghost use Rattle.mj_deeds.specs.Reasons.{reason, is_one_wind, is_turn, discarded_kind};
ghost use Rattle.mj_facts.specs.Courses.{Follows, reason_by};

use crate::course_facts::CourseFacts;
use mj_deeds::{Deed, Four, Reason, is_call};
use mj_tiles::Kind;

/// The first draw reason that holds in one hand of so many kans; none where the game has no such draws.
pub fn reason(draws: bool, made: u8, course: &CourseFacts) -> Option<Reason>
    ensures { (deeds : List Deed) → made ≡ kans deeds → Follows deeds course.now → result
        ≡ reason draws deeds }
{
    first_reason(
        draws,
        are_one_wind(&course.kinds),
        course.riichis == 4,
        are_both(made == 4, course.several),
    )
}

// The first reason that holds, where the game has such draws.
fn first_reason(draws: bool, winds: bool, riichis: bool, kans: bool) -> Option<Reason>
    ensures { result ≡ reason_by draws winds riichis kans }
{
    if !draws {
        return None;
    }
    if winds {
        return Some(Reason::Suufonrenta);
    }
    if riichis {
        return Some(Reason::Suuchareach);
    }
    if kans {
        return Some(Reason::Suukaikan);
    }
    None
}

// Four discards of one wind.
fn are_one_wind(kinds: &Four<Option<Kind>>) -> bool
    ensures { result ≡ is_one_wind kinds.now.first kinds.now.second kinds.now.third
        kinds.now.fourth }
{
    let Some(a) = kinds.first else {
        return false;
    };
    let Some(b) = kinds.second else {
        return false;
    };
    let Some(c) = kinds.third else {
        return false;
    };
    let Some(d) = kinds.fourth else {
        return false;
    };
    (27..=30).contains(&a.number()) && b == a && c == a && d == a
}

// The first is so, and the second.
fn are_both(first: bool, second: bool) -> bool
    ensures { result ≡ (first && second) }
{
    first && second
}

// Whether a deed is a discard or a call.
pub(crate) fn is_turn(deed: &Deed) -> bool
    ensures { result ≡ is_turn deed.now }
{
    matches!(deed, Deed::Discard { .. }) || is_call(deed)
}

// The kind that a deed discards.
pub(crate) fn discarded_kind(deed: &Deed) -> Option<Kind>
    ensures { result ≡ discarded_kind deed.now }
{
    match deed {
        Deed::Discard { tile, .. } => Some(tile.kind()),
        _ => None,
    }
}
