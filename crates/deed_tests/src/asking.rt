//! What a test asserts of a table of cases.

use mj_deeds::Deed;
use std::alloc::Global;
use std::process::Abort;
use test_words::{Of, Question, wrong_deed, wrong_row};

/// Asserts that each line of a table is as it says.
pub(crate) fn ask<R: Abort, Q: Question>(rt: &R, alloc: Global, lines: &str) {
    none_is_wrong(rt, wrong_row::<Q>(alloc, lines));
}

/// Asserts that the deed of each line of a table is as the line says.
pub(crate) fn ask_deeds<R: Abort, Q: Of<Deed>>(rt: &R, alloc: Global, lines: &str) {
    none_is_wrong(rt, wrong_deed::<Q>(alloc, lines));
}

/// Asserts that no line is wrong.
pub(crate) fn none_is_wrong(rt: &impl Abort, wrong: &str) {
    assert!(rt; wrong.is_empty(), "{wrong}");
}
