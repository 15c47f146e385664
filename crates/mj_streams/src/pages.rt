ghost use Rattle.mj_streams.specs.Inner.Pages.{IsKept};

use std::marker::Model;

// A page that takes no more lines.
#[derive(Drop)]
pub(crate) struct Page {
    pub(crate) text: Vec<u8>,
}

impl Model for Page {
    ghost use Rattle.std.specs.Prelude.{ℕ, List};

    ghost Value = { List ℕ };

    ghost view = { λ p. p.text.items };
}

// Where a line stands: the number of its page, and where in it the line begins and ends.
#[derive(Clone, Copy)]
pub(crate) struct Place {
    pub(crate) page: usize,
    pub(crate) start: usize,
    pub(crate) end: usize,
}

// The lines of one seat, on pages. The newest page is open: the next line is written after its text where both fit a
// page, and else on a new page. A line longer than a page has a page of its own.
#[derive(Drop)]
pub(crate) struct Stream {
    pub(crate) full: Vec<Page>,
    pub(crate) page: Vec<u8>,
    pub(crate) places: Vec<Place>,
    pub(crate) text: Vec<u8>,
    ghost kept: { IsKept full.items page.items places.items },
}
