ghost use Rattle.std.specs.Prelude.{◌≡◌, ◌+◌, ◌≤◌, Decides, [], ◌∷◌, ◌++◌, length, vec_len, vec_capacity, unwrap_or, slice_get, IfOk, OnOk, option_copied};
ghost use Rattle.mj_forms.specs.Choices.{line_with};
ghost use Rattle.mj_streams.specs.Inner.Pages.{Fits};
ghost use Rattle.mj_streams.specs.Inner.Told.{told, HasRoom};

use crate::pages::{Page, Place, Stream};
use mj_deeds::Answers;
use mjai_lines::write_listed;
use std::alloc::{AllocError, Global};
use std::mem;

// The bytes of a page.
const PAGE: usize = 65_536;

// The lines of most games, and the bytes of most lines, for which there is room from the start.
const LINES: usize = 2_048;

const LINE: usize = 1_024;

impl Stream {
    // No line.
    pub(crate) fn new(alloc: Global) -> Result<Stream, AllocError>
        ensures { IfOk result (λ stream. told stream ≡ []) }
    {
        let page = Vec::with_capacity(alloc, PAGE)?;
        let places = Vec::with_capacity(alloc, LINES)?;
        let text = Vec::with_capacity(alloc, LINE)?;
        Ok(Stream {
            full: Vec::new(alloc),
            page,
            places,
            text,
        })
    }

    // Writes a line into the text, with the answers that it lists, and takes the memory that it wants on the page.
    pub(crate) fn prepare(
        &mut self,
        alloc: Global,
        line: &[u8],
        answers: &Answers,
    ) -> Result<(), AllocError>
        ensures lines { told self.new ≡ told self.old }
        ensures text { OnOk result (self.new.text.items ≡ line_with answers.now line.now) }
        ensures room { OnOk result (HasRoom self.new (vec_len self.new.text)) }
    {
        self.text.clear();
        write_listed(alloc, line, answers, &mut self.text)?;
        let len = self.text.len();
        self.make_room(alloc, len)
    }

    // Takes the memory that a line of so many bytes wants. A page is turned only where the line does not fit it.
    fn make_room(&mut self, alloc: Global, len: usize) -> Result<(), AllocError>
        ensures lines { told self.new ≡ told self.old }
        ensures text { self.new.text ≡ self.old.text }
        ensures room { OnOk result (HasRoom self.new len) }
        ensures pages { Fits self.old.page.items len → self.new.full.items ≡ self.old.full.items }
    {
        self.places.reserve(1)?;
        if fits(self.page.as_slice(), len) {
            return self.page.reserve(len);
        }
        self.turn_page(alloc)?;
        self.page.reserve(len)
    }

    // Begins a new page.
    fn turn_page(&mut self, alloc: Global) -> Result<(), AllocError>
        ensures lines { told self.new ≡ told self.old }
        ensures places { self.new.places ≡ self.old.places }
        ensures text { self.new.text ≡ self.old.text }
        ensures empty { OnOk result (self.new.page.items ≡ []) }
    {
        let Stream {
            full,
            page,
            places: _,
            text: _,
        } = self;
        full.reserve(1)?;
        let empty = Vec::with_capacity(alloc, PAGE)?;
        full.push_reserved(close(page, empty));
        Ok(())
    }

    // Adds the line that stands in the text, for which there is room.
    pub(crate) fn add(&mut self)
        requires { HasRoom self.old (vec_len self.old.text) }
        ensures { told self.new ≡ told self.old ++ self.old.text.items ∷ [] }
    {
        let Stream {
            full,
            page,
            places,
            text,
        } = self;
        let start = page.len();
        write_behind(page, text.as_slice());
        places.push_reserved(Place {
            page: full.len(),
            start,
            end: page.len(),
        });
    }

    // The number of lines.
    pub(crate) fn count(&self) -> usize
        ensures { result ≡ length (told self.now) }
    {
        self.places.len()
    }

    // Line k.
    pub(crate) fn line(&self, k: u32) -> Option<&[u8]>
        ensures { option_copied result ≡ slice_get (told self.now) k }
    {
        let place = self.places.get(k as usize)?;
        let page = self.page(place.page);
        Some(page.split_at(place.end).0.split_at(place.start).1)
    }

    // The text of a page.
    fn page(&self, number: usize) -> &[u8]
        ensures { result.now ≡ unwrap_or (slice_get self.now.full.items number)
            self.now.page.items }
    {
        match self.full.get(number) {
            Some(page) => page.text.as_slice(),
            None => self.page.as_slice(),
        }
    }
}

// Whether a line of so many bytes goes after the text of a page.
fn fits(page: &[u8], len: usize) -> bool
    ensures { Decides result (Fits page.now len) }
{
    page.is_empty() || (len <= PAGE && page.len() <= PAGE - len)
}

// Closes a page, and opens an empty one in its place.
fn close(page: &mut Vec<u8>, empty: Vec<u8>) -> Page
    requires { empty.items ≡ [] }
    ensures text { result ≡ page.old.items }
    ensures empty { page.new.items ≡ [] }
{
    let text = mem::replace(page, empty);
    Page { text }
}

// Writes a line after the text of a page, which has the memory for it, so that nothing fails.
fn write_behind(page: &mut Vec<u8>, line: &[u8])
    requires { vec_len page.old + length line.now ≤ vec_capacity page.old }
    ensures { page.new.items ≡ page.old.items ++ line.now }
{
    let _ = page.extend_from_slice(line);
}
