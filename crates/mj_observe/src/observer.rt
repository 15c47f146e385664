ghost use Rattle.std.specs.Prelude.{◌≡◌, ◌<◌, ◌++◌, ◌∷◌, [], List, OnOk, OnErr, IfOk};
ghost use Rattle.mj_bytes.specs.Adds.{Adds};
ghost use Rattle.mj_deeds.specs.declared.deed.Deed.{Deed};
ghost use Rattle.mj_deeds.specs.declared.deed.Viewer.TheVariants.{Record};
ghost use Rattle.mj_forms.specs.Lines.{line as line_for};
ghost use Rattle.mj_observe.specs.Views.{public_line, public_part, is_hand_end};
ghost use Rattle.mj_observe.specs.Inner.Kept.{KeepsHand, one_more, of_hand, shown_at};

use crate::public::{push_in_full, write_public};
use crate::rendering::write_over;
use mj_bytes::push_all;
use mj_deeds::{Deed, Viewer, is_hand_start};
use mj_past::Past;
use std::alloc::{AllocError, Global};
use std::marker::Model;
use std::mem;

/// A watcher without tiles: it is given the deeds of a game in order, and writes what may be told of them. Of the deeds it keeps the
/// record's lines of the newest hand alone.
#[derive(Drop)]
pub struct Observer {
    alloc: Global,
    // the record's lines of the newest hand, and their number
    kept: Vec<u8>,
    count: usize,
    // room for the lines of one deed
    line: Vec<u8>,
    text: Vec<u8>,
    // all deeds, which are not kept
    past: Past<Deed>,
}

impl Model for Observer {
    ghost use Rattle.std.specs.Prelude.{List};
    ghost use Rattle.mj_deeds.specs.declared.deed.Deed.{Deed};
    ghost use Rattle.mj_observe.specs.Inner.Kept.{KeepsHand};

    ghost Value = { List Deed };

    ghost view = { λ o. o.past.items };

    ghost invariant = { λ o. KeepsHand o.kept.items o.count o.past.items };
}

impl Observer {
    /// It was given no deed.
    pub fn new(alloc: Global) -> Result<Observer, AllocError>
        ensures { IfOk result (λ observer. observer ≡ []) }
    {
        Ok(Observer {
            alloc,
            kept: Vec::new(alloc),
            count: 0,
            line: Vec::new(alloc),
            text: Vec::new(alloc),
            past: Past::new(),
        })
    }

    /// Takes the next deed, and writes after a text what it adds to the public view: its public line, and where it ends a hand, that
    /// hand in full after a line with the number of its deeds. A hand is the deeds since its start; before the first start there is
    /// none to be shown. The only error is running out of memory, and then the observer and the text stay as they were.
    pub fn push(&mut self, deed: &Deed, into: &mut Vec<u8>) -> Result<(), AllocError>
        ensures given { OnOk result (self.new ≡ self.old ++ deed.now ∷ []) }
        ensures told { OnOk result (Adds into.old.items into.new.items
            (public_part self.old deed.now)) }
        ensures same { OnErr result (self.new ≡ self.old) }
        ensures untold { OnErr result (into.new.items ≡ into.old.items) }
    {
        let Observer {
            alloc,
            kept,
            count,
            line,
            text,
            past,
        } = self;
        write_over(*alloc, line, Viewer::Record, deed)?;
        write_public(*alloc, text, deed)?;
        *count = keep(deed, *count, kept, line, text, into)?;
        *past = past.and(deed);
        Ok(())
    }
}

// Tells what a deed adds to the public view, whose public line stands in the text, and keeps its line of the record: a
// start of a hand alone, and another deed after those kept before, of which there are so many. Gives the number of the
// lines then kept.
#[inline(always)]
fn keep(
    deed: &Deed,
    count: usize,
    kept: &mut Vec<u8>,
    line: &mut Vec<u8>,
    text: &mut Vec<u8>,
    into: &mut Vec<u8>,
) -> Result<usize, AllocError>
    requires count { count < 18446744073709551615 }
    requires line { line.old.items ≡ line_for Record deed.now }
    requires text { text.old.items ≡ public_line deed.now }
    ensures kept { IfOk result (λ number. (before : List Deed) → KeepsHand kept.old.items count before
        → KeepsHand kept.new.items number (before ++ deed.now ∷ [])) }
    ensures told { OnOk result ((before : List Deed) → KeepsHand kept.old.items count before
        → Adds into.old.items into.new.items (public_part before deed.now)) }
    ensures same { OnErr result (kept.new.items ≡ kept.old.items) }
    ensures untold { OnErr result (into.new.items ≡ into.old.items) }
{
    if is_hand_start(deed) {
        push_all(into, text.as_slice())?;
        mem::swap(kept, line);
        return Ok(1);
    }
    let number = one_more(count);
    let last = of_hand(count, line.as_slice());
    push_shown(text, deed, number, kept.as_slice(), last)?;
    push_both(kept, last, into, text.as_slice())?;
    Ok(number)
}

// The number of lines of a hand with one line more; none where no hand has started.
fn one_more(count: usize) -> usize
    requires { count < 18446744073709551615 }
    ensures { result ≡ one_more count }
{
    if count == 0 {
        return 0;
    }
    count + 1
}

// A line, and nothing where no hand has started.
fn of_hand(count: usize, line: &[u8]) -> &[u8]
    ensures { result.now ≡ of_hand count line.now }
{
    if count == 0 {
        return b"";
    }
    line
}

// Writes the hand that a deed ends in full: the lines kept before, and its own; nothing where it ends none.
fn push_shown(
    text: &mut Vec<u8>,
    deed: &Deed,
    number: usize,
    kept: &[u8],
    last: &[u8],
) -> Result<(), AllocError>
    ensures { OnOk result (Adds text.old.items text.new.items
        (shown_at deed.now number (kept.now ++ last.now))) }
{
    if is_hand_end(deed) {
        return push_in_full(text, number, kept, last);
    }
    Ok(())
}

// Writes a line after the kept ones and a text after what is told, or neither.
#[tactic(auto, using(crate::proofs::Keeping::back))]
fn push_both(
    kept: &mut Vec<u8>,
    line: &[u8],
    into: &mut Vec<u8>,
    text: &[u8],
) -> Result<(), AllocError>
    ensures kept { OnOk result (kept.new.items ≡ kept.old.items ++ line.now) }
    ensures told { OnOk result (Adds into.old.items into.new.items text.now) }
    ensures same { OnErr result (kept.new.items ≡ kept.old.items) }
    ensures untold { OnErr result (into.new.items ≡ into.old.items) }
{
    let before = kept.len();
    push_all(kept, line)?;
    let told = push_all(into, text);
    if told.is_err() {
        kept.truncate(before);
    }
    told
}

// Whether a deed ends a hand.
fn is_hand_end(deed: &Deed) -> bool
    ensures { result ≡ is_hand_end deed.now }
{
    match deed {
        Deed::EndHand => true,
        _ => false,
    }
}
