// Lines of deeds, rendered with a counter of their own.

ghost use Rattle.std.specs.Prelude.{◌≡◌, ◌<◌, OnOk};
ghost use Rattle.mj_forms.specs.Lines.{line as line_for};

use mj_deeds::{Deed, Viewer};
use mjai_lines::{Steps, write};
use std::alloc::{AllocError, Global};
use std::marker::Brand;
use std::sync::ledger::{Blank, Ledger};

// Writes the line of a deed in place of a text, with a counter that is made for this call. The only error is running out of
// memory, and then there is no text.
pub(crate) fn write_over(
    alloc: Global,
    line: &mut Vec<u8>,
    viewer: Viewer,
    deed: &Deed,
) -> Result<(), AllocError>
    ensures { OnOk result (line.new.items ≡ line_for viewer deed.now) }
{
    write_on::<Brand>(alloc, line, viewer, deed, Blank::new(1))
}

// Writes the line of a deed in place of a text, counted on a new ledger.
fn write_on<L: Ledger>(
    alloc: Global,
    line: &mut Vec<u8>,
    viewer: Viewer,
    deed: &Deed,
    blank: Blank,
) -> Result<(), AllocError>
    requires name { blank.name ≡ L.name }
    requires parts { blank.parts ≡ L.parts }
    requires some { 0 < blank.parts }
    ensures { OnOk result (line.new.items ≡ line_for viewer deed.now) }
{
    let mut steps = Steps::<L>::new(blank);
    line.clear();
    write(alloc, viewer, deed, None, line, &mut steps)
}
