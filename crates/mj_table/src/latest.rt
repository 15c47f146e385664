ghost use Rattle.std.specs.Prelude.{◌≡◌, IfOk, OnErr, OnOk, None, Some, option_copied};
ghost use Rattle.mj_table.specs.Inner.Latest.{is_after_win, newest_of, previous_of, previous_with};

use mj_deeds::{Deed, is_hand_start};
use mj_facts::is_win;
use std::alloc::AllocError;

// The newest deed, and the one before it in its hand, before wins the newest that is none. They stand in two places, and the
// newest in the second one where these are turned, so that a further deed moves neither.
pub(crate) struct Latest {
    pub first: Option<Deed>,
    pub second: Option<Deed>,
    pub turned: bool,
}

// A call of its own, so that where a table is dropped a proof has one way, and not one for each two kinds of deeds.
impl Drop for Latest {
    fn drop(self) {
        let Latest {
            first,
            second,
            turned: _,
        } = self;
        drop(first);
        drop(second);
    }
}

impl Latest {
    // Of no deeds neither.
    pub(crate) fn none() -> Latest
        ensures newest { newest_of result ≡ None }
        ensures previous { previous_of result ≡ None }
    {
        Latest {
            first: None,
            second: None,
            turned: false,
        }
    }

    // The newest deed.
    pub(crate) fn newest(&self) -> Option<&Deed>
        ensures { option_copied result ≡ newest_of self.now }
    {
        if self.turned {
            return self.second.as_ref();
        }
        self.first.as_ref()
    }

    // The one that stands beside it.
    pub(crate) fn previous(&self) -> Option<&Deed>
        ensures { option_copied result ≡ previous_of self.now }
    {
        if self.turned {
            return self.first.as_ref();
        }
        self.second.as_ref()
    }

    // Adds a deed: it is the newest one, and the one before it in its hand stands beside it, before wins the newest one
    // that is none. Where memory is wanting nothing changes.
    pub(crate) fn add(&mut self, begun: bool, deed: &Deed) -> Result<(), AllocError>
        ensures last { OnOk result (newest_of self.new ≡ Some deed.now) }
        ensures beside { OnOk result (previous_of self.new
            ≡ previous_with begun (previous_of self.old) (newest_of self.old) deed.now) }
        ensures err { OnErr result (self.new ≡ self.old) }
    {
        let copy = once_more(deed)?;
        if !begun || is_hand_start(deed) {
            self.first = Some(copy);
            self.second = None;
            self.turned = false;
            return Ok(());
        }
        if !is_win(deed) || !is_after_win(self.newest()) {
            if self.turned {
                self.first = Some(copy);
                self.turned = false;
                return Ok(());
            }
            self.second = Some(copy);
            self.turned = true;
            return Ok(());
        }
        if self.turned {
            self.second = Some(copy);
            return Ok(());
        }
        self.first = Some(copy);
        Ok(())
    }
}

// Whether the newest deed is a win.
pub(crate) fn is_after_win(newest: Option<&Deed>) -> bool
    ensures { result ≡ is_after_win (option_copied newest.entry) }
{
    match newest {
        Some(deed) => is_win(deed),
        None => false,
    }
}

// A copy of a deed. Draws and discards, nine of ten deeds, are made here: the copy of any deed costs more.
fn once_more(deed: &Deed) -> Result<Deed, AllocError>
    ensures { IfOk result (λ copy. copy ≡ deed.now) }
{
    match deed {
        Deed::Draw {
            seat,
            tile,
            replacement,
        } => Ok(Deed::Draw {
            seat: *seat,
            tile: *tile,
            replacement: *replacement,
        }),
        Deed::Discard { seat, tile, drawn } => Ok(Deed::Discard {
            seat: *seat,
            tile: *tile,
            drawn: *drawn,
        }),
        _ => deed.copy(),
    }
}

// A copy of a deed, where there is one.
pub(crate) fn copy_of(deed: Option<&Deed>) -> Result<Option<Deed>, AllocError>
    ensures { IfOk result (λ copy. copy ≡ option_copied deed.entry) }
{
    match deed {
        Some(deed) => Ok(Some(once_more(deed)?)),
        None => Ok(None),
    }
}
