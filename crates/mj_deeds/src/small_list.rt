ghost use Rattle.std.specs.Prelude.{◌≡◌, ◌++◌, ◌∷◌, [], false, IfOk, OnErr, OnOk};
ghost use Rattle.mj_deeds.specs.Inner.Kept.{items_of, HasRoom};

use crate::short_list::ShortList;
use std::alloc::{AllocError, Global};
use std::marker::Model;

// A list of which few items, at most `N` and 255, take no memory.
#[derive(Drop)]
pub(crate) struct SmallList<T, const N: usize> {
    kept: Kept<T, N>,
    alloc: Global,
}

// Where a list keeps its items.
#[derive(Drop)]
pub(crate) enum Kept<T, const N: usize> {
    Few(ShortList<T, N>),
    Many(Box<Vec<T>>),
}

impl<T, const N: usize> Model for SmallList<T, N> {
    ghost use Rattle.std.specs.Prelude.{List};
    ghost use Rattle.mj_deeds.specs.Inner.Kept.{items_of};

    ghost Value = { List T };

    ghost view = { λ l. items_of l.kept };
}

impl<T: Copy + Drop, const N: usize> SmallList<T, N> {
    // The list without an item. The blank stands in its places.
    pub(crate) fn new(alloc: Global, blank: T) -> SmallList<T, N>
        ensures { result ≡ [] }
    {
        SmallList {
            kept: Kept::Few(ShortList::new(blank)),
            alloc,
        }
    }

    // Adds an item. `Err` is running out of memory, and then nothing has changed.
    pub(crate) fn push(&mut self, item: T) -> Result<(), AllocError>
        ensures ok { OnOk result (self.new ≡ self.old ++ item ∷ []) }
        ensures err { OnErr result (self.new ≡ self.old) }
    {
        if self.kept.is_full() {
            let many = with_one_more(self.alloc, self.as_slice(), item)?;
            self.kept = Kept::Many(many);
            return Ok(());
        }
        self.kept.push(item)
    }

    // Its items, in order.
    pub(crate) fn as_slice(&self) -> &[T]
        ensures { result.now ≡ self.now }
    {
        match &self.kept {
            Kept::Few(few) => few.as_slice(),
            Kept::Many(many) => many.as_slice(),
        }
    }

    // A copy of the list.
    pub(crate) fn copy(&self) -> Result<SmallList<T, N>, AllocError>
        ensures { IfOk result (λ l. l ≡ self.now) }
    {
        let kept = match &self.kept {
            Kept::Few(few) => Kept::Few(few.again()),
            Kept::Many(many) => Kept::Many(all_of(self.alloc, many.as_slice())?),
        };
        Ok(SmallList {
            kept,
            alloc: self.alloc,
        })
    }
}

impl<T: Copy + Drop, const N: usize> Kept<T, N> {
    // Whether the items stand where no memory is taken and there is room for no more.
    fn is_full(&self) -> bool
        ensures { result ≡ false → HasRoom self.now }
    {
        match self {
            Kept::Few(few) => few.is_full(),
            Kept::Many(_) => false,
        }
    }

    // Adds an item where there is room. `Err` is running out of memory, and then nothing has changed.
    fn push(&mut self, item: T) -> Result<(), AllocError>
        requires { HasRoom self.old }
        ensures ok { OnOk result (items_of self.new ≡ items_of self.old ++ item ∷ []) }
        ensures err { OnErr result (items_of self.new ≡ items_of self.old) }
    {
        match self {
            Kept::Few(few) => few.push(item),
            Kept::Many(many) => many.push(item)?,
        }
        Ok(())
    }
}

// A copy of the items in memory of its own.
fn all_of<T: Copy + Drop>(alloc: Global, items: &[T]) -> Result<Box<Vec<T>>, AllocError>
    ensures { IfOk result (λ many. many.value.items ≡ items.now) }
{
    let mut many = Vec::new(alloc);
    many.extend_from_slice(items)?;
    Ok(Box::new(alloc, many)?)
}

// The items and one more, in memory of their own.
fn with_one_more<T: Copy + Drop>(
    alloc: Global,
    items: &[T],
    item: T,
) -> Result<Box<Vec<T>>, AllocError>
    ensures { IfOk result (λ many. many.value.items ≡ items.now ++ item ∷ []) }
{
    let mut many = Vec::new(alloc);
    many.extend_from_slice(items)?;
    many.push(item)?;
    Ok(Box::new(alloc, many)?)
}
