ghost use Rattle.std.specs.Prelude.{◌≡◌, ◌≤◌, ◌++◌, ◌∷◌, [], All, IfOk, OnOk};

use crate::small_list::SmallList;
use std::alloc::{AllocError, Global};
use std::marker::Model;

/// A list of rows of the table of yaku, 0 to 44, each with its number: the han of a yaku, or the number of dora. Up to
/// seven take no memory.
#[derive(Drop)]
pub struct YakuList {
    list: SmallList<(u8, u8), 7>,
}

impl Model for YakuList {
    ghost use Rattle.std.specs.Prelude.{ℕ, List, ◌≤◌, All};

    ghost Value = { List (ℕ × ℕ) };

    ghost view = { λ l. l.list };

    ghost invariant = { λ l. All (λ item. item.0 ≤ 44) l.list };
}

impl YakuList {
    /// The list without a row.
    pub fn new(alloc: Global) -> YakuList
        ensures { result ≡ [] }
    {
        YakuList {
            list: SmallList::new(alloc, (0, 0)),
        }
    }

    /// The list of these rows and numbers. Condition: no row is above 44.
    pub fn of(alloc: Global, rows: &[(u8, u8)]) -> Result<YakuList, AllocError>
        requires { All (λ item. item.0 ≤ 44) rows.now }
        ensures { IfOk result (λ l. l ≡ rows.now) }
    {
        let mut list = YakuList::new(alloc);
        for row in rows {
            list.push(row.0, row.1)?;
        }
        Ok(list)
    }

    /// Adds a row with its number. Condition: it is no row above 44. `Err` is running out of memory.
    pub fn push(&mut self, row: u8, number: u8) -> Result<(), AllocError>
        requires { row ≤ 44 }
        ensures { OnOk result (self.new ≡ self.old ++ (row, number) ∷ []) }
    {
        self.list.push((row, number))?;
        Ok(())
    }

    /// Its rows and numbers, in order.
    pub fn as_slice(&self) -> &[(u8, u8)]
        ensures value { result.now ≡ self.now }
        ensures within { All (λ item. item.0 ≤ 44) self.now }
    {
        self.list.as_slice()
    }

    /// A copy of the list.
    pub fn copy(&self) -> Result<YakuList, AllocError>
        ensures { IfOk result (λ l. l ≡ self.now) }
    {
        Ok(YakuList {
            list: self.list.copy()?,
        })
    }
}
