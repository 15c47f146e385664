//! The links of a host in memory that did not come yet.

ghost use Rattle.std.specs.Prelude.{All, IfSome};
ghost use Rattle.std.specs.Vec.Iter.{into_iter_items};
ghost use Rattle.mj_links.specs.FreshLinks.{IsFreshLink};

use crate::mem_link::MemLink;
use std::alloc::Global;
use std::vec::IntoIter;

/// Links that come in this order. On none of them was anything read or written.
#[derive(Drop)]
pub(crate) struct Waiting {
    links: IntoIter<MemLink, Global>,
    ghost fresh: { All IsFreshLink (into_iter_items links) },
}

impl Waiting {
    pub(crate) fn new(links: Vec<MemLink>) -> Waiting
        requires { All IsFreshLink links.items }
    {
        Waiting {
            links: links.into_iter(),
        }
    }

    /// The link that comes next.
    pub(crate) fn next(&mut self) -> Option<MemLink>
        ensures { IfSome result IsFreshLink }
    {
        self.links.next()
    }
}
