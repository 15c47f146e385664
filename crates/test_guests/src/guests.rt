//! Links in memory, and hosts of them.

ghost use Rattle.std.specs.Prelude.{◌≡◌, IfOk};
ghost use Rattle.mj_links.specs.FreshLinks.{IsFreshLink};

use crate::lines::{A, B, C, D, KEY, LINE_END, Part, bytes_of};
use mj_links::{MemHost, MemLink};
use std::alloc::{AllocError, Global};

/// What is read from a link, and the numbers of its reads and of its writes that fail.
#[derive(Clone, Copy)]
pub struct Guest<'a>(pub &'a [Part], pub &'a [u64], pub &'a [u64]);

/// A guest that asks for a seat and says no more.
pub const JOIN_A: Guest<'static> = Guest(&[Part(A, 1), LINE_END], &[], &[]);

pub const JOIN_B: Guest<'static> = Guest(&[Part(B, 1), LINE_END], &[], &[]);

pub const JOIN_C: Guest<'static> = Guest(&[Part(C, 1), LINE_END], &[], &[]);

pub const JOIN_D: Guest<'static> = Guest(&[Part(D, 1), LINE_END], &[], &[]);

/// One that asks for the seat of its key.
pub const JOIN_KEY: Guest<'static> = Guest(&[Part(KEY, 1), LINE_END], &[], &[]);

/// The link of a guest.
pub fn link_of(alloc: Global, guest: Guest<'_>) -> Result<MemLink, AllocError>
    ensures { IfOk result IsFreshLink }
{
    let bytes = bytes_of(alloc, guest.0)?;
    let reads = guest.1.to_vec(alloc)?;
    Ok(MemLink::new(bytes, reads, guest.2.to_vec(alloc)?))
}

/// Who comes to a host, whether its `open` fails, and the numbers of its accepts that fail.
#[derive(Clone, Copy)]
pub struct Crowd<'a>(pub &'a [Guest<'a>], pub bool, pub &'a [u64]);

/// A host to which this crowd comes.
pub fn host_of(alloc: Global, crowd: Crowd<'_>) -> Result<MemHost, AllocError> {
    let mut links = Vec::new(alloc);
    for guest in crowd.0 {
        links.push(link_of(alloc, *guest)?)?;
    }
    Ok(MemHost::new(links, crowd.1, crowd.2.to_vec(alloc)?))
}
