ghost use Rattle.std.specs.Prelude.{◌≡◌, Ok, IfOk};
ghost use Rattle.mj_journal.specs.Journals.{IsAtRest};
ghost use Rattle.mj_journal.specs.Keeping.{game_of, end_of, IfKept};

use crate::core_tests::before_all;
use mj_core::Core;
use mj_journal::{Answered, Disk, FileDisk, Kept, MemDisk, NotOpened};
use mj_ports::{Left, SitAnswer};
use std::alloc::{AllocError, Global};
use std::fs;
use std::test::Fail;

const TAG: &[u8] = b"t";

const JOIN: &[u8] = b"{\"type\":\"join\",\"name\":\"a\"}";

// How many bytes a journal has of the tag and the join alone.
const BYTES_OF_JOIN: usize = 44;

// A game whose journal stands on a disk; None where it isn't opened, with the cause.
fn opened<D: Disk>(alloc: Global, disk: &mut D) -> Result<Box<Kept<Core>>, NotOpened>
    ensures { IfOk result (λ kept. IsAtRest (D.told disk.new) (D.may_leave disk.new) (end_of kept.value)) }
{
    match before_all(alloc) {
        Some(core) => on_heap(alloc, Kept::open(alloc, core, TAG, disk)),
        None => Err(NotOpened::NoMemory),
    }
}

// A value that was opened, on the heap, so that the functions that ask of it own a pointer alone.
fn on_heap<T: Drop>(alloc: Global, made: Result<T, NotOpened>) -> Result<Box<T>, NotOpened>
    ensures { IfOk result (λ held. made ≡ Ok held.value) }
{
    match Box::new(alloc, made?) {
        Ok(held) => Ok(held),
        Err(_) => Err(NotOpened::NoMemory),
    }
}

// How many entries a kept game has; None where it is stopped.
fn entries(kept: &Kept<Core>) -> Option<u64> {
    Some(kept.game()?.entries())
}

// A disk with these bytes, whose call of a number fails, or none for 0.
fn disk_of(alloc: Global, bytes: &[u8], fails: u64) -> Result<MemDisk, AllocError> {
    MemDisk::new(bytes, [fails].to_vec(alloc)?)
}

// Whether the first seat is given.
fn sits<D: Disk>(kept: &mut Kept<Core>, disk: &mut D) -> bool
    requires { IfKept (game_of kept.old) (λ g.
        IsAtRest (D.told disk.old) (D.may_leave disk.old) (end_of kept.old)) }
{
    matches!(kept.sit(disk, 1, JOIN), Answered::Done(SitAnswer::Sat(0)))
}

// Whether a journal has the bytes of the tag and the join.
fn is_joined(bytes: &[u8]) -> bool {
    bytes.len() == BYTES_OF_JOIN
        && bytes.get(6..11) == Some(b"\x01\0\0\0\x20".as_slice())
        && bytes.get(11..17) == Some(b"1 sit ".as_slice())
        && bytes.get(43) == Some(&0)
}

// What is asked of a game that was opened from a new disk.
#[derive(Clone, Copy)]
enum Asked {
    // Whether the disk has the bytes of the tag, and then of the tag and the join.
    Joins,
    // Whether a refused join writes nothing.
    Refuses,
    // Whether the game is stopped by a fault of the tenth call of the disk, and then doesn't call it.
    Stops,
}

// Whether that is so where the disk's call of a number fails, or none for 0.
fn is_so(alloc: Global, fails: u64, asked: Asked) -> bool {
    match disk_of(alloc, b"", fails) {
        Ok(mut disk) => is_so_on(alloc, &mut disk, asked),
        Err(_) => false,
    }
}

fn is_so_on(alloc: Global, disk: &mut MemDisk, asked: Asked) -> bool {
    match opened(alloc, disk) {
        Ok(mut kept) => comes_so(&mut kept, disk, asked),
        Err(_) => false,
    }
}

fn comes_so(kept: &mut Kept<Core>, disk: &mut MemDisk, asked: Asked) -> bool
    requires { IfKept (game_of kept.old) (λ g. IsAtRest (⟦<MemDisk as Disk>⟧.told disk.old)
        (⟦<MemDisk as Disk>⟧.may_leave disk.old) (end_of kept.old)) }
{
    match asked {
        Asked::Joins => has_these_bytes(kept, disk),
        Asked::Refuses => refuses(kept, disk),
        Asked::Stops => stops(kept, disk),
    }
}

fn has_these_bytes(kept: &mut Kept<Core>, disk: &mut MemDisk) -> bool
    requires { IfKept (game_of kept.old) (λ g. IsAtRest (⟦<MemDisk as Disk>⟧.told disk.old)
        (⟦<MemDisk as Disk>⟧.may_leave disk.old) (end_of kept.old)) }
{
    disk.bytes() == b"\x01\0\0\0\x01t\0".as_slice() && sits(kept, disk) && is_joined(disk.bytes())
}

fn refuses(kept: &mut Kept<Core>, disk: &mut MemDisk) -> bool
    requires { IfKept (game_of kept.old) (λ g. IsAtRest (⟦<MemDisk as Disk>⟧.told disk.old)
        (⟦<MemDisk as Disk>⟧.may_leave disk.old) (end_of kept.old)) }
{
    let calls = disk.calls().len();
    let answered = kept.sit(disk, 1, b"{}");
    matches!(answered, Answered::Done(SitAnswer::Refused(_)))
        && disk.calls().len() == calls
        && entries(kept) == Some(0)
}

fn stops(kept: &mut Kept<Core>, disk: &mut MemDisk) -> bool
    requires { IfKept (game_of kept.old) (λ g. IsAtRest (⟦<MemDisk as Disk>⟧.told disk.old)
        (⟦<MemDisk as Disk>⟧.may_leave disk.old) (end_of kept.old)) }
{
    matches!(kept.sit(disk, 1, JOIN), Answered::DiskFault)
        && kept.game().is_none()
        && matches!(kept.expire(disk, 0, 0, 5, 9), Answered::Stopped)
        && disk.calls().len() == 10
}

#[test]
fn an_entry_is_written_before_its_answer_and_a_stopped_game_writes_none(rt: HostRuntime) {
    assert!(rt; is_so(rt.alloc(), 0, Asked::Joins));
    assert!(rt; is_so(rt.alloc(), 0, Asked::Refuses));
    assert!(rt; is_so(rt.alloc(), 10, Asked::Stops));
}

// The bytes of a journal, and why it isn't opened.
const JOURNALS: [(&[u8], Option<NotOpened>); 10] = [
    (b"\x01", None),
    (b"\x02\x01\x01", None),
    (b"\x01\0\0\0\x01u\0", Some(NotOpened::OtherGame)),
    (b"\x01\0\0\0\x01u\x01", Some(NotOpened::OtherGame)),
    (b"\x01\0", Some(NotOpened::BadJournal(0))),
    (b"\x01\0\0\0\x01u", Some(NotOpened::BadJournal(0))),
    (b"\x01\0\0\0\x01t\x01", Some(NotOpened::BadJournal(6))),
    (
        b"\x01\0\0\0\x01t\x01\0\0\0\x01x\0",
        Some(NotOpened::BadJournal(6)),
    ),
    (
        b"\x01\0\0\0\x01t\x01\0\0\0\x0801 sit x\0",
        Some(NotOpened::BadJournal(6)),
    ),
    // a refused join adds no entry
    (
        b"\x01\0\0\0\x01t\x01\0\0\0\x071 sit x\0",
        Some(NotOpened::BadJournal(6)),
    ),
];

fn is_refused(alloc: Global, bytes: &[u8], cause: &Option<NotOpened>) -> bool {
    match disk_of(alloc, bytes, 0) {
        Ok(mut disk) => opened(alloc, &mut disk).err() == *cause,
        Err(_) => false,
    }
}

fn are_refused(alloc: Global) -> bool {
    let mut all = true;
    for (bytes, cause) in &JOURNALS {
        all = all && is_refused(alloc, bytes, cause);
    }
    all
}

#[test]
fn bad_journals_are_refused(rt: HostRuntime) {
    assert!(rt; are_refused(rt.alloc()));
}

// Whether the first seat leaves, where it is present.
fn leaves<D: Disk>(kept: &mut Kept<Core>, disk: &mut D) -> bool
    requires { IfKept (game_of kept.old) (λ g.
        IsAtRest (D.told disk.old) (D.may_leave disk.old) (end_of kept.old)) }
{
    match kept.game() {
        Some(game) if game.author(0) == Some(1) => {
            matches!(kept.gone(disk, 1, 0), Answered::Done(Left::Gone))
        }
        _ => false,
    }
}

// Whether the first seat is given in the game of a disk, or, again, the game has one entry, and one more once that seat has
// left.
fn is_kept_on<D: Disk>(alloc: Global, disk: &mut D, again: bool) -> bool {
    match opened(alloc, disk) {
        Ok(mut kept) => goes_on(&mut kept, disk, again),
        Err(_) => false,
    }
}

fn goes_on<D: Disk>(kept: &mut Kept<Core>, disk: &mut D, again: bool) -> bool
    requires { IfKept (game_of kept.old) (λ g.
        IsAtRest (D.told disk.old) (D.may_leave disk.old) (end_of kept.old)) }
{
    if !again {
        return sits(kept, disk);
    }
    entries(kept) == Some(1) && leaves(kept, disk) && entries(kept) == Some(2)
}

#[test]
fn a_journal_stands_in_a_file(rt: HostRuntime) -> Result<(), Fail> {
    let _ = fs::remove_file(&rt, "riichi.journal");
    assert!(rt; is_kept_on(rt.alloc(), &mut FileDisk::new(&rt), false));
    assert!(rt; fs::read(&rt, "riichi.journal")?.len() == BYTES_OF_JOIN);
    assert!(rt; is_kept_on(rt.alloc(), &mut FileDisk::new(&rt), true));
    fs::remove_file(&rt, "riichi.journal")?;
    Ok(())
}
