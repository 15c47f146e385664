//! Hosts and clocks in memory.

ghost use Rattle.std.specs.Prelude.{IfOk};
ghost use Rattle.mj_links.specs.FreshLinks.{IsFreshLink};

use mj_links::{
    Came, Clock, Given, Got, Host, MemClock, MemFault, MemHost, MemLink, Numbered, Opened, Source,
};
use std::alloc::{AllocError, Global};
use std::test::Fail;
use std::thread::join;

// A link from which this byte is read.
fn link(alloc: Global, byte: u8) -> Result<MemLink, AllocError>
    ensures { IfOk result IsFreshLink }
{
    let bytes = [byte].to_vec(alloc)?;
    Ok(MemLink::new(bytes, Vec::new(alloc), Vec::new(alloc)))
}

// A host of two links, some of whose accepts fail.
fn host(alloc: Global, open_fails: bool, accepts: &[u64]) -> Result<MemHost, AllocError> {
    let mut links = Vec::new(alloc);
    links.push(link(alloc, b'a')?)?;
    links.push(link(alloc, b'b')?)?;
    Ok(MemHost::new(links, open_fails, accepts.to_vec(alloc)?))
}

// What came on behalf of a worker: the first byte that is read from the link, or the number of the fault.
#[derive(Clone, Copy, PartialEq, Eq)]
enum Seen {
    Link(u8),
    Nothing,
    Failed(u8),
}

fn first_byte(mut link: MemLink) -> Seen {
    let mut byte = [0];
    match link.read(&mut byte) {
        Got::Bytes(_) => Seen::Link(byte[0]),
        Got::End | Got::Failed => Seen::Nothing,
    }
}

fn what_came(came: Came<MemLink, MemFault>) -> Seen {
    match came {
        Came::Link(link) => first_byte(link),
        Came::Nothing => Seen::Nothing,
        Came::Failed(fault) => Seen::Failed(fault.by()),
    }
}

// Whether this comes to the workers 0 to 3, one after the other.
fn comes_so(host: &MemHost, wanted: [Seen; 4]) -> bool {
    let mut right = true;
    for (by, wanted) in (0..4).zip(wanted) {
        right = right && what_came(host.accept(by)) == wanted;
    }
    right
}

// The accepts that fail, and what comes.
const ACCEPTS: [(&[u64], [Seen; 4]); 3] = [
    (
        &[],
        [
            Seen::Link(b'a'),
            Seen::Link(b'b'),
            Seen::Nothing,
            Seen::Nothing,
        ],
    ),
    (
        &[2],
        [
            Seen::Link(b'a'),
            Seen::Failed(1),
            Seen::Link(b'b'),
            Seen::Nothing,
        ],
    ),
    (
        &[1, 4],
        [
            Seen::Failed(0),
            Seen::Link(b'a'),
            Seen::Link(b'b'),
            Seen::Failed(3),
        ],
    ),
];

fn come_so(alloc: Global, accepts: &[u64], wanted: [Seen; 4]) -> bool {
    match host(alloc, false, accepts) {
        Ok(host) => comes_so(&host, wanted),
        Err(_) => false,
    }
}

fn all_come_so(alloc: Global) -> bool {
    let mut all = true;
    for (accepts, wanted) in &ACCEPTS {
        all = all && come_so(alloc, accepts, *wanted);
    }
    all
}

#[test]
fn links_come_in_their_order_and_planned_accepts_fail(rt: HostRuntime) {
    assert!(rt; all_come_so(rt.alloc()));
}

// Whether two openings end so.
fn open_two(host: &mut MemHost, fails: bool) -> bool {
    let mut hold = true;
    for port in [11600, 11601] {
        let as_wanted = match host.open(port) {
            Opened::Ready => !fails,
            Opened::Failed(fault) => fails && fault.by() == 255,
        };
        hold = hold && as_wanted;
    }
    hold && host.ports() == [11600, 11601].as_slice()
}

// Whether a link comes, and is kept once it is given back with this place.
fn gives_back(host: &mut MemHost, place: u64) -> bool {
    match host.accept(0) {
        Came::Link(link) => host.give_back(link, place) == Given::Kept,
        Came::Nothing | Came::Failed(_) => false,
    }
}

fn keeps_places(host: &mut MemHost) -> bool {
    let are_kept = gives_back(host, 7) && gives_back(host, 2);
    let returned = host.returned();
    are_kept && returned.len() == 2 && returned[0].1 == 7 && returned[1].1 == 2
}

fn two_are_opened(alloc: Global, fails: bool) -> bool {
    match host(alloc, fails, &[]) {
        Ok(mut host) => open_two(&mut host, fails),
        Err(_) => false,
    }
}

fn places_are_kept(alloc: Global) -> bool {
    match host(alloc, false, &[]) {
        Ok(mut host) => keeps_places(&mut host),
        Err(_) => false,
    }
}

#[test]
fn ports_are_opened_as_planned_and_links_keep_their_places(rt: HostRuntime) {
    assert!(rt; two_are_opened(rt.alloc(), true) && two_are_opened(rt.alloc(), false));
    assert!(rt; places_are_kept(rt.alloc()));
}

// The links that come to a worker which asks four times.
fn count_links<H: Host>(host: &H, by: u8) -> u32 {
    let mut count = 0u32;
    for _ in 0..4 {
        if let Came::Link(_) = host.accept(by) {
            count = count.saturating_add(1);
        }
    }
    count
}

#[test]
fn no_link_comes_twice_to_two_threads(rt: HostRuntime) -> Result<(), Fail> {
    let host = host(rt.alloc(), false, &[])?;
    let shared = &host;
    let (left, right) = join(&rt, || count_links(shared, 0), || count_links(shared, 1));
    assert!(rt; left.saturating_add(right) <= 2);
    Ok(())
}

// The first reading of a clock, its step, and its first readings.
const CLOCKS: [(u64, u64, [u64; 3]); 3] = [
    (5, 1000, [5, 1005, 2005]),
    (7, 0, [7, 7, 7]),
    (u64::MAX - 1, 3, [u64::MAX - 1, 1, 4]),
];

fn goes_on(mut clock: MemClock, wanted: [u64; 3]) -> bool {
    [clock.now(), clock.now(), clock.now()] == wanted
}

#[test]
fn a_clock_in_memory_goes_on_by_its_step(rt: HostRuntime) {
    for (first, step, wanted) in CLOCKS {
        assert!(rt; goes_on(MemClock::new(first, step), wanted));
    }
}
