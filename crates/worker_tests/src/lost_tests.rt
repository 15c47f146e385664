//! Faults that are kept.

use crate::hall::lost;
use mj_links::MemFault;
use mj_seats::Lost;
use std::alloc::Global;

// Whether faults of just these numbers are kept.
fn has(lost: &Lost<MemFault>, numbers: &[u8]) -> bool {
    let mut just = true;
    for number in 0..=255u8 {
        just = just && lost.has(number) == numbers.contains(&number);
    }
    just
}

// How many places there are, the numbers of faults, and those that are kept.
const CASES: [(u8, &[u8], &[u8]); 6] = [
    (8, &[], &[]),
    (8, &[7, 0, 3], &[0, 3, 7]),
    (8, &[8, 255, 5, 5], &[5]),
    (1, &[1, 0], &[0]),
    (0, &[0, 1], &[]),
    (255, &[254, 255], &[254]),
];

fn are_kept(alloc: Global, places: u8, numbers: &[u8], kept: &[u8]) -> bool {
    match lost(alloc, places, numbers) {
        Ok(lost) => has(&lost, kept),
        Err(_) => false,
    }
}

fn all_are_kept(alloc: Global) -> bool {
    let mut all = true;
    for (places, numbers, kept) in &CASES {
        all = all && are_kept(alloc, *places, numbers, kept);
    }
    all
}

#[test]
fn a_fault_is_kept_where_its_number_has_a_place(rt: HostRuntime) {
    assert!(rt; all_are_kept(rt.alloc()));
}
