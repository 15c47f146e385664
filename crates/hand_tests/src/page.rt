use mj_page::{Meld, best_discard_of, is_in_furiten, shanten_of, waits_of};

/// Three of the lowest and of the highest number of the first suit, and one of each between.
const READY: [u8; 34] = [
    3, 1, 1, 1, 1, 1, 1, 1, 3, 0, 0, 0, 0, 0, 0, 0, 0, 0, 0, 0, 0, 0, 0, 0, 0, 0, 0, 0, 0, 0, 0, 0,
    0, 0,
];

#[test]
fn a_hand_is_answered(rt: HostRuntime) {
    let mut target = [0; 34];
    assert!(rt; waits_of(&READY, &[]) == 511);
    assert!(rt; shanten_of(&READY, &[], &mut target) == 0);
    assert!(rt; target[0] == 4 && target[8] == 3);
    let mut drawn = READY;
    drawn[33] = 1;
    assert!(rt; best_discard_of(&drawn, &[]) == 33);
}

#[test]
fn what_is_no_hand_is_said(rt: HostRuntime) {
    let mut target = [7; 34];
    let no_run = Meld { form: 0, low: 7 };
    assert!(rt; waits_of(&READY, &[no_run]) == u64::MAX);
    assert!(rt; shanten_of(&[0; 34], &[], &mut target) == 255 && target[0] == 7);
    assert!(rt; best_discard_of(&READY, &[]) == 255);
}

#[test]
fn a_wait_that_was_let_pass_is_furiten(rt: HostRuntime) {
    assert!(rt; is_in_furiten(511, 0, 256, 0));
    assert!(rt; !is_in_furiten(511, 512, 1024, 0));
}
