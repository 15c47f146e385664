use crate::asking::ask;
use mj_rounds::{first, next_hand};
use std::alloc::Global;
use test_words::{Question, end, field, standing};

/// The round, the dealer, the honba and the hand; how it ended; and the same of the next hand, or `over`.
const HANDS: &str = "\
E 3 2 9|another won|S 0 0 10
S 3 2 9|not ready|over
S 3 2 9|ready|S 3 3 10
S 3 2 9|aborted|S 3 3 10
S 3 2 9|another won|over
E 3 2 9|not ready|S 0 3 10
E 1 2 9|dealer won|E 1 3 10
E 1 2 9|another won|E 2 0 10
S 0 0 198|not ready|S 1 1 199
E 0 0 199|dealer won|over
E 0 0 199|aborted|over
E 3 0 199|another won|over
S 1 0 199|not ready|over
E 0 0 198|dealer won|E 0 1 199
E 3 0 198|another won|S 0 0 199
E 0 0 0|not ready|E 1 1 1
E 2 5 7|another won|E 3 0 8
E 3 0 3|dealer won|E 3 1 4
E 3 0 3|aborted|E 3 1 4
E 3 4 3|ready|E 3 5 4
S 3 0 8|dealer won|S 3 1 9
S 2 1 8|not ready|S 3 2 9
S 2 1 8|another won|S 3 0 9
S 0 0 9|another won|S 1 0 10
E 0 198 198|ready|E 0 199 199";

struct Follows;

impl Question for Follows {
    fn holds(_alloc: Global, line: &str) -> bool {
        match standing(field(line, 0)) {
            Some(now) => next_hand(&now, end(field(line, 1))) == standing(field(line, 2)),
            None => false,
        }
    }
}

/// Whether a game begins so.
fn is_first(text: &str) -> bool {
    Some(first()) == standing(text)
}

#[test]
fn hands_follow_by_who_won_and_who_was_ready(rt: HostRuntime) {
    ask::<HostRuntime, Follows>(&rt, rt.alloc(), HANDS);
    assert!(rt; is_first("E 0 0 0"));
}
