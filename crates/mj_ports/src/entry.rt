use crate::short_text::{Key, Name};

/// One event of a game. The author is the number of the worker that entered it; a seat is 0 to 3.
#[derive(Clone, Copy, Debug, Drop)]
pub enum Entry<A> {
    /// The next free seat was taken under a name, and perhaps with a key to come back by.
    Sat {
        author: u8,
        name: Name,
        key: Option<Key>,
    },
    /// A seat that was gone was taken back.
    Back {
        author: u8,
        seat: u8,
    },
    /// A seat said what its line reads as.
    Said {
        author: u8,
        seat: u8,
        answer: A,
    },
    /// A seat is gone.
    Gone {
        author: u8,
        seat: u8,
    },
    /// The time of a window ran out between two readings of a clock, in milliseconds.
    Expired {
        author: u8,
        window: u32,
        t1: u64,
        t2: u64,
    },
}
