ghost use Rattle.std.specs.Prelude.{◌≡◌, IfOk};
ghost use Rattle.mj_ports.specs.declared.entry.Entry.TheVariants.{Sat, Back, Said, Gone, Expired};

use mj_deeds::Answer;
use mj_ports::JoinLine;
use std::alloc::{AllocError, Global};
use std::marker::Model;

// What is kept of an entry. A join and the readings of an expiry lie in memory of their own, since a game has few of
// them beside all its answers.
#[derive(Drop)]
enum CompactEntry {
    Sat {
        author: u8,
        join: Box<JoinLine>,
    },
    Back {
        author: u8,
        seat: u8,
    },
    Said {
        author: u8,
        seat: u8,
        answer: Answer,
    },
    Gone {
        author: u8,
        seat: u8,
    },
    Expired {
        author: u8,
        spent: Box<Spent>,
    },
}

// A window and the two readings between which its time ran out.
#[derive(Clone, Copy, Debug, Drop)]
struct Spent {
    window: u32,
    t1: u64,
    t2: u64,
}

// An entry as an umpire keeps it.
#[derive(Drop)]
pub struct Entered {
    kept: CompactEntry,
}

impl Model for Entered {
    ghost use Rattle.mj_ports.specs.declared.entry.Entry.{Entry};
    ghost use Rattle.mj_deeds.specs.declared.answer.Answer.{Answer};
    ghost use Rattle.mj_umpire.specs.Inner.Entries.{entry_of};

    ghost Value = { Entry Answer };

    ghost view = { λ e. entry_of e.kept };
}

impl Entered {
    // The entry of a seat that is taken.
    pub fn sat(alloc: Global, author: u8, join: &JoinLine) -> Result<Entered, AllocError>
        ensures { IfOk result (λ entry. entry ≡ Sat author join.now.name join.now.key) }
    {
        let join = Box::new(alloc, *join)?;
        Ok(Entered {
            kept: CompactEntry::Sat { author, join },
        })
    }

    // The entry of a seat that is taken back.
    pub fn back(author: u8, seat: u8) -> Entered
        ensures { result ≡ Back author seat }
    {
        Entered {
            kept: CompactEntry::Back { author, seat },
        }
    }

    // The entry of what a seat says.
    pub fn said(author: u8, seat: u8, answer: &Answer) -> Entered
        ensures { result ≡ Said author seat answer.now }
    {
        Entered {
            kept: CompactEntry::Said {
                author,
                seat,
                answer: *answer,
            },
        }
    }

    // The entry of a seat that leaves.
    pub fn gone(author: u8, seat: u8) -> Entered
        ensures { result ≡ Gone author seat }
    {
        Entered {
            kept: CompactEntry::Gone { author, seat },
        }
    }

    // The entry of a window whose time has run out.
    pub fn expired(
        alloc: Global,
        author: u8,
        window: u32,
        t1: u64,
        t2: u64,
    ) -> Result<Entered, AllocError>
        ensures { IfOk result (λ entry. entry ≡ Expired author window t1 t2) }
    {
        let spent = Box::new(alloc, Spent { window, t1, t2 })?;
        Ok(Entered {
            kept: CompactEntry::Expired { author, spent },
        })
    }
}
