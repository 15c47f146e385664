//! That the laws of a seated game can be met.

ghost use Rattle.std.specs.Prelude.{◌≡◌, ◌∷◌, [], Some, None, IfSome};
ghost use Rattle.mj_ports.specs.declared.entry.Entry.TheVariants as entry;
ghost use Rattle.deed_tests.specs.declared.toy.Toy.TheVariants.{Fresh, Begun, Dealt};
ghost use Rattle.mj_ports.specs.declared.answers.SitAnswer.TheVariants as sits;
ghost use Rattle.mj_ports.specs.declared.answers.Expiry.TheVariants.{Closed};
ghost use Rattle.deed_tests.specs.ToyGame.{first, shown, played, toy_says, toy_hears, IsLegalFrom};
ghost use Rattle.deed_tests.specs.ToyLaws as laws;

use mj_ports::{Control, Expiry, Heard, Left, Seated, SitAnswer};
use std::alloc::{AllocError, Global};
use std::test::Fail;

// A toy game of one seat. An author sits, an expiry adds a deed, and all other calls want memory; its laws speak of
// all entries that are legal.
#[derive(Drop)]
enum Toy {
    Fresh,
    Begun(u8),
    Dealt {
        sitter: u8,
        author: u8,
        window: u32,
        t1: u64,
        t2: u64,
    },
}

impl Seated for Toy {
    type Setting = ();

    type Answer = u8;

    type Rule = u8;

    ghost setting = { λ _. tt };

    ghost history = { elim [
      | Fresh ↦ []
      | Begun sitter ↦ entry.Sat sitter (65 ∷ []) None ∷ []
      | Dealt sitter author window t1 t2 ↦
          entry.Sat sitter (65 ∷ []) None ∷ entry.Expired author window t1 t2 ∷ []
    ] };

    ghost reads = { λ _. 0 };

    ghost joins = { λ _. Some (record { name = 65 ∷ []; key = None }) };

    ghost after = { λ _ es. shown (played first es) };

    ghost is_legal = { λ _ es. IsLegalFrom first es };

    ghost sits = { λ _ _ _. sits.Sat 0 };

    ghost hears = { λ _ _ _ _ answer. toy_hears answer };

    ghost expires = { λ _ _ _ _ _. Closed };

    ghost says = { toy_says };

    fn sit(&mut self, alloc: Global, author: u8, line: &[u8]) -> SitAnswer {
        match self {
            Toy::Fresh => {
                *self = Toy::Begun(author);
                SitAnswer::Sat(0)
            }
            _ => SitAnswer::NoMemory,
        }
    }

    fn said(&mut self, alloc: Global, author: u8, seat: u8, line: &[u8]) -> Heard<u8> {
        Heard::NoMemory
    }

    fn gone(&mut self, alloc: Global, author: u8, seat: u8) -> Left {
        Left::NoMemory
    }

    fn expire(&mut self, alloc: Global, author: u8, window: u32, t1: u64, t2: u64) -> Expiry {
        match *self {
            Toy::Begun(sitter) => {
                *self = Toy::Dealt {
                    sitter,
                    author,
                    window,
                    t1,
                    t2,
                };
                Expiry::Closed
            }
            _ => Expiry::NoMemory,
        }
    }

    fn line(&self, seat: u8, k: u32) -> Option<&[u8]> {
        match self {
            Toy::Dealt { .. } if k == 0 => Some(b"\0"),
            _ => None,
        }
    }

    fn due(&self, seat: u8) -> u32 {
        0
    }

    fn deeds(&self) -> u32 {
        match self {
            Toy::Dealt { .. } => 1,
            _ => 0,
        }
    }

    fn present(&self, seat: u8) -> bool {
        self.author(seat).is_some()
    }

    fn author(&self, seat: u8) -> Option<u8> {
        match self {
            Toy::Begun(sitter) | Toy::Dealt { sitter, .. } if seat == 0 => Some(*sitter),
            _ => None,
        }
    }

    fn open(&self) -> Option<u32> {
        None
    }

    fn over(&self) -> bool {
        false
    }

    fn entries(&self) -> u64 {
        match self {
            Toy::Fresh => 0,
            Toy::Begun(_) => 1,
            Toy::Dealt { .. } => 2,
        }
    }

    fn control(
        &self,
        alloc: Global,
        control: &Control<u8>,
        into: &mut Vec<u8>,
    ) -> Result<(), AllocError> {
        match control {
            Control::Hello => into.push(1)?,
            Control::Head(_) => into.push(2)?,
            Control::Refused(rule) => into.push(*rule)?,
            Control::SitRefused(_) => into.push(3)?,
        }
        Ok(())
    }

    ghost legal_before = { λ _ es fs h. laws.legal_before first es fs h };

    ghost stays = { λ _ es e h. laws.stays es e };

    ghost ended = { λ _ es e place h near none. laws.ended es e place h near none };

    ghost others = { λ _ es e author seat h here aside. laws.others es e author seat h here aside };

    ghost sat = { λ _ es author name key h. laws.sat es author name key h };

    ghost back = { λ _ es author seat h. laws.back es author seat h };

    ghost answers = { λ _ es author seat answer h. laws.answers es author seat answer h };

    ghost leaves = { λ _ es author seat h. laws.leaves es author seat h };

    ghost closed = { λ _ es line over. laws.closed over };
}

// A seat that is given is present by whoever asked for it: a law of every seated game.
fn sits_down<G: Seated>(game: &mut G, alloc: Global, author: u8, line: &[u8]) -> Option<u8>
    ensures { IfSome result (λ seat.
        (G.after (G.setting game.new) (G.history game.new)).present seat ≡ Some author) }
{
    match game.sit(alloc, author, line) {
        SitAnswer::Sat(seat) => {
            let _entries = game.entries();
            Some(seat)
        }
        _ => None,
    }
}

// What shows of a toy, of its seat 0 and line 0.
#[derive(PartialEq, Eq, Drop)]
struct Shown {
    entries: u64,
    deeds: u32,
    due: u32,
    present: bool,
    author: Option<u8>,
    open: Option<u32>,
    over: bool,
    line: Option<u8>,
}

fn what_shows(toy: &Toy) -> Shown {
    Shown {
        entries: toy.entries(),
        deeds: toy.deeds(),
        due: toy.due(0),
        present: toy.present(0),
        author: toy.author(0),
        open: toy.open(),
        over: toy.over(),
        line: toy.line(0, 0).and_then(|line| line.first().copied()),
    }
}

#[test]
fn a_toy_game_meets_the_laws(rt: HostRuntime) -> Result<(), Fail> {
    let mut line = Vec::new(rt.alloc());
    let mut toy = Toy::Fresh;
    toy.control(rt.alloc(), &Control::Refused(7), &mut line)?;
    assert!(rt; line.as_slice() == [7].as_slice());
    let fresh = Shown {
        entries: 0,
        deeds: 0,
        due: 0,
        present: false,
        author: None,
        open: None,
        over: false,
        line: None,
    };
    assert!(rt; what_shows(&toy) == fresh);
    assert!(rt; sits_down(&mut toy, rt.alloc(), 1, b"") == Some(0));
    assert!(rt; toy.expire(rt.alloc(), 2, 0, 5, 9) == Expiry::Closed);
    let dealt = Shown {
        entries: 2,
        deeds: 1,
        due: 0,
        present: true,
        author: Some(1),
        open: None,
        over: false,
        line: Some(0),
    };
    assert!(rt; what_shows(&toy) == dealt);
    assert!(rt; toy.said(rt.alloc(), 1, 0, b"") == Heard::NoMemory);
    assert!(rt; toy.gone(rt.alloc(), 1, 0) == Left::NoMemory);
    Ok(())
}
