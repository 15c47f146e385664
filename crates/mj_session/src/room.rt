ghost use Rattle.std.specs.Prelude.{true, length};
ghost use Rattle.mj_ports.specs.Entries.{author_of};
ghost use Rattle.mj_session.specs.Faults.{holds_fault};

use crate::lost::{Lost, is_kept, keep};
use crate::shared_game::SharedGame;
use mj_links::Numbered;
use mj_ports::{Control, Entry, Expiry, Heard, Left, Seated, SitAnswer};
use std::alloc::{AllocError, Global};
use turn_lock::Noted;

/// A game that workers share, with the faults that their host made, and whether memory was wanting of one of them.
#[derive(Drop)]
pub struct Room<G, F: Numbered> {
    pub game: G,
    pub lost: Lost<F>,
    pub dry: bool,
}

impl<G: Seated, F: Numbered> Noted for Room<G, F> {
    type Setting = G::Setting;

    type Note = Entry<G::Answer>;

    ghost setting = { λ r. G.setting r.game };

    ghost notes = { λ r. G.history r.game };

    ghost author = { author_of };
}

// The calls of a room are those of its game.
impl<G: Seated, F: Numbered> Seated for Room<G, F> {
    type Setting = G::Setting;

    type Answer = G::Answer;

    type Rule = G::Rule;

    ghost setting = { λ r. G.setting r.game };

    ghost history = { λ r. G.history r.game };

    ghost reads = { G.reads };

    ghost joins = { G.joins };

    ghost after = { G.after };

    ghost is_legal = { G.is_legal };

    ghost sits = { G.sits };

    ghost hears = { G.hears };

    ghost expires = { G.expires };

    ghost says = { G.says };

    fn sit(&mut self, alloc: Global, author: u8, line: &[u8]) -> SitAnswer {
        self.game.sit(alloc, author, line)
    }

    fn said(&mut self, alloc: Global, author: u8, seat: u8, line: &[u8]) -> Heard<G::Rule> {
        self.game.said(alloc, author, seat, line)
    }

    fn gone(&mut self, alloc: Global, author: u8, seat: u8) -> Left {
        self.game.gone(alloc, author, seat)
    }

    fn expire(&mut self, alloc: Global, author: u8, window: u32, t1: u64, t2: u64) -> Expiry {
        self.game.expire(alloc, author, window, t1, t2)
    }

    fn line(&self, seat: u8, k: u32) -> Option<&[u8]> {
        self.game.line(seat, k)
    }

    fn due(&self, seat: u8) -> u32 {
        self.game.due(seat)
    }

    fn deeds(&self) -> u32 {
        self.game.deeds()
    }

    fn present(&self, seat: u8) -> bool {
        self.game.present(seat)
    }

    fn author(&self, seat: u8) -> Option<u8> {
        self.game.author(seat)
    }

    fn open(&self) -> Option<u32> {
        self.game.open()
    }

    fn over(&self) -> bool {
        self.game.over()
    }

    fn entries(&self) -> u64 {
        self.game.entries()
    }

    fn control(
        &self,
        alloc: Global,
        control: &Control<G::Rule>,
        into: &mut Vec<u8>,
    ) -> Result<(), AllocError> {
        self.game.control(alloc, control, into)
    }

    ghost legal_before = { G.legal_before };

    ghost stays = { G.stays };

    ghost ended = { G.ended };

    ghost others = { G.others };

    ghost sat = { G.sat };

    ghost back = { G.back };

    ghost answers = { G.answers };

    ghost leaves = { G.leaves };

    ghost closed = { G.closed };
}

impl<G: Seated, F: Numbered> SharedGame for Room<G, F> {
    ghost use Rattle.std.specs.Prelude.{refl};

    type Fault = F;

    ghost lost = { λ r k. holds_fault r.lost k };

    ghost places = { λ r. length r.lost };

    ghost is_dry = { λ r. r.dry };

    ghost dried = { λ r. record r { dry = true } };

    fn dry(&self) -> bool {
        self.dry
    }

    fn run_dry(&mut self) {
        self.dry = true;
    }

    fn has_lost(&self, number: u8) -> bool {
        is_kept(&self.lost.places, number)
    }

    fn lose(&mut self, fault: F) {
        keep(&mut self.lost.places, fault.by(), fault);
    }

    ghost same_setting = { λ _. refl };

    ghost same_notes = { λ _. refl };

    ghost same_author = { refl };
}
