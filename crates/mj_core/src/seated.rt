ghost use Rattle.mj_forms.specs.AnswerForms.{answer_of, join_of};
ghost use Rattle.mj_history.specs.Legal.{IsLegal};
ghost use Rattle.mj_history.specs.Shown.{shown_of, sits_of, hears_of, expires_of, control_line};
ghost use Rattle.mj_history.proofs.Seated.{beginnings_are_legal, lines_stay, ended_connections_stay, seats_are_closed};
ghost use Rattle.mj_history.proofs.Moves.{others_leave_alone, seats_begin, returns_begin, answers_go_by_verdict, seats_leave};

use crate::game::Core;
use mj_deeds::{Answer, Rule};
use mj_ports::{Control, Expiry, Heard, Left, Seated, SitAnswer};
use mj_wall::Setting;
use std::alloc::{AllocError, Global};

// A core is a game that workers play by entries: its calls answer what its entries come to, and they keep its laws.
impl Seated for Core {
    type Setting = Setting;

    type Answer = Answer;

    type Rule = Rule;

    ghost setting = { λ game. game.setting };

    ghost history = { λ game. game.entries };

    ghost reads = { λ text. answer_of text };

    ghost joins = { λ text. join_of text };

    ghost after = { λ setting entries. shown_of setting entries };

    ghost is_legal = { λ setting entries. IsLegal setting entries };

    ghost sits = { λ setting entries text. sits_of setting entries text };

    ghost hears = { λ setting entries author seat answer. hears_of setting entries seat answer };

    ghost expires = { λ setting entries window t1 t2. expires_of setting entries window t1 t2 };

    ghost says = { λ control. control_line control };

    fn sit(&mut self, alloc: Global, author: u8, line: &[u8]) -> SitAnswer {
        Core::sit(self, alloc, author, line)
    }

    fn said(&mut self, alloc: Global, author: u8, seat: u8, line: &[u8]) -> Heard<Rule> {
        Core::said(self, alloc, author, seat, line)
    }

    fn gone(&mut self, alloc: Global, author: u8, seat: u8) -> Left {
        Core::gone(self, alloc, author, seat)
    }

    fn expire(&mut self, alloc: Global, author: u8, window: u32, t1: u64, t2: u64) -> Expiry {
        Core::expire(self, alloc, author, window, t1, t2)
    }

    fn line(&self, seat: u8, k: u32) -> Option<&[u8]> {
        Core::line(self, seat, k)
    }

    fn due(&self, seat: u8) -> u32 {
        Core::due(self, seat)
    }

    fn deeds(&self) -> u32 {
        Core::deeds(self)
    }

    fn present(&self, seat: u8) -> bool {
        Core::present(self, seat)
    }

    fn author(&self, seat: u8) -> Option<u8> {
        Core::author(self, seat)
    }

    fn open(&self) -> Option<u32> {
        Core::open(self)
    }

    fn over(&self) -> bool {
        Core::over(self)
    }

    fn entries(&self) -> u64 {
        Core::entries(self)
    }

    fn control(
        &self,
        alloc: Global,
        control: &Control<Rule>,
        into: &mut Vec<u8>,
    ) -> Result<(), AllocError> {
        Core::control(self, alloc, control, into)
    }

    ghost legal_before = { λ setting entries more l. beginnings_are_legal setting entries more l };

    ghost stays = { λ setting entries entry l. lines_stay setting entries entry l };

    ghost ended = { λ setting entries entry place l near none.
        ended_connections_stay setting entries entry place l near none };

    ghost others = { λ setting entries entry author seat l here aside.
        others_leave_alone setting entries entry author seat l here aside };

    ghost sat = { λ setting entries author name key l.
        seats_begin setting entries author name key l };

    ghost back = { λ setting entries author seat l. returns_begin setting entries author seat l };

    ghost answers = { λ setting entries author seat answer l.
        answers_go_by_verdict setting entries author seat answer l };

    ghost leaves = { λ setting entries author seat l. seats_leave setting entries author seat l };

    ghost closed = { λ setting entries text over. seats_are_closed setting entries text over };
}
