//! Games of whose seats a log is told.

ghost use Rattle.std.specs.Prelude.{◌≡◌, ◌≤◌, ◌<◌, ◌+◌, ℕ, List, [], All, IfOk, IfErr, length, map, vec_len, vec_capacity};
ghost use Rattle.mj_ports.specs.Entries.{author_of};
ghost use Rattle.mj_ticker.specs.Beside.{Matches};
ghost use Rattle.mj_handlers.specs.Handlers.{rows, link_state};
ghost use Rattle.mj_handlers.specs.Picks.{IsBelow};
ghost use Rattle.mj_seats.specs.Tables.{ComesBack, ArePlayed, AllEndWith, IsOver};

use crate::seat_log::SeatLog;
use mj_links::{Clock, Host};
use mj_ports::{Control, Expiry, Heard, Left, Picker, Seated, SitAnswer};
use mj_seats::{PlayedBy, play_tables};
use std::alloc::{AllocError, Global};
use std::sync::Wait;
use std::thread::Threads;

/// Plays games as `play_tables` does, each at the table in its place, and tells a log of their seats once a game has the entry.
pub(crate) fn play_logged<
    S: Seated,
    H: Host,
    C: Clock,
    P: Picker,
    L: SeatLog + Sync,
    R: Threads + Wait + Sync,
>(
    rt: &R,
    alloc: Global,
    games: &mut Vec<S>,
    handlers: u8,
    picker: &P,
    host: &H,
    clock: &mut C,
    log: &L,
) -> Result<PlayedBy<H>, AllocError>
    requires some { 1 ≤ length games.old.items }
    requires few { handlers < 64 }
    requires below { All (λ g. All (λ e. author_of e < handlers + 1) (S.history g)) games.old.items }
    requires picks { (line : List ℕ) → IsBelow (length games.old.items) (P.picks picker.now line) }
    ensures games { Matches (ComesBack S.Seated) games.old.items games.new.items }
    ensures played { IfOk result (λ p. ArePlayed S.Seated (link_state H.Link.Link) (P.picks picker.now) handlers (C.readings clock.old)
        (C.readings clock.new) games.old.items games.new.items (rows p.sessions.items)) }
    ensures ends { IfOk result (λ p. AllEndWith (All (IsOver S.Seated) games.new.items)
        (H.made_by host.now) H.Fault.number handlers p.ends.items) }
{
    let mut logged = log_all(alloc, games, log)?;
    let played = play_tables(rt, alloc, &mut logged, handlers, picker, host, clock);
    put_back(logged, games);
    played
}

// A game at a table, of whose seats a log is told.
#[derive(Drop)]
struct Logged<'a, S, L> {
    game: S,
    table: usize,
    log: &'a L,
}

// The calls are those of the game.
impl<'a, S: Seated, L: SeatLog + Sync> Seated for Logged<'a, S, L> {
    type Setting = S::Setting;

    type Answer = S::Answer;

    type Rule = S::Rule;

    ghost setting = { λ l. S.setting l.game };

    ghost history = { λ l. S.history l.game };

    ghost reads = { S.reads };

    ghost joins = { S.joins };

    ghost after = { S.after };

    ghost is_legal = { S.is_legal };

    ghost sits = { S.sits };

    ghost hears = { S.hears };

    ghost expires = { S.expires };

    ghost says = { S.says };

    fn sit(&mut self, alloc: Global, author: u8, line: &[u8]) -> SitAnswer {
        let answer = self.game.sit(alloc, author, line);
        tell_sitting(self.log, self.table, line, &answer);
        answer
    }

    fn said(&mut self, alloc: Global, author: u8, seat: u8, line: &[u8]) -> Heard<S::Rule> {
        let heard = self.game.said(alloc, author, seat, line);
        tell_heard(self.log, self.table, seat, &heard);
        heard
    }

    fn gone(&mut self, alloc: Global, author: u8, seat: u8) -> Left {
        let left = self.game.gone(alloc, author, seat);
        tell_left(self.log, self.table, seat, &left);
        left
    }

    fn expire(&mut self, alloc: Global, author: u8, window: u32, t1: u64, t2: u64) -> Expiry {
        self.game.expire(alloc, author, window, t1, t2)
    }

    fn line(&self, seat: u8, k: u32) -> Option<&[u8]> {
        self.game.line(seat, k)
    }

    fn due(&self, seat: u8) -> u32 {
        self.game.due(seat)
    }

    fn deeds(&self) -> u32 {
        self.game.deeds()
    }

    fn present(&self, seat: u8) -> bool {
        self.game.present(seat)
    }

    fn author(&self, seat: u8) -> Option<u8> {
        self.game.author(seat)
    }

    fn open(&self) -> Option<u32> {
        self.game.open()
    }

    fn over(&self) -> bool {
        self.game.over()
    }

    fn entries(&self) -> u64 {
        self.game.entries()
    }

    fn control(
        &self,
        alloc: Global,
        control: &Control<S::Rule>,
        into: &mut Vec<u8>,
    ) -> Result<(), AllocError> {
        self.game.control(alloc, control, into)
    }

    ghost legal_before = { S.legal_before };

    ghost stays = { S.stays };

    ghost ended = { S.ended };

    ghost others = { S.others };

    ghost sat = { S.sat };

    ghost back = { S.back };

    ghost answers = { S.answers };

    ghost leaves = { S.leaves };

    ghost closed = { S.closed };
}

fn tell_sitting<L: SeatLog>(log: &L, table: usize, line: &[u8], answer: &SitAnswer) {
    match answer {
        SitAnswer::Sat(seat) => log.taken(table, *seat, line),
        SitAnswer::Back(seat) => log.taken_back(table, *seat),
        SitAnswer::Refused(_) => {}
        SitAnswer::NoMemory => {}
    }
}

// A seat is also left by its last answer that breaks a rule.
fn tell_heard<L: SeatLog, R>(log: &L, table: usize, seat: u8, heard: &Heard<R>) {
    if let Heard::Closing(_) = heard {
        log.left(table, seat);
    }
}

fn tell_left<L: SeatLog>(log: &L, table: usize, seat: u8, left: &Left) {
    match left {
        Left::Gone => log.left(table, seat),
        Left::NoMemory => {}
    }
}

// Games at the tables in their places. Where memory is wanting, the games stay.
fn log_all<'a, S: Drop, L>(
    alloc: Global,
    games: &mut Vec<S>,
    log: &'a L,
) -> Result<Vec<Logged<'a, S, L>>, AllocError>
    ensures ok { IfOk result (λ ls. (map (λ l. l.game) ls.items ≡ games.old.items)
        × (games.new.items ≡ [])) }
    ensures err { IfErr result (λ e. games.new.items ≡ games.old.items) }
    ensures room { vec_capacity games.new ≡ vec_capacity games.old }
{
    let logged = Vec::with_capacity(alloc, games.len())?;
    Ok(log_each(games, log, logged))
}

fn log_each<'a, S: Drop, L>(
    games: &mut Vec<S>,
    log: &'a L,
    logged: Vec<Logged<'a, S, L>>,
) -> Vec<Logged<'a, S, L>>
    requires empty { logged.items ≡ [] }
    requires room { vec_len games.old ≤ vec_capacity logged }
    ensures games { map (λ l. l.game) result.items ≡ games.old.items }
    ensures left { games.new.items ≡ [] }
    ensures kept { vec_capacity games.new ≡ vec_capacity games.old }
    ensures room { vec_capacity result ≡ vec_capacity logged.entry }
{
    let Some(game) = games.pop() else {
        return logged;
    };
    let table = games.len();
    let mut logged = log_each(games, log, logged);
    logged.push_reserved(Logged { game, table, log });
    logged
}

// Puts the games back, in this order.
fn put_back<S: Drop, L>(mut logged: Vec<Logged<'_, S, L>>, games: &mut Vec<S>)
    requires empty { games.old.items ≡ [] }
    requires room { vec_len logged ≤ vec_capacity games.old }
    ensures games { games.new.items ≡ map (λ l. l.game) logged.entry.items }
    ensures room { vec_capacity games.new ≡ vec_capacity games.old }
{
    let Some(last) = logged.pop() else {
        return;
    };
    put_back(logged, games);
    games.push_reserved(last.game);
}
