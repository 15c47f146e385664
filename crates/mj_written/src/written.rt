//! A game each of whose entries stands on a disk before the game makes it.

ghost use Rattle.std.specs.Prelude.{◌≡◌, ◌<◌, ◌^◌, All, [], true, false, ℕ, List, Some, None, length, IfOk};
ghost use Rattle.mj_ports.specs.Entries.{author_of};
ghost use Rattle.mj_journal.specs.Disks.{LeavesOnly, SyncsOnly, Only};
ghost use Rattle.mj_journal.specs.Keeping.{TellsOn};
ghost use Rattle.mj_journal.specs.Looking.{OnlyLooks};
ghost use Rattle.mj_journal.specs.Openings.{is_fresh, IsNewOrTag};
ghost use Rattle.mj_journal.specs.Playing.{play, opens};
ghost use Rattle.mj_journal.specs.Replays.{CountsOpeningFault};
ghost use Rattle.mj_written.specs.Authors.{OpensAs};
ghost use Rattle.mj_written.specs.Writing.{IsWritten, IsJustOpened, gives_seat, disk_of, end_of};

use crate::authored::Authored;
use crate::foreseen::Foreseen;
use crate::stop::Stop;
use mj_journal::{
    Disk, GameCall, NotOpened, Outcome, append_record, call_record, expiry_outcome, gone_outcome,
    is_line, open_entries, said_outcome, sit_outcome,
};
use mj_ports::{Control, Expiry, Heard, Left, Seated, SitAnswer};
use std::alloc::{AllocError, Global};
use std::collections::LinkedList;
use std::marker::Model;
use std::snapshot::Snapshot;

/// What stays the same of a written game: the game's own setting, the game and the disk as they were when the journal was
/// opened, and the tag of the journal. No value of it is made.
#[derive(Drop)]
pub struct WrittenSetting<S, G, D> {
    pub game: S,
    pub began: G,
    pub opened: D,
    pub tag: LinkedList<u8>,
}

/// A seated game whose entries stand on a disk. Each is put there before the game makes it, so whoever sees an entry of the
/// game may tell of it. Once the disk has failed, or the game has wanted memory for a call whose record was on the disk, the
/// game is stopped: it answers each call with want of memory, and changes no more. So it answers also a line of more than
/// 4,095 bytes or with a newline, which no journal keeps.
#[derive(Drop)]
pub struct Written<G: Seated, D: Disk> {
    game: G,
    disk: D,
    // The place of the closed gate after the journal.
    end: u64,
    stop: Option<Stop>,
    // The game and the disk as they were opened, and the tag.
    began: Snapshot<G>,
    opened: Snapshot<D>,
    tag: Snapshot<Vec<u8>>,
}

impl<G: Seated, D: Disk> Model for Written<G, D> {
    ghost use Rattle.mj_journal.specs.Playing.{play, opens};
    ghost use Rattle.mj_written.specs.Writing.{Journaled, IsWritten};

    ghost Value = { Journaled G D };

    ghost view = { λ w. record {
      game = w.game;
      disk = w.disk;
      end = w.end;
      stop = w.stop;
      began = w.began.value;
      opened = w.opened.value;
      tag = w.tag.value.items;
    } };

    ghost invariant = { λ w. IsWritten D.told D.may_leave D.moment D.left_since D.secured_since D.disk_faults
        (opens (play G.after G.sits G.hears G.expires G.reads G.joins (G.setting w.game)) w.tag.value.items)
        (G.history w.began.value) (G.history w.game) w.opened.value w.disk w.end w.stop };
}

impl<G: Foreseen, D: Disk + Drop + Send> Seated for Written<G, D> {
    type Setting = WrittenSetting<G::Setting, G, D>;

    type Answer = G::Answer;

    type Rule = G::Rule;

    ghost setting = { λ w. record { game = G.setting w.game; began = w.began; opened = w.opened; tag = w.tag } };

    ghost history = { λ w. G.history w.game };

    ghost reads = { G.reads };

    ghost joins = { G.joins };

    ghost after = { λ p. G.after p.game };

    ghost is_legal = { λ p. G.is_legal p.game };

    ghost sits = { λ p. G.sits p.game };

    ghost hears = { λ p. G.hears p.game };

    ghost expires = { λ p. G.expires p.game };

    ghost says = { G.says };

    fn sit(&mut self, alloc: Global, author: u8, line: &[u8]) -> SitAnswer {
        if self.stop.is_some() || !is_line(line) {
            return SitAnswer::NoMemory;
        }
        let would = self.game.would_sit(alloc, line);
        if !gives_seat(&would) {
            return would;
        }
        let Ok(sitting) = call_record(alloc, &GameCall::Sit { author, line }) else {
            return SitAnswer::NoMemory;
        };
        let Some(place) = append_record::<G::Answer, G::Rule, D>(&mut self.disk, self.end, &sitting)
        else {
            self.stop = Some(Stop::DiskFault);
            return SitAnswer::NoMemory;
        };
        let answer = self.game.sit(alloc, author, line);
        match sit_outcome(&answer) {
            Outcome::Entered => self.end = place,
            Outcome::Nothing => self.stop = Some(Stop::NoMemory),
            Outcome::NoMemory => self.stop = Some(Stop::NoMemory),
        }
        answer
    }

    fn said(&mut self, alloc: Global, author: u8, seat: u8, line: &[u8]) -> Heard<G::Rule> {
        if self.stop.is_some() || !is_line(line) {
            return Heard::NoMemory;
        }
        let Ok(saying) = call_record(alloc, &GameCall::Say { author, seat, line }) else {
            return Heard::NoMemory;
        };
        let Some(place) = append_record::<G::Answer, G::Rule, D>(&mut self.disk, self.end, &saying)
        else {
            self.stop = Some(Stop::DiskFault);
            return Heard::NoMemory;
        };
        let heard = self.game.said(alloc, author, seat, line);
        match said_outcome(&heard) {
            Outcome::Entered => self.end = place,
            Outcome::Nothing => self.stop = Some(Stop::NoMemory),
            Outcome::NoMemory => self.stop = Some(Stop::NoMemory),
        }
        heard
    }

    fn gone(&mut self, alloc: Global, author: u8, seat: u8) -> Left {
        if self.stop.is_some() {
            return Left::NoMemory;
        }
        let Ok(leaving) = call_record(alloc, &GameCall::Leave { author, seat }) else {
            return Left::NoMemory;
        };
        let Some(place) = append_record::<G::Answer, G::Rule, D>(&mut self.disk, self.end, &leaving)
        else {
            self.stop = Some(Stop::DiskFault);
            return Left::NoMemory;
        };
        let left = self.game.gone(alloc, author, seat);
        match gone_outcome(&left) {
            Outcome::Entered => self.end = place,
            Outcome::Nothing => self.stop = Some(Stop::NoMemory),
            Outcome::NoMemory => self.stop = Some(Stop::NoMemory),
        }
        left
    }

    fn expire(&mut self, alloc: Global, author: u8, window: u32, t1: u64, t2: u64) -> Expiry {
        if self.stop.is_some() {
            return Expiry::NoMemory;
        }
        match self.game.would_expire(window, t1, t2) {
            Expiry::Closed => {}
            Expiry::Stale => return Expiry::Stale,
            Expiry::Early => return Expiry::Early,
            Expiry::NoMemory => return Expiry::NoMemory,
        }
        let Ok(closing) = call_record(
            alloc,
            &GameCall::Expire {
                author,
                window,
                t1,
                t2,
            },
        ) else {
            return Expiry::NoMemory;
        };
        let Some(place) = append_record::<G::Answer, G::Rule, D>(&mut self.disk, self.end, &closing)
        else {
            self.stop = Some(Stop::DiskFault);
            return Expiry::NoMemory;
        };
        let expiry = self.game.expire(alloc, author, window, t1, t2);
        match expiry_outcome(&expiry) {
            Outcome::Entered => self.end = place,
            Outcome::Nothing => self.stop = Some(Stop::NoMemory),
            Outcome::NoMemory => self.stop = Some(Stop::NoMemory),
        }
        expiry
    }

    fn line(&self, seat: u8, k: u32) -> Option<&[u8]> {
        self.game.line(seat, k)
    }

    fn due(&self, seat: u8) -> u32 {
        self.game.due(seat)
    }

    fn deeds(&self) -> u32 {
        self.game.deeds()
    }

    fn present(&self, seat: u8) -> bool {
        self.game.present(seat)
    }

    fn author(&self, seat: u8) -> Option<u8> {
        self.game.author(seat)
    }

    fn open(&self) -> Option<u32> {
        self.game.open()
    }

    fn over(&self) -> bool {
        self.game.over()
    }

    fn entries(&self) -> u64 {
        self.game.entries()
    }

    fn control(
        &self,
        alloc: Global,
        control: &Control<G::Rule>,
        into: &mut Vec<u8>,
    ) -> Result<(), AllocError> {
        self.game.control(alloc, control, into)
    }

    ghost legal_before = { λ p. G.legal_before p.game };

    ghost stays = { λ p. G.stays p.game };

    ghost ended = { λ p. G.ended p.game };

    ghost others = { λ p. G.others p.game };

    ghost sat = { λ p. G.sat p.game };

    ghost back = { λ p. G.back p.game };

    ghost answers = { λ p. G.answers p.game };

    ghost leaves = { λ p. G.leaves p.game };

    ghost closed = { λ p. G.closed p.game };
}

impl<G: Seated, D: Disk> Written<G, D> {
    /// Opens the journal of a game. A new journal gets the tag, of fewer than 2^32 bytes, as its first record, and the game has
    /// no entries. Any other isn't written to, and the game gets the entries that it keeps, each of an author below `authors`:
    /// a journal that keeps others is another game's. The game that is given has none. Where the journal isn't opened the disk
    /// comes back.
    pub fn open(
        alloc: Global,
        game: G,
        tag: &Vec<u8>,
        authors: u8,
        mut disk: D,
    ) -> Result<Written<G, D>, (NotOpened, D)>
        requires none { G.history game ≡ [] }
        requires short { length tag.now.items < 2 ^ 32 }

        ensures setting { IfOk result (λ w. G.setting w.game ≡ G.setting game) }
        ensures front { IfOk result (IsJustOpened tag.now.items) }

        // Where the disk tells its bytes, the answer is the one that is right.
        ensures opened { (bytes : List ℕ) → D.told disk ≡ Some bytes
            → OpensAs G.history authors
            (opens (play G.after G.sits G.hears G.expires G.reads G.joins (G.setting game)) tag.now.items bytes)
            result }
        ensures authors { IfOk result (λ w. All (λ e. author_of e < authors) (G.history w.game)) }
        ensures on { IfOk result (λ w. TellsOn (D.told disk) (D.told w.disk)) }

        // A journal that isn't new isn't written to.
        ensures looks { (bytes : List ℕ) → D.told disk ≡ Some bytes → is_fresh bytes ≡ false
            → OnlyLooks D.told D.may_leave D.moment D.left_since D.secured_since disk (disk_of result) }

        // Of a new one, with no write pending, a crash at any moment leaves a new journal or the tag alone.
        ensures any_moment { (bytes : List ℕ) → D.told disk ≡ Some bytes
            → is_fresh bytes ≡ true → Only bytes (D.may_leave disk)
            → LeavesOnly D.moment D.left_since disk (disk_of result) (IsNewOrTag tag.now.items) }

        // So of what its syncs put on the disk.
        ensures syncs { (bytes : List ℕ) → D.told disk ≡ Some bytes
            → is_fresh bytes ≡ true → Only bytes (D.may_leave disk)
            → SyncsOnly D.moment D.secured_since disk (disk_of result) (IsNewOrTag tag.now.items) }

        ensures faults { CountsOpeningFault (end_of result) (D.disk_faults disk) (D.disk_faults (disk_of result)) }
    {
        let mut signed = Authored::new(game, authors);
        match open_entries(alloc, &mut signed, tag.as_slice(), &mut disk) {
            Ok(end) => {
                let (game, below) = signed.into_parts();
                if !below {
                    return Err((NotOpened::OtherGame, disk));
                }
                let began = Snapshot::of(&game);
                let opened = Snapshot::of(&disk);
                let tag = Snapshot::of(tag);
                Ok(Written {
                    game,
                    disk,
                    end,
                    stop: None,
                    began,
                    opened,
                    tag,
                })
            }
            Err(why) => Err((why, disk)),
        }
    }

    /// Why the game is stopped; None where it goes on.
    pub fn stopped(&self) -> Option<Stop>
        ensures { result ≡ self.now.stop }
    {
        self.stop
    }

    /// The game, and the disk on which its entries stand.
    pub fn into_parts(self) -> (G, D)
        ensures game { result.0 ≡ self.game }
        ensures disk { result.1 ≡ self.disk }
        ensures written { IsWritten D.told D.may_leave D.moment D.left_since D.secured_since D.disk_faults
            (opens (play G.after G.sits G.hears G.expires G.reads G.joins (G.setting self.game)) self.tag)
            (G.history self.began) (G.history self.game) self.opened self.disk self.end self.stop }
    {
        let Written {
            game,
            disk,
            end: _,
            stop: _,
            began: _began,
            opened: _opened,
            tag: _tag,
        } = self;
        (game, disk)
    }
}

// Whether a seat is given.
fn gives_seat(answer: &SitAnswer) -> bool
    ensures { result ≡ gives_seat answer.now }
{
    match answer {
        SitAnswer::Sat(_) => true,
        SitAnswer::Back(_) => true,
        SitAnswer::Refused(_) => false,
        SitAnswer::NoMemory => false,
    }
}
