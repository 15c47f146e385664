ghost use Rattle.std.specs.Prelude.{◌≡◌, ◌≤◌, ◌<◌, ◌==◌, ◌-◌, ◌++◌, ◌∷◌, ◌&&◌, [], ℕ, length, slice_get, slice_set, true};
ghost use Rattle.std.specs.Prelude.{is_some, Some, None, OnOk, OnErr, IfOk, option_copied, option_map, if◌then◌else◌};
ghost use Rattle.mj_ports.specs.declared.entry.Entry.TheVariants.{Sat, Back, Gone, Expired};
ghost use Rattle.mj_seating.specs.Sitting.{is_present_at};
ghost use Rattle.mj_wall.specs.declared.setting.Setting.{Setting};
ghost use Rattle.mj_window.specs.Slots.{closes, is_waited_for, put_at};
ghost use Rattle.mj_deeds.specs.declared.deed.Deed.TheVariants.{StartGame};
ghost use Rattle.mj_deeds.specs.Four.{at_seat};
ghost use Rattle.mj_rules.specs.Outcome.{goes_on};
ghost use Rattle.mj_deeds.specs.Facts.{newest};
ghost use Rattle.mj_history.specs.After.{due_on_return, slots_after};
ghost use Rattle.mj_history.specs.Legal.{is_over};
ghost use Rattle.mj_umpire.specs.Calls.{open_window};
ghost use Rattle.mj_umpire.specs.Inner.States.{Steps, Hears, Advances, Settles, CanTakeSeat, CanTakeBack, CanHear, CanLeave, CanExpire, CanSettle, HasWalls};
ghost use Rattle.mj_umpire.specs.Inner.States.{MayAdd, changed, now_of, nobody, desk_after, player_in, placed_in, presence_at, desk_name, desk_names};
ghost use Rattle.mj_umpire.specs.Inner.Verdicts.{verdict_given};

use crate::chair::Chair;
use crate::verdict::Verdict;
use crate::window::answers_in;
use mj_deeds::{Answer, Deed, Four, Names};
use mj_ports::{JoinLine, Name};
use mj_seating::{Desk, Placed};
use mj_telling::{Supply, Telling};
use mj_window::Window;
use std::alloc::{AllocError, Global};
use std::marker::Model;

// For so many deeds there is room from the start.
const DEEDS: usize = 2_048;

// What the entries of a game come to: the deeds so far, the table that they make with what is told of them, the seats as they are
// held and how far each has come, and the window on the newest deed.
#[derive(Drop)]
pub struct State<T: Telling> {
    told: T,
    deeds: Vec<Deed>,
    desk: Desk,
    chairs: Vec<Chair>,
    window: Window,
}

impl<T: Telling> Model for State<T> {
    ghost use Rattle.mj_umpire.specs.Inner.States.{Position, AreKept};

    ghost Value = { Position };

    ghost view = { λ s. record {
      rules = (T.play s.told).rules;
      deeds = s.deeds.items;
      desk = s.desk;
      players = s.chairs.items;
      slots = s.window;
    } };

    ghost invariant = { λ s. AreKept (T.play s.told).deeds s.deeds.items s.desk s.chairs.items };
}

impl<T: Telling> State<T> {
    // A state without seats, on a table without a deed.
    pub fn new(alloc: Global, told: T) -> Result<State<T>, AllocError>
        requires { (T.play told).deeds ≡ [] }
        ensures { IfOk result (λ state. state ≡ nobody (T.play told).rules) }
    {
        let deeds = Vec::with_capacity(alloc, DEEDS)?;
        let chairs = Vec::with_capacity(alloc, 4)?;
        Ok(State {
            told,
            deeds,
            desk: Desk::new(),
            chairs,
            window: Window::new(),
        })
    }

    // The table that the deeds so far make, with what is told of them.
    pub fn told(&self) -> &T
        ensures { T.play result.now ≡ record { rules = self.now.rules; deeds = self.now.deeds } }
    {
        &self.told
    }

    // The deeds so far.
    pub fn deeds(&self) -> &[Deed]
        ensures { result.now ≡ self.now.deeds }
    {
        self.deeds.as_slice()
    }

    // A seat, where it is held.
    pub fn seat(&self, seat: u8) -> Option<&Chair>
        ensures { option_copied result
            ≡ option_map player_in (slice_get (now_of self.now).chairs seat) }
    {
        let _ = &self.desk;
        self.chair(seat)
    }

    // The chair of a seat, where it is held.
    fn chair(&self, seat: u8) -> Option<&Chair>
        ensures { option_copied result ≡ slice_get self.now.players seat }
    {
        self.chairs.get(usize::from(seat))
    }

    // The game has ended.
    pub fn is_over(&self) -> bool
        ensures { result ≡ is_over self.now.deeds }
    {
        matches!(self.deeds.as_slice().last(), Some(Deed::EndGame { .. }))
    }

    // The number of the open window: that of the newest deed, until the game has ended.
    pub fn open(&self) -> Option<usize>
        ensures { result ≡ open_window self.now.deeds }
    {
        if self.deeds.is_empty() || self.is_over() {
            return None;
        }
        Some(self.deeds.len() - 1)
    }

    // What becomes of a join.
    pub fn place(&self, join: &JoinLine) -> Placed
        ensures { result ≡ placed_in (now_of self.now) join.now }
    {
        let mut desk = self.desk;
        desk.sit(join)
    }

    // The next seat is taken; with the fourth the game starts.
    pub fn take_seat(
        &mut self,
        alloc: Global,
        author: u8,
        join: &JoinLine,
    ) -> Result<(), AllocError>
        requires { CanTakeSeat self.old join.now }
        ensures ok { OnOk result ((setting : Setting) → Steps setting self.old self.new
            (Sat author join.now.name join.now.key)) }
        ensures err { OnErr result (self.new ≡ self.old) }
    {
        self.chairs.reserve(1)?;
        let mut desk = self.desk;
        desk.sit(join);
        if desk.held() == 4 {
            start_game(alloc, &mut self.told, &mut self.deeds, &desk)?;
            self.chairs.push_reserved(Chair::new(author));
            self.desk = desk;
            self.window.clear_all();
            return Ok(());
        }
        self.chairs.push_reserved(Chair::new(author));
        self.desk = desk;
        Ok(())
    }

    // A seat that is gone is taken back by an author.
    pub fn take_back(
        &mut self,
        alloc: Global,
        setting: &mut Supply,
        author: u8,
        seat: u8,
        join: &JoinLine,
    ) -> Result<(), AllocError>
        requires { CanTakeBack setting.old self.old seat join.now }
        ensures setting { setting.new ≡ setting.old }
        ensures ok { OnOk result (Steps setting.old self.old self.new (Back author seat)) }
        ensures err { OnErr result (self.new ≡ self.old) }
    {
        let mut desk = self.desk;
        desk.sit(join);
        let mut chair = self.chairs[usize::from(seat)];
        chair.come_back(author, self.due_on_return(seat));
        self.settle(alloc, setting, seat, &desk, chair)
    }

    // The deed that a seat answers next where it comes back: the newest one where its slot is empty, else the one after
    // it; before the first deed the first.
    fn due_on_return(&self, seat: u8) -> usize
        requires { seat ≤ 3 }
        ensures { result ≡ due_on_return (now_of self.now) seat }
    {
        match self.window.slot(seat) {
            Some(_) => self.deeds.len(),
            None => self.deeds.len().saturating_sub(1),
        }
    }

    // A present seat answers its due deed.
    pub fn hear(
        &mut self,
        alloc: Global,
        setting: &mut Supply,
        seat: u8,
        answer: &Answer,
    ) -> Result<Verdict, AllocError>
        requires { CanHear setting.old self.old seat answer.now }
        ensures setting { setting.new ≡ setting.old }
        ensures ok { IfOk result (λ verdict. Hears setting.old self.old self.new seat answer.now
            (verdict_given verdict)) }
        ensures err { OnErr result (self.new ≡ self.old) }
    {
        let mut chair = self.chairs[usize::from(seat)];
        let verdict = chair.verdict(self.told.table(), self.deeds.len(), seat, answer);
        chair.go_on(&verdict);
        self.settle_heard(alloc, setting, seat, answer, &verdict, chair)?;
        Ok(verdict)
    }

    // A present seat leaves.
    pub fn leave(&mut self, alloc: Global, setting: &mut Supply, seat: u8) -> Result<(), AllocError>
        requires { CanLeave setting.old self.old seat }
        ensures setting { setting.new ≡ setting.old }
        ensures ok { OnOk result ((author : ℕ) → Steps setting.old self.old self.new
            (Gone author seat)) }
        ensures err { OnErr result (self.new ≡ self.old) }
    {
        let mut desk = self.desk;
        desk.leave(seat);
        let mut chair = self.chairs[usize::from(seat)];
        chair.leave();
        self.settle(alloc, setting, seat, &desk, chair)
    }

    // The time of the open window has run out.
    pub fn expire(&mut self, alloc: Global, setting: &mut Supply) -> Result<(), AllocError>
        requires { CanExpire setting.old self.old }
        ensures setting { setting.new ≡ setting.old }
        ensures ok { OnOk result ((author window t1 t2 : ℕ) → Steps setting.old self.old self.new
            (Expired author window t1 t2)) }
        ensures err { OnErr result (self.new ≡ self.old) }
    {
        self.advance(alloc, setting)
    }

    // A seat changes; then the window closes where nobody is waited for.
    fn settle(
        &mut self,
        alloc: Global,
        setting: &mut Supply,
        seat: u8,
        desk: &Desk,
        chair: Chair,
    ) -> Result<(), AllocError>
        requires { CanSettle setting.old self.old seat desk.now chair self.old.slots }
        ensures setting { setting.new ≡ setting.old }
        ensures ok { OnOk result (Settles setting.old
            (changed self.old desk.now (slice_set self.old.players seat chair) self.old.slots)
            self.new) }
        ensures err { OnErr result (self.new ≡ self.old) }
    {
        if self.is_closed(desk) {
            self.advance(alloc, setting)?;
            self.chairs[usize::from(seat)] = chair;
            self.desk = *desk;
            return Ok(());
        }
        self.chairs[usize::from(seat)] = chair;
        self.desk = *desk;
        Ok(())
    }

    // A seat changes by the verdict on its answer.
    #[inline(always)]
    fn settle_heard(
        &mut self,
        alloc: Global,
        setting: &mut Supply,
        seat: u8,
        answer: &Answer,
        verdict: &Verdict,
        chair: Chair,
    ) -> Result<(), AllocError>
        requires empty { at_seat self.old.slots seat ≡ None }
        requires present { is_present_at self.old.desk seat ≡ true }
        requires can { CanSettle setting.old self.old seat
            (desk_after (verdict_given verdict.now) self.old.desk seat) chair
            (slots_after (verdict_given verdict.now) self.old.slots seat answer.now) }
        ensures setting { setting.new ≡ setting.old }
        ensures ok { OnOk result (Settles setting.old
            (changed self.old (desk_after (verdict_given verdict.now) self.old.desk seat)
            (slice_set self.old.players seat chair)
            (slots_after (verdict_given verdict.now) self.old.slots seat answer.now)) self.new) }
        ensures err { OnErr result (self.new ≡ self.old) }
    {
        if verdict.is_taken() {
            return self.settle_filled(alloc, setting, seat, answer, chair);
        }
        if verdict.is_closing() {
            return self.settle_closing(alloc, setting, seat, verdict, chair);
        }
        self.settle_here(alloc, setting, seat, chair)
    }

    // A seat whose answer is refused for good changes, and leaves the desk.
    fn settle_closing(
        &mut self,
        alloc: Global,
        setting: &mut Supply,
        seat: u8,
        verdict: &Verdict,
        chair: Chair,
    ) -> Result<(), AllocError>
        requires present { is_present_at self.old.desk seat ≡ true }
        requires can { CanSettle setting.old self.old seat
            (desk_after (verdict_given verdict.now) self.old.desk seat) chair self.old.slots }
        ensures setting { setting.new ≡ setting.old }
        ensures ok { OnOk result (Settles setting.old
            (changed self.old (desk_after (verdict_given verdict.now) self.old.desk seat)
            (slice_set self.old.players seat chair) self.old.slots) self.new) }
        ensures err { OnErr result (self.new ≡ self.old) }
    {
        let desk = desk_after(&self.desk, verdict, seat);
        self.settle(alloc, setting, seat, &desk, chair)
    }

    // A seat changes that stays at the desk as it is.
    #[inline(always)]
    fn settle_here(
        &mut self,
        alloc: Global,
        setting: &mut Supply,
        seat: u8,
        chair: Chair,
    ) -> Result<(), AllocError>
        requires { CanSettle setting.old self.old seat self.old.desk chair self.old.slots }
        ensures setting { setting.new ≡ setting.old }
        ensures ok { OnOk result (Settles setting.old
            (changed self.old self.old.desk (slice_set self.old.players seat chair) self.old.slots)
            self.new) }
        ensures err { OnErr result (self.new ≡ self.old) }
    {
        if self.is_closed(&self.desk) {
            self.advance(alloc, setting)?;
            self.chairs[usize::from(seat)] = chair;
            return Ok(());
        }
        self.chairs[usize::from(seat)] = chair;
        Ok(())
    }

    // A seat changes whose answer is taken, and fills its slot, which is empty.
    fn settle_filled(
        &mut self,
        alloc: Global,
        setting: &mut Supply,
        seat: u8,
        answer: &Answer,
        chair: Chair,
    ) -> Result<(), AllocError>
        requires empty { at_seat self.old.slots seat ≡ None }
        requires can { CanSettle setting.old self.old seat self.old.desk chair
            (put_at self.old.slots seat answer.now) }
        ensures setting { setting.new ≡ setting.old }
        ensures ok { OnOk result (Settles setting.old
            (changed self.old self.old.desk (slice_set self.old.players seat chair)
            (put_at self.old.slots seat answer.now)) self.new) }
        ensures err { OnErr result (self.new ≡ self.old) }
    {
        self.window.fill(seat, *answer);
        match self.settle_here(alloc, setting, seat, chair) {
            Ok(()) => Ok(()),
            Err(e) => {
                self.window.clear(seat);
                Err(e)
            }
        }
    }

    // Whether the window closes: it is open, and nobody at the desk is waited for.
    fn is_closed(&self, desk: &Desk) -> bool
        ensures { result ≡ (is_some (open_window self.now.deeds)
            && closes self.now.slots (presence_at desk.now)) }
    {
        if self.waits_for_last(desk) {
            return false;
        }
        self.open().is_some() && self.window.ready_to_close(presence(desk))
    }

    // Whether the last seat is waited for. It is asked before all four: mostly somebody still is, and the window stays open.
    fn waits_for_last(&self, desk: &Desk) -> bool
        ensures { result ≡ is_waited_for (is_present_at desk.now 3) self.now.slots.fourth }
    {
        desk.present(3) && self.window.slots().fourth.is_none()
    }

    // The deed that follows by the answers in the window is added, and its window opens.
    fn advance(&mut self, alloc: Global, setting: &mut Supply) -> Result<(), AllocError>
        requires ground { HasWalls setting.old self.old }
        requires on { goes_on (newest self.old.deeds) ≡ true }
        requires may { MayAdd setting.old self.old.deeds self.old.slots }
        ensures setting { setting.new ≡ setting.old }
        ensures ok { OnOk result (Advances setting.old self.old self.new) }
        ensures err { OnErr result (self.new ≡ self.old) }
    {
        self.deeds.reserve(1)?;
        let answers = answers_in(self.told.table(), &self.window);
        let deed = setting.next(alloc, &mut self.told, &answers)?;
        self.deeds.push_reserved(deed);
        self.window.clear_all();
        Ok(())
    }
}

// The game starts with the names at a desk: its first deed is told and added.
#[inline(always)]
fn start_game<T: Telling>(
    alloc: Global,
    told: &mut T,
    deeds: &mut Vec<Deed>,
    desk: &Desk,
) -> Result<(), AllocError>
    requires { (length (T.play told.old).deeds == 0) ≡ true }
    ensures told { OnOk result (T.play told.new ≡ record {
      rules = (T.play told.old).rules;
      deeds = (T.play told.old).deeds ++ StartGame (desk_names desk.now) ∷ [];
    }) }
    ensures added { OnOk result (deeds.new.items
        ≡ deeds.old.items ++ StartGame (desk_names desk.now) ∷ []) }
    ensures untold { OnErr result (T.play told.new ≡ T.play told.old) }
    ensures same { OnErr result (deeds.new.items ≡ deeds.old.items) }
{
    deeds.reserve(1)?;
    let deed = start(alloc, desk)?;
    told.push(alloc, &deed)?;
    deeds.push_reserved(deed);
    Ok(())
}

// The start of a game with the names at a desk.
fn start(alloc: Global, desk: &Desk) -> Result<Deed, AllocError>
    ensures { IfOk result (λ deed. deed ≡ StartGame (desk_names desk.now)) }
{
    Ok(Deed::StartGame {
        names: Names::of(alloc, names(desk))?,
    })
}

// The desk once an answer of a seat has this verdict: one that is refused for good makes the seat leave.
fn desk_after(desk: &Desk, verdict: &Verdict, seat: u8) -> Desk
    requires { is_present_at desk.now seat ≡ true }
    ensures { result ≡ desk_after (verdict_given verdict.now) desk.now seat }
{
    let mut next = *desk;
    match verdict {
        Verdict::Closing(_) => next.leave(seat),
        _ => {}
    }
    next
}

// Which of the four seats are present.
fn presence(desk: &Desk) -> [bool; 4]
    ensures { result ≡ presence_at desk.now }
{
    [
        desk.present(0),
        desk.present(1),
        desk.present(2),
        desk.present(3),
    ]
}

// The name of a seat.
fn name_of(desk: &Desk, seat: u8) -> Name
    ensures { result ≡ desk_name desk.now seat }
{
    match desk.name(seat) {
        Some(name) => name,
        None => Name::of(&[]),
    }
}

// The names of the four seats.
fn names(desk: &Desk) -> Four<Name>
    ensures { result ≡ desk_names desk.now }
{
    Four {
        first: name_of(desk, 0),
        second: name_of(desk, 1),
        third: name_of(desk, 2),
        fourth: name_of(desk, 3),
    }
}
