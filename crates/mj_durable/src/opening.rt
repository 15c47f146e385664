//! How the games of a host are opened from their journals, and closed.

ghost use Rattle.std.specs.Prelude.{◌≡◌, ◌≤◌, ◌+◌, ◌++◌, ◌∷◌, [], List, All, IfOk, IfErr, OnOk, ℕ, length, map};
ghost use Rattle.std.specs.Prelude.{vec_len, vec_capacity};
ghost use Rattle.mj_history.specs.Legal.{Game};
ghost use Rattle.mj_durable.specs.Journals.{tag_of};
ghost use Rattle.mj_durable.specs.Inner.Steps.{IsUnplayed, IsOpening, AreOpening, AreBack, IsBack, IsRight, IsKept};

use mj_core::Core;
use mj_journal::{Disk, NotOpened};
use mj_written::Written;
use std::alloc::{AllocError, Global};

/// Opens the journals of games, each on the disk in its place, the first one first. Where one isn't opened none stays open, and
/// all disks are back in their places.
pub(crate) fn open_all<D: Disk + Drop + Send>(
    alloc: Global,
    authors: u8,
    cores: &mut Vec<Core>,
    disks: &mut Vec<D>,
    games: Vec<Written<Core, D>>,
) -> Result<Vec<Written<Core, D>>, NotOpened>
    requires many { length disks.old.items ≡ length cores.old.items }
    requires new { All IsUnplayed cores.old.items }
    requires empty { games.items ≡ [] }
    requires room { vec_len cores.old ≤ vec_capacity games }
    ensures opened { IfOk result (λ gs. AreOpening D.told D.may_leave D.moment D.left_since D.secured_since D.disk_faults
        authors cores.old.items disks.old.items gs.items) }
    ensures moved { OnOk result ((cores.new.items ≡ []) × (disks.new.items ≡ [])) }
    ensures back { IfErr result (λ why. AreBack D.told D.may_leave D.moment D.left_since D.secured_since D.disk_faults
        authors why cores.old.items disks.old.items disks.new.items) }
    ensures room { IfOk result (λ gs. vec_capacity gs ≡ vec_capacity games) }
    ensures places { (vec_capacity cores.new ≡ vec_capacity cores.old) × (vec_capacity disks.new ≡ vec_capacity disks.old) }
{
    let Some(core) = cores.pop() else {
        return Ok(games);
    };
    let disk = disks.pop().unwrap();
    let before = open_all(alloc, authors, cores, disks, games);
    open_behind(alloc, authors, core, disk, cores, disks, before)
}

// Opens the journal of one game more, unless one before it wasn't opened: then the disk only goes back.
fn open_behind<D: Disk + Drop + Send>(
    alloc: Global,
    authors: u8,
    core: Core,
    disk: D,
    cores: &mut Vec<Core>,
    disks: &mut Vec<D>,
    before: Result<Vec<Written<Core, D>>, NotOpened>,
) -> Result<Vec<Written<Core, D>>, NotOpened>
    requires new { IsUnplayed core }
    requires empty { OnOk before ((cores.old.items ≡ []) × (disks.old.items ≡ [])) }
    requires room { IfOk before (λ gs. vec_len gs + 1 ≤ vec_capacity gs) }
    requires places { IfOk before (λ gs. vec_len gs ≤ vec_capacity cores.old) }
    requires place { IfOk before (λ gs. vec_len gs + 1 ≤ vec_capacity disks.old) }
    requires back { IfErr before (λ why. vec_len disks.old + 1 ≤ vec_capacity disks.old) }
    ensures opened { (others : List Game) → (were : List D)
        → IfOk before (λ gs. AreOpening D.told D.may_leave D.moment D.left_since D.secured_since D.disk_faults
        authors others were gs.items)
        → IfOk result (λ gs. AreOpening D.told D.may_leave D.moment D.left_since D.secured_since D.disk_faults
        authors (others ++ core ∷ []) (were ++ disk ∷ []) gs.items) }
    ensures moved { OnOk result ((cores.new.items ≡ []) × (disks.new.items ≡ [])) }
    ensures back { (others : List Game) → (were : List D)
        → IfOk before (λ gs. AreOpening D.told D.may_leave D.moment D.left_since D.secured_since D.disk_faults
        authors others were gs.items)
        → IfErr before (λ why. AreBack D.told D.may_leave D.moment D.left_since D.secured_since D.disk_faults
        authors why others were disks.old.items)
        → IfErr result (λ why. AreBack D.told D.may_leave D.moment D.left_since D.secured_since D.disk_faults
        authors why (others ++ core ∷ []) (were ++ disk ∷ []) disks.new.items) }
    ensures room { (room : ℕ) → IfOk before (λ gs. vec_capacity gs ≡ room) → IfOk result (λ gs. vec_capacity gs ≡ room) }
    ensures places { (vec_capacity cores.new ≡ vec_capacity cores.old) × (vec_capacity disks.new ≡ vec_capacity disks.old) }
{
    match before {
        Ok(games) => open_next(alloc, authors, core, disk, cores, disks, games),
        Err(why) => {
            disks.push_reserved(disk);
            Err(why)
        }
    }
}

// Opens the journal of one game more. Where it isn't opened the others are closed.
fn open_next<D: Disk + Drop + Send>(
    alloc: Global,
    authors: u8,
    core: Core,
    disk: D,
    cores: &mut Vec<Core>,
    disks: &mut Vec<D>,
    mut games: Vec<Written<Core, D>>,
) -> Result<Vec<Written<Core, D>>, NotOpened>
    requires new { IsUnplayed core }
    requires empty { (cores.old.items ≡ []) × (disks.old.items ≡ []) }
    requires room { vec_len games + 1 ≤ vec_capacity games }
    requires places { (vec_len games ≤ vec_capacity cores.old) × (vec_len games + 1 ≤ vec_capacity disks.old) }
    ensures opened { (others : List Game) → (were : List D)
        → AreOpening D.told D.may_leave D.moment D.left_since D.secured_since D.disk_faults authors others were games.items
        → IfOk result (λ gs. AreOpening D.told D.may_leave D.moment D.left_since D.secured_since D.disk_faults
        authors (others ++ core ∷ []) (were ++ disk ∷ []) gs.items) }
    ensures moved { OnOk result ((cores.new.items ≡ []) × (disks.new.items ≡ [])) }
    ensures back { (others : List Game) → (were : List D)
        → AreOpening D.told D.may_leave D.moment D.left_since D.secured_since D.disk_faults authors others were games.items
        → IfErr result (λ why. AreBack D.told D.may_leave D.moment D.left_since D.secured_since D.disk_faults
        authors why (others ++ core ∷ []) (were ++ disk ∷ []) disks.new.items) }
    ensures room { IfOk result (λ gs. vec_capacity gs ≡ vec_capacity games) }
    ensures places { (vec_capacity cores.new ≡ vec_capacity cores.old) × (vec_capacity disks.new ≡ vec_capacity disks.old) }
{
    match open_game(alloc, authors, core, disk) {
        Ok(game) => {
            games.push_reserved(game);
            Ok(games)
        }
        Err((why, disk)) => {
            close_all(games, cores, disks);
            disks.push_reserved(disk);
            Err(why)
        }
    }
}

// Opens the journal of a game on a disk.
fn open_game<D: Disk + Drop + Send>(
    alloc: Global,
    authors: u8,
    core: Core,
    disk: D,
) -> Result<Written<Core, D>, (NotOpened, D)>
    requires { IsUnplayed core }
    ensures opened { IfOk result (λ w. IsOpening D.told D.may_leave D.moment D.left_since D.secured_since D.disk_faults
        authors core.setting disk w) }
    ensures back { IfErr result (λ e. IsBack D.told D.may_leave D.moment D.left_since D.secured_since D.disk_faults core.setting disk e.1) }
    ensures right { IfErr result (λ e. IsRight D.told D.may_leave D.moment D.left_since D.secured_since D.disk_faults
        authors e.0 core.setting disk e.1) }
{
    match tag_for(alloc, &core) {
        Ok(tag) => Written::open(alloc, core, &tag, authors, disk),
        Err(_) => Err((NotOpened::NoMemory, disk)),
    }
}

// The tag of the journal of a game, which has no entries yet.
fn tag_for(alloc: Global, core: &Core) -> Result<Vec<u8>, AllocError>
    requires { IsUnplayed core.now }
    ensures { IfOk result (λ tag. tag.items ≡ tag_of core.now.setting) }
{
    let mut tag = Vec::new(alloc);
    core.record(alloc, &mut tag)?;
    Ok(tag)
}

/// Closes games, and puts their cores and their disks in their places.
pub(crate) fn close_all<D: Disk + Drop + Send>(
    mut games: Vec<Written<Core, D>>,
    cores: &mut Vec<Core>,
    disks: &mut Vec<D>,
)
    requires empty { (cores.old.items ≡ []) × (disks.old.items ≡ []) }
    requires room { (vec_len games ≤ vec_capacity cores.old) × (vec_len games ≤ vec_capacity disks.old) }
    ensures cores { cores.new.items ≡ map (λ w. w.game) games.items }
    ensures disks { disks.new.items ≡ map (λ w. w.disk) games.items }
    ensures kept { All (IsKept D.told D.may_leave D.moment D.left_since D.secured_since D.disk_faults) games.items }
    ensures places { (vec_capacity cores.new ≡ vec_capacity cores.old) × (vec_capacity disks.new ≡ vec_capacity disks.old) }
{
    let Some(game) = games.pop() else {
        return;
    };
    close_all(games, cores, disks);
    let (core, disk) = game.into_parts();
    cores.push_reserved(core);
    disks.push_reserved(disk);
}
