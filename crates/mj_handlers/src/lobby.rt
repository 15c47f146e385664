//! How a link is received before its table is known: it is greeted, and its first line names the table.

ghost use Rattle.std.specs.Prelude.{◌≡◌, [], ◌∷◌, IfOk};
ghost use Rattle.mj_ports.specs.declared.answers.Control.TheVariants.{Hello};
ghost use Rattle.mj_session.specs.Wires.{WireState, Took, Wrote, wire_state};
ghost use Rattle.mj_handlers.specs.Hands.{IsLobby};
ghost use Rattle.mj_handlers.specs.Inner.Receipts.{Receives, Refuses};

use mj_links::{LineRead, Link, Sent, Wire};
use mj_ports::{Control, Picked, Picker, Seated, SitRefused};
use std::alloc::{AllocError, Global};

/// The lines that are written to links for which there is no table, or none yet.
#[derive(Drop)]
pub struct Lobby {
    pub hello: Vec<u8>,
    pub bad_name: Vec<u8>,
    pub no_room: Vec<u8>,
}

// How the receipt of a link ended.
#[derive(Drop)]
pub(crate) enum Received {
    // The link was greeted, and this line came, which is for the table.
    At(u8, Vec<u8>),
    // The link is for no table, and was refused, or it was lost before its first line came.
    Nowhere,
    NoMemory,
}

impl Lobby {
    /// The lines as this game writes them, and so every game like it.
    pub fn new<G: Seated>(alloc: Global, game: &G) -> Result<Lobby, AllocError>
        ensures { IfOk result (λ l. IsLobby G.says l) }
    {
        Ok(Lobby {
            hello: written(alloc, game, &Control::Hello)?,
            bad_name: written(alloc, game, &Control::SitRefused(SitRefused::BadName))?,
            no_room: written(alloc, game, &Control::SitRefused(SitRefused::NoRoom))?,
        })
    }
}

fn written<G: Seated>(
    alloc: Global,
    game: &G,
    control: &Control<G::Rule>,
) -> Result<Vec<u8>, AllocError>
    ensures { IfOk result (λ v. v.items ≡ G.says control.now) }
{
    let mut line = Vec::new(alloc);
    game.control(alloc, control, &mut line)?;
    Ok(line)
}

// Greets a link, reads its first line, and picks the table that the line is for.
pub(crate) fn receive<P: Picker, L: Link>(
    alloc: Global,
    lobby: &Lobby,
    picker: &P,
    wire: &mut Wire<L>,
) -> Received
    ensures { Receives (P.picks picker.now) lobby.now result
        (wire_state L.Link wire.old)
        (wire_state L.Link wire.new) }
{
    let mut line = Vec::new(alloc);
    match wire.send(lobby.hello.as_slice()) {
        Sent::Failed => Received::Nowhere,
        Sent::Whole => match wire.read_line(&mut line) {
            LineRead::Line => pick(alloc, lobby, picker, wire, line),
            LineRead::NoMemory => Received::NoMemory,
            LineRead::Ended => Received::Nowhere,
            LineRead::Fault => Received::Nowhere,
            LineRead::TooLong => Received::Nowhere,
        },
    }
}

// Picks the table of a first line, and refuses a line that is for none.
fn pick<P: Picker, L: Link>(
    alloc: Global,
    lobby: &Lobby,
    picker: &P,
    wire: &mut Wire<L>,
    line: Vec<u8>,
) -> Received
    ensures { (x : WireState)
        → Took x (wire_state L.Link wire.old)
        (line.items ∷ []) []
        → Wrote x (wire_state L.Link wire.old)
        lobby.now.hello.items
        → Receives (P.picks picker.now) lobby.now result x
        (wire_state L.Link wire.new) }
{
    match picker.pick(alloc, line.as_slice()) {
        Ok(Picked::Table(table)) => Received::At(table, line),
        Ok(Picked::BadName) => {
            refuse(wire, lobby.bad_name.as_slice());
            Received::Nowhere
        }
        Ok(Picked::NoRoom) => {
            refuse(wire, lobby.no_room.as_slice());
            Received::Nowhere
        }
        Err(_) => Received::NoMemory,
    }
}

// Writes the line of its refusal on a link that was greeted, and one line of which came.
fn refuse<L: Link>(wire: &mut Wire<L>, refusal: &[u8])
    ensures { Refuses refusal.now
        (wire_state L.Link wire.old)
        (wire_state L.Link wire.new) }
{
    wire.send(refusal);
}
