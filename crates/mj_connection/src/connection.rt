//! The calls of a connection.

ghost use Rattle.std.specs.Prelude.{◌≡◌, ◌⊎◌, ℕ, [], ◌∷◌, MatchOption};
ghost use Rattle.mj_connection.specs.declared.stage.Connection.TheVariants.{Greeted, Ended};
ghost use Rattle.mj_connection.specs.Seating.{AddsOne};
ghost use Rattle.mj_connection.specs.Stages.{Fits, Listens, IsOpen, cut_off, place_of};
ghost use Rattle.mj_connection.specs.Spoken.{Takes, IsQuiet, IsShort, IsLost};

use crate::seat::{leave, leave_told, look_for, say, sit_down};
use crate::stage::{Connection, End};
use mj_ports::{Control, Seated};

impl Connection {
    /// Looks for what the connection is to be told without a line of its own, and writes it after what stands in `into`:
    /// the hello line, or the next line of its seat once that is due; or finds that the game is over for it. A connection
    /// that waits for a line stays as it is.
    pub fn look<G: Seated>(self, game: &G, into: &mut Vec<u8>) -> Connection
        requires waits { IsOpen self }
        requires fits { (author : ℕ)
            × Fits self author (G.after (G.setting game.now) (G.history game.now)) }
        ensures takes { (author : ℕ)
            → Fits self author (G.after (G.setting game.now) (G.history game.now))
            → Takes G.Seated (G.setting game.now) author self result
            (G.history game.now) (G.history game.now) into.old.items into.new.items [] }
        ensures quiet { IsQuiet ⊥ result into.old.items into.new.items }
    {
        match self {
            Connection::New => {
                let alloc = *into.allocator();
                match game.control(alloc, &Control::Hello, into) {
                    Ok(()) => Connection::Greeted,
                    Err(_) => Connection::Ended(End::Dry),
                }
            }
            Connection::Greeted => Connection::Greeted,
            Connection::Free(at) => look_for(game, at, into),
            Connection::Asked(at) => Connection::Asked(at),
            Connection::Ended(_) => unreachable!(),
        }
    }

    /// Hears a line of a connection that waits for one: gives it a seat, or enters what it says. What the connection is
    /// told by it is written after what stands in `into`.
    pub fn hear<G: Seated>(
        self,
        game: &mut G,
        author: u8,
        line: &[u8],
        into: &mut Vec<u8>,
    ) -> Connection
        requires listens { Listens self }
        requires fits { Fits self author (G.after (G.setting game.old) (G.history game.old)) }
        ensures setting { G.setting game.new ≡ G.setting game.old }
        ensures adds { AddsOne author (G.history game.old) (G.history game.new) }
        ensures takes { Takes G.Seated (G.setting game.old) author self result
            (G.history game.old) (G.history game.new) into.old.items into.new.items (line.now ∷ []) }
        ensures quiet { IsQuiet (self ≡ Greeted) result into.old.items into.new.items }
    {
        match self {
            Connection::Greeted => sit_down(game, author, line, into),
            Connection::Asked(at) => say(game, author, at, line, into),
            _ => unreachable!(),
        }
    }

    /// The link of the connection is lost: its seat is entered as gone, and what was still to be told is written after what
    /// stands in `into`. Where the connection has no seat, nothing changes.
    #[tactic(auto, using(crate::proofs::Taking::lost_free, crate::proofs::Taking::lost_asked))]
    pub fn lose<G: Seated>(self, game: &mut G, author: u8, into: &mut Vec<u8>) -> Connection
        requires waits { IsOpen self }
        requires fits { Fits self author (G.after (G.setting game.old) (G.history game.old)) }
        ensures setting { G.setting game.new ≡ G.setting game.old }
        ensures adds { AddsOne author (G.history game.old) (G.history game.new) }
        ensures takes { Takes G.Seated (G.setting game.old) author self result
            (G.history game.old) (G.history game.new) into.old.items into.new.items [] }
        ensures lost { IsLost (G.after (G.setting game.old)) author (Listens self → ⊥) result
            (G.history game.new) ⊎ IsShort result }
        ensures silent { Listens self → into.new.items ≡ into.old.items }
    {
        match self {
            Connection::New => Connection::Ended(End::Dry),
            Connection::Greeted => Connection::Greeted,
            Connection::Free(at) => leave_told(game, author, at, into),
            Connection::Asked(at) => leave(game, *into.allocator(), author, at),
            Connection::Ended(_) => unreachable!(),
        }
    }

    /// What the connection is once memory ran out for those who serve it.
    pub fn cut(self) -> Connection
        ensures { result ≡ cut_off self }
    {
        match self {
            Connection::New => Connection::Ended(End::Dry),
            Connection::Greeted => Connection::Ended(End::Dry),
            Connection::Free(at) => Connection::Ended(End::Cut(at)),
            Connection::Asked(at) => Connection::Ended(End::Cut(at)),
            Connection::Ended(how) => Connection::Ended(how),
        }
    }

    /// How the connection ended; None where it is not over.
    pub fn end(self) -> Option<End>
        ensures { MatchOption result (IsOpen self) (λ how. self ≡ Ended how) }
    {
        match self {
            Connection::New => None,
            Connection::Greeted => None,
            Connection::Free(_) => None,
            Connection::Asked(_) => None,
            Connection::Ended(how) => Some(how),
        }
    }

    /// The place of its Sat or Back among the entries; None where it has no seat.
    pub fn place(self) -> Option<u64>
        ensures { result ≡ place_of self }
    {
        match self {
            Connection::New => None,
            Connection::Greeted => None,
            Connection::Free(at) => Some(at.place),
            Connection::Asked(at) => Some(at.place),
            Connection::Ended(how) => match how {
                End::Refused(_) => None,
                End::Over(at) => Some(at.place),
                End::Closed(at) => Some(at.place),
                End::Left(at) => Some(at.place),
                End::Dry => None,
                End::Cut(at) => Some(at.place),
            },
        }
    }
}
