//! Where connections come from.

ghost use Rattle.std.specs.Prelude.{◌≡◌, ℕ, [], ◌∷◌, List, Option};
ghost use Rattle.mj_links.specs.Hosts.{OpensPort, OpenFault, CountsOpenFault, ComesFresh, CameFault, GivesBack};

use crate::link::Link;

/// How the opening of a port ended.
#[derive(Drop)]
pub enum Opened<F> {
    /// The host takes connections.
    Ready,
    /// It does not.
    Failed(F),
}

/// What a host had for one that asked for a connection.
#[derive(Drop)]
pub enum Came<L, F> {
    /// A connection came.
    Link(L),
    /// None came in the host's own waiting time.
    Nothing,
    /// The host failed.
    Failed(F),
}

/// How the giving back of a link ended.
#[derive(Clone, Copy, PartialEq, Eq, Debug)]
pub enum Given {
    /// The link and its place are kept.
    Kept,
    /// Memory was wanting, and the link is dropped.
    NoMemory,
}

/// A fault with a number: the one that the failed `accept` was given, and 255 for `open`.
pub trait Numbered: Copy + Send {
    ghost number: { Self → ℕ };

    /// The number.
    fn by(&self) -> u8
        ensures { result ≡ number self.now };
}

/// Where connections come from, such as a listener on a port.
///
/// For proofs it tells its `ports` and the links that were `returned` with their connections' places,
/// oldest first, where these are known, and which faults were `made_by` it, and counts its failed
/// openings, `open_faults`. Only `open` changes the count, so a fault of opening is one of its calls.
pub trait Host: Sync {
    type Link: Link + Send + Drop;

    type Fault: Numbered;

    ghost ports: { Self → Option (List ℕ) };

    ghost returned: { Self → Option (List (Self.Link × ℕ)) };

    ghost made_by: { Self → Self.Fault → Type 0 };

    ghost open_faults: { Self → ℕ };

    /// Opens a port, which is put after the host's ports.
    fn open(&mut self, port: u16) -> Opened<Self::Fault>
        ensures ports { OpensPort result (ports self.old) (ports self.new) port }
        ensures fault { OpenFault (made_by self.new) Self.Fault.number result }
        ensures counted { CountsOpenFault result (open_faults self.old) (open_faults self.new) }
        ensures returned { returned self.new ≡ returned self.old }
        ensures made { (f : Self.Fault) → made_by self.old f → made_by self.new f };

    /// Asks for a connection, on behalf of the worker with this number. On a link that comes nothing
    /// was read and nothing is written, and it met no fault.
    fn accept(&self, by: u8) -> Came<Self::Link, Self::Fault>
        ensures fresh { ComesFresh Self.Link.was_read Self.Link.written
            Self.Link.read_faults Self.Link.write_faults result }
        ensures fault { CameFault (made_by self.now) Self.Fault.number by result };

    /// Takes a link back, with the place of its connection.
    fn give_back(&mut self, link: Self::Link, place: u64) -> Given
        ensures links { GivesBack result (returned self.old) (returned self.new) (link, place) }
        ensures ports { ports self.new ≡ ports self.old }
        ensures openings { open_faults self.new ≡ open_faults self.old }
        ensures made { (f : Self.Fault) → made_by self.old f → made_by self.new f };
}
