//! How the links of sessions go back to their host.

ghost use Rattle.std.specs.Prelude.{◌≡◌, reverse};
ghost use Rattle.mj_handlers.specs.Handlers.{rows};
ghost use Rattle.mj_hosting.specs.Steps.{GivesAllBack, links_at, links_in};

use mj_links::{Given, Host};
use mj_seats::Session;

/// Gives back the links of the sessions at all tables, each with the place of its connection.
pub fn give_all<H: Host>(host: &mut H, mut sessions: Vec<Vec<Session<H::Link>>>) -> Given
    ensures back { GivesAllBack result (H.returned host.old) (H.returned host.new)
        (reverse (links_in (rows sessions.items))) }
    ensures ports { H.ports host.new ≡ H.ports host.old }
    ensures openings { H.open_faults host.new ≡ H.open_faults host.old }
    ensures made { (f : H.Fault) → H.made_by host.old f → H.made_by host.new f }
{
    while let Some(own) = sessions.pop() {
        match give(host, own) {
            Given::Kept => {}
            Given::NoMemory => return Given::NoMemory,
        }
    }
    Given::Kept
}

// Gives back the links of the sessions at one table.
fn give<H: Host>(host: &mut H, mut sessions: Vec<Session<H::Link>>) -> Given
    ensures back { GivesAllBack result (H.returned host.old) (H.returned host.new)
        (reverse (links_at sessions.items)) }
    ensures ports { H.ports host.new ≡ H.ports host.old }
    ensures openings { H.open_faults host.new ≡ H.open_faults host.old }
    ensures made { (f : H.Fault) → H.made_by host.old f → H.made_by host.new f }
{
    while let Some(session) = sessions.pop() {
        match host.give_back(session.link, session.place) {
            Given::Kept => {}
            Given::NoMemory => return Given::NoMemory,
        }
    }
    Given::Kept
}
