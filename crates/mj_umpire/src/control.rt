ghost use Rattle.std.specs.Prelude.{◌≡◌, OnOk, OnErr};
ghost use Rattle.mj_bytes.specs.Adds.{Adds};
ghost use Rattle.mj_forms.specs.Lines.{hello_line, replay_line};
ghost use Rattle.mj_history.specs.Shown.{control_line};

use mj_bytes::{push_all, push_number};
use mj_deeds::Rule;
use mj_ports::Control;
use mjai_lines::{error_line, refusal_line};
use std::alloc::{AllocError, Global};

// The first line of each connection.
const HELLO: &[u8] = b"{\"type\":\"hello\",\"protocol\":\"mjsonp\",\"protocol_version\":3}\n";

/// Writes a line that is no deed's after a text. The only error is running out of memory, and then the text stays as it was.
pub fn write_control(
    alloc: Global,
    control: &Control<Rule>,
    into: &mut Vec<u8>,
) -> Result<(), AllocError>
    ensures ok { OnOk result (Adds into.old.items into.new.items (control_line control.now)) }
    ensures err { OnErr result (into.new.items ≡ into.old.items) }
{
    match control {
        Control::Hello => push_hello(into),
        Control::Head(count) => write_replay(alloc, *count, into),
        Control::Refused(rule) => error_line(alloc, *rule, into),
        Control::SitRefused(why) => refusal_line(alloc, *why, into),
    }
}

// Writes the hello line.
#[tactic(auto, unfolding(mj_forms::specs::Lines::hello_line))]
fn push_hello(into: &mut Vec<u8>) -> Result<(), AllocError>
    ensures ok { OnOk result (Adds into.old.items into.new.items hello_line) }
    ensures err { OnErr result (into.new.items ≡ into.old.items) }
{
    push_all(into, HELLO)
}

// Writes the head of lines that are told again: how many they are.
fn write_replay(alloc: Global, count: u32, into: &mut Vec<u8>) -> Result<(), AllocError>
    ensures ok { OnOk result (Adds into.old.items into.new.items (replay_line count)) }
    ensures err { OnErr result (into.new.items ≡ into.old.items) }
{
    let mut line = Vec::new(alloc);
    push_replay(&mut line, count)?;
    push_all(into, line.as_slice())
}

// Writes that head after a text that may be spoilt.
fn push_replay(line: &mut Vec<u8>, count: u32) -> Result<(), AllocError>
    ensures { OnOk result (Adds line.old.items line.new.items (replay_line count)) }
{
    push_all(line, b"{\"type\":\"replay\",\"count\":")?;
    push_number(line, u64::from(count))?;
    push_all(line, b"}\n")?;
    Ok(())
}
