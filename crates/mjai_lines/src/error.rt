ghost use Rattle.std.specs.Prelude.{◌≡◌, OnOk, OnErr};
ghost use Rattle.mj_bytes.specs.Adds.{Adds};
ghost use Rattle.mj_forms.specs.Lines.{error_text, rule_number, rule_name, refusal_line as refusal_of, refusal_number, refusal_name};

use crate::pieces::push_quoted;
use mj_bytes::{push_all, push_number};
use mj_deeds::Rule;
use mj_ports::SitRefused;
use std::alloc::{AllocError, Global};

/// Writes the line that a refused answer gets, with the number and the name of the rule that it broke, after a text.
/// The only error is running out of memory, and then the text stays as it was.
pub fn error_line(alloc: Global, rule: Rule, into: &mut Vec<u8>) -> Result<(), AllocError>
    ensures ok { OnOk result (Adds into.old.items into.new.items (error_text rule)) }
    ensures err { OnErr result (into.new.items ≡ into.old.items) }
{
    let mut line = Vec::new(alloc);
    push_error(&mut line, rule)?;
    push_all(into, line.as_slice())
}

/// Writes the line that a refused join gets, with the number and the name of the cause, after a text. The only error is
/// running out of memory, and then the text stays as it was.
pub fn refusal_line(alloc: Global, cause: SitRefused, into: &mut Vec<u8>) -> Result<(), AllocError>
    ensures ok { OnOk result (Adds into.old.items into.new.items (refusal_of cause)) }
    ensures err { OnErr result (into.new.items ≡ into.old.items) }
{
    let mut line = Vec::new(alloc);
    push_refusal(&mut line, cause)?;
    push_all(into, line.as_slice())
}

// Writes the line of a refused answer.
fn push_error(line: &mut Vec<u8>, rule: Rule) -> Result<(), AllocError>
    ensures { OnOk result (Adds line.old.items line.new.items (error_text rule)) }
{
    push_all(line, b"{\"type\":\"error\",\"rule\":")?;
    push_number(line, rule_number(rule))?;
    push_all(line, b",\"message\":")?;
    push_quoted(line, name_of(rule))?;
    push_all(line, b"}\n")?;
    Ok(())
}

// The number of a rule.
fn rule_number(rule: Rule) -> u64
    ensures { result ≡ rule_number rule }
{
    rule as u64
}

// The name of a rule.
fn name_of(rule: Rule) -> &'static [u8]
    ensures { result.now ≡ rule_name rule }
{
    match rule {
        Rule::Unreadable => b"Unreadable",
        Rule::NotYours => b"NotYours",
        Rule::NotNow => b"NotNow",
        Rule::NoSuchTile => b"NoSuchTile",
        Rule::WrongTarget => b"WrongTarget",
        Rule::LastTile => b"LastTile",
        Rule::NotHeld => b"NotHeld",
        Rule::NotDrawn => b"NotDrawn",
        Rule::Locked => b"Locked",
        Rule::BadSet => b"BadSet",
        Rule::NotLeft => b"NotLeft",
        Rule::SwapCall => b"SwapCall",
        Rule::StuckCall => b"StuckCall",
        Rule::KanFull => b"KanFull",
        Rule::KanDry => b"KanDry",
        Rule::RiichiKan => b"RiichiKan",
        Rule::ReachOpen => b"ReachOpen",
        Rule::ReachPoor => b"ReachPoor",
        Rule::ReachLate => b"ReachLate",
        Rule::ReachUnready => b"ReachUnready",
        Rule::NotComplete => b"NotComplete",
        Rule::Furiten => b"Furiten",
        Rule::NoYaku => b"NoYaku",
        Rule::NotNine => b"NotNine",
    }
}

// Writes the line of a refused join.
fn push_refusal(line: &mut Vec<u8>, cause: SitRefused) -> Result<(), AllocError>
    ensures { OnOk result (Adds line.old.items line.new.items (refusal_of cause)) }
{
    push_all(line, b"{\"type\":\"error\",\"sit\":")?;
    push_number(line, refusal_number(cause))?;
    push_all(line, b",\"message\":")?;
    push_quoted(line, refusal_name(cause))?;
    push_all(line, b"}\n")?;
    Ok(())
}

// The number of a refusal of a seat.
fn refusal_number(cause: SitRefused) -> u64
    ensures { result ≡ refusal_number cause }
{
    match cause {
        SitRefused::Full => 1,
        SitRefused::NameTaken => 2,
        SitRefused::WrongKey => 3,
        SitRefused::NoKey => 4,
        SitRefused::TooOften => 5,
        SitRefused::Over => 6,
        SitRefused::BadName => 7,
        SitRefused::NoRoom => 8,
    }
}

// The name of a refusal of a seat.
fn refusal_name(cause: SitRefused) -> &'static [u8]
    ensures { result.now ≡ refusal_name cause }
{
    match cause {
        SitRefused::Full => b"Full",
        SitRefused::NameTaken => b"NameTaken",
        SitRefused::WrongKey => b"WrongKey",
        SitRefused::NoKey => b"NoKey",
        SitRefused::TooOften => b"TooOften",
        SitRefused::Over => b"Over",
        SitRefused::BadName => b"BadName",
        SitRefused::NoRoom => b"NoRoom",
    }
}
