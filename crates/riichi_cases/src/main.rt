//! Games as files. The words name the files; each is a case, and a line is printed for each: that it holds, or the first line
//! that differs from what is wanted.
#![tactic(auto)]

mod case;
mod compare;
mod outcome;

use anyhow::Result;
use std::alloc::Global;
use std::io::Write;
use std::{env, fs};

fn main(rt: HostRuntime) -> Result<()> {
    for name in env::args(&rt)?.skip(1) {
        let text = fs::read(&rt, name.as_str())?;
        let line = line_of(rt.alloc(), name.as_str(), text.as_slice())?;
        rt.stdout().write_all(line.as_slice())?;
    }
    Ok(())
}

// What is printed of a case.
fn line_of(alloc: Global, name: &str, text: &[u8]) -> Result<Vec<u8>> {
    let mut line = Vec::from_slice(alloc, name.as_bytes())?;
    line.extend_from_slice(b": ")?;
    case::push_verdict(alloc, text, &mut line)?;
    line.push(b'\n')?;
    Ok(line)
}
