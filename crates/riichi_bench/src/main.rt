//! Times the calls that play leans on. Each job runs once over a few hands, and its checksum is printed. Where the first word is
//! `time`, each job is printed with its nanoseconds a call and its calls a second.
#![tactic(auto)]

mod hands;
mod jobs;

use jobs::{JOBS, Job};
use std::time::CpuClock;
use std::{env, io};

/// How many hands a job goes through for its checksum.
const FEW: u32 = 2_000;

/// How many it goes through when it is timed.
const MANY: u32 = 200_000;

fn main(rt: HostRuntime) -> io::Result<()> {
    let timed = is_timed(&rt)?;
    for (job, name) in &JOBS {
        if timed {
            time_job(&rt, *job, name)?;
        } else {
            let sum = job.run(rt.alloc(), FEW, true)?;
            println!(rt; "{name}: checksum {sum}")?;
        }
    }
    Ok(())
}

// Whether the first word is `time`.
fn is_timed(rt: &HostRuntime) -> io::Result<bool> {
    match env::args(rt)?.nth(1) {
        Some(word) => Ok(word.as_str() == "time"),
        None => Ok(false),
    }
}

fn time_job(rt: &HostRuntime, job: Job, name: &str) -> io::Result<()> {
    let before = rt.process_cpu_time()?;
    let sum = job.run(rt.alloc(), MANY, true)?;
    let after = rt.process_cpu_time()?;
    let _ = job.run(rt.alloc(), MANY, false)?;
    let made = rt.process_cpu_time()?;
    let all = after.as_nanos().saturating_sub(before.as_nanos());
    let making = made.as_nanos().saturating_sub(after.as_nanos());
    let each = all.saturating_sub(making) / u128::from(MANY);
    let rate = 1_000_000_000 / each.max(1);
    println!(rt; "{name}: {each} ns a call, {rate} calls a second (checksum {sum})")?;
    Ok(())
}
