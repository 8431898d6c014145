// Reads shelf numbers from standard input, one to a line, and prints what each weighs.
#![tactic(auto)]

use anyhow::anyhow;
use std::io::Read;
use weighing::input::{LONGEST, weigh_all};

fn main(rt: HostRuntime) -> anyhow::Result<()> {
    let mut bytes = Vec::new(rt.alloc());
    rt.stdin().take(LONGEST as u64 + 1).read_to_end(&mut bytes)?;
    let report = weigh_all(rt.alloc(), bytes.as_slice())?;
    for weighed in report.weighed.iter() {
        println!(rt; "{weighed}")?;
    }
    match report.fault {
        None => Ok(()),
        Some(fault) => {
            // Each fault of an input names its line.
            let line = fault.event.unwrap_or(0);
            let why = fault.refusal;
            println!(rt; "{fault}")?;
            eprintln!(rt; "weigh: line {line}: {why}")?;
            Err(anyhow!("the input is refused"))
        }
    }
}
