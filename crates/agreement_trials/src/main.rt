// Opens agreement files and asks their books. Standard input has one file to a line, in hexadecimal digits. For each
// it prints the terms and the answers to a few questions, or the refusal.
#![tactic(auto)]

use probes::{agreements, pairs};
use std::io::{BufRead, BufReader};

fn main(rt: HostRuntime) -> anyhow::Result<()> {
    for line in BufReader::new(rt.alloc(), rt.stdin())?.lines(rt.alloc()) {
        let bytes = pairs::decode(rt.alloc(), line?.as_bytes())?;
        agreements::open(&rt, &bytes)?;
    }
    Ok(())
}
