// Answers calls of the readers, the plain engine and the term sources, one line for each line of standard input; docs/PROTOCOL.md has the lines.
#![tactic(auto)]

mod calls;
mod dump;
mod engines;
mod faults;
mod hex;
mod parted;
mod sources;

use std::io::{BufRead, BufReader};

fn main(rt: HostRuntime) -> anyhow::Result<()> {
    let heap = rt.alloc();
    for line in BufReader::new(heap, rt.stdin())?.lines(heap) {
        let line = line?;
        let answer = calls::answer_to(heap, line.as_str())?;
        println!(rt; "{answer}")?;
    }
    Ok(())
}
