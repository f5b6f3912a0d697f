// Reads a page of display definitions and reports what each line reads as, or where it is at fault.
#![tactic(auto)]

mod page;

use crate::page::check_page;
use std::io::Read;
use std::{env, fs};

fn main(rt: HostRuntime) -> anyhow::Result<()> {
    run(&rt)
}

// The page is the file named as the argument, or standard input.
fn run(rt: &HostRuntime) -> anyhow::Result<()> {
    let heap = rt.alloc();
    let mut words = env::args(rt)?;
    let _program = words.next();
    let bytes = match words.next() {
        Some(path) => fs::read(rt, path.as_str())?,
        None => {
            let mut all = Vec::new(heap);
            rt.stdin().read_to_end(&mut all)?;
            all
        }
    };
    let report = check_page(heap, bytes.as_slice())?;
    print!(rt; "{report}")?;
    Ok(())
}
