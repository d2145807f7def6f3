// Runs the script in each of the files that are named, and prints each
// transcript behind its name.
#![tactic(auto)]

use std::alloc::Global;
use std::io::{self, Read};
use std::{env, fs};
use transcripts::{BYTES_TO_READ, transcript};

fn read(alloc: Global, input: impl Read + Drop) -> io::Result<Vec<u8>> {
    let mut text = Vec::new(alloc);
    input.take(BYTES_TO_READ).read_to_end(&mut text)?;
    Ok(text)
}

fn main(rt: HostRuntime) -> anyhow::Result<()> {
    for name in env::args(&rt)?.skip(1) {
        let text = read(rt.alloc(), fs::open(&rt, &name)?)?;
        let printed = transcript(rt.alloc(), &text)?;
        println!(rt; "{name}")?;
        print!(rt; "{printed}")?;
    }
    Ok(())
}
