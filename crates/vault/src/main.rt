// Reads a script, runs its commands on a vault, and prints the transcript.
#![tactic(auto)]

use std::io::Read;
use transcripts::{BYTES_TO_READ, transcript};

fn main(rt: HostRuntime) -> anyhow::Result<()> {
    let mut text = Vec::new(rt.alloc());
    rt.reader().take(BYTES_TO_READ).read_to_end(&mut text)?;
    let printed = transcript(rt.alloc(), &text)?;
    print!(rt; "{printed}")?;
    Ok(())
}
