// Scripts are run on new vaults, and what is answered is printed.
#![tactic(auto)]

mod calls;
mod lengths;
mod runs;

pub use runs::{rounds, transcript, transcripts_stand};

// One byte more than the longest script: who reads so many of a text has all of
// a script, and a longer text is too long.
pub const BYTES_TO_READ: u64 = 16385;
