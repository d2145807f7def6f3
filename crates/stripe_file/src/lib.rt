// The file of a stripe, on any shelf: read from the boxes that stand.
#![tactic(auto)]

mod column;
mod file;
mod search;

pub use column::read_column;
pub use file::{read_file, read_without};
pub use search::{find, listed_out, other_out};
