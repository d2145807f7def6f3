// The file of a stripe, on any shelf: written to the boxes that stand, and boxes restored by it.
#![tactic(auto)]

mod restoring;
mod writing;

pub use restoring::{restore, restore_out};
pub use writing::write_file;
