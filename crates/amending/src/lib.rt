// Amending one symbol of a stripe's file by small writes, on any shelf.
#![tactic(auto)]

mod amendment;
mod changes;

pub use amendment::amend;
